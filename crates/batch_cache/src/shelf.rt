//! The analyses that are kept.

ghost use Rattle.std.specs.Prelude.{◌≡◌, ◌≤◌, length, None, IfSome};
ghost use Rattle.std.specs.List.{All};
ghost use Rattle.batch_cache.specs.Shelves.{AreApart, IsEnd, IsOther, asked_key, key_of};

use crate::kept::{Asked, Kept};
use ds_base::NoMemory;
use dwarf_types::Analysis;
use std::alloc::Global;

/// The most bytes that the analyses on a shelf take, with the bytes of their objects.
const MOST_BYTES: u64 = 1 << 28;

/// Analyses that are kept, from the oldest on: at most so many, and no two of the same.
#[derive(Drop)]
pub struct Shelf {
    kept: Vec<Kept>,
    most: u32,
    ghost few: { length kept.items ≤ most },
    ghost apart: { AreApart kept.items },
}

impl Shelf {
    ghost use Rattle.std.specs.Prelude.{◌≡◌, Ok, IfOk, IfSome};
    ghost use Rattle.object_view.specs.Analysis.{analysis_of};

    /// An empty shelf, with memory for so many analyses.
    pub(crate) fn new(alloc: Global, most: u32) -> Result<Shelf, NoMemory> {
        Ok(Shelf {
            kept: Vec::with_capacity(alloc, most as usize)?,
            most,
        })
    }

    /// The analyses, from the oldest on.
    pub fn kept(&self) -> &[Kept]
        ensures { result.now ≡ self.now.kept.items }
    {
        self.kept.as_slice()
    }

    /// A copy of the analysis of what is asked, where it is kept.
    pub(crate) fn copy_of(&self, alloc: Global, asked: &Asked) -> Result<Option<Analysis>, NoMemory>
        ensures { IfOk result (λ found. IfSome found (λ seen. analysis_of asked.now.bytes.now asked.now.object.now asked.now.cpu ≡ Ok seen)) }
    {
        match find(self.kept.as_slice(), asked) {
            Some(kept) => Ok(Some(kept.copied(alloc)?)),
            None => Ok(None),
        }
    }

    /// Keeps an analysis, unless it is kept already or too large. Where the shelf is full, the oldest ones go; where
    /// memory lacks, it stays as it is.
    pub(crate) fn enter(&mut self, kept: Kept) {
        if kept.held() <= MOST_BYTES && find(self.kept.as_slice(), &kept.asked()).is_none() {
            make_room(&mut self.kept, self.most, kept.held());
            put(&mut self.kept, self.most, kept);
        }
    }
}

/// The first of these that is the analysis of what is asked.
fn find<'a>(all: &'a [Kept], asked: &Asked) -> Option<&'a Kept>
    ensures found { IfSome result (λ kept. key_of kept.now ≡ asked_key asked.now) }
    ensures none { result ≡ None → All (IsOther (asked_key asked.now)) all.now }
{
    for kept in all {
        if kept.is_of(asked) {
            return Some(kept);
        }
    }
    None
}

/// Lets the oldest ones go, until there is room for one that takes so many bytes, or none is left.
fn make_room(all: &mut Vec<Kept>, most: u32, held: u64)
    ensures { IsEnd all.old.items all.new.items }
{
    while !all.is_empty()
        && (all.len() >= most as usize || total(all.as_slice(), held) > MOST_BYTES)
    {
        all.remove(0);
    }
}

/// How many bytes these take, and one more that takes `held`.
fn total(all: &[Kept], held: u64) -> u64 {
    let mut total = held;
    for kept in all {
        total = total.saturating_add(kept.held());
    }
    total
}

/// Puts one behind these, where there are not so many yet.
fn put(all: &mut Vec<Kept>, most: u32, kept: Kept)
    requires other { All (IsOther (key_of kept)) all.old.items }
    requires few { length all.old.items ≤ most }
    requires apart { AreApart all.old.items }
    ensures few { length all.new.items ≤ most }
    ensures apart { AreApart all.new.items }
{
    if all.len() < most as usize {
        let _put = all.push(kept);
    }
}
