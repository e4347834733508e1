//! Texts by their numbers, for a part of the output that is written before the section has its places.

ghost use Rattle.std.specs.Prelude.{◌≡◌, [], ◌∷◌, ◌++◌, List as Listed, ℕ, ◌≤◌, fold, IfOk, OnErr, OnOk, length, option_map, slice_get};
ghost use Rattle.std.specs.List.{flat_map};
ghost use Rattle.std.specs.Str.{bytes_eq};
ghost use Rattle.ds_base.specs.FirstUse.{once};
ghost use Rattle.ds_base.specs.Texts.{with_text};
ghost use Rattle.text_pool.specs.Named.{start_of};

use ds_base::{NoMemory, cut};
use std::alloc::Global;
use std::marker::Model;

/// Texts in order.
///
/// A contract sees the list of the texts. The number of a text is its place in the list, from 0. They take two blocks of
/// memory, however many they are.
#[derive(Drop)]
pub struct Names {
    // the texts, one behind the other
    bytes: Vec<u8>,
    // where each ends
    ends: Vec<usize>,
}

impl Model for Names {
    ghost use Rattle.std.specs.Prelude.{List, ℕ, length};
    ghost use Rattle.text_pool.specs.Named.{AreEnds, texts_from};

    ghost Value = { List (List ℕ) };

    ghost view = { λ a. texts_from 0 a.ends.items a.bytes.items };

    ghost invariant = { λ a. AreEnds 0 a.ends.items (length a.bytes.items) };
}

impl Names {
    /// No texts. It asks the allocator for nothing.
    pub(crate) fn new(alloc: Global) -> Names
        ensures { result ≡ [] }
    {
        Names {
            bytes: Vec::new(alloc),
            ends: Vec::new(alloc),
        }
    }

    /// The same texts, without memory behind the last.
    pub(crate) fn shrunk(self) -> Names
        ensures { result ≡ self }
    {
        let Names {
            mut bytes,
            mut ends,
        } = self;
        bytes.shrink_to_fit();
        ends.shrink_to_fit();
        Names { bytes, ends }
    }

    /// Puts a text last. Where there is no memory for it, the texts stay.
    pub(crate) fn push(&mut self, text: &[u8]) -> Result<(), NoMemory>
        ensures ok { OnOk result (self.new ≡ self.old ++ text.now ∷ []) }
        ensures unchanged { OnErr result (self.new ≡ self.old) }
    {
        self.ends.reserve(1)?;
        self.bytes.extend_from_slice(text)?;
        self.ends.push_reserved(self.bytes.as_slice().len());
        Ok(())
    }

    /// How many texts there are.
    pub fn len(&self) -> usize
        ensures { result ≡ length self.now }
    {
        self.ends.as_slice().len()
    }

    /// The text of a number, or `None` behind the last.
    pub fn get(&self, number: usize) -> Option<&[u8]>
        ensures { option_map (λ text. text.now) result ≡ slice_get self.now number }
    {
        let end = end_of(self.ends.as_slice(), number)?;
        let start = start_of(self.ends.as_slice(), number);
        Some(cut(self.bytes.as_slice(), start, end - start))
    }
}

/// Where the text of a number ends, or `None` behind the last.
fn end_of(ends: &[usize], number: usize) -> Option<usize>
    ensures { result ≡ slice_get ends.now number }
{
    ends.get(number).copied()
}

/// Where a text begins, by the ends of all: where the one before it ends.
fn start_of(ends: &[usize], number: usize) -> usize
    requires { number ≤ length ends.now }
    ensures { result ≡ start_of 0 ends.now number }
{
    if number == 0 { 0 } else { ends[number - 1] }
}

/// The law of texts that are told part by part: those of each part by first use, added in the order of the parts,
/// are the texts of all parts by first use.
pub fn texts_by_first_use_in_each_part_are_those_of_all<U>()
    ensures { (uses : U → Listed (Listed ℕ)) (parts : Listed U) → fold with_text [] (flat_map (λ u. once bytes_eq (uses u)) parts) ≡ once bytes_eq (flat_map uses parts) }
{}
