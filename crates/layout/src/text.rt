//! The texts of drafts.

ghost use Rattle.std.specs.Prelude.{◌≡◌, ◌-◌, ◌^◌, ◌≤◌, Err, IfOk, length, map};
ghost use Rattle.ds_base.specs.Texts.{section_of};
ghost use Rattle.layout.specs.Pass.{names_in, texts_by, texts_for};
ghost use Rattle.text_pool.specs.declared.error.TextError.TheVariants as errors;

use ds_base::{Bytes, List, NoMemory};
use std::alloc::Global;
use std::thread::Threads;
use text_pool::{Joined, Names, TextError, join_texts};
use unit_draft::Draft;

/// Whose texts they are. Each have a section.
#[derive(Clone, Copy)]
pub(crate) enum TextsOf {
    /// Those of the entries: `__debug_str`.
    Entries,
    /// Those of the line tables: `__debug_line_str`.
    Lines,
}

/// The texts of drafts as a section.
#[derive(Drop)]
pub(crate) struct Texts {
    /// The bytes of the section: each text once, by first use, with a zero byte behind it.
    pub(crate) section: Bytes,
    /// Where the texts of each draft stand in it.
    pub(crate) places: List<List<u32>>,
}

/// The texts of drafts, and where they stand. At most `workers` threads look the texts up. The section takes the place of a
/// room.
pub(crate) fn texts_in<R: Threads + Sync>(
    rt: &R,
    alloc: Global,
    room: Vec<u8>,
    workers: u32,
    drafts: &[Draft],
    of: TextsOf,
) -> Result<Texts, TextError>
    requires { 1 ≤ workers }
    ensures ok { IfOk result (λ texts. texts ≡ texts_for of drafts.now) }
    ensures long { result ≡ Err errors.Long → 2 ^ 32 - 1 ≤ length (section_of (texts_by of drafts.now)) }
{
    let names = all_names(alloc, drafts, of)?;
    let Joined { section, places } = join_texts(rt, alloc, room, workers, names.as_slice())?;
    Ok(Texts { section, places })
}

/// The texts of each draft.
fn all_names<'a>(
    alloc: Global,
    drafts: &'a [Draft],
    of: TextsOf,
) -> Result<Vec<&'a Names>, NoMemory>
    ensures { IfOk result (λ all. map (λ names. names.now) all.items ≡ map (names_in of) drafts.now) }
{
    let mut all = Vec::with_capacity(alloc, drafts.len())?;
    for draft in drafts {
        all.push(names_of(draft, of))?;
    }
    Ok(all)
}

/// The texts of a draft.
fn names_of(draft: &Draft, of: TextsOf) -> &Names
    ensures { result.now ≡ names_in of draft.now }
{
    match of {
        TextsOf::Entries => &draft.names,
        TextsOf::Lines => &draft.line_names,
    }
}
