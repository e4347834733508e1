//! Runs of items of a column.

ghost use Rattle.std.specs.Prelude.{◌≡◌, ◌+◌, ◌++◌, [], length, IfOk, IfSome, OnOk, OnErr};
ghost use Rattle.dwarf_types.specs.Cells.{Begins};
ghost use Rattle.dwarf_types.specs.Runs.{InRun, InTexts, run_between, run_of, text_of};

use ds_base::NoMemory;
use std::alloc::Global;

/// From one place of a column up to another.
#[derive(Clone, Copy)]
pub(crate) struct Run {
    pub(crate) from: usize,
    pub(crate) to: usize,
}

/// A text: a run of a table's own bytes, or of a section of texts that tables share.
#[derive(Clone, Copy)]
pub(crate) enum TextRun {
    Own(Run),
    Shared(Run),
}

/// The items of a run.
pub(crate) fn part_of<T>(column: &[T], run: Run) -> &[T]
    requires { InRun column.now run }
    ensures { result.now ≡ run_of column.now run }
{
    &column[run.from..run.to]
}

/// The run from one place up to another; where there is nothing between, the one empty run.
pub(crate) fn run_between(from: usize, to: usize) -> Run
    ensures { result ≡ run_between from to }
{
    if from < to {
        Run { from, to }
    } else {
        Run { from: 0, to: 0 }
    }
}

/// No items, and room for `count` of them if the allocator has it.
pub(crate) fn room_for<T: Copy>(alloc: Global, count: usize) -> Vec<T>
    ensures { result.items ≡ [] }
{
    match Vec::with_capacity(alloc, count) {
        Ok(items) => items,
        Err(_) => Vec::new(alloc),
    }
}

/// How many bytes a column holds, whose items have so many each.
pub(crate) fn held_by<T>(column: &Vec<T>, size: usize) -> u64 {
    (column.capacity() as u64).saturating_mul(size as u64)
}

/// Takes copies of items in place of those of a column.
pub(crate) fn take_copy<T: Copy>(column: &mut Vec<T>, items: &[T]) -> Result<(), NoMemory>
    ensures { OnOk result (column.new.items ≡ items.now) }
{
    column.clear();
    column.extend_from_slice(items)?;
    Ok(())
}

/// Puts items last, and answers where they lie.
pub(crate) fn append<T: Copy>(column: &mut Vec<T>, items: &[T]) -> Result<Run, NoMemory>
    ensures ok { OnOk result (column.new.items ≡ column.old.items ++ items.now) }
    ensures at { IfOk result (λ run. (run.from ≡ length column.old.items) × (run.to ≡ length column.old.items + length items.now)) }
    ensures unchanged { OnErr result (column.new.items ≡ column.old.items) }
{
    let from = column.len();
    column.extend_from_slice(items)?;
    Ok(Run {
        from,
        to: column.len(),
    })
}

/// The bytes of a text.
pub(crate) fn text_in<'a>(shared: &'a [u8], own: &'a [u8], text: TextRun) -> &'a [u8]
    requires { InTexts shared.now own.now text }
    ensures { result.now ≡ text_of shared.now own.now text }
{
    match text {
        TextRun::Own(run) => part_of(own, run),
        TextRun::Shared(run) => part_of(shared, run),
    }
}

/// Keeps a text, and answers where it lies: where it stands in the shared texts, else last among the own bytes.
///
/// `place` is where it is likely to stand in the shared texts.
pub(crate) fn keep_text(
    shared: &[u8],
    own: &mut Vec<u8>,
    text: &[u8],
    place: Option<u32>,
) -> Result<TextRun, NoMemory>
    ensures within { IfOk result (λ kept. InTexts shared.now own.new.items kept) }
    ensures is { IfOk result (λ kept. text_of shared.now own.new.items kept ≡ text.now) }
    ensures grows { Begins own.old.items own.new.items }
    ensures unchanged { OnErr result (own.new.items ≡ own.old.items) }
{
    if let Some(place) = place {
        if let Some(run) = run_at(shared, place, text) {
            return Ok(TextRun::Shared(run));
        }
    }
    Ok(TextRun::Own(append(own, text)?))
}

/// The run of a text that stands at a place.
fn run_at(texts: &[u8], place: u32, text: &[u8]) -> Option<Run>
    ensures within { IfSome result (λ run. InRun texts.now run) }
    ensures is { IfSome result (λ run. run_of texts.now run ≡ text.now) }
{
    let from = place as usize;
    let to = from.checked_add(text.len())?;
    if to <= texts.len() && &texts[from..to] == text {
        Some(Run { from, to })
    } else {
        None
    }
}
