//! A row of numbers, filled by several threads.

ghost use Rattle.std.specs.Prelude.{◌≡◌, ℕ, ◌+◌, ◌^◌, ◌<◌, ◌≤◌, length, slice_index};
ghost use Rattle.std.specs.Thread.{IsSync};

use std::thread::{Threads, join_mut};

/// Who fills a row, part by part.
pub(crate) trait Filler {
    // How long the row is.
    ghost size: { Self → ℕ };

    // Whether a number may stand at a place of it.
    ghost fits: { Self → ℕ → ℕ → Type 0 };

    /// Fills the part of the row that begins at a place.
    fn fill(&self, start: usize, part: &mut [u32])
        requires within { start + length part.old ≤ size self.now }
        ensures len { length part.new ≡ length part.old }
        ensures each { (k : ℕ) → k < length part.old → fits self.now (start + k) (slice_index part.new k) };
}

/// Fills what of a row begins at a place, by at most so many threads, each of which fills a part.
///
/// The caller's thread begins all others: a system puts a thread that was begun by a new one on the processor of that one.
#[cycle(fillers)]
pub(crate) fn fill_parts<R: Threads + Sync, F: Filler + Sync>(
    rt: &R,
    workers: u32,
    filler: &F,
    start: usize,
    row: &mut [u32],
)
    requires within { start + length row.old ≤ F.size filler.now }
    requires small { F.size filler.now < 2 ^ 64 }
    ensures len { length row.new ≡ length row.old }
    ensures each { (k : ℕ) → k < length row.old → F.fits filler.now (start + k) (slice_index row.new k) }
{
    if workers < 2 {
        filler.fill(start, row);
        return;
    }
    let share = row.len() / workers as usize;
    let (part, rest) = row.split_at_mut(share);
    fill_both(rt, workers - 1, filler, start, start + share, part, rest);
}

/// Fills a part of a row, and beside it the rest by so many threads.
#[cycle(fillers)]
fn fill_both<R: Threads + Sync, F: Filler + Sync>(
    rt: &R,
    others: u32,
    filler: &F,
    start: usize,
    behind: usize,
    part: &mut [u32],
    rest: &mut [u32],
)
    requires some { 1 ≤ others }
    requires behind { start + length part.old ≡ behind }
    requires within { behind + length rest.old ≤ F.size filler.now }
    requires small { F.size filler.now < 2 ^ 64 }
    ensures len { (length part.new ≡ length part.old) × (length rest.new ≡ length rest.old) }
    ensures part { (k : ℕ) → k < length part.old → F.fits filler.now (start + k) (slice_index part.new k) }
    ensures rest { (k : ℕ) → k < length rest.old → F.fits filler.now (behind + k) (slice_index rest.new k) }
{
    let mut fill_part = ||
        requires { IsSync F.row × (start + length part.now ≤ F.size filler.now) }
        ensures { (length part.exit.now ≡ length part.entry.now) × ((k : ℕ) → k < length part.entry.now → F.fits filler.entry.now (start + k) (slice_index part.exit.now k)) }
    { filler.fill(start, part) };
    let mut fill_rest = ||
        requires { IsSync R.row × IsSync F.row × (behind + length rest.now ≤ F.size filler.now) × (F.size filler.now < 2 ^ 64) }
        ensures { (length rest.exit.now ≡ length rest.entry.now) × ((k : ℕ) → k < length rest.entry.now → F.fits filler.entry.now (behind + k) (slice_index rest.exit.now k)) }
    { fill_parts(rt, others, filler, behind, rest) };
    join_mut(rt, &mut fill_part, &mut fill_rest);
}
