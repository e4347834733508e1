//! Which FDEs name the start of a CIE.

ghost use Rattle.std.specs.Prelude.{◌≡◌, ◌≤◌, ◌<◌, ◌==◌, length, IfSome};
ghost use Rattle.std.specs.List.{find};
ghost use Rattle.std.specs.Option.{option_map};
ghost use Rattle.std.specs.List.Sorted.{IsPartitionPoint};
ghost use Rattle.frame_table.specs.Naming.{cie_at};
ghost use Rattle.frame_table.specs.Order.{StandApart, IsFirst, IsFirstMissed, earlier_of, entry_of, is_due_at, is_missed};

use crate::entry::FrameEntry;

/// An FDE that does not name the start of a CIE, and the entry at which that shows. Both are indices from 0.
#[derive(Clone, Copy)]
pub(crate) struct Missed {
    /// The entry at which it shows.
    pub(crate) at: usize,
    /// The FDE.
    pub(crate) entry: usize,
}

/// The FDE without a CIE that shows first, of those that show at one entry the first. `size` is the section's.
pub(crate) fn first_missed(entries: &[FrameEntry], size: u64) -> Option<Missed>
    requires { StandApart entries.now }
    ensures { IsFirstMissed (is_missed size entries.now) (length entries.now) (length entries.now) result }
{
    let mut first = None;
    for i in 0..entries.len() {
        first = earlier(first, missed_at(entries, size, i), i);
    }
    first
}

/// The one that shows first, of those before an entry and that entry itself.
fn earlier(first: Option<Missed>, at: Option<usize>, entry: usize) -> Option<Missed>
    ensures { result ≡ earlier_of first at entry }
{
    let Some(at) = at else {
        return first;
    };
    match first {
        Some(missed) if missed.at <= at => Some(missed),
        _ => Some(Missed { at, entry }),
    }
}

/// The entry at which it shows that the entry of index `i` is an FDE and names no CIE.
fn missed_at(entries: &[FrameEntry], size: u64, i: usize) -> Option<usize>
    requires apart { StandApart entries.now }
    requires within { i < length entries.now }
    ensures { IsFirst (λ at. is_missed size entries.now at i) (length entries.now) result }
{
    let entry = &entries[i];
    if entry.is_cie() {
        return None;
    }
    if find_cie(entries, u64::from(entry.id)).is_some() {
        return None;
    }
    due_at(entries, size, i)
}

/// The first entry at which the CIE of the FDE of index `i` is due.
fn due_at(entries: &[FrameEntry], size: u64, i: usize) -> Option<usize>
    requires apart { StandApart entries.now }
    requires within { i < length entries.now }
    ensures { IsFirst (is_due_at size entries.now i) (length entries.now) result }
{
    let place = u64::from(entries[i].id);
    if place >= size {
        return Some(i);
    }
    let at = holder(entries, place).max(i);
    if at < entries.len() { Some(at) } else { None }
}

/// The index of the CIE that begins at a place.
pub(crate) fn find_cie(entries: &[FrameEntry], place: u64) -> Option<usize>
    requires { StandApart entries.now }
    ensures is { option_map (entry_of entries.now) result ≡ cie_at entries.now place }
    ensures within { IfSome result (λ n. n < length entries.now) }
{
    match find_entry(entries, place) {
        Some(i) if entries[i].is_cie() => Some(i),
        _ => None,
    }
}

/// The index of the entry that begins at a place.
fn find_entry(entries: &[FrameEntry], place: u64) -> Option<usize>
    requires { StandApart entries.now }
    ensures is { option_map (entry_of entries.now) result ≡ find (λ e. e.place == place) entries.now }
    ensures within { IfSome result (λ n. n < length entries.now) }
{
    let i = holder(entries, place);
    if i >= entries.len() {
        return None;
    }
    if entries[i].place == place {
        Some(i)
    } else {
        None
    }
}

/// The index of the first entry that ends behind a place, or how many there are.
fn holder(entries: &[FrameEntry], place: u64) -> usize
    requires { StandApart entries.now }
    ensures within { result ≤ length entries.now }
    ensures holder { IsPartitionPoint (λ e. e.end ≤ place) (λ e. place < e.end) entries.now result }
{
    entries.partition_point(|entry| entry.end <= place)
}
