//! The entries of the section, by where they stand.

ghost use Rattle.std.specs.Prelude.{◌≡◌, ◌+◌, ◌≤◌, [], length, OnOk, IfOk};
ghost use Rattle.std.specs.List.{All};
ghost use Rattle.ds_base.specs.Reading.{Finds};
ghost use Rattle.frame_table.specs.Entry.{entry_at};
ghost use Rattle.frame_table.specs.Order.{StandApart, AreAllEntries};

use ds_base::dwarf::{DW_CIE_ID, LENGTH_RESERVED};
use ds_base::{Cursor, Fault, Kind, NoMemory, Part};
use std::alloc::Global;

/// An entry of the section, by where it stands and what it begins with. Places count bytes from the section's start.
#[derive(Clone, Copy)]
pub(crate) struct FrameEntry {
    /// The place of its first byte, where its length stands.
    pub(crate) place: u64,
    /// The place behind its last byte.
    pub(crate) end: u64,
    /// That of a CIE, or the place of the CIE that it names.
    pub(crate) id: u32,
}

impl FrameEntry {
    /// Whether it is a CIE, and not an FDE.
    pub(crate) fn is_cie(&self) -> bool
        ensures { result ≡ Rattle.frame_table.specs.Entry.is_cie self.now }
    {
        self.id == DW_CIE_ID
    }
}

/// The entries up to the first whose length or id is faulty.
#[derive(Drop)]
pub(crate) struct Entries {
    /// The entries one after the other, from the section's start.
    pub(crate) list: Vec<FrameEntry>,
    /// The fault in the length or id of the next one, if the entries don't fill the section.
    pub(crate) stop: Option<Fault>,
}

/// The entries of the section, as far as they are found.
pub(crate) fn read_entries(alloc: Global, bytes: &[u8]) -> Result<Entries, NoMemory>
    ensures all { IfOk result (λ entries. AreAllEntries bytes.now entries.list.items entries.stop) }
    ensures apart { IfOk result (λ entries. StandApart entries.list.items) }
    ensures within { IfOk result (λ entries. All (λ e. e.end ≤ length bytes.now) entries.list.items) }
{
    let mut list = Vec::new(alloc);
    let mut place = 0;
    let end = bytes.len() as u64;
    while place < end {
        match read_entry(bytes, place) {
            Ok(entry) => {
                list.push(entry)?;
                place = entry.end;
            }
            Err(fault) => {
                return Ok(Entries {
                    list,
                    stop: Some(fault),
                });
            }
        }
    }
    Ok(Entries { list, stop: None })
}

/// The entry that begins at a place.
#[tactic(auto, unfolding(crate::specs::Entry::entry_at, ds_base::specs::Reading::number_at))]
fn read_entry(bytes: &[u8], place: u64) -> Result<FrameEntry, Fault>
    requires { place ≤ length bytes.now }
    ensures read { Finds (λ entry. entry) result (entry_at bytes.now place) }
    ensures place { IfOk result (λ entry. entry.place ≡ place) }
    ensures filled { IfOk result (λ entry. entry.place + 8 ≤ entry.end) }
    ensures within { IfOk result (λ entry. entry.end ≤ length bytes.now) }
{
    let mut cursor = Cursor::new(bytes, Part::Frame, place, bytes.len() as u64);
    let bad = cursor.fault(Kind::BadFrame);
    let len = cursor.u32()?;
    if len >= LENGTH_RESERVED || cursor.left() < u64::from(len) {
        return Err(bad);
    }
    let end = cursor.place() + u64::from(len);
    let mut inside = Cursor::new(bytes, Part::Frame, cursor.place(), end);
    let id = inside.u32()?;
    Ok(FrameEntry { place, end, id })
}
