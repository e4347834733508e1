//! Call frame information (DWARF 4, section 6.4.1).

ghost use Rattle.std.specs.Prelude.{◌≡◌, ◌<◌, [], ◌∷◌, ◌++◌, All, length, map, slice_get, slice_index_or, Some, IfOk, OnOk, OnErr};
ghost use Rattle.dwarf_types.specs.declared.frames.RawFrame.{RawFrame as ARawFrame};
ghost use Rattle.dwarf_types.specs.FrameColumns.{RowFits, out_frame_of, out_row_moved};
ghost use Rattle.dwarf_types.specs.SeenFrames.{at_addresses, frame_seen, raw_frame_seen};

use crate::address::Addr;
use crate::frame_columns::{Before, FrameParts, FrameSides, moved_parts};
use crate::runs::held_by;
use ds_base::{Bytes, NoMemory};
use std::alloc::Global;
use std::marker::Model;

/// A frame description entry as it is read, with the common information entry that it names.
#[derive(Drop)]
pub struct RawFrame {
    /// What stands behind the id of the common information entry.
    pub cie: Bytes,
    /// The address of the first instruction that it describes.
    pub at: Addr,
    /// How many bytes of instructions it describes.
    pub length: u64,
    /// The call frame instructions.
    pub code: Bytes,
}

/// A frame description entry of the linked program.
#[derive(Drop)]
pub struct OutFrame {
    /// What stands behind the id of its common information entry.
    pub cie: Bytes,
    /// The address of the first instruction that it describes, in the linked program.
    pub address: u64,
    /// How many bytes of instructions it describes.
    pub length: u64,
    /// The call frame instructions.
    pub code: Bytes,
}

/// A frame description entry as it is read, where it stands.
#[derive(Clone, Copy)]
pub struct RawFrameRef<'a> {
    /// What stands behind the id of the common information entry.
    pub cie: &'a [u8],
    /// The address of the first instruction that it describes.
    pub at: Addr,
    /// How many bytes of instructions it describes.
    pub length: u64,
    /// The call frame instructions.
    pub code: &'a [u8],
}

/// A frame description entry of the linked program, where it stands.
#[derive(Clone, Copy)]
pub struct FrameRef<'a> {
    /// What stands behind the id of its common information entry.
    pub cie: &'a [u8],
    /// The address of the first instruction that it describes, in the linked program.
    pub address: u64,
    /// How many bytes of instructions it describes.
    pub length: u64,
    /// The call frame instructions.
    pub code: &'a [u8],
}

/// A frame as it is read, in its row.
#[derive(Clone, Copy)]
pub(crate) struct RawRow {
    pub(crate) at: Addr,
    pub(crate) parts: FrameParts,
}

/// A frame of the linked program in its row.
#[derive(Clone, Copy)]
pub(crate) struct OutRow {
    pub(crate) address: u64,
    pub(crate) parts: FrameParts,
}

/// Frames as they are read, which contracts see as the list of them. What frames have of one common information entry
/// is held once.
#[derive(Drop)]
pub struct RawFrames {
    rows: Vec<RawRow>,
    sides: FrameSides,
}

impl Model for RawFrames {
    ghost use Rattle.std.specs.Prelude.{All, List, map};
    ghost use Rattle.std.specs.Coded.{coded_list};
    ghost use Rattle.dwarf_types.specs.declared.frames.RawFrame.{RawFrame as ARawFrame};
    ghost use Rattle.dwarf_types.specs.contracts.frames.RawFrame.{the_row};

    ghost Value = { List ARawFrame };

    ghost coded = { coded_list the_row.coded };

    ghost use Rattle.dwarf_types.specs.FrameColumns.{AreCies, RawHeld, raw_frame_of};

    ghost view = { λ f. map (raw_frame_of f.sides) f.rows.items };

    ghost invariant = { λ f. AreCies f.sides × All (RawHeld f.sides) f.rows.items };
}

/// Frames of the linked program, which contracts see as the list of them. What frames have of one common information
/// entry is held once.
#[derive(Drop)]
pub struct OutFrames {
    rows: Vec<OutRow>,
    sides: FrameSides,
}

impl Model for OutFrames {
    ghost use Rattle.std.specs.Prelude.{All, List, map};
    ghost use Rattle.std.specs.Coded.{coded_list};
    ghost use Rattle.dwarf_types.specs.declared.frames.OutFrame.{OutFrame as AnOutFrame};
    ghost use Rattle.dwarf_types.specs.contracts.frames.OutFrame.{the_row};

    ghost Value = { List AnOutFrame };

    ghost coded = { coded_list the_row.coded };

    ghost use Rattle.dwarf_types.specs.FrameColumns.{AreCies, OutHeld, out_frame_of};

    ghost view = { λ f. map (out_frame_of f.sides) f.rows.items };

    ghost invariant = { λ f. AreCies f.sides × All (OutHeld f.sides) f.rows.items };
}

impl RawFrames {
    /// No frames.
    pub fn new(alloc: Global) -> RawFrames
        ensures { result ≡ [] }
    {
        RawFrames {
            rows: Vec::new(alloc),
            sides: FrameSides::new(alloc),
        }
    }

    /// How many frames there are.
    pub fn len(&self) -> usize
        ensures { result ≡ length self.now }
    {
        self.rows.len()
    }

    /// The frame of a number, counted from 0.
    pub fn frame(&self, k: usize) -> RawFrameRef<'_>
        requires { k < length self.now }
        ensures stands { slice_get self.now k ≡ Some (raw_frame_seen result) }
        ensures item { raw_frame_seen result ≡ slice_index_or self.now k (raw_frame_seen result) }
    {
        let row = self.rows[k];
        RawFrameRef {
            cie: self.sides.content(row.parts.cie),
            at: row.at,
            length: row.parts.length,
            code: self.sides.code(row.parts),
        }
    }

    /// Puts a frame last, with a common information entry of its own.
    pub fn push(&mut self, cie: &[u8], at: Addr, len: u64, code: &[u8]) -> Result<(), NoMemory>
        ensures ok { OnOk result (self.new ≡ self.old ++ record { cie = cie.now; at = at; length = len; code = code.now } ∷ []) }
        ensures unchanged { OnErr result (self.new ≡ self.old) }
    {
        let parts = self.sides.put(cie, len, code)?;
        self.rows.push(RawRow { at, parts })?;
        Ok(())
    }

    /// Puts a frame last, which shares the common information entry of frame `k`.
    pub fn push_sharing(
        &mut self,
        k: usize,
        at: Addr,
        len: u64,
        code: &[u8],
    ) -> Result<(), NoMemory>
        requires { k < length self.old }
        ensures ok { (f : ARawFrame) → slice_get self.old k ≡ Some f
            → OnOk result (self.new ≡ self.old ++ record { cie = f.cie; at = at; length = len; code = code.now } ∷ []) }
        ensures unchanged { OnErr result (self.new ≡ self.old) }
    {
        let cie = self.rows[k].parts.cie;
        let parts = self.sides.put_code(cie, len, code)?;
        self.rows.push(RawRow { at, parts })?;
        Ok(())
    }

    /// The frames that have an address in the linked program. There is one place for each frame, which tells it.
    pub fn into_linked(
        self,
        alloc: Global,
        addresses: &[Option<u64>],
    ) -> Result<OutFrames, NoMemory>
        requires { length addresses.now ≡ length self }
        ensures { IfOk result (λ out. out ≡ at_addresses self addresses.now) }
    {
        let RawFrames { rows, sides } = self;
        Ok(OutFrames {
            rows: linked_rows(alloc, &rows, addresses)?,
            sides,
        })
    }
}

impl OutFrames {
    /// No frames.
    pub fn new(alloc: Global) -> OutFrames
        ensures { result ≡ [] }
    {
        OutFrames {
            rows: Vec::new(alloc),
            sides: FrameSides::new(alloc),
        }
    }

    /// A copy.
    pub(crate) fn copy(&self, alloc: Global) -> Result<OutFrames, NoMemory>
        ensures { IfOk result (λ it. it ≡ self.now) }
    {
        let rows = Vec::from_slice(alloc, &self.rows)?;
        let sides = self.sides.copy(alloc)?;
        Ok(OutFrames { rows, sides })
    }

    /// How many bytes they hold.
    pub(crate) fn held_bytes(&self) -> u64 {
        held_by(&self.rows, size_of::<OutRow>()).saturating_add(self.sides.held_bytes())
    }

    /// How many frames there are.
    pub fn len(&self) -> usize
        ensures { result ≡ length self.now }
    {
        self.rows.len()
    }

    /// The frame of a number, counted from 0.
    pub fn frame(&self, k: usize) -> FrameRef<'_>
        requires { k < length self.now }
        ensures stands { slice_get self.now k ≡ Some (frame_seen result) }
        ensures item { frame_seen result ≡ slice_index_or self.now k (frame_seen result) }
    {
        let row = self.rows[k];
        FrameRef {
            cie: self.sides.content(row.parts.cie),
            address: row.address,
            length: row.parts.length,
            code: self.sides.code(row.parts),
        }
    }

    /// Puts the frames of another list behind.
    pub fn append(&mut self, other: &OutFrames) -> Result<(), NoMemory>
        ensures ok { OnOk result (self.new ≡ self.old ++ other.now) }
        ensures unchanged { OnErr result (self.new ≡ self.old) }
    {
        let before = self.sides.append(&other.sides)?;
        let rows = moved_rows(*self.rows.allocator(), &other.rows, before)?;
        self.rows.extend_from_slice(&rows)?;
        Ok(())
    }
}

/// The rows of the frames that have an address in the linked program.
fn linked_rows(
    alloc: Global,
    rows: &[RawRow],
    addresses: &[Option<u64>],
) -> Result<Vec<OutRow>, NoMemory>
    requires { length addresses.now ≡ length rows.now }
    ensures { IfOk result (λ out. out.items ≡ Rattle.dwarf_types.specs.FrameColumns.linked_rows rows.now addresses.now) }
{
    let mut linked = Vec::new(alloc);
    for i in 0..rows.len() {
        if let Some(address) = addresses[i] {
            let parts = rows[i].parts;
            linked.push(OutRow { address, parts })?;
        }
    }
    Ok(linked)
}

/// The rows behind other columns.
fn moved_rows(alloc: Global, rows: &[OutRow], before: Before) -> Result<Vec<OutRow>, NoMemory>
    requires { All (RowFits before) rows.now }
    ensures { IfOk result (λ moved. moved.items ≡ map (out_row_moved before) rows.now) }
{
    let mut moved = Vec::with_capacity(alloc, rows.len())?;
    for row in rows {
        moved.push(OutRow {
            address: row.address,
            parts: moved_parts(row.parts, before),
        })?;
    }
    Ok(moved)
}
