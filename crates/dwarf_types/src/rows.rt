//! The rows of line tables, which contracts see as the list of them.

ghost use Rattle.std.specs.Prelude.{◌≡◌, ◌<◌, [], ◌∷◌, ◌++◌, All, length, nat_eq, slice_get, slice_index_or, Some, IfOk, OnOk, OnErr};
ghost use Rattle.dwarf_types.specs.Packed.{RowWithin};
ghost use Rattle.dwarf_types.specs.Runs.{InRun, run_of};

use crate::lines::Row;
use crate::packed_row::PackedRow;
use crate::runs::{Run, held_by, part_of};
use ds_base::NoMemory;
use std::alloc::Global;
use std::marker::Model;

/// Rows, one behind the other.
#[derive(Drop)]
pub(crate) struct PackedRows {
    packed: Vec<PackedRow>,
    /// The rows whose numbers do not fit in a packed one.
    wide: Vec<Row>,
}

impl Model for PackedRows {
    ghost use Rattle.std.specs.Prelude.{List as Listed};
    ghost use Rattle.dwarf_types.specs.declared.lines.Row.{Row as ARow};

    ghost Value = { Listed ARow };

    ghost use Rattle.std.specs.Prelude.{All, map};
    ghost use Rattle.dwarf_types.specs.Packed.{RowWithin, row_of};

    ghost view = { λ r. map (row_of r.wide.items) r.packed.items };

    ghost invariant = { λ r. All (RowWithin r.wide.items) r.packed.items };
}

/// Rows where they stand.
#[derive(Clone, Copy)]
pub struct Rows<'a> {
    packed: &'a [PackedRow],
    wide: &'a [Row],
    ghost within: { All (RowWithin wide.now) packed.now },
}

impl PackedRows {
    ghost use Rattle.dwarf_types.specs.SeenLines.{rows_seen};

    /// No rows.
    pub(crate) fn new(alloc: Global) -> PackedRows
        ensures { result ≡ [] }
    {
        PackedRows {
            packed: Vec::new(alloc),
            wide: Vec::new(alloc),
        }
    }

    /// A copy.
    pub(crate) fn copy(&self, alloc: Global) -> Result<PackedRows, NoMemory>
        ensures { IfOk result (λ it. it ≡ self.now) }
    {
        Ok(PackedRows {
            packed: Vec::from_slice(alloc, &self.packed)?,
            wide: Vec::from_slice(alloc, &self.wide)?,
        })
    }

    /// How many rows there are.
    pub(crate) fn len(&self) -> usize
        ensures { result ≡ length self.now }
    {
        self.packed.len()
    }

    /// Puts a row last.
    pub(crate) fn push(&mut self, row: Row) -> Result<(), NoMemory>
        ensures ok { OnOk result (self.new ≡ self.old ++ row ∷ []) }
        ensures unchanged { OnErr result (self.new ≡ self.old) }
    {
        let Some(packed) = PackedRow::narrow(row) else {
            return self.push_wide(row);
        };
        self.packed.push(packed)?;
        Ok(())
    }

    /// Puts a row last that is kept whole.
    fn push_wide(&mut self, row: Row) -> Result<(), NoMemory>
        ensures ok { OnOk result (self.new ≡ self.old ++ row ∷ []) }
        ensures unchanged { OnErr result (self.new ≡ self.old) }
    {
        let place = self.wide.len() as u64;
        // Room first: nothing fails behind the wide row, so both lists grow or neither.
        self.packed.reserve(1)?;
        self.wide.push(row)?;
        self.packed.push_reserved(PackedRow::wide_at(place));
        Ok(())
    }

    /// How many bytes they hold.
    pub(crate) fn held_bytes(&self) -> u64 {
        held_by(&self.packed, size_of::<PackedRow>()).saturating_add(held_by(
            &self.wide,
            size_of::<Row>(),
        ))
    }

    /// Gives back what memory it holds behind its last rows.
    pub(crate) fn shrink_to_fit(&mut self)
        ensures { self.new ≡ self.old }
    {
        self.packed.shrink_to_fit();
        self.wide.shrink_to_fit();
    }

    /// The rows of a run.
    #[tactic(auto, using(crate::proofs::LineRows::run_mapped), unfolding(crate::specs::SeenLines::rows_seen))]
    pub(crate) fn part(&self, run: Run) -> Rows<'_>
        requires { InRun self.now run }
        ensures { rows_seen result ≡ run_of self.now run }
    {
        Rows {
            packed: part_of(&self.packed, run),
            wide: &self.wide,
        }
    }
}

impl<'a> Rows<'a> {
    ghost use Rattle.dwarf_types.specs.SeenLines.{rows_seen};

    /// How many rows there are.
    #[tactic(auto, unfolding(crate::specs::SeenLines::rows_seen))]
    pub fn len(&self) -> usize
        ensures { result ≡ length (rows_seen self.now) }
    {
        self.packed.len()
    }

    /// Whether there are none.
    #[tactic(auto, unfolding(crate::specs::SeenLines::rows_seen))]
    fn is_empty(&self) -> bool
        ensures { result ≡ nat_eq (length (rows_seen self.now)) 0 }
    {
        self.packed.is_empty()
    }

    /// The first row, or `None` where there are none.
    pub fn first(&self) -> Option<Row>
        ensures { result ≡ slice_get (rows_seen self.now) 0 }
    {
        if self.is_empty() {
            return None;
        }
        Some(self.row(0))
    }

    /// The row at a place, counted from 0.
    #[tactic(auto, unfolding(crate::specs::SeenLines::rows_seen))]
    pub fn row(&self, i: usize) -> Row
        requires { i < length (rows_seen self.now) }
        ensures stands { slice_get (rows_seen self.now) i ≡ Some result }
        ensures item { result ≡ slice_index_or (rows_seen self.now) i result }
    {
        self.packed[i].row(self.wide)
    }
}
