//! The rows of operations, which contracts see as the list of them.

ghost use Rattle.std.specs.Prelude.{◌≡◌, ◌<◌, [], ◌∷◌, ◌++◌, length, slice_index_or, IfOk, OnOk, OnErr};
ghost use Rattle.dwarf_types.specs.Runs.{InRun, run_of};

use crate::packed_op::PackedOp;
use crate::runs::{Run, held_by, part_of};
use crate::sides::OpRow;
use ds_base::NoMemory;
use std::alloc::Global;
use std::marker::Model;

/// Operations, one behind the other.
#[derive(Drop)]
pub(crate) struct OpRows {
    packed: Vec<PackedOp>,
    /// The operations whose numbers do not fit in a packed one.
    wide: Vec<OpRow>,
}

impl Model for OpRows {
    ghost use Rattle.std.specs.Prelude.{List as Listed};
    ghost use Rattle.dwarf_types.specs.declared.sides.OpRow.{OpRow as ARow};

    ghost Value = { Listed ARow };

    ghost use Rattle.std.specs.Prelude.{All, map};
    ghost use Rattle.dwarf_types.specs.PackedOps.{RowWithin, row_of};

    ghost view = { λ r. map (row_of r.wide.items) r.packed.items };

    ghost invariant = { λ r. All (RowWithin r.wide.items) r.packed.items };
}

/// Operations where they stand, which contracts see as the list of them.
#[derive(Drop)]
pub(crate) struct OpRowsPart<'a> {
    packed: &'a [PackedOp],
    wide: &'a [OpRow],
}

impl<'a> Model for OpRowsPart<'a> {
    ghost use Rattle.std.specs.Prelude.{List as Listed};
    ghost use Rattle.dwarf_types.specs.declared.sides.OpRow.{OpRow as ARow};

    ghost Value = { Listed ARow };

    ghost use Rattle.std.specs.Prelude.{All, map};
    ghost use Rattle.dwarf_types.specs.PackedOps.{RowWithin, row_of};

    ghost view = { λ r. map (row_of r.wide.now) r.packed.now };

    ghost invariant = { λ r. All (RowWithin r.wide.now) r.packed.now };
}

impl OpRows {
    /// No operations.
    pub(crate) fn new(alloc: Global) -> OpRows
        ensures { result ≡ [] }
    {
        OpRows {
            packed: Vec::new(alloc),
            wide: Vec::new(alloc),
        }
    }

    /// A copy.
    pub(crate) fn copy(&self, alloc: Global) -> Result<OpRows, NoMemory>
        ensures { IfOk result (λ it. it ≡ self.now) }
    {
        Ok(OpRows {
            packed: Vec::from_slice(alloc, &self.packed)?,
            wide: Vec::from_slice(alloc, &self.wide)?,
        })
    }

    /// How many operations there are.
    pub(crate) fn len(&self) -> usize
        ensures { result ≡ length self.now }
    {
        self.packed.len()
    }

    /// Puts an operation last.
    pub(crate) fn push(&mut self, row: OpRow) -> Result<(), NoMemory>
        ensures ok { OnOk result (self.new ≡ self.old ++ row ∷ []) }
        ensures unchanged { OnErr result (self.new ≡ self.old) }
    {
        let Some(packed) = PackedOp::narrow(row) else {
            return self.push_wide(row);
        };
        self.packed.push(packed)?;
        Ok(())
    }

    /// Puts an operation last that is kept whole.
    fn push_wide(&mut self, row: OpRow) -> Result<(), NoMemory>
        ensures ok { OnOk result (self.new ≡ self.old ++ row ∷ []) }
        ensures unchanged { OnErr result (self.new ≡ self.old) }
    {
        let place = self.wide.len() as u64;
        // Room first: nothing fails behind the wide operation, so both lists grow or neither.
        self.packed.reserve(1)?;
        self.wide.push(row)?;
        self.packed.push_reserved(PackedOp::wide_at(place));
        Ok(())
    }

    /// How many bytes they hold.
    pub(crate) fn held_bytes(&self) -> u64 {
        held_by(&self.packed, size_of::<PackedOp>()).saturating_add(held_by(
            &self.wide,
            size_of::<OpRow>(),
        ))
    }

    /// Takes all operations out. Their memory is kept.
    pub(crate) fn clear(&mut self)
        ensures { self.new ≡ [] }
    {
        self.packed.clear();
        self.wide.clear();
    }

    /// All operations.
    pub(crate) fn whole(&self) -> OpRowsPart<'_>
        ensures { result ≡ self.now }
    {
        OpRowsPart {
            packed: &self.packed,
            wide: &self.wide,
        }
    }

    /// The operations of a run.
    #[tactic(auto, using(crate::proofs::LineRows::run_mapped))]
    pub(crate) fn part(&self, run: Run) -> OpRowsPart<'_>
        requires { InRun self.now run }
        ensures { result ≡ run_of self.now run }
    {
        OpRowsPart {
            packed: part_of(&self.packed, run),
            wide: &self.wide,
        }
    }
}

impl<'a> OpRowsPart<'a> {
    /// How many operations there are.
    pub(crate) fn len(&self) -> usize
        ensures { result ≡ length self.now }
    {
        self.packed.len()
    }

    /// The operation at a place, counted from 0.
    pub(crate) fn row(&self, i: usize) -> OpRow
        requires { i < length self.now }
        ensures { result ≡ slice_index_or self.now i result }
    {
        packed_at(self.packed, i).row(self.wide)
    }
}

/// The packed operation at a place.
fn packed_at(packed: &[PackedOp], i: usize) -> PackedOp
    requires { i < length packed.now }
    ensures { result ≡ slice_index_or packed.now i result }
{
    packed[i]
}
