//! The sequences of a line table, which contracts see as the list of them.

ghost use Rattle.std.specs.Prelude.{◌≡◌, ◌<◌, [], ◌∷◌, ◌++◌, None, length, slice_get, slice_index_or, Some, IfOk, OnOk, OnErr};
ghost use Rattle.dwarf_types.specs.SeenLines.{last_of, raw_sequence_seen, sequence_seen};

use crate::address::Addr;
use crate::lines::{RawRow, Row};
use crate::rows::{PackedRows, Rows};
use crate::runs::{Run, held_by, part_of};
use ds_base::NoMemory;
use std::alloc::Global;
use std::marker::Model;

/// Sequences of a line table, as they are written.
#[derive(Drop)]
pub struct Sequences {
    rows: PackedRows,
    runs: Vec<SequenceRow>,
}

impl Model for Sequences {
    ghost use Rattle.std.specs.Prelude.{List as Listed};
    ghost use Rattle.dwarf_types.specs.declared.lines.Sequence.{Sequence as ASequence};

    ghost Value = { Listed ASequence };

    ghost use Rattle.std.specs.Prelude.{All, map};
    ghost use Rattle.dwarf_types.specs.LineColumns.{SequenceWithin, sequence_of};

    ghost view = { λ s. map (sequence_of s.rows) s.runs.items };

    ghost invariant = { λ s. All (SequenceWithin s.rows) s.runs.items };
}

/// A sequence, whose rows are a run of all rows.
#[derive(Clone, Copy)]
pub(crate) struct SequenceRow {
    pub(crate) rows: Run,
    pub(crate) end: u64,
}

/// A sequence where it stands.
#[derive(Clone, Copy)]
pub struct SequenceRef<'a> {
    pub rows: Rows<'a>,
    /// The address behind the last instruction.
    pub end: u64,
}

/// Sequences, and the rows of the next one.
#[derive(Drop)]
pub struct SequenceBuilder {
    rows: PackedRows,
    ended: Vec<SequenceRow>,
    /// The place of the first row that is no sequence's yet.
    open_from: usize,
}

impl Model for SequenceBuilder {
    ghost use Rattle.dwarf_types.specs.SeenLines.{SequencesBuilt};

    ghost Value = { SequencesBuilt };

    ghost use Rattle.dwarf_types.specs.LineColumns.{IsBuilt, built_of};

    ghost view = { λ b. built_of b.rows b.ended.items b.open_from };

    ghost invariant = { λ b. IsBuilt b.rows b.ended.items b.open_from };
}

/// Sequences of a line table, as they are read.
#[derive(Drop)]
pub struct RawSequences {
    rows: Vec<RawRow>,
    runs: Vec<RawSequenceRow>,
}

impl Model for RawSequences {
    ghost use Rattle.std.specs.Prelude.{List as Listed};
    ghost use Rattle.dwarf_types.specs.declared.lines.RawSequence.{RawSequence as ASequence};

    ghost Value = { Listed ASequence };

    ghost use Rattle.std.specs.Prelude.{All, map};
    ghost use Rattle.dwarf_types.specs.LineColumns.{RawSequenceWithin, raw_sequence_of};

    ghost view = { λ s. map (raw_sequence_of s.rows.items) s.runs.items };

    ghost invariant = { λ s. All (RawSequenceWithin s.rows.items) s.runs.items };
}

/// The same as it is read.
#[derive(Clone, Copy)]
pub(crate) struct RawSequenceRow {
    pub(crate) rows: Run,
    pub(crate) end: Option<Addr>,
}

/// A sequence as it is read, where it stands.
#[derive(Clone, Copy)]
pub struct RawSequenceRef<'a> {
    pub rows: &'a [RawRow],
    /// The address behind the last instruction; none where the program ends before the sequence does.
    pub end: Option<Addr>,
}

/// Sequences as they are read, and the rows of the next one.
#[derive(Drop)]
pub struct RawSequenceBuilder {
    rows: Vec<RawRow>,
    ended: Vec<RawSequenceRow>,
    /// The place of the first row that is no sequence's yet.
    open_from: usize,
}

impl Model for RawSequenceBuilder {
    ghost use Rattle.dwarf_types.specs.SeenLines.{RawSequencesBuilt};

    ghost Value = { RawSequencesBuilt };

    ghost use Rattle.dwarf_types.specs.LineColumns.{IsRawBuilt, raw_built_of};

    ghost view = { λ b. raw_built_of b.rows.items b.ended.items b.open_from };

    ghost invariant = { λ b. IsRawBuilt b.rows.items b.ended.items b.open_from };
}

impl Sequences {
    /// No sequences.
    pub fn new(alloc: Global) -> Sequences
        ensures { result ≡ [] }
    {
        Sequences {
            rows: PackedRows::new(alloc),
            runs: Vec::new(alloc),
        }
    }

    /// A copy.
    pub(crate) fn copy(&self, alloc: Global) -> Result<Sequences, NoMemory>
        ensures { IfOk result (λ it. it ≡ self.now) }
    {
        Ok(Sequences {
            rows: self.rows.copy(alloc)?,
            runs: Vec::from_slice(alloc, &self.runs)?,
        })
    }

    /// How many bytes they hold.
    pub(crate) fn held_bytes(&self) -> u64 {
        self.rows
            .held_bytes()
            .saturating_add(held_by(&self.runs, size_of::<SequenceRow>()))
    }

    /// How many sequences there are.
    pub fn len(&self) -> usize
        ensures { result ≡ length self.now }
    {
        self.runs.len()
    }

    /// The sequence at a place, counted from 0.
    pub fn sequence(&self, i: usize) -> SequenceRef<'_>
        requires { i < length self.now }
        ensures stands { slice_get self.now i ≡ Some (sequence_seen result) }
        ensures item { sequence_seen result ≡ slice_index_or self.now i (sequence_seen result) }
    {
        let run = self.runs[i];
        SequenceRef {
            rows: self.rows.part(run.rows),
            end: run.end,
        }
    }
}

impl SequenceBuilder {
    /// No sequences, and no rows.
    pub fn new(alloc: Global) -> SequenceBuilder
        ensures { result ≡ record { ended = []; rows = [] } }
    {
        SequenceBuilder {
            rows: PackedRows::new(alloc),
            ended: Vec::new(alloc),
            open_from: 0,
        }
    }

    /// Puts a row of the next sequence behind its others.
    pub fn push(&mut self, row: Row) -> Result<(), NoMemory>
        ensures ok { OnOk result (self.new ≡ record self.old { rows = self.old.rows ++ row ∷ [] }) }
        ensures unchanged { OnErr result (self.new ≡ self.old) }
    {
        self.rows.push(row)?;
        Ok(())
    }

    /// Makes a sequence of the rows that were put. `end` is the address behind its last instruction.
    pub fn close(&mut self, end: u64) -> Result<(), NoMemory>
        ensures ok { OnOk result (self.new ≡ record { ended = self.old.ended ++ record { rows = self.old.rows; end = end } ∷ []; rows = [] }) }
        ensures unchanged { OnErr result (self.new ≡ self.old) }
    {
        let rows = Run {
            from: self.open_from,
            to: self.rows.len(),
        };
        self.ended.push(SequenceRow { rows, end })?;
        self.open_from = self.rows.len();
        Ok(())
    }

    /// The sequences that have ended. The memory behind the last row is given back.
    pub fn finish(self) -> Sequences
        ensures { result ≡ self.ended }
    {
        let SequenceBuilder {
            mut rows,
            ended,
            ..
        } = self;
        rows.shrink_to_fit();
        Sequences { rows, runs: ended }
    }
}

impl RawSequences {
    /// No sequences.
    pub fn new(alloc: Global) -> RawSequences
        ensures { result ≡ [] }
    {
        RawSequences {
            rows: Vec::new(alloc),
            runs: Vec::new(alloc),
        }
    }

    /// How many sequences there are.
    pub fn len(&self) -> usize
        ensures { result ≡ length self.now }
    {
        self.runs.len()
    }

    /// The sequence at a place, counted from 0.
    pub fn sequence(&self, i: usize) -> RawSequenceRef<'_>
        requires { i < length self.now }
        ensures stands { slice_get self.now i ≡ Some (raw_sequence_seen result) }
        ensures item { raw_sequence_seen result ≡ slice_index_or self.now i (raw_sequence_seen result) }
    {
        let run = self.runs[i];
        RawSequenceRef {
            rows: part_of(&self.rows, run.rows),
            end: run.end,
        }
    }
}

impl RawSequenceBuilder {
    /// No sequences, and no rows.
    pub fn new(alloc: Global) -> RawSequenceBuilder
        ensures { result ≡ record { ended = []; rows = [] } }
    {
        RawSequenceBuilder {
            rows: Vec::new(alloc),
            ended: Vec::new(alloc),
            open_from: 0,
        }
    }

    /// Puts a row of the next sequence behind its others.
    pub fn push(&mut self, row: RawRow) -> Result<(), NoMemory>
        ensures ok { OnOk result (self.new ≡ record self.old { rows = self.old.rows ++ row ∷ [] }) }
        ensures unchanged { OnErr result (self.new ≡ self.old) }
    {
        self.rows.push(row)?;
        Ok(())
    }

    /// Makes a sequence of the rows that were put. `end` is the address behind its last instruction.
    pub fn close(&mut self, end: Addr) -> Result<(), NoMemory>
        ensures ok { OnOk result (self.new ≡ record { ended = self.old.ended ++ record { rows = self.old.rows; end = Some end } ∷ []; rows = [] }) }
        ensures unchanged { OnErr result (self.new ≡ self.old) }
    {
        let rows = Run {
            from: self.open_from,
            to: self.rows.len(),
        };
        self.ended.push(RawSequenceRow {
            rows,
            end: Some(end),
        })?;
        self.open_from = self.rows.len();
        Ok(())
    }

    /// The sequences; rows that are left are a last one, which has no end.
    pub fn finish(self) -> Result<RawSequences, NoMemory>
        ensures { IfOk result (λ made. made ≡ self.ended ++ last_of self.rows) }
    {
        let RawSequenceBuilder {
            rows,
            mut ended,
            open_from,
        } = self;
        if open_from < rows.len() {
            let run = Run {
                from: open_from,
                to: rows.len(),
            };
            ended.push(RawSequenceRow {
                rows: run,
                end: None,
            })?;
        }
        Ok(RawSequences { rows, runs: ended })
    }
}
