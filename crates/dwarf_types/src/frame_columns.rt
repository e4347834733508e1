//! What frames are made of: the contents of common information entries, and bytes, in columns.

ghost use Rattle.std.specs.Prelude.{◌≡◌, ◌+◌, ◌++◌, ◌<◌, ◌^◌, All, length, map, IfOk, OnOk, OnErr};
ghost use Rattle.dwarf_types.specs.FrameColumns.{AreCies, AreCopies, Fits, IsHeld, PartsFit, SidesGrow, code_of, content_of, parts_moved, run_moved};
ghost use Rattle.dwarf_types.specs.Runs.{InRun};

use crate::runs::{Run, append, held_by, part_of};
use ds_base::NoMemory;
use std::alloc::Global;

/// A frame but for its address.
#[derive(Clone, Copy)]
pub(crate) struct FrameParts {
    /// The number of its common information entry, counted from 0.
    pub(crate) cie: usize,
    pub(crate) length: u64,
    pub(crate) code: Run,
}

/// How many common information entries and bytes stand before others.
#[derive(Clone, Copy)]
pub(crate) struct Before {
    pub(crate) cies: usize,
    pub(crate) bytes: usize,
}

/// The columns beside the rows of frames. What stood in one stays there.
#[derive(Drop)]
pub(crate) struct FrameSides {
    /// Where the content of each common information entry lies.
    pub(crate) cies: Vec<Run>,
    pub(crate) bytes: Vec<u8>,
}

impl FrameSides {
    /// Empty columns.
    pub(crate) fn new(alloc: Global) -> FrameSides
        ensures { AreCies result }
    {
        FrameSides {
            cies: Vec::new(alloc),
            bytes: Vec::new(alloc),
        }
    }

    /// A copy of the columns.
    pub(crate) fn copy(&self, alloc: Global) -> Result<FrameSides, NoMemory>
        ensures { IfOk result (AreCopies self.now) }
    {
        Ok(FrameSides {
            cies: Vec::from_slice(alloc, &self.cies)?,
            bytes: Vec::from_slice(alloc, &self.bytes)?,
        })
    }

    /// How many bytes they hold.
    pub(crate) fn held_bytes(&self) -> u64 {
        held_by(&self.cies, size_of::<Run>()).saturating_add(held_by(&self.bytes, 1))
    }

    /// The content of a common information entry.
    pub(crate) fn content(&self, number: usize) -> &[u8]
        requires number { number < length self.now.cies.items }
        requires cies { AreCies self.now }
        ensures { result.now ≡ content_of self.now number }
    {
        part_of(&self.bytes, self.cies[number])
    }

    /// The instructions of a frame.
    pub(crate) fn code(&self, parts: FrameParts) -> &[u8]
        requires { InRun self.now.bytes.items parts.code }
        ensures { result.now ≡ code_of self.now parts }
    {
        part_of(&self.bytes, parts.code)
    }

    /// Puts the content of a common information entry and the instructions of a frame last, and answers what its row has.
    pub(crate) fn put(&mut self, cie: &[u8], len: u64, code: &[u8]) -> Result<FrameParts, NoMemory>
        requires { AreCies self.old }
        ensures len { IfOk result (λ p. p.length ≡ len) }
        ensures means { IfOk result (λ p. (content_of self.new p.cie ≡ cie.now) × (code_of self.new p ≡ code.now)) }
        ensures within { IfOk result (λ p. IsHeld self.new p) }
        ensures grows { SidesGrow self.old self.new }
        ensures cies { AreCies self.new }
    {
        let number = self.put_cie(cie)?;
        self.put_code(number, len, code)
    }

    /// Puts the content of a common information entry last, and answers its number.
    fn put_cie(&mut self, cie: &[u8]) -> Result<usize, NoMemory>
        requires { AreCies self.old }
        ensures number { IfOk result (λ n. n < length self.new.cies.items) }
        ensures means { IfOk result (λ n. content_of self.new n ≡ cie.now) }
        ensures grows { SidesGrow self.old self.new }
        ensures cies { AreCies self.new }
    {
        let number = self.cies.len();
        let run = append(&mut self.bytes, cie)?;
        self.cies.push(run)?;
        Ok(number)
    }

    /// Puts the instructions of a frame last, and answers what its row has.
    pub(crate) fn put_code(
        &mut self,
        cie: usize,
        len: u64,
        code: &[u8],
    ) -> Result<FrameParts, NoMemory>
        requires number { cie < length self.old.cies.items }
        requires cies { AreCies self.old }
        ensures len { IfOk result (λ p. p.length ≡ len) }
        ensures means { IfOk result (λ p. (content_of self.new p.cie ≡ content_of self.old cie) × (code_of self.new p ≡ code.now)) }
        ensures within { IfOk result (λ p. IsHeld self.new p) }
        ensures grows { SidesGrow self.old self.new }
        ensures cies { AreCies self.new }
    {
        let code = append(&mut self.bytes, code)?;
        Ok(FrameParts {
            cie,
            length: len,
            code,
        })
    }

    /// Puts other columns behind, and answers what stands before them.
    pub(crate) fn append(&mut self, other: &FrameSides) -> Result<Before, NoMemory>
        requires own { AreCies self.old }
        requires other { AreCies other.now }
        ensures before { IfOk result (λ b. (b.cies ≡ length self.old.cies.items) × (b.bytes ≡ length self.old.bytes.items)) }
        ensures new_cies { OnOk result (self.new.cies.items ≡ self.old.cies.items ++ map (run_moved (length self.old.bytes.items)) other.now.cies.items) }
        ensures new_bytes { OnOk result (self.new.bytes.items ≡ self.old.bytes.items ++ other.now.bytes.items) }
        ensures fits { OnOk result ((length self.new.cies.items < 2 ^ 64) × (length self.new.bytes.items < 2 ^ 64)) }
        ensures grows { SidesGrow self.old self.new }
        ensures cies { AreCies self.new }
    {
        let before = Before {
            cies: self.cies.len(),
            bytes: self.bytes.len(),
        };
        self.bytes.extend_from_slice(&other.bytes)?;
        let cies = moved_runs(*self.cies.allocator(), &other.cies, before.bytes)?;
        self.cies.extend_from_slice(&cies)?;
        Ok(before)
    }
}

/// What a row has behind other columns.
pub(crate) fn moved_parts(parts: FrameParts, before: Before) -> FrameParts
    requires { PartsFit before parts }
    ensures { result ≡ parts_moved before parts }
{
    FrameParts {
        cie: before.cies + parts.cie,
        length: parts.length,
        code: moved_run(parts.code, before.bytes),
    }
}

/// Runs behind other bytes.
fn moved_runs(alloc: Global, runs: &[Run], by: usize) -> Result<Vec<Run>, NoMemory>
    requires { All (Fits by) runs.now }
    ensures { IfOk result (λ moved. moved.items ≡ map (run_moved by) runs.now) }
{
    let mut moved = Vec::with_capacity(alloc, runs.len())?;
    for run in runs {
        moved.push(moved_run(*run, by))?;
    }
    Ok(moved)
}

/// A run behind other bytes.
fn moved_run(run: Run, by: usize) -> Run
    requires { Fits by run }
    ensures { result ≡ run_moved by run }
{
    Run {
        from: by + run.from,
        to: by + run.to,
    }
}
