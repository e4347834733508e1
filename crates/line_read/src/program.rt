//! A line program: its operations read and run one after the other.

ghost use Rattle.std.specs.Prelude.{◌≡◌, ◌<◌, ◌-◌, ◌^◌, length, IfOk};
ghost use Rattle.std.specs.List.{All};
ghost use Rattle.ds_base.specs.Reading.{Gives};
ghost use Rattle.macho_read.specs.Sound.{IsSound as IsSoundImage};
ghost use Rattle.reloc_table.specs.Sound.{IsSound};
ghost use Rattle.line_read.specs.Bounds.{HasLengths, IsInside};
ghost use Rattle.line_read.specs.Operation.{op_at};
ghost use Rattle.line_read.specs.Program;
ghost use Rattle.line_read.specs.Program.{ops_at, program_of};
ghost use Rattle.line_read.specs.Rising.{DoesNotFall};
ghost use Rattle.line_read.specs.Pass.{empty_matrix, row_at, end_at, step_of, run_at, finished};

use crate::header::LineHeader;
use crate::operation::{LineOp, read_op};
use crate::registers::{changed, cleared, initial};
use ds_base::{Cursor, Fault, Kind, NoMemory, Part, ReadError};
use dwarf_types::{Addr, FileNames, Paths, RawLines, RawRow, RawSequenceBuilder};
use macho_read::Image;
use reloc_table::Relocs;
use std::alloc::Global;

/// What has been made of the operations so far.
#[derive(Drop)]
pub(crate) struct Matrix {
    pub(crate) files: FileNames,
    /// The sequences that have ended, and the rows of the one that has not.
    pub(crate) built: RawSequenceBuilder,
    pub(crate) registers: RawRow,
    /// The last address of the object in those rows.
    pub(crate) last: Option<u64>,
}

/// The line table of these directories and files, whose program stands at the cursor.
pub(crate) fn read_sequences<'a>(
    alloc: Global,
    header: &LineHeader,
    bytes: &'a [u8],
    relocs: &Relocs,
    image: &Image,
    program: Cursor<'a>,
    dirs: Paths,
    files: FileNames,
) -> Result<RawLines, ReadError>
    requires inside { IsInside bytes.now program }
    requires small { length bytes.now < 2 ^ 32 }
    requires range { 0 < header.now.line_range }
    requires lengths { HasLengths header.now }
    requires sound { IsSound image.now relocs.now }
    requires sound_image { IsSoundImage image.now }
    ensures exact { Gives (λ lines. lines) result (program_of header.now dirs files (ops_at (op_at header.now image.now relocs.now) (program.entry.end - program.entry.place) program.entry)) }
    ensures rising { IfOk result (λ lines. All DoesNotFall lines.sequences) }
{
    let matrix = run(alloc, header, bytes, relocs, image, program, files)?;
    Ok(finish(dirs, matrix)?)
}

/// Runs the program at the cursor. `files` are those of the header.
fn run<'a>(
    alloc: Global,
    header: &LineHeader,
    bytes: &'a [u8],
    relocs: &Relocs,
    image: &Image,
    program: Cursor<'a>,
    files: FileNames,
) -> Result<Matrix, ReadError>
    requires inside { IsInside bytes.now program }
    requires small { length bytes.now < 2 ^ 32 }
    requires range { 0 < header.now.line_range }
    requires lengths { HasLengths header.now }
    requires sound { IsSound image.now relocs.now }
    requires sound_image { IsSoundImage image.now }
    ensures { Gives (λ matrix. matrix) result (run_at (op_at header.now image.now relocs.now) header.now (program.entry.end - program.entry.place) (empty_matrix header.now files) program.entry) }
{
    let mut cursor = program;
    let mut matrix = Matrix {
        files,
        built: RawSequenceBuilder::new(alloc),
        registers: initial(header),
        last: None,
    };
    while cursor.left() > 0 {
        let place = cursor.place();
        let op = read_op(header, bytes, relocs, image, &mut cursor)?;
        run_op(header, place, op, &mut matrix)?;
    }
    Ok(matrix)
}

/// Runs the operation that stands at a place.
#[tactic(auto, unfolding(crate::specs::Pass::step_of))]
fn run_op(header: &LineHeader, place: u64, op: LineOp, matrix: &mut Matrix) -> Result<(), ReadError>
    requires range { 0 < header.now.line_range }
    ensures { Gives (λ _. matrix.new) result (step_of header.now place op.entry matrix.old) }
{
    let registers = changed(header, &op, matrix.registers);
    match op {
        LineOp::Special(_) => append_row(place, registers, matrix),
        LineOp::Copy => append_row(place, registers, matrix),
        LineOp::EndSequence => end_sequence(header, place, matrix),
        LineOp::DefineFile(file) => {
            matrix.files.push(&file.file)?;
            Ok(())
        }
        _ => {
            matrix.registers = registers;
            Ok(())
        }
    }
}

/// Appends a row.
#[tactic(auto, unfolding(crate::specs::Pass::row_at))]
fn append_row(place: u64, registers: RawRow, matrix: &mut Matrix) -> Result<(), ReadError>
    ensures { Gives (λ _. matrix.new) result (row_at place registers matrix.old) }
{
    if falls(matrix.last, registers.at) {
        return Err(ReadError::Faulty(backwards(place)));
    }
    matrix.built.push(registers)?;
    matrix.registers = cleared(registers);
    matrix.last = last_placed(matrix.last, registers.at);
    Ok(())
}

/// Ends the sequence where the registers stand.
#[tactic(auto, unfolding(crate::specs::Pass::end_at))]
fn end_sequence(header: &LineHeader, place: u64, matrix: &mut Matrix) -> Result<(), ReadError>
    ensures { Gives (λ _. matrix.new) result (end_at header.now place matrix.old) }
{
    let end = matrix.registers.at;
    if falls(matrix.last, end) {
        return Err(ReadError::Faulty(backwards(place)));
    }
    matrix.built.close(end)?;
    matrix.registers = initial(header);
    matrix.last = None;
    Ok(())
}

/// Whether an address is below the last one of the object.
fn falls(last: Option<u64>, at: Addr) -> bool
    ensures { result ≡ Program.falls last at }
{
    match (last, at) {
        (Some(last), Addr::Placed(a)) => a < last,
        _ => false,
    }
}

/// The last address of the object, up to one that follows.
fn last_placed(last: Option<u64>, at: Addr) -> Option<u64>
    ensures { result ≡ Program.last_placed last at }
{
    match at {
        Addr::Placed(a) => Some(a),
        Addr::Named { .. } | Addr::Fixed(_) => last,
    }
}

/// The fault of an operation whose row falls.
fn backwards(place: u64) -> Fault
    ensures { result ≡ Program.backwards place }
{
    Fault {
        kind: Kind::LineBackwards,
        section: Part::Line,
        place,
    }
}

/// The line table of these directories, once all operations are run.
fn finish(dirs: Paths, matrix: Matrix) -> Result<RawLines, NoMemory>
    ensures { IfOk result (λ lines. lines ≡ finished dirs matrix) }
{
    let Matrix {
        files,
        built,
        registers: _,
        last: _,
    } = matrix;
    Ok(RawLines {
        dirs,
        files,
        sequences: built.finish()?,
    })
}
