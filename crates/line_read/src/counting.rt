//! A line table as a unit of another version has it.

ghost use Rattle.std.specs.Prelude.{◌≡◌, ◌∷◌, ◌++◌, take, IfOk};
ghost use Rattle.line_read.specs.Counting;

use ds_base::NoMemory;
use ds_base::dwarf::DWARF_5;
use dwarf_types::{FileNames, Paths, RawLines};
use std::alloc::Global;

/// The line table of the version `table`, as a unit of the version `unit` has it that was compiled in the directory `dir`:
/// a table before version 5 counts directories and files from 1, and in a unit of version 5 both count from 0 (DWARF 5,
/// section 6.2.4).
pub fn lines_as(
    alloc: Global,
    unit: u16,
    table: u16,
    dir: &[u8],
    lines: RawLines,
) -> Result<RawLines, NoMemory>
    ensures is { IfOk result (λ made. made ≡ Counting.lines_as unit table dir.now lines) }

    // Its sequences stay.
    ensures sequences { IfOk result (λ made. made.sequences ≡ lines.sequences) }
{
    if unit == DWARF_5 && table < DWARF_5 {
        counted_from_0(alloc, dir, lines)
    } else {
        Ok(lines)
    }
}

/// The same table with directories and files counted from 0: the unit's directory goes before its directories, and a
/// copy of its first file before its files.
fn counted_from_0(alloc: Global, dir: &[u8], lines: RawLines) -> Result<RawLines, NoMemory>
    ensures { IfOk result (λ made. made ≡ Counting.counted_from_0 dir.now lines) }
{
    let RawLines {
        dirs,
        files,
        sequences,
    } = lines;
    Ok(RawLines {
        dirs: dirs_behind(alloc, dir, &dirs)?,
        files: files_behind_first(alloc, &files)?,
        sequences,
    })
}

/// A directory before others.
fn dirs_behind(alloc: Global, dir: &[u8], dirs: &Paths) -> Result<Paths, NoMemory>
    ensures { IfOk result (λ all. all ≡ dir.now ∷ dirs.now) }
{
    let mut all = Paths::new(alloc);
    all.push(dir)?;
    for i in 0..dirs.len() {
        all.push(dirs.path(i))?;
    }
    Ok(all)
}

/// Files behind a copy of the first, where there is one.
fn files_behind_first(alloc: Global, files: &FileNames) -> Result<FileNames, NoMemory>
    ensures { IfOk result (λ all. all ≡ take 1 files.now ++ files.now) }
{
    let mut all = first_file(alloc, files)?;
    for i in 0..files.len() {
        all.push(&files.file(i))?;
    }
    Ok(all)
}

/// A copy of the first file, where there is one.
fn first_file(alloc: Global, files: &FileNames) -> Result<FileNames, NoMemory>
    ensures { IfOk result (λ first. first ≡ take 1 files.now) }
{
    let mut first = FileNames::new(alloc);
    if let Some(file) = files.get(0) {
        first.push(&file)?;
    }
    Ok(first)
}
