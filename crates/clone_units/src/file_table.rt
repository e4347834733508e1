//! The line table of the pool's unit, which has files and no rows.

ghost use Rattle.std.specs.Prelude.{◌≡◌, ◌++◌, map, take, OnOk, IfOk};
ghost use Rattle.std.specs.Str.{bytes_eq};
ghost use Rattle.dwarf_types.specs.SeenLines.{file_seen as file_name_seen};
ghost use Rattle.clone_units.specs.Sourced.{dirs_seen, file_seen, files_seen};
ghost use Rattle.indexmap.specs.IndexSet.{insert_key};
ghost use Rattle.link_graph.specs.PoolFiles.{directories, file_written, first_directory, first_file, number_of_directory, table_of};

use crate::source_files::FileRef;
use ds_base::NoMemory;
use ds_base::dwarf::DWARF_5;
use dwarf_types::{FileNameRef, FileNames, OutLines, Paths, Sequences};
use indexmap::IndexSet;
use std::alloc::Global;

/// The table of some files in a version: their directories by first use, and each file with the number of its directory.
///
/// In version 5 both are counted from 0, so the empty directory and a copy of the first file stand before them.
pub(crate) fn table_of(
    alloc: Global,
    version: u16,
    files: &IndexSet<FileRef<'_>>,
) -> Result<OutLines, NoMemory>
    ensures { IfOk result (λ lines. lines ≡ table_of version (files_seen files.now)) }
{
    let dirs = directories(alloc, files)?;
    Ok(OutLines {
        dirs: dirs_written(alloc, version, &dirs)?,
        files: files_written(alloc, version, &dirs, files)?,
        sequences: Sequences::new(alloc),
    })
}

/// The directories as they are written in a version.
fn dirs_written(alloc: Global, version: u16, dirs: &IndexSet<&[u8]>) -> Result<Paths, NoMemory>
    ensures { IfOk result (λ written. written ≡ first_directory version ++ dirs_seen dirs.now) }
{
    let mut written = Paths::new(alloc);
    if version == DWARF_5 {
        written.push(b"")?;
    }
    add_texts(&mut written, dirs)?;
    Ok(written)
}

/// The files as they are written in a version.
fn files_written<'a>(
    alloc: Global,
    version: u16,
    dirs: &IndexSet<&'a [u8]>,
    files: &IndexSet<FileRef<'a>>,
) -> Result<FileNames, NoMemory>
    ensures { IfOk result (λ written. written ≡ map (file_written (dirs_seen dirs.now)) (first_file version (files_seen files.now) ++ files_seen files.now)) }
{
    let mut written = FileNames::new(alloc);
    if version == DWARF_5 {
        add_first(&mut written, dirs, files)?;
    }
    add_files(&mut written, dirs, files)?;
    Ok(written)
}

/// The directories of files by first use, each once, but for the empty one.
fn directories<'a>(
    alloc: Global,
    files: &IndexSet<FileRef<'a>>,
) -> Result<IndexSet<&'a [u8]>, NoMemory>
    ensures { IfOk result (λ dirs. dirs_seen dirs ≡ directories (files_seen files.now)) }
{
    let mut dirs = IndexSet::new(alloc);
    for file in files.as_slice() {
        if !file.dir.is_empty() {
            add_dir(&mut dirs, file.dir)?;
        }
    }
    Ok(dirs)
}

/// Puts a directory last, unless it is there.
fn add_dir<'a>(dirs: &mut IndexSet<&'a [u8]>, dir: &'a [u8]) -> Result<(), NoMemory>
    ensures { OnOk result (dirs_seen dirs.new ≡ insert_key bytes_eq (dirs_seen dirs.old) dir.now) }
{
    dirs.insert(dir)?;
    Ok(())
}

/// Puts the names of directories last.
fn add_texts(texts: &mut Paths, dirs: &IndexSet<&[u8]>) -> Result<(), NoMemory>
    ensures { OnOk result (texts.new ≡ texts.old ++ dirs_seen dirs.now) }
{
    for dir in dirs.as_slice() {
        texts.push(dir)?;
    }
    Ok(())
}

/// Puts the first file last, if there is one.
fn add_first<'a>(
    written: &mut FileNames,
    dirs: &IndexSet<&'a [u8]>,
    files: &IndexSet<FileRef<'a>>,
) -> Result<(), NoMemory>
    ensures { OnOk result (written.new ≡ written.old ++ map (file_written (dirs_seen dirs.now)) (take 1 (files_seen files.now))) }
{
    if let Some(file) = files.as_slice().first() {
        written.push(&file_written(dirs, *file))?;
    }
    Ok(())
}

/// Puts files last.
fn add_files<'a>(
    written: &mut FileNames,
    dirs: &IndexSet<&'a [u8]>,
    files: &IndexSet<FileRef<'a>>,
) -> Result<(), NoMemory>
    ensures { OnOk result (written.new ≡ written.old ++ map (file_written (dirs_seen dirs.now)) (files_seen files.now)) }
{
    for file in files.as_slice() {
        written.push(&file_written(dirs, *file))?;
    }
    Ok(())
}

/// A file as it is written.
fn file_written<'a>(dirs: &IndexSet<&'a [u8]>, file: FileRef<'a>) -> FileNameRef<'a>
    ensures { file_name_seen result ≡ file_written (dirs_seen dirs.now) (file_seen file.entry) }
{
    FileNameRef {
        name: file.name,
        dir: number_of_directory(dirs, file.dir),
        time: 0,
        size: 0,
        digest: None,
    }
}

/// The number of a directory. Directories are counted from 1, and the empty one has 0.
fn number_of_directory<'a>(dirs: &IndexSet<&'a [u8]>, dir: &'a [u8]) -> u64
    ensures { result ≡ number_of_directory (dirs_seen dirs.now) dir.now }
{
    match dirs.get_index_of(dir) {
        Some(index) => {
            prove!(index < dirs.len());
            index as u64 + 1
        }
        None => 0,
    }
}
