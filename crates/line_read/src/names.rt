//! The directories and files of a line table before version 5.

ghost use Rattle.std.specs.Option.{option_copied, option_map};
ghost use Rattle.ds_base.specs.Reading.{Reads, ReadsUnlessFull, text_at, uleb_at};
ghost use Rattle.dwarf_types.specs.SeenLines.{file_seen};
ghost use Rattle.line_read.specs.Names.{within, dir_at, file_of, file_at, table_of};

use ds_base::{Cursor, Fault, Kind, ReadError};
use dwarf_types::{FileNameRef, FileNames, Paths};
use std::alloc::Global;

/// Where a header ends, which its tables do not pass.
#[derive(Clone, Copy)]
pub(crate) struct HeaderEnd {
    /// In bytes from the start of `__debug_line`.
    pub(crate) place: u64,
    /// The fault of a table that passes it.
    pub(crate) passed: Fault,
    /// The fault of a table whose entry format is wrong.
    pub(crate) bad_format: Fault,
}

/// The directories, up to the empty name (DWARF 4, section 6.2.4, include_directories).
pub(crate) fn read_dirs(
    alloc: Global,
    cursor: &mut Cursor,
    header: HeaderEnd,
) -> Result<Paths, ReadError>
    ensures { ReadsUnlessFull (λ dirs. dirs) result cursor.new (table_of (dir_at header) cursor.old) }
{
    let mut dirs = Paths::new(alloc);
    let left = cursor.left();
    for _ in 0..left {
        let Some(dir) = read_dir(cursor, header)? else {
            return Ok(dirs);
        };
        dirs.push(dir)?;
    }
    Err(ReadError::Faulty(cursor.fault(Kind::Truncated)))
}

/// The files, up to the empty name (DWARF 4, section 6.2.4, file_names).
pub(crate) fn read_files(
    alloc: Global,
    cursor: &mut Cursor,
    header: HeaderEnd,
) -> Result<FileNames, ReadError>
    ensures { ReadsUnlessFull (λ files. files) result cursor.new (table_of (file_at header) cursor.old) }
{
    let mut files = FileNames::new(alloc);
    let left = cursor.left();
    for _ in 0..left {
        let Some(file) = read_file(cursor, header)? else {
            return Ok(files);
        };
        files.push(&file)?;
    }
    Err(ReadError::Faulty(cursor.fault(Kind::Truncated)))
}

/// A directory, or `None` at the empty name.
#[tactic(auto, unfolding(crate::specs::Names::dir_at))]
fn read_dir<'a>(cursor: &mut Cursor<'a>, header: HeaderEnd) -> Result<Option<&'a [u8]>, Fault>
    ensures { Reads option_copied result cursor.new (dir_at header cursor.old) }
{
    let name = read_name(cursor, header)?;
    if name.is_empty() {
        return Ok(None);
    }
    Ok(Some(name))
}

/// A file, or `None` at the empty name.
#[tactic(auto, unfolding(crate::specs::Names::file_at))]
fn read_file<'a>(
    cursor: &mut Cursor<'a>,
    header: HeaderEnd,
) -> Result<Option<FileNameRef<'a>>, Fault>
    ensures { Reads (option_map file_seen) result cursor.new (file_at header cursor.old) }
{
    let name = read_name(cursor, header)?;
    if name.is_empty() {
        return Ok(None);
    }
    read_file_of(cursor, header, name)
}

/// The file of a name, which its numbers follow.
#[tactic(auto, unfolding(crate::specs::Names::file_of))]
fn read_file_of<'a>(
    cursor: &mut Cursor,
    header: HeaderEnd,
    name: &'a [u8],
) -> Result<Option<FileNameRef<'a>>, Fault>
    ensures { Reads (option_map file_seen) result cursor.new (file_of header name.now cursor.old) }
{
    let dir = read_number(cursor, header)?;
    let time = read_number(cursor, header)?;
    let size = read_number(cursor, header)?;
    Ok(Some(FileNameRef {
        name,
        dir,
        time,
        size,
        digest: None,
    }))
}

/// A text that does not pass the header's end.
fn read_name<'a>(cursor: &mut Cursor<'a>, header: HeaderEnd) -> Result<&'a [u8], Fault>
    ensures { Reads (λ name. name.now) result cursor.new (within header (text_at cursor.old)) }
{
    let name = cursor.text()?;
    if cursor.place() > header.place {
        return Err(header.passed);
    }
    Ok(name)
}

/// A number that does not pass the header's end.
pub(crate) fn read_number(cursor: &mut Cursor, header: HeaderEnd) -> Result<u64, Fault>
    ensures { Reads (λ n. n) result cursor.new (within header (uleb_at cursor.old)) }
{
    let n = cursor.uleb()?;
    if cursor.place() > header.place {
        return Err(header.passed);
    }
    Ok(n)
}
