//! One line table, from its place in the section.

ghost use Rattle.std.specs.Prelude.{◌≡◌, ◌<◌, ◌^◌, length, IfOk};
ghost use Rattle.std.specs.List.{All};
ghost use Rattle.ds_base.specs.Reading.{Finds, Gives, ReadsUnlessFull};
ghost use Rattle.dwarf_types.specs.SectionBytes.{bytes_in};
ghost use Rattle.macho_read.specs.Sound.{IsSound as IsSoundImage};
ghost use Rattle.reloc_table.specs.Sound.{IsSound};
ghost use Rattle.line_read.specs.Header.{version_of};
ghost use Rattle.line_read.specs.Program.{lines_of};
ghost use Rattle.line_read.specs.Rising.{DoesNotFall};
ghost use Rattle.line_read.specs.Tables.{dirs_at, files_at};

use crate::entries::{read_dir_entries, read_file_entries};
use crate::header::{
    FORMATS_SINCE, check_sizes, line_cursor, open_table, read_fields, read_program, read_version,
};
use crate::names::{HeaderEnd, read_dirs, read_files};
use crate::program::read_sequences;
use ds_base::{Cursor, Fault, Kind, ReadError};
use dwarf_types::{FileNames, Paths, RawLines, Sections, SharedTexts};
use macho_read::Image;
use reloc_table::Relocs;
use std::alloc::Global;

/// The line table at `offset` of `__debug_line` (DWARF 4 and DWARF 5, section 6.2), its rows in sequences.
///
/// `version` is that of the unit; the table has a version of its own, which [`table_version`]
/// tells. `offset` counts bytes from the section's start, and so do the places of faults. `relocs` are those of the
/// section: they say what the operand of a `DW_LNE_set_address` means. Addresses stay the object's; they count modulo
/// 2^64, and lines modulo 2^32. Of each row `row.address` is 0. "At the beginning of each sequence" the registers are set
/// anew; a sequence that the program ends before `DW_LNE_end_sequence` is there where it has a row, and has no end.
///
/// `texts` are likely to be the bytes of `__debug_line_str`: a table of version 5 names what stands there by its place, and
/// copies the rest. They change nothing of what is read.
///
/// Before version 5 files that operations define stand behind those of the header, and no file has a digest. In version
/// 5 directories and files are numbered from 0; their numbers are passed on as they stand. A time that is a block counts
/// as 0, and so does each number that an entry doesn't have.
///
/// `Truncated` and `LebTooWide` are placed at the item, `BadOffset` at the value, `LineVersion` at the version,
/// `BadLineHeader`, `VliwLine` and `BadEntryFormat` at the table, `BadLineOp` and `LineBackwards` at the operation.
#[tactic(auto, unfolding(crate::specs::Program::lines_from))]
pub fn read_lines(
    alloc: Global,
    sections: &Sections,
    texts: &SharedTexts,
    relocs: &Relocs,
    image: &Image,
    offset: u32,
    version: u16,
) -> Result<RawLines, ReadError>
    requires inside { offset < length sections.now.line.now }
    requires size { length sections.now.line.now < 2 ^ 32 }
    requires sound { IsSound image.now relocs.now }
    requires sound_image { IsSoundImage image.now }
    ensures exact { Gives (λ lines. lines) result (lines_of image.now relocs.now (bytes_in sections.now) version offset) }

    // In no sequence an address of the object is below one before it.
    ensures rising { IfOk result (λ lines. All DoesNotFall lines.sequences) }
{
    let bytes = sections.line;
    let place = u64::from(offset);
    let first = line_cursor(bytes, place);
    let mut cursor = open_table(bytes, place)?;
    let table_version = read_version(&mut cursor, version)?;
    check_sizes(&mut cursor, &first, table_version)?;
    let program = read_program(&mut cursor, &first)?;
    let header = read_fields(alloc, &mut cursor, &first, table_version)?;
    let end = HeaderEnd {
        place: program.place(),
        passed: first.fault(Kind::BadLineHeader),
        bad_format: first.fault(Kind::BadEntryFormat),
    };
    let dirs = read_dir_table(alloc, &mut cursor, sections, texts, end, table_version)?;
    let files = read_file_table(alloc, &mut cursor, sections, texts, end, table_version)?;
    read_sequences(alloc, &header, bytes, relocs, image, program, dirs, files)
}

/// The version of the line table at `offset` of `__debug_line`, of a unit of version `version`. Directories and files are
/// numbered from 0 in tables of version 5, and from 1 in those before.
///
/// It stands before all but the table's length, so a fault here is the one that [`read_lines`] finds there.
pub fn table_version(sections: &Sections, offset: u32, version: u16) -> Result<u16, Fault>
    requires inside { offset < length sections.now.line.now }
    ensures { Finds (λ table. table) result (version_of (bytes_in sections.now) version offset) }
{
    let mut cursor = open_table(sections.line, u64::from(offset))?;
    Ok(read_version(&mut cursor, version)?)
}

/// The directories, as the table's version has them.
#[tactic(auto, unfolding(crate::specs::Tables::dirs_at))]
fn read_dir_table<'a>(
    alloc: Global,
    cursor: &mut Cursor<'a>,
    sections: &Sections<'a>,
    texts: &SharedTexts,
    header: HeaderEnd,
    version: u16,
) -> Result<Paths, ReadError>
    ensures { ReadsUnlessFull (λ dirs. dirs) result cursor.new (dirs_at header (bytes_in sections.now) version cursor.old) }
{
    if version >= FORMATS_SINCE {
        return read_dir_entries(alloc, cursor, sections, texts, header);
    }
    read_dirs(alloc, cursor, header)
}

/// The files, as the table's version has them.
#[tactic(auto, unfolding(crate::specs::Tables::files_at))]
fn read_file_table<'a>(
    alloc: Global,
    cursor: &mut Cursor<'a>,
    sections: &Sections<'a>,
    texts: &SharedTexts,
    header: HeaderEnd,
    version: u16,
) -> Result<FileNames, ReadError>
    ensures { ReadsUnlessFull (λ files. files) result cursor.new (files_at header (bytes_in sections.now) version cursor.old) }
{
    if version >= FORMATS_SINCE {
        return read_file_entries(alloc, cursor, sections, texts, header);
    }
    read_files(alloc, cursor, header)
}
