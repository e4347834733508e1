//! The tables of directories and files of version 5.

ghost use Rattle.std.specs.Prelude.{◌≡◌, [], Some};
ghost use Rattle.std.specs.List.{list_any};
ghost use Rattle.std.specs.Option.{option_copied, option_map};
ghost use Rattle.ds_base.specs.Reading.{Reads, ReadsUnlessFull, bytes_at, items_at, number_at};
ghost use Rattle.dwarf_types.specs.SectionBytes.{bytes_in};
ghost use Rattle.dwarf_types.specs.SeenLines.{file_seen};
ghost use Rattle.line_read.specs.Entries.{pair_at, format_at, form_text_at, form_number_at, block_at, passed_at, first, item_at, parts_at, no_parts, dir_entry_at, file_entry_at, entries_of};
ghost use Rattle.line_read.specs.Formats;
ghost use Rattle.line_read.specs.Names.{within};

use crate::formats::{EntryForm, EntryItem, NumberForm, TextForm, is_path, item_of};
use crate::names::{HeaderEnd, read_number};
use ds_base::{Cursor, Fault, List, ReadError};
use dwarf_types::{FileNameRef, FileNames, Paths, Sections, SharedTexts};
use std::alloc::Global;
use std::marker::Model;

/// The bytes of an MD5 digest.
const DIGEST_SIZE: u64 = 16;

/// What the entries of a table are made of, and how many there are.
#[derive(Drop)]
pub(crate) struct EntryFormat {
    pub(crate) items: List<EntryItem>,
    pub(crate) count: u64,
}

/// A text, and where it stands in `__debug_line_str` if it is there. The place helps to keep it without a copy, and means
/// nothing more.
#[derive(Clone, Copy)]
pub(crate) struct PlacedText<'a> {
    pub(crate) bytes: &'a [u8],
    pub(crate) place: Option<u32>,
}

/// A file, and where its name stands in `__debug_line_str` if it is there.
#[derive(Clone, Copy)]
pub(crate) struct PlacedFile<'a> {
    pub(crate) file: FileNameRef<'a>,
    pub(crate) place: Option<u32>,
}

/// What an entry tells; of two values of one content the first counts.
#[derive(Drop)]
pub(crate) struct EntryParts<'a> {
    pub(crate) path: Option<PlacedText<'a>>,
    pub(crate) dir: Option<u64>,
    pub(crate) time: Option<u64>,
    pub(crate) size: Option<u64>,
    pub(crate) digest: Option<&'a [u8]>,
}

impl<'a> Model for EntryParts<'a> {
    ghost use Rattle.std.specs.Option.{option_copied, option_map};
    ghost use Rattle.line_read.specs.Entries.{EntryParts as Told};

    ghost Value = { Told };

    ghost view = { λ p. record { path = option_map (λ t. t.bytes.now) p.path; dir = p.dir; time = p.time; size = p.size; digest = option_copied p.digest } };
}

/// The directories (DWARF 5, section 6.2.4, from directory_entry_format_count to directories). `texts` are likely to be the
/// bytes of `__debug_line_str`: paths that stand there are not copied.
pub(crate) fn read_dir_entries<'a>(
    alloc: Global,
    cursor: &mut Cursor<'a>,
    sections: &Sections<'a>,
    texts: &SharedTexts,
    header: HeaderEnd,
) -> Result<Paths, ReadError>
    ensures { ReadsUnlessFull (λ dirs. dirs) result cursor.new (entries_of (dir_entry_at header (bytes_in sections.now)) header cursor.old) }
{
    let format = read_format(alloc, cursor, header)?;
    let EntryFormat { items, count } = format;
    read_dirs_in(
        alloc,
        cursor,
        sections,
        texts,
        header,
        items.as_slice(),
        count,
    )
}

/// The files (DWARF 5, section 6.2.4, from file_name_entry_format_count to file_names). `texts` are likely to be the bytes of
/// `__debug_line_str`: names that stand there are not copied.
pub(crate) fn read_file_entries<'a>(
    alloc: Global,
    cursor: &mut Cursor<'a>,
    sections: &Sections<'a>,
    texts: &SharedTexts,
    header: HeaderEnd,
) -> Result<FileNames, ReadError>
    ensures { ReadsUnlessFull (λ files. files) result cursor.new (entries_of (file_entry_at header (bytes_in sections.now)) header cursor.old) }
{
    let format = read_format(alloc, cursor, header)?;
    let EntryFormat { items, count } = format;
    read_files_in(
        alloc,
        cursor,
        sections,
        texts,
        header,
        items.as_slice(),
        count,
    )
}

/// So many directories, whose entries are of this format.
fn read_dirs_in<'a>(
    alloc: Global,
    cursor: &mut Cursor<'a>,
    sections: &Sections<'a>,
    texts: &SharedTexts,
    header: HeaderEnd,
    format: &[EntryItem],
    count: u64,
) -> Result<Paths, ReadError>
    ensures { ReadsUnlessFull (λ dirs. dirs) result cursor.new (items_at (dir_entry_at header (bytes_in sections.now) format.now) count [] cursor.old) }
{
    let mut dirs = Paths::over(alloc, texts.share()?);
    for _ in 0..count {
        let dir = read_dir_entry(cursor, sections, header, format)?;
        dirs.push_at(dir.bytes, dir.place)?;
    }
    Ok(dirs)
}

/// So many files, whose entries are of this format.
fn read_files_in<'a>(
    alloc: Global,
    cursor: &mut Cursor<'a>,
    sections: &Sections<'a>,
    texts: &SharedTexts,
    header: HeaderEnd,
    format: &[EntryItem],
    count: u64,
) -> Result<FileNames, ReadError>
    ensures { ReadsUnlessFull (λ files. files) result cursor.new (items_at (file_entry_at header (bytes_in sections.now) format.now) count [] cursor.old) }
{
    let mut files = FileNames::over(alloc, texts.share()?);
    for _ in 0..count {
        let placed = read_file_entry(cursor, sections, header, format)?;
        files.push_at(&placed.file, placed.place)?;
    }
    Ok(files)
}

/// The format of a table's entries, and how many there are. Where there are some, one of their values is a path.
#[tactic(auto, unfolding(crate::specs::Entries::format_at))]
fn read_format(
    alloc: Global,
    cursor: &mut Cursor,
    header: HeaderEnd,
) -> Result<EntryFormat, ReadError>
    ensures { ReadsUnlessFull (λ format. format) result cursor.new (format_at header cursor.old) }
{
    let pairs = read_byte(cursor, header)?;
    let items = read_pairs(alloc, cursor, header, pairs)?;
    let count = read_number(cursor, header)?;
    if count != 0 && !has_path(items.as_slice()) {
        return Err(ReadError::Faulty(header.bad_format));
    }
    Ok(EntryFormat { items, count })
}

/// So many pairs of a content type and a form.
fn read_pairs(
    alloc: Global,
    cursor: &mut Cursor,
    header: HeaderEnd,
    count: u8,
) -> Result<List<EntryItem>, ReadError>
    ensures { ReadsUnlessFull (λ items. items) result cursor.new (items_at (pair_at header) count [] cursor.old) }
{
    let mut items = List::new(alloc);
    for _ in 0..count {
        items.push(read_pair(cursor, header)?)?;
    }
    Ok(items)
}

/// A pair of a content type and a form that it may have.
#[tactic(auto, unfolding(crate::specs::Entries::pair_at))]
fn read_pair(cursor: &mut Cursor, header: HeaderEnd) -> Result<EntryItem, Fault>
    ensures { Reads (λ item. item) result cursor.new (pair_at header cursor.old) }
{
    let content = read_number(cursor, header)?;
    let form = read_number(cursor, header)?;
    match item_of(content, form) {
        Some(item) => Ok(item),
        None => Err(header.bad_format),
    }
}

/// Whether one of these values is a path.
fn has_path(items: &[EntryItem]) -> bool
    ensures { result ≡ list_any Formats.is_path items.now }
{
    items.iter().any(|item| is_path(*item))
}

/// A directory.
#[tactic(auto, unfolding(crate::specs::Entries::dir_entry_at))]
fn read_dir_entry<'a>(
    cursor: &mut Cursor<'a>,
    sections: &Sections<'a>,
    header: HeaderEnd,
    format: &[EntryItem],
) -> Result<PlacedText<'a>, Fault>
    ensures { Reads (λ dir. dir.bytes.now) result cursor.new (dir_entry_at header (bytes_in sections.now) format.now cursor.old) }
{
    let EntryParts {
        path,
        dir: _,
        time: _,
        size: _,
        digest: _,
    } = read_parts(cursor, sections, header, format)?;
    match path {
        Some(path) => Ok(path),
        None => Err(header.bad_format),
    }
}

/// A file.
#[tactic(auto, unfolding(crate::specs::Entries::file_entry_at))]
fn read_file_entry<'a>(
    cursor: &mut Cursor<'a>,
    sections: &Sections<'a>,
    header: HeaderEnd,
    format: &[EntryItem],
) -> Result<PlacedFile<'a>, Fault>
    ensures { Reads (λ placed. file_seen placed.file) result cursor.new (file_entry_at header (bytes_in sections.now) format.now cursor.old) }
{
    let EntryParts {
        path,
        dir,
        time,
        size,
        digest,
    } = read_parts(cursor, sections, header, format)?;
    match path {
        Some(name) => Ok(PlacedFile {
            file: FileNameRef {
                name: name.bytes,
                dir: dir.unwrap_or(0),
                time: time.unwrap_or(0),
                size: size.unwrap_or(0),
                digest,
            },
            place: name.place,
        }),
        None => Err(header.bad_format),
    }
}

/// What an entry of this format tells.
fn read_parts<'a>(
    cursor: &mut Cursor<'a>,
    sections: &Sections<'a>,
    header: HeaderEnd,
    format: &[EntryItem],
) -> Result<EntryParts<'a>, Fault>
    ensures { Reads (λ parts. parts) result cursor.new (parts_at header (bytes_in sections.now) format.now no_parts cursor.old) }
{
    let mut parts = EntryParts {
        path: None,
        dir: None,
        time: None,
        size: None,
        digest: None,
    };
    for item in format {
        read_item(cursor, sections, header, item, &mut parts)?;
    }
    Ok(parts)
}

/// A value of an entry.
#[tactic(auto, unfolding(crate::specs::Entries::item_at))]
fn read_item<'a>(
    cursor: &mut Cursor<'a>,
    sections: &Sections<'a>,
    header: HeaderEnd,
    item: &EntryItem,
    parts: &mut EntryParts<'a>,
) -> Result<(), Fault>
    ensures { Reads (λ _. parts.new) result cursor.new (item_at header (bytes_in sections.now) item.now parts.old cursor.old) }
{
    match item {
        EntryItem::Path(form) => {
            let text = read_text(cursor, sections, header, *form)?;
            keep_text(&mut parts.path, text);
            Ok(())
        }
        EntryItem::Directory(form) => {
            let n = read_form_number(cursor, header, *form)?;
            keep_number(&mut parts.dir, n);
            Ok(())
        }
        EntryItem::Timestamp(form) => {
            let n = read_form_number(cursor, header, *form)?;
            keep_number(&mut parts.time, n);
            Ok(())
        }
        EntryItem::TimestampBlock => {
            skip_block(cursor, header)?;
            keep_number(&mut parts.time, 0);
            Ok(())
        }
        EntryItem::Size(form) => {
            let n = read_form_number(cursor, header, *form)?;
            keep_number(&mut parts.size, n);
            Ok(())
        }
        EntryItem::Digest => {
            let bytes = read_bytes(cursor, header, DIGEST_SIZE)?;
            keep_bytes(&mut parts.digest, bytes);
            Ok(())
        }
        EntryItem::Other(form) => skip_value(cursor, sections, header, *form),
    }
}

/// Keeps the first text of its content.
fn keep_text<'a>(so_far: &mut Option<PlacedText<'a>>, text: PlacedText<'a>)
    ensures { option_map (λ t. t.bytes.now) so_far.new ≡ Some (first (option_map (λ t. t.bytes.now) so_far.old) text.entry.bytes.now) }
{
    if so_far.is_none() {
        *so_far = Some(text);
    }
}

/// Keeps the first bytes of their content.
fn keep_bytes<'a>(so_far: &mut Option<&'a [u8]>, bytes: &'a [u8])
    ensures { option_copied so_far.new ≡ Some (first (option_copied so_far.old) bytes.now) }
{
    if so_far.is_none() {
        *so_far = Some(bytes);
    }
}

/// Keeps the first number of its content.
fn keep_number(so_far: &mut Option<u64>, n: u64)
    ensures { so_far.new ≡ Some (first so_far.old n) }
{
    if so_far.is_none() {
        *so_far = Some(n);
    }
}

/// Passes over a value.
#[tactic(auto, unfolding(crate::specs::Entries::passed_at))]
fn skip_value<'a>(
    cursor: &mut Cursor<'a>,
    sections: &Sections<'a>,
    header: HeaderEnd,
    form: EntryForm,
) -> Result<(), Fault>
    ensures { Reads (λ _. tt) result cursor.new (passed_at header (bytes_in sections.now) form cursor.old) }
{
    match form {
        EntryForm::Text(form) => {
            read_text(cursor, sections, header, form)?;
            Ok(())
        }
        EntryForm::Number(form) => {
            read_form_number(cursor, header, form)?;
            Ok(())
        }
        EntryForm::Wide => {
            read_bytes(cursor, header, DIGEST_SIZE)?;
            Ok(())
        }
        EntryForm::Block => skip_block(cursor, header),
    }
}

/// Passes over a block: its length, and so many bytes.
#[tactic(auto, unfolding(crate::specs::Entries::block_at))]
fn skip_block(cursor: &mut Cursor, header: HeaderEnd) -> Result<(), Fault>
    ensures { Reads (λ _. tt) result cursor.new (block_at header cursor.old) }
{
    let len = read_number(cursor, header)?;
    read_bytes(cursor, header, len)?;
    Ok(())
}

/// A text that does not pass the header's end.
fn read_text<'a>(
    cursor: &mut Cursor<'a>,
    sections: &Sections<'a>,
    header: HeaderEnd,
    form: TextForm,
) -> Result<PlacedText<'a>, Fault>
    ensures { Reads (λ text. text.bytes.now) result cursor.new (within header (form_text_at (bytes_in sections.now) form cursor.old)) }
{
    let text = read_any_text(cursor, sections, form)?;
    if cursor.place() > header.place {
        return Err(header.passed);
    }
    Ok(text)
}

/// A number that does not pass the header's end.
fn read_form_number(cursor: &mut Cursor, header: HeaderEnd, form: NumberForm) -> Result<u64, Fault>
    ensures { Reads (λ n. n) result cursor.new (within header (form_number_at form cursor.old)) }
{
    let n = read_any_number(cursor, form)?;
    if cursor.place() > header.place {
        return Err(header.passed);
    }
    Ok(n)
}

/// So many bytes, which do not pass the header's end.
fn read_bytes<'a>(cursor: &mut Cursor<'a>, header: HeaderEnd, count: u64) -> Result<&'a [u8], Fault>
    ensures { Reads (λ bytes. bytes.now) result cursor.new (within header (bytes_at count cursor.old)) }
{
    let bytes = cursor.skip(count)?;
    if cursor.place() > header.place {
        return Err(header.passed);
    }
    Ok(bytes)
}

/// A byte that does not pass the header's end.
fn read_byte(cursor: &mut Cursor, header: HeaderEnd) -> Result<u8, Fault>
    ensures { Reads (λ n. n) result cursor.new (within header (number_at 1 cursor.old)) }
{
    let n = cursor.u8()?;
    if cursor.place() > header.place {
        return Err(header.passed);
    }
    Ok(n)
}

/// The next text.
#[tactic(auto, unfolding(crate::specs::Entries::form_text_at))]
fn read_any_text<'a>(
    cursor: &mut Cursor<'a>,
    sections: &Sections<'a>,
    form: TextForm,
) -> Result<PlacedText<'a>, Fault>
    ensures { Reads (λ text. text.bytes.now) result cursor.new (form_text_at (bytes_in sections.now) form cursor.old) }
{
    match form {
        TextForm::Inline => Ok(PlacedText {
            bytes: cursor.text()?,
            place: None,
        }),
        TextForm::Str => {
            let (_, bytes) = cursor.placed_text(sections.strings)?;
            Ok(PlacedText { bytes, place: None })
        }
        TextForm::LineStr => {
            let (place, bytes) = cursor.placed_text(sections.line_str)?;
            Ok(PlacedText {
                bytes,
                place: Some(place),
            })
        }
    }
}

/// The next number.
#[tactic(auto, unfolding(crate::specs::Entries::form_number_at))]
fn read_any_number(cursor: &mut Cursor, form: NumberForm) -> Result<u64, Fault>
    ensures { Reads (λ n. n) result cursor.new (form_number_at form cursor.old) }
{
    match form {
        NumberForm::One => Ok(u64::from(cursor.u8()?)),
        NumberForm::Two => Ok(u64::from(cursor.u16()?)),
        NumberForm::Four => Ok(u64::from(cursor.u32()?)),
        NumberForm::Eight => cursor.u64(),
        NumberForm::Leb => cursor.uleb(),
    }
}
