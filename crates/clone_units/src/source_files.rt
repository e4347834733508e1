//! The source files that entries name, each by the names of its directory and of itself.

ghost use Rattle.std.specs.Prelude.{◌≡◌, ◌<◌, ◌==◌, [], ◌∷◌, None, Some, length, true, if◌then◌else◌, fold, slice_get, OnOk, IfOk};
ghost use Rattle.std.proofs.Common.{ap, ◌∙◌};
ghost use Rattle.std.proofs.lemmas.Bool.{and_parts};
ghost use Rattle.std.specs.Cmp.Lexicographic.{bytes_decides};
ghost use Rattle.std.specs.List.{All, flat_map};
ghost use Rattle.std.specs.Option.{option_and_then, option_map, option_map_or};
ghost use Rattle.clone_units.specs.Noted.{AreNoted};
ghost use Rattle.clone_units.specs.Sourced.{IsSourced, IsUseIn, Names, file_of_use, file_seen, files_seen, uses_of, with_named};
ghost use Rattle.dwarf_types.specs.declared.entry.Attr.{Attr};
ghost use Rattle.dwarf_types.specs.Moves.{value_of};
ghost use Rattle.dwarf_types.specs.Seen.{attr_seen, value_seen};
ghost use Rattle.dwarf_types.specs.SeenLines.{file_seen as file_name_seen};
ghost use Rattle.indexmap.specs.IndexSet.{insert_all, insert_key};
ghost use Rattle.link_graph.specs.Graph.{files_of};
ghost use Rattle.link_graph.specs.PoolFiles.{directory_in, directory_of_unit, file_at, file_in, files_named, listed_directory, listed_file, number_of, place_of_number, same_file, text_or_empty};

use crate::entry_sources::{SourceRef, source_of};
use crate::nodes::{analysis_of, unit_of};
use crate::noted_uses::{FileUse, is_noted, no_marks, note};
use ds_base::dwarf::{DW_AT_comp_dir, DW_AT_decl_file, DWARF_5};
use ds_base::{List, NoMemory};
use dwarf_types::{Analysis, AttrRef, EntryRef, FileNameRef, InUnit, Origin, OutLines, ValueRef};
use indexmap::IndexSet;
use std::alloc::Global;
use std::hash::{Hash, Hasher};

/// A source file, by the names of its directory and of itself where they stand.
///
/// Each is hashed as one piece, so by many bytes at a time.
#[derive(Clone, Copy, PartialEq, Eq)]
pub(crate) struct FileRef<'a> {
    pub(crate) dir: &'a [u8],
    pub(crate) name: &'a [u8],
}

impl<'a> Hash for FileRef<'a> {
    ghost hash_input = { λ file. file.dir.now ∷ file.name.now ∷ [] };

    ghost respects_eq = { λ x y same. ap (λ dir. dir ∷ x.name.now ∷ []) ((bytes_decides x.dir.now y.dir.now).0 (and_parts _ _ same).0) ∙ ap (λ name. y.dir.now ∷ name ∷ []) ((bytes_decides x.name.now y.name.now).0 (and_parts _ _ same).1) };

    fn hash<H: Hasher>(&self, state: &mut H) {
        state.write(self.dir);
        state.write(self.name);
    }
}

/// The source files that the entries of nodes name, by first use. Each node stands for an entry.
pub(crate) fn files_of<'a>(
    alloc: Global,
    seen: &'a [Analysis],
    origins: &[Origin],
) -> Result<IndexSet<FileRef<'a>>, NoMemory>
    requires { All (IsSourced seen.now) origins.now }
    ensures { IfOk result (λ files. files_seen files ≡ files_of seen.now origins.now) }
{
    let mut files = IndexSet::new(alloc);
    let mut marks = no_marks(alloc, seen)?;
    for origin in origins {
        add_files(&mut files, &mut marks, seen, *origin)?;
    }
    Ok(files)
}

/// Puts the files that the entry of a node names behind those that are there, each unless it is one of them. `marks` tells
/// the uses whose files are there.
fn add_files<'a>(
    files: &mut IndexSet<FileRef<'a>>,
    marks: &mut List<List<List<bool>>>,
    seen: &'a [Analysis],
    origin: Origin,
) -> Result<(), NoMemory>
    requires sourced { IsSourced seen.now origin }
    requires noted { AreNoted seen.now marks.old (files_seen files.old) }
    ensures named { OnOk result (files_seen files.new ≡ insert_all same_file (files_seen files.old) (uses_of seen.now origin)) }
    ensures noted { OnOk result (AreNoted seen.now marks.new (files_seen files.new)) }
{
    add_files_named(files, marks, seen, &source_of(seen, origin))?;
    Ok(())
}

/// The same for an entry of an object.
fn add_files_named<'a>(
    files: &mut IndexSet<FileRef<'a>>,
    marks: &mut List<List<List<bool>>>,
    seen: &'a [Analysis],
    source: &SourceRef<'a>,
) -> Result<(), NoMemory>
    requires own { slice_get seen.now source.now.object ≡ Some source.now.seen.now }
    requires unit { source.now.entry.unit < length source.now.seen.now.units }
    requires noted { AreNoted seen.now marks.old (files_seen files.old) }
    ensures named { OnOk result (files_seen files.new ≡ insert_all same_file (files_seen files.old) (files_named source.now.seen.now source.now.entry)) }
    ensures noted { OnOk result (AreNoted seen.now marks.new (files_seen files.new)) }
{
    let entry = &source.entry;
    for j in 0..entry.len() {
        if let Some(number) = file_number_at(entry, j) {
            let now = FileUse {
                object: source.object,
                unit: entry.unit(),
                number,
            };
            add_use(files, marks, seen, now)?;
        }
    }
    Ok(())
}

/// The number by which the attribute of an entry at a place names a file; the value of another attribute is not read.
fn file_number_at(entry: &EntryRef<'_>, j: usize) -> Option<u64>
    requires { j < length entry.now.attrs }
    ensures { (a : Attr) → slice_get entry.now.attrs j ≡ Some a → Names a result }
{
    if entry.attr_name(j) != DW_AT_decl_file {
        return None;
    }
    file_number(&entry.attr(j))
}

/// The number by which an attribute names a file.
fn file_number(attr: &AttrRef<'_>) -> Option<u64>
    ensures { Names (attr_seen attr.now) result }
{
    if attr.name != DW_AT_decl_file {
        return None;
    }
    match attr.value {
        ValueRef::Number { bits, .. } => Some(bits),
        _ => None,
    }
}

/// Puts the file of a use last, unless it is there. Of a use that is marked no text is looked at, so each file of a unit's
/// table is hashed once.
fn add_use<'a>(
    files: &mut IndexSet<FileRef<'a>>,
    marks: &mut List<List<List<bool>>>,
    seen: &'a [Analysis],
    now: FileUse,
) -> Result<(), NoMemory>
    requires unit { IsUseIn seen.now now }
    requires noted { AreNoted seen.now marks.old (files_seen files.old) }
    ensures named { OnOk result (files_seen files.new ≡ with_named (files_seen files.old) (file_of_use seen.now now)) }
    ensures noted { OnOk result (AreNoted seen.now marks.new (files_seen files.new)) }
{
    if is_noted(marks.as_slice(), now) {
        return Ok(());
    }
    let Some(file) = file_of_use(seen, now) else {
        return Ok(());
    };
    add_file(files, file)?;
    note(marks, now);
    Ok(())
}

/// The file of a use, if the table has it.
fn file_of_use(seen: &[Analysis], now: FileUse) -> Option<FileRef<'_>>
    requires { IsUseIn seen.now now }
    ensures { option_map file_seen result ≡ file_of_use seen.now now }
{
    file_in(analysis_of(seen, now.object), now.unit, now.number)
}

/// Puts a file last, unless it is there.
fn add_file<'a>(files: &mut IndexSet<FileRef<'a>>, file: FileRef<'a>) -> Result<(), NoMemory>
    ensures { OnOk result (files_seen files.new ≡ insert_key same_file (files_seen files.old) (file_seen file.entry)) }
{
    files.insert(file)?;
    Ok(())
}

/// The number of a file among others, which are counted from 1.
pub(crate) fn number_of<'a>(files: &IndexSet<FileRef<'a>>, file: FileRef<'a>) -> Option<u64>
    ensures { result ≡ number_of (files_seen files.now) (file_seen file.entry) }
{
    match files.get_index_of(&file) {
        Some(index) => {
            prove!(index < files.len());
            Some(index as u64 + 1)
        }
        None => None,
    }
}

/// The file of a number in the table of unit `u`.
fn file_in(seen: &Analysis, u: u32, n: u64) -> Option<FileRef<'_>>
    requires { u < length seen.now.units }
    ensures { option_map file_seen result ≡ file_in seen.now u n }
{
    let unit = unit_of(seen, u);
    let place = place_of_number(unit.version, n)?;
    file_at(seen, unit, place)
}

/// The place of a number in a list of a line table of a version. In version 5 files and directories are counted from 0; in
/// version 4 from 1, and 0 has no place.
fn place_of_number(version: u16, n: u64) -> Option<u64>
    ensures { result ≡ place_of_number version n }
{
    if version == DWARF_5 {
        Some(n)
    } else if n == 0 {
        None
    } else {
        Some(n - 1)
    }
}

/// The file at a place of a unit's table.
fn file_at<'a>(seen: &'a Analysis, unit: &'a InUnit, i: u64) -> Option<FileRef<'a>>
    ensures { option_map file_seen result ≡ file_at seen.now unit.now i }
{
    match &unit.lines {
        Some(lines) => file_of_table(seen, unit, lines, i),
        None => None,
    }
}

/// The same of the table itself.
fn file_of_table<'a>(
    seen: &'a Analysis,
    unit: &'a InUnit,
    lines: &'a OutLines,
    i: u64,
) -> Option<FileRef<'a>>
    ensures { option_map file_seen result ≡ option_map (listed_file seen.now unit.now lines.now) (slice_get lines.now.files i) }
{
    let index = usize::try_from(i).ok()?;
    let file = lines.files.get(index)?;
    Some(listed_file(seen, unit, lines, file))
}

/// A file of a unit's table.
pub(crate) fn listed_file<'a>(
    seen: &'a Analysis,
    unit: &InUnit,
    lines: &'a OutLines,
    file: FileNameRef<'a>,
) -> FileRef<'a>
    ensures { file_seen result ≡ listed_file seen.now unit.now lines.now (file_name_seen file.entry) }
{
    FileRef {
        dir: directory_in(seen, unit, lines, file.dir),
        name: file.name,
    }
}

/// The directory of a number, which is that of the compilation for one without a place; empty where none is listed.
fn directory_in<'a>(seen: &'a Analysis, unit: &InUnit, lines: &'a OutLines, n: u64) -> &'a [u8]
    ensures { result.now ≡ directory_in seen.now unit.now lines.now n }
{
    match place_of_number(unit.version, n) {
        Some(i) => listed_directory(lines, i),
        None => directory_of_unit(seen, unit),
    }
}

/// The directory at a place of a table; empty where none is listed.
fn listed_directory(lines: &OutLines, i: u64) -> &[u8]
    ensures { result.now ≡ listed_directory lines.now i }
{
    match lines.dirs.get(i as usize) {
        Some(dir) => dir,
        None => b"",
    }
}

/// The directory of a unit's compilation, empty where it has none.
fn directory_of_unit<'a>(seen: &'a Analysis, unit: &InUnit) -> &'a [u8]
    ensures { result.now ≡ directory_of_unit seen.now unit.now }
{
    match seen.entries.get(unit.first as usize) {
        Some(root) => directory_of_root(&root),
        None => b"",
    }
}

/// The directory that the root of a unit names.
fn directory_of_root<'a>(root: &EntryRef<'a>) -> &'a [u8]
    ensures { result.now ≡ option_map_or text_or_empty (value_of DW_AT_comp_dir root.now) [] }
{
    match root.find(DW_AT_comp_dir) {
        Some(attr) => text_or_empty(attr.value),
        None => b"",
    }
}

fn text_or_empty(value: ValueRef<'_>) -> &[u8]
    ensures { result.now ≡ text_or_empty (value_seen value.entry) }
{
    match value {
        ValueRef::Text(text) => text,
        _ => b"",
    }
}
