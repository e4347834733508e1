//! The entries of a unit.

ghost use Rattle.std.specs.Prelude.{◌≡◌, ◌<◌, ◌-◌, ◌==◌, [], length, IfOk, IfSome, OnOk};
ghost use Rattle.std.specs.List.{list_any};
ghost use Rattle.ds_base.specs.Reading.{Finds, Gives, Moves, Reads, ReadsUnlessFull, uleb_at};
ghost use Rattle.ds_base.specs.Spot.{IsSmall};
ghost use Rattle.dwarf_types.specs.declared.entry.TheConstants.{MOST_ENTRIES};
ghost use Rattle.dwarf_types.specs.SectionBytes.{bytes_in};
ghost use Rattle.abbrev_read.specs.Spelling.{HasFewFields};
ghost use Rattle.unit_tree.specs.declared.packed.TheConstants.{ANY_UNIT};
ghost use Rattle.unit_tree.specs.Entry.{is_dwo_name, entry_at, first_at, bases_at, root_at, innermost, closed, opened, listed_at, child_at, children_at, tree_at};
ghost use Rattle.unit_tree.specs.Bounds.{AreNumbers, IsReady, NumbersNext, parsed_seen};

use crate::attribute::{UnitContext, read_attrs};
use crate::bases::read_bases;
use crate::parsed::Parsed;
use crate::table::Table;
use ds_base::dwarf::{DW_AT_GNU_dwo_name, DW_AT_dwo_name, DW_TAG_compile_unit};
use ds_base::{Cursor, Fault, Kind, List, NoMemory, ReadError};
use dwarf_types::{Abbrev, Field, MOST_ENTRIES, Sections};
use index_tables::Bases;
use std::alloc::Global;

/// The most lists of children that may be open at once.
const MOST_OPEN: usize = 1000;

/// Reads the tree of the unit that begins at `start`, and puts its entries behind those before. Answers
/// the number of its root.
#[tactic(auto, unfolding(crate::specs::Entry::tree_at))]
pub(crate) fn read_tree<'a>(
    alloc: Global,
    start: &Cursor,
    cursor: &mut Cursor<'a>,
    sections: &Sections<'a>,
    context: UnitContext,
    table: &Table,
    parsed: &mut Parsed,
) -> Result<u32, ReadError>
    requires unit { context.unit < ANY_UNIT }
    requires ready { IsReady parsed.old }
    requires small { IsSmall cursor.old }
    ensures read { ReadsUnlessFull (λ _. parsed_seen parsed.new) result cursor.new (tree_at start.now (bytes_in sections.now) context table.now (parsed_seen parsed.old) cursor.old) }
    ensures number { IfOk result (λ number. number ≡ length parsed.old.built.entries) }
    ensures ready { OnOk result (IsReady parsed.new) }
{
    let (number, children) = read_root(start, cursor, sections, context, table, parsed)?;
    let mut lists = List::new(alloc);
    open_list(&mut lists, children, number)?;
    read_children(cursor, sections, context, table, parsed, &mut lists)?;
    Ok(number)
}

/// Reads the root of the unit that begins at `start`. Answers its number, and whether it has a list of
/// children.
#[tactic(auto, unfolding(crate::specs::Entry::root_at))]
fn read_root<'a>(
    start: &Cursor,
    cursor: &mut Cursor<'a>,
    sections: &Sections<'a>,
    context: UnitContext,
    table: &Table,
    parsed: &mut Parsed,
) -> Result<(u32, bool), ReadError>
    requires unit { context.unit < ANY_UNIT }
    requires ready { IsReady parsed.old }
    requires small { IsSmall cursor.old }
    ensures read { ReadsUnlessFull (λ root. (root.1, parsed_seen parsed.new)) result cursor.new (root_at start.now (bytes_in sections.now) context table.now (parsed_seen parsed.old) cursor.old) }
    ensures number { IfOk result (λ root. root.0 ≡ length parsed.old.built.entries) }
    ensures below { IfOk result (λ root. root.0 < MOST_ENTRIES) }
    ensures ready { OnOk result (IsReady parsed.new) }
    ensures small { OnOk result (IsSmall cursor.new) }
{
    let place = cursor.place() as u32;
    let declared = read_first(start, cursor, table, parsed)?;
    let number = parsed.built.len() as u32;
    read_entry(cursor, sections, context, None, place, declared, parsed)?;
    Ok((number, declared.children))
}

/// Reads the code of the first entry of the unit that begins at `start`. Answers its declaration.
#[tactic(auto, unfolding(crate::specs::Entry::first_at))]
fn read_first<'t>(
    start: &Cursor,
    cursor: &mut Cursor,
    table: &'t Table,
    parsed: &Parsed,
) -> Result<&'t Abbrev, Fault>
    requires small { IsSmall cursor.old }
    ensures read { Reads (λ declared. declared.now) result cursor.new (first_at start.now table.now (parsed_seen parsed.now) cursor.old) }
    ensures room { IfOk result (λ declared. length parsed.now.built.entries < MOST_ENTRIES) }
    ensures few { IfOk result (λ declared. HasFewFields declared.now) }
    ensures small { OnOk result (IsSmall cursor.new) }
{
    let first = cursor.fork();
    let code = read_code(cursor)?;
    if code == 0 {
        return Err(start.fault(Kind::BadUnit));
    }
    let Some(declared) = table.find(code) else {
        return Err(first.fault(Kind::UnknownCode));
    };
    if declared.tag != DW_TAG_compile_unit {
        return Err(start.fault(Kind::BadUnit));
    }
    if has_dwo_name(declared.fields.as_slice()) {
        return Err(first.fault(Kind::SplitUnit));
    }
    next_number(&first, parsed)?;
    Ok(declared)
}

/// The bases of the tables of the unit that begins at `start`, whose first entry stands at the cursor. Its
/// values are read, and no index is tried.
#[tactic(auto, unfolding(crate::specs::Entry::bases_at))]
pub(crate) fn find_bases<'a>(
    alloc: Global,
    start: &Cursor,
    cursor: &Cursor<'a>,
    sections: &Sections<'a>,
    context: UnitContext,
    table: &Table,
    parsed: &Parsed,
) -> Result<Bases, ReadError>
    requires unit { context.unit < ANY_UNIT }
    requires small { IsSmall cursor.now }
    ensures { Gives (λ bases. bases) result (bases_at start.now (bytes_in sections.now) context table.now (parsed_seen parsed.now) cursor.now) }
{
    let mut cursor = cursor.fork();
    let declared = read_first(start, &mut cursor, table, parsed)?;
    read_bases(
        alloc,
        &mut cursor,
        sections,
        context,
        declared.fields.as_slice(),
    )
}

/// Reads entries until no list is open.
fn read_children<'a>(
    cursor: &mut Cursor<'a>,
    sections: &Sections<'a>,
    context: UnitContext,
    table: &Table,
    parsed: &mut Parsed,
    lists: &mut List<u32>,
) -> Result<(), ReadError>
    requires unit { context.unit < ANY_UNIT }
    requires ready { IsReady parsed.old }
    requires numbers { AreNumbers lists.old }
    requires small { IsSmall cursor.old }
    ensures read { ReadsUnlessFull (λ _. parsed_seen parsed.new) result cursor.new (children_at (bytes_in sections.now) context table.now (cursor.old.end - cursor.old.place) (parsed_seen parsed.old, lists.old) cursor.old) }
    ensures ready { OnOk result (IsReady parsed.new) }
{
    while !are_closed(lists) {
        if cursor.left() == 0 {
            return Err(ReadError::Faulty(cursor.fault(Kind::UnclosedSiblings)));
        }
        read_child(cursor, sections, context, table, parsed, lists)?;
    }
    Ok(())
}

/// Whether no list is open.
fn are_closed(lists: &List<u32>) -> bool
    ensures { result ≡ (length lists.now == 0) }
{
    lists.is_empty()
}

/// Reads an entry of the innermost list, or the code 0 that closes it.
#[tactic(auto, unfolding(crate::specs::Entry::child_at))]
fn read_child<'a>(
    cursor: &mut Cursor<'a>,
    sections: &Sections<'a>,
    context: UnitContext,
    table: &Table,
    parsed: &mut Parsed,
    lists: &mut List<u32>,
) -> Result<(), ReadError>
    requires unit { context.unit < ANY_UNIT }
    requires ready { IsReady parsed.old }
    requires numbers { AreNumbers lists.old }
    requires small { IsSmall cursor.old }
    ensures read { ReadsUnlessFull (λ _. (parsed_seen parsed.new, lists.new)) result cursor.new (child_at (bytes_in sections.now) context table.now (parsed_seen parsed.old, lists.old) cursor.old) }
    ensures ready { OnOk result (IsReady parsed.new) }
    ensures numbers { OnOk result (AreNumbers lists.new) }
{
    let first = cursor.fork();
    let code = read_code(cursor)?;
    if code == 0 {
        close_list(lists);
        return Ok(());
    }
    let Some(declared) = table.find(code) else {
        return Err(ReadError::Faulty(first.fault(Kind::UnknownCode)));
    };
    read_listed(cursor, sections, context, &first, declared, parsed, lists)
}

/// Reads what is behind the code of an entry of the innermost list that begins at `first`.
#[tactic(auto, unfolding(crate::specs::Entry::listed_at))]
fn read_listed<'a>(
    cursor: &mut Cursor<'a>,
    sections: &Sections<'a>,
    context: UnitContext,
    first: &Cursor,
    declared: &Abbrev,
    parsed: &mut Parsed,
    lists: &mut List<u32>,
) -> Result<(), ReadError>
    requires unit { context.unit < ANY_UNIT }
    requires ready { IsReady parsed.old }
    requires numbers { AreNumbers lists.old }
    requires few { HasFewFields declared.now }
    requires first { IsSmall first.now }
    requires small { IsSmall cursor.old }
    ensures read { ReadsUnlessFull (λ _. (parsed_seen parsed.new, lists.new)) result cursor.new (listed_at (bytes_in sections.now) context declared.now (parsed_seen parsed.old, lists.old) first.now cursor.old) }
    ensures ready { OnOk result (IsReady parsed.new) }
    ensures numbers { OnOk result (AreNumbers lists.new) }
{
    if declared.children && lists.len() >= MOST_OPEN {
        return Err(ReadError::Faulty(first.fault(Kind::LimitDepth)));
    }
    let number = next_number(first, parsed)?;
    let parent = innermost_of(lists);
    let place = first.place() as u32;
    read_entry(cursor, sections, context, parent, place, declared, parsed)?;
    open_list(lists, declared.children, number)?;
    Ok(())
}

/// Reads the entry that begins at `place` and has a declaration, whose values stand at the cursor.
#[tactic(auto, unfolding(crate::specs::Entry::entry_at))]
fn read_entry<'a>(
    cursor: &mut Cursor<'a>,
    sections: &Sections<'a>,
    context: UnitContext,
    parent: Option<u32>,
    place: u32,
    declared: &Abbrev,
    parsed: &mut Parsed,
) -> Result<(), ReadError>
    requires unit { context.unit < ANY_UNIT }
    requires ready { IsReady parsed.old }
    requires room { length parsed.old.built.entries < MOST_ENTRIES }
    requires few { HasFewFields declared.now }
    requires parent { IfSome parent (λ p. p < MOST_ENTRIES) }
    requires small { IsSmall cursor.old }
    ensures read { ReadsUnlessFull (λ _. parsed_seen parsed.new) result cursor.new (entry_at (bytes_in sections.now) context parent place declared.now (parsed_seen parsed.old) cursor.old) }
    ensures ready { OnOk result (IsReady parsed.new) }
{
    let root = parent.is_none();
    let fields = declared.fields.as_slice();
    read_attrs(
        cursor,
        sections,
        context,
        root,
        fields,
        &mut parsed.built,
        &mut parsed.references,
    )?;
    parsed
        .built
        .close(parent, context.unit, place, declared.tag)?;
    Ok(())
}

/// The number of the next entry, which begins at `first`.
fn next_number(first: &Cursor, parsed: &Parsed) -> Result<u32, Fault>
    ensures { NumbersNext result (parsed_seen parsed.now) first.now }
{
    let number = parsed.built.len();
    if number >= MOST_ENTRIES {
        return Err(first.fault(Kind::LimitEntries));
    }
    Ok(number as u32)
}

/// The next code.
fn read_code(cursor: &mut Cursor) -> Result<u64, Fault>
    ensures read { Moves (λ code. code) result cursor.old cursor.new (uleb_at cursor.old) }
    ensures small { IsSmall cursor.old → OnOk result (IsSmall cursor.new) }
{
    cursor.uleb()
}

/// Whether a declaration names the file of a split unit.
fn has_dwo_name(fields: &[Field]) -> bool
    ensures { result ≡ list_any is_dwo_name fields.now }
{
    fields.iter().any(|field| field.name == DW_AT_dwo_name || field.name == DW_AT_GNU_dwo_name)
}

/// The entry whose list is the innermost.
fn innermost_of(lists: &List<u32>) -> Option<u32>
    ensures is { result ≡ innermost lists.now }
    ensures below { AreNumbers lists.now → IfSome result (λ number. number < MOST_ENTRIES) }
{
    lists.as_slice().last().copied()
}

/// Opens the list of an entry, if it has one.
fn open_list(lists: &mut List<u32>, children: bool, number: u32) -> Result<(), NoMemory>
    ensures is { OnOk result (lists.new ≡ opened children number lists.old) }
    ensures numbers { AreNumbers lists.old → number < MOST_ENTRIES → OnOk result (AreNumbers lists.new) }
{
    if children {
        lists.push(number)?;
    }
    Ok(())
}

/// Closes the innermost list.
fn close_list(lists: &mut List<u32>)
    ensures is { lists.new ≡ closed lists.old }
    ensures numbers { AreNumbers lists.old → AreNumbers lists.new }
{
    let _ = lists.pop();
}
