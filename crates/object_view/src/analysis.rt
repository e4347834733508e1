//! An object's analysis.

ghost use Rattle.std.specs.Prelude.{◌≡◌, ◌^◌, ◌<◌, ℕ, length, Ok, IfOk};
ghost use Rattle.std.specs.List.{All};
ghost use Rattle.ds_base.specs.Reading.{Gives};
ghost use Rattle.dwarf_types.specs.Raw.{places_of};
ghost use Rattle.dwarf_types.specs.SectionBytes.{bytes_in};
ghost use Rattle.dwarf_types.specs.Sound.{IsSound};
ghost use Rattle.unit_tree.specs.Inside.{AreInside};
ghost use Rattle.unit_tree.specs.Sound.{AreSound as AreSoundUnits};
ghost use Rattle.expr_resolve.specs.Context.{AreInOrder};
ghost use Rattle.addr_map.specs.Ranges.{map_of};
ghost use Rattle.object_read.specs.Read.{read_of};
ghost use Rattle.object_read.specs.Seen.{read_in};
ghost use Rattle.object_read.specs.Sound.{IsRead, IsReadOf};
ghost use Rattle.object_view.specs.Analysis.{analysis_of, read_analysed};
ghost use Rattle.object_view.specs.Numbers.{AreNumbers};
ghost use Rattle.object_view.specs.Seen.{opened_seen, opened_with};
ghost use Rattle.object_view.specs.Ready.{AllAttrs, AllRawAttrs, AreOfUnits, HasRoot, IsLinesInside, IsListAttr, IsOpen, IsReadAttr, IsRooted, context_among};
ghost use Rattle.object_view.specs.Roots.{IsBehindHeader};
ghost use Rattle.object_view.specs.Spelled.{IsOfObject};
ghost use Rattle.object_view.specs.Stages.{analysed, entries_analysed, finished, frames_with_code, info_done, lists_meant, tables_in, tables_meant};
ghost use Rattle.object_view.specs.Units;

use crate::code::code_of;
use crate::expressions::Expressions;
use crate::info::understand_entries;
use crate::line_tables::{mark_all, read_line_tables};
use crate::locations::LocationLists;
use crate::ranges::{RangeLists, unit_bases};
use crate::steps::change_entries;
use crate::units::{Tables, made_once};
use crate::view::ObjectView;
use addr_map::{AddrMap, build};
use ds_base::{List, ReadError};
use dwarf_types::{
    Addr, Analysis, CodeRange, Entries, InUnit, OutFrames, RawEntries, RawUnits, Sections,
};
use frame_table::read_frames;
use moved_parts::move_frames;
use object_read::{ReadObject, read_with_sections, sections_of};
use stab_map::MapObject;
use std::alloc::Global;

/// Analyses the object in a file's bytes, for a program of this CPU type: its units, entries, code and frames, with
/// the addresses that its part of the debug map moves to the linked program.
///
/// Faults come in this order: those of the image; that it is no object of the CPU type; of the sections of `__DWARF` in
/// the image's order `CompressedSection` and `BadSection`; of the relocations of each debug section, in the order of the
/// parts; of the units, and of the references between their entries; of the expressions among the attributes, in document
/// order; of the line tables, unit by unit; of the range lists of `DW_AT_ranges`, and then of the location lists of
/// location attributes, both in document order; and of the frame descriptions. Of two debug sections of one name only the
/// first counts, and only tables and lists that an entry names are read.
///
/// Addresses are moved, also those that are indices, references are numbers of entries, expressions are operations, and
/// a root's line table is `Lines`, in the form of the unit's version. A section offset that leads to no table or list stays as it is.
#[tactic(auto, unfolding(crate::specs::Analysis::analysis_of))]
pub fn analyse(
    alloc: Global,
    bytes: &[u8],
    object: &MapObject,
    cpu: u32,
) -> Result<Analysis, ReadError>
    requires { length bytes.now < 2 ^ 32 }
    ensures exact { Gives (λ analysis. analysis) result (analysis_of bytes.now object.now cpu) }
    ensures sound { IfOk result IsSound }

    // Units, entries and attributes are those that the sections spell, and a reference is the number of the entry at its place.
    ensures spelled { IfOk result (IsOfObject bytes.now cpu) }
{
    let (read, sections) = read_with_sections(alloc, bytes, cpu)?;
    analyse_taken(alloc, sections, read, object)
}

/// Analyses an object that was read of these bytes, by its part of a debug map: as [`analyse`] does for the CPU type for
/// which it was read.
pub fn analyse_read(
    alloc: Global,
    bytes: &[u8],
    read: ReadObject,
    object: &MapObject,
) -> Result<Analysis, ReadError>
    requires { IsReadOf bytes.now read }
    ensures exact { Gives (λ analysis. analysis) result (read_analysed (read_in bytes.now read) object.now) }
    ensures sound { IfOk result IsSound }
    ensures spelled { (cpu : ℕ) → read_of bytes.now cpu ≡ Ok (read_in bytes.now read) → IfOk result (IsOfObject bytes.now cpu) }
{
    let sections = sections_of(bytes, &read);
    analyse_taken(alloc, sections, read, object)
}

/// The analysis of an object that was read, with the bytes of its debug sections, whose units are moved on.
fn analyse_taken(
    alloc: Global,
    sections: Sections,
    read: ReadObject,
    object: &MapObject,
) -> Result<Analysis, ReadError>
    requires { IsRead (opened_with sections read) read.units read.numbers }
    ensures { Gives (λ analysis. analysis) result (analysed (opened_with sections.entry read) (map_of object.now read.image) read.units) }
{
    let ReadObject {
        image,
        relocs,
        units,
        numbers,
    } = read;
    let view = ObjectView {
        image: &image,
        sections,
        relocs: &relocs,
    };
    analyse_view(alloc, &view, object, units, numbers.as_slice())
}

/// The analysis of an object with units that were read, whose references lead to the entries of these numbers, in document
/// order; `part` is its part of the debug map.
fn analyse_view(
    alloc: Global,
    object: &ObjectView,
    part: &MapObject,
    raw: RawUnits,
    numbers: &[u32],
) -> Result<Analysis, ReadError>
    requires { IsRead (opened_seen object.now) raw numbers.now }
    ensures { Gives (λ analysis. analysis) result (analysed (opened_seen object.now) (map_of part.now object.now.image.now) raw) }
{
    let map = build(alloc, part, object.image)?;
    analyse_units(alloc, object, &map, raw, numbers)
}

/// What the units mean that were read, whose references lead to the entries of these numbers, in document order.
fn analyse_units(
    alloc: Global,
    object: &ObjectView,
    map: &AddrMap,
    raw: RawUnits,
    numbers: &[u32],
) -> Result<Analysis, ReadError>
    requires open { IsOpen (opened_seen object.now) map.now }
    requires raw { AreSoundUnits raw }
    requires inside { AreInside (bytes_in object.now.sections) raw }
    requires rooted { All (IsRooted raw.entries) raw.units }
    requires behind { All (IsBehindHeader raw.entries) raw.units }
    requires numbers { AreNumbers (places_of raw.entries) raw.entries numbers.now }
    ensures { Gives (λ analysis. analysis) result (analysed (opened_seen object.now) map.now raw) }
{
    let RawUnits { units, entries } = raw;
    let (types, contexts) = made_once(alloc, units.as_slice(), &entries)?;
    let tables = Tables {
        types: types.as_slice(),
        numbers,
        units: contexts.as_slice(),
    };
    analyse_entries(alloc, object, map, &tables, units, entries)
}

/// What units and their entries mean, with the tables that are made of them.
fn analyse_entries(
    alloc: Global,
    object: &ObjectView,
    map: &AddrMap,
    tables: &Tables,
    mut units: List<InUnit>,
    raw: RawEntries,
) -> Result<Analysis, ReadError>
    requires open { IsOpen (opened_seen object.now) map.now }
    requires order { AreInOrder tables.now.types.now }
    requires few { length raw < 2 ^ 32 }
    requires numbers { AreNumbers (places_of raw) raw tables.now.numbers.now }
    requires units { tables.now.units.now ≡ Units.contexts_of raw units }
    requires roots { All (HasRoot (length raw)) units }
    requires inside { AreInside (bytes_in object.now.sections) (record { units = units; entries = raw }) }
    requires rooted { All (IsRooted raw) units }
    ensures { Gives (λ analysis. analysis) result (entries_analysed (opened_seen object.now) map.now (tables_in tables.now) units raw) }
{
    let mut entries = understand_info(alloc, object, map, tables, raw)?;
    read_tables(alloc, object, map, tables, &mut units, &mut entries)?;
    finish(alloc, object, map, units, entries)
}

/// Moves addresses, and understands references and expressions of `__debug_info`.
fn understand_info(
    alloc: Global,
    object: &ObjectView,
    map: &AddrMap,
    tables: &Tables,
    mut raw: RawEntries,
) -> Result<Entries, ReadError>
    requires open { IsOpen (opened_seen object.now) map.now }
    requires order { AreInOrder tables.now.types.now }
    requires fits { AllRawAttrs (IsReadAttr (bytes_in object.now.sections) tables.now.units.now (places_of raw)) raw }
    requires numbers { AreNumbers (places_of raw) raw tables.now.numbers.now }
    ensures { Gives (λ entries. entries) result (info_done (opened_seen object.now) map.now (tables_in tables.now) raw) }
{
    let expressions = Expressions {
        object,
        map,
        types: tables.types,
        units: tables.units,
    };
    understand_entries(alloc, &expressions, tables.numbers, &mut raw)?;
    Ok(raw.into_entries())
}

/// Reads the line tables that units name, and then the lists that entries name.
fn read_tables(
    alloc: Global,
    object: &ObjectView,
    map: &AddrMap,
    tables: &Tables,
    units: &mut List<InUnit>,
    entries: &mut Entries,
) -> Result<(), ReadError>
    requires open { IsOpen (opened_seen object.now) map.now }
    requires order { AreInOrder tables.now.types.now }
    requires count { length units.old ≡ length tables.now.units.now }
    requires roots { All (HasRoot (length entries.old)) units.old }
    requires inside { All (IsLinesInside (bytes_in object.now.sections) entries.old) units.old }
    requires units { AreOfUnits (length tables.now.units.now) entries.old }
    requires fits { AllAttrs (λ unit. IsListAttr (bytes_in object.now.sections) (context_among tables.now.units.now unit).version) entries.old }
    ensures { Gives (λ _. (units.new, entries.new)) result (tables_meant (opened_seen object.now) map.now (tables_in tables.now) units.old entries.old) }
{
    let bases = unit_bases(alloc, units.as_slice(), entries)?;
    read_line_tables(alloc, object, map, entries, units)?;
    read_lists(alloc, object, map, tables, bases.as_slice(), entries)?;
    Ok(())
}

/// Reads the range lists and then the location lists that entries name.
fn read_lists(
    alloc: Global,
    object: &ObjectView,
    map: &AddrMap,
    tables: &Tables,
    bases: &[Addr],
    entries: &mut Entries,
) -> Result<(), ReadError>
    requires open { IsOpen (opened_seen object.now) map.now }
    requires order { AreInOrder tables.now.types.now }
    requires bases { length bases.now ≡ length tables.now.units.now }
    requires units { AreOfUnits (length tables.now.units.now) entries.old }
    requires fits { AllAttrs (λ unit. IsListAttr (bytes_in object.now.sections) (context_among tables.now.units.now unit).version) entries.old }
    ensures { Gives (λ _. entries.new) result (lists_meant (opened_seen object.now) map.now (tables_in tables.now) bases.now entries.old) }
{
    let ranges = RangeLists {
        object,
        map,
        units: tables.units,
        bases,
    };
    let locations = LocationLists {
        expressions: Expressions {
            object,
            map,
            types: tables.types,
            units: tables.units,
        },
        bases,
    };
    mark_all(entries)?;
    change_entries(alloc, &ranges, entries)?;
    change_entries(alloc, &locations, entries)?;
    Ok(())
}

/// The analysis with these units and entries: the code of subprograms and the frame descriptions come to it.
fn finish(
    alloc: Global,
    object: &ObjectView,
    map: &AddrMap,
    units: List<InUnit>,
    entries: Entries,
) -> Result<Analysis, ReadError>
    requires open { IsOpen (opened_seen object.now) map.now }
    requires few { length entries < 2 ^ 32 }
    ensures { Gives (λ analysis. analysis) result (finished (opened_seen object.now) map.now units entries) }
{
    let (frames, code) = frames_and_code(alloc, object, map, &entries)?;
    Ok(Analysis {
        units,
        entries,
        code,
        frames,
    })
}

/// The frame descriptions that are kept, and the code of subprograms.
fn frames_and_code(
    alloc: Global,
    object: &ObjectView,
    map: &AddrMap,
    entries: &Entries,
) -> Result<(OutFrames, List<CodeRange>), ReadError>
    requires open { IsOpen (opened_seen object.now) map.now }
    requires few { length entries.now < 2 ^ 32 }
    ensures { Gives (λ made. made) result (frames_with_code (opened_seen object.now) map.now entries.now) }
{
    let frames = read_frames(alloc, &object.sections, &object.relocs.frame, object.image)?;
    let frames = move_frames(alloc, map, frames)?;
    let code = code_of(alloc, map, entries)?;
    Ok((frames, code))
}
