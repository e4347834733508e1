//! A unit, drafted from its clone alone.

ghost use Rattle.std.specs.Prelude.{ℕ, length, ◌≡◌, ◌<◌, ◌^◌, [], Some, slice_get, IfOk};
ghost use Rattle.std.specs.List.{All};
ghost use Rattle.dwarf_types.specs.declared.graph.Graph.{Graph as Program};
ghost use Rattle.dwarf_types.specs.declared.graph.OutUnit.{OutUnit as Clone};
ghost use Rattle.dwarf_types.specs.Entries.{unit_bytes};
ghost use Rattle.dwarf_types.specs.Layout.{line_text_place, lists_place, places_of, table_place};
ghost use Rattle.dwarf_types.specs.LineTable.{lines_bytes};
ghost use Rattle.patches.specs.Filling.{Filling, filled};
ghost use Rattle.patches.specs.Numbers.{settled};
ghost use Rattle.unit_draft.specs.Drafted.{Drafts, IsDraft};
ghost use Rattle.unit_draft.specs.Outside.{IsOutside, outer_number};
ghost use Rattle.unit_draft.specs.Settled.{Settles};
ghost use Rattle.unit_draft.specs.Whole.{IsWhole};
ghost use Rattle.unit_draft.specs.World.{Stands, World};

use crate::error::DraftError;
use crate::outside::Outside;
use crate::parts::{DraftedLines, abbreviations_of, copy_of, lines_of};
use crate::whole::{Whole, append_unit};
use ds_base::limits::UNIT_BYTES;
use ds_base::{Bytes, List, NoMemory};
use dwarf_types::Span;
use patches::Buffer;
use std::alloc::Global;
use std::thread::Threads;
use text_pool::Names;
use unit_source::UnitSource;

/// A unit's parts of all sections, as far as they follow from the unit alone.
#[derive(Drop)]
pub struct Draft {
    /// The unit in `__debug_info`, with holes for what stands outside of it.
    pub info: Buffer,
    /// Its version, which tells the sections of its lists.
    pub version: u16,
    /// Its location lists in `__debug_loc` or `__debug_loclists`, in the order of the attributes.
    pub locations: Bytes,
    /// Its range lists in `__debug_ranges` or `__debug_rnglists`, in the order of the attributes.
    pub ranges: Bytes,
    /// Its line table in `__debug_line`, with holes for the places of its texts; no bytes where it has none.
    pub lines: Buffer,
    /// The texts of its line table, by the numbers under which the holes name them; none in version 4.
    pub line_names: Names,
    /// Its abbreviations in `__debug_abbrev`.
    pub table: Bytes,
    /// Its texts, by the numbers under which the holes name them.
    pub names: Names,
    /// The place of each node, counted from the unit's header.
    pub places: List<u32>,
    /// The addresses of its code in the linked program.
    pub code: List<Span>,
    /// The size of `info` in bytes.
    pub len: u32,
}

/// Drafts the unit of a number in the graph, counted from 0: whether a reference stays in the unit depends on it.
///
/// References inside the unit and the base operands of expressions are final. Each node is asked for once, in order. The
/// time is linear in the unit. Where there are two workers, one thread asks for nodes, and another appends those that were
/// asked for before; with one worker, or where no thread can be started, the caller does both.
pub fn draft_unit<R: Threads + Sync, S: UnitSource + Sync>(
    rt: &R,
    alloc: Global,
    workers: u32,
    unit: &S,
    number: u32,
) -> Result<Draft, DraftError>
    ensures { Drafts number (S.unit unit.now) result }
{
    // Each node has a byte at least.
    if unit.len() as u64 >= UNIT_BYTES {
        return Err(DraftError::Unit);
    }
    let whole = append_unit(rt, alloc, workers, unit, number)?;
    let draft = draft_of(alloc, unit, whole)?;
    Ok(draft)
}

/// The draft of a unit that is whole.
fn draft_of<S: UnitSource>(alloc: Global, unit: &S, whole: Whole) -> Result<Draft, NoMemory>
    requires { (number : ℕ) × IsWhole number (S.unit unit.now) whole }
    ensures { (number : ℕ) → IsWhole number (S.unit unit.now) whole.entry → IfOk result (IsDraft number (S.unit unit.now)) }
{
    let lines = lines_of(alloc, unit)?;
    let table = abbreviations_of(alloc, &whole.declared)?;
    let code = copy_of(alloc, unit.ranges())?;
    Ok(settled_draft(whole, unit.version(), lines, table, code))
}

/// The draft of a whole unit, whose own places are filled in.
fn settled_draft(
    whole: Whole,
    version: u16,
    lines: DraftedLines,
    table: Bytes,
    code: List<Span>,
) -> Draft
    requires small { All (λ place. place < 2 ^ 28) whole.places }
    requires short { whole.len < 2 ^ 28 }
    ensures settled { Settles whole.entry result }
    ensures version { result.version ≡ version }
    ensures lines { result.lines ≡ lines.table }
    ensures line_names { result.line_names ≡ lines.names }
    ensures table { result.table ≡ table }
    ensures code { result.code ≡ code }
{
    let Whole {
        drafting,
        places,
        len,
        ..
    } = whole;
    let mut info = drafting.info;
    info.settle(len, places.as_slice());
    let locations = settled_bytes(drafting.locations, len, places.as_slice());
    let names = drafting.names.into_names();
    Draft {
        info,
        version,
        locations,
        ranges: drafting.ranges,
        lines: lines.table,
        line_names: lines.names,
        table,
        names,
        places,
        code,
        len,
    }
}

/// The bytes of lists in which nothing outside of the unit is named.
fn settled_bytes(lists: Buffer, len: u32, places: &[u32]) -> Bytes
    requires small { All (λ place. place < 2 ^ 28) places.now }
    requires short { len < 2 ^ 28 }
    ensures { (f : Filling) × (result ≡ filled lists (settled f len places.now)) }
{
    let mut lists = lists;
    lists.settle(len, places);
    lists.patch(&nowhere());
    lists.into_bytes()
}

/// Nothing has a place.
fn nowhere<'a>() -> Outside<'a> {
    Outside {
        table: 0,
        lines: 0,
        ranges: 0,
        locations: 0,
        texts: &[],
        line_texts: &[],
        starts: &[],
        drafts: &[],
        end: 0,
    }
}

/// Writes the entries of a draft into a room of their size, with what stands outside of the unit. It takes no memory.
pub fn emit_draft(draft: &Draft, outside: &Outside, room: &mut [u8])
    requires settled { draft.now.info.own ≡ [] }
    requires fits { (f : Filling) → length room.old ≡ length (filled draft.now.info f) }

    // in any world in which the unit stands
    ensures world { (number : ℕ) (clone : Clone) (w : World) → IsDraft number clone draft.now → Stands number clone draft.now.names draft.now.line_names w → w.filling.outer ≡ outer_number outside.now → room.new ≡ unit_bytes w.places w.lists w.table clone }

    // in a graph
    ensures graph { (whole : Program) (u : ℕ) (clone : Clone) → slice_get whole.units u ≡ Some clone → IsDraft u clone draft.now → IsOutside whole u clone draft.now.names draft.now.line_names outside.now → room.new ≡ unit_bytes (places_of whole u clone) (lists_place whole u clone) (table_place whole u) clone }
{
    draft.info.emit(outside, room);
}

/// Writes the line table of a draft into a room of its size, with what stands outside of the unit. It takes no memory.
pub fn emit_lines(draft: &Draft, outside: &Outside, room: &mut [u8])
    requires settled { draft.now.lines.own ≡ [] }
    requires fits { (f : Filling) → length room.old ≡ length (filled draft.now.lines f) }
    ensures graph { (whole : Program) (u : ℕ) (clone : Clone) → slice_get whole.units u ≡ Some clone → IsDraft u clone draft.now → IsOutside whole u clone draft.now.names draft.now.line_names outside.now → room.new ≡ lines_bytes (line_text_place whole) clone }
{
    draft.lines.emit(outside, room);
}
