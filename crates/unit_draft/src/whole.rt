//! All entries of a unit.

ghost use Rattle.std.specs.Prelude.{ℕ, ◌≡◌, ◌++◌, ◌<◌, ◌^◌, length, IfOk, OnOk};
ghost use Rattle.byteorder.specs.Endian.{little_bytes};
ghost use Rattle.dwarf_types.specs.declared.graph.OutUnit.{OutUnit as AUnit};
ghost use Rattle.dwarf_types.specs.Entries.{header_fields, unit_len};
ghost use Rattle.patches.specs.declared.hole.Outer.TheVariants as outer_holes;
ghost use Rattle.patches.specs.declared.hole.Own.TheVariants as own_holes;
ghost use Rattle.patches.specs.Filling.{Filling, filled};
ghost use Rattle.unit_draft.specs.Long.{RefusesLong};
ghost use Rattle.unit_draft.specs.Whole.{IsBegun, IsEntered, IsWhole};

use crate::drafting::Drafting;
use crate::entries::{Appender, end_of};
use crate::error::DraftError;
use crate::preparer::{Preparer, preparer_of};
use crate::stretch::Stretch;
use crate::turns::{append_stretches, first_size, last_size};
use abbrev_write::Declared;
use ds_base::dwarf::{ADDRESS_SIZE, DW_UT_compile, DWARF_5};
use ds_base::{List, NoMemory};
use patches::{Buffer, Outer, Own};
use std::alloc::Global;
use std::thread::Threads;
use unit_source::UnitSource;

/// A unit whose own places are not filled in yet.
#[derive(Drop)]
pub(crate) struct Whole<'a> {
    pub(crate) drafting: Drafting<'a>,
    /// What declares its nodes.
    pub(crate) declared: Declared,
    /// The place of each node, counted from the header.
    pub(crate) places: List<u32>,
    /// The size of the unit in bytes.
    pub(crate) len: u32,
}

/// Drafts the unit of a number, in two threads where there are two workers.
pub(crate) fn append_unit<'a, R: Threads + Sync, S: UnitSource + Sync>(
    rt: &R,
    alloc: Global,
    workers: u32,
    unit: &'a S,
    number: u32,
) -> Result<Whole<'a>, DraftError>
    requires few { length (S.unit unit.now).nodes < 2 ^ 28 }
    ensures whole { IfOk result (IsWhole number (S.unit unit.now)) }
    ensures long { RefusesLong result (unit_len number (S.unit unit.now)) }
{
    let mut preparer = preparer_of(alloc, unit, number, first_size(workers), last_size(workers))?;
    let mut appender = appender_of(alloc, number, unit.version(), unit.len())?;
    append_stretches(rt, workers, unit, number, &mut preparer, &mut appender)?;
    let Preparer { declared, .. } = preparer;
    whole_of(appender, declared)
}

/// What appends the entries of a unit, once its header is appended. It has room for so many nodes.
fn appender_of<'a>(
    alloc: Global,
    number: u32,
    version: u16,
    nodes: usize,
) -> Result<Appender<'a>, NoMemory>
    ensures { IfOk result (IsBegun number version) }
{
    let mut drafting = Drafting::new(alloc, nodes);
    append_header(&mut drafting.info, version)?;
    let places = List::with_capacity(alloc, nodes)?;
    Ok(Appender {
        drafting,
        places,
        number,
        version,
        stretch: Stretch::new(alloc),
    })
}

/// A unit all of whose entries are appended.
fn whole_of(appender: Appender, declared: Declared) -> Result<Whole, DraftError>
    ensures whole { (number : ℕ) (unit : AUnit) → IsEntered number unit appender.entry declared → IfOk result (IsWhole number unit) }
    ensures long { (number : ℕ) (unit : AUnit) → IsEntered number unit appender.entry declared → RefusesLong result (unit_len number unit) }
{
    let Appender {
        drafting,
        places,
        ..
    } = appender;
    let len = end_of(&drafting.info)?;
    Ok(Whole {
        drafting,
        declared,
        places,
        len,
    })
}

/// The header of a unit (DWARF 4, section 7.5.1.1; DWARF 5, section 7.5.1.1): `unit_length`, the version, and what
/// follows them.
fn append_header(out: &mut Buffer, version: u16) -> Result<(), NoMemory>
    ensures { OnOk result ((f : Filling) → filled out.new f ≡ filled out.old f ++ (little_bytes 4 (f.own own_holes.Size) ++ (little_bytes 2 version ++ header_fields version (f.outer outer_holes.Table)))) }
{
    out.leave_own(Own::Size)?;
    out.extend(&version.to_le_bytes())?;
    append_header_fields(out, version)?;
    Ok(())
}

/// The place of the abbreviations and the size of an address; in version 5 behind the kind of the unit and turned round.
fn append_header_fields(out: &mut Buffer, version: u16) -> Result<(), NoMemory>
    ensures { OnOk result ((f : Filling) → filled out.new f ≡ filled out.old f ++ header_fields version (f.outer outer_holes.Table)) }
{
    if version == DWARF_5 {
        out.extend(&[DW_UT_compile, ADDRESS_SIZE])?;
        out.leave(Outer::Table)?;
    } else {
        out.leave(Outer::Table)?;
        out.push(ADDRESS_SIZE)?;
    }
    Ok(())
}
