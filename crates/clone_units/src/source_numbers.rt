//! What the numbers of source files become: of each unit of each object, the number of each file of its table among those
//! of the pool's unit.

ghost use Rattle.std.specs.Prelude.{◌≡◌, ◌++◌, Some, IsSome, map, slice_get, OnOk, IfOk};
ghost use Rattle.std.specs.Option.{option_and_then};
ghost use Rattle.clone_units.specs.Sourced.{files_seen, numbers_before, numbers_in, numbers_listed, numbers_of_all, numbers_of_unit};

use crate::source_files::{FileRef, listed_file, number_of};
use ds_base::dwarf::DWARF_5;
use ds_base::{List, NoMemory};
use dwarf_types::{Analysis, InUnit, OutLines};
use indexmap::IndexSet;
use std::alloc::Global;

/// The numbers of the files of all units of all objects.
pub(crate) fn numbers_of_all<'a>(
    alloc: Global,
    files: &IndexSet<FileRef<'a>>,
    seen: &'a [Analysis],
) -> Result<List<List<List<Option<u64>>>>, NoMemory>
    ensures { IfOk result (λ rows. rows ≡ numbers_of_all (files_seen files.now) seen.now) }
{
    let mut rows = List::with_capacity(alloc, seen.len())?;
    for object in seen {
        let row = numbers_in(alloc, files, object)?;
        rows.push(row)?;
    }
    Ok(rows)
}

/// The numbers of the files of all units of an object.
fn numbers_in<'a>(
    alloc: Global,
    files: &IndexSet<FileRef<'a>>,
    seen: &'a Analysis,
) -> Result<List<List<Option<u64>>>, NoMemory>
    ensures { IfOk result (λ rows. rows ≡ numbers_in (files_seen files.now) seen.now) }
{
    let mut rows = List::with_capacity(alloc, seen.units.len())?;
    for unit in seen.units.as_slice() {
        let row = numbers_of_unit(alloc, files, seen, unit)?;
        rows.push(row)?;
    }
    Ok(rows)
}

/// At each number that a unit has, the number of that file.
fn numbers_of_unit<'a>(
    alloc: Global,
    files: &IndexSet<FileRef<'a>>,
    seen: &'a Analysis,
    unit: &'a InUnit,
) -> Result<List<Option<u64>>, NoMemory>
    ensures { IfOk result (λ numbers. numbers ≡ numbers_of_unit (files_seen files.now) seen.now unit.now) }
{
    let mut numbers = numbers_before(alloc, unit.version)?;
    if let Some(lines) = &unit.lines {
        add_numbers(&mut numbers, files, seen, unit, lines)?;
    }
    Ok(numbers)
}

/// What stands before the numbers of the files of a unit of a version. In version 4 files are counted from 1, and number 0,
/// which names none, stays; in version 5 they are counted from 0.
fn numbers_before(alloc: Global, version: u16) -> Result<List<Option<u64>>, NoMemory>
    ensures { IfOk result (λ numbers. numbers ≡ numbers_before version) }
{
    let mut numbers = List::new(alloc);
    if version != DWARF_5 {
        numbers.push(Some(0))?;
    }
    Ok(numbers)
}

/// Puts the numbers of the files of a unit's table last.
fn add_numbers<'a>(
    numbers: &mut List<Option<u64>>,
    files: &IndexSet<FileRef<'a>>,
    seen: &'a Analysis,
    unit: &'a InUnit,
    lines: &'a OutLines,
) -> Result<(), NoMemory>
    ensures { OnOk result (numbers.new ≡ numbers.old ++ numbers_listed (files_seen files.now) seen.now unit.now lines.now) }
{
    for i in 0..lines.files.len() {
        let number = number_of(files, listed_file(seen, unit, lines, lines.files.file(i)));
        numbers.push(number)?;
    }
    Ok(())
}

/// The numbers of the files of a unit of an object.
pub(crate) fn numbers_at(
    rows: &[List<List<Option<u64>>>],
    object: usize,
    unit: u32,
) -> &[Option<u64>]
    requires { IsSome (option_and_then (λ row. slice_get row unit) (slice_get rows.now object)) }
    ensures { option_and_then (λ row. slice_get row unit) (slice_get rows.now object) ≡ Some result.now }
{
    rows[object].as_slice()[unit as usize].as_slice()
}
