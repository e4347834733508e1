//! Which files of units' tables were put among the files of the pool's unit, looked up by their numbers.

ghost use Rattle.std.specs.Prelude.{◌≡◌, ◌++◌, ◌∷◌, [], false, true, map, replicate, slice_index_or, slice_set, IfOk};
ghost use Rattle.clone_units.specs.Noted.{is_noted, is_noted_in, marks_of_object, marks_of_unit, with_noted, with_noted_in};

use ds_base::{List, NoMemory};
use dwarf_types::{Analysis, InUnit};
use std::alloc::Global;

/// By what an attribute names a source file: a number in the table of a unit of an object.
#[derive(Clone, Copy)]
pub(crate) struct FileUse {
    /// The number of the object, counted from 0.
    pub(crate) object: usize,
    pub(crate) unit: u32,
    pub(crate) number: u64,
}

/// Marks that are all false: of each unit of each object, one for each number that its table may have.
pub(crate) fn no_marks(alloc: Global, seen: &[Analysis]) -> Result<List<List<List<bool>>>, NoMemory>
    ensures { IfOk result (λ marks. marks ≡ map marks_of_object seen.now) }
{
    let mut marks = List::with_capacity(alloc, seen.len())?;
    for object in seen {
        let rows = marks_of_object(alloc, object)?;
        marks.push(rows)?;
    }
    Ok(marks)
}

/// The same of one object.
fn marks_of_object(alloc: Global, seen: &Analysis) -> Result<List<List<bool>>, NoMemory>
    ensures { IfOk result (λ rows. rows ≡ marks_of_object seen.now) }
{
    let mut rows = List::with_capacity(alloc, seen.units.len())?;
    for unit in seen.units.as_slice() {
        let row = marks_of_unit(alloc, unit)?;
        rows.push(row)?;
    }
    Ok(rows)
}

/// The same of one unit. Files are counted from 0 or from 1, by its version.
fn marks_of_unit(alloc: Global, unit: &InUnit) -> Result<List<bool>, NoMemory>
    ensures { IfOk result (λ row. row ≡ marks_of_unit unit.now) }
{
    match &unit.lines {
        Some(lines) => marks_of_files(alloc, lines.files.len()),
        None => Ok(List::new(alloc)),
    }
}

/// Marks for the numbers of so many files.
fn marks_of_files(alloc: Global, count: usize) -> Result<List<bool>, NoMemory>
    ensures { IfOk result (λ row. row ≡ replicate count false ++ false ∷ []) }
{
    let mut row = vec![in alloc; false; count]?;
    row.push(false)?;
    Ok(List::from_vec(row))
}

/// Whether a use is marked.
pub(crate) fn is_noted(marks: &[List<List<bool>>], now: FileUse) -> bool
    ensures { result ≡ is_noted marks.now now }
{
    match marks.get(now.object) {
        Some(rows) => is_noted_in(rows.as_slice(), now.unit, now.number),
        None => false,
    }
}

/// Whether a number of a unit is marked.
fn is_noted_in(rows: &[List<bool>], unit: u32, number: u64) -> bool
    ensures { result ≡ is_noted_in rows.now unit number }
{
    match rows.get(unit as usize) {
        Some(row) => is_noted_at(row.as_slice(), number),
        None => false,
    }
}

/// Whether a number is marked.
fn is_noted_at(row: &[bool], number: u64) -> bool
    ensures { result ≡ slice_index_or row.now number false }
{
    match row.get(number as usize) {
        Some(mark) => *mark,
        None => false,
    }
}

/// Marks a use.
pub(crate) fn note(marks: &mut List<List<List<bool>>>, now: FileUse)
    ensures { marks.new ≡ with_noted marks.old now }
{
    note_in_all(marks.as_mut_slice(), now);
}

/// The same in a slice.
fn note_in_all(marks: &mut [List<List<bool>>], now: FileUse)
    ensures { marks.new ≡ with_noted marks.old now }
{
    if now.object < marks.len() {
        note_in_list(&mut marks[now.object], now.unit, now.number);
    }
}

/// Marks a number of a unit.
fn note_in_list(rows: &mut List<List<bool>>, unit: u32, number: u64)
    ensures { rows.new ≡ with_noted_in rows.old unit number }
{
    note_in(rows.as_mut_slice(), unit, number);
}

/// The same in a slice.
fn note_in(rows: &mut [List<bool>], unit: u32, number: u64)
    ensures { rows.new ≡ with_noted_in rows.old unit number }
{
    if (unit as usize) < rows.len() {
        note_at_list(&mut rows[unit as usize], number);
    }
}

/// Marks a number.
fn note_at_list(row: &mut List<bool>, number: u64)
    ensures { row.new ≡ slice_set row.old number true }
{
    note_at(row.as_mut_slice(), number);
}

/// The same in a slice.
fn note_at(row: &mut [bool], number: u64)
    ensures { row.new ≡ slice_set row.old number true }
{
    if number < row.len() as u64 {
        row[number as usize] = true;
    }
}
