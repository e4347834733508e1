//! Abbreviation tables, each read once and looked up by code.

ghost use Rattle.std.specs.Prelude.{◌≡◌, ◌<◌, ◌≤◌, ◌==◌, ◌↔◌, length, All, Some, IfSome, IsSome, IsTrue, IfOk};
ghost use Rattle.std.specs.Option.{option_copied};
ghost use Rattle.std.specs.List.{position_from};
ghost use Rattle.std.specs.BTreeMap.{get};
ghost use Rattle.std.specs.Ordering.{nat_cmp};
ghost use Rattle.ds_base.specs.Reading.{Gives};
ghost use Rattle.abbrev_read.specs.Spelling.{HasFewFields};
ghost use Rattle.unit_tree.specs.Table.{IsRun, AreApart, AreRead, found_at};
ghost use Rattle.unit_tree.specs.Entry.{declared_as};

use abbrev_read::read_table;
use ds_base::{List, NoMemory, ReadError};
use dwarf_types::Abbrev;
use std::alloc::Global;
use std::collections::BTreeMap;
use std::marker::Model;

/// The declarations of an abbreviation table, to be looked up by code.
///
/// Compilers number the declarations of a table 1, 2, 3 and so on, and then the code is the place.
#[derive(Drop)]
pub(crate) struct Table {
    declarations: List<Abbrev>,
    /// So many declarations have the codes 1, 2, 3 and so on.
    run: usize,
    /// The places of the other codes.
    apart: BTreeMap<u64, usize>,
}

impl Model for Table {
    ghost use Rattle.std.specs.Prelude.{List, All};
    ghost use Rattle.dwarf_types.specs.declared.abbrev.Abbrev.{Abbrev};
    ghost use Rattle.abbrev_read.specs.Spelling.{HasFewFields};
    ghost use Rattle.unit_tree.specs.Table.{IsRun, AreApart};

    ghost Value = { List Abbrev };

    ghost view = { λ t. t.declarations };

    ghost invariant = { λ t. IsRun t.declarations t.run × AreApart t.declarations t.run t.apart × All HasFewFields t.declarations };
}

impl Table {
    /// The table of these declarations.
    pub(crate) fn new(alloc: Global, declarations: List<Abbrev>) -> Result<Table, NoMemory>
        requires { All HasFewFields declarations }
        ensures { IfOk result (λ table. table ≡ declarations) }
    {
        let run = run_of(declarations.as_slice());
        let apart = apart_from(alloc, declarations.as_slice(), run)?;
        Ok(Table {
            declarations,
            run,
            apart,
        })
    }

    /// The declaration that has a code.
    pub(crate) fn find(&self, code: u64) -> Option<&Abbrev>
        ensures found { option_copied result ≡ declared_as code self.now }
        ensures few { IfSome result (λ declared. HasFewFields declared.now) }
    {
        match self.place_of(code) {
            Some(place) => self.declarations.get(place),
            None => None,
        }
    }

    /// The place of the first declaration that has a code.
    fn place_of(&self, code: u64) -> Option<usize>
        ensures { result ≡ position_from (λ a. a.code == code) 0 self.now }
    {
        if is_in_run(code, self.run) {
            return Some(code as usize - 1);
        }
        self.apart.get(&code).copied()
    }
}

/// Whether a code is one of 1, 2, 3 and so on up to `run`.
fn is_in_run(code: u64, run: usize) -> bool
    ensures { IsTrue result ↔ ((0 < code) × (code ≤ run)) }
{
    code > 0 && code <= run as u64
}

/// How many declarations from the first on have the codes 1, 2, 3 and so on.
fn run_of(declarations: &[Abbrev]) -> usize
    ensures { IsRun declarations.now result }
{
    for (i, declared) in declarations.iter().enumerate() {
        if declared.code != i as u64 + 1 {
            return i;
        }
    }
    declarations.len()
}

/// The first places of the codes behind the run.
fn apart_from(
    alloc: Global,
    declarations: &[Abbrev],
    run: usize,
) -> Result<BTreeMap<u64, usize>, NoMemory>
    requires { IsRun declarations.now run }
    ensures { IfOk result (λ apart. AreApart declarations.now run apart) }
{
    let mut apart = BTreeMap::new(alloc);
    for i in (run..declarations.len()).rev() {
        apart.insert(declarations[i].code, i)?;
    }
    Ok(apart)
}

/// The tables of an object that were read so far, by their places in `__debug_abbrev`.
pub(crate) type Tables = BTreeMap<u32, Table>;

/// The table that was read at `offset`.
pub(crate) fn kept_table(tables: &Tables, offset: u32) -> &Table
    requires { IsSome (get nat_cmp tables.now offset) }
    ensures { get nat_cmp tables.now offset ≡ Some result.now }
{
    tables.get(&offset).unwrap()
}

/// Reads the table at `offset`, unless it was read before.
pub(crate) fn add_table(
    alloc: Global,
    tables: &mut Tables,
    bytes: &[u8],
    offset: u32,
) -> Result<(), ReadError>
    requires inside { offset < length bytes.now }
    requires read { AreRead bytes.now tables.old }
    ensures exact { Gives (λ _. get nat_cmp tables.new offset) result (found_at bytes.now offset) }
    ensures read { AreRead bytes.now tables.new }
{
    if !tables.contains_key(&offset) {
        let declarations = read_table(alloc, bytes, offset)?;
        let table = Table::new(alloc, declarations)?;
        tables.insert(offset, table)?;
    }
    Ok(())
}
