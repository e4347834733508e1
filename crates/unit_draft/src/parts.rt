//! The parts of a unit besides its entries, each in the bytes of its section.

ghost use Rattle.std.specs.Prelude.{ℕ, ◌≡◌, ◌+◌, length, IfOk, OnOk};
ghost use Rattle.dwarf_types.specs.Abbreviations.{declarations_bytes};
ghost use Rattle.dwarf_types.specs.Layout.{line_texts_of_unit};
ghost use Rattle.dwarf_types.specs.LineTable.{lines_bytes};
ghost use Rattle.line_write.specs.Named.{AppendsNamed};
ghost use Rattle.patches.specs.Filling.{Filling, filled};
ghost use Rattle.unit_draft.specs.Drafted.{lines_len};
ghost use Rattle.unit_draft.specs.Lines.{AreLines};

use abbrev_write::{Declared, append_table};
use ds_base::{Bytes, List, NoMemory};
use dwarf_types::Span;
use line_write::append_lines;
use patches::Buffer;
use std::alloc::Global;
use text_pool::{Names, Naming};
use unit_source::UnitSource;

/// A unit's line table in `__debug_line`.
#[derive(Drop)]
pub(crate) struct DraftedLines {
    /// The table, with holes for the places of its texts; no bytes where the unit has none.
    pub(crate) table: Buffer,
    /// The texts, by the numbers under which the holes name them.
    pub(crate) names: Names,
}

/// The line table of a unit.
pub(crate) fn lines_of<S: UnitSource>(alloc: Global, unit: &S) -> Result<DraftedLines, NoMemory>
    ensures { IfOk result (AreLines (S.unit unit.now)) }
{
    let mut table = Buffer::new(alloc);
    let mut naming = Naming::new(alloc);
    append_lines_of(alloc, &mut table, &mut naming, unit)?;
    // The table names nothing that the unit tells, so this gives back memory alone.
    table.settle(0, &[]);
    Ok(DraftedLines {
        table,
        names: naming.into_names(),
    })
}

fn append_lines_of<'a, S: UnitSource>(
    alloc: Global,
    out: &mut Buffer,
    names: &mut Naming<'a>,
    unit: &'a S,
) -> Result<(), NoMemory>
    ensures table { OnOk result (AppendsNamed out.old out.new names.old names.new (λ text. lines_bytes text (S.unit unit.now)) (line_texts_of_unit (S.unit unit.now))) }
    ensures size { OnOk result ((f : Filling) → length (filled out.new f) ≡ length (filled out.old f) + lines_len (S.unit unit.now)) }
{
    let Some(lines) = unit.lines() else {
        return Ok(());
    };
    append_lines(alloc, out, names, unit.version(), lines)?;
    Ok(())
}

/// The unit's abbreviations in `__debug_abbrev`.
pub(crate) fn abbreviations_of(alloc: Global, declared: &Declared) -> Result<Bytes, NoMemory>
    ensures { IfOk result (λ bytes. bytes ≡ declarations_bytes declared.now) }
{
    let mut bytes = Bytes::new(alloc);
    append_table(&mut bytes, declared)?;
    Ok(bytes)
}

/// A copy of spans.
pub(crate) fn copy_of(alloc: Global, spans: &[Span]) -> Result<List<Span>, NoMemory>
    ensures { IfOk result (λ copy. copy ≡ spans.now) }
{
    Ok(List::from_vec(Vec::from_slice(alloc, spans)?))
}
