//! A row of a line table as it is kept.

ghost use Rattle.std.specs.Prelude.{◌≡◌, SomeIff};
ghost use Rattle.dwarf_types.specs.Packed.{IsNarrow, RowWithin, narrow, row_of, wide_at};

use crate::lines::Row;

/// A row in 24 bytes: its numbers, or where they do not fit its place among the wide rows, which are kept whole.
#[derive(Clone, Copy)]
pub(crate) struct PackedRow {
    /// Of a wide row its place among them, counted from 0.
    address: u64,
    line: u32,
    file: u16,
    column: u16,
    discriminator: u16,
    isa: u8,
    is_stmt: bool,
    basic_block: bool,
    prologue_end: bool,
    epilogue_begin: bool,
    is_wide: bool,
}

const _: () = prove!(size_of::<PackedRow>() == 24);

impl PackedRow {
    /// A row, packed, if its numbers fit.
    pub(crate) fn narrow(row: Row) -> Option<PackedRow>
        ensures { SomeIff result (IsNarrow row) (narrow row) }
    {
        Some(PackedRow {
            address: row.address,
            line: row.line,
            file: u16::try_from(row.file).ok()?,
            column: u16::try_from(row.column).ok()?,
            discriminator: u16::try_from(row.discriminator).ok()?,
            isa: u8::try_from(row.isa).ok()?,
            is_stmt: row.is_stmt,
            basic_block: row.basic_block,
            prologue_end: row.prologue_end,
            epilogue_begin: row.epilogue_begin,
            is_wide: false,
        })
    }

    /// What stands for the wide row at a place.
    pub(crate) fn wide_at(place: u64) -> PackedRow
        ensures { result ≡ wide_at place }
    {
        PackedRow {
            address: place,
            line: 0,
            file: 0,
            column: 0,
            discriminator: 0,
            isa: 0,
            is_stmt: false,
            basic_block: false,
            prologue_end: false,
            epilogue_begin: false,
            is_wide: true,
        }
    }

    /// The row that it stands for.
    pub(crate) fn row(self, wide: &[Row]) -> Row
        requires { RowWithin wide.now self }
        ensures { result ≡ row_of wide.now self }
    {
        if self.is_wide {
            return wide[self.address as usize];
        }
        Row {
            address: self.address,
            file: u64::from(self.file),
            line: self.line,
            column: u64::from(self.column),
            discriminator: u64::from(self.discriminator),
            isa: u64::from(self.isa),
            is_stmt: self.is_stmt,
            basic_block: self.basic_block,
            prologue_end: self.prologue_end,
            epilogue_begin: self.epilogue_begin,
        }
    }
}
