//! Holes of four bytes, and where each stands.

use ds_base::dwarf::OFFSET_SIZE;
use dwarf_types::Target;

/// So many bytes has a hole.
pub(crate) const OFFSET_LEN: usize = OFFSET_SIZE as usize;

/// What the unit itself tells, once all of it is there. Places count from the unit's header.
#[derive(Clone, Copy)]
pub enum Own {
    /// `unit_length`, which doesn't count its own four bytes (DWARF 4, section 7.5.1.1).
    Size,
    /// The place of a node of the unit, by its number: form `DW_FORM_ref4`.
    Node(u32),
    /// The place of a base type of the unit, by its number, in four LEB digits.
    Base(u32),
}

/// What stands outside of the unit. Places count from the start of a section.
#[derive(Clone, Copy)]
pub enum Outer {
    /// The unit's abbreviations in `__debug_abbrev`.
    Table,
    /// A text in `__debug_str`, by its number among the texts of the unit.
    Text(usize),
    /// An entry of another unit in `__debug_info`.
    Entry(Target),
    /// A range list in the section of its version, by its place among those of the unit, in bytes.
    Ranges(usize),
    /// A location list in the section of its version, by its place among those of the unit, in bytes.
    Locations(usize),
    /// The unit's line table in `__debug_line`.
    Lines,
    /// A text in `__debug_line_str`, by its number among the texts of the unit's line table.
    LineText(usize),
}

/// A hole for what the unit tells. `at` counts bytes from the buffer's start.
#[derive(Clone, Copy)]
pub struct OwnPatch {
    pub at: usize,
    pub hole: Own,
}

/// A hole for what stands outside. `at` counts bytes from the buffer's start.
#[derive(Clone, Copy)]
pub struct OuterPatch {
    pub at: usize,
    pub hole: Outer,
}
