//! Declarations of abbreviation tables, as they are read and as they are written.

use ds_base::List;

/// The most attributes that a declaration of an object may have, and so an entry.
pub const MOST_FIELDS: usize = 256;

/// What an abbreviation says of one attribute (DWARF 5, section 7.5.3): an attribute specification.
#[derive(Drop)]
pub struct Field {
    /// The `DW_AT` number.
    pub name: u16,
    /// The `DW_FORM` number of its values.
    pub form: u16,
    /// The value itself where the form is `DW_FORM_implicit_const`, else 0.
    pub fixed: i64,
}

/// One declaration of an abbreviation table (DWARF 4, section 7.5.3).
#[derive(Drop)]
pub struct Abbrev {
    /// The code by which entries name it; never 0.
    pub code: u64,
    /// The `DW_TAG` number.
    pub tag: u16,
    /// Whether the entries of this code have a list of children.
    pub children: bool,
    /// The attributes of the entries of this code, in the order of their values.
    pub fields: List<Field>,
}

/// What an abbreviation of the output declares (DWARF 4, section 7.5.3).
#[derive(Drop)]
pub struct Declaration {
    /// The `DW_TAG` number.
    pub tag: u16,
    /// Whether the entries of this declaration have a list of children.
    pub children: bool,
    /// The `DW_AT` number and the `DW_FORM` number of each attribute, in the order of their values.
    pub attributes: List<(u16, u16)>,
}
