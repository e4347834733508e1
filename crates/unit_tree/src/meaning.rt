//! What the number of a value means that is a reference, a section offset or an index.

ghost use Rattle.std.specs.Prelude.{◌≡◌};
ghost use Rattle.unit_tree.specs.Meaning.{is_address_index as is_indexed_address, table_of, index_of, meaning_of};

use ds_base::dwarf::{
    DW_AT_data_member_location, DW_AT_frame_base, DW_AT_location, DW_AT_ranges, DW_AT_return_addr,
    DW_AT_segment, DW_AT_static_link, DW_AT_stmt_list, DW_AT_string_length, DW_AT_use_location,
    DW_AT_vtable_elem_location, DW_FORM_addrx, DW_FORM_addrx1, DW_FORM_addrx2, DW_FORM_addrx3,
    DW_FORM_addrx4, DW_FORM_loclistx, DW_FORM_ref_addr, DW_FORM_ref_udata, DW_FORM_ref1,
    DW_FORM_ref2, DW_FORM_ref4, DW_FORM_ref8, DW_FORM_rnglistx, DW_FORM_sec_offset, DW_FORM_strx,
    DW_FORM_strx1, DW_FORM_strx2, DW_FORM_strx3, DW_FORM_strx4,
};

/// To what the number of a value leads.
#[derive(Clone, Copy)]
pub enum Meaning {
    /// To an entry of the same unit; it counts bytes from the unit's first byte.
    InUnit,
    /// To an entry of any unit of the object, by its place in `__debug_info`.
    InObject,
    /// To a line table, at the root of a unit alone.
    LineTable,
    /// To a range list.
    RangeList,
    /// To a location list.
    LocationList,
    /// To a text, by its index among the string offsets of the unit.
    TextIndex,
    /// To an address, by its index among the addresses of the unit.
    AddressIndex,
    /// To a range list, by its index among those of the unit.
    RangeListIndex,
    /// To a location list, by its index among those of the unit.
    LocationListIndex,
    /// To no table or list that is read.
    Other,
}

/// The meaning of a number of the form, as the value of the attribute (DWARF 4, section 7.5.4;
/// DWARF 5, section 7.5.5).
#[tactic(auto, unfolding(crate::specs::Meaning::meaning_of))]
pub(crate) fn meaning_of_value(form: u16, name: u16) -> Meaning
    ensures { result ≡ meaning_of form name }
{
    match form {
        DW_FORM_ref1 | DW_FORM_ref2 | DW_FORM_ref4 | DW_FORM_ref8 | DW_FORM_ref_udata => {
            Meaning::InUnit
        }
        DW_FORM_ref_addr => Meaning::InObject,
        DW_FORM_sec_offset => meaning_of_offset(name),
        DW_FORM_strx | DW_FORM_strx1 | DW_FORM_strx2 | DW_FORM_strx3 | DW_FORM_strx4 => {
            Meaning::TextIndex
        }
        form if is_address_index(form) => Meaning::AddressIndex,
        DW_FORM_rnglistx | DW_FORM_loclistx => meaning_of_index(name),
        _ => Meaning::Other,
    }
}

/// To what the index of a list leads, as the value of the attribute of this name: the attribute tells, and
/// not the form.
fn meaning_of_index(name: u16) -> Meaning
    ensures { result ≡ index_of (table_of name) }
{
    match meaning_of_offset(name) {
        Meaning::RangeList => Meaning::RangeListIndex,
        Meaning::LocationList => Meaning::LocationListIndex,
        _ => Meaning::Other,
    }
}

/// Whether a form is that of an index into a table of addresses (DWARF 5, section 7.5.5).
pub fn is_address_index(form: u16) -> bool
    ensures { result ≡ is_indexed_address form }
{
    form == DW_FORM_addrx
        || form == DW_FORM_addrx1
        || form == DW_FORM_addrx2
        || form == DW_FORM_addrx3
        || form == DW_FORM_addrx4
}

/// To what a section offset leads, as the value of the attribute of this name (DWARF 4, section
/// 7.5.4, figure 20; DWARF 5, section 7.5.4, table 7.5).
#[tactic(auto, unfolding(crate::specs::Meaning::table_of))]
pub fn meaning_of_offset(name: u16) -> Meaning
    ensures { result ≡ table_of name }
{
    match name {
        DW_AT_stmt_list => Meaning::LineTable,
        DW_AT_ranges => Meaning::RangeList,
        DW_AT_location
        | DW_AT_string_length
        | DW_AT_return_addr
        | DW_AT_data_member_location
        | DW_AT_frame_base
        | DW_AT_segment
        | DW_AT_static_link
        | DW_AT_use_location
        | DW_AT_vtable_elem_location => Meaning::LocationList,
        _ => Meaning::Other,
    }
}
