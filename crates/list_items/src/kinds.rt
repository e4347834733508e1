//! The kinds of entries.

ghost use Rattle.std.specs.Prelude.{◌≡◌};
ghost use Rattle.list_items.specs.EntryKinds;

use ds_base::dwarf::{
    DW_LLE_base_address, DW_LLE_base_addressx, DW_LLE_default_location, DW_LLE_end_of_list,
    DW_LLE_offset_pair, DW_LLE_start_end, DW_LLE_start_length, DW_LLE_startx_endx,
    DW_LLE_startx_length, DW_RLE_base_address, DW_RLE_base_addressx, DW_RLE_end_of_list,
    DW_RLE_offset_pair, DW_RLE_start_end, DW_RLE_start_length, DW_RLE_startx_endx,
    DW_RLE_startx_length,
};

/// What stands behind the kind of an entry (DWARF 5, sections 2.17.3 and 2.6.2).
#[derive(Clone, Copy)]
pub enum EntryKind {
    /// Nothing: the list ends.
    EndOfList,
    /// The index of a base.
    BaseAddressx,
    /// The indices of both ends.
    StartxEndx,
    /// The index of the low end, and a length.
    StartxLength,
    /// The offsets of both ends from the base.
    OffsetPair,
    /// Nothing: the item has no span.
    DefaultLocation,
    /// A base.
    BaseAddress,
    /// Both ends.
    StartEnd,
    /// The low end, and a length.
    StartLength,
}

/// The kind of a range list entry by its code, if there is one (DWARF 5, section 7.25).
#[tactic(auto, unfolding(crate::specs::EntryKinds::range_kind))]
pub(crate) fn range_kind(code: u8) -> Option<EntryKind>
    ensures { result ≡ EntryKinds.range_kind code }
{
    match code {
        DW_RLE_end_of_list => Some(EntryKind::EndOfList),
        DW_RLE_base_addressx => Some(EntryKind::BaseAddressx),
        DW_RLE_startx_endx => Some(EntryKind::StartxEndx),
        DW_RLE_startx_length => Some(EntryKind::StartxLength),
        DW_RLE_offset_pair => Some(EntryKind::OffsetPair),
        DW_RLE_base_address => Some(EntryKind::BaseAddress),
        DW_RLE_start_end => Some(EntryKind::StartEnd),
        DW_RLE_start_length => Some(EntryKind::StartLength),
        _ => None,
    }
}

/// The kind of a location list entry by its code, if there is one (DWARF 5, section 7.7.3).
#[tactic(auto, unfolding(crate::specs::EntryKinds::location_kind))]
pub(crate) fn location_kind(code: u8) -> Option<EntryKind>
    ensures { result ≡ EntryKinds.location_kind code }
{
    match code {
        DW_LLE_end_of_list => Some(EntryKind::EndOfList),
        DW_LLE_base_addressx => Some(EntryKind::BaseAddressx),
        DW_LLE_startx_endx => Some(EntryKind::StartxEndx),
        DW_LLE_startx_length => Some(EntryKind::StartxLength),
        DW_LLE_offset_pair => Some(EntryKind::OffsetPair),
        DW_LLE_default_location => Some(EntryKind::DefaultLocation),
        DW_LLE_base_address => Some(EntryKind::BaseAddress),
        DW_LLE_start_end => Some(EntryKind::StartEnd),
        DW_LLE_start_length => Some(EntryKind::StartLength),
        _ => None,
    }
}
