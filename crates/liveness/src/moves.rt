//! Whether an entry has an address, and whether that moved to the linked program.

ghost use Rattle.std.specs.Prelude.{◌≡◌, ◌==◌, ◌&&◌, not, false, length, is_some, slice_get};
ghost use Rattle.std.specs.List.{filter_map, list_any, list_all};
ghost use Rattle.std.specs.Option.{option_map_or, option_to_list};
ghost use Rattle.dwarf_types.specs.Live.{low_pc_moves};
ghost use Rattle.dwarf_types.specs.Moves.{address_moved, has_address, has_location, has_piece, location_in, location_moves, moves, op_fields, tells_end, value_of};
ghost use Rattle.dwarf_types.specs.Seen.{attr_seen, inner_seen, op_seen, value_seen};

use ds_base::dwarf::{
    DW_AT_call_return_pc, DW_AT_high_pc, DW_AT_location, DW_AT_low_pc, DW_AT_ranges,
    DW_TAG_GNU_call_site,
};
use dwarf_types::{AttrRef, EntryRef, InnerOpsRef, OpRef, OpsRef, Place, ValueRef};

/// Whether the entry has an attribute of class address, a ranges attribute of whatever form, or a location expression
/// with an address field.
pub(crate) fn has_address(entry: &EntryRef) -> bool
    ensures { result ≡ has_address entry.now }
{
    entry.has_address() || entry.find(DW_AT_ranges).is_some() || has_location(entry)
}

/// Whether one of the entry's addresses moved: an attribute of class address, a piece of its ranges, or all address
/// fields of its location expression.
pub(crate) fn moves(entry: &EntryRef) -> bool
    ensures { result ≡ moves entry.now }
{
    place_moves(entry) || ranges_have_piece(entry) || location_moves(entry)
}

/// Whether the entry's location expression has address fields, and all of them moved.
pub(crate) fn location_moves(entry: &EntryRef) -> bool
    ensures { result ≡ location_moves entry.now }
{
    match location_of(entry) {
        Some(ops) => have_moved(&ops),
        None => false,
    }
}

/// Whether an entry's low_pc moved. That of a call site tells where the call returns to, and moves as an end.
pub fn low_pc_moves(entry: &EntryRef) -> bool
    ensures { result ≡ low_pc_moves entry.now }
{
    match entry.find(DW_AT_low_pc) {
        Some(attr) => address_moved(entry.tag(), &attr).is_some(),
        None => false,
    }
}

/// Whether an attribute of class address moved.
fn place_moves(entry: &EntryRef) -> bool
    ensures { result ≡ list_any (λ a. is_some (address_moved entry.now.tag a)) entry.now.attrs }
{
    let tag = entry.tag();
    for j in 0..entry.len() {
        if address_moved(tag, &entry.attr(j)).is_some() {
            return true;
        }
    }
    false
}

/// The address in the linked program to which an attribute of an entry of this tag moved.
pub fn address_moved(tag: u16, attr: &AttrRef) -> Option<u64>
    ensures { result ≡ address_moved tag (attr_seen attr.now) }
{
    let place = attr.value.place()?;
    if tells_end(tag, attr.name) {
        place.linked_end
    } else {
        place.linked
    }
}

/// Whether an attribute of an entry of this tag tells the first address behind something: an end, or where a call
/// returns to.
fn tells_end(tag: u16, name: u16) -> bool
    ensures { result ≡ tells_end tag name }
{
    name == DW_AT_high_pc
        || name == DW_AT_call_return_pc
        || (name == DW_AT_low_pc && tag == DW_TAG_GNU_call_site)
}

/// Whether the entry's ranges are a list with a piece.
fn ranges_have_piece(entry: &EntryRef) -> bool
    ensures { result ≡ option_map_or has_piece (value_of DW_AT_ranges entry.now) false }
{
    match entry.find(DW_AT_ranges) {
        Some(attr) => has_piece(&attr.value),
        None => false,
    }
}

/// Whether a value is a range list with a piece.
fn has_piece(value: &ValueRef) -> bool
    ensures { result ≡ has_piece (value_seen value.now) }
{
    match value {
        ValueRef::Ranges(spans) => !spans.is_empty(),
        _ => false,
    }
}

/// Whether the entry's location expression has an address field.
fn has_location(entry: &EntryRef) -> bool
    ensures { result ≡ has_location entry.now }
{
    match location_of(entry) {
        Some(ops) => have_fields(&ops),
        None => false,
    }
}

/// The entry's location expression, which is the first that it has. A location list is none.
fn location_of<'a>(entry: &EntryRef<'a>) -> Option<OpsRef<'a>>
    ensures { result ≡ slice_get (filter_map location_in entry.now.attrs) 0 }
{
    if entry.find(DW_AT_location).is_none() {
        return None;
    }
    for j in 0..entry.len() {
        if let Some(ops) = location_in(entry.attr(j)) {
            return Some(ops);
        }
    }
    None
}

/// The operations of an attribute that is a location expression.
fn location_in<'a>(attr: AttrRef<'a>) -> Option<OpsRef<'a>>
    ensures { result ≡ location_in (attr_seen attr.entry) }
{
    if attr.name != DW_AT_location {
        return None;
    }
    match attr.value {
        ValueRef::Expr(ops) => Some(ops),
        _ => None,
    }
}

/// Whether operations have address fields, and all of them moved.
fn have_moved(ops: &OpsRef) -> bool
    ensures { result ≡ (list_any (λ op. not (length (op_fields op) == 0)) ops.now && list_all (λ op. list_all (λ place. is_some place.linked) (op_fields op)) ops.now) }
{
    have_fields(ops) && all_fields_moved(ops)
}

/// Whether operations have an address field.
fn have_fields(ops: &OpsRef) -> bool
    ensures { result ≡ list_any (λ op. not (length (op_fields op) == 0)) ops.now }
{
    for k in 0..ops.len() {
        if has_field(&ops.op(k)) {
            return true;
        }
    }
    false
}

/// Whether an operation or one inside it has an address field.
fn has_field(op: &OpRef) -> bool
    ensures { result ≡ not (length (op_fields (op_seen op.now)) == 0) }
{
    op.address.is_some() || have_inner_fields(&op.inner)
}

/// Whether operations inside an operation have an address field.
fn have_inner_fields(inner: &InnerOpsRef) -> bool
    ensures { result ≡ list_any (λ plain. is_some plain.address) inner.now }
{
    for k in 0..inner.len() {
        if inner.op(k).address.is_some() {
            return true;
        }
    }
    false
}

/// Whether all address fields of operations moved.
pub fn all_fields_moved(ops: &OpsRef) -> bool
    ensures { result ≡ list_all (λ op. list_all (λ place. is_some place.linked) (op_fields op)) ops.now }
{
    for k in 0..ops.len() {
        if !fields_moved(&ops.op(k)) {
            return false;
        }
    }
    true
}

/// Whether the address fields of an operation and of those inside it moved.
fn fields_moved(op: &OpRef) -> bool
    ensures { result ≡ list_all (λ place. is_some place.linked) (op_fields (op_seen op.now)) }
{
    field_moved(op.address) && inner_fields_moved(&op.inner)
}

/// Whether the address fields of operations inside an operation moved.
fn inner_fields_moved(inner: &InnerOpsRef) -> bool
    ensures { result ≡ list_all (λ plain. list_all (λ place. is_some place.linked) (option_to_list plain.address)) inner.now }
{
    for k in 0..inner.len() {
        if !field_moved(inner.op(k).address) {
            return false;
        }
    }
    true
}

/// Whether an address field moved, where it is one.
fn field_moved(field: Option<Place>) -> bool
    ensures { result ≡ list_all (λ place. is_some place.linked) (option_to_list field) }
{
    match field {
        Some(place) => place.linked.is_some(),
        None => true,
    }
}
