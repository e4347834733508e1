//! The attributes of an entry.

ghost use Rattle.std.specs.Prelude.{◌≡◌, ◌<◌, ◌≤◌, ◌+◌, ◌++◌, not, length, Some, None, IfOk, IfSome, OnOk, nat_lt};
ghost use Rattle.std.specs.Option.{option_to_list};
ghost use Rattle.ds_base.specs.declared.fault.Kind.TheVariants.{BadIndex, BadOffset, BadOutput};
ghost use Rattle.ds_base.specs.Reading.{Finds, Reads, ReadsUnlessFull, refuse_if};
ghost use Rattle.ds_base.specs.Spot.{IsSmall, fault_at};
ghost use Rattle.dwarf_types.specs.declared.abbrev.TheConstants.{MOST_FIELDS};
ghost use Rattle.dwarf_types.specs.declared.entry.TheConstants.{MOST_ENTRIES};
ghost use Rattle.dwarf_types.specs.Put.{value_read};
ghost use Rattle.dwarf_types.specs.SectionBytes.{bytes_in};
ghost use Rattle.dwarf_types.specs.declared.value.Value.TheVariants.{Ref};
ghost use Rattle.unit_tree.specs.declared.packed.TheConstants.{ANY_UNIT};
ghost use Rattle.unit_tree.specs.Bounds.{IsOf};
ghost use Rattle.unit_tree.specs.Meaning.{meaning_of};
ghost use Rattle.unit_tree.specs.Attribute.{is_output, number_in, names_lines, offset_in, offset_nowhere, reference_to, text_named, address_named, list_named, meant_at, value_meant_at, attr_at, attrs_at};

use crate::meaning::{Meaning, meaning_of_value};
use crate::packed::PackedReference;
use crate::profile::Profile;
use crate::reference::Reference;
use ds_base::dwarf::DW_AT_stmt_list;
use ds_base::{Cursor, Fault, Kind, List, NoMemory, ReadError, text_in};
use dwarf_types::{Builder, Field, RawValue, Sections};
use form_value::read_value;
use index_tables::{Bases, has_address, list_at, text_at};

/// The unit whose entries are read.
#[derive(Clone, Copy)]
pub(crate) struct UnitContext {
    /// Whose bytes are read.
    pub(crate) profile: Profile,
    /// The unit's number in the object, counted from 0.
    pub(crate) unit: u32,
    /// The place of its first byte in `__debug_info`.
    pub(crate) place: u32,
    /// Its version.
    pub(crate) version: u16,
    /// The bases of its tables. Where they are not known yet, no index is tried.
    pub(crate) bases: Option<Bases>,
}

/// Reads the attributes of the fields of a declaration, in their order, and puts them behind those before.
/// The references among them are put behind the other references.
pub(crate) fn read_attrs<'a>(
    cursor: &mut Cursor<'a>,
    sections: &Sections<'a>,
    context: UnitContext,
    root: bool,
    fields: &[Field],
    built: &mut Builder,
    references: &mut List<PackedReference>,
) -> Result<(), ReadError>
    requires unit { context.unit < ANY_UNIT }
    requires small { IsSmall cursor.old }
    requires room { length built.old.entries < MOST_ENTRIES }
    requires few { length built.old.attrs + length fields.now ≤ MOST_FIELDS }
    ensures read { ReadsUnlessFull (λ _. (built.new.attrs, references.new)) result cursor.new (attrs_at (bytes_in sections.now) context root fields.now (built.old.attrs, references.old) cursor.old) }
    ensures entries { built.new.entries ≡ built.old.entries }
{
    for field in fields {
        let (end, value, reference) = read_attr(cursor, sections, context, root, field, built)?;
        built.push(field.name, field.form, end, value)?;
        keep(references, reference)?;
    }
    Ok(())
}

/// Puts a reference to the others, if there is one.
fn keep(
    references: &mut List<PackedReference>,
    reference: Option<Reference>,
) -> Result<(), NoMemory>
    requires { IfSome reference (λ r. IfSome r.unit (λ unit. unit < ANY_UNIT)) }
    ensures { OnOk result (references.new ≡ references.old ++ option_to_list reference) }
{
    if let Some(reference) = reference {
        references.push(PackedReference::new(reference))?;
    }
    Ok(())
}

/// The next attribute, behind those before: the place behind its value, that value, and the reference that
/// it is.
#[tactic(auto, unfolding(crate::specs::Attribute::attr_at))]
pub(crate) fn read_attr<'a>(
    cursor: &mut Cursor<'a>,
    sections: &Sections<'a>,
    context: UnitContext,
    root: bool,
    field: &Field,
    before: &Builder,
) -> Result<(u32, RawValue<'a>, Option<Reference>), Fault>
    requires { IsSmall cursor.old }
    ensures read { Reads (λ read. (record { name = field.now.name; form = field.now.form; end = read.0; value = value_read field.now.form read.1 }, read.2)) result cursor.new (attr_at (bytes_in sections.now) context root field.now before.now.attrs cursor.old) }
    ensures known { IfOk result (λ _. field.now.form < 256) }
    ensures own { IfOk result (λ read. IsOf context.unit read.2) }
{
    let first = cursor.fork();
    let value = read_value(cursor, field, context.version, sections)?;
    let (value, reference) = understand(&first, sections, context, root, field, before, value)?;
    let end = cursor.place() as u32;
    Ok((end, value, reference))
}

/// The value of an attribute that stands at the cursor, as what it means, and the reference that it is.
#[tactic(auto, unfolding(crate::specs::Attribute::value_meant_at))]
fn understand<'a>(
    first: &Cursor,
    sections: &Sections<'a>,
    context: UnitContext,
    root: bool,
    field: &Field,
    before: &Builder,
    value: RawValue<'a>,
) -> Result<(RawValue<'a>, Option<Reference>), Fault>
    requires { IsSmall first.now }
    ensures read { Finds (λ meant. (value_read field.now.form meant.0, meant.1)) result (value_meant_at (bytes_in sections.now) context root field.now before.now.attrs (value_read field.now.form value.entry) first.now) }
    ensures own { IfOk result (λ meant. IsOf context.unit meant.1) }
{
    match number_of(field.form, &value) {
        None => Ok((value, None)),
        Some(n) => value_of_number(
            first,
            sections,
            context,
            may_name_lines(root, before),
            field,
            n,
        ),
    }
}

/// Whether a `DW_AT_stmt_list` behind those before names the unit's line table.
fn may_name_lines(root: bool, before: &Builder) -> bool
    ensures { result ≡ names_lines root before.now.attrs }
{
    root && !before.has(DW_AT_stmt_list)
}

/// The number of a reference, an offset or an index.
fn number_of(form: u16, value: &RawValue) -> Option<u64>
    ensures { result ≡ number_in (value_read form value.now) }
{
    match value {
        RawValue::Offset(n) => Some(*n),
        _ => None,
    }
}

/// The value that the number of a field means, which stands at the cursor, and the reference that it is.
#[tactic(auto, unfolding(crate::specs::Attribute::meant_at))]
fn value_of_number<'a>(
    first: &Cursor,
    sections: &Sections<'a>,
    context: UnitContext,
    lines: bool,
    field: &Field,
    n: u64,
) -> Result<(RawValue<'a>, Option<Reference>), Fault>
    requires { IsSmall first.now }
    ensures read { Finds (λ meant. (value_read field.now.form meant.0, meant.1)) result (meant_at (bytes_in sections.now) context lines (meaning_of field.now.form field.now.name) n first.now) }
    ensures own { IfOk result (λ meant. IsOf context.unit meant.1) }
{
    match meaning_of_value(field.form, field.name) {
        Meaning::InUnit => {
            let place = u64::from(context.place).saturating_add(n);
            let reference = refer(first, place, Some(context.unit));
            Ok((RawValue::Ref(reference.target), Some(reference)))
        }
        Meaning::InObject => {
            let reference = refer(first, n, None);
            Ok((RawValue::Ref(reference.target), Some(reference)))
        }
        Meaning::LineTable if lines => find_offset(first, sections.line, field, n),
        Meaning::LineTable => find_nowhere(first, context.profile, field, n),
        Meaning::RangeList => {
            find_offset(first, sections.range_lists(context.version), field, n)
        }
        Meaning::LocationList => {
            find_offset(first, sections.location_lists(context.version), field, n)
        }
        Meaning::TextIndex => find_text(first, sections, context.bases, field, n),
        Meaning::AddressIndex => find_address(first, sections, context.bases, field, n),
        Meaning::RangeListIndex => {
            let base = context.bases.map(|bases| bases.ranges);
            find_list(first, sections.rnglists, base, field, n)
        }
        Meaning::LocationListIndex => {
            let base = context.bases.map(|bases| bases.locations);
            find_list(first, sections.loclists, base, field, n)
        }
        Meaning::Other => find_nowhere(first, context.profile, field, n),
    }
}

/// The text at an index, which stands at the cursor.
#[tactic(auto, unfolding(crate::specs::Attribute::text_named))]
fn find_text<'a>(
    first: &Cursor,
    sections: &Sections<'a>,
    bases: Option<Bases>,
    field: &Field,
    n: u64,
) -> Result<(RawValue<'a>, Option<Reference>), Fault>
    ensures read { Finds (λ meant. (value_read field.now.form meant.0, meant.1)) result (text_named (bytes_in sections.now) bases n first.now) }
    ensures none { IfOk result (λ meant. meant.1 ≡ None) }
{
    let Some(bases) = bases else {
        return Ok((RawValue::Offset(n), None));
    };
    let place = match text_at(sections, bases.texts, n) {
        Ok(place) => place,
        Err(kind) => return Err(first.fault(kind)),
    };
    let Some(bytes) = text_in(sections.strings, place) else {
        return Err(first.fault(Kind::BadOffset));
    };
    let place = Some(place);
    Ok((RawValue::Text { bytes, place }, None))
}

/// The index of an address, which stands at the cursor: the address is there.
#[tactic(auto, unfolding(crate::specs::Attribute::address_named))]
fn find_address<'a>(
    first: &Cursor,
    sections: &Sections<'a>,
    bases: Option<Bases>,
    field: &Field,
    n: u64,
) -> Result<(RawValue<'a>, Option<Reference>), Fault>
    ensures read { Finds (λ meant. (value_read field.now.form meant.0, meant.1)) result (address_named (bytes_in sections.now) bases n first.now) }
    ensures none { IfOk result (λ meant. meant.1 ≡ None) }
{
    if let Some(bases) = bases
        && !has_address(sections, bases.addresses, n)
    {
        return Err(first.fault(Kind::BadIndex));
    }
    Ok((RawValue::Offset(n), None))
}

/// The place in a section of the list at an index, which stands at the cursor.
#[tactic(auto, unfolding(crate::specs::Attribute::list_named))]
fn find_list<'a>(
    first: &Cursor,
    section: &[u8],
    base: Option<u64>,
    field: &Field,
    n: u64,
) -> Result<(RawValue<'a>, Option<Reference>), Fault>
    ensures read { Finds (λ meant. (value_read field.now.form meant.0, meant.1)) result (list_named section.now base n first.now) }
    ensures none { IfOk result (λ meant. meant.1 ≡ None) }
{
    let Some(base) = base else {
        return Ok((RawValue::Offset(n), None));
    };
    let place = match list_at(section, base, n) {
        Ok(place) => place,
        Err(kind) => return Err(first.fault(kind)),
    };
    find_offset(first, section, field, place)
}

/// An offset to a table or list, from a value that stands at the cursor: it is inside of the section.
fn find_offset<'a>(
    first: &Cursor,
    section: &[u8],
    field: &Field,
    n: u64,
) -> Result<(RawValue<'a>, Option<Reference>), Fault>
    ensures read { Finds (λ meant. (value_read field.now.form meant.0, meant.1)) result (offset_in section.now n first.now) }
    ensures none { IfOk result (λ meant. meant.1 ≡ None) }
{
    if n >= section.len() as u64 {
        return Err(first.fault(Kind::BadOffset));
    }
    Ok((RawValue::Offset(n), None))
}

/// An offset that leads to no table or list that is read, from a value that stands at the cursor: an image that was
/// written has none.
fn find_nowhere<'a>(
    first: &Cursor,
    profile: Profile,
    field: &Field,
    n: u64,
) -> Result<(RawValue<'a>, Option<Reference>), Fault>
    ensures read { Finds (λ meant. (value_read field.now.form meant.0, meant.1)) result (offset_nowhere profile n first.now) }
    ensures none { IfOk result (λ meant. meant.1 ≡ None) }
{
    match profile {
        Profile::Input => Ok((RawValue::Offset(n), None)),
        Profile::Output => Err(first.fault(Kind::BadOutput)),
    }
}

/// A reference to a place, from a value that stands at the cursor.
fn refer(first: &Cursor, place: u64, unit: Option<u32>) -> Reference
    requires { IsSmall first.now }
    ensures is { (Ref result.target, Some result) ≡ reference_to place unit first.now }
    ensures own { result.unit ≡ unit }
{
    Reference {
        place: first.place() as u32,
        target: place.min(u64::from(u32::MAX)) as u32,
        unit,
    }
}
