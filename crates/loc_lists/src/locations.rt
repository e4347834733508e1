//! One location list, from its place in the section.

ghost use Rattle.std.specs.Prelude.{◌≡◌, ◌<◌, ◌^◌, ◌==◌, length, IfOk, OnOk};
ghost use Rattle.std.specs.List.{All};
ghost use Rattle.ds_base.specs.Reading.{Gives, Moves, Reads};
ghost use Rattle.ds_base.specs.Spot.{IsSmall};
ghost use Rattle.dwarf_types.specs.SectionBytes.{bytes_in, location_bytes};
ghost use Rattle.macho_read.specs.Sound.{IsSound as IsSoundImage};
ghost use Rattle.reloc_table.specs.Sound.{IsSound};
ghost use Rattle.loc_lists.specs.Reading.{expression_at, item_behind, len_at, location_at, location_form, location_items_of, location_part, locations_of};
ghost use Rattle.loc_lists.specs.Sound.{IsSoundItem, IsSoundLocation};

use ds_base::dwarf::DWARF_5;
use ds_base::{Bytes, Cursor, Fault, List, Part, ReadError};
use dwarf_types::{Addr, RawLocation, RawSpan, Sections};
use list_items::{Behind, ListContext, ListForm, ListSection, covered, read_list};
use macho_read::Image;
use reloc_table::Relocs;
use std::alloc::Global;

/// An expression follows the span of each item.
#[derive(Clone, Copy)]
struct Expressions {
    /// The unit's version.
    version: u16,
}

impl Behind for Expressions {
    type Item = RawLocation;

    ghost behind = { λ expressions. location_at expressions.version };

    fn read(
        &self,
        alloc: Global,
        place: u64,
        span: Option<RawSpan>,
        cursor: &mut Cursor<'_>,
    ) -> Result<RawLocation, ReadError> {
        let (first, expression) = read_expression(cursor, self.version)?;
        Ok(RawLocation {
            span: covered(span),
            place,
            first,
            bytes: Bytes::from_slice(alloc, expression)?,
        })
    }
}

/// An item of a location list as it is read, with its base applied.
#[derive(Drop)]
pub struct LocationItem {
    /// The span of addresses. A default location gives none (DWARF 5, section 2.6.2).
    pub span: Option<RawSpan>,
    /// The place of the item in its section.
    pub place: u64,
    /// The place of the first byte of its expression in the section.
    pub first: u64,
    /// The expression.
    pub bytes: Bytes,
}

/// An expression follows each item, a default too.
#[derive(Clone, Copy)]
struct Items {
    /// The unit's version.
    version: u16,
}

impl Behind for Items {
    type Item = LocationItem;

    ghost behind = { λ items. item_behind items.version };

    fn read(
        &self,
        alloc: Global,
        place: u64,
        span: Option<RawSpan>,
        cursor: &mut Cursor<'_>,
    ) -> Result<LocationItem, ReadError> {
        let (first, expression) = read_expression(cursor, self.version)?;
        Ok(LocationItem {
            span,
            place,
            first,
            bytes: Bytes::from_slice(alloc, expression)?,
        })
    }
}

/// The items of the location list at `offset` (DWARF 4 and 5, section 2.6.2), in their order, without those of empty
/// spans.
///
/// `version` is the unit's. In version 5 the list stands in `__debug_loclists`, else in `__debug_loc`. `offset` counts
/// bytes from the start of that section, and so do the places of items and expressions and those of faults. They are
/// `Truncated` and `BadList`, in version 5 also `LebTooWide`, `BadIndex` and `UnknownListEntry`; those of an item's span
/// are tried before the expression. `relocs` are those of that section, `addresses` those of `__debug_addr`, where the
/// unit's table of addresses begins at `addr_base`. `base` is what offsets count from until the list selects another
/// base; in version 4 each end that is a number alone is such an offset. A default location has the span of all
/// numbers, from `Addr::Fixed(0)` to `Addr::Fixed(u64::MAX)`, of which no piece moves.
pub fn read_locations(
    alloc: Global,
    sections: &Sections,
    relocs: &Relocs,
    image: &Image,
    offset: u32,
    version: u16,
    base: &Addr,
    addresses: &Relocs,
    addr_base: u64,
) -> Result<List<RawLocation>, ReadError>
    requires inside { offset < length (location_bytes (bytes_in sections.now) version) }
    requires small { length (location_bytes (bytes_in sections.now) version) < 2 ^ 32 }
    requires small_addresses { length sections.now.addr.now < 2 ^ 32 }
    requires sound { IsSound image.now relocs.now }
    requires sound_addresses { IsSound image.now addresses.now }
    requires sound_image { IsSoundImage image.now }
    ensures exact { Gives (λ locations. locations) result (locations_of (bytes_in sections.now) relocs.now image.now offset version base.now addresses.now addr_base) }

    // The ends of each span are of one class, the low one is below the high one, and each expression ends in the section.
    ensures sound { IfOk result (All (IsSoundLocation (length (location_bytes (bytes_in sections.now) version)))) }
{
    let section = section_of(version);
    let context = ListContext {
        form: section.form,
        image,
        relocs,
        sections,
        addresses,
        addr_base,
    };
    read_list(
        alloc,
        section.part,
        sections.location_lists(version),
        offset,
        &context,
        base,
        &Expressions { version },
    )
}

/// The same items, each with its span where it gives one: [`read_locations`] gives a default location the span of all
/// numbers, which an item may have as its own, and here the two are told apart.
pub fn read_location_items(
    alloc: Global,
    sections: &Sections,
    relocs: &Relocs,
    image: &Image,
    offset: u32,
    version: u16,
    base: &Addr,
    addresses: &Relocs,
    addr_base: u64,
) -> Result<List<LocationItem>, ReadError>
    requires inside { offset < length (location_bytes (bytes_in sections.now) version) }
    requires small { length (location_bytes (bytes_in sections.now) version) < 2 ^ 32 }
    requires small_addresses { length sections.now.addr.now < 2 ^ 32 }
    requires sound { IsSound image.now relocs.now }
    requires sound_addresses { IsSound image.now addresses.now }
    requires sound_image { IsSoundImage image.now }
    ensures exact { Gives (λ items. items) result (location_items_of (bytes_in sections.now) relocs.now image.now offset version base.now addresses.now addr_base) }

    // The same holds of each item.
    ensures sound { IfOk result (All (IsSoundItem (length (location_bytes (bytes_in sections.now) version)))) }
{
    let section = section_of(version);
    let context = ListContext {
        form: section.form,
        image,
        relocs,
        sections,
        addresses,
        addr_base,
    };
    read_list(
        alloc,
        section.part,
        sections.location_lists(version),
        offset,
        &context,
        base,
        &Items { version },
    )
}

/// The expression behind its length, and the place of its first byte.
#[tactic(auto, unfolding(crate::specs::Reading::expression_at, ds_base::specs::Reading::bytes_at))]
fn read_expression<'a>(cursor: &mut Cursor<'a>, version: u16) -> Result<(u64, &'a [u8]), Fault>
    requires small { IsSmall cursor.old }
    ensures read { Reads (λ expression. (expression.0, expression.1.now)) result cursor.new (expression_at version cursor.old) }
    ensures small { OnOk result (IsSmall cursor.new) }
{
    let len = read_len(cursor, version)?;
    let first = cursor.place();
    let bytes = cursor.skip(len)?;
    Ok((first, bytes))
}

/// The length of an expression: a ULEB in version 5, and two bytes before.
fn read_len(cursor: &mut Cursor, version: u16) -> Result<u64, Fault>
    requires small { IsSmall cursor.old }
    ensures read { Moves (λ len. len) result cursor.old cursor.new (len_at (version == 5) cursor.old) }
    ensures small { OnOk result (IsSmall cursor.new) }
{
    if version == DWARF_5 {
        return cursor.uleb();
    }
    let len = cursor.u16()?;
    Ok(u64::from(len))
}

/// The section in which a unit of this version has its location lists.
fn section_of(version: u16) -> ListSection
    ensures part { result.part ≡ location_part version }
    ensures form { result.form ≡ location_form version }
{
    if version == DWARF_5 {
        ListSection {
            part: Part::Loclists,
            form: ListForm::LocationEntries,
        }
    } else {
        ListSection {
            part: Part::Loc,
            form: ListForm::Words,
        }
    }
}
