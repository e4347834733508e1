//! One range list, from its place in the section.

ghost use Rattle.std.specs.Prelude.{◌≡◌, ◌<◌, ◌^◌, length, IfOk};
ghost use Rattle.std.specs.List.{All};
ghost use Rattle.ds_base.specs.Reading.{Gives};
ghost use Rattle.dwarf_types.specs.SectionBytes.{bytes_in, range_bytes};
ghost use Rattle.list_items.specs.Sound.{IsSoundSpan};
ghost use Rattle.macho_read.specs.Sound.{IsSound as IsSoundImage};
ghost use Rattle.reloc_table.specs.Sound.{IsSound};
ghost use Rattle.range_lists.specs.Reading.{range_at, range_form, range_part, ranges_of};

use ds_base::dwarf::DWARF_5;
use ds_base::{Cursor, List, Part, ReadError};
use dwarf_types::{Addr, RawSpan, Sections};
use list_items::{Behind, ListContext, ListForm, ListSection, covered, read_list};
use macho_read::Image;
use reloc_table::Relocs;
use std::alloc::Global;

/// Nothing follows the span of an item.
#[derive(Clone, Copy)]
struct Alone;

impl Behind for Alone {
    type Item = RawSpan;

    ghost behind = { λ alone. range_at };

    fn read(
        &self,
        _alloc: Global,
        _place: u64,
        span: Option<RawSpan>,
        _cursor: &mut Cursor<'_>,
    ) -> Result<RawSpan, ReadError> {
        Ok(covered(span))
    }
}

/// The spans of the range list at `offset` (DWARF 4 and 5, section 2.17.3), in their order, without the empty ones.
///
/// `version` is the unit's. In version 5 the list stands in `__debug_rnglists`, else in `__debug_ranges`. `offset`
/// counts bytes from the start of that section, and so do the places of faults. They are `Truncated` and `BadList`, in
/// version 5 also `LebTooWide`, `BadIndex` and `UnknownListEntry`. `relocs` are those of that section, `addresses` those
/// of `__debug_addr`, where the unit's table of addresses begins at `addr_base`. `base` is what offsets count from until
/// the list selects another base; in version 4 each end that is a number alone is such an offset.
pub fn read_ranges(
    alloc: Global,
    sections: &Sections,
    relocs: &Relocs,
    image: &Image,
    offset: u32,
    version: u16,
    base: &Addr,
    addresses: &Relocs,
    addr_base: u64,
) -> Result<List<RawSpan>, ReadError>
    requires inside { offset < length (range_bytes (bytes_in sections.now) version) }
    requires small { length (range_bytes (bytes_in sections.now) version) < 2 ^ 32 }
    requires small_addresses { length sections.now.addr.now < 2 ^ 32 }
    requires sound { IsSound image.now relocs.now }
    requires sound_addresses { IsSound image.now addresses.now }
    requires sound_image { IsSoundImage image.now }
    ensures exact { Gives (λ spans. spans) result (ranges_of (bytes_in sections.now) relocs.now image.now offset version base.now addresses.now addr_base) }

    // The ends of each span are of one class, and the low one is below the high one.
    ensures sound { IfOk result (All IsSoundSpan) }
{
    let section = section_of(version);
    let context = ListContext {
        form: section.form,
        image,
        relocs,
        sections,
        addresses,
        addr_base,
    };
    read_list(
        alloc,
        section.part,
        sections.range_lists(version),
        offset,
        &context,
        base,
        &Alone,
    )
}

/// The section in which a unit of this version has its range lists.
fn section_of(version: u16) -> ListSection
    ensures part { result.part ≡ range_part version }
    ensures form { result.form ≡ range_form version }
{
    if version == DWARF_5 {
        ListSection {
            part: Part::Rnglists,
            form: ListForm::RangeEntries,
        }
    } else {
        ListSection {
            part: Part::Ranges,
            form: ListForm::Words,
        }
    }
}
