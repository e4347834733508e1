//! A whole list, whatever follows its spans.

ghost use Rattle.std.specs.Prelude.{◌≡◌, ◌-◌, ◌<◌, ◌^◌, length};
ghost use Rattle.ds_base.specs.Reading.{Gives};
ghost use Rattle.ds_base.specs.Spot.{IsSmall};
ghost use Rattle.list_items.specs.Context.{context_in, IsSoundContext};
ghost use Rattle.list_items.specs.Lists.{items_from, list_in, list_of, whole_at};

use crate::context::ListContext;
use crate::ends::is_empty;
use crate::item::{Item, read_item};
use ds_base::{Cursor, Kind, List, Part, ReadError};
use dwarf_types::{Addr, RawSpan};
use std::alloc::Global;

/// What follows the span of an item, or a default: nothing in a range list, an expression in a location list.
pub trait Behind {
    ghost use Rattle.std.specs.Prelude.{OnOk};
    ghost use Rattle.ds_base.specs.Reading.{ReadsUnlessFull};
    ghost use Rattle.ds_base.specs.Spot.{IsSmall};
    ghost use Rattle.list_items.specs.Lists.{Behind as ReadBehind};

    /// A span with what follows it.
    type Item: Drop;

    /// What is read behind the span of an item, if it gives one, and the item begins at a place.
    ghost behind: { Self → ReadBehind Self.Item };

    /// Reads what follows the span of an item that begins at `place`; a default location gives none.
    fn read(
        &self,
        alloc: Global,
        place: u64,
        span: Option<RawSpan>,
        cursor: &mut Cursor<'_>,
    ) -> Result<Self::Item, ReadError>
        requires small { IsSmall cursor.old }
        ensures read { ReadsUnlessFull (λ item. item) result cursor.new (behind self.now place span cursor.old) }
        ensures small { OnOk result (IsSmall cursor.new) };
}

/// The items of the list at `offset` of a section, but for those of empty spans, in their order (DWARF 4 and 5, sections
/// 2.17.3 and 2.6.2).
///
/// `base` is what offsets count from until the list selects another one. A number that the section cuts off is
/// `Truncated`, and a ULEB of more than 64 bits is `LebTooWide`, both at the number's first byte; a list that no mark ends
/// is `Truncated` at the section's end. `UnknownListEntry`, of a kind that the form doesn't have, `BadIndex`, of an address
/// that the unit's table doesn't have, and `BadList`, of ends that don't belong together, are placed at the item's first
/// byte. What follows a span is read after its ends were tried, and has faults of its own.
pub fn read_list<B: Behind>(
    alloc: Global,
    part: Part,
    bytes: &[u8],
    offset: u32,
    context: &ListContext<'_>,
    base: &Addr,
    behind: &B,
) -> Result<List<B::Item>, ReadError>
    requires inside { offset < length bytes.now }
    requires small { length bytes.now < 2 ^ 32 }
    requires sound { IsSoundContext (context_in context.now) }
    ensures { Gives (λ items. items) result (list_in part bytes.now (context_in context.now) (B.behind behind.now) offset base.now) }
{
    let mut cursor = Cursor::new(bytes, part, u64::from(offset), bytes.len() as u64);
    read_items(alloc, &mut cursor, context, base, behind)
}

/// The items of the list that begins where the cursor stands.
fn read_items<B: Behind>(
    alloc: Global,
    cursor: &mut Cursor<'_>,
    context: &ListContext<'_>,
    base: &Addr,
    behind: &B,
) -> Result<List<B::Item>, ReadError>
    requires sound { IsSoundContext (context_in context.now) }
    requires small { IsSmall cursor.old }
    ensures { Gives (λ items. items) result (list_of (items_from (whole_at (context_in context.now) (B.behind behind.now)) (cursor.old.end - cursor.old.place) base.now cursor.old)) }
{
    let mut base = *base;
    let mut items = List::new(alloc);
    let left = cursor.left();
    for _ in 0..left {
        let place = cursor.place();
        match read_item(cursor, context, &base)? {
            Item::End => return Ok(items),
            Item::Base(selected) => base = selected,
            Item::Default => {
                let item = behind.read(alloc, place, None, cursor)?;
                items.push(item)?;
            }
            Item::Span(span) => {
                let item = behind.read(alloc, place, Some(span), cursor)?;
                if !is_empty(&span) {
                    items.push(item)?;
                }
            }
        }
    }
    Err(ReadError::Faulty(cursor.fault(Kind::Truncated)))
}
