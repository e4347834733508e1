//! One item, up to what follows its span.

ghost use Rattle.std.specs.Prelude.{◌≡◌, OnOk};
ghost use Rattle.ds_base.specs.Reading.{Finds, Reads};
ghost use Rattle.ds_base.specs.Spot.{IsSmall};
ghost use Rattle.list_items.specs.Context.{context_in, IsSoundContext};
ghost use Rattle.list_items.specs.Items.{span_at};
ghost use Rattle.list_items.specs.Reading.{item_at};

use crate::context::{ListContext, ListForm};
use crate::ends::belong_together;
use crate::entry::read_entry;
use crate::words::read_words;
use ds_base::{Cursor, Fault, Kind};
use dwarf_types::{Addr, RawSpan};

/// An item of a list (DWARF 4 and 5, section 2.6.2).
#[derive(Clone, Copy)]
pub enum Item {
    /// The list ends.
    End,
    /// The base of the items behind it.
    Base(Addr),
    /// A default location (DWARF 5, section 2.6.2): no span is given.
    Default,
    /// A span of addresses, with the base applied. It may be empty.
    Span(RawSpan),
}

/// The next item of a list whose base is `base`, up to what follows its span.
///
/// In the form of words, two zeros end a list and a first word of all ones selects a base by the numbers that are
/// stored, whatever relocations stand there; an end that no relocation changes counts from the base. In the forms of
/// entries the kind tells what stands behind it, and the ends of an offset pair alone count from the base. An address
/// that an index names is that in the unit's table of addresses. A selected base doesn't count from the one before it.
///
/// Each number is an item of its own for `Truncated` and `LebTooWide`. `UnknownListEntry`, `BadIndex` and `BadList`
/// are placed at the item's first byte, and come as soon as what decides them is read.
#[tactic(auto, unfolding(crate::specs::Reading::item_at))]
pub(crate) fn read_item(
    cursor: &mut Cursor,
    context: &ListContext<'_>,
    base: &Addr,
) -> Result<Item, Fault>
    requires sound { IsSoundContext (context_in context.now) }
    requires small { IsSmall cursor.old }
    ensures read { Reads (λ item. item) result cursor.new (item_at (context_in context.now) base.now cursor.old) }
    ensures small { OnOk result (IsSmall cursor.new) }
{
    match context.form {
        ListForm::Words => read_words(cursor, context, base),
        ListForm::RangeEntries => read_entry(cursor, context, base),
        ListForm::LocationEntries => read_entry(cursor, context, base),
    }
}

/// The item that a span is whose ends are these. `first` stands at the item's first byte.
pub(crate) fn item_between(first: &Cursor, low: Addr, high: Addr) -> Result<Item, Fault>
    ensures { Finds (λ item. item) result (span_at first.now (record { low = low; high = high })) }
{
    let span = RawSpan { low, high };
    if !belong_together(&span) {
        return Err(first.fault(Kind::BadList));
    }
    Ok(Item::Span(span))
}

/// The span of an item, or where it gives none that of all numbers: no number alone is an address, so no part of it moves.
pub fn covered(span: Option<RawSpan>) -> RawSpan
    ensures { result ≡ Rattle.list_items.specs.Items.covered span }
{
    match span {
        Some(span) => span,
        None => RawSpan {
            low: Addr::Fixed(0),
            high: Addr::Fixed(u64::MAX),
        },
    }
}
