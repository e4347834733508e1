//! Items of version 5, spelled by the entries of a list.

ghost use Rattle.std.specs.Prelude.{◌≡◌, ◌<◌, ◌^◌, length, OnOk};
ghost use Rattle.ds_base.specs.Reading.{Moves, Reads, uleb_at};
ghost use Rattle.ds_base.specs.Spot.{IsSmall};
ghost use Rattle.list_items.specs.Context.{context_in, IsSoundContext};
ghost use Rattle.list_items.specs.EntryKinds.{kind_in};
ghost use Rattle.list_items.specs.Entries.{address_at as address_field, entry_at, entry_from, index_at, indexed, offset_at};

use crate::context::{ListContext, ListForm};
use crate::item::{Item, item_between};
use crate::kinds::{EntryKind, location_kind, range_kind};
use crate::words::read_word;
use ds_base::{Cursor, Fault, Kind};
use dwarf_types::Addr;
use index_tables::{address_at, stored_address};
use reloc_table::resolve;

/// The next item by its kind and what stands behind that, up to an expression.
#[tactic(auto, unfolding(crate::specs::Entries::entry_at, ds_base::specs::Reading::number_at))]
pub(crate) fn read_entry(
    cursor: &mut Cursor,
    context: &ListContext<'_>,
    base: &Addr,
) -> Result<Item, Fault>
    requires sound { IsSoundContext (context_in context.now) }
    requires small { IsSmall cursor.old }
    ensures read { Reads (λ item. item) result cursor.new (entry_at (context_in context.now) base.now cursor.old) }
    ensures small { OnOk result (IsSmall cursor.new) }
{
    let first = cursor.fork();
    let code = cursor.u8()?;
    let Some(kind) = kind_of(context.form, code) else {
        return Err(first.fault(Kind::UnknownListEntry));
    };
    read_behind(cursor, context, base, &first, kind)
}

/// The kind of an entry by its code, if the form has one.
fn kind_of(form: ListForm, code: u8) -> Option<EntryKind>
    ensures { result ≡ kind_in form code }
{
    match form {
        ListForm::Words => None,
        ListForm::RangeEntries => range_kind(code),
        ListForm::LocationEntries => location_kind(code),
    }
}

/// What stands behind the kind of an entry that begins at `first`.
#[tactic(auto, unfolding(crate::specs::Entries::entry_from))]
fn read_behind(
    cursor: &mut Cursor,
    context: &ListContext<'_>,
    base: &Addr,
    first: &Cursor,
    kind: EntryKind,
) -> Result<Item, Fault>
    requires sound { IsSoundContext (context_in context.now) }
    requires small { IsSmall cursor.old }
    ensures read { Reads (λ item. item) result cursor.new (entry_from (context_in context.now) base.now first.now kind cursor.old) }
    ensures small { OnOk result (IsSmall cursor.new) }
{
    match kind {
        EntryKind::EndOfList => Ok(Item::End),
        EntryKind::BaseAddressx => {
            let selected = read_index(cursor, context, first)?;
            Ok(Item::Base(selected))
        }
        EntryKind::StartxEndx => {
            let low = read_index(cursor, context, first)?;
            let high = read_index(cursor, context, first)?;
            item_between(first, low, high)
        }
        EntryKind::StartxLength => {
            let start = read_index(cursor, context, first)?;
            let end = read_offset(cursor, &start)?;
            item_between(first, start, end)
        }
        EntryKind::OffsetPair => {
            let low = read_offset(cursor, base)?;
            let high = read_offset(cursor, base)?;
            item_between(first, low, high)
        }
        EntryKind::DefaultLocation => Ok(Item::Default),
        EntryKind::BaseAddress => {
            let selected = read_address(cursor, context)?;
            Ok(Item::Base(selected))
        }
        EntryKind::StartEnd => {
            let low = read_address(cursor, context)?;
            let high = read_address(cursor, context)?;
            item_between(first, low, high)
        }
        EntryKind::StartLength => {
            let low = read_address(cursor, context)?;
            let high = read_offset(cursor, &low)?;
            item_between(first, low, high)
        }
    }
}

/// An address of eight bytes.
#[tactic(auto, unfolding(crate::specs::Entries::address_at))]
fn read_address(cursor: &mut Cursor, context: &ListContext<'_>) -> Result<Addr, Fault>
    requires sound { IsSoundContext (context_in context.now) }
    requires small { IsSmall cursor.old }
    ensures read { Reads (λ at. at) result cursor.new (address_field (context_in context.now) cursor.old) }
    ensures small { OnOk result (IsSmall cursor.new) }
{
    let word = read_word(cursor, context)?;
    Ok(word.means)
}

/// A ULEB, and the address so many bytes behind another.
#[tactic(auto, unfolding(crate::specs::Entries::offset_at))]
fn read_offset(cursor: &mut Cursor, from: &Addr) -> Result<Addr, Fault>
    requires small { IsSmall cursor.old }
    ensures read { Reads (λ at. at) result cursor.new (offset_at from.now cursor.old) }
    ensures small { OnOk result (IsSmall cursor.new) }
{
    let offset = read_uleb(cursor)?;
    Ok(from.plus(offset))
}

/// A ULEB, and the address whose index it is, in an item that begins at `first`.
#[tactic(auto, unfolding(crate::specs::Entries::index_at))]
fn read_index(cursor: &mut Cursor, context: &ListContext<'_>, first: &Cursor) -> Result<Addr, Fault>
    requires sound { IsSoundContext (context_in context.now) }
    requires small { IsSmall cursor.old }
    ensures read { Reads (λ at. at) result cursor.new (index_at (context_in context.now) first.now cursor.old) }
    ensures small { OnOk result (IsSmall cursor.new) }
{
    let index = read_uleb(cursor)?;
    let Some(at) = find_address(context, index) else {
        return Err(first.fault(Kind::BadIndex));
    };
    Ok(at)
}

/// The next ULEB.
fn read_uleb(cursor: &mut Cursor) -> Result<u64, Fault>
    requires small { IsSmall cursor.old }
    ensures read { Moves (λ n. n) result cursor.old cursor.new (uleb_at cursor.old) }
    ensures small { OnOk result (IsSmall cursor.new) }
{
    cursor.uleb()
}

/// The address at an index of the unit's table of addresses.
#[tactic(auto, unfolding(crate::specs::Entries::indexed))]
fn find_address(context: &ListContext<'_>, index: u64) -> Option<Addr>
    requires sound { IsSoundContext (context_in context.now) }
    ensures { result ≡ indexed (context_in context.now) index }
{
    match address_at(context.sections, context.addr_base, index) {
        Ok(place) => {
            let stored = stored_address(context.sections.addr, place);
            Some(resolve(context.addresses, context.image, place, stored))
        }
        Err(_) => None,
    }
}
