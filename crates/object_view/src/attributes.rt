//! Addresses, references and expressions of `__debug_info`.

ghost use Rattle.std.specs.Prelude.{◌≡◌, ◌<◌, ◌≤◌, ◌∷◌, ℕ, List, length, Some, IfOk, IsSome, OnOk};
ghost use Rattle.std.specs.Slice.Iter.{iter_rest};
ghost use Rattle.ds_base.specs.Reading.{Gives};
ghost use Rattle.dwarf_types.specs.Seen.{raw_attr_seen};
ghost use Rattle.index_tables.specs.Tables.{address_place};
ghost use Rattle.expr_resolve.specs.Context.{context_in};
ghost use Rattle.unit_tree.specs.Targets.{target_in};
ghost use Rattle.object_view.specs.Attributes;
ghost use Rattle.object_view.specs.Changes.{MayBe, understood_as};
ghost use Rattle.object_view.specs.Infos.{FitsInfo, IsReadyInfo, info_value};
ghost use Rattle.object_view.specs.Numbers.{LeadTo, behind};
ghost use Rattle.object_view.specs.Ready.{IsReady};

use crate::expressions::{ExprRoom, Expressions, info_context};
use ds_base::ReadError;
use ds_base::dwarf::{ADDRESS_SIZE, DW_FORM_exprloc};
use dwarf_types::{Addr, Place, RawAttrRef, ValueRef};
use expr_resolve::{ExprContext, read_expression};
use index_tables::{address_at, stored_address};
use moved_parts::place;
use reloc_table::resolve;
use std::slice::Iter;
use unit_tree::is_address_index;

/// What becomes of a value that was read.
#[derive(Clone, Copy)]
pub(crate) enum Understood {
    Same,
    Address(Place),
    /// The number of an entry.
    Ref(u32),
    /// The operations of an expression, which were put aside.
    Expr,
}

/// An attribute as it was read, understood: addresses move, references lead to the numbers of entries, and expressions
/// become operations. Its entry is of the unit of this number. The operations of an expression are put into `room`, and a
/// reference takes the next of `numbers`, the number of the entry to which it leads. `places` are those of all entries.
pub(crate) fn understand_value(
    expressions: &Expressions,
    unit: u32,
    attr: &RawAttrRef<'_>,
    numbers: &mut Iter<'_, u32>,
    room: &mut ExprRoom,
) -> Result<Understood, ReadError>
    ghost places: { List ℕ }
    requires ready { IsReadyInfo expressions.now }
    requires fits { FitsInfo expressions.now places unit (raw_attr_seen attr.now) }
    requires numbers { LeadTo places (target_in (raw_attr_seen attr.now).value) (iter_rest numbers.old) }
    ensures exact { Gives (understood_as room.new.meant.ops (raw_attr_seen attr.now).value) result (info_value expressions.now places unit (raw_attr_seen attr.now)) }
    ensures taken { OnOk result (iter_rest numbers.new ≡ behind (target_in (raw_attr_seen attr.now).value) (iter_rest numbers.old)) }
    ensures becomes { IfOk result (MayBe room.new.meant.ops (raw_attr_seen attr.now).value) }
{
    match &attr.value {
        ValueRef::Address(stored) => {
            let context = info_context(expressions, unit);
            let at = field_address(&context, attr.end, &stored.at);
            Ok(Understood::Address(place(context.map, at)))
        }
        ValueRef::Ref(_) => Ok(Understood::Ref(next_number(numbers))),
        ValueRef::Block { form, bytes } if *form == DW_FORM_exprloc => {
            let context = info_context(expressions, unit);
            let first = u64::from(attr.end) - bytes.len() as u64;
            read_expression(&context, bytes, first, &mut room.stored, &mut room.meant)?;
            Ok(Understood::Expr)
        }
        ValueRef::Offset(index) if is_address_index(attr.form) => {
            let context = info_context(expressions, unit);
            Ok(Understood::Address(address_named(&context, *index)))
        }
        _ => Ok(Understood::Same),
    }
}

/// What the address of a field means that ends at a place.
fn field_address(context: &ExprContext, end: u32, stored: &Addr) -> Addr
    requires ready { IsReady (context_in context.now) }
    requires there { 8 ≤ end }
    ensures { result ≡ Attributes.field_address (context_in context.now) end stored.now }
{
    let first = end - u32::from(ADDRESS_SIZE);
    resolve(context.relocs, context.image, first, stored.number())
}

/// The address at an index of the unit's table of addresses.
fn address_named(context: &ExprContext, index: u64) -> Place
    requires ready { IsReady (context_in context.now) }
    requires there { IsSome (address_place (context_in context.now).sections context.now.addr_base index) }
    ensures { Attributes.address_named (context_in context.now) index ≡ Some result }
{
    match address_at(context.sections, context.addr_base, index) {
        Ok(at) => {
            let stored = stored_address(context.sections.addr, at);
            place(
                context.map,
                resolve(context.addresses, context.image, at, stored),
            )
        }
        Err(_) => unreachable!(),
    }
}

/// The next of some numbers.
fn next_number(numbers: &mut Iter<'_, u32>) -> u32
    requires { 0 < length (iter_rest numbers.old) }
    ensures { iter_rest numbers.old ≡ result ∷ iter_rest numbers.new }
{
    match numbers.next() {
        Some(number) => *number,
        None => unreachable!(),
    }
}
