//! Spans of addresses (DWARF 4, section 2.17.3).

ghost use Rattle.std.specs.Prelude.{◌≡◌, ◌++◌, IfOk, OnOk};
ghost use Rattle.std.specs.List.{All};
ghost use Rattle.addr_map.specs.Sound.{IsSound};
ghost use Rattle.list_items.specs.Sound.{IsSoundSpan};
ghost use Rattle.moved_parts.specs.Spans.{span_moved, spans_moved};

use addr_map::{AddrMap, pieces};
use ds_base::{List, NoMemory};
use dwarf_types::{Addr, RawSpan, Span};
use std::alloc::Global;

/// The pieces of spans in the linked program: of each span in order, what each range of the map holds of it, in the
/// order of the ranges. Of a span whose ends aren't addresses of the object there is none.
pub fn move_spans(alloc: Global, map: &AddrMap, spans: &[RawSpan]) -> Result<List<Span>, NoMemory>
    requires sound { IsSound map.now }
    requires spans { All IsSoundSpan spans.now }
    ensures { IfOk result (λ out. out ≡ spans_moved map.now spans.now) }
{
    let mut moved = List::new(alloc);
    for span in spans {
        add_pieces(alloc, map, span, &mut moved)?;
    }
    Ok(moved)
}

/// The pieces of one span, as the item of a location list has them (DWARF 4, section 2.6.2).
pub fn span_pieces(alloc: Global, map: &AddrMap, span: &RawSpan) -> Result<List<Span>, NoMemory>
    requires sound { IsSound map.now }
    requires span { IsSoundSpan span.now }
    ensures { IfOk result (λ out. out ≡ span_moved map.now span.now) }
{
    match (span.low, span.high) {
        (Addr::Placed(low), Addr::Placed(high)) => pieces(alloc, map, low, high),
        _ => Ok(List::new(alloc)),
    }
}

/// Puts the pieces of one span last.
fn add_pieces(
    alloc: Global,
    map: &AddrMap,
    span: &RawSpan,
    moved: &mut List<Span>,
) -> Result<(), NoMemory>
    requires sound { IsSound map.now }
    requires span { IsSoundSpan span.now }
    ensures { OnOk result (moved.new ≡ moved.old ++ span_moved map.now span.now) }
{
    let pieces = span_pieces(alloc, map, span)?;
    for piece in pieces.as_slice() {
        moved.push(*piece)?;
    }
    Ok(())
}
