//! The two ends of a span.

ghost use Rattle.std.specs.Prelude.{◌≡◌};
ghost use Rattle.list_items.specs.Ends;

use dwarf_types::{Addr, RawSpan};

/// What an end means where the list's base is `base`: a number that no relocation changes is added to the base, modulo
/// 2^64. An end that a relocation makes an address, or counts from a symbol, stands as it is.
#[tactic(auto, unfolding(crate::specs::Ends::from_base))]
pub(crate) fn from_base(base: &Addr, end: Addr) -> Addr
    ensures { result ≡ Ends.from_base base.now end }
{
    let Addr::Fixed(offset) = end else {
        return end;
    };
    base.plus(offset)
}

/// Whether two ends belong together: both are of one class, of one symbol where they are named, and the high end's
/// number is not below the low end's.
#[tactic(auto, unfolding(crate::specs::Ends::belong_together))]
pub(crate) fn belong_together(span: &RawSpan) -> bool
    ensures { result ≡ Ends.belong_together span.now }
{
    are_of_one_class(span) && span.low.number() <= span.high.number()
}

/// Whether a span has no address: its ends are equal. "A range list entry [..] whose beginning and ending addresses are
/// equal has no effect" (DWARF 4, section 2.17.3).
#[tactic(auto, unfolding(crate::specs::Ends::is_empty))]
pub(crate) fn is_empty(span: &RawSpan) -> bool
    ensures { result ≡ Ends.is_empty span.now }
{
    are_of_one_class(span) && span.low.number() == span.high.number()
}

/// Whether both ends are addresses of the object, both count from one symbol, or both are numbers alone.
fn are_of_one_class(span: &RawSpan) -> bool
    ensures { result ≡ Ends.are_of_one_class span.now.low span.now.high }
{
    match (span.low, span.high) {
        (Addr::Placed(_), Addr::Placed(_)) => true,
        (Addr::Named { symbol, .. }, Addr::Named { symbol: other, .. }) => symbol == other,
        (Addr::Fixed(_), Addr::Fixed(_)) => true,
        _ => false,
    }
}
