//! The laws of a run: what steps make of the words, one after the other.

ghost use Rattle.pool_core.specs.Machine.{OrderDoesNotMatter, RunsFillAndLower};

/// Whatever the steps, a filled cell keeps its name, an empty one gets the first name that is brought to it, and a least
/// word becomes the minimum of itself and of all numbers that are brought to its cell.
pub fn runs_fill_and_lower()
    ensures { RunsFillAndLower }
{}

/// Two lists of steps that bring the same numbers to a cell make one least word of it, whatever their order.
pub fn order_does_not_matter()
    ensures { OrderDoesNotMatter }
{}
