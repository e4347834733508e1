//! Declarations as keys, by which they are looked up.

ghost use Rattle.std.specs.Prelude.{◌≡◌, fold};
ghost use Rattle.abbrev_write.specs.Feeding.{fed, pair_fed, pairs_fed, same_fed};

use std::hash::{Hash, Hasher};

/// What declares a node, as a key.
///
/// A name is hashed with its form as one number; a vector of pairs would be hashed half by half.
#[derive(PartialEq, Eq, Drop)]
pub(crate) struct Key {
    /// The `DW_TAG` number.
    pub(crate) tag: u16,
    /// Whether children follow.
    pub(crate) children: bool,
    /// The `DW_AT` number and the `DW_FORM` number of each attribute, in the order of their values.
    pub(crate) attributes: Vec<(u16, u16)>,
}

impl Hash for Key {
    ghost hash_input = { λ key. fed key.tag key.children key.attributes.items };

    ghost respects_eq = { λ x y same. same_fed x.tag y.tag x.children y.children x.attributes.items y.attributes.items same };

    fn hash<H: Hasher>(&self, state: &mut H) {
        feed_pair(state, self.tag, if self.children { 1 } else { 0 });
        feed_pairs(state, self.attributes.as_slice());
    }
}

/// Feeds pairs, one by one.
fn feed_pairs<H: Hasher>(state: &mut H, pairs: &[(u16, u16)])
    ensures { state.new ≡ fold H.write state.old (pairs_fed pairs.now) }
{
    for (name, form) in pairs {
        feed_pair(state, *name, *form);
    }
}

/// Feeds a pair as one number.
fn feed_pair<H: Hasher>(state: &mut H, first: u16, second: u16)
    ensures { state.new ≡ H.write state.old (pair_fed first second) }
{
    state.write_u32(u32::from(first) * 0x10000 + u32::from(second));
}
