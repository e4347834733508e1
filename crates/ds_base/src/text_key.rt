//! Texts as the keys of tables.

ghost use Rattle.std.specs.Prelude.{[], ◌∷◌};
ghost use Rattle.std.proofs.Common.{ap};
ghost use Rattle.std.specs.Cmp.Lexicographic.{bytes_decides};

use std::hash::{Hash, Hasher};

/// A text as the key of a table.
///
/// It is hashed as one piece, so by many bytes at a time; a slice would be hashed byte by byte.
#[derive(Clone, Copy, PartialEq, Eq)]
pub struct TextKey<'a> {
    pub text: &'a [u8],
}

impl<'a> Hash for TextKey<'a> {
    ghost hash_input = { λ key. key.text.now ∷ [] };

    ghost respects_eq = { λ x y same. ap (λ text. text ∷ []) ((bytes_decides x.text.now y.text.now).0 same) };

    fn hash<H: Hasher>(&self, state: &mut H) {
        state.write(self.text);
    }
}
