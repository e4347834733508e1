//! A book whose names are keys.

ghost use Rattle.std.specs.Prelude.{◌≡◌, ◌%◌, length, slice_index};
ghost use Rattle.std.proofs.Common.{rules};

use pool_core::NameBook;

/// A book of keys. Names are equal where their keys are, and start at the cell of the key.
#[derive(Drop)]
pub struct KeyedBook<'a> {
    pub keys: &'a [u32],
}

impl<'a> NameBook for KeyedBook<'a> {
    ghost size = { λ book. length book.keys.now };

    ghost same = { λ book a b. slice_index book.keys.now a ≡ slice_index book.keys.now b };

    ghost start_of = { λ book x cells. slice_index book.keys.now x % cells };

    fn equal(&self, a: u32, b: u32) -> bool {
        self.keys[a as usize] == self.keys[b as usize]
    }

    fn start(&self, x: u32, cells: u32) -> u32 {
        self.keys[x as usize] % cells
    }

    ghost reflexive = { λ _ a g. Prim.search rules };

    ghost symmetric = { λ _ a b g h e. Prim.search rules };

    ghost transitive = { λ _ a b c g h i e f. Prim.search rules };

    ghost one_start = { λ _ a b cells g h i e. Prim.search rules };

    ghost inside = { λ _ a cells g h. Prim.search rules };
}
