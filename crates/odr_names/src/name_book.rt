//! The book of names, as a shared table asks for it.

ghost use Rattle.std.specs.Prelude.{◌≡◌, ◌<◌, ◌≤◌, ◌↔◌, ℕ, length, IsTrue};

use crate::path_book::{PathBook, path_equal, path_start};
use pool_core::NameBook;

impl<'a> NameBook for PathBook<'a> {
    ghost use Rattle.std.specs.Prelude.{◌≡◌, length};
    ghost use Rattle.odr_names.specs.Numbered.{SamePath, path_at};
    ghost use Rattle.type_names.specs.Start.{start_of as start_of_path};
    ghost use Rattle.type_names.specs.Start.{path_hash};
    ghost use Rattle.std.specs.Prelude.{◌/◌, ◌^◌};
    ghost use Rattle.std.proofs.Common.{ap, refl, sym, ◌∙◌};
    ghost use Rattle.std.proofs.lemmas.Nat.{mod_below};

    ghost size = { λ book. length book };

    ghost same = { λ book a b. SamePath book a b };

    ghost start_of = { λ book x cells. start_of_path (path_at book x) cells };

    ghost reflexive = { λ book a h. refl };

    ghost symmetric = { λ book a b g h e. sym e };

    ghost transitive = { λ book a b c f g h d e. d ∙ e };

    ghost one_start = { λ book a b cells g h p e. ap (λ path. start_of_path path cells) e };

    ghost inside = { λ book a cells h p. mod_below (path_hash (path_at book a) / 2 ^ 32) cells p };

    fn equal(&self, a: u32, b: u32) -> bool {
        path_equal(self, a, b)
    }

    fn start(&self, x: u32, cells: u32) -> u32 {
        path_start(self, x, cells)
    }
}
