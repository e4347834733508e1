//! The book of names, with what is known of some of them.

ghost use Rattle.std.specs.Prelude.{◌≡◌, ◌<◌, ◌≤◌, ◌↔◌, ℕ, length, IsTrue};
ghost use Rattle.odr_names.specs.Known.{AreKnown};

use crate::path_book::{PathBook, known_equal, path_start};
use pool_core::NameBook;

/// A book, and of names from the `first` on, one behind the other, others that are known to have their paths.
///
/// `words` has of each of these names one more than the number of such another, or 0 where none is known. Where a
/// comparison of two paths comes to a name and the one that is known of it, what stands above them is not compared. So two
/// names whose parents are known are told apart by one piece.
#[derive(Drop)]
pub struct KnownBook<'a, 'b> {
    pub names: &'a PathBook<'b>,
    pub first: u32,
    pub words: &'a [u32],
    ghost known: { AreKnown names.now first words.now },
}

impl<'a, 'b> NameBook for KnownBook<'a, 'b> {
    ghost use Rattle.std.specs.Prelude.{◌≡◌, length};
    ghost use Rattle.odr_names.specs.Numbered.{SamePath, path_at};
    ghost use Rattle.type_names.specs.Start.{start_of as start_of_path};
    ghost use Rattle.type_names.specs.Start.{path_hash};
    ghost use Rattle.std.specs.Prelude.{◌/◌, ◌^◌};
    ghost use Rattle.std.proofs.Common.{ap, refl, sym, ◌∙◌};
    ghost use Rattle.std.proofs.lemmas.Nat.{mod_below};

    ghost size = { λ book. length book.names.now };

    ghost same = { λ book a b. SamePath book.names.now a b };

    ghost start_of = { λ book x cells. start_of_path (path_at book.names.now x) cells };

    ghost reflexive = { λ book a h. refl };

    ghost symmetric = { λ book a b g h e. sym e };

    ghost transitive = { λ book a b c f g h d e. d ∙ e };

    ghost one_start = { λ book a b cells g h p e. ap (λ path. start_of_path path cells) e };

    ghost inside = { λ book a cells h p. mod_below (path_hash (path_at book.names.now a) / 2 ^ 32) cells p };

    fn equal(&self, a: u32, b: u32) -> bool {
        known_equal(self.names, self.first, self.words, a, b)
    }

    fn start(&self, x: u32, cells: u32) -> u32 {
        path_start(self.names, x, cells)
    }
}
