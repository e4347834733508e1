//! That a text of a string section is found at its place.

ghost use Rattle.std.specs.Prelude.{◌≡◌, ◌<◌, ℕ, List as Listed, Some};
ghost use Rattle.std.specs.List.{All};
ghost use Rattle.ds_base.specs.Reading.{text_of};
ghost use Rattle.ds_base.specs.Texts.{place_of, section_of};

/// A text without a zero byte that is one of a string section's is what is read at its place there.
#[tactic(auto, using(crate::proofs::TextPlaces::text_found))]
pub fn texts_are_found_at_their_places()
    ensures { (texts : Listed (Listed ℕ)) (text : Listed ℕ) (place : ℕ) → All (λ b. 0 < b) text → place_of texts text ≡ Some place → text_of (section_of texts) place ≡ Some text }
{}
