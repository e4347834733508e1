//! What a number of a section means where an address is expected.

ghost use Rattle.std.specs.Prelude.{◌≡◌, ◌+◌, ◌<◌, ◌≤◌, length, slice_get, IfSome};
ghost use Rattle.std.specs.List.{AllPairs, Contains};
ghost use Rattle.std.specs.Option.{option_copied};
ghost use Rattle.macho_read.specs.Sound.{IsSound as IsSoundImage};
ghost use Rattle.reloc_table.specs.Address.{address_of, behind_symbol, reloc_at};
ghost use Rattle.reloc_table.specs.Sound.{IsSound};

use crate::relocation::{Reloc, Relocs};
use dwarf_types::Addr;
use macho_read::{Image, Standing, standing_of};

/// What the number `stored` means that stands `place` bytes from the section's start, where an address is expected.
///
/// Without a relocation at the place it is the number itself, and with one of a section an address of the object.
/// With one of a symbol it is counted from there: an address where the symbol is defined, a number where it is
/// absolute, and otherwise so many bytes behind the symbol. Sums are modulo 2^64.
#[tactic(auto, unfolding(crate::specs::Address::address_of))]
pub fn resolve(relocs: &Relocs, image: &Image, place: u32, stored: u64) -> Addr
    requires sound { IsSound image.now relocs.now }
    requires sound_image { IsSoundImage image.now }
    ensures { result ≡ address_of image.now relocs.now place stored }
{
    match find_reloc(relocs, place) {
        None => Addr::Fixed(stored),
        Some(reloc) if reloc.outer => count_from(image, reloc.symbol, stored),
        Some(_) => Addr::Placed(stored),
    }
}

/// The relocation at a place.
fn find_reloc(relocs: &Relocs, place: u32) -> Option<&Reloc>
    requires { AllPairs (λ r later. r.place + 8 ≤ later.place) relocs.now.list }
    ensures found { option_copied result ≡ reloc_at relocs.now place }
    ensures member { IfSome result (λ reloc. Contains relocs.now.list reloc.now) }
{
    let list = relocs.list.as_slice();
    match list.binary_search_by_key(&place, |reloc| reloc.place) {
        Ok(i) => Some(&list[i]),
        Err(_) => None,
    }
}

/// What the number `stored` means that is added to the symbol of this index.
fn count_from(image: &Image, index: u32, stored: u64) -> Addr
    requires { index < length image.now.symbols }
    ensures { result ≡ behind_symbol image.now index (slice_get image.now.symbols index) stored }
{
    let symbol = image.symbols.symbol(index as usize);
    let sum = symbol.value.wrapping_add(stored);
    match standing_of(image, symbol) {
        Standing::Defined { .. } => Addr::Placed(sum),
        Standing::Common | Standing::Undefined => Addr::Named {
            symbol: index,
            addend: stored,
        },
        Standing::Absolute => Addr::Fixed(sum),
    }
}
