//! Where the symbols of an object that are defined stand.

ghost use Rattle.std.specs.Prelude.{◌≡◌, ◌≤◌, true, false, length, IfOk};
ghost use Rattle.std.specs.List.Sorted.{IsPartitionPoint, IsPermutation, IsSorted};
ghost use Rattle.std.specs.Ordering.{is_le};
ghost use Rattle.macho_read.specs.Seen.{symbol_seen};
ghost use Rattle.macho_read.specs.Standings.{standing_of};
ghost use Rattle.addr_map.specs.Entries.{places, place_of};
ghost use Rattle.addr_map.specs.Tables.{place_cmp, IsNext};

use ds_base::NoMemory;
use macho_read::{Image, Standing, SymbolRef, standing_of};
use std::alloc::Global;

/// The ordinals of the sections, from 1, and the addresses of the symbols that are defined, in order.
pub(crate) fn places_in_order(alloc: Global, image: &Image) -> Result<Vec<(u8, u64)>, NoMemory>
    ensures same { IfOk result (λ sorted. IsPermutation (places image.now) sorted.items) }
    ensures order { IfOk result (λ sorted. IsSorted place_cmp sorted.items) }
{
    let mut sorted = all_places(alloc, image)?;
    sorted.sort_unstable();
    Ok(sorted)
}

/// The section and the address of each symbol that is defined.
fn all_places(alloc: Global, image: &Image) -> Result<Vec<(u8, u64)>, NoMemory>
    ensures { IfOk result (λ all. all.items ≡ places image.now) }
{
    let mut all = Vec::new(alloc);
    for i in 0..image.symbols.len() {
        if let Some(place) = find_place(image, image.symbols.symbol(i)) {
            all.push(place)?;
        }
    }
    Ok(all)
}

/// The section and the address of a symbol, where it is defined in one.
fn find_place(image: &Image, symbol: SymbolRef<'_>) -> Option<(u8, u64)>
    ensures { result ≡ place_of (standing_of image.now (symbol_seen symbol.entry)) symbol.entry.value }
{
    match standing_of(image, symbol) {
        Standing::Defined { section } => Some((section, symbol.value)),
        _ => None,
    }
}

/// The next address above `start` in a section.
pub(crate) fn next_address(places: &[(u8, u64)], section: u8, start: u64) -> Option<u64>
    requires { IsSorted place_cmp places.now }
    ensures { IsNext section start places.now result }
{
    match places.get(count_passed(places, section, start)) {
        Some(place) if place.0 == section => Some(place.1),
        _ => None,
    }
}

/// How many of the places stand before the section, or in it at `start` or before it.
fn count_passed(places: &[(u8, u64)], section: u8, start: u64) -> usize
    requires { IsSorted place_cmp places.now }
    ensures within { result ≤ length places.now }
    ensures passed { IsPartitionPoint (λ p. is_le (place_cmp p (section, start)) ≡ true) (λ p. is_le (place_cmp p (section, start)) ≡ false) places.now result }
{
    places.partition_point(|place| *place <= (section, start))
}
