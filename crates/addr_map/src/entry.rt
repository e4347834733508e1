//! What an entry of the debug map gives.

ghost use Rattle.std.specs.Prelude.{◌≡◌, ◌≤◌, ℕ, List as Listed, length};
ghost use Rattle.std.specs.List.Sorted.{IsPermutation, IsSorted};
ghost use Rattle.std.specs.Option.{option_and_then, option_map};
ghost use Rattle.macho_read.specs.Seen.{symbol_seen};
ghost use Rattle.addr_map.specs.Entries.{end_of, given_of, named, places as places_of, range_from, section_end};
ghost use Rattle.addr_map.specs.Tables.{index_in, place_cmp};

use crate::map::{MapName, MapRange};
use crate::places::next_address;
use ds_base::TextKey;
use macho_read::{Image, Standing, SymbolRef, standing_of};
use stab_map::MapEntry;
use std::collections::HashMap;

/// What an entry gives: where addresses of the object went, or where a symbol did.
#[derive(Clone, Copy)]
pub(crate) enum Given {
    Range(MapRange),
    Name(MapName),
}

/// What an entry gives to the object with these symbols by name, and these places of them in order.
pub(crate) fn given_by(
    entry: &MapEntry,
    image: &Image,
    symbols: &HashMap<TextKey, u32>,
    places: &[(u8, u64)],
) -> Option<Given>
    requires symbols { (name : Listed ℕ) → index_in symbols.now name ≡ option_map (λ s. s.0) (named image.now name) }
    requires same { IsPermutation (places_of image.now) places.now }
    requires order { IsSorted place_cmp places.now }
    ensures { result ≡ given_of image.now entry.now }
{
    let (index, symbol) = find_named(image, symbols, entry.name.as_slice())?;
    match standing_of(image, symbol) {
        Standing::Defined { section } => {
            let range = find_range(entry, image, places, section, symbol.value)?;
            Some(Given::Range(range))
        }
        Standing::Common | Standing::Undefined => Some(Given::Name(MapName {
            symbol: index,
            linked: entry.linked,
        })),
        Standing::Absolute => None,
    }
}

/// The first symbol of a name that isn't a stab, with its index from 0.
fn find_named<'a>(
    image: &'a Image,
    symbols: &HashMap<TextKey, u32>,
    name: &[u8],
) -> Option<(u32, SymbolRef<'a>)>
    requires { (name : Listed ℕ) → index_in symbols.now name ≡ option_map (λ s. s.0) (named image.now name) }
    ensures { option_map (λ s. (s.0, symbol_seen s.1)) result ≡ named image.now name.now }
{
    let index = *symbols.get(&TextKey { text: name })?;
    Some((index, image.symbols.symbol(index as usize)))
}

/// The range of an entry from the symbol `start` of a section, unless it or its linked range would pass 2^64 - 1.
fn find_range(
    entry: &MapEntry,
    image: &Image,
    places: &[(u8, u64)],
    section: u8,
    start: u64,
) -> Option<MapRange>
    requires from_one { 1 ≤ section }
    requires there { section ≤ length image.now.sections }
    requires same { IsPermutation (places_of image.now) places.now }
    requires order { IsSorted place_cmp places.now }
    ensures { result ≡ option_and_then (λ end. range_from entry.now.linked start end) (end_of image.now entry.now.size section start) }
{
    let end = find_end(image, places, entry.size, section, start)?;
    entry.linked.checked_add(end.saturating_sub(start))?;
    Some(MapRange {
        start,
        end,
        linked: entry.linked,
    })
}

/// Where a range ends that begins at the symbol `start` of a section, unless that passes 2^64 - 1.
fn find_end(
    image: &Image,
    places: &[(u8, u64)],
    size: Option<u64>,
    section: u8,
    start: u64,
) -> Option<u64>
    requires from_one { 1 ≤ section }
    requires there { section ≤ length image.now.sections }
    requires same { IsPermutation (places_of image.now) places.now }
    requires order { IsSorted place_cmp places.now }
    ensures { result ≡ end_of image.now size section start }
{
    if let Some(size) = size {
        return start.checked_add(size);
    }
    match next_address(places, section, start) {
        Some(next) => Some(next),
        None => find_section_end(image, section),
    }
}

/// The address behind the section of an ordinal, which counts from 1, unless it passes 2^64 - 1.
fn find_section_end(image: &Image, ordinal: u8) -> Option<u64>
    requires from_one { 1 ≤ ordinal }
    requires there { ordinal ≤ length image.now.sections }
    ensures { result ≡ section_end image.now ordinal }
{
    let section = &image.sections.as_slice()[usize::from(ordinal) - 1];
    section.addr.checked_add(section.size)
}
