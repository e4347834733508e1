//! The address map of an object: its ranges and names in order.

ghost use Rattle.std.specs.Prelude.{◌≡◌, List as Listed, ℕ, IfOk};
ghost use Rattle.std.specs.List.{filter_map};
ghost use Rattle.std.specs.List.Sorted.{IsPermutation, IsSorted};
ghost use Rattle.std.specs.Option.{option_map};
ghost use Rattle.macho_read.specs.Sound.{IsSound as IsSoundImage};
ghost use Rattle.addr_map.specs.Entries.{given_of, named, places as places_of};
ghost use Rattle.ds_base.specs.InOrder.{in_order};
ghost use Rattle.addr_map.specs.Ranges.{cut, kept, map_from, map_of, name_part, range_part};
ghost use Rattle.addr_map.specs.Sound.{IsSound};
ghost use Rattle.addr_map.specs.Tables.{index_in, place_cmp};

use crate::entry::{Given, given_by};
use crate::map::{AddrMap, MapName, MapRange};
use crate::places::places_in_order;
use crate::symbols::symbols_by_name;
use ds_base::{List, NoMemory, TextKey};
use macho_read::Image;
use stab_map::{MapEntry, MapObject};
use std::alloc::Global;
use std::collections::{BTreeMap, HashMap};

/// Where the addresses of an object went, by its entries in the debug map and its own image.
///
/// An entry names the first symbol of its name that isn't a stab. Where that is defined in a section, the entry gives
/// a range that begins there: a function's of its size, a variable's up to the next symbol of the section, or else to
/// the section's end. Where the symbol is common or undefined, the entry gives it a linked address. An entry gives
/// nothing where there is no such symbol, where it is absolute, or where an end would pass 2^64 - 1. Of equal starts,
/// and of one symbol, the first entry counts. A range is cut where the next one starts, and dropped where it then
/// holds no address.
#[tactic(auto, unfolding(crate::specs::Ranges::map_of))]
pub fn build(alloc: Global, object: &MapObject, image: &Image) -> Result<AddrMap, NoMemory>
    requires { IsSoundImage image.now }
    ensures exact { IfOk result (λ map. map ≡ map_of object.now image.now) }
    ensures sound { IfOk result IsSound }
{
    let symbols = symbols_by_name(alloc, &image.symbols)?;
    let places = places_in_order(alloc, image)?;
    let given = all_given(alloc, object.entries.as_slice(), image, &symbols, &places)?;
    make_map(alloc, &given)
}

/// What the entries give, in their order.
fn all_given(
    alloc: Global,
    entries: &[MapEntry],
    image: &Image,
    symbols: &HashMap<TextKey, u32>,
    places: &[(u8, u64)],
) -> Result<Vec<Given>, NoMemory>
    requires symbols { (name : Listed ℕ) → index_in symbols.now name ≡ option_map (λ s. s.0) (named image.now name) }
    requires same { IsPermutation (places_of image.now) places.now }
    requires order { IsSorted place_cmp places.now }
    ensures { IfOk result (λ all. all.items ≡ filter_map (given_of image.now) entries.now) }
{
    let mut all = Vec::new(alloc);
    for entry in entries {
        if let Some(given) = given_by(entry, image, symbols, places) {
            all.push(given)?;
        }
    }
    Ok(all)
}

/// The map of all that is given.
fn make_map(alloc: Global, given: &[Given]) -> Result<AddrMap, NoMemory>
    ensures { IfOk result (λ map. map ≡ map_from given.now) }
{
    let ranges = ranges_in_order(alloc, given)?;
    let names = names_in_order(alloc, given)?;
    Ok(AddrMap {
        ranges: cut_ranges(alloc, &ranges)?,
        names: List::from_vec(names),
    })
}

/// The ranges by rising starts; of equal starts the first.
fn ranges_in_order(alloc: Global, given: &[Given]) -> Result<Vec<MapRange>, NoMemory>
    ensures { IfOk result (λ ranges. ranges.items ≡ in_order (λ r. r.start) (filter_map range_part given.now)) }
{
    let mut by_start = BTreeMap::new(alloc);
    // The map keeps the last range of a start, and so the first comes last.
    for one in given.iter().rev() {
        if let Given::Range(range) = one {
            by_start.insert(range.start, *range)?;
        }
    }
    Ok(by_start.into_values().collect(alloc)?)
}

/// The names by rising symbols; of one symbol the first.
fn names_in_order(alloc: Global, given: &[Given]) -> Result<Vec<MapName>, NoMemory>
    ensures { IfOk result (λ names. names.items ≡ in_order (λ n. n.symbol) (filter_map name_part given.now)) }
{
    let mut by_symbol = BTreeMap::new(alloc);
    // The map keeps the last name of a symbol, and so the first comes last.
    for item in given.iter().rev() {
        if let Given::Name(name) = item {
            by_symbol.insert(name.symbol, *name)?;
        }
    }
    Ok(by_symbol.into_values().collect(alloc)?)
}

/// The ranges, each cut at the start of the next one, but for those that then hold no address.
fn cut_ranges(alloc: Global, ranges: &[MapRange]) -> Result<List<MapRange>, NoMemory>
    ensures { IfOk result (λ cuts. cuts ≡ kept (cut ranges.now)) }
{
    let mut cuts = List::new(alloc);
    for (i, range) in ranges.iter().enumerate() {
        let end = match ranges.get(i + 1) {
            Some(next) => range.end.min(next.start),
            None => range.end,
        };
        if range.start < end {
            cuts.push(MapRange { end, ..*range })?;
        }
    }
    Ok(cuts)
}
