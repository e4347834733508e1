//! Where the symbols of a program lie that are defined in one of its sections (mach-o/nlist.h).

ghost use Rattle.std.specs.Prelude.{◌≡◌, true, ℕ, List as Listed, IfOk};
ghost use Rattle.stab_map.specs.Addresses.{address_in, address_of, has_name, is_asked};

use crate::stab::asks;
use ds_base::{NoMemory, TextKey};
use macho_read::{Image, is_defined};
use std::alloc::Global;
use std::collections::{HashMap, HashSet};

/// The address of each name that a stab asks for: that of the first symbol with the name that is defined in a section.
pub(crate) fn addresses_by_name<'a>(
    alloc: Global,
    image: &'a Image,
) -> Result<HashMap<TextKey<'a>, u64>, NoMemory>
    ensures { IfOk result (λ addresses. (name : Listed ℕ) → is_asked image.now.symbols name ≡ true → address_in addresses name ≡ address_of image.now name) }
{
    let names = names_asked(alloc, image)?;
    if names.is_empty() {
        return Ok(HashMap::new(alloc));
    }
    addresses_of_names(alloc, image, &names)
}

/// The names whose addresses stabs ask for.
fn names_asked<'a>(alloc: Global, image: &'a Image) -> Result<HashSet<TextKey<'a>>, NoMemory>
    ensures { IfOk result (λ names. (name : Listed ℕ) → has_name names name ≡ is_asked image.now.symbols name) }
{
    let symbols = &image.symbols;
    let mut names = HashSet::new(alloc);
    for i in (0..symbols.len()).rev() {
        let symbol = symbols.symbol(i);
        if asks(symbol) {
            names.insert(TextKey { text: symbol.name })?;
        }
    }
    Ok(names)
}

/// The address of each of some names.
fn addresses_of_names<'a>(
    alloc: Global,
    image: &'a Image,
    names: &HashSet<TextKey<'a>>,
) -> Result<HashMap<TextKey<'a>, u64>, NoMemory>
    ensures { IfOk result (λ addresses. (name : Listed ℕ) → has_name names.now name ≡ true → address_in addresses name ≡ address_of image.now name) }
{
    let symbols = &image.symbols;
    let mut addresses = HashMap::new(alloc);
    // The table keeps the last address of a name, and so the first symbol comes last.
    for i in (0..symbols.len()).rev() {
        let symbol = symbols.symbol(i);
        if is_defined(image, symbol) {
            let key = TextKey { text: symbol.name };
            if names.contains(&key) {
                addresses.insert(key, symbol.value)?;
            }
        }
    }
    Ok(addresses)
}
