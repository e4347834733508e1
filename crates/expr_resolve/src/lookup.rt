//! Relocations and base types, found by their places.

ghost use Rattle.std.specs.Prelude.{◌≡◌, ◌+◌, ◌≤◌, ◌==◌, ◌&&◌, is_some};
ghost use Rattle.std.specs.List.{AllPairs, find};
ghost use Rattle.std.specs.Option.{option_map};
ghost use Rattle.reloc_table.specs.Address.{reloc_at};
ghost use Rattle.expr_resolve.specs.Context.{AreInOrder};

use crate::context::BaseType;
use reloc_table::Relocs;

/// Whether a relocation stands at a place, in bytes from the start of its part.
pub(crate) fn is_relocated(relocs: &Relocs, place: u64) -> bool
    requires { AllPairs (λ r later. r.place + 8 ≤ later.place) relocs.now.list }
    ensures { result ≡ is_some (reloc_at relocs.now place) }
{
    let list = relocs.list.as_slice();
    match list.binary_search_by_key(&place, |reloc| u64::from(reloc.place)) {
        Ok(_) => true,
        Err(_) => false,
    }
}

/// The number of the entry of the unit's base type at a place, in bytes from the start of `__debug_info`.
pub(crate) fn find_base(bases: &[BaseType], unit: u32, place: u64) -> Option<u32>
    requires { AreInOrder bases.now }
    ensures { result ≡ option_map (λ b. b.entry) (find (λ b. b.unit == unit && b.place == place) bases.now) }
{
    let Some(base) = base_at(bases, place) else {
        return None;
    };
    if base.unit == unit {
        Some(base.entry)
    } else {
        None
    }
}

/// The base type at a place, of any unit.
fn base_at(bases: &[BaseType], place: u64) -> Option<BaseType>
    requires { AreInOrder bases.now }
    ensures { result ≡ find (λ b. b.place == place) bases.now }
{
    match bases.binary_search_by_key(&place, |base| u64::from(base.place)) {
        Ok(i) => Some(bases[i]),
        Err(_) => None,
    }
}
