//! References between entries.

ghost use Rattle.std.specs.Prelude.{◌≡◌, ◌<◌, ◌^◌, length, map, Some, is_some, IfOk, IfSome};
ghost use Rattle.ds_base.specs.Reading.{Gives};
ghost use Rattle.dwarf_types.specs.PlaceSteps.{IsTable};
ghost use Rattle.dwarf_types.specs.Raw.{places_of};
ghost use Rattle.unit_tree.specs.Reference.{reaches, leads, resolved, IsRising};
ghost use Rattle.unit_tree.specs.Targets.{number_at};

use crate::packed::PackedReference;
use ds_base::{Fault, Kind, List, Part, ReadError};
use dwarf_types::{PlaceTable, RawEntries};
use std::alloc::Global;

/// A reference to an entry, which is tried once all entries are known.
#[derive(Clone, Copy)]
pub struct Reference {
    /// The place of the value in `__debug_info`.
    pub place: u32,
    /// The place in `__debug_info` of the entry to which it leads.
    pub target: u32,
    /// The number of the unit of which that entry must be, if it can't be of any.
    pub unit: Option<u32>,
}

/// The numbers of the entries to which the references lead, in their order: each leads to the first byte of one.
pub(crate) fn resolve(
    alloc: Global,
    entries: &RawEntries,
    references: &[PackedReference],
) -> Result<List<u32>, ReadError>
    requires rising { IsRising entries.now }
    requires few { length entries.now < 2 ^ 32 }
    ensures exact { Gives (λ _. entries.now) result (resolved entries.now references.now) }
    ensures numbers { IfOk result (λ numbers. map Some numbers ≡ map (number_at (places_of entries.now)) (map (λ r. r.target) references.now)) }
{
    let table = PlaceTable::of(alloc, entries)?;
    let mut numbers = List::with_capacity(alloc, references.len())?;
    for packed in references {
        let reference = packed.unpacked();
        let Some(number) = number_led_to(&table, entries, &reference) else {
            return Err(ReadError::Faulty(Fault {
                kind: Kind::BadReference,
                section: Part::Info,
                place: u64::from(reference.place),
            }));
        };
        numbers.push(number)?;
    }
    Ok(numbers)
}

/// The number of the entry to which a reference leads: one that it may lead to, and whose first byte stands
/// there. The table is that of the entries.
fn number_led_to(table: &PlaceTable, entries: &RawEntries, reference: &Reference) -> Option<u32>
    requires rising { IsRising entries.now }
    requires few { length entries.now < 2 ^ 32 }
    requires table { IsTable (places_of entries.now) table.now }
    ensures leads { is_some result ≡ leads entries.now reference.now }
    ensures number { IfSome result (λ number. number_at (places_of entries.now) reference.now.target ≡ Some number) }
{
    match table.find(entries, reference.target) {
        Some(i) => {
            if reaches_unit(reference.unit, entries.entry(i).unit()) {
                Some(i as u32)
            } else {
                None
            }
        }
        None => None,
    }
}

/// Whether a reference may lead to an entry of the unit.
fn reaches_unit(own: Option<u32>, unit: u32) -> bool
    ensures { result ≡ reaches own unit }
{
    match own {
        None => true,
        Some(own) => own == unit,
    }
}
