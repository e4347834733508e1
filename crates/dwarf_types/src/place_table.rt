//! The entries by their places, found without a search by halves.

ghost use Rattle.std.specs.Prelude.{◌≡◌, ◌++◌, ◌<◌, ◌≤◌, ◌==◌, ℕ, IfOk, OnOk, length, replicate, slice_index_or};
ghost use Rattle.std.specs.List.{AllPairs, position};
ghost use Rattle.dwarf_types.specs.PlaceSteps.{IsTable};
ghost use Rattle.dwarf_types.specs.Raw.{places_of};

use crate::entries::RawEntries;
use ds_base::NoMemory;
use std::alloc::Global;
use std::marker::Model;

/// So many bytes of `__debug_info` share a step of the table. They have a few entries.
const STEP: u32 = 32;

/// The steps by which an entry is found at its place. The places stay with the entries, so a look-up takes these too.
/// Contracts see the list of the steps.
#[derive(Drop)]
pub struct PlaceTable {
    /// Of each step, a number of entries that stand before it.
    before: Vec<u32>,
}

impl Model for PlaceTable {
    ghost use Rattle.std.specs.Prelude.{List, ℕ};

    ghost Value = { List ℕ };

    ghost view = { λ t. t.before.items };
}

impl PlaceTable {
    /// The table of entries, each of which stands behind those before it.
    pub fn of(alloc: Global, entries: &RawEntries) -> Result<PlaceTable, NoMemory>
        requires { AllPairs (λ e later. e.place < later.place) entries.now }
        ensures { IfOk result (λ table. IsTable (places_of entries.now) table) }
    {
        let mut before = Vec::new(alloc);
        for i in 0..entries.len() {
            let steps = (entries.place_of(i) / STEP) as usize + 1;
            // The entries before stand at different places below this one.
            add_steps(&mut before, steps, i as u32)?;
        }
        Ok(PlaceTable { before })
    }

    /// The number of the entry at a place, if one stands there. The table is that of the entries.
    pub fn find(&self, entries: &RawEntries, place: u32) -> Option<usize>
        requires { IsTable (places_of entries.now) self.now }
        ensures { result ≡ position (λ p. p == place) (places_of entries.now) }
    {
        let step = (place / STEP) as usize;
        if step >= self.before.len() {
            return None;
        }
        find_from(entries, self.before[step] as usize, place)
    }
}

/// Puts steps that have so many entries before them, until there are enough.
fn add_steps(before: &mut Vec<u32>, enough: usize, count: u32) -> Result<(), NoMemory>
    ensures more { (k : ℕ) × (before.new.items ≡ before.old.items ++ replicate k count) }
    ensures enough { OnOk result (enough ≤ length before.new.items) }
{
    for step in before.len()..enough {
        before.push(count)?;
    }
    Ok(())
}

/// The number of the entry at a place, from a number on, where the entries before stand before that place.
fn find_from(entries: &RawEntries, from: usize, place: u32) -> Option<usize>
    requires rise { AllPairs (λ p later. p < later) (places_of entries.now) }
    requires before { (i : ℕ) → i < from → i < length (places_of entries.now) → slice_index_or (places_of entries.now) i 0 < place }
    ensures { result ≡ position (λ p. p == place) (places_of entries.now) }
{
    for i in from..entries.len() {
        let there = entries.place_of(i);
        if there >= place {
            return if there == place { Some(i) } else { None };
        }
    }
    None
}
