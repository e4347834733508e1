//! The numbers of rows by entry.

ghost use Rattle.std.specs.Prelude.{◌≡◌, ◌<◌, ◌^◌, [], ◌∷◌, ◌++◌, length, slice_index_or, None, IfOk, IfSome, OnOk};
ghost use Rattle.odr_names.specs.Entering.{number_held};

use ds_base::NoMemory;
use std::alloc::Global;
use std::marker::Model;

/// Of each entry, the number of its row, which contracts see as the list of them. An entry may have none.
#[derive(Drop)]
pub(crate) struct RowNumbers {
    /// One more than the number; 0 where there is none.
    held: Vec<u32>,
}

impl Model for RowNumbers {
    ghost use Rattle.std.specs.Prelude.{List, Option, map, ℕ};
    ghost use Rattle.odr_names.specs.Entering.{number_held};

    ghost Value = { List (Option ℕ) };

    ghost view = { λ a. map number_held a.held.items };
}

impl RowNumbers {
    /// None, and room for those of so many entries.
    pub(crate) fn with_capacity(alloc: Global, count: usize) -> Result<RowNumbers, NoMemory>
        ensures { IfOk result (λ numbers. numbers ≡ []) }
    {
        Ok(RowNumbers {
            held: Vec::with_capacity(alloc, count)?,
        })
    }

    /// That of one entry more.
    pub(crate) fn push(&mut self, number: Option<u32>) -> Result<(), NoMemory>
        requires { IfSome number (λ x. x < 2 ^ 25) }
        ensures { OnOk result (self.new ≡ self.old ++ number ∷ []) }
    {
        self.held.push(to_hold(number))?;
        Ok(())
    }

    /// That of an entry.
    pub(crate) fn get(&self, k: u32) -> Option<u32>
        requires { k < length self.now }
        ensures { result ≡ slice_index_or self.now k None }
    {
        number_at(&self.held, k)
    }
}

/// What is held of a number.
fn to_hold(number: Option<u32>) -> u32
    requires { IfSome number (λ x. x < 2 ^ 25) }
    ensures { number_held result ≡ number }
{
    match number {
        Some(x) => x + 1,
        None => 0,
    }
}

/// The number that is held at a place.
fn number_at(held: &[u32], k: u32) -> Option<u32>
    requires { k < length held.now }
    ensures { result ≡ number_held (slice_index_or held.now k 0) }
{
    number_held(held[k as usize])
}

/// The number of which this is held.
fn number_held(held: u32) -> Option<u32>
    ensures { result ≡ number_held held }
{
    if held == 0 { None } else { Some(held - 1) }
}
