//! Results in the order of their items.
ghost use Rattle.std.specs.Prelude.{◌≡◌, ℕ, ◌<◌, ◌≤◌, replicate, IfOk, None};
ghost use Rattle.std.specs.List.{All};
ghost use Rattle.work_share.specs.Numbers.{times};
ghost use Rattle.work_share.specs.Worked.{items_of, InPlaces, InOrder};

use crate::done::Done;
use ds_base::{List, NoMemory};
use std::alloc::Global;

/// The results of the items below `count`, in their order.
pub fn in_order<O: Drop>(alloc: Global, count: u32, done: Vec<Done<O>>) -> Result<List<O>, NoMemory>
    requires inside { All (λ d. d.item < count) done.items }
    requires each { (x : ℕ) → x < count → 1 ≤ times x (items_of done.items) }
    ensures { IfOk result (λ outs. InOrder count done.items outs) }
{
    let slots = in_places(alloc, count, done)?;
    let mut outs = Vec::with_capacity(alloc, slots.len())?;
    for slot in slots {
        let Some(out) = slot else { unreachable!() };
        outs.push(out)?;
    }
    Ok(List::from_vec(outs))
}

/// The results, each in the place of its item, among so many places.
pub(crate) fn in_places<O: Drop>(
    alloc: Global,
    count: u32,
    done: Vec<Done<O>>,
) -> Result<Vec<Option<O>>, NoMemory>
    requires { All (λ d. d.item < count) done.items }
    ensures { IfOk result (λ slots. InPlaces count done.items slots.items) }
{
    let mut slots = places(alloc, count)?;
    for one in done {
        slots[one.item as usize] = Some(one.out);
    }
    Ok(slots)
}

/// So many empty places.
fn places<O: Drop>(alloc: Global, count: u32) -> Result<Vec<Option<O>>, NoMemory>
    ensures { IfOk result (λ slots. slots.items ≡ replicate count None) }
{
    let mut slots = Vec::with_capacity(alloc, count as usize)?;
    for _ in 0..count {
        slots.push(None)?;
    }
    Ok(slots)
}
