//! Which functions of an object were linked, and where.

ghost use Rattle.std.specs.Prelude.{◌≡◌, ◌<◌, ◌≤◌, ◌++◌, ◌∷◌, [], IfOk, OnOk, if◌then◌else◌};
ghost use Rattle.std.specs.List.{All};
ghost use Rattle.sample_objects.specs.GeneratedProgram;
ghost use Rattle.sample_objects.specs.GeneratedProgram.{is_linked, linked_numbers};

use crate::program::{CODE_START, OBJECT_STRIDE};
use crate::unit::{FUNCTION_SIZE, STRUCTURES};
use ds_base::{List, NoMemory};
use std::alloc::Global;

/// The numbers of the functions that were linked.
pub(crate) fn linked_functions(alloc: Global) -> Result<List<u32>, NoMemory>
    ensures numbers { IfOk result (λ numbers. numbers ≡ linked_numbers) }
    ensures each { IfOk result (All (λ j. j < 100)) }
{
    let mut numbers = List::new(alloc);
    for j in 0..STRUCTURES {
        add_if_linked(&mut numbers, j)?;
    }
    Ok(numbers)
}

/// Puts the number of a function last, if that was linked.
fn add_if_linked(numbers: &mut List<u32>, j: u32) -> Result<(), NoMemory>
    ensures { OnOk result (numbers.new ≡ numbers.old ++ (if is_linked j then j ∷ [] else [])) }
{
    if j % 4 == 3 {
        return Ok(());
    }
    numbers.push(j)
}

/// The address at which function `j` of object `i` was linked.
pub(crate) fn linked_at(i: u32, j: u32) -> u64
    requires object { i ≤ 1000 }
    requires number { j < 100 }
    ensures { result ≡ GeneratedProgram.linked_at i j }
{
    CODE_START + OBJECT_STRIDE * u64::from(i) + u64::from(FUNCTION_SIZE * j)
}
