//! Where the texts of a string table end.

ghost use Rattle.std.specs.Prelude.{◌≡◌, ◌^◌, ◌<◌, ◌≤◌, length, nat_lt, true, false, IfOk};
ghost use Rattle.std.specs.List.Sorted.{IsPartitionPoint, IsPartitionedBy};
ghost use Rattle.macho_read.specs.Ends.{first_from, zeros_from};

use ds_base::NoMemory;
use memchr::memchr_iter;
use std::alloc::Global;

/// The places of the zero bytes, in order.
pub(crate) fn zeros_in(alloc: Global, strings: &[u8]) -> Result<Vec<u32>, NoMemory>
    requires { length strings.now < 2 ^ 32 }
    ensures { IfOk result (λ zeros. zeros.items ≡ zeros_from 0 strings.now) }
{
    let mut zeros = Vec::new(alloc);
    for place in memchr_iter(0, strings) {
        zeros.push(place as u32)?;
    }
    Ok(zeros)
}

/// The first zero byte that is not before a place, by the places of all of them. `near` tells which it may be, and then which
/// the next one may be: names mostly stand in the order of their symbols.
pub(crate) fn zero_from(zeros: &[u32], near: &mut usize, place: u32) -> Option<u32>
    requires { IsPartitionedBy (λ z. nat_lt z place) zeros.now }
    ensures { result ≡ first_from zeros.now place }
{
    let i = first_index(zeros, *near, place);
    if i == zeros.len() {
        return None;
    }
    *near = i + 1;
    Some(zeros[i])
}

/// How many of the places, which rise, are before another: as many as `near`, or they are searched.
fn first_index(zeros: &[u32], near: usize, place: u32) -> usize
    requires { IsPartitionedBy (λ z. nat_lt z place) zeros.now }
    ensures within { result ≤ length zeros.now }
    ensures before { IsPartitionPoint (λ z. nat_lt z place ≡ true) (λ z. nat_lt z place ≡ false) zeros.now result }
{
    if is_first(zeros, near, place) {
        return near;
    }
    count_before(zeros, place)
}

/// Whether a place, one of those that rise, is the first that is not before another.
fn is_first(zeros: &[u32], i: usize, place: u32) -> bool
    requires { IsPartitionedBy (λ z. nat_lt z place) zeros.now }
    ensures within { result ≡ true → i < length zeros.now }
    ensures before { result ≡ true → IsPartitionPoint (λ z. nat_lt z place ≡ true) (λ z. nat_lt z place ≡ false) zeros.now i }
{
    if i >= zeros.len() {
        return false;
    }
    if zeros[i] < place {
        return false;
    }
    i == 0 || zeros[i - 1] < place
}

/// How many of the places, which rise, are before another.
fn count_before(zeros: &[u32], place: u32) -> usize
    requires { IsPartitionedBy (λ z. nat_lt z place) zeros.now }
    ensures within { result ≤ length zeros.now }
    ensures before { IsPartitionPoint (λ z. nat_lt z place ≡ true) (λ z. nat_lt z place ≡ false) zeros.now result }
{
    zeros.partition_point(|zero| *zero < place)
}
