//! Which slice of a file is for a CPU.

ghost use Rattle.std.specs.Prelude.{◌≡◌, ◌<◌, ◌≤◌, ◌^◌, ◌%◌, All, IfSome, length, Some};
ghost use Rattle.std.specs.List.{position};
ghost use Rattle.ds_base.specs.Reading.{Finds, Gives};
ghost use Rattle.universal.specs.Choice.{cut_to, is_for, is_for_cpu, picked};
ghost use Rattle.universal.specs.Records.{IsWithin};

use crate::records::{Slice, header_fault, slices};
use ds_base::macho::CPU_SUBTYPE_MASK;
use ds_base::{Fault, Kind, List, ReadError, cut};
use std::alloc::Global;

/// A CPU type and subtype (mach/machine.h).
#[derive(Clone, Copy)]
pub struct Arch {
    pub cpu: u32,
    pub sub: u32,
}

/// The index, from 0, of the slice for a CPU: of the first one with this type and subtype, else of the first one with
/// this type. The highest byte of a subtype says what the code may do, and isn't compared.
pub fn pick(slices: &List<Slice>, cpu: u32, sub: u32) -> Option<u32>
    requires few { length slices.now < 2 ^ 32 }
    ensures is { result ≡ picked slices.now cpu sub }
    ensures within { IfSome result (λ i. i < length slices.now) }
{
    let slices = slices.as_slice();
    let i = first_for(slices, cpu, sub).or(first_for_cpu(slices, cpu))?;
    Some(i as u32)
}

/// The index of the first slice with this CPU type and subtype.
fn first_for(slices: &[Slice], cpu: u32, sub: u32) -> Option<usize>
    ensures is { result ≡ position (is_for cpu sub) slices.now }
    ensures within { IfSome result (λ i. i < length slices.now) }
{
    slices.iter().position(|slice| slice.cpu == cpu
        && plain_subtype(slice.sub) == plain_subtype(sub))
}

/// The index of the first slice with this CPU type.
fn first_for_cpu(slices: &[Slice], cpu: u32) -> Option<usize>
    ensures is { result ≡ position (is_for_cpu cpu) slices.now }
    ensures within { IfSome result (λ i. i < length slices.now) }
{
    slices.iter().position(|slice| slice.cpu == cpu)
}

/// A subtype without its highest byte.
fn plain_subtype(sub: u32) -> u32
    ensures { result ≡ sub % 2 ^ 24 }
{
    sub & !CPU_SUBTYPE_MASK
}

/// The bytes that a file stands for on a CPU: of a universal file those of the slice that [`pick`] gives, of any other
/// file all of them.
///
/// Faults are those of [`slices`], and `WrongCpu` at 4 in the part `Header` where no slice is for the CPU.
#[tactic(auto, unfolding(crate::specs::Choice::slice_for))]
pub fn slice_for(alloc: Global, arch: Arch, file: &[u8]) -> Result<&[u8], ReadError>
    ensures { Gives (λ bytes. bytes.now) result (Rattle.universal.specs.Choice.slice_for arch file.now) }
{
    let Some(slices) = slices(alloc, file)? else {
        return Ok(file);
    };
    let bytes = cut_slice(file, &slices, arch)?;
    Ok(bytes)
}

/// The same, for a file with these slices.
fn cut_slice<'a>(file: &'a [u8], slices: &List<Slice>, arch: Arch) -> Result<&'a [u8], Fault>
    requires few { length slices.now ≤ 16 }
    requires within { All (IsWithin file.now) slices.now }
    ensures { Finds (λ bytes. bytes.now) result (cut_to arch file.now (Some slices.now)) }
{
    let Some(i) = pick(slices, arch.cpu, arch.sub) else {
        return Err(header_fault(Kind::WrongCpu, 4));
    };
    let slice = slices.as_slice()[i as usize];
    Ok(cut(file, slice.offset as usize, slice.size as usize))
}
