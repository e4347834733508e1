//! The header of a file (mach-o/loader.h, `mach_header_64`).

ghost use Rattle.std.specs.Prelude.{◌≡◌, ◌+◌, ◌≤◌, ◌<◌, ◌^◌, length, IfOk};
ghost use Rattle.ds_base.specs.Reading.{Finds};
ghost use Rattle.macho_read.specs.Header.{header_of};

use crate::fields::u32_at;
use ds_base::macho::{CPU_TYPE_ARM64, CPU_TYPE_X86_64, MACH_HEADER_64_SIZE, MH_MAGIC_64};
use ds_base::{Fault, Kind, Part};

/// What is kept of a header. `ncmds` commands stand in the `sizeofcmds` bytes behind it.
#[derive(Clone, Copy)]
pub(crate) struct Header {
    pub cpu: u32,
    pub sub: u32,
    pub filetype: u32,
    pub ncmds: u32,
    pub sizeofcmds: u32,
}

/// Whether a CPU type is one of the two that are read.
pub(crate) fn is_known_cpu(cpu: u32) -> bool
    ensures { result ≡ Rattle.macho_read.specs.Header.is_known_cpu cpu }
{
    cpu == CPU_TYPE_X86_64 || cpu == CPU_TYPE_ARM64
}

/// A fault at an offset in the header.
pub(crate) fn header_fault(kind: Kind, place: u64) -> Fault
    ensures { result ≡ Rattle.macho_read.specs.Header.header_fault kind place }
{
    Fault {
        kind,
        section: Part::Header,
        place,
    }
}

/// The header of a file whose commands lie in it. Faults are placed in the header, that of commands which
/// pass the file in the commands.
#[tactic(auto, unfolding(crate::specs::Header::header_of))]
pub(crate) fn read_header(bytes: &[u8]) -> Result<Header, Fault>
    ensures read { Finds (λ h. h) result (header_of bytes.now) }
    ensures fits { IfOk result (λ h. 32 + h.sizeofcmds ≤ length bytes.now) }
    ensures small { IfOk result (λ h. h.sizeofcmds < 2 ^ 32) }
{
    let size = MACH_HEADER_64_SIZE as usize;
    if bytes.len() < size {
        return Err(header_fault(Kind::Truncated, 0));
    }
    if u32_at(bytes, 0) != MH_MAGIC_64 {
        return Err(header_fault(Kind::NotMachO, 0));
    }
    let cpu = u32_at(bytes, 4);
    if !is_known_cpu(cpu) {
        return Err(header_fault(Kind::WrongCpu, 4));
    }
    let sizeofcmds = u32_at(bytes, 20);
    if bytes.len() - size < sizeofcmds as usize {
        return Err(Fault {
            kind: Kind::Truncated,
            section: Part::Commands,
            place: u64::from(MACH_HEADER_64_SIZE),
        });
    }
    Ok(Header {
        cpu,
        sub: u32_at(bytes, 8),
        filetype: u32_at(bytes, 12),
        ncmds: u32_at(bytes, 16),
        sizeofcmds,
    })
}
