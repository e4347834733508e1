//! Files opened for a program: of a universal one the slice that is for it.

ghost use Rattle.std.specs.Prelude.{◌≡◌, ◌<◌, ◌^◌, IfOk, length};
ghost use Rattle.std.specs.List.{All};
ghost use Rattle.object_reads.specs.Opening.{AreOpened, opened_as};
ghost use Rattle.universal.specs.Choice.{slice_for as bytes_for};

use crate::opened::{Opened, ThinFile};
use ar_read::read_members;
use ds_base::{Bytes, List, NoMemory, ReadError};
use std::alloc::Global;
use universal::{Arch, slice_for};

/// Each file, opened for programs of this CPU type and subtype. Archives are walked once.
pub(crate) fn open_files<'a>(
    alloc: Global,
    arch: Arch,
    files: &'a [Bytes],
) -> Result<List<Opened<'a>>, NoMemory>
    requires small { All (λ file. length file < 2 ^ 32) files.now }
    ensures { IfOk result (λ opened. AreOpened arch files.now opened) }
{
    let mut opened = List::new(alloc);
    for file in files {
        let one = open_file(alloc, arch, file.as_slice())?;
        opened.push(one)?;
    }
    Ok(opened)
}

/// A file, opened for programs of this CPU type and subtype.
fn open_file<'a>(alloc: Global, arch: Arch, file: &'a [u8]) -> Result<Opened<'a>, NoMemory>
    requires small { length file.now < 2 ^ 32 }
    ensures { IfOk result (λ opened. opened_as opened ≡ bytes_for arch file.now) }
{
    match slice_for(alloc, arch, file) {
        Ok(bytes) => {
            let members = read_members(alloc, bytes)?;
            Ok(Opened::Thin(ThinFile { bytes, members }))
        }
        Err(ReadError::Faulty(fault)) => Ok(Opened::Refused(fault)),
        Err(ReadError::NoMemory) => Err(NoMemory),
    }
}
