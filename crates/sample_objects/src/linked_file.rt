//! The file of a linked program.

ghost use Rattle.std.specs.Prelude.{◌≡◌, IfOk, length};
ghost use Rattle.macho_write.specs.Records.{commands_text};
ghost use Rattle.sample_objects.specs.ProgramFile;
ghost use Rattle.sample_objects.specs.ProgramFile.{commands_of, program_bytes};

use crate::symbols::symbols_of;
use ds_base::macho::{MACH_HEADER_64_SIZE, SYMTAB_COMMAND_SIZE};
use ds_base::{Bytes, NoMemory};
use macho_read::Image;
use macho_write::{
    append_header, append_segments, append_symtab, append_uuid, count_uuid, strings_size,
};
use std::alloc::Global;

/// The file of a linked program (mach-o/loader.h, mach-o/nlist.h), as an image says it.
///
/// Its commands are a UUID, if the image has one, a segment for each of the image's, with the records of its own
/// sections, and a symbol table; the symbols follow, and their strings. The file has nothing to load: segments have no
/// bytes in it, and what sections say of their offset and their relocations is the image's. A name of more than 16 bytes
/// stands in full, so that its command isn't read as it was meant. Offsets and sizes have 32 bits; in a file that is
/// longer they keep the lowest.
pub fn program_file(alloc: Global, image: &Image) -> Result<Bytes, NoMemory>
    ensures { IfOk result (λ bytes. bytes ≡ program_bytes image.now) }
{
    let first = first_commands(alloc, image)?;
    let symbols = symbols_of(alloc, &image.symbols)?;
    let count = count_commands(image);
    let size = first.len() as u128 + u128::from(SYMTAB_COMMAND_SIZE);
    let place = u128::from(MACH_HEADER_64_SIZE) + size;
    let mut out = Bytes::new(alloc);
    append_header(&mut out, image.cpu, image.sub, image.filetype, count, size)?;
    out.extend(first.as_slice())?;
    append_symtab(
        &mut out,
        place,
        image.symbols.len() as u64,
        strings_size(&image.symbols, true),
    )?;
    out.extend(symbols.as_slice())?;
    Ok(out)
}

/// How many commands there are.
fn count_commands(image: &Image) -> u128
    ensures { result ≡ length (commands_of image.now) }
{
    count_uuid(&image.uuid) + image.segments.len() as u128 + 1
}

/// The commands but that of the symbol table.
fn first_commands(alloc: Global, image: &Image) -> Result<Bytes, NoMemory>
    ensures { IfOk result (λ commands. commands ≡ commands_text (ProgramFile.first_commands image.now)) }
{
    let mut out = Bytes::new(alloc);
    append_uuid(&mut out, &image.uuid)?;
    append_segments(
        alloc,
        &mut out,
        image.segments.as_slice(),
        image.sections.as_slice(),
        true,
    )?;
    Ok(out)
}
