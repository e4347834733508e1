//! The header and load commands (mach-o/loader.h).

ghost use Rattle.std.specs.Prelude.{◌≡◌, ◌<◌, ◌≤◌, ◌^◌, ◌++◌, OnOk, length};
ghost use Rattle.macho_read.specs.ImageSpelling.{command_of};
ghost use Rattle.macho_read.specs.Spelling.{command_bytes};
ghost use Rattle.macho_write.specs.Records.{commands_text, header_bytes, symbol_table, uuid_command};

use crate::fields::append_words;
use ds_base::macho::{LC_SYMTAB, LC_UUID, MH_MAGIC_64, NLIST_64_SIZE, SYMTAB_COMMAND_SIZE};
use ds_base::{Bytes, NoMemory};

/// The size of what all load commands begin with (`load_command`): the command's number, and its size.
const LOAD_COMMAND_SIZE: u128 = 8;

/// Puts the header of a file last, which has `count` commands of `size` bytes in all (`mach_header_64`).
pub fn append_header(
    out: &mut Bytes,
    cpu: u32,
    sub: u32,
    filetype: u32,
    count: u128,
    size: u128,
) -> Result<(), NoMemory>
    ensures { OnOk result (out.new ≡ out.old ++ header_bytes cpu sub filetype count size) }
{
    append_words(
        out,
        &[
            u128::from(MH_MAGIC_64),
            u128::from(cpu),
            u128::from(sub),
            u128::from(filetype),
            count,
            size,
            0,
            0,
        ],
    )
}

/// Puts a load command last: its number, its size, and its bytes behind them (`load_command`).
pub fn append_command(out: &mut Bytes, number: u32, body: &[u8]) -> Result<(), NoMemory>
    ensures { OnOk result (out.new ≡ out.old ++ command_bytes (record { cmd = number; body = body.now })) }
{
    let size = LOAD_COMMAND_SIZE + body.len() as u128;
    append_words(out, &[u128::from(number), size])?;
    out.extend(body)?;
    Ok(())
}

/// Puts a UUID command last, if there is a UUID (`uuid_command`).
pub fn append_uuid(out: &mut Bytes, uuid: &Option<[u8; 16]>) -> Result<(), NoMemory>
    ensures { OnOk result (out.new ≡ out.old ++ commands_text (uuid_command uuid.now)) }
{
    let Some(bytes) = uuid else {
        return Ok(());
    };
    append_command(out, LC_UUID, bytes)?;
    Ok(())
}

/// How many commands a UUID has: one, if there is a UUID.
pub fn count_uuid(uuid: &Option<[u8; 16]>) -> u128
    ensures count { result ≡ length (uuid_command uuid.now) }
    ensures one { result ≤ 1 }
{
    match uuid {
        Some(_) => 1,
        None => 0,
    }
}

/// Puts the symbol table command last, of `count` symbols at a place of the file, which have `size` bytes of strings
/// behind them (`symtab_command`).
pub fn append_symtab(out: &mut Bytes, place: u128, count: u64, size: u128) -> Result<(), NoMemory>
    requires { place < 2 ^ 127 }
    ensures { OnOk result (out.new ≡ out.old ++ command_bytes (command_of (symbol_table place count size))) }
{
    let count = u128::from(count);
    let strings = place + u128::from(NLIST_64_SIZE) * count;
    append_words(
        out,
        &[
            u128::from(LC_SYMTAB),
            u128::from(SYMTAB_COMMAND_SIZE),
            place,
            count,
            strings,
            size,
        ],
    )?;
    Ok(())
}
