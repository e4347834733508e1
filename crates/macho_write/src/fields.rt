//! Fields of records, put behind bytes, the lowest byte first.

ghost use Rattle.std.specs.Prelude.{◌≡◌, ◌++◌, OnOk};
ghost use Rattle.std.specs.List.{flat_map};
ghost use Rattle.byteorder.specs.Endian.{little_bytes};
ghost use Rattle.macho_read.specs.Spelling.{padded};

use appending::append_u64;
use ds_base::{Bytes, NoMemory, bytes_from};

/// How many bytes a word has.
const WORD_SIZE: usize = 4;

/// What stands behind a name without a byte.
const PADDING: [u8; 16] = [0; 16];

/// Puts a name last, padded with zeros to 16 bytes; a longer one stands in full.
pub(crate) fn append_name(out: &mut Bytes, name: &[u8]) -> Result<(), NoMemory>
    ensures { OnOk result (out.new ≡ out.old ++ padded name.now) }
{
    let len = name.len().min(PADDING.len());
    out.extend(name)?;
    out.extend(bytes_from(&PADDING, len))?;
    Ok(())
}

/// Puts numbers of four bytes last; of a greater number than they hold, the lowest four.
pub fn append_words(out: &mut Bytes, words: &[u128]) -> Result<(), NoMemory>
    ensures { OnOk result (out.new ≡ out.old ++ flat_map (little_bytes 4) words.now) }
{
    for word in words {
        append_word(out, *word)?;
    }
    Ok(())
}

fn append_word(out: &mut Bytes, word: u128) -> Result<(), NoMemory>
    ensures { OnOk result (out.new ≡ out.old ++ little_bytes 4 word) }
{
    let bytes = word.to_le_bytes();
    out.extend(&bytes[..WORD_SIZE])?;
    Ok(())
}

/// Puts numbers of eight bytes last.
pub(crate) fn append_longs(out: &mut Bytes, longs: &[u64]) -> Result<(), NoMemory>
    ensures { OnOk result (out.new ≡ out.old ++ flat_map (little_bytes 8) longs.now) }
{
    for long in longs {
        append_u64(out, *long)?;
    }
    Ok(())
}
