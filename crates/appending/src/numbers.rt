//! Numbers put behind bytes, the lowest byte first, and LEB numbers.

ghost use Rattle.std.specs.Prelude.{◌≡◌, ◌++◌, OnOk, OnErr};
ghost use Rattle.byteorder.specs.Endian.{little_bytes};
ghost use Rattle.ds_base.specs.Leb.{sleb, uleb};

use byteorder::{ByteOrder, LittleEndian};
use ds_base::{Bytes, NoMemory, put_sleb, put_uleb, sleb_len, uleb_len};

/// How many bytes the longest LEB number of 64 bits has.
const MOST_DIGITS: usize = 10;

/// Puts a number of two bytes last.
pub fn append_u16(out: &mut Bytes, n: u16) -> Result<(), NoMemory>
    ensures ok { OnOk result (out.new ≡ out.old ++ little_bytes 2 n) }
    ensures unchanged { OnErr result (out.new ≡ out.old) }
{
    let mut bytes = [0; 2];
    LittleEndian::write_u16(&mut bytes, n);
    out.extend(&bytes)?;
    Ok(())
}

/// Puts a number of four bytes last.
pub fn append_u32(out: &mut Bytes, n: u32) -> Result<(), NoMemory>
    ensures ok { OnOk result (out.new ≡ out.old ++ little_bytes 4 n) }
    ensures unchanged { OnErr result (out.new ≡ out.old) }
{
    let mut bytes = [0; 4];
    LittleEndian::write_u32(&mut bytes, n);
    out.extend(&bytes)?;
    Ok(())
}

/// Puts a number of eight bytes last.
pub fn append_u64(out: &mut Bytes, n: u64) -> Result<(), NoMemory>
    ensures ok { OnOk result (out.new ≡ out.old ++ little_bytes 8 n) }
    ensures unchanged { OnErr result (out.new ≡ out.old) }
{
    let mut bytes = [0; 8];
    LittleEndian::write_u64(&mut bytes, n);
    out.extend(&bytes)?;
    Ok(())
}

/// Puts the shortest LEB number without a sign last (DWARF 4, section 7.6).
pub fn append_uleb(out: &mut Bytes, n: u64) -> Result<(), NoMemory>
    ensures ok { OnOk result (out.new ≡ out.old ++ uleb n) }
    ensures unchanged { OnErr result (out.new ≡ out.old) }
{
    let mut room = [0; MOST_DIGITS];
    put_uleb(&mut room, 0, n);
    out.extend(&room[..uleb_len(n) as usize])?;
    Ok(())
}

/// Puts the shortest LEB number with a sign last (DWARF 4, section 7.6).
pub fn append_sleb(out: &mut Bytes, n: i64) -> Result<(), NoMemory>
    ensures ok { OnOk result (out.new ≡ out.old ++ sleb n) }
    ensures unchanged { OnErr result (out.new ≡ out.old) }
{
    let mut room = [0; MOST_DIGITS];
    put_sleb(&mut room, 0, n);
    out.extend(&room[..sleb_len(n) as usize])?;
    Ok(())
}
