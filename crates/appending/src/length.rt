//! Lengths and offsets of the 32-bit format (DWARF 4, section 7.4), which have four bytes.

ghost use Rattle.std.specs.Prelude.{◌≡◌, ◌+◌, ◌-◌, ◌≤◌, ◌++◌, length, replicate, IfOk, OnOk, OnErr};
ghost use Rattle.byteorder.specs.Endian.{little_bytes};
ghost use Rattle.ds_base.specs.Room.{put};

use ds_base::{Bytes, NoMemory, put_bytes};

/// How many bytes a length has, or an offset.
const LENGTH_SIZE: usize = 4;

/// Puts a length or an offset last; of a greater number than four bytes hold, the lowest four.
pub fn append_offset(out: &mut Bytes, n: usize) -> Result<(), NoMemory>
    ensures ok { OnOk result (out.new ≡ out.old ++ little_bytes 4 n) }
    ensures unchanged { OnErr result (out.new ≡ out.old) }
{
    let bytes = (n as u64).to_le_bytes();
    out.extend(&bytes[..LENGTH_SIZE])?;
    Ok(())
}

/// Puts the field of a length last, which is zero until [`close_length`] fills it in, and answers its place.
pub fn open_length(out: &mut Bytes) -> Result<usize, NoMemory>
    ensures opened { OnOk result (out.new ≡ out.old ++ replicate 4 0) }
    ensures place { IfOk result (λ at. at ≡ length out.old) }
    ensures unchanged { OnErr result (out.new ≡ out.old) }
{
    let at = out.len();
    out.extend(&[0; LENGTH_SIZE])?;
    Ok(at)
}

/// Fills in the field of a length at a place: it counts the bytes behind it, and holds the four lowest bytes of their
/// count.
pub fn close_length(out: &mut Bytes, at: usize)
    requires fits { at + 4 ≤ length out.old }
    ensures { out.new ≡ put out.old at (little_bytes 4 (length out.old - at - 4)) }
{
    let behind = out.len() - at - LENGTH_SIZE;
    put_lowest(out.as_mut_slice(), at, behind as u64);
}

/// Writes the four lowest bytes of a number at a place.
fn put_lowest(room: &mut [u8], at: usize, n: u64)
    requires fits { at + 4 ≤ length room.old }
    ensures { room.new ≡ put room.old at (little_bytes 4 n) }
{
    let bytes = n.to_le_bytes();
    put_bytes(room, at, &bytes[..LENGTH_SIZE]);
}
