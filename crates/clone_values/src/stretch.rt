//! Stretches of operations that are written byte for byte.

ghost use Rattle.std.specs.Prelude.{◌≡◌, [], ◌++◌, IfOk, OnOk};
ghost use Rattle.std.specs.Option.{unwrap_or};
ghost use Rattle.byteorder.specs.Endian.{little_bytes};
ghost use Rattle.clone_values.specs.Cut.{HasMoved, bytes_moved};

use byteorder::{ByteOrder, LittleEndian};
use ds_base::{Bytes, NoMemory};
use dwarf_types::Place;
use std::alloc::Global;

/// A stretch, or a new one, with an operation more: byte for byte, but for an address, which is the moved one.
pub(crate) fn longer_stretch(
    alloc: Global,
    stretch: Option<Bytes>,
    code: u8,
    bytes: &[u8],
    address: Option<Place>,
) -> Result<Bytes, NoMemory>
    requires moved { HasMoved address }
    ensures { IfOk result (λ it. it ≡ unwrap_or stretch [] ++ bytes_moved code bytes.now address) }
{
    let mut longer = match stretch {
        Some(bytes) => bytes,
        None => Bytes::new(alloc),
    };
    add_moved(&mut longer, code, bytes, address)?;
    Ok(longer)
}

/// Puts an operation behind a stretch.
fn add_moved(
    stretch: &mut Bytes,
    code: u8,
    bytes: &[u8],
    address: Option<Place>,
) -> Result<(), NoMemory>
    requires moved { HasMoved address }
    ensures { OnOk result (stretch.new ≡ stretch.old ++ bytes_moved code bytes.now address) }
{
    let Some(place) = address else {
        stretch.extend(bytes)?;
        return Ok(());
    };
    let Some(linked) = place.linked else {
        unreachable!()
    };
    stretch.push(code)?;
    add_address(stretch, linked)?;
    Ok(())
}

/// Puts an address of eight bytes behind a stretch, the lowest byte first.
fn add_address(stretch: &mut Bytes, address: u64) -> Result<(), NoMemory>
    ensures { OnOk result (stretch.new ≡ stretch.old ++ little_bytes 8 address) }
{
    let mut bytes = [0; 8];
    LittleEndian::write_u64(&mut bytes, address);
    stretch.extend(&bytes)?;
    Ok(())
}
