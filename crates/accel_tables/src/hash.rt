//! The hash of a name.

ghost use Rattle.std.specs.Prelude.{◌≡◌};
ghost use Rattle.accel_tables.specs.Hash.{hash_of};

use ds_base::dwarf::DJB_HASH_START;

/// How many hashes there are: they have four bytes.
const HASHES: u64 = 1 << 32;

/// The hash of a name, by the function of Daniel J. Bernstein: `h * 33 + c` for each byte `c`, modulo 2^32, from 5381 on.
pub fn name_hash(name: &[u8]) -> u32
    ensures { result ≡ hash_of name.now }
{
    let mut hash = u64::from(DJB_HASH_START);
    for byte in name {
        hash = (hash * 33 + u64::from(*byte)) % HASHES;
    }
    hash as u32
}
