//! How many marks a row has.

ghost use Rattle.std.specs.Prelude.{◌≡◌, ◌≤◌, ◌<◌, ◌^◌, ℕ, false, length, slice_index_or};

use ds_base::BitRow;

/// How many marks of a row are true, of which there are `len`. It tells how much room what is made of them takes.
pub(crate) fn count_marked(row: &BitRow, len: usize) -> usize
    requires few { len ≤ 2 ^ 24 }
    requires all { length row.now ≡ len }
    ensures few { result ≤ len }
    ensures none { result ≡ 0 → (k : ℕ) → k < len → slice_index_or row.now k false ≡ false }
{
    let mut count = 0;
    for i in 0..len {
        if row.get(i as u32) {
            count += 1;
        }
    }
    count
}
