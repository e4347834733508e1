//! What a link counts. All of it fits 64 bits.

ghost use Rattle.std.specs.Prelude.{◌≡◌, ◌<◌, ◌^◌, length};
ghost use Rattle.std.specs.List.{All, filter, sum_by};
ghost use Rattle.dwarf_types.specs.LinkedShape.{AreMarked};
ghost use Rattle.dwarf_types.specs.Sound.{IsSound};

use ds_base::BitRow;
use dwarf_types::Analysis;
use unit_draft::Draft;

/// The entries of all objects.
pub fn count_entries(seen: &[Analysis]) -> u64
    requires sound { All IsSound seen.now }
    requires few { length seen.now < 2 ^ 16 }
    ensures { result ≡ sum_by (λ object. length object.entries) seen.now }
{
    let mut n: u64 = 0;
    for object in seen {
        n += object.entries.len() as u64;
    }
    n
}

/// The live entries of all objects.
pub fn count_live(seen: &[Analysis], marks: &[BitRow]) -> u64
    requires marked { AreMarked seen.now marks.now }
    requires sound { All IsSound seen.now }
    requires few { length seen.now < 2 ^ 16 }
    ensures { result ≡ sum_by (λ row. length (filter (λ b. b) row)) marks.now }
{
    let mut n: u64 = 0;
    for (i, row) in marks.iter().enumerate() {
        n += u64::from(count_marks(row, seen[i].entries.len() as u32));
    }
    n
}

/// The marks of a row of this length.
pub fn count_marks(row: &BitRow, size: u32) -> u32
    requires { size ≡ length row.now }
    ensures { result ≡ length (filter (λ b. b) row.now) }
{
    let mut n = 0;
    for k in 0..size {
        if row.get(k) {
            n += 1;
        }
    }
    n
}

/// The nodes of all drafts.
pub fn count_nodes(drafts: &[Draft]) -> u64
    requires few { sum_by (λ draft. length draft.places) drafts.now < 2 ^ 64 }
    ensures { result ≡ sum_by (λ draft. length draft.places) drafts.now }
{
    let mut n: u64 = 0;
    for draft in drafts {
        n += draft.places.len() as u64;
    }
    n
}
