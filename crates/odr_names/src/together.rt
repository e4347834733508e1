//! How many names the objects of a link have together.

ghost use Rattle.std.specs.Prelude.{◌≡◌, ◌<◌, ◌^◌, List as Listed, SomeIff, length};
ghost use Rattle.std.specs.List.{All, sum_by};
ghost use Rattle.odr_names.specs.Joining.{AreAllNames};
ghost use Rattle.type_names.specs.Heads.{Object};
ghost use Rattle.type_names.specs.Names.{names};

use crate::one_object::ObjectNames;
use ds_base::limits::POOLED_ENTRIES;

/// How many names objects have together, where the names of each are made ([`crate::object_names`]); `None` where there
/// are too many for a book.
pub fn names_together(own: &[ObjectNames]) -> Option<u32>
    requires few { length own.now < 2 ^ 16 }
    requires own { (objects : Listed Object) × AreAllNames objects own.now }
    ensures { (objects : Listed Object) → AreAllNames objects own.now → SomeIff result (length (names objects) < 2 ^ 25) (length (names objects)) }
{
    let total = rows_in(own);
    if total >= POOLED_ENTRIES {
        return None;
    }
    Some(total as u32)
}

/// How many rows these objects have together.
fn rows_in(own: &[ObjectNames]) -> usize
    requires few { length own.now < 2 ^ 16 }
    requires each { All (λ one. length one.rows.items < 2 ^ 25) own.now }
    ensures { result ≡ sum_by (λ one. length one.rows.items) own.now }
{
    let mut total = 0;
    for i in 0..own.len() {
        total += own[i].rows.len();
    }
    total
}
