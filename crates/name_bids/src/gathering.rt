//! The book of a link, joined of the names of each of its objects, with a table for its names.

ghost use Rattle.std.specs.Prelude.{◌≡◌, ◌<◌, ◌≤◌, ◌^◌, Err, length, IfOk};
ghost use Rattle.odr_names.specs.declared.book_error.BookError.TheVariants as errors;
ghost use Rattle.odr_names.specs.Numbered.{objects_of};
ghost use Rattle.odr_names.specs.Joining.{AreAllNames};
ghost use Rattle.type_names.specs.Names.{names};
ghost use Rattle.name_bids.specs.Opening.{IsOpenFor};

use crate::opening::{OpenTable, start_table, started_table};
use ds_base::{BitRow, List};
use dwarf_types::Analysis;
use odr_names::{BookError, ObjectNames, PathBook, joined_book, names_together};
use std::alloc::Global;
use std::thread::Threads;

/// The book of the names of a link, with a table that is open for them.
///
/// `own` are the names of each object ([`odr_names::object_names`]), in the order of the objects. The caller joins their
/// rows, while another thread makes the table, where two workers at least are given and a thread can be started. Objects
/// with 2^25 names or more together have no book ([`BookError::Pooled`]).
pub fn joined_names<'a, R: Threads>(
    rt: &R,
    alloc: Global,
    workers: u32,
    seen: &'a [Analysis],
    live: &'a [BitRow],
    own: List<ObjectNames>,
) -> Result<(PathBook<'a>, OpenTable), BookError>
    requires few { length seen.now < 2 ^ 16 }
    requires live { length live.now ≡ length seen.now }
    requires own { AreAllNames (objects_of seen.now live.now) own }
    ensures made { IfOk result (λ r. (r.0 ≡ names (objects_of seen.now live.now)) × (length r.0 < 2 ^ 25)) }
    ensures table { IfOk result (λ r. IsOpenFor r.0 r.1) }
    ensures pooled { result ≡ Err errors.Pooled → 2 ^ 25 ≤ length (names (objects_of seen.now live.now)) }
{
    let Some(total) = names_together(own.as_slice()) else {
        return Err(BookError::Pooled);
    };
    let opening = start_table(rt, alloc, workers, total);
    let book = joined_book(alloc, seen, live, own.into_vec(), total);
    let table = started_table(rt, alloc, total, opening);
    Ok((book?, table?))
}
