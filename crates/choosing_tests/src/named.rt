//! The names of an object and their winners, by the calls.
//!
//! What two objects share, which entries have no name, and the shape of what is linked is shown in
//! `proofs/WorkedLinks.antt`, over the definitions that the contracts of `odr_names` and `link_graph` cite.

ghost use Rattle.dwarf_types.specs.Sound.{IsSound};
ghost use Rattle.odr_names.specs.Making.{IsLiveRow};

use crate::live::live_row;
use crate::rows::{analysis_in, structure, user};
use ds_base::BitRow;
use ds_base::dwarf::DW_LANG_C_plus_plus;
use dwarf_types::Analysis;
use odr_names::{PathBook, book, count, winners_plain};
use std::alloc::Global;
use std::process::Abort;
use std::slice::from_ref;

/// The one name of the object has a winner.
fn has_winner(rt: &impl Abort, alloc: Global, seen: &Analysis, live: &BitRow)
    requires sound { IsSound seen.now }
    requires live { IsLiveRow seen.now.entries live.now }
{
    let (seen, live) = (from_ref(seen), from_ref(live));
    let book = book(alloc, seen, live, true).expect(rt, "a book");
    let counts = (count(&book), count_winners(rt, alloc, &book));
    drop(book);
    assert!(rt; counts == (1, 1));
}

/// How many names of a book have a winner.
fn count_winners(rt: &impl Abort, alloc: Global, book: &PathBook) -> usize {
    let winners = winners_plain(alloc, book).expect(rt, "memory");
    winners.len()
}

#[test]
fn a_structure_of_an_object_has_a_name(rt: HostRuntime) {
    let a = rt.alloc();
    let rows = [user(2), structure(b"A")];
    let seen = analysis_in(&rt, a, DW_LANG_C_plus_plus, &rows);
    let live = live_row(&rt, a, &seen);
    has_winner(&rt, a, &seen, &live);
    drop(live);
    drop(seen);
}
