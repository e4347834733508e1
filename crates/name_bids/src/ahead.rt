//! Several names looked at together, before they are placed.
//!
//! For each of them the cell where it is looked for first, then the row of the name that stands there, and then the paths
//! of the two: so memory's waits for what is of one kind lie beside each other.

ghost use Rattle.std.specs.Prelude.{◌≡◌, ℕ, ◌+◌, ◌-◌, ◌^◌, ◌<◌, ◌≤◌, List, length, slice_get, IfSome, Some};
ghost use Rattle.std.specs.Vec.{vec_capacity};
ghost use Rattle.odr_names.specs.Known.{AreKnown};
ghost use Rattle.odr_names.specs.Numbered.{SamePath};
ghost use Rattle.type_pool.specs.Seats.{Belongs};
ghost use Rattle.name_bids.specs.Ahead.{IsAhead, IsEqualAhead};
ghost use Rattle.name_bids.specs.Bids.{HasBid};
ghost use Rattle.name_bids.specs.Noting.{AreCellsFrom, cell_in};
ghost use Rattle.name_bids.specs.Sharing.{seat_view};

use crate::bidding::noted_cell;
use odr_names::{KnownBook, PathBook, have_one_hash};
use pool_core::NameBook;
use type_pool::{Pool, PoolSeat};

/// How many names are looked at together.
pub(crate) const TOGETHER: u32 = 16;

/// Puts for each of these names the one that stands in its first cell, as it is noted: one more than its number, or 0 where
/// none was seen there.
pub(crate) fn look_ahead(
    pool: &Pool,
    seat: &mut PoolSeat,
    names: &PathBook,
    from: u32,
    to: u32,
    seen: &mut Vec<u32>,
)
    requires belongs { Belongs pool.now seat.old }
    requires book { length names.now ≡ pool.now.names }
    requires range { (from ≤ to) × (to ≤ length names.now) × (length names.now < 2 ^ 25) }
    requires room { to - from ≤ vec_capacity seen.old }
    ensures bid { HasBid names.now pool.now.cells (seat_view seat.old) (seat_view seat.new) (λ x. ⊥) }
    ensures share { (seat_view seat.new).share ≡ (seat_view seat.old).share }
    ensures belongs { Belongs pool.now seat.new }
    ensures ahead { AreCellsFrom (length names.now) (IsAhead names.now pool.now.cells (seat_view seat.new).notes) from seen.new.items }
    ensures len { from + length seen.new.items ≡ to }
    ensures capacity { vec_capacity seen.new ≡ vec_capacity seen.old }
{
    seen.clear();
    for x in from..to {
        seen.push_reserved(noted_name(pool.look_ahead(seat, names, x)));
    }
}

/// A name as it is noted.
fn noted_name(name: Option<u32>) -> u32
    requires { IfSome name (λ x. x < 2 ^ 25) }
    ensures { cell_in result ≡ name }
{
    match name {
        Some(x) => x + 1,
        None => 0,
    }
}

/// Puts what was seen of each of these names but those whose paths have other hashes.
pub(crate) fn leave_others(names: &PathBook, from: u32, seen: &[u32], likely: &mut Vec<u32>)
    requires within { (from + length seen.now ≤ length names.now) × (length names.now < 2 ^ 25) }
    requires names { (i word : ℕ) → slice_get seen.now i ≡ Some word → IfSome (cell_in word) (λ name. name < length names.now) }
    requires room { length seen.now ≤ vec_capacity likely.old }
    ensures ahead { (cells : ℕ) (notes : List (ℕ × ℕ)) → AreCellsFrom (length names.now) (IsAhead names.now cells notes) from seen.now
        → AreCellsFrom (length names.now) (IsAhead names.now cells notes) from likely.new.items }
    ensures len { length likely.new.items ≡ length seen.now }
    ensures capacity { vec_capacity likely.new ≡ vec_capacity likely.old }
{
    likely.clear();
    for i in 0..seen.len() {
        likely.push_reserved(likely_name(names, from + i as u32, seen[i]));
    }
}

/// The name that was seen, where its path has the hash of that of `x`.
fn likely_name(names: &PathBook, x: u32, word: u32) -> u32
    requires within { x < length names.now }
    requires name { IfSome (cell_in word) (λ name. name < length names.now) }
    ensures { (cells : ℕ) (notes : List (ℕ × ℕ)) → IsAhead names.now cells notes x (cell_in word) → IsAhead names.now cells notes x (cell_in result) }
{
    match noted_cell(word) {
        Some(name) if have_one_hash(names, name, x) => word,
        _ => 0,
    }
}

/// Puts behind the `known` ones what was seen of the names behind theirs, where the paths are equal.
pub(crate) fn keep_equal(names: &PathBook, first: u32, likely: &[u32], known: &mut Vec<u32>)
    requires within { (first + length known.old.items + length likely.now ≤ length names.now) × (length names.now < 2 ^ 25) }
    requires room { length known.old.items + length likely.now ≤ vec_capacity known.old }
    requires known { AreKnown names.now first known.old.items }
    requires names { (i word : ℕ) → slice_get likely.now i ≡ Some word → IfSome (cell_in word) (λ name. name < length names.now) }
    ensures ahead { (cells : ℕ) (notes : List (ℕ × ℕ)) → AreCellsFrom (length names.now) (IsAhead names.now cells notes) (first + length known.old.items) likely.now
        → AreCellsFrom (length names.now) (IsEqualAhead names.now cells notes) first known.old.items
        → AreCellsFrom (length names.now) (IsEqualAhead names.now cells notes) first known.new.items }
    ensures len { length known.new.items ≡ length known.old.items + length likely.now }
    ensures capacity { vec_capacity known.new ≡ vec_capacity known.old }
{
    let from = first + known.len() as u32;
    for i in 0..likely.len() {
        let x = from + i as u32;
        let word = equal_name(names, first, known, x, likely[i]);
        known.push_reserved(word);
    }
}

/// The name that was seen, where it has the path of `x`.
fn equal_name(names: &PathBook, first: u32, known: &[u32], x: u32, word: u32) -> u32
    requires within { x < length names.now }
    requires name { IfSome (cell_in word) (λ name. name < length names.now) }
    requires known { AreKnown names.now first known.now }
    ensures same { (name : ℕ) → cell_in result ≡ Some name → SamePath names.now name x }
    ensures ahead { (cells : ℕ) (notes : List (ℕ × ℕ)) → IsAhead names.now cells notes x (cell_in word) → IsEqualAhead names.now cells notes x (cell_in result) }
{
    let Some(name) = noted_cell(word) else {
        return 0;
    };
    let book = KnownBook {
        names,
        first,
        words: known,
    };
    if book.equal(name, x) { word } else { 0 }
}
