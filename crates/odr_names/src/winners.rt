//! Which name wins each path.

ghost use Rattle.std.specs.Prelude.{◌≡◌, ◌<◌, ◌≤◌, ◌^◌, ◌↔◌, ℕ, [], ◌∷◌, ◌++◌, length, slice_get, slice_index_or, Some, IfOk, IfSome, OnOk, OnErr};
ghost use Rattle.std.specs.List.{All};
ghost use Rattle.std.specs.List.Sorted.{IsPermutation};
ghost use Rattle.odr_names.specs.Numbered.{SamePath, path_at};
ghost use Rattle.odr_names.specs.PathOrder.{rank_order};
ghost use Rattle.odr_names.specs.Ranking.{AreFound, AreInOrder, AreOthersKept, AreRanked, AreRanksOf, IsAmong, IsRank};
ghost use Rattle.odr_names.specs.Winners.{ArePut, AreWholePaths, AreWinners, IsWinner};
ghost use Rattle.odr_names.specs.declared.winners.Ranked.{Ranked as RankedAs};

use crate::path_book::{PathBook, count, number, path_equal, rank_hash_at};
use crate::path_order::path_cmp;
use ds_base::NoMemory;
use std::alloc::Global;
use std::cmp::Ordering;

/// A name by a hash of its path and its bid.
#[derive(Clone, Copy)]
pub(crate) struct Ranked {
    pub(crate) hash: u64,
    pub(crate) bid: u64,
    pub(crate) name: u32,
}

/// Of each name, the one that wins its path.
///
/// In the order by hash, path and bid the names of one path stand behind one another, the winner before all others. So
/// the time is n log n comparisons at most, whatever hashes the names were made to have. The hash is a finer one than
/// that by which a table is searched ([`crate::path_start`]): it takes in the object and the entry of a
/// [`crate::piece::Private`] (`specs/Innermost.antt`), so paths are seldom compared that differ.
pub fn winners_plain(alloc: Global, names: &PathBook) -> Result<Vec<u32>, NoMemory>
    ensures { IfOk result (λ winners. AreWinners names.now winners.items) }
{
    let mut ranks = ranks_of(alloc, names)?;
    sort_ranks(names, &mut ranks);
    let mut winners = vec![in alloc; 0; count(names) as usize]?;
    rank_winners(names, &ranks, &mut winners);
    Ok(winners)
}

/// Puts the winner of each of these names in its place. All names of a path are among them, or none. Where memory runs out
/// nothing has changed.
pub fn put_winners(
    alloc: Global,
    names: &PathBook,
    some: &[u32],
    winners: &mut Vec<u32>,
) -> Result<(), NoMemory>
    requires inside { All (λ x. x < length names.now) some.now }
    requires whole { AreWholePaths names.now some.now }
    requires len { length winners.old.items ≡ length names.now }
    ensures put { OnOk result (ArePut names.now some.now winners.old.items winners.new.items) }
    ensures unchanged { OnErr result (winners.new ≡ winners.old) }
{
    let mut ranks = ranks_among(alloc, names, some)?;
    sort_ranks(names, &mut ranks);
    rank_winners(names, &ranks, winners);
    Ok(())
}

/// The ranks of all names, as they stand.
fn ranks_of(alloc: Global, names: &PathBook) -> Result<Vec<Ranked>, NoMemory>
    ensures ranked { IfOk result (λ ranks. AreRanked names.now ranks.items) }
    ensures all { IfOk result (λ ranks. (x : ℕ) → x < length names.now → IsAmong ranks.items x) }
{
    let mut ranks = Vec::with_capacity(alloc, count(names) as usize)?;
    for x in 0..count(names) {
        ranks.push(rank_of(names, x))?;
    }
    Ok(ranks)
}

/// The ranks of some names, as they stand.
fn ranks_among(alloc: Global, names: &PathBook, some: &[u32]) -> Result<Vec<Ranked>, NoMemory>
    requires inside { All (λ x. x < length names.now) some.now }
    ensures { IfOk result (λ ranks. AreRanksOf names.now some.now ranks.items (length some.now)) }
{
    let mut ranks = Vec::with_capacity(alloc, some.len())?;
    for i in 0..some.len() {
        ranks.push(rank_of(names, some[i]))?;
    }
    Ok(ranks)
}

/// The rank of a name.
fn rank_of(names: &PathBook, x: u32) -> Ranked
    requires { x < length names.now }
    ensures name { result.name ≡ x }
    ensures rank { IsRank names.now result }
{
    Ranked {
        hash: rank_hash_at(names, x),
        bid: number(names, x),
        name: x,
    }
}

/// Puts ranks in order: by hash, then by path, and then by bid.
fn sort_ranks(names: &PathBook, ranks: &mut Vec<Ranked>)
    ensures same { IsPermutation ranks.old.items ranks.new.items }
    ensures order { AreInOrder names.now ranks.new.items }
{
    ranks.sort_unstable_by(|a, b| rank_cmp(names, a, b));
}

/// How two ranks stand in that order. Paths are looked at only where hashes agree.
fn rank_cmp(names: &PathBook, a: &Ranked, b: &Ranked) -> Ordering
    ensures { result ≡ rank_order names.now a.now b.now }
{
    match a.hash.cmp(&b.hash) {
        Ordering::Less => Ordering::Less,
        Ordering::Equal => path_cmp(names, a.name, b.name).then(a.bid.cmp(&b.bid)),
        Ordering::Greater => Ordering::Greater,
    }
}

/// Puts the winners in their places, rank by rank.
fn rank_winners(names: &PathBook, ranks: &[Ranked], winners: &mut Vec<u32>)
    requires ranked { AreRanked names.now ranks.now }
    requires order { AreInOrder names.now ranks.now }
    requires len { length winners.old.items ≡ length names.now }
    ensures found { AreFound names.now ranks.now winners.new.items (length ranks.now) }
    ensures others { AreOthersKept ranks.now winners.old.items winners.new.items }
{
    for i in 0..ranks.len() {
        let winner = winner_at(names, ranks, winners.as_slice(), i);
        winners[ranks[i].name as usize] = winner;
    }
}

/// The winner of the name at rank `i`: that of the rank before it, where that has the same path, or itself.
fn winner_at(names: &PathBook, ranks: &[Ranked], winners: &[u32], i: usize) -> u32
    requires ranked { AreRanked names.now ranks.now }
    requires order { AreInOrder names.now ranks.now }
    requires within { i < length ranks.now }
    requires found { AreFound names.now ranks.now winners.now i }
    ensures { (r : RankedAs) → slice_get ranks.now i ≡ Some r → IsWinner names.now r.name result }
{
    let here = ranks[i];
    if i == 0 {
        return here.name;
    }
    let before = ranks[i - 1];
    if path_equal(names, before.name, here.name) {
        winners[before.name as usize]
    } else {
        here.name
    }
}
