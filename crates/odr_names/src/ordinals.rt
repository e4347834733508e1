//! Ordinals of pieces: how many earlier siblings have the same parts.

ghost use Rattle.std.specs.Prelude.{◌≡◌, ◌≤◌, ◌<◌, ◌^◌, ◌↔◌, ℕ, true, false, length, slice_get, slice_index_or, Some, None, IfOk, IfSome, IsTrue, OnOk, ◌+◌, if◌then◌else◌};
ghost use Rattle.std.specs.Option.{option_and_then};
ghost use Rattle.dwarf_types.specs.declared.entry.Entry.{Entry as AnEntry};
ghost use Rattle.dwarf_types.specs.Tree.{ParentsStandBefore};
ghost use Rattle.odr_names.specs.Pieces.{IsSpelled, parts_seen};
ghost use Rattle.odr_names.specs.Twins.{AreChained, AreCounted, AreSiblings, AreTwins, IsRankOf, IsSibling, cell_of, parts_hash, tell_alone, twins_before, wants_ordinal};
ghost use Rattle.odr_names.specs.declared.ordinals.Sibling.{Sibling as ASibling};
ghost use Rattle.type_names.specs.Heads.{is_in_head, is_pooled};
ghost use Rattle.type_names.specs.Objects.{object_of};
ghost use Rattle.type_names.specs.Paths.{ordinal_of, parts_of};
ghost use Rattle.type_names.specs.Pooled.{AreNames};
ghost use Rattle.type_names.specs.Tree.{parent_of};

use crate::hash::hash_piece;
use crate::marks::count_marked;
use crate::piece::{PartsRef, PieceRef, parts_at, parts_equal};
use crate::twin_table::counts_by_order;
use ds_base::dwarf::{DW_TAG_namespace, DW_TAG_subprogram};
use ds_base::{BitRow, NoMemory};
use dwarf_types::{Analysis, Entries};
use std::alloc::Global;
use type_names::{TypeNames, is_type};

/// An entry that siblings may have the parts of, by a hash of its parent and its parts.
#[derive(Clone, Copy)]
pub(crate) struct Sibling {
    pub(crate) hash: u64,
    pub(crate) number: u32,
}

const _: () = prove!(size_of::<Sibling>() == 16);

/// So many ranks of one cell are tried at most. There are more cells than ranks, so few chains have more than ten.
const MOST_TRIED: u32 = 64;

/// Siblings in chains, one for each cell of hashes. A link holds 1 more than the place of a rank, or 0 for none.
#[derive(Drop)]
pub(crate) struct Chains {
    /// The newest rank of each cell.
    pub(crate) newest: Vec<u32>,
    /// Of each rank, the one before it in its cell.
    pub(crate) before: Vec<u32>,
}

/// Of each entry whose ordinal is asked for, how many earlier siblings have the same parts: of those below entries in the
/// subtrees of heads that their parts don't tell apart.
///
/// The siblings are gone over by their numbers. Those whose hashes share a cell hang in a chain, so that the nearest earlier
/// one with the same parts is reached first. Where a chain is long, as names can make it that were chosen for their hashes,
/// an ordered table takes the place of all chains ([`crate::twin_table`]): the time is n log n at most.
pub(crate) fn twins_of(
    alloc: Global,
    seen: &Analysis,
    live: &BitRow,
    names: &TypeNames,
    object: u32,
) -> Result<Vec<u32>, NoMemory>
    requires few { length seen.now.entries ≤ 2 ^ 24 }
    requires parents { ParentsStandBefore seen.now.entries }
    requires names { AreNames (object_of seen.now live.now) names.now }
    ensures len { IfOk result (λ counts. length counts.items ≡ length seen.now.entries) }
    ensures exact { IfOk result (λ counts. (k : ℕ) → k < length seen.now.entries → wants_ordinal object (object_of seen.now live.now) k ≡ true
        → slice_index_or counts.items k 0 ≡ twins_before object (object_of seen.now live.now) k) }
{
    let ranks = siblings_of(alloc, seen, live, names, object)?;
    let counts = counts_of(alloc, seen, live, names, object, &ranks)?;
    Ok(counts)
}

/// The entries below those in subtrees of heads, with the hashes of their parents and parts.
///
/// Those that their parts tell apart are left out: their ordinals are 0, and what has the same parts is left out too. Those
/// with a [`crate::piece::Private`] have no twins, and are left out as well. It goes into no hash, so all members of a class
/// that differ in it alone would hang in one chain, each to be compared with all before.
fn siblings_of(
    alloc: Global,
    seen: &Analysis,
    live: &BitRow,
    names: &TypeNames,
    object: u32,
) -> Result<Vec<Sibling>, NoMemory>
    requires few { length seen.now.entries ≤ 2 ^ 24 }
    requires parents { ParentsStandBefore seen.now.entries }
    requires names { AreNames (object_of seen.now live.now) names.now }
    ensures { IfOk result (λ ranks. AreSiblings object (object_of seen.now live.now) ranks.items (length seen.now.entries)) }
{
    let most = count_marked(&names.in_heads, seen.entries.len());
    let mut ranks = Vec::with_capacity(alloc, most)?;
    for i in 0..seen.entries.len() {
        if let Some(rank) = rank_of(seen, live, names, object, i as u32) {
            ranks.push(rank)?;
        }
    }
    Ok(ranks)
}

/// The rank of an entry, where siblings may have its parts.
fn rank_of(
    seen: &Analysis,
    live: &BitRow,
    names: &TypeNames,
    object: u32,
    k: u32,
) -> Option<Sibling>
    requires place { k < length seen.now.entries }
    requires parents { ParentsStandBefore seen.now.entries }
    requires names { AreNames (object_of seen.now live.now) names.now }
    ensures { IsRankOf object (object_of seen.now live.now) k result }
{
    let parent = parent_inside(&seen.entries, names, k)?;
    let parts = parts_at(seen, live, names, object, k);
    if tell_alone(&parts) {
        return None;
    }
    if parts.private.is_some() {
        return None;
    }
    Some(Sibling {
        hash: hash_parts(parent, parts),
        number: k,
    })
}

/// The parent of an entry, where that is in the subtree of a head.
fn parent_inside(entries: &Entries, names: &TypeNames, k: u32) -> Option<u32>
    requires place { k < length entries.now }
    requires len { length names.now.in_heads ≡ length entries.now }
    requires parents { ParentsStandBefore entries.now }
    ensures { result ≡ option_and_then (λ p. if slice_index_or names.now.in_heads p false then Some p else None) (parent_of entries.now k) }
{
    let parent = entries.entry(k as usize).parent()?;
    if names.in_heads.get(parent) {
        Some(parent)
    } else {
        None
    }
}

/// A hash of a parent and of parts.
fn hash_parts(parent: u32, parts: PartsRef) -> u64
    ensures { result ≡ parts_hash parent (parts_seen parts.entry) }
{
    hash_piece(u64::from(parent), &PieceRef { parts, ordinal: 0 })
}

/// The counts, rank by rank.
fn counts_of(
    alloc: Global,
    seen: &Analysis,
    live: &BitRow,
    names: &TypeNames,
    object: u32,
    ranks: &[Sibling],
) -> Result<Vec<u32>, NoMemory>
    requires few { length seen.now.entries ≤ 2 ^ 24 }
    requires parents { ParentsStandBefore seen.now.entries }
    requires names { AreNames (object_of seen.now live.now) names.now }
    requires siblings { AreSiblings object (object_of seen.now live.now) ranks.now (length seen.now.entries) }
    ensures { IfOk result (λ counts. AreCounted object (object_of seen.now live.now) ranks.now counts.items (length ranks.now)) }
{
    match counts_by_chains(alloc, seen, live, names, object, ranks)? {
        Some(counts) => Ok(counts),
        None => counts_by_order(alloc, seen, live, names, object, ranks),
    }
}

/// The same by chains; `None` where one is too long.
fn counts_by_chains(
    alloc: Global,
    seen: &Analysis,
    live: &BitRow,
    names: &TypeNames,
    object: u32,
    ranks: &[Sibling],
) -> Result<Option<Vec<u32>>, NoMemory>
    requires few { length seen.now.entries ≤ 2 ^ 24 }
    requires parents { ParentsStandBefore seen.now.entries }
    requires names { AreNames (object_of seen.now live.now) names.now }
    requires siblings { AreSiblings object (object_of seen.now live.now) ranks.now (length seen.now.entries) }
    ensures { IfOk result (λ counted. IfSome counted (λ counts. AreCounted object (object_of seen.now live.now) ranks.now counts.items (length ranks.now))) }
{
    let mut counts = vec![in alloc; 0; seen.entries.len()]?;
    let mut chains = no_chains(alloc, ranks)?;
    for i in 0..ranks.len() {
        let Some(count) = count_at(seen, live, names, object, ranks, &chains, &counts, i) else {
            return Ok(None);
        };
        counts[ranks[i].number as usize] = count;
        hang(&mut chains, ranks, i)?;
    }
    Ok(Some(counts))
}

/// Chains in which none of these ranks hangs yet.
fn no_chains(alloc: Global, ranks: &[Sibling]) -> Result<Chains, NoMemory>
    requires { length ranks.now ≤ 2 ^ 24 }
    ensures { IfOk result (λ chains. AreChained ranks.now chains 0) }
{
    let newest = vec![in alloc; 0; ranks.len() + 1]?;
    let before = Vec::with_capacity(alloc, ranks.len())?;
    Ok(Chains { newest, before })
}

/// Hangs the rank at a place before those of its cell that hang already.
fn hang(chains: &mut Chains, ranks: &[Sibling], i: usize) -> Result<(), NoMemory>
    requires within { i < length ranks.now }
    requires few { length ranks.now ≤ 2 ^ 24 }
    requires chained { AreChained ranks.now chains.old i }
    ensures { OnOk result (AreChained ranks.now chains.new (i + 1)) }
{
    let cell = cell_of(rank_at(ranks, i), chains.newest.len());
    let newest = chains.newest[cell];
    chains.before.push(newest)?;
    chains.newest[cell] = i as u32 + 1;
    Ok(())
}

/// The cell of a rank, among so many.
fn cell_of(rank: Sibling, cells: usize) -> usize
    requires { 1 ≤ cells }
    ensures cell { result ≡ cell_of cells rank }
    ensures within { result < cells }
{
    ((rank.hash >> 32) % cells as u64) as usize
}

/// The count at rank `i`: one more than that of the nearest rank before it with the same parent and parts, or 0. `None`
/// where so many ranks of its cell were tried that the others are left.
fn count_at(
    seen: &Analysis,
    live: &BitRow,
    names: &TypeNames,
    object: u32,
    ranks: &[Sibling],
    chains: &Chains,
    counts: &[u32],
    i: usize,
) -> Option<u32>
    requires few { length seen.now.entries ≤ 2 ^ 24 }
    requires parents { ParentsStandBefore seen.now.entries }
    requires names { AreNames (object_of seen.now live.now) names.now }
    requires siblings { AreSiblings object (object_of seen.now live.now) ranks.now (length seen.now.entries) }
    requires chained { AreChained ranks.now chains.now i }
    requires within { i < length ranks.now }
    requires counted { AreCounted object (object_of seen.now live.now) ranks.now counts.now i }
    ensures { (r : ASibling) → slice_get ranks.now i ≡ Some r → IfSome result (λ count. count ≡ twins_before object (object_of seen.now live.now) r.number) }
{
    let here = rank_at(ranks, i);
    let mut j = chains.newest[cell_of(here, chains.newest.len())];
    for _ in 0..MOST_TRIED {
        if j == 0 {
            return Some(0);
        }
        let other = rank_at(ranks, j as usize - 1);
        if are_ranked_twins(seen, live, names, object, other, here) {
            return Some(counts[other.number as usize] + 1);
        }
        j = chains.before[j as usize - 1];
    }
    None
}

/// The rank at a place.
pub(crate) fn rank_at(ranks: &[Sibling], i: usize) -> Sibling
    requires { i < length ranks.now }
    ensures { slice_get ranks.now i ≡ Some result }
{
    ranks[i]
}

/// Whether two ranks are of entries with the same parent and the same parts.
fn are_ranked_twins(
    seen: &Analysis,
    live: &BitRow,
    names: &TypeNames,
    object: u32,
    a: Sibling,
    b: Sibling,
) -> bool
    requires parents { ParentsStandBefore seen.now.entries }
    requires names { AreNames (object_of seen.now live.now) names.now }
    requires siblings { IsSibling object (object_of seen.now live.now) a × IsSibling object (object_of seen.now live.now) b }
    ensures { IsTrue result ↔ AreTwins object (object_of seen.now live.now) a.number b.number }
{
    a.hash == b.hash && are_twins(seen, live, names, object, a.number, b.number)
}

/// Whether two entries have the same parent and the same parts.
fn are_twins(seen: &Analysis, live: &BitRow, names: &TypeNames, object: u32, a: u32, b: u32) -> bool
    requires names { AreNames (object_of seen.now live.now) names.now }
    requires places { (a < length seen.now.entries) × (b < length seen.now.entries) }
    requires spelled { IsSpelled (object_of seen.now live.now) a × IsSpelled (object_of seen.now live.now) b }
    ensures { IsTrue result ↔ AreTwins object (object_of seen.now live.now) a b }
{
    seen.entries.entry(a as usize).parent() == seen.entries.entry(b as usize).parent()
        && parts_equal(
            &parts_at(seen, live, names, object, a),
            &parts_at(seen, live, names, object, b),
        )
}

/// The ordinal of the piece of a pooled entry with these parts.
pub(crate) fn ordinal_at(
    seen: &Analysis,
    live: &BitRow,
    object: u32,
    counts: &[u32],
    parts: &PartsRef,
    k: u32,
) -> u32
    requires place { k < length seen.now.entries }
    requires parents { ParentsStandBefore seen.now.entries }
    requires pooled { is_pooled (object_of seen.now live.now) k ≡ true }
    requires len { length counts.now ≡ length seen.now.entries }
    requires counts { (j : ℕ) → j < length seen.now.entries → wants_ordinal object (object_of seen.now live.now) j ≡ true
        → slice_index_or counts.now j 0 ≡ twins_before object (object_of seen.now live.now) j }
    requires parts { (e : AnEntry) → slice_get seen.now.entries k ≡ Some e → parts_seen parts.now ≡ parts_of object (object_of seen.now live.now) k e }
    ensures { (e : AnEntry) → slice_get seen.now.entries k ≡ Some e → result ≡ ordinal_of object (object_of seen.now live.now) k e }
{
    if tell_alone(parts) {
        return 0;
    }
    counts[k as usize]
}

/// Whether parts tell an entry apart wherever it stands: it is a namespace, a type with a name, or a derived head.
fn tell_alone(parts: &PartsRef) -> bool
    ensures { result ≡ tell_alone (parts_seen parts.now) }
{
    let overloaded = parts.tag == DW_TAG_subprogram && !parts.linkage.is_some();
    parts.tag == DW_TAG_namespace
        || (is_type(parts.tag) && parts.name.is_some())
        || (!overloaded && parts.spelled.is_some())
}
