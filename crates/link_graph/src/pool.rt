//! The nodes of merged entries: one for each path of the names of a link.
//!
//! The winners right below a path hang in a chain, by their bids. Names stand in the order of their bids but for
//! declarations, which bid higher, so each pass over the names from the last one puts its winners before those that hang
//! already: first the declarations, and then the others. The chains are gone over in preorder, with a stack of those that
//! are not yet done.

ghost use Rattle.std.specs.Prelude.{◌≡◌, ◌<◌, ◌≤◌, ◌+◌, ◌^◌, ◌==◌, ◌⊎◌, ◌++◌, ℕ, ◌∷◌, None, Some, length, map, replicate, slice_index_or, slice_set, IfOk, List as Listed};
ghost use Rattle.std.specs.List.{All, list_any};
ghost use Rattle.std.specs.Option.{ForSome};
ghost use Rattle.odr_names.specs.Numbered.{IsLinkedUp, path_at};
ghost use Rattle.odr_names.specs.Winners.{AreWinners};
ghost use Rattle.link_graph.specs.Graph.{pool_version};
ghost use Rattle.link_graph.specs.Joining.{AreOriginsFrom, ArePathNodes, origin_at};
ghost use Rattle.link_graph.specs.Merged.{pool_origin, pool_root, pool_units};
ghost use Rattle.link_graph.specs.Passes.{with_version};
ghost use Rattle.link_graph.specs.Pool.{node_above};
ghost use Rattle.link_graph.specs.PoolOrder.{AnyName, AreChains, AreHungFrom, AreNodes, AreNodesFrom, AreRanked, IsPreorder, firsts, key_of, name_at, nexts};

use ds_base::dwarf::{DWARF_4, DWARF_5};
use ds_base::{List, NoMemory};
use dwarf_types::{Origin, ShapeUnit};
use odr_names::{PathBook, above, bids_are_some, count, names_are_linked, number, occurrence};
use std::alloc::Global;
use std::thread::{Threads, for_each_chunk_mut};

/// The nodes of merged entries: one for each path of the names of a link.
#[derive(Drop)]
pub struct PathNodes {
    /// The names that win the paths, in the order of the nodes. The root of their unit stands before these.
    pub order: Vec<u32>,
    /// Of each name that wins a path, the node; `None` at each other name.
    pub nodes: Vec<Option<u32>>,
}

/// What a path and its winner lead to in chains: those right below each path, by their bids.
///
/// The path of none has the first link, and each winner the one behind its number. The winners are kept likewise: 0 is
/// none, and 1 more than its number a winner.
#[derive(Clone, Copy)]
pub(crate) struct Link {
    /// The first one right below the path.
    pub(crate) first: u32,
    /// The next one right below the same path.
    pub(crate) next: u32,
}

const _: () = prove!(size_of::<Link>() == 8);

/// The winners of a book's names in chains.
#[derive(Drop)]
pub(crate) struct Tree<'a, 'b> {
    pub(crate) names: &'a PathBook<'b>,
    pub(crate) winners: &'a [u32],
    pub(crate) chains: Vec<Link>,
}

/// The root of the unit in which merged entries stand. It stands for no entry of an object.
const ROOT: Origin = Origin {
    object: 0,
    entry: 0,
    parent: None,
};

/// Bids from this one on are of declarations.
const DECLARED: u64 = 1 << 63;

/// The nodes of merged entries: of each path the winner has one, in preorder, siblings by their bids.
///
/// `winners` tells of each name the one that wins its path. What the objects give is not asked for, so it may be made
/// beside this.
pub fn path_nodes(alloc: Global, names: &PathBook, winners: &[u32]) -> Result<PathNodes, NoMemory>
    requires ranked { AreRanked names.now }
    requires winners { AreWinners names.now winners.now }
    ensures { IfOk result (ArePathNodes names.now winners.now) }
{
    let chains = chains_of(alloc, names, winners)?;
    let tree = Tree {
        names,
        winners,
        chains,
    };
    let order = order_of(alloc, &tree)?;
    let nodes = nodes_of(alloc, count(names) as usize, &order)?;
    Ok(PathNodes { order, nodes })
}

/// The winners in chains.
fn chains_of(alloc: Global, names: &PathBook, winners: &[u32]) -> Result<Vec<Link>, NoMemory>
    requires ranked { AreRanked names.now }
    requires winners { AreWinners names.now winners.now }
    ensures linked { IfOk result (λ chains. (x : ℕ) → x < length names.now → IsLinkedUp names.now x) }
    ensures chains { IfOk result (λ chains. AreChains names.now winners.now AnyName (firsts chains.items) (nexts chains.items)) }
{
    bids_are_some(names);
    names_are_linked(names);
    let mut chains = no_links(alloc, count(names) as usize + 1)?;
    hang_winners(names, winners, DECLARED, u64::MAX, &mut chains);
    hang_winners(names, winners, 0, DECLARED, &mut chains);
    Ok(chains)
}

/// So many links, where no winner hangs yet.
fn no_links(alloc: Global, count: usize) -> Result<Vec<Link>, NoMemory>
    ensures { IfOk result (λ links. links.items ≡ replicate count (record { first = 0; next = 0 })) }
{
    Ok(vec![in alloc; Link { first: 0, next: 0 }; count]?)
}

/// The number of the path above a name, by a name of that path: 1 more than its winner, or 0 where it has no piece.
fn key_of(winners: &[u32], above: Option<u32>) -> u32
    requires { ForSome above (λ p. (p < length winners.now) × (slice_index_or winners.now p 0 + 1 < 2 ^ 32)) }
    ensures { result ≡ key_of winners.now above }
{
    match above {
        Some(p) => winners[p as usize] + 1,
        None => 0,
    }
}

/// Puts the winners whose bids are in these bounds before those in the chains, the last one first.
///
/// Those that hang already bid no less than `to`. The name above is asked for of these winners alone.
fn hang_winners(names: &PathBook, winners: &[u32], from: u64, to: u64, chains: &mut Vec<Link>)
    requires bounds { (2 ^ 63 ≤ from) ⊎ (to ≤ 2 ^ 63) }
    requires ranked { AreRanked names.now }
    requires winners { AreWinners names.now winners.now }
    requires linked { (x : ℕ) → x < length names.now → IsLinkedUp names.now x }
    requires hung { AreHungFrom names.now winners.now from to (length names.now) (firsts chains.old.items) (nexts chains.old.items) }
    ensures { AreHungFrom names.now winners.now from to 0 (firsts chains.new.items) (nexts chains.new.items) }
{
    let mut x = count(names);
    while x > 0 {
        x -= 1;
        if winners[x as usize] != x {
            continue;
        }
        let bid = number(names, x);
        if bid < from {
            continue;
        }
        if bid >= to {
            continue;
        }
        let up = above(names, x);
        hang(chains, key_of(winners, up), x);
    }
}

/// Puts a winner before those right below the path of this number.
fn hang(chains: &mut Vec<Link>, key: u32, x: u32)
    requires key { key < length chains.old.items }
    requires name { (x + 1 < length chains.old.items) × (x + 1 < 2 ^ 32) }
    ensures first { firsts chains.new.items ≡ slice_set (firsts chains.old.items) key (Some x) }
    ensures next { nexts chains.new.items ≡ slice_set (nexts chains.old.items) x (slice_index_or (firsts chains.old.items) key None) }
{
    let behind = chains[key as usize].first;
    chains[x as usize + 1].next = behind;
    chains[key as usize].first = x + 1;
}

/// The winners that have nodes, in preorder.
fn order_of(alloc: Global, tree: &Tree) -> Result<Vec<u32>, NoMemory>
    requires ranked { AreRanked tree.now.names.now }
    requires winners { AreWinners tree.now.names.now tree.now.winners.now }
    requires linked { (x : ℕ) → x < length tree.now.names.now → IsLinkedUp tree.now.names.now x }
    requires chains { AreChains tree.now.names.now tree.now.winners.now AnyName (firsts tree.now.chains.items) (nexts tree.now.chains.items) }
    ensures { IfOk result (λ order. IsPreorder tree.now.names.now tree.now.winners.now order.items) }
{
    let links = tree.chains.as_slice();
    let mut order = Vec::with_capacity(alloc, links.len())?;
    let mut open = Vec::new(alloc);
    open.push(links[0].first)?;
    while let Some(top) = open.pop() {
        if top == 0 {
            continue;
        }
        let link = links[top as usize];
        order.push(top - 1)?;
        open.push(link.next)?;
        open.push(link.first)?;
    }
    Ok(order)
}

/// Of each of so many names the node: 1 more than the first place at which it stands in preorder.
fn nodes_of(alloc: Global, count: usize, order: &[u32]) -> Result<Vec<Option<u32>>, NoMemory>
    requires few { length order.now < 2 ^ 32 }
    requires within { All (λ w. w < count) order.now }
    ensures { IfOk result (λ nodes. AreNodesFrom order.now nodes.items count 0) }
{
    let mut nodes = vec![in alloc; None; count]?;
    let mut i = order.len();
    while i > 0 {
        nodes[order[i - 1] as usize] = Some(i as u32);
        i -= 1;
    }
    Ok(nodes)
}

/// The unit of merged entries, if there is any, made by at most so many threads.
///
/// It has version 4 until those of the units of the objects are known.
pub(crate) fn units_of<R: Threads + Sync>(
    rt: &R,
    alloc: Global,
    workers: u32,
    names: &PathBook,
    winners: &[u32],
    merged: &PathNodes,
) -> Result<Vec<ShapeUnit>, NoMemory>
    requires workers { 1 ≤ workers }
    requires merged { ArePathNodes names.now winners.now merged.now }
    ensures { IfOk result (λ units. units.items ≡ pool_units 4 names.now) }
{
    let mut units = Vec::new(alloc);
    if count(names) == 0 {
        return Ok(units);
    }
    let nodes = origins_of(rt, alloc, workers, names, winners, merged)?;
    units.push(ShapeUnit {
        version: DWARF_4,
        nodes,
    })?;
    Ok(units)
}

/// Gives the pool's unit, if there is one before those of the objects, the version that goes with theirs.
pub(crate) fn settle_version(names: &PathBook, units: &mut List<ShapeUnit>)
    requires { (own : Listed ShapeUnit) × (units.old ≡ pool_units 4 names.now ++ own) }
    ensures { (own : Listed ShapeUnit) → units.old ≡ pool_units 4 names.now ++ own → units.new ≡ pool_units (pool_version own) names.now ++ own }
{
    if count(names) > 0 {
        settle_first(units.as_mut_slice());
    }
}

/// Gives the first of some units, which has no later version than the others, the version that goes with them.
fn settle_first(units: &mut [ShapeUnit])
    requires { 0 < length units.old }
    ensures { units.new ≡ with_version (pool_version units.old) units.old }
{
    units[0].version = version_for(units);
}

/// The version of the pool's unit beside some units: 5 where one of them has it, else 4.
fn version_for(units: &[ShapeUnit]) -> u16
    ensures { result ≡ pool_version units.now }
{
    if some_of_version_5(units) {
        DWARF_5
    } else {
        DWARF_4
    }
}

/// Whether one of some units is of version 5.
fn some_of_version_5(units: &[ShapeUnit]) -> bool
    ensures { result ≡ list_any (λ unit. unit.version == 5) units.now }
{
    units.iter().any(|unit| unit.version == DWARF_5)
}

/// The nodes of that unit: its root, and behind it those of the winners.
fn origins_of<R: Threads + Sync>(
    rt: &R,
    alloc: Global,
    workers: u32,
    names: &PathBook,
    winners: &[u32],
    merged: &PathNodes,
) -> Result<List<Origin>, NoMemory>
    requires workers { 1 ≤ workers }
    requires merged { ArePathNodes names.now winners.now merged.now }
    ensures { IfOk result (λ origins. origins ≡ pool_root ∷ map (λ w. pool_origin names.now (name_at names.now w)) merged.now.order.items) }
{
    let mut origins = vec![in alloc; ROOT; merged.order.len() + 1]?;
    put_origins(rt, workers, names, winners, merged, origins.as_mut_slice());
    Ok(List::from_vec(origins))
}

/// Puts the nodes of that unit in their places, each thread some of them one behind the other.
fn put_origins<R: Threads + Sync>(
    rt: &R,
    workers: u32,
    names: &PathBook,
    winners: &[u32],
    merged: &PathNodes,
    origins: &mut [Origin],
)
    requires workers { 1 ≤ workers }
    requires merged { ArePathNodes names.now winners.now merged.now }
    requires len { length origins.old ≡ length merged.now.order.items + 1 }
    ensures len { length origins.new ≡ length origins.old }
    ensures each { AreOriginsFrom names.now merged.now.order.items 0 origins.new }
{
    let size = origins.len() / workers as usize + 1;
    for_each_chunk_mut(
        rt,
        origins,
        size,
        &|start, part| put_part(names, winners, merged, start, part),
    );
}

/// Puts the nodes from this one on in their places.
fn put_part(
    names: &PathBook,
    winners: &[u32],
    merged: &PathNodes,
    start: usize,
    part: &mut [Origin],
)
    requires merged { ArePathNodes names.now winners.now merged.now }
    requires within { start + length part.old ≤ length merged.now.order.items + 1 }
    ensures len { length part.new ≡ length part.old }
    ensures each { AreOriginsFrom names.now merged.now.order.items start part.new }
{
    for k in 0..part.len() {
        part[k] = origin_at(names, winners, merged, start + k);
    }
}

/// The node at a place of that unit.
fn origin_at(names: &PathBook, winners: &[u32], merged: &PathNodes, i: usize) -> Origin
    requires within { i ≤ length merged.now.order.items }
    requires merged { ArePathNodes names.now winners.now merged.now }
    ensures { result ≡ origin_at names.now merged.now.order.items i }
{
    if i == 0 {
        return ROOT;
    }
    origin_of(names, winners, &merged.nodes, merged.order[i - 1])
}

/// The node of a winner.
fn origin_of(names: &PathBook, winners: &[u32], nodes: &[Option<u32>], x: u32) -> Origin
    requires within { x < length names.now }
    requires nodes { AreNodes names.now winners.now nodes.now }
    ensures { result ≡ pool_origin names.now (name_at names.now x) }
{
    let place = occurrence(names, x);
    Origin {
        object: place.object,
        entry: place.entry,
        parent: node_above(names, winners, nodes, x),
    }
}

/// The node of the path above that of a name.
fn node_above(names: &PathBook, winners: &[u32], nodes: &[Option<u32>], x: u32) -> Option<u32>
    requires within { x < length names.now }
    requires nodes { AreNodes names.now winners.now nodes.now }
    ensures { result ≡ node_above names.now (path_at names.now x) }
{
    match above(names, x) {
        Some(p) => nodes[winners[p as usize] as usize],
        None => Some(0),
    }
}
