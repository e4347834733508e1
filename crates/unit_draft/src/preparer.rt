//! Nodes prepared stretch by stretch: asked of their source, and declared.

ghost use Rattle.std.specs.Prelude.{◌≡◌, ◌+◌, ◌-◌, ◌<◌, ◌^◌, ℕ, length, slice_index, IfOk, OnOk};
ghost use Rattle.unit_draft.specs.Stretches.{HasFrom, IsReady, PreparesStretch};

use crate::depths::{depth_at, depths_in};
use crate::stretch::{Prepared, Stretch};
use crate::task::Task;
use abbrev_write::{Declared, parents_in};
use ds_base::{BitRow, List, NoMemory};
use std::alloc::Global;
use unit_source::{OutAttrRef, UnitSource};

/// What prepares the nodes of a unit, each once and in order.
#[derive(Drop)]
pub(crate) struct Preparer<'a, S> {
    alloc: Global,
    unit: &'a S,
    /// The number of the unit in the graph.
    number: u32,
    /// The most nodes of the next stretch.
    most: usize,
    /// Stretches grow up to so many nodes.
    limit: usize,
    /// Which nodes have children.
    parents: BitRow,
    depths: List<u32>,
    /// What declares the nodes so far.
    pub(crate) declared: Declared,
    /// Where the attributes of a node are made. One serves all nodes.
    attrs: Vec<OutAttrRef<'a>>,
    /// The first node that is not prepared.
    pub(crate) next: usize,
    /// The nodes that were prepared last.
    pub(crate) stretch: Stretch<'a>,
}

impl<'a, S: UnitSource> Task for Preparer<'a, S> {
    type Out = Result<(), NoMemory>;

    ghost use Rattle.std.specs.Prelude.{OnOk};
    ghost use Rattle.unit_draft.specs.Stretches.{IsReady, PreparesStretch};

    ghost can_run = { λ it. IsReady S.unit it.number (S.unit it.unit.now) it };

    ghost run_gives = { λ old result new. OnOk result (PreparesStretch S.unit old.number (S.unit old.unit.now) old new) };

    fn run(&mut self) -> Result<(), NoMemory> {
        prepare_stretch(self)
    }
}

/// What prepares the nodes of a unit, so many at most in the first stretch. The next ones grow up to a limit.
pub(crate) fn preparer_of<'a, S: UnitSource>(
    alloc: Global,
    unit: &'a S,
    number: u32,
    most: usize,
    limit: usize,
) -> Result<Preparer<'a, S>, NoMemory>
    requires few { length (S.unit unit.now).nodes < 2 ^ 28 }
    requires most { 0 < most }
    ensures ready { IfOk result (IsReady S.unit number (S.unit unit.now)) }
    ensures first { IfOk result (λ it. it.next ≡ 0) }
{
    let depths = depths_in(alloc, unit)?;
    let parents = parents_in(alloc, unit)?;
    Ok(Preparer {
        alloc,
        unit,
        number,
        most,
        limit,
        parents,
        depths,
        declared: Declared::new(alloc),
        attrs: Vec::new(alloc),
        next: 0,
        stretch: Stretch::new(alloc),
    })
}

/// Prepares the next stretch, in the place of the one before.
fn prepare_stretch<'a, S: UnitSource>(it: &mut Preparer<'a, S>) -> Result<(), NoMemory>
    requires { IsReady S.unit it.old.number (S.unit it.old.unit.now) it.old }
    ensures { OnOk result (PreparesStretch S.unit it.old.number (S.unit it.old.unit.now) it.old it.new) }
{
    it.stretch.clear();
    let left = it.unit.len() - it.next;
    let end = it.next + left.min(it.most);
    it.most = grown(it.most, it.limit);
    while it.next < end {
        prepare_node(it)?;
    }
    Ok(())
}

/// The most nodes of a stretch behind one of so many: twice as many, until there are as many as the limit.
fn grown(most: usize, limit: usize) -> usize
    requires { 0 < most }
    ensures { 0 < result }
{
    if most < limit {
        most.saturating_mul(2)
    } else {
        most
    }
}

/// Prepares the next node, and puts it last in the stretch.
fn prepare_node<'a, S: UnitSource>(it: &mut Preparer<'a, S>) -> Result<(), NoMemory>
    requires ready { IsReady S.unit it.old.number (S.unit it.old.unit.now) it.old }
    requires inside { it.old.next < length (S.unit it.old.unit.now).nodes }
    ensures ready { OnOk result (IsReady S.unit it.old.number (S.unit it.old.unit.now) it.new) }
    ensures next { OnOk result (it.new.next ≡ it.old.next + 1) }
    ensures added { (from : ℕ) → HasFrom it.old.number (S.unit it.old.unit.now) from it.old → OnOk result (HasFrom it.old.number (S.unit it.old.unit.now) from it.new) }
{
    let k = it.next;
    let node = it.unit.node(it.alloc, k, &mut it.attrs)?;
    let children = it.parents.get(k as u32);
    let code = it
        .declared
        .code_of(it.alloc, it.number, node.tag, children, &it.attrs)?;
    let ended = ended_behind(it.depths.as_slice(), k);
    let attrs = it.attrs.len();
    it.stretch.nodes.push(Prepared { code, ended, attrs })?;
    it.stretch.attrs.append(&mut it.attrs)?;
    it.next = k + 1;
    Ok(())
}

/// How many lists of siblings end behind a node.
fn ended_behind(depths: &[u32], node: usize) -> u32
    requires { node < 2 ^ 28 }
    ensures { result ≡ slice_index depths.now node - slice_index depths.now (node + 1) }
{
    depth_at(depths, node).saturating_sub(depth_at(depths, node + 1))
}
