//! The units of a linked graph, each cloned and drafted by one of several threads.

ghost use Rattle.std.specs.Prelude.{◌≡◌, ◌<◌, ◌≤◌, ◌^◌, ◌+◌, ◌-◌, ℕ, List as Listed, length, slice_get, Some, IfOk, OnOk};
ghost use Rattle.std.specs.Thread.{IsSync};
ghost use Rattle.work_share.specs.Results.{GivesAll};
ghost use Rattle.dwarf_types.specs.declared.graph.Graph.{Graph as Linked};
ghost use Rattle.dwarf_types.specs.declared.graph.OutUnit.{OutUnit as AUnit};
ghost use Rattle.dwarf_types.specs.declared.analysis.Analysis.{Analysis as Seen};
ghost use Rattle.dwarf_types.specs.declared.shape.Shape.{Shape as Shaping};
ghost use Rattle.link_graph.specs.Graph.{graph_in};
ghost use Rattle.unit_draft.specs.Drafted.{Drafts as GivesDraft};
ghost use Rattle.unit_drafts.specs.Drafting.{AreDrafting, DraftsBatch, DraftsBy, DraftsFrom, DraftsUnit, DraftsUnits, MayDraft, MayDraftAll, MayDraftBatch, MayDraftFrom};

use crate::batch::Batch;
use crate::batches::{batch_end, drop_analyses, first_needed};
use crate::results::put_behind;
use crate::texts::{TextRoom, start_text_room};
use clone_units::clone_unit;
use ds_base::limits::UNIT_BYTES;
use ds_base::{List, NoMemory};
use ds_files::{Gate, OpenGate};
use dwarf_types::{Analysis, Shape};
use link_status::{LimitKind, Refusal};
use std::alloc::Global;
use std::thread::{Threads, join};
use unit_draft::{Draft, DraftError, draft_unit};
use work_share::{Job, Rooming, Work, Workers, each, let_go};

/// The numbers of the phases in which units are cloned and drafted.
const CLONE: u32 = 2;

const EMIT: u32 = 3;

/// The least number of workers of which two draft one unit.
const WORKERS_FOR_TWO: u32 = 4;

/// The least number of nodes of a unit that two draft.
const LARGE_UNIT: u64 = 1 << 16;

/// Each unit of a batch is cloned and drafted.
#[derive(Drop)]
struct Drafting<'a, R, G> {
    rt: &'a R,
    alloc: Global,
    left: &'a [Analysis],
    shape: &'a Shape,
    /// The first unit of the batch.
    first: u32,
    gate: &'a G,
}

impl<'a, R: Threads + Sync, G: Gate> Job for Drafting<'a, R, G> {
    type Out = Result<Draft, Refusal>;

    ghost takes = { λ job item. IsSync R.row × MayDraft job.left.now job.shape.now (job.first + item) };

    ghost gives = { λ job item out. DraftsBy job.left.now job.shape.now (job.first + item) out };

    fn run(&self, item: u32) -> Result<Draft, Refusal> {
        let alone = Workers {
            rt: self.rt,
            alloc: self.alloc,
            count: 1,
        };
        let work = Work {
            workers: &alone,
            gate: self.gate,
        };
        draft_of(&work, self.left, self.shape, self.first + item)
    }
}

/// The drafts of the first units of a shape, and the analyses that the others need.
///
/// Units are drafted in batches. Who clones a unit drafts it too and lets the clone go, and the analysis of an object goes
/// once the batch of its last unit is drafted: of all that is written, memory holds the bytes alone.
#[derive(Drop)]
pub struct Drafts {
    /// The analyses of the objects; those that went have no entries.
    pub left: List<Analysis>,
    /// So many of them went.
    pub dropped: usize,
    pub outs: Vec<Result<Draft, Refusal>>,
    /// Memory for the string section, where two draft a unit.
    pub(crate) texts: TextRoom,
}

impl Drafts {
    /// No drafts of objects with these analyses. `texts` says whether memory for the string section is taken beside them: who
    /// drafts batch after batch of the objects does not know how much, before the last.
    pub fn new(alloc: Global, seen: List<Analysis>, texts: bool) -> Drafts
        ensures { (shape : Shaping) → AreDrafting seen shape result }
    {
        Drafts {
            left: seen,
            dropped: 0,
            outs: Vec::new(alloc),
            texts: TextRoom::new(texts),
        }
    }

    /// Drafts the units of a shape that are not drafted yet.
    pub fn draft_others<R: Threads + Sync, G: Gate + Sync>(
        &mut self,
        work: &Work<R, G>,
        shape: &Shape,
    ) -> Result<(), NoMemory>
        requires drafting { (seen : Listed Seen) × MayDraftAll seen shape.now × AreDrafting seen shape.now self.old }
        ensures { (seen : Listed Seen) → MayDraftAll seen shape.now → AreDrafting seen shape.now self.old
            → OnOk result (AreDrafting seen shape.now self.new × (length self.new.outs.items ≡ length shape.now.units)) }
    {
        let mut first = self.outs.len() as u32;
        while (first as usize) < shape.units.len() {
            let needed = first_needed(shape, first);
            drop_analyses(
                work.workers.alloc,
                self.left.as_mut_slice(),
                self.dropped,
                needed,
            );
            self.dropped = needed;
            let end = batch_end(shape, first, work.workers.count);
            let batch = Batch {
                left: self.left.as_slice(),
                shape,
                first,
                end,
            };
            let more = draft_batch(work, &batch, &mut self.texts)?;
            put_behind(&mut self.outs, more)?;
            first = end;
        }
        Ok(())
    }

    /// Lets all analyses go, once all units are drafted.
    pub fn let_go(&mut self, alloc: Global)
        requires { self.old.dropped ≤ length self.old.left }
        ensures outs { self.new.outs ≡ self.old.outs }
        ensures drafting { (seen : Listed Seen) (shape : Shaping) → AreDrafting seen shape self.old → length self.old.outs.items ≡ length shape.units → AreDrafting seen shape self.new }
    {
        let all = self.left.len();
        drop_analyses(alloc, self.left.as_mut_slice(), self.dropped, all);
        self.dropped = all;
    }
}

/// The drafts of the units of a shape, or that one is too long. A thread that takes memory for their string section goes to
/// `texts`.
pub fn drafts_of<R: Threads + Sync, G: Gate + Sync>(
    work: &Work<R, G>,
    seen: List<Analysis>,
    shape: &Shape,
    texts: &mut Rooming,
) -> Result<List<Draft>, Refusal>
    requires drafted { MayDraftAll seen shape.now }
    ensures { DraftsUnits (graph_in seen shape.now) result }
{
    let alloc = work.workers.alloc;
    let mut drafts = Drafts::new(alloc, seen, true);
    drafts.draft_others(work, shape)?;
    let Drafts {
        left,
        outs,
        texts: room,
        ..
    } = drafts;
    *texts = room.taken;
    let_go(work.workers, left);
    all_drafted(alloc, outs)
}

/// What is drafted of a batch.
///
/// No more threads draft it than may work: two of them the first unit, where it outweighs the others.
fn draft_batch<R: Threads + Sync, G: Gate + Sync>(
    work: &Work<R, G>,
    batch: &Batch,
    texts: &mut TextRoom,
) -> Result<Vec<Result<Draft, Refusal>>, NoMemory>
    requires may { MayDraftBatch batch.now }
    ensures { IfOk result (λ outs. DraftsBatch batch.now outs.items) }
{
    let workers = work.workers.count;
    if workers >= WORKERS_FOR_TWO
        && batch.first < batch.end
        && outweighs(batch.shape, batch.first, batch.end, workers)
    {
        return first_by_two(work, batch, texts);
    }
    each_by_one(work, batch)
}

/// Whether the first unit of a batch is large, and drafted alone would keep one thread busy after the others are done.
fn outweighs(shape: &Shape, first: u32, end: u32, workers: u32) -> bool
    requires order { first < end }
    requires workers { 4 ≤ workers }
{
    let own = node_count(shape, first);
    let mut others: u64 = 0;
    for unit in first + 1..end {
        others = others.saturating_add(node_count(shape, unit));
    }
    own >= LARGE_UNIT && others < own.saturating_mul(u64::from(workers - 2))
}

/// How many nodes a unit has.
fn node_count(shape: &Shape, unit: u32) -> u64 {
    match shape.units.get(unit as usize) {
        Some(unit) => unit.nodes.len() as u64,
        None => 0,
    }
}

/// What is drafted of a batch whose first unit is drafted by two threads, beside the others. Behind these, a thread begins to
/// take memory for the string section, where that is wanted.
fn first_by_two<R: Threads + Sync, G: Gate + Sync>(
    work: &Work<R, G>,
    batch: &Batch,
    texts: &mut TextRoom,
) -> Result<Vec<Result<Draft, Refusal>>, NoMemory>
    requires workers { 4 ≤ work.now.workers.now.count }
    requires some { batch.now.first < batch.now.end }
    requires may { MayDraftBatch batch.now }
    ensures { IfOk result (λ outs. DraftsBatch batch.now outs.items) }
{
    let rt = work.workers.rt;
    let alloc = work.workers.alloc;
    let gate = work.gate;
    let left = batch.left;
    let shape = batch.shape;
    let first = batch.first;
    let end = batch.end;
    let second = first + 1;
    let beside = work.workers.count - 2;
    let nodes = node_count(shape, first) as usize;
    let wanted = texts.wanted;
    let (draft, behind) = join(
        rt,
        || -> Result<Draft, Refusal>
            requires { IsSync R.row × IsSync G.row × MayDraft left.now shape.now first }
            ensures { DraftsBy left.entry.now shape.entry.now first result }
        {
            let two = Workers {
                rt,
                alloc,
                count: 2,
            };
            let work = Work {
                workers: &two,
                gate,
            };
            draft_of(&work, left, shape, first)
        },
        || -> (Result<Vec<Result<Draft, Refusal>>, NoMemory>, Rooming)
            requires { IsSync R.row × IsSync G.row × (1 ≤ beside) × (beside ≤ 64) × (second ≤ end) × MayDraftFrom left.now shape.now second end }
            ensures { IfOk result.0 (λ outs. DraftsFrom left.entry.now shape.entry.now second end outs.items) }
        {
            let others = Workers {
                rt,
                alloc,
                count: beside,
            };
            let work = Work {
                workers: &others,
                gate,
            };
            let batch = Batch {
                left,
                shape,
                first: second,
                end,
            };
            each_with_room(&work, &batch, nodes, wanted)
        },
    );
    let (others, taken) = behind;
    texts.taken = taken;
    let mut outs = Vec::new(alloc);
    outs.push(draft)?;
    put_behind(&mut outs, others?)?;
    Ok(outs)
}

/// What is drafted of a batch, each unit by one of several threads, and, where that is wanted, a thread that takes memory for
/// the string section while a unit of so many nodes is drafted beside them.
fn each_with_room<R: Threads + Sync, G: Gate + Sync>(
    work: &Work<R, G>,
    batch: &Batch,
    nodes: usize,
    wanted: bool,
) -> (Result<Vec<Result<Draft, Refusal>>, NoMemory>, Rooming)
    requires may { MayDraftBatch batch.now }
    ensures { IfOk result.0 (λ outs. DraftsBatch batch.now outs.items) }
{
    let others = each_by_one(work, batch);
    let texts = match &others {
        Ok(outs) if wanted => start_text_room(work.workers, nodes, outs.as_slice()),
        _ => None,
    };
    (others, texts)
}

/// What is drafted of a batch, each unit by one of several threads.
fn each_by_one<R: Threads + Sync, G: Gate + Sync>(
    work: &Work<R, G>,
    batch: &Batch,
) -> Result<Vec<Result<Draft, Refusal>>, NoMemory>
    requires may { MayDraftBatch batch.now }
    ensures { IfOk result (λ outs. DraftsBatch batch.now outs.items) }
{
    let job = Drafting {
        rt: work.workers.rt,
        alloc: work.workers.alloc,
        left: batch.left,
        shape: batch.shape,
        first: batch.first,
        gate: work.gate,
    };
    let open = OpenGate::new();
    let outs = each(work.workers, batch.end - batch.first, CLONE, &open, &job)?;
    Ok(outs.into_vec())
}

/// The draft of a unit of a shape, made by one worker or two, or that it is too long.
///
/// The gate is passed by the number of the unit, which is not that of the item in its batch.
fn draft_of<R: Threads + Sync, G: Gate>(
    work: &Work<R, G>,
    left: &[Analysis],
    shape: &Shape,
    unit: u32,
) -> Result<Draft, Refusal>
    requires { MayDraft left.now shape.now unit }
    ensures { DraftsBy left.now shape.now unit result }
{
    let rt = work.workers.rt;
    let alloc = work.workers.alloc;
    work.gate.pass(CLONE, unit);
    let clone = clone_unit(alloc, left, shape, unit)?;
    work.gate.pass(EMIT, unit);
    drafted(draft_unit(rt, alloc, work.workers.count, &clone, unit))
}

/// The draft, or what is told where there is none.
fn drafted(draft: Result<Draft, DraftError>) -> Result<Draft, Refusal>
    ensures { (graph : Linked) (u : ℕ) (unit : AUnit) → slice_get graph.units u ≡ Some unit → GivesDraft u unit draft → DraftsUnit graph u result }
{
    match draft {
        Ok(draft) => Ok(draft),
        Err(DraftError::Unit) => Err(Refusal::Limit {
            which: LimitKind::Unit,
            number: UNIT_BYTES,
        }),
        Err(DraftError::NoMemory) => Err(Refusal::NoMemory),
    }
}

/// The drafts of all units, or that one is too long.
pub fn all_drafted(alloc: Global, outs: Vec<Result<Draft, Refusal>>) -> Result<List<Draft>, Refusal>
    ensures { (graph : Linked) → length graph.units < 2 ^ 32 - 1 → GivesAll (DraftsUnit graph) (length graph.units) outs.items → DraftsUnits graph result }
{
    let mut drafts = List::with_capacity(alloc, outs.len())?;
    for out in outs {
        let draft = out?;
        drafts.push(draft)?;
    }
    Ok(drafts)
}
