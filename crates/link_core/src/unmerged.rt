//! A link in which nothing is merged: the units of each object are drafted once it is read, and its analysis goes.

ghost use Rattle.std.specs.Prelude.{◌≡◌, ◌<◌, ◌≤◌, ◌+◌, ◌^◌, ℕ, Bool, List as Listed, [], ◌∷◌, ◌++◌, false, length, Ok, IfOk, IfSome, OnOk};
ghost use Rattle.std.specs.List.{All};
ghost use Rattle.dwarf_types.specs.declared.analysis.Analysis.{Analysis as Seen};
ghost use Rattle.dwarf_types.specs.Sound.{IsSound};
ghost use Rattle.link_graph.specs.Merged.{shape_of};
ghost use Rattle.link_graph.specs.OwnShapes.{IsOwnShape, StandsBehind};
ghost use Rattle.link_graph.specs.Passes.{marked};
ghost use Rattle.object_reads.specs.declared.target.Target.{Target};
ghost use Rattle.object_reads.specs.Reading.{HoldsFrom};
ghost use Rattle.object_reads.specs.Sources.{Source};
ghost use Rattle.unit_drafts.specs.Graphs.{IsClosed};
ghost use Rattle.link_core.specs.Linked.{Leaves, LinksPart, part_of};
ghost use Rattle.link_core.specs.Passes.{Links};
ghost use Rattle.link_core.specs.Unmerged.{AddsUpTo, AreLinked, HasUnits, IsUnmerged, IsWhole, MayAdd, MayAddBatch};

use crate::bundle::{Counted, Drafted, Linked};
use crate::image::file_of;
use crate::program::Program;
use crate::target::target_of;
use ds_base::limits::SECTION_BYTES;
use ds_base::{BitRow, Bytes, List, NoMemory};
use ds_files::Gate;
use dwarf_types::{Analysis, OutFrames, Shape};
use link_graph::{ObjectShape, ShapeError, add_object, empty_shape, kept_shape};
use link_status::Refusal;
use object_reads::{FilesLeft, ReadBatch, ReadObject, Sources, read_next};
use std::alloc::Global;
use std::thread::Threads;
use type_pool::ClosedPool;
use unit_drafts::{Drafts, all_drafted, count_marks, no_names, too_many_units};
use work_share::{Work, Workers};

/// What is linked of the first objects.
#[derive(Drop)]
pub(crate) struct Unmerged {
    pub shape: Shape,
    pub drafts: Drafts,
    pub frames: OutFrames,
    /// The entries of these objects.
    pub entries: u64,
    /// The live entries among them.
    pub live: u64,
    /// Whether there are more units than can be numbered. Then none is drafted any more.
    pub many: bool,
}

/// Links a program with its objects, where nothing is merged.
///
/// Objects are read in batches, behind each of which the units of its objects are drafted, and their analyses go and the
/// files of which no later object is. Archives are walked once for each batch, of which there are few. A limit is told once
/// no object has a fault.
pub(crate) fn link_unmerged<R: Threads + Sync, G: Gate + Sync>(
    work: &Work<R, G>,
    program: &Program,
    sources: &Sources,
    files: &mut FilesLeft,
    front: Bytes,
) -> Result<Linked, Refusal>
    requires held { All (λ k. IfSome k (λ n. n < length files.old.left)) sources.now.numbers.now }
    requires files { (all : Listed (Listed ℕ)) × HoldsFrom sources.now.first sources.now.numbers.now all files.old }
    ensures links { (all : Listed (Listed ℕ)) → HoldsFrom sources.now.first sources.now.numbers.now all files.old → LinksPart false (part_of program.now sources.now all) front result }
    ensures left { (all : Listed (Listed ℕ)) → HoldsFrom sources.now.first sources.now.numbers.now all files.old → Leaves (HoldsFrom sources.now.end sources.now.numbers.now all files.new) result }
{
    let alloc = work.workers.alloc;
    let target = target_of(program);
    let closed = no_names(work)?;
    let mut linked = Unmerged::new(alloc);
    let mut first = sources.first;
    while first < sources.end {
        let batch = read_next(work, target, sources, files, first)?;
        let ReadBatch { end, outs } = batch;
        linked.add_batch(alloc, outs)?;
        linked.draft_others(work)?;
        first = end;
    }
    linked.file(work.workers, program, closed, front)
}

impl Unmerged {
    /// What is linked of no objects.
    fn new(alloc: Global) -> Unmerged
        ensures { IsUnmerged [] [] result }
    {
        Unmerged {
            shape: empty_shape(alloc),
            drafts: Drafts::new(alloc, List::new(alloc), false),
            frames: OutFrames::new(alloc),
            entries: 0,
            live: 0,
            many: false,
        }
    }

    /// Puts what was read of the objects of a batch behind the objects before, or tells the first fault of the first that
    /// has one.
    fn add_batch(
        &mut self,
        alloc: Global,
        outs: Vec<Result<ReadObject, Refusal>>,
    ) -> Result<(), Refusal>
        requires { (target : Target) × (start first count : ℕ) × (sources : Listed Source) × MayAddBatch target start sources first count self.old outs.items }
        ensures { (target : Target) (start first count : ℕ) (sources : Listed Source) → MayAddBatch target start sources first count self.old outs.items
            → AddsUpTo target start sources (first + count) self.new result }
    {
        for out in outs {
            let object = out?;
            self.add(alloc, object)?;
        }
        Ok(())
    }

    /// Puts an object behind the objects before.
    fn add(&mut self, alloc: Global, object: ReadObject) -> Result<(), NoMemory>
        requires { (seen : Listed Seen) × (marks : Listed (Listed Bool)) × MayAdd seen marks self.old object }
        ensures { (seen : Listed Seen) (marks : Listed (Listed Bool)) → MayAdd seen marks self.old object
            → OnOk result (IsUnmerged (seen ++ object.analysis ∷ []) (marks ++ object.live ∷ []) self.new) }
    {
        let ReadObject { analysis, live, .. } = object;
        let entries = analysis.entries.len() as u32;
        self.entries += u64::from(entries);
        self.live += u64::from(count_marks(&live, entries));
        self.frames.append(&analysis.frames)?;
        let number = self.drafts.left.len() as u32;
        self.many = add_units(alloc, &mut self.shape, self.many, number, &analysis, &live)?;
        self.drafts.left.push(analysis)?;
        Ok(())
    }

    /// Drafts the units that are not drafted yet, unless there are too many, and lets the analyses go.
    fn draft_others<R: Threads + Sync, G: Gate + Sync>(
        &mut self,
        work: &Work<R, G>,
    ) -> Result<(), NoMemory>
        requires drawn { (seen : Listed Seen) × (marks : Listed (Listed Bool)) × AreLinked seen marks self.old }
        ensures { (seen : Listed Seen) (marks : Listed (Listed Bool)) → AreLinked seen marks self.old → OnOk result (IsWhole seen marks self.new) }
    {
        if self.many {
            return Ok(());
        }
        self.drafts.draft_others(work, &self.shape)?;
        self.drafts.let_go(work.workers.alloc);
        Ok(())
    }

    /// A file with the image of a program with all objects behind what stands in it, or the first limit that is reached.
    fn file<R: Threads + Sync>(
        self,
        workers: &Workers<R>,
        program: &Program,
        closed: ClosedPool,
        front: Bytes,
    ) -> Result<Linked, Refusal>
        requires whole { (seen : Listed Seen) × (marks : Listed (Listed Bool)) × IsWhole seen marks self }
        requires closed { IsClosed [] closed }
        ensures { (seen : Listed Seen) (marks : Listed (Listed Bool)) → IsWhole seen marks self → Links false program.now.image.now front seen marks result }
    {
        let Unmerged {
            shape,
            drafts,
            frames,
            entries,
            live,
            many,
        } = self;
        drop(shape);
        if many {
            return Err(too_many_units());
        }
        let Drafts { left, outs, .. } = drafts;
        let objects = left.len() as u64;
        drop(left);
        let counted = Counted {
            objects,
            entries,
            live,
            pooled: 0,
            names: 0,
        };
        let drafts = all_drafted(workers.alloc, outs)?;
        let drafted = Drafted {
            drafts,
            texts: None,
            frames,
            counted,
            closed,
        };
        file_of(workers, program, drafted, front)
    }
}

/// Puts an object of a number behind those of a shape, unless there are too many units. Whether there are.
fn add_units(
    alloc: Global,
    shape: &mut Shape,
    many: bool,
    number: u32,
    analysis: &Analysis,
    live: &BitRow,
) -> Result<bool, NoMemory>
    requires few { number < 2 ^ 16 }
    requires sound { IsSound analysis.now }
    requires marked { length live.now ≡ length analysis.now.entries }
    ensures { (seen : Listed Seen) (marks : Listed (Listed Bool)) → StandsBehind seen marks analysis.now live.now → number ≡ length seen → HasUnits seen marks shape.old many
        → IfOk result (HasUnits (seen ++ analysis.now ∷ []) (marks ++ live.now ∷ []) shape.new) }
{
    if many {
        return Ok(true);
    }
    let own = kept_shape(alloc, number, analysis, live)?;
    grow(shape, own)
}

/// Puts an object behind those of a shape. Whether there are too many units then.
fn grow(shape: &mut Shape, own: ObjectShape) -> Result<bool, NoMemory>
    requires own { (i : ℕ) × (object : Seen) × (row : Listed Bool) × IsSound object × (length row ≡ length object.entries) × IsOwnShape i (marked object row) own }
    ensures { (seen : Listed Seen) (marks : Listed (Listed Bool)) (object : Seen) (row : Listed Bool) → StandsBehind seen marks object row → shape.old ≡ shape_of false seen marks
        → IsOwnShape (length seen) (marked object row) own → IfOk result (HasUnits (seen ++ object ∷ []) (marks ++ row ∷ []) shape.new) }
{
    match add_object(shape, own) {
        Ok(()) => Ok(shape.units.len() as u64 >= SECTION_BYTES),
        Err(ShapeError::Units) => Ok(true),
        Err(ShapeError::NoMemory) => Err(NoMemory),
    }
}
