//! The objects of a program, read by several threads.

ghost use Rattle.std.specs.Prelude.{◌≡◌, ◌<◌, ◌≤◌, ◌+◌, ◌-◌, ◌++◌, ◌^◌, ℕ, Bool, List as Listed, IfOk, IfSome, OnOk, [], length, slice_index_or};
ghost use Rattle.std.specs.Option.{option_map, option_to_list};
ghost use Rattle.std.specs.List.{All};
ghost use Rattle.work_share.specs.Results.{GivesAll};
ghost use Rattle.object_reads.specs.Sources.{Source, lent_sources, listed, sources_of};
ghost use Rattle.object_reads.specs.Opening.{IsOpened};
ghost use Rattle.object_reads.specs.declared.target.Target.{Target as ATarget};
ghost use Rattle.object_reads.specs.MadeNames.{AllNamed, HaveNames, NamesAt, ReadsNamed};
ghost use Rattle.object_reads.specs.Reading.{HoldsFrom, Reads, ReadsAt, ReadsBatch};

use crate::files::{FilesLeft, batch_end, drop_files};
use crate::lent::Lent;
use crate::objects::{ReadObject, numbered, read_object};
use crate::opened::Opened;
use crate::opening::open_files;
use crate::sizes::large_first;
use crate::sources::Sources;
use crate::target::Target;
use ds_base::{BitRow, List, NoMemory};
use ds_files::{Gate, OpenGate};
use dwarf_types::Analysis;
use link_status::Refusal;
use odr_names::ObjectNames;
use std::alloc::Global;
use std::thread::Threads;
use work_share::{Job, Work, each_in_order, let_go};

/// The number of the phase in which objects are read.
const ANALYSE: u32 = 0;

/// The objects of a program as they were read.
#[derive(Drop)]
pub struct ReadObjects {
    pub seen: List<Analysis>,
    /// The marks of the live entries of each.
    pub marks: List<BitRow>,
    /// The names of each, where those of one name are merged.
    pub made: List<ObjectNames>,
}

/// What is read of a batch of objects.
#[derive(Drop)]
pub struct ReadBatch {
    /// The first object behind them, counted from 0.
    pub end: u32,
    pub outs: Vec<Result<ReadObject, Refusal>>,
}

/// The objects from one up to another, which are read together.
#[derive(Clone, Copy)]
struct Batch {
    first: u32,
    end: u32,
    /// Whether their names are made too.
    named: bool,
}

/// Each object of a batch is read.
#[derive(Drop)]
struct Reading<'a, 'b, G> {
    alloc: Global,
    lent: &'a Lent<'b>,
    batch: Batch,
    gate: &'a G,
}

impl<'a, 'b, G: Gate> Job for Reading<'a, 'b, G> {
    type Out = Result<ReadObject, Refusal>;

    ghost takes = { λ job item. (job.batch.first + item < length job.lent.now.objects.now) × (item + 1 < 2 ^ 16) };

    ghost gives = { λ job item out. ReadsNamed job.batch.named job.lent.now.target (lent_sources job.lent.now) job.batch.first item out };

    fn run(&self, item: u32) -> Result<ReadObject, Refusal> {
        let object = self.batch.first + item;
        self.gate.pass(ANALYSE, object);
        let file = file_of(self.lent, self.lent.numbers[object as usize]);
        let read = read_object(
            self.alloc,
            self.lent.target,
            self.batch.named,
            item + 1,
            &self.lent.objects[object as usize],
            file,
        );
        numbered(object + 1, read)
    }
}

/// The file of a number, as it was opened, if there is one.
fn file_of<'a>(lent: &Lent<'a>, number: Option<u32>) -> Option<&'a Opened<'a>>
    requires { IfSome number (λ n. n < length lent.now.files.now) }
    ensures { IsOpened lent.now.target.arch (option_map (λ k. slice_index_or lent.now.files.now k []) number) result }
{
    let n = number? as usize;
    let opened = lent.opened;
    Some(&opened[n])
}

/// The analyses of a program's objects, with the marks of their live entries and their names, if these are wanted; or the
/// first fault of the first object that has one.
///
/// Each archive is walked once. Which thread meets a fault first says nothing. Once all objects are read, the files go of
/// which no object behind them is.
pub fn read_all<R: Threads + Sync, G: Gate + Sync>(
    work: &Work<R, G>,
    target: Target,
    named: bool,
    sources: &Sources,
    files: &mut FilesLeft,
) -> Result<ReadObjects, Refusal>
    requires held { All (λ k. IfSome k (λ n. n < length files.old.left)) sources.now.numbers.now }
    requires files { (all : Listed (Listed ℕ)) × HoldsFrom sources.now.first sources.now.numbers.now all files.old }
    ensures read { (all : Listed (Listed ℕ)) → HoldsFrom sources.now.first sources.now.numbers.now all files.old → AllNamed named target sources.now.first (listed sources.now all) result }
    ensures left { (all : Listed (Listed ℕ)) → HoldsFrom sources.now.first sources.now.numbers.now all files.old → IfOk result (λ _. HoldsFrom sources.now.end sources.now.numbers.now all files.new) }
{
    let batch = Batch {
        first: sources.first,
        end: sources.end,
        named,
    };
    let outs = read_batch(work, target, sources, files, batch)?;
    all_read(work.workers.alloc, outs)
}

/// What is read of the batch of a program's objects that begins with `first`. Files go of which no later object is.
pub fn read_next<R: Threads + Sync, G: Gate + Sync>(
    work: &Work<R, G>,
    target: Target,
    sources: &Sources,
    files: &mut FilesLeft,
    first: u32,
) -> Result<ReadBatch, NoMemory>
    requires there { (sources.now.first ≤ first) × (first < sources.now.end) }
    requires held { All (λ k. IfSome k (λ n. n < length files.old.left)) sources.now.numbers.now }
    requires files { (all : Listed (Listed ℕ)) × HoldsFrom first sources.now.numbers.now all files.old }
    ensures { (all : Listed (Listed ℕ)) → HoldsFrom first sources.now.numbers.now all files.old
        → IfOk result (λ batch. ReadsBatch target (listed sources.now all) first batch × HoldsFrom batch.end sources.now.numbers.now all files.new) }
{
    let end = batch_end(files, sources.numbers, first, sources.end);
    let batch = Batch {
        first,
        end,
        named: false,
    };
    let outs = read_batch(work, target, sources, files, batch)?;
    Ok(ReadBatch { end, outs })
}

/// What is read of the objects of a batch. Files go of which no later object is.
fn read_batch<R: Threads + Sync, G: Gate + Sync>(
    work: &Work<R, G>,
    target: Target,
    sources: &Sources,
    files: &mut FilesLeft,
    batch: Batch,
) -> Result<Vec<Result<ReadObject, Refusal>>, NoMemory>
    requires order { (batch.first ≤ batch.end) × (batch.end ≤ sources.now.end) × (sources.now.first ≤ batch.first) }
    requires held { All (λ k. IfSome k (λ n. n < length files.old.left)) sources.now.numbers.now }
    requires files { (all : Listed (Listed ℕ)) × HoldsFrom batch.first sources.now.numbers.now all files.old }
    ensures read { (all : Listed (Listed ℕ)) → HoldsFrom batch.first sources.now.numbers.now all files.old
        → IfOk result (λ outs. GivesAll (λ k out. ReadsNamed batch.named target (listed sources.now all) batch.first k out) (batch.end - batch.first) outs.items) }
    ensures left { (all : Listed (Listed ℕ)) → HoldsFrom batch.first sources.now.numbers.now all files.old → IfOk result (λ _. HoldsFrom batch.end sources.now.numbers.now all files.new) }
{
    let alloc = work.workers.alloc;
    let outs = {
        let opened = open_files(alloc, target.arch, files.left.as_slice())?;
        let lent = Lent {
            target,
            objects: sources.objects,
            numbers: sources.numbers,
            files: files.left.as_slice(),
            opened: opened.as_slice(),
        };
        read_lent(work, &lent, batch)?
    };
    let gone = drop_files(
        alloc,
        files.left.as_mut_slice(),
        sources.numbers,
        &files.last,
        batch.first,
        batch.end,
    )?;
    let_go(work.workers, gone);
    Ok(outs.into_vec())
}

/// What is read of the objects of a batch, of which large ones are begun first.
fn read_lent<R: Threads + Sync, G: Gate + Sync>(
    work: &Work<R, G>,
    lent: &Lent,
    batch: Batch,
) -> Result<List<Result<ReadObject, Refusal>>, NoMemory>
    requires { (batch.first ≤ batch.end) × (batch.end ≤ length lent.now.objects.now) × (batch.end < batch.first + 2 ^ 16) }
    ensures { IfOk result (λ outs. GivesAll (λ k out. ReadsNamed batch.named lent.now.target (lent_sources lent.now) batch.first k out) (batch.end - batch.first) outs) }
{
    let alloc = work.workers.alloc;
    let job = Reading {
        alloc,
        lent,
        batch,
        gate: work.gate,
    };
    let open = OpenGate::new();
    let order = large_first(alloc, lent.files, lent.numbers, batch.first, batch.end)?;
    each_in_order(
        work.workers,
        batch.end - batch.first,
        order.as_slice(),
        ANALYSE,
        &open,
        &job,
    )
}

/// The objects that were read, or the first fault of the first that has one.
fn all_read(alloc: Global, outs: Vec<Result<ReadObject, Refusal>>) -> Result<ReadObjects, Refusal>
    ensures read { (target : ATarget) (first : ℕ) (sources : Listed Source) → first ≤ length sources → GivesAll (λ k out. ReadsAt target sources (first + k) out) (length sources - first) outs.items → Reads target first sources result }
    ensures names { (named : Bool) (count : ℕ) → GivesAll (NamesAt named) count outs.items → IfOk result (λ it. HaveNames named it.seen it.marks it.made) }
{
    let mut seen = List::with_capacity(alloc, outs.len())?;
    let mut marks = List::with_capacity(alloc, outs.len())?;
    let mut made = List::new(alloc);
    for out in outs {
        let object = out?;
        seen.push(object.analysis)?;
        marks.push(object.live)?;
        put_made(&mut made, object.made)?;
    }
    Ok(ReadObjects { seen, marks, made })
}

/// Puts the names of an object behind those of the objects before, if they were made.
fn put_made(all: &mut List<ObjectNames>, made: Option<ObjectNames>) -> Result<(), NoMemory>
    ensures { OnOk result (all.new ≡ all.old ++ option_to_list made) }
{
    let Some(made) = made else {
        return Ok(());
    };
    all.push(made)
}
