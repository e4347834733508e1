//! Links of generated programs by two threads.

ghost use Rattle.std.specs.Prelude.{◌≡◌, ◌<◌, ◌^◌, ℕ, List as Listed, length, IfOk, IfSome, Ok};
ghost use Rattle.object_reads.specs.Reading.{HoldsFrom};
ghost use Rattle.std.specs.List.{All};
ghost use Rattle.macho_read.specs.declared.kind.Role.TheVariants as roles;
ghost use Rattle.macho_read.specs.Kind.{kind_of};
ghost use Rattle.macho_read.specs.Sound.{IsSound};

use ds_base::{Bytes, List, NoMemory};
use ds_files::{Gate, OpenGate};
use link_core::{Linked, Program, link_objects};
use macho_read::Image;
use meeting_gate::Meeting;
use object_reads::{FilesLeft, Sources};
use sample_objects::{Generated, generated};
use std::alloc::Global;
use std::process::Abort;
use std::thread::Threads;
use type_pool::ClosedPool;
use universal::Arch;
use work_share::{Work, Workers};

/// A generated program has so many objects, each with its file.
fn has_objects(rt: &impl Abort, made: &Generated, count: usize)
    ensures { (length made.now.objects ≡ count) × (length made.now.files ≡ count) }
{
    assert!(rt; made.objects.len() == count && made.files.len() == count);
}

/// What two threads link of a generated program of two objects, with types merged or not.
fn link_two<R: Threads + Abort + Sync>(
    rt: &R,
    alloc: Global,
    odr: bool,
    gate: &Meeting,
) -> Option<Linked> {
    let made = generated(rt, alloc, 2).expect(rt, "memory");
    has_objects(rt, &made, 2);
    link_all(rt, alloc, made, &[Some(0), Some(1)], odr, gate)
}

/// The numbers below this one.
fn numbers_below(alloc: Global, count: u32) -> Result<List<Option<u32>>, NoMemory>
    ensures { IfOk result (λ made. (length made ≡ count) × All (λ k. IfSome k (λ n. n < count)) made) }
{
    let mut numbers = List::new(alloc);
    for k in 0..count {
        numbers.push(Some(k))?;
    }
    Ok(numbers)
}

/// What two threads link of a generated program of forty objects, with types merged.
fn link_forty<R: Threads + Abort + Sync>(rt: &R, alloc: Global) -> Option<Linked> {
    let made = generated(rt, alloc, 40).expect(rt, "memory");
    has_objects(rt, &made, 40);
    let source = numbers_below(alloc, 40).expect(rt, "memory");
    let gate = OpenGate::new();
    let linked = link_all(rt, alloc, made, source.as_slice(), true, &gate);
    drop(source);
    linked
}

/// What two threads link of a generated program, the files of whose objects have these numbers.
fn link_all<R: Threads + Abort + Sync, G: Gate + Sync>(
    rt: &R,
    alloc: Global,
    made: Generated,
    source: &[Option<u32>],
    odr: bool,
    gate: &G,
) -> Option<Linked>
    requires sound { IsSound made.program }
    requires kind { kind_of made.program roles.Program ≡ Ok tt }
    requires few { length made.objects < 2 ^ 16 }
    requires each { length source.now ≡ length made.objects }
    requires held { All (λ k. IfSome k (λ n. n < length made.files)) source.now }
    requires small { All (λ file. length file < 2 ^ 32) made.files }
{
    let Generated {
        program,
        objects,
        files,
    } = made;
    let workers = Workers {
        rt,
        alloc,
        count: 2,
    };
    let work = Work {
        workers: &workers,
        gate,
    };
    let sources = Sources {
        objects: objects.as_slice(),
        numbers: source,
        first: 0,
        end: objects.len() as u32,
    };
    let left = FilesLeft::new(alloc, files, source, 2);
    let linked = link_left(&work, odr, &program, &sources, left);
    drop(objects);
    drop(program);
    linked
}

/// The same, of files that are held.
fn link_left<R: Threads + Sync, G: Gate + Sync>(
    work: &Work<R, G>,
    odr: bool,
    program: &Image,
    sources: &Sources,
    files: Result<FilesLeft, NoMemory>,
) -> Option<Linked>
    requires sound { IsSound program.now }
    requires kind { kind_of program.now roles.Program ≡ Ok tt }
    requires held { IfOk files (λ it. All (λ k. IfSome k (λ n. n < length it.left)) sources.now.numbers.now) }
    requires files { IfOk files (λ it. (all : Listed (Listed ℕ)) × HoldsFrom sources.now.first sources.now.numbers.now all it) }
{
    let Ok(mut files) = files else {
        return None;
    };
    let arch = Arch {
        cpu: program.cpu,
        sub: program.sub,
    };
    let program = Program {
        arch,
        image: program,
    };
    let front = Bytes::new(work.workers.alloc);
    link_objects(work, odr, &program, sources, &mut files, front).ok()
}

/// How many cells of a closed table hold a name.
fn filled(closed: &ClosedPool) -> u64 {
    let mut filled: u64 = 0;
    for cell in 0..closed.cell_count() {
        if closed.name_word(cell) != 0 {
            filled = filled.saturating_add(1);
        }
    }
    filled
}

/// There is a bundle, and each of its names has a cell of the table that the threads shared: none is crowded.
fn each_has_a_cell(rt: &impl Abort, linked: Option<Linked>) {
    let linked = linked.expect(rt, "a bundle");
    let (seen, names) = (filled(&linked.closed), linked.counts.names);
    drop(linked);
    assert!(rt; seen == names);
}

/// So many came to the gate, two in each phase, and none waited in vain.
fn met(rt: &impl Abort, gate: &Meeting, count: u32) {
    assert!(rt; gate.met() == Some(count));
}

/// Two threads meet in each phase of a link, with types merged or not, so that so many came in all.
fn share<R: Threads + Abort + Sync>(rt: &R, alloc: Global, odr: bool, count: u32) {
    let gate = Meeting::new();
    each_has_a_cell(rt, link_two(rt, alloc, odr, &gate));
    met(rt, &gate, count);
}

// Of the four phases names have one, where types are merged alone.
#[test]
fn two_workers_share_each_phase(rt: HostRuntime) {
    share(&rt, rt.alloc(), true, 8);
    share(&rt, rt.alloc(), false, 6);
}

// The names of forty objects, 14,001 of them, share the table with a cell each.
#[test]
fn few_names_are_crowded(rt: HostRuntime) {
    each_has_a_cell(&rt, link_forty(&rt, rt.alloc()));
}
