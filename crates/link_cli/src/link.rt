//! The command, from its words to the bundle and the message.

ghost use Rattle.std.specs.Prelude.{◌≡◌, ◌<◌, ◌≤◌, ◌^◌, false, Ok, length, map};
ghost use Rattle.std.specs.String.{string_bytes};
ghost use Rattle.ds_files.specs.Outside.{IsLater};
ghost use Rattle.link_status.specs.Names.{last_part};
ghost use Rattle.link_cli.specs.Answer.{Ends, Links, LinksObjects, LinksSources, Runs, RunsProgram};
ghost use Rattle.link_cli.specs.Endings.{Tells, map_ending, said};
ghost use Rattle.link_program.specs.Files.{ReadsProgram, world};
ghost use Rattle.link_program.specs.Holding.{held_of};
ghost use Rattle.link_cli.specs.Plan.{HasCount, HasWorkers, is_generated};
ghost use Rattle.link_cli.specs.Plans.{plan_seen};
ghost use Rattle.link_program.specs.Seen.{AreSmall, IsLinkable, held_seen};

use crate::ending::Ending;
use crate::generate::link_generated;
use crate::output::write_bundle;
use crate::plan::{Mode, Plan, PlanError, plan_of_words};
use crate::texts::map_text;
use ds_base::limits::INPUT_BYTES;
use ds_base::{Bytes, NoMemory};
use ds_files::{Ahead, Files, Gate, Sink};
use link_program::{
    Bundle, HeldFiles, MappedProgram, Wanted, expect_files, link_held, read_files, read_program,
    unread,
};
use link_status::{Status, last_part};
use std::alloc::Global;
use std::thread::Threads;
use work_share::{Work, Workers};

/// Does what the command's words ask: links a program with its objects and writes the program's bundle, Info.plist and
/// the image; or tells its debug map; or links a generated program, whatever the files are, and tells what was counted.
/// The words are without the program's own name.
///
/// Files are numbered: 0 is the program, and its objects follow from 1 in the order of its debug map. The program and
/// each file that its map names are read, and each file of the bundle is replaced, by one call, so that a failure is told
/// of the file whose own call failed. All that is told goes out last, by one call. What is answered does not depend on
/// the number of threads that the words ask for. Threads that give back memory may end behind the call.
pub fn link_main<R: Threads + Sync, F: Files + Sync, S: Sink, G: Gate + Sync>(
    rt: &R,
    alloc: Global,
    words: &[String],
    files: &mut F,
    messages: &mut S,
    gate: &G,
) -> Status
    ensures exact { Links (map string_bytes words.now) (world (F.files files.old) (F.counts files.old)) (world (F.files files.new) (F.counts files.new)) (said (S.text messages.old) (S.faults messages.old) (S.calls messages.old)) (said (S.text messages.new) (S.faults messages.new) (S.calls messages.new)) result }
    ensures later { IsLater (F.counts files.old) (F.counts files.new) }
{
    let ending = run(rt, alloc, words, files, gate);
    ending.put(messages)
}

/// Does what the command's words ask.
fn run<R: Threads + Sync, F: Files + Sync, G: Gate + Sync>(
    rt: &R,
    alloc: Global,
    words: &[String],
    files: &mut F,
    gate: &G,
) -> Ending
    ensures { Ends (map string_bytes words.now) (world (F.files files.old) (F.counts files.old)) (world (F.files files.new) (F.counts files.new)) result }
{
    match plan_of_words(alloc, words) {
        Ok(plan) => run_plan(rt, alloc, &plan, files, gate),
        Err(PlanError::Usage) => Ending::usage(alloc),
        Err(PlanError::NoMemory) => Ending::no_memory(alloc),
    }
}

/// Does what a plan asks.
fn run_plan<R: Threads + Sync, F: Files + Sync, G: Gate + Sync>(
    rt: &R,
    alloc: Global,
    plan: &Plan,
    files: &mut F,
    gate: &G,
) -> Ending
    requires workers { HasWorkers plan.now.workers }
    requires count { HasCount plan.now.mode }
    ensures { Runs (plan_seen plan.now) (world (F.files files.old) (F.counts files.old)) (world (F.files files.new) (F.counts files.new)) result }
{
    let workers = Workers {
        rt,
        alloc,
        count: plan.workers,
    };
    let work = Work {
        workers: &workers,
        gate,
    };
    match plan.mode {
        Mode::Link => run_program(&work, plan, files),
        Mode::Map => run_program(&work, plan, files),
        Mode::Generate(count) => link_generated(&work, plan, count),
    }
}

/// Reads the program of a plan, and does what is to be done with it.
fn run_program<R: Threads + Sync, F: Files + Sync, G: Gate + Sync>(
    work: &Work<R, G>,
    plan: &Plan,
    files: &mut F,
) -> Ending
    requires { is_generated plan.now.mode ≡ false }
    ensures { RunsProgram (plan_seen plan.now) (world (F.files files.old) (F.counts files.old)) (world (F.files files.new) (F.counts files.new)) result }
{
    let alloc = work.workers.alloc;
    let bytes = match read_exe(alloc, plan.exe.as_str(), files) {
        Ok(bytes) => bytes,
        Err(status) => return Ending::refused(alloc, plan, &[], Bytes::new(alloc), status),
    };
    let most = INPUT_BYTES - bytes.len() as u64;
    let ahead = Workers {
        rt: work.workers.rt,
        alloc,
        count: workers_ahead(plan, work.workers.count),
    };
    let (read, ahead) = read_program(&ahead, bytes.as_slice(), most, files);
    drop(bytes);
    let program = match read {
        Ok(program) => program,
        Err(refusal) => {
            let status = Status::from(refusal);
            return Ending::refused(alloc, plan, &[], Bytes::new(alloc), status);
        }
    };
    match plan.mode {
        Mode::Link => link_with_files(work, plan, &program, most, ahead, files),
        Mode::Map => tell_map(alloc, &program),
        Mode::Generate(_) => unreachable!(),
    }
}

/// By how many of these workers the files of a program's objects may be read ahead: by one, which is none, where they aren't
/// read.
fn workers_ahead(plan: &Plan, workers: u32) -> u32
    requires { (1 ≤ workers) × (workers ≤ 64) }
    ensures { (1 ≤ result) × (result ≤ 64) }
{
    match plan.mode {
        Mode::Link => workers,
        Mode::Map | Mode::Generate(_) => 1,
    }
}

/// The bytes of the program's file.
fn read_exe<F: Files>(alloc: Global, exe: &str, files: &mut F) -> Result<Bytes, Status>
    ensures { ReadsProgram exe.now (world (F.files files.old) (F.counts files.old)) (world (F.files files.new) (F.counts files.new)) result }
{
    match files.read(alloc, exe, INPUT_BYTES) {
        Ok(bytes) => Ok(bytes),
        Err(error) => Err(unread(0, error)),
    }
}

/// Tells the debug map of a program.
fn tell_map(alloc: Global, program: &MappedProgram) -> Ending
    requires { length program.now.objects < 2 ^ 16 }
    ensures { Tells (map_ending program.now) result }
{
    match map_text(alloc, program) {
        Ok(message) => Ending {
            status: Status::Done,
            message,
        },
        Err(NoMemory) => Ending::no_memory(alloc),
    }
}

/// Reads the files of a program's objects, which have at most `most` bytes together, some of them ahead, links them and writes
/// the bundle.
fn link_with_files<R: Threads + Sync, F: Files + Sync, G: Gate + Sync>(
    work: &Work<R, G>,
    plan: &Plan,
    program: &MappedProgram,
    most: u64,
    ahead: Ahead,
    files: &mut F,
) -> Ending
    requires linkable { IsLinkable program.now }
    requires most { most ≤ 2 ^ 29 }
    ensures { LinksObjects (plan_seen plan.now) program.now most (world (F.files files.old) (F.counts files.old)) (world (F.files files.new) (F.counts files.new)) result }
{
    let alloc = work.workers.alloc;
    let objects = program.objects.as_slice();
    expect_files(ahead, files);
    match read_files(alloc, objects, plan.keep_going, most, files) {
        Ok(held) => write_linked(work, plan, program, held, files),
        Err(stopped) => { Ending::refused(alloc, plan, objects, stopped.warnings, stopped.status) }
    }
}

/// Links a program with its objects, whose files are held, and writes the bundle.
fn write_linked<R: Threads + Sync, F: Files, G: Gate + Sync>(
    work: &Work<R, G>,
    plan: &Plan,
    program: &MappedProgram,
    held: HeldFiles,
    files: &mut F,
) -> Ending
    requires linkable { IsLinkable program.now }
    requires held { length (held_seen held.files) < 2 ^ 16 }
    requires small { AreSmall (held_seen held.files) }
    ensures { LinksSources (plan_seen plan.now) program.now (held_of held.entry) (world (F.files files.old) (F.counts files.old)) (world (F.files files.new) (F.counts files.new)) result }
{
    let alloc = work.workers.alloc;
    let objects = program.objects.as_slice();
    match link_held(work, program, &wanted(plan), held.files) {
        Ok(linked) => write_bundle(alloc, plan, objects, held.warnings, &linked, files),
        Err(refusal) => {
            let status = Status::from(refusal);
            Ending::refused(alloc, plan, objects, held.warnings, status)
        }
    }
}

/// What a plan wants of a link.
pub(crate) fn wanted(plan: &Plan) -> Wanted
    ensures odr { result.odr ≡ plan.now.odr }
    ensures name { result.name.now ≡ last_part (plan_seen plan.now).exe }
{
    Wanted {
        odr: plan.odr,
        name: last_part(plan.exe.as_str()),
    }
}
