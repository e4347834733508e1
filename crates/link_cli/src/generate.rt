//! A generated program, linked in the place of one that is read.

ghost use Rattle.std.specs.Prelude.{◌≡◌, ◌<◌, ◌≤◌, ◌^◌, map, length, IfOk, Ok, Some};
ghost use Rattle.std.specs.List.{All, range_with_len};
ghost use Rattle.macho_read.specs.declared.kind.Role.TheVariants as roles;
ghost use Rattle.macho_read.specs.Kind.{kind_of};
ghost use Rattle.macho_read.specs.Sound.{IsSound as IsSoundImage};
ghost use Rattle.sample_objects.specs.GeneratedProgram.{generated_program};
ghost use Rattle.link_program.specs.Making.{Bundles};
ghost use Rattle.link_status.specs.Names.{last_part};
ghost use Rattle.object_reads.specs.Sources.{sources_of};
ghost use Rattle.link_cli.specs.Answer.{LinksGenerated};
ghost use Rattle.link_cli.specs.Endings.{Tells, counts_ending};
ghost use Rattle.link_cli.specs.Plans.{plan_seen};

use crate::ending::Ending;
use crate::link::wanted;
use crate::making::shared_program;
use crate::plan::Plan;
use crate::texts::summary;
use ds_base::{Bytes, List, NoMemory};
use ds_files::Gate;
use link_core::Counts;
use link_program::{Bundle, link_files};
use link_status::{Refusal, Status};
use macho_read::Image;
use sample_objects::Generated;
use stab_map::MapObject;
use std::alloc::Global;
use std::thread::Threads;
use work_share::Work;

/// Links the generated program of so many objects, and tells what was counted.
pub(crate) fn link_generated<R: Threads + Sync, G: Gate + Sync>(
    work: &Work<R, G>,
    plan: &Plan,
    count: u32,
) -> Ending
    requires some { 1 ≤ count }
    requires few { count ≤ 1000 }
    ensures { LinksGenerated (plan_seen plan.now) count (generated_program count) result }
{
    let alloc = work.workers.alloc;
    let Ok(made) = shared_program(work.workers, count) else {
        return Ending::no_memory(alloc);
    };
    let Generated {
        program,
        objects,
        files,
    } = made;
    match bundle(work, plan, count, &program, objects.as_slice(), files) {
        Ok(linked) => tell_counts(alloc, &linked.counts),
        Err(refusal) => {
            let status = Status::from(refusal);
            Ending::refused(alloc, plan, objects.as_slice(), Bytes::new(alloc), status)
        }
    }
}

/// Tells what was counted.
fn tell_counts(alloc: Global, counts: &Counts) -> Ending
    ensures { Tells (counts_ending counts.now) result }
{
    match summary(alloc, counts) {
        Ok(message) => Ending {
            status: Status::Done,
            message,
        },
        Err(NoMemory) => Ending::no_memory(alloc),
    }
}

/// The bundle of a program with so many objects, each of a file of its own.
fn bundle<R: Threads + Sync, G: Gate + Sync>(
    work: &Work<R, G>,
    plan: &Plan,
    count: u32,
    program: &Image,
    objects: &[MapObject],
    files: List<Bytes>,
) -> Result<Bundle, Refusal>
    requires few { count ≤ 1000 }
    requires objects { length objects.now ≡ count }
    requires files { length files ≡ count }
    requires sound { IsSoundImage program.now }
    requires kind { kind_of program.now roles.Program ≡ Ok tt }
    requires small { All (λ file. length file < 2 ^ 32) files }
    ensures { Bundles plan.now.odr program.now (last_part (plan_seen plan.now).exe) (sources_of objects.now files (map (λ k. Some k) (range_with_len 0 count))) result }
{
    let numbers = numbers_below(work.workers.alloc, count)?;
    link_files(
        work,
        program,
        &wanted(plan),
        objects,
        numbers.as_slice(),
        files,
    )
}

/// The numbers below this one.
fn numbers_below(alloc: Global, count: u32) -> Result<List<Option<u32>>, NoMemory>
    ensures { IfOk result (λ numbers. numbers ≡ map (λ k. Some k) (range_with_len 0 count)) }
{
    let mut numbers = List::new(alloc);
    for k in 0..count {
        numbers.push(Some(k))?;
    }
    Ok(numbers)
}
