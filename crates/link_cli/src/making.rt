//! The generated program, whose files are made by several threads.

ghost use Rattle.std.specs.Prelude.{◌≡◌, ◌<◌, ◌≤◌, ◌^◌, Ok, length, map, IfOk};
ghost use Rattle.std.specs.List.{All};
ghost use Rattle.std.specs.Thread.{IsSync};
ghost use Rattle.macho_read.specs.declared.kind.Role.TheVariants as roles;
ghost use Rattle.macho_read.specs.Kind.{kind_of};
ghost use Rattle.macho_read.specs.Sound.{IsSound};
ghost use Rattle.sample_objects.specs.GeneratedProgram.{generated_program};
ghost use Rattle.link_cli.specs.Making.{GivesFile};

use ds_base::{Bytes, List, NoMemory};
use ds_files::OpenGate;
use sample_objects::{Generated, generated_file, generated_with};
use std::alloc::Global;
use std::thread::Threads;
use work_share::{Job, Workers, each};

/// The number of the phase in which the files of objects are made. Its gate is open.
const MAKE: u32 = 0;

/// The file of each object is made.
#[derive(Drop)]
struct Making<'a, R> {
    rt: &'a R,
    alloc: Global,
}

impl<'a, R: Threads + Sync> Job for Making<'a, R> {
    type Out = Result<Bytes, NoMemory>;

    ghost takes = { λ job item. IsSync R.row × (item < 1000) };

    ghost gives = { λ job item out. GivesFile item out };

    fn run(&self, item: u32) -> Result<Bytes, NoMemory> {
        generated_file(self.rt, self.alloc, item + 1)
    }
}

/// The generated program of so many objects, whose files are made by several threads.
///
/// It is that of [`sample_objects::generated`]. A worker for which no thread can be started does its work in the caller's.
pub(crate) fn shared_program<R: Threads + Sync>(
    workers: &Workers<R>,
    count: u32,
) -> Result<Generated, NoMemory>
    requires some { 1 ≤ count }
    requires few { count ≤ 1000 }
    ensures exact { IfOk result (λ made. made ≡ generated_program count) }
    ensures sound { IfOk result (λ made. IsSound made.program) }
    ensures kind { IfOk result (λ made. kind_of made.program roles.Program ≡ Ok tt) }
    ensures small { IfOk result (λ made. All (λ file. length file < 2 ^ 32) made.files) }
{
    let alloc = workers.alloc;
    let job = Making {
        rt: workers.rt,
        alloc,
    };
    let gate = OpenGate::new();
    let outs = each(workers, count, MAKE, &gate, &job)?;
    let files = all_made(alloc, outs)?;
    generated_with(alloc, count, files)
}

/// The files of all objects, unless memory ran out for one.
fn all_made(alloc: Global, outs: List<Result<Bytes, NoMemory>>) -> Result<List<Bytes>, NoMemory>
    ensures { IfOk result (λ files. map (λ file. Ok file) files ≡ outs) }
{
    let mut files = Vec::with_capacity(alloc, outs.len())?;
    for out in outs.into_vec() {
        files.push(out?)?;
    }
    Ok(List::from_vec(files))
}
