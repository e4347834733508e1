//! A program linked, from the bytes of its objects.

ghost use Rattle.std.specs.Prelude.{◌≡◌, ◌<◌, ◌+◌, ◌^◌, ℕ, IfSome, List as Listed, length, true};
ghost use Rattle.std.specs.List.{All};
ghost use Rattle.dwarf_types.specs.Sound.{IsSound};
ghost use Rattle.object_reads.specs.MadeNames.{HaveNames};
ghost use Rattle.object_reads.specs.Marks.{MarkLive};
ghost use Rattle.object_reads.specs.Reading.{HoldsFrom};
ghost use Rattle.link_core.specs.Linked.{ChecksPart, Leaves, LinksPart, part_of};
ghost use Rattle.link_core.specs.Passes.{Links};

use crate::bundle::{Counted, Drafted, Linked};
use crate::image::file_of;
use crate::program::Program;
use crate::target::target_of;
use crate::unmerged::link_unmerged;
use ds_base::{BitRow, Bytes, List};
use ds_files::Gate;
use dwarf_types::Analysis;
use link_status::Refusal;
use object_reads::{FilesLeft, ReadObjects, Sources, read_all};
use odr_names::ObjectNames;
use std::thread::Threads;
use unit_drafts::{Shaped, count_entries, count_live, drafts_of, frames_of, shape_of};
use work_share::{Work, let_go};

/// Links a program with its objects: its image goes behind what `front` holds, where types of one name are merged, if `odr`
/// says so.
///
/// Faults come in the order of the objects, by whose numbers they are told, and behind them the limits: of merged entries, of
/// units, of a unit's bytes, of a section's, of the image's. Several threads read the objects and make their names, bid for
/// those that are merged, clone and draft the units of the output, and write its sections. Each passes the gate once for an
/// object before it reads it and before it bids for its names, and once for a unit before it clones it and before it drafts
/// it. Nothing that is written depends on the number of threads: the closed table alone may have a name at another cell.
///
/// Files of which no later object is go once all objects of the program are read. Where nothing is merged, objects are read
/// batch by batch: the units of one are drafted, and its analyses go and the files of which no later object is, before the
/// next is read. The gate is not passed for names then. Where more than one thread may work, what is needed no more goes in
/// threads that nobody waits for: they give back memory alone, and may end behind the call.
pub fn link_objects<R: Threads + Sync, G: Gate + Sync>(
    work: &Work<R, G>,
    odr: bool,
    program: &Program,
    sources: &Sources,
    files: &mut FilesLeft,
    front: Bytes,
) -> Result<Linked, Refusal>
    requires held { All (λ k. IfSome k (λ n. n < length files.old.left)) sources.now.numbers.now }
    requires files { (all : Listed (Listed ℕ)) × HoldsFrom sources.now.first sources.now.numbers.now all files.old }
    ensures links { (all : Listed (Listed ℕ)) → HoldsFrom sources.now.first sources.now.numbers.now all files.old → LinksPart odr (part_of program.now sources.now all) front result }
    ensures left { (all : Listed (Listed ℕ)) → HoldsFrom sources.now.first sources.now.numbers.now all files.old → Leaves (HoldsFrom sources.now.end sources.now.numbers.now all files.new) result }
{
    if odr {
        link_merged(work, program, sources, files, front)
    } else {
        link_unmerged(work, program, sources, files, front)
    }
}

/// Reads the objects of a program, and tells the first fault of the first that has one. Files of which no later object is go
/// once all are read.
pub fn check_objects<R: Threads + Sync, G: Gate + Sync>(
    work: &Work<R, G>,
    program: &Program,
    sources: &Sources,
    files: &mut FilesLeft,
) -> Result<(), Refusal>
    requires held { All (λ k. IfSome k (λ n. n < length files.old.left)) sources.now.numbers.now }
    requires files { (all : Listed (Listed ℕ)) × HoldsFrom sources.now.first sources.now.numbers.now all files.old }
    ensures checks { (all : Listed (Listed ℕ)) → HoldsFrom sources.now.first sources.now.numbers.now all files.old → ChecksPart (part_of program.now sources.now all) result }
    ensures left { (all : Listed (Listed ℕ)) → HoldsFrom sources.now.first sources.now.numbers.now all files.old → Leaves (HoldsFrom sources.now.end sources.now.numbers.now all files.new) result }
{
    read_all(work, target_of(program), false, sources, files)?;
    Ok(())
}

/// Links a program with its objects, where types of one name are merged.
fn link_merged<R: Threads + Sync, G: Gate + Sync>(
    work: &Work<R, G>,
    program: &Program,
    sources: &Sources,
    files: &mut FilesLeft,
    front: Bytes,
) -> Result<Linked, Refusal>
    requires held { All (λ k. IfSome k (λ n. n < length files.old.left)) sources.now.numbers.now }
    requires files { (all : Listed (Listed ℕ)) × HoldsFrom sources.now.first sources.now.numbers.now all files.old }
    ensures links { (all : Listed (Listed ℕ)) → HoldsFrom sources.now.first sources.now.numbers.now all files.old → LinksPart true (part_of program.now sources.now all) front result }
    ensures left { (all : Listed (Listed ℕ)) → HoldsFrom sources.now.first sources.now.numbers.now all files.old → Leaves (HoldsFrom sources.now.end sources.now.numbers.now all files.new) result }
{
    let read = read_all(work, target_of(program), true, sources, files)?;
    let ReadObjects { seen, marks, made } = read;
    link_marked(work, program, seen, marks.as_slice(), made, front)
}

/// Links the marked entries of a program's objects. `made` are the names of each object.
fn link_marked<R: Threads + Sync, G: Gate + Sync>(
    work: &Work<R, G>,
    program: &Program,
    seen: List<Analysis>,
    marks: &[BitRow],
    made: List<ObjectNames>,
    front: Bytes,
) -> Result<Linked, Refusal>
    requires few { length seen < 2 ^ 16 }
    requires sound { All IsSound seen }
    requires live { MarkLive seen marks.now }
    requires made { HaveNames true seen marks.now made }
    ensures { Links true program.now.image.now front seen marks.now result }
{
    let objects = seen.len() as u64;
    let entries = count_entries(seen.as_slice());
    let live = count_live(seen.as_slice(), marks);
    let shaped = shape_of(work, true, seen.as_slice(), marks, made)?;
    let Shaped {
        shape,
        pooled,
        names,
        closed,
    } = shaped;
    let frames = frames_of(work.workers.alloc, seen.as_slice())?;
    let mut texts = None;
    let drafts = drafts_of(work, seen, &shape, &mut texts)?;
    let_go(work.workers, shape);
    let counted = Counted {
        objects,
        entries,
        live,
        pooled,
        names,
    };
    let drafted = Drafted {
        drafts,
        texts,
        frames,
        counted,
        closed,
    };
    file_of(work.workers, program, drafted, front)
}
