//! The bundle of a program, from the files of its objects.

ghost use Rattle.std.specs.Prelude.{◌≡◌, ◌<◌, ◌^◌, IfSome, Ok, length};
ghost use Rattle.std.specs.List.{All};
ghost use Rattle.macho_read.specs.declared.kind.Role.TheVariants as roles;
ghost use Rattle.macho_read.specs.Kind.{kind_of};
ghost use Rattle.macho_read.specs.Sound.{IsSound};
ghost use Rattle.object_reads.specs.Sources.{sources_of};
ghost use Rattle.link_program.specs.Making.{Bundles, sources_in};
ghost use Rattle.link_program.specs.Seen.{AreSmall, IsLinkable, held_seen};

use crate::bundle::{Bundle, Wanted};
use crate::files::{contents_of, numbers_of};
use crate::program::MappedProgram;
use ds_base::{Bytes, List};
use ds_files::Gate;
use dsym_write::plist_text;
use indexmap::IndexMap;
use link_core::{Linked, Program, link_objects};
use link_status::Refusal;
use macho_read::Image;
use object_reads::{FilesLeft, Sources};
use stab_map::MapObject;
use std::thread::Threads;
use universal::Arch;
use work_share::Work;

/// Links a program with its objects by the files that are held, each by its name. An object whose file is not held has no
/// entries.
pub fn link_held<R: Threads + Sync, G: Gate + Sync>(
    work: &Work<R, G>,
    program: &MappedProgram,
    wanted: &Wanted,
    held: IndexMap<&[u8], Bytes>,
) -> Result<Bundle, Refusal>
    requires linkable { IsLinkable program.now }
    requires held { length (held_seen held) < 2 ^ 16 }
    requires small { AreSmall (held_seen held) }
    ensures { Bundles wanted.now.odr program.now.image wanted.now.name.now (sources_in (held_seen held.entry) program.now.objects) result }
{
    let alloc = work.workers.alloc;
    let objects = program.objects.as_slice();
    let numbers = numbers_of(alloc, objects, &held)?;
    let files = contents_of(alloc, held)?;
    link_files(
        work,
        &program.image,
        wanted,
        objects,
        numbers.as_slice(),
        files,
    )
}

/// Links a program with its objects. `numbers` tells for each the number of its file, counted from 0; an object without one
/// has no entries. Slices of universal files are those for the CPU type and subtype in the program's header.
pub fn link_files<R: Threads + Sync, G: Gate + Sync>(
    work: &Work<R, G>,
    program: &Image,
    wanted: &Wanted,
    objects: &[MapObject],
    numbers: &[Option<u32>],
    files: List<Bytes>,
) -> Result<Bundle, Refusal>
    requires sound { IsSound program.now }
    requires kind { kind_of program.now roles.Program ≡ Ok tt }
    requires few { length objects.now < 2 ^ 16 }
    requires each { length numbers.now ≡ length objects.now }
    requires held { All (λ k. IfSome k (λ n. n < length files)) numbers.now }
    requires small { All (λ file. length file < 2 ^ 32) files }
    ensures { Bundles wanted.now.odr program.now wanted.now.name.now (sources_of objects.now files numbers.now) result }
{
    let alloc = work.workers.alloc;
    let sources = Sources {
        objects,
        numbers,
        first: 0,
        end: objects.len() as u32,
    };
    let mut left = FilesLeft::new(alloc, files, numbers, work.workers.count)?;
    let program = Program {
        arch: Arch {
            cpu: program.cpu,
            sub: program.sub,
        },
        image: program,
    };
    let front = Bytes::new(alloc);
    let linked = link_objects(work, wanted.odr, &program, &sources, &mut left, front)?;
    let plist = plist_text(alloc, wanted.name)?;
    let Linked { file, counts, .. } = linked;
    Ok(Bundle {
        image: file,
        plist,
        counts,
    })
}
