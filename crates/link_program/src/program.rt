//! The program: its image and its debug map.

ghost use Rattle.std.specs.Prelude.{◌≡◌, ◌<◌, ◌^◌, ℕ, List as Listed, length, Ok, Err, IfOk};
ghost use Rattle.std.specs.Thread.{IsSync};
ghost use Rattle.ds_base.specs.Reading.{Gives};
ghost use Rattle.macho_read.specs.declared.image.Image.{Image as AnImage};
ghost use Rattle.macho_read.specs.declared.kind.Role.TheVariants as roles;
ghost use Rattle.macho_read.specs.Kind.{kind_of};
ghost use Rattle.macho_read.specs.Sound.{IsSound as IsSoundImage};
ghost use Rattle.stab_map.specs.DebugMap.{Answers as MapAnswers, map_of};
ghost use Rattle.link_program.specs.declared.program.MappedProgram.{MappedProgram as AProgram};
ghost use Rattle.link_program.specs.Refusals as spec;
ghost use Rattle.link_program.specs.Seen.{HaveNames, IsLinkable};

use ds_base::limits::OBJECTS;
use ds_base::{List, NoMemory, ReadError};
use ds_files::{Ahead, Files, fetch_ahead};
use indexmap::IndexSet;
use link_status::{LimitKind, Refusal};
use macho_read::{Image, Role, check_kind, read_image};
use stab_map::{MapError, MapObject, debug_map, opened_file};
use std::alloc::Global;
use std::thread::{Threads, join};
use work_share::Workers;

/// A program, and the objects that it was linked from.
#[derive(Drop)]
pub struct MappedProgram {
    pub image: Image,
    pub objects: List<MapObject>,
}

/// The program in a file's bytes, and what was read ahead of its objects' files, which have at most `most` bytes together.
///
/// Of several workers one makes the debug map, and the others read files ahead meanwhile.
#[tactic(auto, unfolding(crate::specs::Refusals::program_of))]
pub fn read_program<R: Threads + Sync, F: Files + Sync>(
    workers: &Workers<R>,
    bytes: &[u8],
    most: u64,
    files: &F,
) -> (Result<MappedProgram, Refusal>, Ahead)
    ensures read { spec.Answers (λ program. program) result.0 (spec.program_of bytes.now) }
    ensures linkable { IfOk result.0 IsLinkable }
{
    let image = match program_image(workers.alloc, bytes) {
        Ok(image) => image,
        Err(error) => return (Err(image_refusal(error)), Ahead::new()),
    };
    let (map, ahead) = read_map(workers, most, files, &image);
    match map {
        Ok(objects) => (Ok(MappedProgram { image, objects }), ahead),
        Err(error) => (Err(map_refusal(error)), ahead),
    }
}

/// The image of a file that can be a program.
#[tactic(auto, unfolding(crate::specs::Refusals::program_image))]
fn program_image(alloc: Global, bytes: &[u8]) -> Result<Image, ReadError>
    ensures read { Gives (λ image. image) result (spec.program_image bytes.now) }
    ensures sound { IfOk result IsSoundImage }
    ensures kind { IfOk result (λ image. kind_of image roles.Program ≡ Ok tt) }
{
    let image = read_image(alloc, bytes)?;
    check_kind(&image, Role::Program)?;
    Ok(image)
}

/// The debug map of an image, and what was read ahead of the files that it names.
fn read_map<R: Threads + Sync, F: Files + Sync>(
    workers: &Workers<R>,
    most: u64,
    files: &F,
    image: &Image,
) -> (Result<List<MapObject>, MapError>, Ahead)
    requires { IsSoundImage image.now }
    ensures map { MapAnswers result.0 (map_of image.now) }
    ensures names { IfOk result.0 HaveNames }
{
    let rt = workers.rt;
    let alloc = workers.alloc;
    if workers.count < 2 {
        return (debug_map(alloc, image), Ahead::new());
    }
    let others = workers.count - 1;
    join(
        rt,
        || -> Result<List<MapObject>, MapError>
            requires { IsSoundImage image.now }
            ensures { MapAnswers result (map_of image.entry.now) × IfOk result HaveNames }
        { debug_map(alloc, image) },
        || -> Ahead
            requires { IsSync R.row × IsSync F.row }
        { files_ahead(rt, alloc, others, most, files, image) },
    )
}

/// The files of the objects that an image was linked from, as far as they are read ahead. Where memory runs out for the list
/// of their names, none is; nothing comes of that.
fn files_ahead<R: Threads + Sync, F: Files + Sync>(
    rt: &R,
    alloc: Global,
    workers: u32,
    most: u64,
    files: &F,
    image: &Image,
) -> Ahead {
    match file_names(alloc, image) {
        Ok(names) => fetch_ahead(rt, alloc, workers, names.as_slice(), most, files),
        Err(NoMemory) => Ahead::new(),
    }
}

/// The names of the objects' files, each once, in the order in which the files are read.
fn file_names(alloc: Global, image: &Image) -> Result<IndexSet<&str>, NoMemory> {
    let mut names = IndexSet::new(alloc);
    for index in 0..image.symbols.len() {
        if let Some(name) = opened_file(image.symbols.symbol(index)) {
            names.insert(name)?;
        }
    }
    Ok(names)
}

/// Why there is no image.
#[tactic(auto, unfolding(crate::specs::Refusals::program_of))]
fn image_refusal(error: ReadError) -> Refusal
    ensures { (bytes : Listed ℕ) → Gives (λ (image : AnImage). image) (Err error) (spec.program_image bytes) → spec.Answers (λ (program : AProgram). program) (Err result) (spec.program_of bytes) }
{
    match error {
        ReadError::Faulty(fault) => Refusal::Faulty { file: 0, fault },
        ReadError::NoMemory => Refusal::NoMemory,
    }
}

/// Why there is no debug map.
fn map_refusal(error: MapError) -> Refusal
    ensures { result ≡ spec.map_refusal error }
{
    match error {
        MapError::Faulty(fault) => Refusal::Faulty { file: 0, fault },
        MapError::Objects => Refusal::Limit {
            which: LimitKind::Objects,
            number: OBJECTS,
        },
        MapError::NoMemory => Refusal::NoMemory,
    }
}
