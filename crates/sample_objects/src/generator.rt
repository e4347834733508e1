//! The generated program.

ghost use Rattle.std.specs.Prelude.{◌≡◌, ◌≤◌, ◌<◌, ◌^◌, ◌∷◌, [], length, map, Ok, IfOk};
ghost use Rattle.std.specs.List.{All, flat_map, range_with_len};
ghost use Rattle.macho_read.specs.declared.kind.Role.TheVariants as roles;
ghost use Rattle.macho_read.specs.Kind.{kind_of};
ghost use Rattle.macho_read.specs.Sound.{IsSound};
ghost use Rattle.sample_objects.specs.GeneratedProgram;
ghost use Rattle.sample_objects.specs.GeneratedProgram.{code_section, generated_program, map_object, object_stabs, program_of, spec_of, text_segment};
ghost use Rattle.sample_objects.specs.ObjectFile.{object_bytes};

use crate::debug_map::{add_object_stabs, map_object_of};
use crate::file::object;
use crate::objects::spec_for;
use crate::program::{Generated, SEGMENT_ADDRESS, SEGMENT_SIZE, UUID};
use ds_base::macho::{CPU_TYPE_ARM64, MH_EXECUTE};
use ds_base::{Bytes, List, NoMemory};
use macho_read::{Image, Section, Segment, Symbols};
use stab_map::MapObject;
use std::alloc::Global;
use std::thread::Threads;

/// The generated program of so many objects.
///
/// Each object has a C++ unit with a base type, a namespace of 100 structures, a pointer to each, and 100 functions with
/// local variables of them. The names of structures recur among the objects, and three of four functions are linked.
pub fn generated<R: Threads + Sync>(
    rt: &R,
    alloc: Global,
    count: u32,
) -> Result<Generated, NoMemory>
    requires some { 1 ≤ count }
    requires few { count ≤ 1000 }
    ensures exact { IfOk result (λ made. made ≡ generated_program count) }
    ensures sound { IfOk result (λ made. IsSound made.program) }
    ensures kind { IfOk result (λ made. kind_of made.program roles.Program ≡ Ok tt) }
    ensures small { IfOk result (λ made. All (λ file. length file < 2 ^ 32) made.files) }
{
    let files = files_of(rt, alloc, count)?;
    generated_with(alloc, count, files)
}

/// The generated program of so many objects, whose files are made ([`generated_file`]).
pub fn generated_with(alloc: Global, count: u32, files: List<Bytes>) -> Result<Generated, NoMemory>
    requires some { 1 ≤ count }
    requires few { count ≤ 1000 }
    requires files { files ≡ (generated_program count).files }
    ensures exact { IfOk result (λ made. made ≡ generated_program count) }
    ensures sound { IfOk result (λ made. IsSound made.program) }
    ensures kind { IfOk result (λ made. kind_of made.program roles.Program ≡ Ok tt) }
    ensures small { IfOk result (λ made. All (λ file. length file < 2 ^ 32) made.files) }
{
    let program = program_with(alloc, count)?;
    let objects = objects_of(alloc, count)?;
    Ok(Generated {
        program,
        objects,
        files,
    })
}

/// The image of the program of so many objects.
fn program_with(alloc: Global, count: u32) -> Result<Image, NoMemory>
    requires { count ≤ 1000 }
    ensures { IfOk result (λ program. program ≡ program_of count) }
{
    let mut segments = List::new(alloc);
    segments.push(segment_of_text(alloc)?)?;
    let mut sections = List::new(alloc);
    sections.push(section_of_code(alloc)?)?;
    let symbols = stabs_of(alloc, count)?;
    Ok(Image {
        cpu: CPU_TYPE_ARM64,
        sub: 0,
        filetype: MH_EXECUTE,
        uuid: Some(UUID),
        segments,
        sections,
        symbols,
    })
}

/// The stabs of all objects.
fn stabs_of(alloc: Global, count: u32) -> Result<Symbols, NoMemory>
    requires { count ≤ 1000 }
    ensures { IfOk result (λ symbols. symbols ≡ flat_map object_stabs (range_with_len 1 count)) }
{
    let mut symbols = Symbols::new(alloc);
    for k in 0..count {
        add_object_stabs(alloc, &mut symbols, k + 1)?;
    }
    Ok(symbols)
}

/// The segment of the code.
fn segment_of_text(alloc: Global) -> Result<Segment, NoMemory>
    ensures { IfOk result (λ segment. segment ≡ text_segment) }
{
    Ok(Segment {
        name: Bytes::from_slice(alloc, b"__TEXT")?,
        vmaddr: SEGMENT_ADDRESS,
        vmsize: SEGMENT_SIZE,
        maxprot: 0,
        initprot: 0,
        flags: 0,
        sections: 1,
    })
}

/// Its one section.
fn section_of_code(alloc: Global) -> Result<Section, NoMemory>
    ensures { IfOk result (λ section. section ≡ code_section) }
{
    let name = Bytes::from_slice(alloc, b"__text")?;
    let segment = Bytes::from_slice(alloc, b"__TEXT")?;
    Ok(Section {
        name,
        segment,
        addr: SEGMENT_ADDRESS,
        size: SEGMENT_SIZE,
        offset: 0,
        align: 0,
        reloff: 0,
        nreloc: 0,
        flags: 0,
        reserved1: 0,
        reserved2: 0,
        reserved3: 0,
    })
}

/// The debug map of so many objects.
fn objects_of(alloc: Global, count: u32) -> Result<List<MapObject>, NoMemory>
    requires { count ≤ 1000 }
    ensures { IfOk result (λ objects. objects ≡ map map_object (range_with_len 1 count)) }
{
    let mut objects = List::new(alloc);
    for k in 0..count {
        let object = map_object_of(alloc, k + 1)?;
        objects.push(object)?;
    }
    Ok(objects)
}

/// The files of so many objects.
fn files_of<R: Threads + Sync>(rt: &R, alloc: Global, count: u32) -> Result<List<Bytes>, NoMemory>
    requires { count ≤ 1000 }
    ensures { IfOk result (λ files. files ≡ map (λ i. object_bytes (spec_of i)) (range_with_len 1 count)) }
{
    let mut files = List::new(alloc);
    for k in 0..count {
        let file = generated_file(rt, alloc, k + 1)?;
        files.push(file)?;
    }
    Ok(files)
}

/// The file of the object of a number, which is counted from 1, of a generated program.
pub fn generated_file<R: Threads + Sync>(
    rt: &R,
    alloc: Global,
    number: u32,
) -> Result<Bytes, NoMemory>
    requires { number ≤ 1000 }
    ensures { IfOk result (λ bytes. bytes ≡ object_bytes (spec_of number)) }
{
    let spec = spec_for(rt, alloc, number)?;
    let bytes = object(rt, alloc, &spec)?;
    Ok(bytes)
}
