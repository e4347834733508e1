//! The file of an object and the image of a graph, of one unit with a line table, and the file of a program.

ghost use Rattle.std.specs.Prelude.{◌≡◌, ◌<◌, ◌^◌, Ok};
ghost use Rattle.std.specs.List.{All};
ghost use Rattle.layout.specs.Laid.{IsMeasured};
ghost use Rattle.macho_read.specs.declared.kind.Role.TheVariants as roles;
ghost use Rattle.macho_read.specs.Kind.{kind_of};
ghost use Rattle.macho_read.specs.Sound.{IsSound};

use ds_base::dwarf::{DW_AT_stmt_list, DW_TAG_compile_unit};
use ds_base::macho::{CPU_TYPE_X86_64, MH_EXECUTE};
use ds_base::{Bytes, List};
use dsym_write::image_in;
use dwarf_types::{
    FileNameRef, FileNames, Graph, Node, OutAttr, OutFrames, OutLines, OutUnit, OutValue, Paths,
    Row, SequenceBuilder, Sequences,
};
use layout::{Layout, measure};
use macho_read::{Image, Role, Symbols, check_kind, read_image};
use sample_objects::{ObjectSpec, is_within_limits, object, program_file};
use std::alloc::Global;
use std::process::Abort;
use std::thread::Threads;

// ---- a unit

fn row(address: u64, line: u32, discriminator: u64) -> Row {
    Row {
        address,
        file: 1,
        line,
        column: 0,
        discriminator,
        isa: 0,
        is_stmt: true,
        basic_block: false,
        prologue_end: false,
        epilogue_begin: false,
    }
}

// Two rows, the second of which has a discriminator of more than 16 bits, so it is kept whole.
fn sequences(rt: &impl Abort, alloc: Global) -> Sequences {
    let mut sequences = SequenceBuilder::new(alloc);
    sequences.push(row(0x10, 3, 0)).expect(rt, "memory");
    sequences.push(row(0x14, 4, 0x1_0000)).expect(rt, "memory");
    sequences.close(0x18).expect(rt, "memory");
    sequences.finish()
}

// One file, in the directory of the compilation.
fn files(rt: &impl Abort, alloc: Global) -> FileNames {
    let mut files = FileNames::new(alloc);
    let file = FileNameRef {
        name: b"a.c",
        dir: 0,
        time: 0,
        size: 0,
        digest: None,
    };
    files.push(&file).expect(rt, "memory");
    files
}

fn root(rt: &impl Abort, alloc: Global) -> Node {
    let mut attrs = List::new(alloc);
    let attr = OutAttr {
        name: DW_AT_stmt_list,
        value: OutValue::Lines,
    };
    attrs.push(attr).expect(rt, "memory");
    Node {
        parent: None,
        tag: DW_TAG_compile_unit,
        attrs,
    }
}

// The unit of `with_lines` (proofs/WorkedFiles.antt).
fn unit(rt: &impl Abort, alloc: Global) -> OutUnit {
    let mut nodes = List::new(alloc);
    nodes.push(root(rt, alloc)).expect(rt, "memory");
    OutUnit {
        version: 4,
        nodes,
        lines: Some(OutLines {
            dirs: Paths::new(alloc),
            files: files(rt, alloc),
            sequences: sequences(rt, alloc),
        }),
        ranges: List::new(alloc),
    }
}

// ---- the file of an object

// An object of the unit, without symbols.
fn spec(rt: &impl Abort, alloc: Global) -> ObjectSpec
    ensures { All (λ r. r.symbol < 2 ^ 24) result.relocs }
{
    ObjectSpec {
        cpu: CPU_TYPE_X86_64,
        unit: unit(rt, alloc),
        symbols: Symbols::new(alloc),
        relocs: List::new(alloc),
    }
}

fn object_of<R: Threads + Abort + Sync>(rt: &R, alloc: Global, spec: &ObjectSpec) -> Bytes
    requires { All (λ r. r.symbol < 2 ^ 24) spec.now.relocs }
{
    let within = is_within_limits(rt, alloc, &spec.unit).expect(rt, "memory");
    assert!(rt; within);
    object(rt, alloc, spec).expect(rt, "memory for a file")
}

// A header, commands and sections of 533 bytes, a relocation, and the strings of no symbol.
#[test]
fn an_object_is_made(rt: HostRuntime) {
    let spec = spec(&rt, rt.alloc());
    let file = object_of(&rt, rt.alloc(), &spec);
    drop(spec);
    let len = file.len();
    drop(file);
    assert!(rt; len == 542);
}

// ---- the image of a graph

// The file of a program without segments and symbols.
fn file(rt: &impl Abort, alloc: Global) -> Bytes {
    let image = Image {
        cpu: CPU_TYPE_X86_64,
        sub: 0,
        filetype: MH_EXECUTE,
        uuid: Some([7; 16]),
        segments: List::new(alloc),
        sections: List::new(alloc),
        symbols: Symbols::new(alloc),
    };
    let file = program_file(alloc, &image).expect(rt, "memory for a file");
    drop(image);
    file
}

// The program as its file is read.
fn program(rt: &impl Abort, alloc: Global) -> Image
    ensures sound { IsSound result }
    ensures kind { kind_of result roles.Program ≡ Ok tt }
{
    let file = file(rt, alloc);
    let program = read_image(alloc, file.as_slice()).expect(rt, "a program");
    drop(file);
    check_kind(&program, Role::Program).expect(rt, "no debug information");
    program
}

// The layout of a graph of the unit.
fn measured<R: Threads + Abort + Sync>(rt: &R, alloc: Global) -> Layout
    ensures { IsMeasured result }
{
    let mut units = List::new(alloc);
    units.push(unit(rt, alloc)).expect(rt, "memory");
    let graph = Graph {
        units,
        frames: OutFrames::new(alloc),
    };
    let layout = measure(rt, alloc, 1, &graph).expect(rt, "a layout");
    drop(graph);
    layout
}

fn image_of<R: Threads + Abort + Sync>(rt: &R, alloc: Global) -> Bytes {
    let layout = measured(rt, alloc);
    let program = program(rt, alloc);
    let image = image_in(rt, Vec::new(alloc), 0, 2, &program, &layout).expect(rt, "an image");
    drop(program);
    drop(layout);
    image
}

// A page for the header, the commands and the strings, and the sections.
#[test]
fn an_image_is_made(rt: HostRuntime) {
    let image = image_of(&rt, rt.alloc());
    let len = image.len();
    drop(image);
    assert!(rt; len == 4096 + 85);
}
