//! The image file.

ghost use Rattle.std.specs.Prelude.{◌≡◌, ◌+◌, ◌-◌, ◌<◌, ◌≤◌, ◌^◌, IfErr, ◌++◌, IfOk, Ok, false, length, replicate, take};
ghost use Rattle.ds_base.specs.Room.{Adds};
ghost use Rattle.dwarf_types.specs.declared.graph.Graph.{Graph};
ghost use Rattle.dwarf_types.specs.Encode.{encode};
ghost use Rattle.layout.specs.Laid.{IsMeasured, Measures};
ghost use Rattle.macho_read.specs.declared.kind.Role.TheVariants as roles;
ghost use Rattle.macho_read.specs.Kind.{kind_of};
ghost use Rattle.macho_read.specs.Sound.{IsSound};
ghost use Rattle.dsym_write.specs.Bundle.{Writes, contents, image_file};
ghost use Rattle.dsym_write.specs.Pieces.{ArePlaces, HasNoRoom, commands_front};
ghost use Rattle.macho_write.specs.SymbolTable.{chosen, strings_bytes, symbols_bytes};

use crate::commands::commands_of;
use crate::error::WriteError;
use crate::places::{Places, places_of};
use ds_base::{Bytes, NoMemory, emit_bytes};
use layout::Layout;
use macho_read::{Image, Symbols};
use macho_write::{emit_strings, emit_symbols};
use section_write::emit_sections;
use std::thread::Threads;

/// The dSYM image of a program: the commands and the symbols of the program, and the sections of a graph that was
/// measured (mach-o/loader.h).
///
/// The program has no debug information yet. The file keeps its UUID, its segments and sections without their bytes,
/// and the symbols that are not stabs. A file of 2^32 bytes or more is not made, and its size is told. The file stands
/// behind what `room` holds before place `start`, which is kept, and takes the place of what stands there; its offsets
/// count from its own first byte. Memory is asked for once for what `room` has not, and for the commands. The sections
/// are written by at most `workers` threads.
pub fn image_in<R: Threads + Sync>(
    rt: &R,
    room: Vec<u8>,
    start: usize,
    workers: u32,
    program: &Image,
    layout: &Layout,
) -> Result<Bytes, WriteError>
    requires workers { (1 ≤ workers) × (workers ≤ 64) }
    requires start { start ≤ length room.items }
    requires sound { IsSound program.now }
    requires kind { kind_of program.now roles.Program ≡ Ok tt }
    requires measured { IsMeasured layout.now }
    ensures { (graph : Graph) → Measures graph (Ok layout.now) → Writes (take start room.items) program.now graph result }
{
    let places = places_of(program, layout);
    let mut file = file_room(room, start, places.size)?;
    let commands = commands_of(*file.allocator(), program, layout, places)?;
    write_image(
        rt,
        workers,
        program,
        layout,
        places,
        commands.as_slice(),
        &mut file[start..],
    );
    Ok(Bytes::from_vec(file))
}

/// A room for a file of so many bytes behind what another one holds before a place, or the file's size, where it is 2^32
/// or more.
fn file_room(room: Vec<u8>, start: usize, size: u128) -> Result<Vec<u8>, WriteError>
    requires start { start ≤ length room.items }
    ensures len { IfOk result (λ new. length new.items ≡ start + size) }
    ensures front { IfOk result (λ new. take start new.items ≡ take start room.items) }
    ensures small { IfOk result (λ _. size < 2 ^ 32) }
    ensures refused { IfErr result (HasNoRoom size) }
{
    if size > u128::from(u32::MAX) {
        return Err(WriteError::File { size });
    }
    let room = room_of(room, start, size as usize)?;
    Ok(room)
}

/// A room of so many bytes behind what another one holds before a place.
fn room_of(room: Vec<u8>, start: usize, size: usize) -> Result<Vec<u8>, NoMemory>
    requires start { start ≤ length room.items }
    requires small { size < 2 ^ 32 }
    ensures len { IfOk result (λ new. length new.items ≡ start + size) }
    ensures front { IfOk result (λ new. take start new.items ≡ take start room.items) }
{
    let mut room = room;
    room.resize(start + size, 0)?;
    Ok(room)
}

/// Writes the file into a room of its size.
fn write_image<R: Threads + Sync>(
    rt: &R,
    workers: u32,
    program: &Image,
    layout: &Layout,
    places: Places,
    commands: &[u8],
    room: &mut [u8],
)
    requires workers { (1 ≤ workers) × (workers ≤ 64) }
    requires sound { IsSound program.now }
    requires measured { IsMeasured layout.now }
    requires places { ArePlaces program.now layout.now places }
    requires small { places.size < 2 ^ 32 }
    requires commands { commands.now ≡ commands_front program.now places layout.now }
    requires size { length room.old ≡ places.size }
    ensures { (graph : Graph) → Measures graph (Ok layout.now) → room.new ≡ image_file program.now graph }
{
    let at = emit_front(commands, &program.symbols, room);
    let at = emit_zeros(room, at, places.offset as usize);
    add_sections(rt, workers, layout, room, at);
}

/// Writes the file up to the end of the strings, with these bytes of the header and the commands.
fn emit_front(commands: &[u8], symbols: &Symbols, room: &mut [u8]) -> usize
    requires fits { length (commands.now ++ (symbols_bytes (chosen false symbols.now) ++ strings_bytes (chosen false symbols.now))) ≤ length room.old }
    ensures { Adds room.old 0 (commands.now ++ (symbols_bytes (chosen false symbols.now) ++ strings_bytes (chosen false symbols.now))) room.new result }
{
    let at = emit_bytes(room, 0, commands);
    let at = emit_symbols(symbols, false, room, at);
    emit_strings(symbols, false, room, at)
}

/// Writes zeros up to a place.
fn emit_zeros(room: &mut [u8], at: usize, end: usize) -> usize
    requires behind { at ≤ end }
    requires fits { end ≤ length room.old }
    ensures { Adds room.old at (replicate (end - at) 0) room.new result }
{
    clear(&mut room[at..end]);
    end
}

/// Makes bytes zero.
fn clear(bytes: &mut [u8])
    ensures { bytes.new ≡ replicate (length bytes.old) 0 }
{
    bytes.fill(0);
}

/// Writes the sections at the end of the file.
fn add_sections<R: Threads + Sync>(
    rt: &R,
    workers: u32,
    layout: &Layout,
    room: &mut [u8],
    at: usize,
) -> usize
    requires workers { (1 ≤ workers) × (workers ≤ 64) }
    requires measured { IsMeasured layout.now }
    requires within { at ≤ length room.old }
    requires size { (graph : Graph) → Measures graph (Ok layout.now) → at + length (contents (encode graph)) ≡ length room.old }
    ensures { (graph : Graph) → Measures graph (Ok layout.now) → Adds room.old at (contents (encode graph)) room.new result }
{
    let end = room.len();
    emit_sections(rt, workers, layout, &mut room[at..end]);
    end
}
