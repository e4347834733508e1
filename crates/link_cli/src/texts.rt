//! The texts that the command tells: what was counted, and a debug map.

ghost use Rattle.std.specs.Prelude.{◌≡◌, ◌++◌, ◌<◌, ◌^◌, decimal, length, IfOk, OnOk};
ghost use Rattle.std.specs.List.{flat_map};
ghost use Rattle.uuid.specs.Text.{hyphenated_text, lower};
ghost use Rattle.link_cli.specs.Texts as spec;

use ds_base::{Bytes, NoMemory};
use link_core::Counts;
use link_program::MappedProgram;
use stab_map::{MapEntry, MapObject};
use std::alloc::Global;
use uuid::Uuid;

/// What was counted, a line a number.
pub(crate) fn summary(alloc: Global, counts: &Counts) -> Result<Bytes, NoMemory>
    ensures { IfOk result (λ text. text ≡ spec.summary counts.now) }
{
    let mut text = Bytes::new(alloc);
    push_count(alloc, &mut text, "objects", counts.objects)?;
    push_count(alloc, &mut text, "entries", counts.entries)?;
    push_count(alloc, &mut text, "live", counts.live)?;
    push_count(alloc, &mut text, "pooled", counts.pooled)?;
    push_count(alloc, &mut text, "names", counts.names)?;
    push_count(alloc, &mut text, "nodes", counts.nodes)?;
    push_count(alloc, &mut text, "bytes", counts.bytes)?;
    Ok(text)
}

/// Puts a line last: a word, and how many.
fn push_count(alloc: Global, text: &mut Bytes, word: &str, n: u64) -> Result<(), NoMemory>
    ensures { OnOk result (text.new ≡ text.old ++ spec.count_line word.now n) }
{
    text.extend(word.as_bytes())?;
    text.push(b' ')?;
    push_number(alloc, text, n)?;
    text.push(b'\n')?;
    Ok(())
}

/// Puts a number last, in decimal digits.
fn push_number(alloc: Global, text: &mut Bytes, n: u64) -> Result<(), NoMemory>
    ensures { OnOk result (text.new ≡ text.old ++ decimal n) }
{
    let digits = n.to_string(alloc)?;
    text.extend(digits.as_bytes())?;
    Ok(())
}

/// The debug map of a program.
pub(crate) fn map_text(alloc: Global, program: &MappedProgram) -> Result<Bytes, NoMemory>
    requires { length program.now.objects < 2 ^ 16 }
    ensures { IfOk result (λ text. text ≡ spec.map_text program.now) }
{
    let mut text = Bytes::from_slice(alloc, "uuid ".as_bytes())?;
    push_uuid(&mut text, program.image.uuid)?;
    text.push(b'\n')?;
    push_objects(alloc, &mut text, program.objects.as_slice())?;
    Ok(text)
}

/// Puts a UUID last, or that there is none.
fn push_uuid(text: &mut Bytes, uuid: Option<[u8; 16]>) -> Result<(), NoMemory>
    ensures { OnOk result (text.new ≡ text.old ++ spec.uuid_text uuid) }
{
    match uuid {
        Some(bytes) => push_hyphenated(text, Uuid::from_bytes(bytes)),
        None => text.extend("none".as_bytes()),
    }
}

/// Puts a UUID last, in lower case with hyphens.
fn push_hyphenated(text: &mut Bytes, uuid: Uuid) -> Result<(), NoMemory>
    ensures { OnOk result (text.new ≡ text.old ++ hyphenated_text lower uuid) }
{
    let mut buffer = Uuid::encode_buffer();
    let digits = uuid.hyphenated().encode_lower(&mut buffer);
    text.extend(digits.as_bytes())
}

/// Puts objects last, with their numbers from 1 on.
fn push_objects(alloc: Global, text: &mut Bytes, objects: &[MapObject]) -> Result<(), NoMemory>
    requires { length objects.now < 2 ^ 16 }
    ensures { OnOk result (text.new ≡ text.old ++ spec.objects_text 1 objects.now) }
{
    for (k, object) in objects.iter().enumerate() {
        push_object(alloc, text, k as u64 + 1, object)?;
    }
    Ok(())
}

/// Puts an object last: its number, its path, and what of it was linked.
fn push_object(
    alloc: Global,
    text: &mut Bytes,
    number: u64,
    object: &MapObject,
) -> Result<(), NoMemory>
    ensures { OnOk result (text.new ≡ text.old ++ spec.object_text number object.now) }
{
    text.extend("object ".as_bytes())?;
    push_number(alloc, text, number)?;
    text.push(b' ')?;
    text.extend(object.path.as_slice())?;
    text.push(b'\n')?;
    push_entries(text, object.entries.as_slice())?;
    Ok(())
}

/// Puts last what was linked.
fn push_entries(text: &mut Bytes, entries: &[MapEntry]) -> Result<(), NoMemory>
    ensures { OnOk result (text.new ≡ text.old ++ flat_map spec.entry_text entries.now) }
{
    for entry in entries {
        push_entry(text, entry)?;
    }
    Ok(())
}

/// Puts an entry last.
fn push_entry(text: &mut Bytes, entry: &MapEntry) -> Result<(), NoMemory>
    ensures { OnOk result (text.new ≡ text.old ++ spec.entry_text entry.now) }
{
    push_place(text, entry.linked, entry.size)?;
    text.push(b' ')?;
    text.extend(entry.name.as_slice())?;
    text.push(b'\n')?;
    Ok(())
}

/// Puts last that it is a function, with its size, or a variable, and where it is linked.
fn push_place(text: &mut Bytes, linked: u64, size: Option<u64>) -> Result<(), NoMemory>
    ensures { OnOk result (text.new ≡ text.old ++ spec.kind_and_place linked size) }
{
    match size {
        Some(size) => {
            text.extend("  function ".as_bytes())?;
            push_hex(text, linked)?;
            text.push(b' ')?;
            push_hex(text, size)?;
            Ok(())
        }
        None => {
            text.extend("  variable ".as_bytes())?;
            push_hex(text, linked)?;
            Ok(())
        }
    }
}

/// Puts a number last, in 16 hexadecimal digits.
fn push_hex(text: &mut Bytes, n: u64) -> Result<(), NoMemory>
    ensures { OnOk result (text.new ≡ text.old ++ spec.hex n) }
{
    text.extend("0x".as_bytes())?;
    push_digits(text, 16, n)?;
    Ok(())
}

/// Puts the last so many hexadecimal digits of a number last.
#[tactic(auto, unfolding(crate::specs::Texts::hex_digits))]
fn push_digits(text: &mut Bytes, count: u32, n: u64) -> Result<(), NoMemory>
    ensures { OnOk result (text.new ≡ text.old ++ spec.hex_digits count n) }
{
    if count == 0 {
        return Ok(());
    }
    push_digits(text, count - 1, n / 16)?;
    text.push(hex_digit((n % 16) as u8))?;
    Ok(())
}

/// A hexadecimal digit.
fn hex_digit(d: u8) -> u8
    requires { d < 16 }
    ensures { result ≡ spec.hex_digit d }
{
    if d < 10 { b'0' + d } else { b'a' - 10 + d }
}
