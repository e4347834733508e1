//! What a debug map says.

ghost use Rattle.std.specs.Prelude.{◌≡◌, true, false, take, IfOk};

use ds_base::{Bytes, Fault, List, NoMemory, ReadError};
use std::alloc::Global;

/// A function or a variable that was linked.
#[derive(Drop)]
pub struct MapEntry {
    /// Its name among the object's symbols.
    pub name: Bytes,
    /// Its address in the linked program.
    pub linked: u64,
    /// A function's size in bytes; none of a variable.
    pub size: Option<u64>,
}

/// An object that the program was linked from.
#[derive(Drop)]
pub struct MapObject {
    /// As it stands in the program.
    pub path: Bytes,
    /// The name of the file that holds it: of an archive, where it is a member.
    pub file: Bytes,
    /// Its name in the archive, where it is a member.
    pub member: Option<Bytes>,
    /// What of it was linked, in the order of the symbols.
    pub entries: List<MapEntry>,
}

/// Whether two objects of debug maps are the same: their paths, where they lie, and all that was linked of them.
pub fn same_object(a: &MapObject, b: &MapObject) -> bool
    ensures same { result ≡ true → a.now ≡ b.now }
    ensures other { result ≡ false → a.now ≡ b.now → ⊥ }
{
    same_bytes(a.path.as_slice(), b.path.as_slice())
        && same_bytes(a.file.as_slice(), b.file.as_slice())
        && same_member(&a.member, &b.member)
        && same_entries(a.entries.as_slice(), b.entries.as_slice())
}

fn same_bytes(a: &[u8], b: &[u8]) -> bool
    ensures same { result ≡ true → a.now ≡ b.now }
    ensures other { result ≡ false → a.now ≡ b.now → ⊥ }
{
    a == b
}

fn same_member(a: &Option<Bytes>, b: &Option<Bytes>) -> bool
    ensures same { result ≡ true → a.now ≡ b.now }
    ensures other { result ≡ false → a.now ≡ b.now → ⊥ }
{
    match (a, b) {
        (Some(a), Some(b)) => same_bytes(a.as_slice(), b.as_slice()),
        (None, None) => true,
        (Some(_), None) => false,
        (None, Some(_)) => false,
    }
}

fn same_entries(a: &[MapEntry], b: &[MapEntry]) -> bool
    ensures same { result ≡ true → a.now ≡ b.now }
    ensures other { result ≡ false → a.now ≡ b.now → ⊥ }
{
    if a.len() != b.len() {
        return false;
    }
    for i in 0..a.len() {
        if !same_entry(&a[i], &b[i]) {
            return false;
        }
    }
    true
}

fn same_entry(a: &MapEntry, b: &MapEntry) -> bool
    ensures same { result ≡ true → a.now ≡ b.now }
    ensures other { result ≡ false → a.now ≡ b.now → ⊥ }
{
    a.linked == b.linked && a.size == b.size && same_bytes(a.name.as_slice(), b.name.as_slice())
}

/// A copy of an object of a debug map.
pub fn copy_object(alloc: Global, object: &MapObject) -> Result<MapObject, NoMemory>
    ensures { IfOk result (λ it. it ≡ object.now) }
{
    Ok(MapObject {
        path: object.path.copy(alloc)?,
        file: object.file.copy(alloc)?,
        member: copy_member(alloc, &object.member)?,
        entries: copy_entries(alloc, object.entries.as_slice())?,
    })
}

fn copy_member(alloc: Global, member: &Option<Bytes>) -> Result<Option<Bytes>, NoMemory>
    ensures { IfOk result (λ it. it ≡ member.now) }
{
    match member {
        Some(name) => Ok(Some(name.copy(alloc)?)),
        None => Ok(None),
    }
}

fn copy_entries(alloc: Global, entries: &[MapEntry]) -> Result<List<MapEntry>, NoMemory>
    ensures { IfOk result (λ it. it ≡ entries.now) }
{
    let mut made = List::with_capacity(alloc, entries.len())?;
    for entry in entries {
        made.push(copy_entry(alloc, entry)?)?;
    }
    Ok(made)
}

fn copy_entry(alloc: Global, entry: &MapEntry) -> Result<MapEntry, NoMemory>
    ensures { IfOk result (λ it. it ≡ entry.now) }
{
    Ok(MapEntry {
        name: entry.name.copy(alloc)?,
        linked: entry.linked,
        size: entry.size,
    })
}

/// Why there is no debug map.
#[derive(Clone, Copy, Debug)]
pub enum MapError {
    /// The first wrong stab.
    Faulty(Fault),
    /// There are 65,536 objects or more.
    Objects,
    NoMemory,
}

impl From<ReadError> for MapError {
    ghost use Rattle.std.specs.Prelude.{◌≡◌};
    ghost use Rattle.stab_map.specs.DebugMap.{as_map_error};

    ghost from_gives = { λ error made. made ≡ as_map_error error };

    fn from(error: ReadError) -> MapError {
        match error {
            ReadError::Faulty(fault) => MapError::Faulty(fault),
            ReadError::NoMemory => MapError::NoMemory,
        }
    }
}
