//! An archive as a whole: its members one after the other, in a table by their names.

ghost use Rattle.std.specs.Prelude.{◌≡◌, ◌+◌, ◌^◌, ◌<◌, IfOk, OnOk};
ghost use Rattle.ds_base.specs.Reading.{Finds};
ghost use Rattle.ar_read.specs.Archive.{found_in, member_of, member_size, members_of};
ghost use Rattle.ar_read.specs.Table.{Walks, PutsBehind};

use crate::header::{archive_fault, read_member};
use ds_base::macho::{AR_HDR_SIZE, ARMAG};
use ds_base::{Fault, Kind, NoMemory, TextKey, bytes_from};
use indexmap::IndexMap;
use std::alloc::Global;
use std::marker::Model;

/// The members of a BSD archive (ar.h), to be found by their names.
///
/// A contract sees the archive's bytes.
#[derive(Drop)]
pub struct Members<'a> {
    bytes: &'a [u8],
    // the content of the first member of each name, up to the first fault
    contents: IndexMap<TextKey<'a>, &'a [u8]>,
    // why any other name isn't found
    missing: Fault,
}

impl<'a> Model for Members<'a> {
    ghost use Rattle.std.specs.Prelude.{List, ℕ};
    ghost use Rattle.ar_read.specs.Table.{Tells};

    ghost Value = { List ℕ };

    ghost view = { λ a. a.bytes.now };

    ghost invariant = { λ a. Tells a.bytes.now a.contents a.missing };
}

/// The members of an archive. All headers up to the first fault are read, each once.
///
/// Bytes that are no archive, or have a fault, have a table too: [`Members::find`] tells of them.
pub fn read_members<'a>(alloc: Global, bytes: &'a [u8]) -> Result<Members<'a>, NoMemory>
    ensures { IfOk result (λ members. members ≡ bytes.now) }
{
    let mut contents = IndexMap::new(alloc);
    let missing = put_members(&mut contents, bytes)?;
    Ok(Members {
        bytes,
        contents,
        missing,
    })
}

impl<'a> Members<'a> {
    /// The content of the first member of this name.
    ///
    /// Bytes that don't begin as an archive are `NotArchive` at 0. A header up to the member's own that is cut or
    /// wrong, or whose member passes the archive, is `BadMember` at the header. Where the archive ends before, it
    /// is `NoMember` at 0. Places are offsets in the archive. The name is looked up by its hash, so the time does
    /// not depend on how many members there are.
    pub fn find(&self, name: &[u8]) -> Result<&'a [u8], Fault>
        ensures { Finds (λ content. content.now) result (member_of self.now name.now) }
    {
        match self.contents.get(&TextKey { text: name }) {
            Some(content) => Ok(*content),
            None => Err(self.missing),
        }
    }
}

/// Puts the members of an archive into a table, behind those that it has. The fault is for all names that it then hasn't.
#[tactic(auto, unfolding(crate::specs::Archive::member_of))]
fn put_members<'a>(
    contents: &mut IndexMap<TextKey<'a>, &'a [u8]>,
    bytes: &'a [u8],
) -> Result<Fault, NoMemory>
    ensures { IfOk result (λ fault. Walks contents.old contents.new fault (member_of bytes.now)) }
{
    if !bytes.starts_with(&ARMAG) {
        return Ok(archive_fault(Kind::NotArchive, 0));
    }
    walk(contents, bytes)
}

/// The same, for bytes that begin as an archive.
fn walk<'a>(
    contents: &mut IndexMap<TextKey<'a>, &'a [u8]>,
    bytes: &'a [u8],
) -> Result<Fault, NoMemory>
    ensures { IfOk result (λ fault. Walks contents.old contents.new fault (λ name. found_in name (members_of bytes.now))) }
{
    let mut place = ARMAG.len();
    while place < bytes.len() {
        let member = match read_member(bytes_from(bytes, place), place as u64) {
            Ok(member) => member,
            Err(fault) => return Ok(fault),
        };
        put_behind(contents, member.name, member.content)?;
        place = behind(place, member.size);
    }
    Ok(archive_fault(Kind::NoMember, 0))
}

/// Puts a member's content into a table, unless that has one of its name.
fn put_behind<'a>(
    contents: &mut IndexMap<TextKey<'a>, &'a [u8]>,
    name: &'a [u8],
    content: &'a [u8],
) -> Result<(), NoMemory>
    ensures { OnOk result (PutsBehind contents.old contents.new name.now content.now) }
{
    let key = TextKey { text: name };
    if contents.contains_key(&key) {
        return Ok(());
    }
    contents.insert(key, content)?;
    Ok(())
}

/// The place behind a member of this size, whose header stands at a place. Members stand at even places.
fn behind(place: usize, size: u64) -> usize
    requires { place + 60 + size < 2 ^ 63 }
    ensures { result ≡ place + member_size size }
{
    place + AR_HDR_SIZE as usize + size as usize + (size % 2) as usize
}
