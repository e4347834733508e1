//! The texts of shards joined to a section.

ghost use Rattle.std.specs.Prelude.{◌≡◌, ℕ, ◌+◌, ◌-◌, ◌^◌, ◌<◌, ◌≤◌, ◌++◌, [], ◌∷◌, Err, IfOk, List as Listed, OnOk, fold, if◌then◌else◌, length, map, slice_get, slice_set, Some};
ghost use Rattle.ds_base.specs.Texts.{ended, section_of, with_text};
ghost use Rattle.text_pool.specs.Joins.{AreShards, IsJoining, Takes, joined, place_in};
ghost use Rattle.text_pool.specs.Shards.{texts_in};
ghost use Rattle.text_pool.specs.declared.shard.Shard.{Shard as AShard};
ghost use Rattle.text_pool.specs.declared.error.TextError.TheVariants as errors;

use crate::error::TextError;
use crate::names::Names;
use crate::shard::Shard;
use crate::table::{name_at, shard_of, size_with};
use ds_base::{Bytes, List, NoMemory};
use std::alloc::Global;

/// The texts of parts as a section.
#[derive(Drop)]
pub struct Joined {
    /// The bytes of the section: each text once, by first use, with a zero byte behind it.
    pub section: Bytes,
    /// Where the texts of each part begin in it.
    pub places: List<List<u32>>,
}

/// Joins the texts of parts that are cut into these shards, in the place of a room.
pub(crate) fn join_shards(
    alloc: Global,
    room: Vec<u8>,
    parts: &[&Names],
    shards: &mut [Shard],
) -> Result<Joined, TextError>
    requires { AreShards (texts_in parts.now) shards.old }
    ensures ok { IfOk result (λ it. it ≡ joined (map (λ names. names.now) parts.now)) }
    ensures small { IfOk result (λ it. length it.section < 2 ^ 32 - 1) }
    ensures long { result ≡ Err errors.Long → 2 ^ 32 - 1 ≤ length (section_of (fold with_text [] (texts_in parts.now))) }
{
    let mut section = room_for(room, size_of_all(shards))?;
    let mut places = List::with_capacity(alloc, parts.len())?;
    for names in parts {
        let theirs = join_names(alloc, shards, &mut section, names)?;
        places.push(theirs)?;
    }
    Ok(Joined { section, places })
}

/// No bytes, and room for so many, in the place of another room.
fn room_for(room: Vec<u8>, size: usize) -> Result<Bytes, NoMemory>
    ensures { IfOk result (λ section. section ≡ []) }
{
    let mut room = room;
    room.clear();
    room.reserve(size)?;
    Ok(Bytes::from_vec(room))
}

/// The bytes that the texts of all shards take, or 2^32 - 1 where they take more.
fn size_of_all(shards: &[Shard]) -> usize {
    let mut size: u32 = 0;
    for shard in shards {
        size = size.saturating_add(shard.size);
    }
    size as usize
}

/// Joins the texts of the next part, and answers where they begin.
fn join_names(
    alloc: Global,
    shards: &mut [Shard],
    section: &mut Bytes,
    names: &Names,
) -> Result<List<u32>, TextError>
    requires { (all : Listed (Listed ℕ)) × (rest : Listed (Listed ℕ)) × IsJoining all (names.now ++ rest) shards.old section.old }
    ensures joining { (all rest : Listed (Listed ℕ)) → IsJoining all (names.now ++ rest) shards.old section.old → OnOk result (IsJoining all rest shards.new section.new) }
    ensures places { (all rest : Listed (Listed ℕ)) → IsJoining all (names.now ++ rest) shards.old section.old → IfOk result (λ places. places ≡ map (place_in (fold with_text [] all)) names.now) }
    ensures long { (all rest : Listed (Listed ℕ)) → IsJoining all (names.now ++ rest) shards.old section.old → result ≡ Err errors.Long → 2 ^ 32 - 1 ≤ length (section_of (fold with_text [] all)) }
{
    let mut places = List::with_capacity(alloc, names.len())?;
    for i in 0..names.len() {
        let place = join_text(shards, section, name_at(names, i))?;
        places.push(place)?;
    }
    Ok(places)
}

/// Joins the next text, and answers where it begins.
fn join_text(shards: &mut [Shard], section: &mut Bytes, text: &[u8]) -> Result<u32, TextError>
    requires { (all : Listed (Listed ℕ)) × (rest : Listed (Listed ℕ)) × IsJoining all (text.now ∷ rest) shards.old section.old }
    ensures joining { (all rest : Listed (Listed ℕ)) → IsJoining all (text.now ∷ rest) shards.old section.old → OnOk result (IsJoining all rest shards.new section.new) }
    ensures place { (all rest : Listed (Listed ℕ)) → IsJoining all (text.now ∷ rest) shards.old section.old → IfOk result (λ place. place ≡ place_in (fold with_text [] all) text.now) }
    ensures long { (all rest : Listed (Listed ℕ)) → IsJoining all (text.now ∷ rest) shards.old section.old → result ≡ Err errors.Long → 2 ^ 32 - 1 ≤ length (section_of (fold with_text [] all)) }
{
    let end = section.len() as u32;
    let shard = shard_of(text, shards.len());
    let place = take_next(shards, shard, end)?;
    let is_new = place == end;
    size_with(end, text, is_new)?;
    put_where_new(section, text, is_new)?;
    Ok(place)
}

/// Where the next use of a shard begins: at `end`, where its text is new.
fn take_next(shards: &mut [Shard], shard: usize, end: u32) -> Result<u32, NoMemory>
    requires shard { shard < length shards.old }
    requires left { (it : AShard) → slice_get shards.old shard ≡ Some it → it.taken < length it.numbers.items }
    ensures { IfOk result (λ place. (it : AShard) → slice_get shards.old shard ≡ Some it → (new : AShard) × (shards.new ≡ slice_set shards.old shard new) × Takes end it new place) }
{
    let place = take_from(&mut shards[shard], end)?;
    Ok(place)
}

/// The same of that shard.
fn take_from(shard: &mut Shard, end: u32) -> Result<u32, NoMemory>
    requires { shard.old.taken < length shard.old.numbers.items }
    ensures { IfOk result (Takes end shard.old shard.new) }
{
    let number = shard.numbers[shard.taken] as usize;
    shard.taken += 1;
    if number < shard.places.len() {
        return Ok(shard.places[number]);
    }
    shard.places.push(end)?;
    Ok(end)
}

/// Puts a text that is new behind the others, with a zero byte behind it.
fn put_where_new(section: &mut Bytes, text: &[u8], is_new: bool) -> Result<(), NoMemory>
    ensures { OnOk result (section.new ≡ (if is_new then section.old ++ ended text.now else section.old)) }
{
    if !is_new {
        return Ok(());
    }
    section.extend(text)?;
    section.push(0)?;
    Ok(())
}
