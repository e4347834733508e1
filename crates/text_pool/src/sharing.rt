//! Texts joined to a section, looked up by several threads.

ghost use Rattle.std.specs.Prelude.{◌≡◌, ℕ, ◌+◌, ◌-◌, ◌^◌, ◌<◌, ◌≤◌, [], Err, IfOk, List, drop, fold, length, map, Ok, Some, slice_get, slice_index_or, take};
ghost use Rattle.std.specs.List.{Contains};
ghost use Rattle.std.specs.Str.{bytes_eq};
ghost use Rattle.ds_base.specs.FirstUse.{once};
ghost use Rattle.ds_base.specs.Texts.{ended, section_of, with_text};
ghost use Rattle.text_pool.specs.Joins.{all_once, joined, place_in};
ghost use Rattle.text_pool.specs.Shards.{IsShard, in_shard, texts_in};
ghost use Rattle.text_pool.specs.declared.error.TextError.TheVariants as errors;

use crate::error::TextError;
use crate::joining::{Joined, join_shards};
use crate::names::Names;
use crate::shard::{Shard, shard_in};
use std::alloc::{AllocError, Global};
use std::thread::{Threads, map_indices};

/// Joins the texts of parts to one section: each text once, in the order of the first uses. At most `workers` threads look the
/// texts up. The section takes the place of `room`, whatever that holds.
///
/// The time is linear in the texts.
pub fn join_texts<R: Threads + Sync>(
    rt: &R,
    alloc: Global,
    room: Vec<u8>,
    workers: u32,
    parts: &[&Names],
) -> Result<Joined, TextError>
    requires { 1 ≤ workers }
    ensures ok { IfOk result (λ it. it ≡ joined (map (λ names. names.now) parts.now)) }
    ensures small { IfOk result (λ it. length it.section < 2 ^ 32 - 1) }
    ensures long { result ≡ Err errors.Long → 2 ^ 32 - 1 ≤ length (section_of (all_once (map (λ names. names.now) parts.now))) }
{
    let shards = workers as usize;
    let made = shards_by(rt, alloc, shards, parts)?;
    let mut shards = all_made(alloc, made)?;
    join_shards(alloc, room, parts, shards.as_mut_slice())
}

/// Each of so many shards, by a thread of its own where one can be started.
fn shards_by<R: Threads + Sync>(
    rt: &R,
    alloc: Global,
    shards: usize,
    parts: &[&Names],
) -> Result<Vec<Result<Shard, TextError>>, AllocError>
    requires { 0 < shards }
    ensures count { IfOk result (λ made. length made.items ≡ shards) }
    ensures ok { IfOk result (λ made. (s : ℕ) (d : _) → s < shards → IfOk (slice_index_or made.items s d) (IsShard (in_shard shards s (texts_in parts.now)))) }
    ensures long { IfOk result (λ made. (s : ℕ) (d : _) → s < shards → slice_index_or made.items s d ≡ Err errors.Long → 2 ^ 32 - 1 ≤ length (section_of (fold with_text [] (in_shard shards s (texts_in parts.now))))) }
{
    map_indices(rt, alloc, shards, &|i| shard_in(alloc, parts, i, shards))
}

/// All shards, or the first refusal.
fn all_made(alloc: Global, made: Vec<Result<Shard, TextError>>) -> Result<Vec<Shard>, TextError>
    ensures ok { IfOk result (λ shards. map (λ it. Ok it) shards.items ≡ made.items) }
    ensures long { result ≡ Err errors.Long → (s : ℕ) × (slice_get made.items s ≡ Some (Err errors.Long)) }
{
    let mut shards = Vec::with_capacity(alloc, made.len())?;
    for one in made {
        shards.push(one?)?;
    }
    Ok(shards)
}

/// The law of joined texts: those that are added in turn where they are new are each once, in the order of the first uses.
pub fn joined_texts_are_each_once()
    ensures { (uses : List (List ℕ)) → fold with_text [] uses ≡ once bytes_eq uses }
{}

/// The law of their places: each text of each part stands at its place in the section, with a zero byte behind it.
pub fn joined_texts_stand_at_their_places()
    ensures { (parts : List (List (List ℕ))) (texts : List (List ℕ)) (text : List ℕ) → Contains parts texts → Contains texts text
        → take (length text + 1) (drop (place_in (all_once parts) text) (joined parts).section) ≡ ended text }
{}
