//! The table in which the texts of a shard are looked up.

ghost use Rattle.std.specs.Prelude.{◌≡◌, ℕ, ◌+◌, ◌-◌, ◌^◌, ◌<◌, ◌≤◌, ◌++◌, ◌∷◌, [], List as Listed, Err, IfOk, OnOk, fold, if◌then◌else◌, length, slice_get, Some};
ghost use Rattle.ds_base.specs.Texts.{section_of, with_text};
ghost use Rattle.text_pool.specs.Shards.{Holds, byte_of, in_shard, shard_of};
ghost use Rattle.text_pool.specs.declared.error.TextError.TheVariants as errors;

use crate::error::TextError;
use crate::names::Names;
use ds_base::TextKey;
use indexmap::IndexSet;
use std::alloc::Global;

/// The texts of a shard so far.
#[derive(Drop)]
pub(crate) struct Table<'a> {
    /// Each text once, by first use.
    pub(crate) keys: IndexSet<TextKey<'a>>,
    /// Which of them each use was, in the order of the uses.
    pub(crate) numbers: Vec<u32>,
    /// The bytes that they take in a section.
    pub(crate) size: u32,
}

/// The table of no texts.
pub(crate) fn no_texts<'a>(alloc: Global) -> Table<'a>
    ensures { Holds [] result }
{
    Table {
        keys: IndexSet::new(alloc),
        numbers: Vec::new(alloc),
        size: 0,
    }
}

/// Puts those texts of a part that belong to a shard.
pub(crate) fn put_names<'a>(
    table: &mut Table<'a>,
    names: &'a Names,
    shard: usize,
    shards: usize,
) -> Result<(), TextError>
    requires shards { 0 < shards }
    requires table { (uses : Listed (Listed ℕ)) × Holds uses table.old }
    ensures ok { (uses : Listed (Listed ℕ)) → Holds uses table.old → OnOk result (Holds (uses ++ in_shard shards shard names.now) table.new) }
    ensures long { (uses : Listed (Listed ℕ)) → Holds uses table.old → result ≡ Err errors.Long → 2 ^ 32 - 1 ≤ length (section_of (fold with_text [] (uses ++ in_shard shards shard names.now))) }
{
    for i in 0..names.len() {
        let text = name_at(names, i);
        if shard_of(text, shards) != shard {
            continue;
        }
        put(table, text)?;
    }
    Ok(())
}

/// Puts a text of the shard.
fn put<'a>(table: &mut Table<'a>, text: &'a [u8]) -> Result<(), TextError>
    requires { (uses : Listed (Listed ℕ)) × Holds uses table.old }
    ensures ok { (uses : Listed (Listed ℕ)) → Holds uses table.old → OnOk result (Holds (uses ++ text.now ∷ []) table.new) }
    ensures long { (uses : Listed (Listed ℕ)) → Holds uses table.old → result ≡ Err errors.Long → 2 ^ 32 - 1 ≤ length (section_of (fold with_text [] (uses ++ text.now ∷ []))) }
{
    let (number, is_new) = table.keys.insert_full(TextKey { text })?;
    let size = size_with(table.size, text, is_new)?;
    table.numbers.push(number as u32)?;
    table.size = size;
    Ok(())
}

/// The size of a section with one text more behind it, where the text is new.
pub(crate) fn size_with(size: u32, text: &[u8], is_new: bool) -> Result<u32, TextError>
    ensures ok { IfOk result (λ grown. grown ≡ (if is_new then size + length text.now + 1 else size)) }
    ensures small { IfOk result (λ grown. size < 2 ^ 32 - 1 → grown < 2 ^ 32 - 1) }
    ensures long { result ≡ Err errors.Long → 2 ^ 32 - 1 ≤ (if is_new then size + length text.now + 1 else size) }
{
    if !is_new {
        return Ok(size);
    }
    let grown = u64::from(size) + text.len() as u64 + 1;
    if grown >= u64::from(u32::MAX) {
        return Err(TextError::Long);
    }
    Ok(grown as u32)
}

/// The text of a number.
pub(crate) fn name_at(names: &Names, i: usize) -> &[u8]
    requires { i < length names.now }
    ensures { slice_get names.now i ≡ Some result.now }
{
    match names.get(i) {
        Some(text) => text,
        None => unreachable!(),
    }
}

/// Which of so many shards a text belongs to.
#[tactic(auto, unfolding(crate::specs::Shards::shard_of))]
pub(crate) fn shard_of(text: &[u8], shards: usize) -> usize
    requires { 0 < shards }
    ensures is { result ≡ shard_of shards text.now }
    ensures below { result < shards }
{
    let len = text.len();
    let mixed = len as u64
        + 3 * byte_of(text, len.saturating_sub(1))
        + 5 * byte_of(text, len.saturating_sub(3))
        + 7 * byte_of(text, len / 2)
        + 11 * byte_of(text, len / 4 * 3);
    (mixed % shards as u64) as usize
}

/// A byte of a text, or 0.
fn byte_of(text: &[u8], i: usize) -> u64
    ensures { result ≡ byte_of text.now i }
{
    if i < text.len() {
        u64::from(text[i])
    } else {
        0
    }
}
