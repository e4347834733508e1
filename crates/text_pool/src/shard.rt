//! The texts of parts in shards.

ghost use Rattle.std.specs.Prelude.{◌≡◌, ℕ, ◌-◌, ◌^◌, ◌<◌, ◌≤◌, [], Err, IfOk, List, fold, length};
ghost use Rattle.ds_base.specs.Texts.{section_of, with_text};
ghost use Rattle.text_pool.specs.Shards.{Holds, IsShard, in_shard, texts_in};
ghost use Rattle.text_pool.specs.declared.error.TextError.TheVariants as errors;

use crate::error::TextError;
use crate::names::Names;
use crate::table::{Table, no_texts, put_names};
use ds_base::NoMemory;
use std::alloc::Global;

/// The texts of a shard, which are joined with those of the others in the order of their uses.
#[derive(Drop)]
pub(crate) struct Shard {
    /// Which of the shard's texts by first use each use is, in the order of the uses.
    pub(crate) numbers: Vec<u32>,
    /// How many uses are joined.
    pub(crate) taken: usize,
    /// Where the texts of these begin, by their numbers.
    pub(crate) places: Vec<u32>,
    /// The bytes that all of them take.
    pub(crate) size: u32,
}

/// The shard of a number, of so many: its texts are looked up, each use by its hash.
pub(crate) fn shard_in(
    alloc: Global,
    parts: &[&Names],
    shard: usize,
    shards: usize,
) -> Result<Shard, TextError>
    requires { 0 < shards }
    ensures ok { IfOk result (IsShard (in_shard shards shard (texts_in parts.now))) }
    ensures long { result ≡ Err errors.Long → 2 ^ 32 - 1 ≤ length (section_of (fold with_text [] (in_shard shards shard (texts_in parts.now)))) }
{
    let mut table = no_texts(alloc);
    for names in parts {
        put_names(&mut table, names, shard, shards)?;
    }
    Ok(shard_from(alloc, table)?)
}

/// The shard of a table's texts.
fn shard_from(alloc: Global, table: Table) -> Result<Shard, NoMemory>
    ensures { IfOk result (λ shard. (uses : List (List ℕ)) → Holds uses table.entry → IsShard uses shard) }
{
    let places = Vec::with_capacity(alloc, table.keys.len())?;
    Ok(Shard {
        numbers: table.numbers,
        taken: 0,
        places,
        size: table.size,
    })
}
