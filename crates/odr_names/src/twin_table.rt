//! Ordinals by an ordered table of parts, which no names can make slow.

ghost use Rattle.std.specs.Prelude.{◌≡◌, ◌≤◌, ◌<◌, ◌^◌, Some, length, IfOk, OnOk};
ghost use Rattle.std.specs.BTreeMap.{Updates};
ghost use Rattle.dwarf_types.specs.Tree.{ParentsStandBefore};
ghost use Rattle.odr_names.specs.TwinTable.{IsKeyOf, key_cmp, told_in};
ghost use Rattle.odr_names.specs.Twins.{AreCounted, AreSiblings, IsSibling};
ghost use Rattle.type_names.specs.Objects.{object_of};
ghost use Rattle.type_names.specs.Pooled.{AreNames};

use crate::ordinals::{Sibling, rank_at};
use crate::piece::parts_at;
use ds_base::{BitRow, NoMemory};
use dwarf_types::Analysis;
use std::alloc::Global;
use std::collections::BTreeMap;
use type_names::TypeNames;

/// What twins share. The hash stands first, so texts are compared only where hashes agree.
#[derive(Clone, Copy, PartialEq, Eq, PartialOrd, Ord)]
pub(crate) struct TwinKey<'a> {
    pub(crate) hash: u64,
    pub(crate) parent: Option<u32>,
    pub(crate) tag: u16,
    pub(crate) name: Option<&'a [u8]>,
    pub(crate) linkage: Option<&'a [u8]>,
    pub(crate) spelled: Option<&'a [u8]>,
}

/// The counts, rank by rank. The table holds under each key how many ranks with it were met.
pub(crate) fn counts_by_order(
    alloc: Global,
    seen: &Analysis,
    live: &BitRow,
    names: &TypeNames,
    object: u32,
    ranks: &[Sibling],
) -> Result<Vec<u32>, NoMemory>
    requires few { length seen.now.entries ≤ 2 ^ 24 }
    requires parents { ParentsStandBefore seen.now.entries }
    requires names { AreNames (object_of seen.now live.now) names.now }
    requires siblings { AreSiblings object (object_of seen.now live.now) ranks.now (length seen.now.entries) }
    ensures { IfOk result (λ counts. AreCounted object (object_of seen.now live.now) ranks.now counts.items (length ranks.now)) }
{
    let mut counts = vec![in alloc; 0; seen.entries.len()]?;
    let mut table = BTreeMap::new(alloc);
    for i in 0..ranks.len() {
        let here = rank_at(ranks, i);
        let key = key_of(seen, live, names, object, here);
        let count = count_told(&table, &key);
        counts[here.number as usize] = count;
        tell(&mut table, key, count + 1)?;
    }
    Ok(counts)
}

/// The key of a rank.
fn key_of<'a>(
    seen: &'a Analysis,
    live: &BitRow,
    names: &'a TypeNames,
    object: u32,
    here: Sibling,
) -> TwinKey<'a>
    requires parents { ParentsStandBefore seen.now.entries }
    requires names { AreNames (object_of seen.now live.now) names.now }
    requires sibling { IsSibling object (object_of seen.now live.now) here }
    ensures { IsKeyOf object (object_of seen.now live.now) here result }
{
    let parts = parts_at(seen, live, names, object, here.number);
    TwinKey {
        hash: here.hash,
        parent: seen.entries.entry(here.number as usize).parent(),
        tag: parts.tag,
        name: parts.name,
        linkage: parts.linkage,
        spelled: parts.spelled,
    }
}

/// What the table tells of a key: 0 where it was not met.
fn count_told<'a>(table: &BTreeMap<TwinKey<'a>, u32>, key: &TwinKey<'a>) -> u32
    ensures { result ≡ told_in table.now key.now }
{
    match table.get(key) {
        Some(count) => *count,
        None => 0,
    }
}

/// Lets the table tell so many of a key.
fn tell<'a>(
    table: &mut BTreeMap<TwinKey<'a>, u32>,
    key: TwinKey<'a>,
    count: u32,
) -> Result<(), NoMemory>
    ensures { OnOk result (Updates key_cmp table.old table.new key.entry (Some count)) }
{
    table.insert(key, count)?;
    Ok(())
}
