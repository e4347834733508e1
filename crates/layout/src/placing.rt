//! Drafts that have their places.

ghost use Rattle.std.specs.Prelude.{◌≡◌, ◌+◌, ◌<◌, ◌^◌, fold, IfOk, OnOk};
ghost use Rattle.layout.specs.Pass.{AreBelow, behind_draft, next_list, no_starts, none_placed, parts_of, with_draft};
ghost use Rattle.dwarf_types.specs.Lists.{lists_header_len};

use crate::address_sets::append_aranges;
use crate::sizes::LISTS_HEADER_LEN;
use crate::starts::{Starts, behind, first_starts};
use ds_base::dwarf::DWARF_5;
use ds_base::{Bytes, List, NoMemory};
use std::alloc::Global;
use unit_draft::Draft;

/// Where the parts of a unit stand, but for its entries; each place counts bytes from the start of its section.
#[derive(Clone, Copy)]
pub(crate) struct PartPlaces {
    /// Its abbreviations.
    pub(crate) table: u32,
    /// Its line table.
    pub(crate) lines: u32,
    /// Its first range list.
    pub(crate) ranges: u32,
    /// Its first location list.
    pub(crate) locations: u32,
}

/// What is known of the first drafts.
#[derive(Drop)]
pub(crate) struct Placing {
    /// The place of the header of each in `__debug_info`.
    pub(crate) starts: List<u32>,
    pub(crate) parts: List<PartPlaces>,
    /// `__debug_aranges`.
    pub(crate) aranges: Bytes,
    /// Where the parts of the next draft stand.
    pub(crate) at: Starts,
}

/// Gives drafts their places.
pub(crate) fn place_all(alloc: Global, drafts: &[Draft]) -> Result<Placing, NoMemory>
    requires small { AreBelow (2 ^ 32) (fold behind_draft no_starts drafts.now) }
    ensures { IfOk result (λ placing. placing ≡ fold with_draft none_placed drafts.now) }
{
    let mut placing = Placing {
        starts: List::with_capacity(alloc, drafts.len())?,
        parts: List::with_capacity(alloc, drafts.len())?,
        aranges: Bytes::new(alloc),
        at: first_starts(),
    };
    for draft in drafts {
        place_draft(&mut placing, draft)?;
    }
    Ok(placing)
}

/// Gives a draft its places, behind the first ones.
fn place_draft(placing: &mut Placing, draft: &Draft) -> Result<(), NoMemory>
    requires small { AreBelow (2 ^ 32) placing.old.at }
    ensures { OnOk result (placing.new ≡ with_draft placing.old draft.now) }
{
    let at = placing.at;
    append_aranges(&mut placing.aranges, at.info as u32, draft.code.as_slice())?;
    placing.starts.push(at.info as u32)?;
    placing.parts.push(parts_at(draft.version, at))?;
    placing.at = behind(at, draft);
    Ok(())
}

/// The other parts of a draft of a version that stand there.
fn parts_at(version: u16, at: Starts) -> PartPlaces
    requires small { AreBelow (2 ^ 32) at }
    ensures { result ≡ parts_of version at }
{
    PartPlaces {
        table: at.tables as u32,
        lines: at.line as u32,
        ranges: list_place(version, at.ranges, at.rnglists),
        locations: list_place(version, at.loc, at.loclists),
    }
}

/// Where the next list of a version stands: behind the header and the lists of a section of version 5, or else behind
/// those of the other section.
fn list_place(version: u16, others: u128, five: u128) -> u32
    requires others { others < 2 ^ 32 }
    requires five { lists_header_len + five < 2 ^ 32 }
    ensures { result ≡ next_list version others five }
{
    if version == DWARF_5 {
        LISTS_HEADER_LEN + five as u32
    } else {
        others as u32
    }
}
