//! Where the parts of drafts stand, one behind the other in each section.

ghost use Rattle.std.specs.Prelude.{◌≡◌, ◌+◌, ◌<◌, ◌^◌, ◌-◌, fold, length};
ghost use Rattle.layout.specs.Pass.{AreBelow, HasParts, behind_draft, in_five, in_others, line_len, no_starts};

use ds_base::dwarf::DWARF_5;
use unit_draft::Draft;

/// Where the parts of a unit stand, each in its section. The lengths of all that memory holds have 128 bits.
#[derive(Clone, Copy)]
pub(crate) struct Starts {
    pub(crate) info: u128,
    /// In `__debug_abbrev`.
    pub(crate) tables: u128,
    pub(crate) line: u128,
    pub(crate) ranges: u128,
    /// Counted from the first list, as in `__debug_loclists`.
    pub(crate) rnglists: u128,
    pub(crate) loc: u128,
    pub(crate) loclists: u128,
}

/// The start of each section.
pub(crate) fn first_starts() -> Starts
    ensures { result ≡ no_starts }
{
    Starts {
        info: 0,
        tables: 0,
        line: 0,
        ranges: 0,
        rnglists: 0,
        loc: 0,
        loclists: 0,
    }
}

/// Where the parts behind those of a draft stand.
pub(crate) fn behind(at: Starts, draft: &Draft) -> Starts
    requires room { AreBelow (2 ^ 127) at }
    ensures is { result ≡ behind_draft at draft.now }

    // The parts of a draft are in memory.
    ensures wide { HasParts draft.now }
{
    let ranges = draft.ranges.len();
    let locations = draft.locations.len();
    Starts {
        info: at.info + u128::from(draft.len),
        tables: at.tables + draft.table.len() as u128,
        line: at.line + lines_len(draft) as u128,
        ranges: at.ranges + other_len(draft.version, ranges),
        rnglists: at.rnglists + five_len(draft.version, ranges),
        loc: at.loc + other_len(draft.version, locations),
        loclists: at.loclists + five_len(draft.version, locations),
    }
}

/// The size of a draft's line table.
fn lines_len(draft: &Draft) -> usize
    ensures { result ≡ line_len draft.now }
{
    draft.lines.len()
}

/// How much of the lists of a version stands in a section of version 5.
fn five_len(version: u16, lists: usize) -> u128
    ensures { result ≡ in_five version 0 lists }
{
    if version == DWARF_5 { lists as u128 } else { 0 }
}

/// How much of them stands in one of the other sections of lists.
fn other_len(version: u16, lists: usize) -> u128
    ensures { result ≡ in_others version 0 lists }
{
    if version == DWARF_5 { 0 } else { lists as u128 }
}

/// Where the parts of all drafts end.
pub(crate) fn ends_of(drafts: &[Draft]) -> Starts
    requires few { length drafts.now < 2 ^ 32 - 1 }
    ensures is { result ≡ fold behind_draft no_starts drafts.now }
    ensures room { AreBelow (2 ^ 127) result }
{
    let mut ends = first_starts();
    for draft in drafts {
        ends = behind(ends, draft);
    }
    ends
}
