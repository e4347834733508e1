//! Which entries of small analyses are live: of each entry `x` where it is, and `.` where it is not.
//!
//! What moved, and so makes an entry a root or keeps it with its parent, is shown in `proofs/WorkedMoves.antt`, over the
//! definitions that the contract of [`live`] cites.

ghost use Rattle.std.specs.Prelude.{◌<◌, ◌≤◌, length};
ghost use Rattle.dwarf_types.specs.declared.entry.TheConstants.{MOST_ENTRIES};
ghost use Rattle.dwarf_types.specs.Sound.{IsSound};
ghost use Rattle.odr_names.specs.Making.{IsLiveRow};

use crate::rows::{Row, analysis_in, bare, constant, refers, user};
use ds_base::BitRow;
use ds_base::dwarf::{
    DW_AT_import, DW_AT_sibling, DW_AT_type, DW_LANG_C99, DW_TAG_imported_module, DW_TAG_member,
    DW_TAG_namespace, DW_TAG_structure_type, DW_TAG_subprogram,
};
use dwarf_types::Analysis;
use liveness::live;
use std::alloc::Global;
use std::process::Abort;

/// The row of the live entries of an analysis.
pub(crate) fn live_row(rt: &impl Abort, alloc: Global, seen: &Analysis) -> BitRow
    requires { IsSound seen.now }
    ensures { IsLiveRow seen.now.entries result }
{
    live(alloc, seen).expect(rt, "memory")
}

/// So many marks of a row are these.
fn are_marks(rt: &impl Abort, row: &BitRow, count: u32, want: &[u8])
    requires { count ≤ length row.now }
{
    assert!(rt; want.len() == count as usize);
    for k in 0..count {
        assert!(rt; row.get(k) == (want[k as usize] == b'x'));
    }
}

fn assert_live(rt: &impl Abort, alloc: Global, rows: &[Row], want: &[u8])
    requires { length rows.now < MOST_ENTRIES }
{
    let seen = analysis_in(rt, alloc, DW_LANG_C99, rows);
    let row = live_row(rt, alloc, &seen);
    are_marks(rt, &row, seen.entries.len() as u32, want);
    drop(row);
    drop(seen);
}

#[test]
#[rattlefmt::skip]
fn roots_and_what_they_need_are_live(rt: HostRuntime) {
    let a = rt.alloc();
    // Constants, but for those in functions, and no cycle that nothing begins.
    assert_live(&rt, a, &[bare(0, DW_TAG_subprogram), constant(1), constant(0), refers(0, DW_TAG_structure_type, DW_AT_type, 5), refers(0, DW_TAG_structure_type, DW_AT_type, 4)], b"x..x..");
    // Types, what stands above and below them, and no sibling.
    assert_live(&rt, a, &[user(3), bare(0, DW_TAG_namespace), refers(2, DW_TAG_structure_type, DW_AT_sibling, 5), bare(3, DW_TAG_member), bare(0, DW_TAG_structure_type)], b"xxxxx.");
    // Imports of a live namespace.
    assert_live(&rt, a, &[bare(0, DW_TAG_namespace), constant(1), refers(1, DW_TAG_imported_module, DW_AT_import, 4), bare(0, DW_TAG_namespace), bare(4, DW_TAG_structure_type)], b"xxxxx.");
}
