//! The names of one object: what is told of them, and their rows.

ghost use Rattle.std.specs.Prelude.{◌<◌, ◌≤◌, ◌^◌, IfOk};
ghost use Rattle.dwarf_types.specs.Sound.{IsSound};
ghost use Rattle.odr_names.specs.Joining.{AreNamesOf};
ghost use Rattle.odr_names.specs.Making.{IsLiveRow};
ghost use Rattle.type_names.specs.Objects.{object_of};

use crate::enter::enter_entries;
use crate::marks::count_marked;
use crate::ordinals::twins_of;
use crate::path_book::Row;
use ds_base::{BitRow, NoMemory};
use dwarf_types::Analysis;
use std::alloc::Global;
use type_names::{TypeNames, type_names};

/// What is told of the names of an object, and its rows.
#[derive(Drop)]
pub struct ObjectNames {
    pub(crate) names: TypeNames,
    pub(crate) rows: Vec<Row>,
}

/// The names of an object, which is counted from 1.
///
/// `live` marks the live entries. A sound object has 2^24 entries at most, and no more names than entries, so there are
/// never too many of one object alone. Where nothing of it is pooled, as in a C program, no ordinals are counted. Source: this project's profile (docs/PROFILE.md, "Names and the pool").
pub fn object_names(
    alloc: Global,
    seen: &Analysis,
    live: &BitRow,
    object: u32,
) -> Result<ObjectNames, NoMemory>
    requires sound { IsSound seen.now }
    requires live { IsLiveRow seen.now.entries live.now }
    requires counted { (1 ≤ object) × (object < 2 ^ 16) }
    ensures { IfOk result (λ own. AreNamesOf object (object_of seen.now live.now) own) }
{
    let names = type_names(alloc, seen, live)?;
    let count = count_marked(&names.pooled, seen.entries.len());
    if count == 0 {
        return Ok(ObjectNames {
            names,
            rows: Vec::new(alloc),
        });
    }
    let counts = twins_of(alloc, seen, live, &names, object)?;
    let mut rows = Vec::with_capacity(alloc, count)?;
    enter_entries(alloc, seen, live, &names, object, &counts, &mut rows)?;
    Ok(ObjectNames { names, rows })
}
