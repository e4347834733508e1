//! Nodes by the entries for which they stand.

ghost use Rattle.std.specs.Prelude.{◌≡◌, ◌<◌, ◌++◌, Some, All, length, map, slice_get, IfOk, OnOk};
ghost use Rattle.clone_values.specs.Images.{NamesAmong};
ghost use Rattle.clone_units.specs.Nodes.{IsEntryOf, node_at};
ghost use Rattle.dwarf_types.specs.LinkedGraph.{closing};
ghost use Rattle.dwarf_types.specs.WellRoots.{closing_pair};
ghost use Rattle.unit_source.specs.Given.{attr_given, node_given};

use clone_values::{Files, add_attrs};
use ds_base::dwarf::{DW_AT_low_pc, DW_AT_ranges};
use ds_base::{List, NoMemory};
use dwarf_types::{Analysis, EntryRef, InUnit, Origin, Span, Target};
use std::alloc::Global;
use unit_source::{NodeHead, OutAttrRef, OutValueRef};

/// The node that stands for an entry of an object, whose attributes take the place of those in `attrs`.
///
/// `images` tells where references to the entries of the object lead, and `spans` are the addresses of the unit's code.
pub(crate) fn node_of<'a>(
    alloc: Global,
    own: &'a Analysis,
    images: &[Option<Target>],
    spans: &'a [Span],
    origin: Origin,
    attrs: &mut Vec<OutAttrRef<'a>>,
) -> Result<NodeHead, NoMemory>
    requires stands { IsEntryOf own.now origin }
    requires among { All (NamesAmong (length images.now)) own.now.entries }
    ensures { IfOk result (λ head. node_at own.now images.now spans.now origin ≡ Some (node_given head attrs.new.items)) }
{
    let entry = entry_of(own, origin.entry);
    attrs.clear();
    add_attrs(alloc, images, &Files::Own, &entry, attrs)?;
    add_closing(&entry, spans, attrs)?;
    Ok(NodeHead {
        parent: origin.parent,
        tag: entry.tag(),
    })
}

/// The entry of node `k`.
pub(crate) fn origin_at(origins: &[Origin], k: usize) -> Origin
    requires { k < length origins.now }
    ensures { slice_get origins.now k ≡ Some result }
{
    origins[k]
}

/// The row of an object.
pub(crate) fn row_of<T: Drop>(rows: &[List<T>], object: usize) -> &[T]
    requires { object < length rows.now }
    ensures { slice_get rows.now object ≡ Some result.now }
{
    rows[object].as_slice()
}

/// The analysis of an object.
pub(crate) fn analysis_of(seen: &[Analysis], object: usize) -> &Analysis
    requires { object < length seen.now }
    ensures { slice_get seen.now object ≡ Some result.now }
{
    &seen[object]
}

/// Entry `k` of an object.
pub(crate) fn entry_of(seen: &Analysis, k: u32) -> EntryRef<'_>
    requires { k < length seen.now.entries }
    ensures { slice_get seen.now.entries k ≡ Some result }
{
    seen.entries.entry(k as usize)
}

/// Unit `u` of an object.
pub(crate) fn unit_of(seen: &Analysis, u: u32) -> &InUnit
    requires { u < length seen.now.units }
    ensures { slice_get seen.now.units u ≡ Some result.now }
{
    &seen.units.as_slice()[u as usize]
}

/// Ends the attributes of a root whose unit has code.
fn add_closing<'a>(
    entry: &EntryRef<'a>,
    spans: &'a [Span],
    attrs: &mut Vec<OutAttrRef<'a>>,
) -> Result<(), NoMemory>
    ensures { OnOk result (map attr_given attrs.new.items ≡ map attr_given attrs.old.items ++ closing entry.now spans.now) }
{
    if entry.parent().is_none() && !spans.is_empty() {
        add_closing_pair(spans, attrs)?;
    }
    Ok(())
}

/// A low_pc of 0, from which the addresses of the unit's lists count, and the unit's ranges.
fn add_closing_pair<'a>(spans: &'a [Span], attrs: &mut Vec<OutAttrRef<'a>>) -> Result<(), NoMemory>
    ensures { OnOk result (map attr_given attrs.new.items ≡ map attr_given attrs.old.items ++ closing_pair spans.now) }
{
    attrs.push(OutAttrRef {
        name: DW_AT_low_pc,
        value: OutValueRef::Address(0),
    })?;
    attrs.push(OutAttrRef {
        name: DW_AT_ranges,
        value: OutValueRef::Ranges(spans),
    })?;
    Ok(())
}
