//! The attributes of an entry.

ghost use Rattle.std.specs.Prelude.{◌≡◌, ◌==◌, ◌||◌, ◌&&◌, ◌++◌, ℕ, Option, Some, if◌then◌else◌, is_none, length, map, IfOk, OnOk};
ghost use Rattle.std.specs.Option.{option_map};
ghost use Rattle.clone_values.specs.Files.{number_in, numbers_of};
ghost use Rattle.clone_values.specs.Images.{NamesAmong, ValueAmong, image_at};
ghost use Rattle.dwarf_types.specs.declared.entry.Entry.{Entry};
ghost use Rattle.dwarf_types.specs.declared.graph.Target.{Target as Node};
ghost use Rattle.dwarf_types.specs.LinkedValues.{attr_written, attrs_written, file_written, value_written};
ghost use Rattle.dwarf_types.specs.Seen.{attr_seen};
ghost use Rattle.dwarf_types.specs.WellNodes.{is_dropped};
ghost use Rattle.dwarf_types.specs.WellRoots.{is_code_range};
ghost use Rattle.unit_source.specs.Given.{attr_given, value_given};

use crate::files::{Files, renumbered};
use crate::value::value_written;
use ds_base::NoMemory;
use ds_base::dwarf::{
    DW_AT_addr_base, DW_AT_decl_file, DW_AT_high_pc, DW_AT_loclists_base, DW_AT_low_pc,
    DW_AT_ranges, DW_AT_rnglists_base, DW_AT_sibling, DW_AT_str_offsets_base,
};
use dwarf_types::{AttrRef, EntryRef, Target, ValueRef};
use std::alloc::Global;
use unit_source::{OutAttrRef, OutValueRef};

/// Puts what an entry says where it is written behind other attributes: its attributes in order, moved to the linked
/// program, or dropped.
///
/// `images` tells where references to each entry of the object lead, and the entry names no others; `files` tells how the
/// output unit numbers source files. A dropped attribute speaks of how the input was laid out, has an address that did
/// not move, a section offset that leads to no table or list, a list with nothing left, a reference to an entry that is
/// not written or a file that the output unit lacks, or is the length of code whose low_pc did not move. A root's own
/// addresses are dropped, since its unit's ranges stand for them. Where memory runs out, `attrs` is left with what stood
/// there and the first of the attributes to be put, and is good for nothing.
pub fn add_attrs<'a>(
    alloc: Global,
    images: &[Option<Target>],
    files: &Files,
    entry: &EntryRef<'a>,
    attrs: &mut Vec<OutAttrRef<'a>>,
) -> Result<(), NoMemory>
    requires among { NamesAmong (length images.now) entry.now }
    ensures { OnOk result (map attr_given attrs.new.items ≡ map attr_given attrs.old.items ++ attrs_written (image_at images.now) (numbers_of files.now) entry.now) }
{
    for j in 0..entry.len() {
        if let Some(written) = attr_written(alloc, images, files, entry, &entry.attr(j))? {
            attrs.push(written)?;
        }
    }
    Ok(())
}

/// An attribute of an entry, where it is written.
fn attr_written<'a>(
    alloc: Global,
    images: &[Option<Target>],
    files: &Files,
    entry: &EntryRef<'a>,
    attr: &AttrRef<'a>,
) -> Result<Option<OutAttrRef<'a>>, NoMemory>
    requires among { ValueAmong (length images.now) (attr_seen attr.now).value }
    ensures { IfOk result (λ it. option_map attr_given it ≡ attr_written (image_at images.now) (numbers_of files.now) entry.now (attr_seen attr.now)) }
{
    if is_left_out(entry, attr.name) {
        return Ok(None);
    }
    match said(alloc, images, files, entry, attr)? {
        Some(value) => Ok(Some(OutAttrRef {
            name: attr.name,
            value,
        })),
        None => Ok(None),
    }
}

/// What an attribute of an entry says, where it is written.
fn said<'a>(
    alloc: Global,
    images: &[Option<Target>],
    files: &Files,
    entry: &EntryRef<'a>,
    attr: &AttrRef<'a>,
) -> Result<Option<OutValueRef<'a>>, NoMemory>
    requires among { ValueAmong (length images.now) (attr_seen attr.now).value }
    ensures { IfOk result (λ it. option_map value_given it ≡ (if attr.now.name == DW_AT_decl_file then file_written (image_at images.now) (numbers_of files.now) entry.now (attr_seen attr.now) (attr_seen attr.now).value else value_written (image_at images.now) entry.now (attr_seen attr.now) (attr_seen attr.now).value)) }
{
    match files {
        Files::Others(numbers) if attr.name == DW_AT_decl_file => Ok(file_written(numbers, attr)),
        _ => value_written(alloc, images, entry, attr),
    }
}

/// The number of a source file, where the output unit's line table has the file.
fn file_written<'a>(numbers: &[Option<u64>], attr: &AttrRef<'a>) -> Option<OutValueRef<'a>>
    ensures { (image : ℕ → Option Node) (e : Entry) → option_map value_given result ≡ file_written image (Some (number_in numbers.now)) e (attr_seen attr.now) (attr_seen attr.now).value }
{
    match attr.value {
        ValueRef::Number { bits, .. } => renumbered(numbers, bits),
        _ => None,
    }
}

/// Whether an attribute of an entry is left out by its name.
fn is_left_out(entry: &EntryRef, name: u16) -> bool
    ensures { result ≡ (is_dropped name || (is_none entry.now.parent && is_code_range name)) }
{
    is_dropped(name) || (entry.parent().is_none() && is_code_range(name))
}

/// Whether an attribute speaks of how the input was laid out.
fn is_dropped(name: u16) -> bool
    ensures { result ≡ is_dropped name }
{
    name == DW_AT_sibling
        || name == DW_AT_str_offsets_base
        || name == DW_AT_addr_base
        || name == DW_AT_rnglists_base
        || name == DW_AT_loclists_base
}

/// Whether an attribute of a root tells its unit's code.
fn is_code_range(name: u16) -> bool
    ensures { result ≡ is_code_range name }
{
    name == DW_AT_low_pc || name == DW_AT_high_pc || name == DW_AT_ranges
}
