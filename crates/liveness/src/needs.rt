//! What a live entry needs: its parent, the targets of its references, the base types of its expressions, and those
//! of its children that stay with it.

ghost use Rattle.std.specs.Prelude.{◌≡◌, ◌<◌, ◌↔◌, ◌⊎◌, ℕ, [], ◌∷◌, ◌++◌, ◌==◌, None, Some, length, map, slice_get, OnOk, if◌then◌else◌};
ghost use Rattle.std.specs.List.{Contains, filter_map, flat_map};
ghost use Rattle.std.specs.Option.{option_to_list};
ghost use Rattle.dwarf_types.specs.declared.entry.Attr.{Attr as AnAttr};
ghost use Rattle.dwarf_types.specs.Live.{Needs, base_in, is_import, is_left_behind, keeps_children, op_bases, operations_of, target_in};
ghost use Rattle.dwarf_types.specs.Seen.{attr_seen, inner_seen, location_seen, op_seen, value_seen};
ghost use Rattle.liveness.specs.ChildTable.{IsKept, IsTable, is_wanted};

use crate::children::Children;
use crate::moves::{has_address, moves};
use ds_base::NoMemory;
use ds_base::dwarf::{
    DW_AT_sibling, DW_TAG_imported_declaration, DW_TAG_imported_module, DW_TAG_module,
    DW_TAG_namespace,
};
use dwarf_types::{
    AttrRef, Base, Entries, EntryRef, InnerOpsRef, LocationsRef, OpRef, OpsRef, ValueRef,
};

/// Puts what entry `k` needs into `out`, and nothing else.
pub(crate) fn find_needs(
    entries: &Entries,
    children: &Children,
    k: u32,
    out: &mut Vec<u32>,
) -> Result<(), NoMemory>
    requires place { k < length entries.now }
    requires table { IsTable entries.now (length entries.now) children.now.last.items children.now.before.items }
    ensures { OnOk result ((j : ℕ) → Contains out.new.items j ↔ Needs entries.now k j) }
{
    out.clear();
    let entry = entries.entry(k as usize);
    push_parent(&entry, out)?;
    push_named(&entry, out)?;
    push_children(entries, children, k, out)?;
    Ok(())
}

/// Puts the parent behind `out`, where there is one.
fn push_parent(entry: &EntryRef, out: &mut Vec<u32>) -> Result<(), NoMemory>
    ensures { OnOk result (out.new.items ≡ out.old.items ++ option_to_list entry.now.parent) }
{
    if let Some(parent) = entry.parent() {
        out.push(parent)?;
    }
    Ok(())
}

/// Puts what an entry's attributes name behind `out`, attribute by attribute: the targets of its references, and the
/// base types of its expressions. The target of its sibling does not count.
fn push_named(entry: &EntryRef, out: &mut Vec<u32>) -> Result<(), NoMemory>
    ensures { OnOk result (out.new.items ≡ out.old.items ++ flat_map (λ a. option_to_list (if a.name == DW_AT_sibling then None else target_in a.value) ++ flat_map op_bases (operations_of a.value)) entry.now.attrs) }
{
    for j in 0..entry.len() {
        push_named_at(entry, j, out)?;
    }
    Ok(())
}

/// Puts what the attribute at a place names behind `out`. A text or a number names nothing.
fn push_named_at(entry: &EntryRef, j: usize, out: &mut Vec<u32>) -> Result<(), NoMemory>
    requires { j < length entry.now.attrs }
    ensures { (a : AnAttr) → slice_get entry.now.attrs j ≡ Some a
        → OnOk result (out.new.items ≡ out.old.items ++ (option_to_list (if a.name == DW_AT_sibling then None else target_in a.value) ++ flat_map op_bases (operations_of a.value))) }
{
    if entry.is_plain(j) {
        return Ok(());
    }
    push_named_by(&entry.attr(j), out)?;
    Ok(())
}

/// Puts what an attribute names behind `out`.
fn push_named_by(attr: &AttrRef, out: &mut Vec<u32>) -> Result<(), NoMemory>
    ensures { let a = attr_seen attr.now in OnOk result (out.new.items ≡ out.old.items ++ option_to_list (if a.name == DW_AT_sibling then None else target_in a.value) ++ flat_map op_bases (operations_of a.value)) }
{
    match &attr.value {
        ValueRef::Ref(target) => push_target(attr.name, *target, out),
        ValueRef::Expr(ops) => push_all_op_bases(ops, out),
        ValueRef::Locations(items) => push_location_bases(items, out),
        _ => Ok(()),
    }
}

/// Puts the target of a reference behind `out`, where it counts.
fn push_target(name: u16, target: u32, out: &mut Vec<u32>) -> Result<(), NoMemory>
    ensures { OnOk result (out.new.items ≡ out.old.items ++ (if name == DW_AT_sibling then [] else target ∷ [])) }
{
    if name != DW_AT_sibling {
        out.push(target)?;
    }
    Ok(())
}

/// Puts the base types that the expressions of a location list name behind `out`.
fn push_location_bases(items: &LocationsRef, out: &mut Vec<u32>) -> Result<(), NoMemory>
    ensures { OnOk result (out.new.items ≡ out.old.items ++ flat_map op_bases (flat_map (λ item. item.ops) items.now)) }
{
    for k in 0..items.len() {
        push_all_op_bases(&items.item(k).ops, out)?;
    }
    Ok(())
}

/// Puts the base types that operations name behind `out`.
fn push_all_op_bases(ops: &OpsRef, out: &mut Vec<u32>) -> Result<(), NoMemory>
    ensures { OnOk result (out.new.items ≡ out.old.items ++ flat_map op_bases ops.now) }
{
    for k in 0..ops.len() {
        push_op_bases(&ops.op(k), out)?;
    }
    Ok(())
}

/// Puts the base types that an operation and those inside it name behind `out`.
fn push_op_bases(op: &OpRef, out: &mut Vec<u32>) -> Result<(), NoMemory>
    ensures { OnOk result (out.new.items ≡ out.old.items ++ op_bases (op_seen op.now)) }
{
    push_base(op.base, out)?;
    push_inner_bases(&op.inner, out)
}

/// Puts the base types that the operations inside an operation name behind `out`.
fn push_inner_bases(inner: &InnerOpsRef, out: &mut Vec<u32>) -> Result<(), NoMemory>
    ensures { OnOk result (out.new.items ≡ out.old.items ++ filter_map base_in (map (λ plain. plain.base) inner.now)) }
{
    for k in 0..inner.len() {
        push_base(inner.op(k).base, out)?;
    }
    Ok(())
}

/// Puts a base type behind `out`, where it is an entry.
fn push_base(base: Option<Base>, out: &mut Vec<u32>) -> Result<(), NoMemory>
    ensures { OnOk result (out.new.items ≡ out.old.items ++ option_to_list (base_in base)) }
{
    if let Some(Base::Entry(entry)) = base {
        out.push(entry)?;
    }
    Ok(())
}

/// Puts the children of entry `k` that stay with it behind `out`.
fn push_children(
    entries: &Entries,
    children: &Children,
    k: u32,
    out: &mut Vec<u32>,
) -> Result<(), NoMemory>
    requires place { k < length entries.now }
    requires table { IsTable entries.now (length entries.now) children.now.last.items children.now.before.items }
    ensures { OnOk result ((j : ℕ) → Contains out.new.items j ↔ (Contains out.old.items j ⊎ IsKept entries.now k j)) }
{
    let keeps = keeps_children(&entries.entry(k as usize));
    let mut next = children.last[k as usize];
    while let Some(child) = next {
        push_wanted(keeps, &entries.entry(child as usize), child, out)?;
        next = children.before[child as usize];
    }
    Ok(())
}

/// Puts a child with its number behind `out`, where it stays with a parent that keeps its children or not.
fn push_wanted(
    keeps: bool,
    child: &EntryRef,
    number: u32,
    out: &mut Vec<u32>,
) -> Result<(), NoMemory>
    ensures { OnOk result (out.new.items ≡ out.old.items ++ (if is_wanted keeps child.now then number ∷ [] else [])) }
{
    if (keeps && !is_left_behind(child)) || is_import(child) {
        out.push(number)?;
    }
    Ok(())
}

/// Whether a live entry keeps its children: it is no unit, namespace or module.
fn keeps_children(entry: &EntryRef) -> bool
    ensures { result ≡ keeps_children entry.now }
{
    entry.parent().is_some() && !matches!(entry.tag(), DW_TAG_namespace | DW_TAG_module)
}

/// Whether an entry was not linked: it has an address, and none of its addresses moved.
fn is_left_behind(entry: &EntryRef) -> bool
    ensures { result ≡ is_left_behind entry.now }
{
    has_address(entry) && !moves(entry)
}

/// Whether an entry imports a declaration or a module.
fn is_import(entry: &EntryRef) -> bool
    ensures { result ≡ is_import entry.now }
{
    matches!(
        entry.tag(),
        DW_TAG_imported_declaration | DW_TAG_imported_module
    )
}
