//! The spelling of types.

ghost use Rattle.std.specs.Prelude.{◌≡◌, ◌+◌, ◌<◌, true, [], ◌∷◌, ◌++◌, length, reverse, slice_get, map, List as Listed, ℕ, Err, Some, None, All, OnOk, codes, if◌then◌else◌, nat_lt};
ghost use Rattle.std.specs.Fmt.{decimal};
ghost use Rattle.std.specs.List.{filter_map};
ghost use Rattle.std.specs.Option.{option_map};
ghost use Rattle.dwarf_types.specs.Moves.{value_of};
ghost use Rattle.dwarf_types.specs.Seen.{value_seen};
ghost use Rattle.dwarf_types.specs.Tree.{ParentsStandBefore};
ghost use Rattle.type_names.specs.Children.{has_tag, next_listed};
ghost use Rattle.type_names.specs.Entries.{is_made_up, own_name};
ghost use Rattle.type_names.specs.Objects.{LeadsAmong, RefersAmong};
ghost use Rattle.type_names.specs.Onto.{AreTypes, Writes, may_open, onto, spelled_in};
ghost use Rattle.type_names.specs.Spell.{◌&◌, all_of, bound_in, count_in, made_by, named_by, number_in, parameter_in, parameters_in, qualified_name, scope_name, spelled_by, spelled_target, subrange_in, subranges_in, type_in};
ghost use Rattle.type_names.specs.Tree.{above, numbers_above};
ghost use Rattle.type_names.specs.declared.spell.SpellError.TheVariants as errors;

use crate::children::{Children, first_listed, next_listed};
use crate::entries::{is_made_up, is_type, name_of, value_of};
use crate::tree::parent_of;
use ds_base::BitRow;
use ds_base::dwarf::{
    DW_AT_containing_type, DW_AT_count, DW_AT_type, DW_AT_upper_bound, DW_TAG_array_type,
    DW_TAG_atomic_type, DW_TAG_base_type, DW_TAG_const_type, DW_TAG_enumeration_type,
    DW_TAG_formal_parameter, DW_TAG_namespace, DW_TAG_pointer_type, DW_TAG_ptr_to_member_type,
    DW_TAG_reference_type, DW_TAG_restrict_type, DW_TAG_rvalue_reference_type,
    DW_TAG_subrange_type, DW_TAG_subroutine_type, DW_TAG_typedef, DW_TAG_union_type,
    DW_TAG_unspecified_parameters, DW_TAG_unspecified_type, DW_TAG_volatile_type,
};
use dwarf_types::{Entries, EntryRef, ValueRef, is_flag};
use std::alloc::{AllocError, AllocFailed, Global};

/// So many entries can be named above a type at most: each name takes two bytes behind it, and a spelling has 4,096.
const MOST_SCOPES: usize = 2048;

/// Why a type was not spelled.
#[derive(Clone, Copy)]
pub(crate) enum SpellError {
    /// It has no spelling, or its spelling is too long.
    Cannot,
    /// Memory ran out.
    NoMemory,
}

impl From<AllocError> for SpellError {
    ghost use Rattle.std.specs.Prelude.{◌≡◌};
    ghost use Rattle.type_names.specs.declared.spell.SpellError.TheVariants as errors;

    ghost from_gives = { λ _ error. error ≡ errors.NoMemory };

    fn from(_error: AllocError) -> SpellError {
        SpellError::NoMemory
    }
}

impl<T: Drop> From<AllocFailed<T>> for SpellError {
    ghost use Rattle.std.specs.Prelude.{◌≡◌};
    ghost use Rattle.type_names.specs.declared.spell.SpellError.TheVariants as errors;

    ghost from_gives = { λ _ error. error ≡ errors.NoMemory };

    fn from(_error: AllocFailed<T>) -> SpellError {
        SpellError::NoMemory
    }
}

/// What the spelling of an object's types reads.
#[derive(Drop)]
pub(crate) struct Types<'a> {
    pub(crate) alloc: Global,
    pub(crate) entries: &'a Entries,
    pub(crate) children: &'a Children,
    /// The types that a spelling may open; all, where there is no row.
    pub(crate) may_open: Option<&'a BitRow>,
}

/// Writes a text.
#[tactic(auto, unfolding(crate::specs::Onto::onto))]
fn write(out: &mut Vec<u8>, text: &[u8]) -> Result<(), SpellError>
    ensures { Writes result out.new.items (onto out.old.items (Some text.now)) }
{
    if text.len() > 4096 || out.len() > 4096 - text.len() {
        return Err(SpellError::Cannot);
    }
    out.extend_from_slice(text)?;
    Ok(())
}

/// Writes the spelling of type `k`, with at most so many types open, each of which is one that may be.
#[cycle(write_types)]
#[tactic(auto, unfolding(crate::specs::Spell::spelled_within, crate::specs::Onto::onto))]
pub(crate) fn write_type(
    types: &Types,
    levels: u32,
    k: u32,
    out: &mut Vec<u8>,
) -> Result<(), SpellError>
    requires types { AreTypes types.now }
    requires place { k < length types.now.entries.now }
    ensures { Writes result out.new.items (onto out.old.items (spelled_in types.now levels k)) }
{
    if levels == 0 || !may_open(types, k) {
        return Err(SpellError::Cannot);
    }
    write_entry(types, levels - 1, k, &types.entries.entry(k as usize), out)
}

/// Whether a spelling may open type `k`.
fn may_open(types: &Types, k: u32) -> bool
    requires types { AreTypes types.now }
    requires place { k < length types.now.entries.now }
    ensures { result ≡ may_open types.now k }
{
    match types.may_open {
        Some(row) => row.get(k),
        None => true,
    }
}

/// Writes the spelling of type `k`, which is open, with at most so many types open in it.
#[cycle(write_types)]
fn write_entry(
    types: &Types,
    levels: u32,
    k: u32,
    entry: &EntryRef,
    out: &mut Vec<u8>,
) -> Result<(), SpellError>
    requires types { AreTypes types.now }
    requires stands { slice_get types.now.entries.now k ≡ Some entry.now }
    ensures { Writes result out.new.items (onto out.old.items (spelled_by (spelled_in types.now levels) types.now.entries.now k entry.now)) }
{
    let tag = entry.tag();
    if tag == DW_TAG_base_type {
        return write_named(b"b ", entry, out);
    }
    if tag == DW_TAG_unspecified_type {
        return write_named(b"u ", entry, out);
    }
    if is_type(tag) {
        return write_qualified(types, k, entry, out);
    }
    if tag == DW_TAG_ptr_to_member_type {
        return write_member_pointer(types, levels, entry, out);
    }
    if tag == DW_TAG_array_type {
        return write_array(types, levels, k, entry, out);
    }
    if tag == DW_TAG_subroutine_type {
        return write_subroutine(types, levels, k, entry, out);
    }
    write_made(types, levels, entry, out)
}

/// Writes how the spelling of a type begins, and its own name.
fn write_named(begins: &[u8], entry: &EntryRef, out: &mut Vec<u8>) -> Result<(), SpellError>
    ensures { Writes result out.new.items (onto out.old.items (Some begins.now & own_name entry.now)) }
{
    write(out, begins)?;
    write_own_name(entry, out)
}

/// Writes the entry's own name, where types can be told apart by it.
#[tactic(auto, unfolding(crate::specs::Onto::onto))]
fn write_own_name(entry: &EntryRef, out: &mut Vec<u8>) -> Result<(), SpellError>
    ensures { Writes result out.new.items (onto out.old.items (own_name entry.now)) }
{
    match name_of(entry) {
        Some(name) => write_name(name, out),
        None => Err(SpellError::Cannot),
    }
}

/// Writes a name, where it does not stand for something without a name. A longer one than a spelling may be is not
/// searched.
fn write_name(name: &[u8], out: &mut Vec<u8>) -> Result<(), SpellError>
    ensures { Writes result out.new.items (onto out.old.items (if is_made_up name.now then None else Some name.now)) }
{
    if name.len() > 4096 {
        return Err(SpellError::Cannot);
    }
    write_real_name(name, out)
}

/// The same for a name that may fit.
#[tactic(auto, unfolding(crate::specs::Onto::onto))]
fn write_real_name(name: &[u8], out: &mut Vec<u8>) -> Result<(), SpellError>
    ensures { Writes result out.new.items (onto out.old.items (if is_made_up name.now then None else Some name.now)) }
{
    if is_made_up(name) {
        return Err(SpellError::Cannot);
    }
    write(out, name)
}

/// Writes a type that has a name of its own: how it begins, and its qualified name.
fn write_qualified(
    types: &Types,
    k: u32,
    entry: &EntryRef,
    out: &mut Vec<u8>,
) -> Result<(), SpellError>
    requires types { AreTypes types.now }
    requires place { k < length types.now.entries.now }
    ensures { Writes result out.new.items (onto out.old.items (Some (named_by entry.now.tag) & qualified_name types.now.entries.now k entry.now)) }
{
    write_named_by(entry.tag(), out)?;
    write_qualified_name(types, k, entry, out)
}

/// Writes the names of the entries above entry `k`, and its own.
fn write_qualified_name(
    types: &Types,
    k: u32,
    entry: &EntryRef,
    out: &mut Vec<u8>,
) -> Result<(), SpellError>
    requires types { AreTypes types.now }
    requires place { k < length types.now.entries.now }
    ensures { Writes result out.new.items (onto out.old.items (qualified_name types.now.entries.now k entry.now)) }
{
    write_scopes(types.alloc, types.entries, k, out)?;
    write_own_name(entry, out)
}

/// Writes how the spelling begins of a type that has a name of its own.
fn write_named_by(tag: u16, out: &mut Vec<u8>) -> Result<(), SpellError>
    ensures { Writes result out.new.items (onto out.old.items (Some (named_by tag))) }
{
    match tag {
        DW_TAG_union_type => write(out, b"n "),
        DW_TAG_enumeration_type => write(out, b"e "),
        DW_TAG_typedef => write(out, b"t "),
        _ => write(out, b"s "),
    }
}

/// Writes the names of the entries between the unit and entry `k`, from the outermost.
fn write_scopes(
    alloc: Global,
    entries: &Entries,
    k: u32,
    out: &mut Vec<u8>,
) -> Result<(), SpellError>
    requires parents { ParentsStandBefore entries.now }
    requires place { k < length entries.now }
    ensures { Writes result out.new.items (onto out.old.items (all_of (map (λ a. scope_name a & Some (codes "::")) (above entries.now k)))) }
{
    let mut scopes = Vec::new(alloc);
    push_scopes(entries, k, &mut scopes)?;
    while let Some(a) = scopes.pop() {
        write_scope(&entries.entry(a as usize), out)?;
    }
    write(out, b"")
}

/// Pushes the numbers of the entries between entry `k` and its unit, from the innermost. Where there are so many that their
/// names can't fit, it stops.
fn push_scopes(entries: &Entries, k: u32, scopes: &mut Vec<u32>) -> Result<(), SpellError>
    requires parents { ParentsStandBefore entries.now }
    requires place { k < length entries.now }
    requires none { scopes.old.items ≡ [] }
    ensures all { OnOk result (reverse scopes.new.items ≡ numbers_above entries.now k) }
    ensures within { All (λ a. a < length entries.now) scopes.new.items }
    ensures deep { result ≡ Err errors.Cannot → (out : Listed ℕ) → onto out (all_of (map (λ a. scope_name a & Some (codes "::")) (above entries.now k))) ≡ None }
{
    let mut left = parent_of(entries, k);
    while let Some(a) = left {
        if scopes.len() > MOST_SCOPES {
            return Err(SpellError::Cannot);
        }
        left = parent_of(entries, a);
        if left.is_some() {
            scopes.push(a)?;
        }
    }
    Ok(())
}

/// Writes the name of an entry in which others stand.
fn write_scope(entry: &EntryRef, out: &mut Vec<u8>) -> Result<(), SpellError>
    ensures { Writes result out.new.items (onto out.old.items (scope_name entry.now & Some (codes "::"))) }
{
    write_scope_name(entry, out)?;
    write(out, b"::")
}

/// Writes the own name of an entry, where it is a namespace or a type.
#[tactic(auto, unfolding(crate::specs::Onto::onto))]
fn write_scope_name(entry: &EntryRef, out: &mut Vec<u8>) -> Result<(), SpellError>
    ensures { Writes result out.new.items (onto out.old.items (scope_name entry.now)) }
{
    if entry.tag() == DW_TAG_namespace || is_type(entry.tag()) {
        return write_own_name(entry, out);
    }
    Err(SpellError::Cannot)
}

/// Writes a type that is made of one other type.
#[cycle(write_types)]
fn write_made(
    types: &Types,
    levels: u32,
    entry: &EntryRef,
    out: &mut Vec<u8>,
) -> Result<(), SpellError>
    requires types { AreTypes types.now }
    requires refers { RefersAmong (length types.now.entries.now) entry.now }
    ensures { Writes result out.new.items (onto out.old.items (made_by entry.now.tag & type_in (spelled_in types.now levels) entry.now)) }
{
    write_made_by(entry.tag(), out)?;
    write_target(types, levels, value_of(entry, DW_AT_type), out)
}

/// Writes how the spelling of a type begins that is made of one other type.
#[tactic(auto, unfolding(crate::specs::Onto::onto))]
fn write_made_by(tag: u16, out: &mut Vec<u8>) -> Result<(), SpellError>
    ensures { Writes result out.new.items (onto out.old.items (made_by tag)) }
{
    match tag {
        DW_TAG_pointer_type => write(out, b"*"),
        DW_TAG_reference_type => write(out, b"&"),
        DW_TAG_rvalue_reference_type => write(out, b"&&"),
        DW_TAG_const_type => write(out, b"c"),
        DW_TAG_volatile_type => write(out, b"w"),
        DW_TAG_restrict_type => write(out, b"r"),
        DW_TAG_atomic_type => write(out, b"a"),
        _ => Err(SpellError::Cannot),
    }
}

/// Writes a pointer to a member: the type that contains it, and the member's.
#[cycle(write_types)]
fn write_member_pointer(
    types: &Types,
    levels: u32,
    entry: &EntryRef,
    out: &mut Vec<u8>,
) -> Result<(), SpellError>
    requires types { AreTypes types.now }
    requires refers { RefersAmong (length types.now.entries.now) entry.now }
    ensures { Writes result out.new.items (onto out.old.items (Some (codes "m") & (spelled_target (spelled_in types.now levels) (value_of DW_AT_containing_type entry.now) & (Some (codes ",") & type_in (spelled_in types.now levels) entry.now)))) }
{
    write(out, b"m")?;
    write_target(types, levels, value_of(entry, DW_AT_containing_type), out)?;
    write_type_after(types, levels, b",", entry, out)
}

/// Writes a text, and the type of an entry.
#[cycle(write_types)]
fn write_type_after(
    types: &Types,
    levels: u32,
    text: &[u8],
    entry: &EntryRef,
    out: &mut Vec<u8>,
) -> Result<(), SpellError>
    requires types { AreTypes types.now }
    requires refers { RefersAmong (length types.now.entries.now) entry.now }
    ensures { Writes result out.new.items (onto out.old.items (Some text.now & type_in (spelled_in types.now levels) entry.now)) }
{
    write(out, text)?;
    write_target(types, levels, value_of(entry, DW_AT_type), out)
}

/// Writes the type to which an attribute leads, `void` where there is none.
#[cycle(write_types)]
#[tactic(auto, unfolding(crate::specs::Onto::onto))]
fn write_target(
    types: &Types,
    levels: u32,
    value: Option<ValueRef>,
    out: &mut Vec<u8>,
) -> Result<(), SpellError>
    requires types { AreTypes types.now }
    requires leads { LeadsAmong (length types.now.entries.now) (option_map value_seen value) }
    ensures { Writes result out.new.items (onto out.old.items (spelled_target (spelled_in types.now levels) (option_map value_seen value.entry))) }
{
    match value {
        None => write(out, b"void"),
        Some(ValueRef::Ref(k)) => write_type(types, levels, k, out),
        Some(_) => Err(SpellError::Cannot),
    }
}

/// Writes an array type: how many elements each dimension has, and the type of an element.
#[cycle(write_types)]
fn write_array(
    types: &Types,
    levels: u32,
    k: u32,
    entry: &EntryRef,
    out: &mut Vec<u8>,
) -> Result<(), SpellError>
    requires types { AreTypes types.now }
    requires array { has_tag types.now.entries.now DW_TAG_array_type k ≡ true }
    requires refers { RefersAmong (length types.now.entries.now) entry.now }
    ensures { Writes result out.new.items (onto out.old.items (Some (codes "[") & (subranges_in types.now.entries.now k & (Some (codes "]") & type_in (spelled_in types.now levels) entry.now)))) }
{
    write(out, b"[")?;
    write_subranges(types, k, out)?;
    write_type_after(types, levels, b"]", entry, out)
}

/// Writes how many elements each dimension of array type `k` has.
fn write_subranges(types: &Types, k: u32, out: &mut Vec<u8>) -> Result<(), SpellError>
    requires types { AreTypes types.now }
    requires array { has_tag types.now.entries.now DW_TAG_array_type k ≡ true }
    ensures { Writes result out.new.items (onto out.old.items (subranges_in types.now.entries.now k)) }
{
    let mut child = first_listed(types.entries, types.children, k);
    while let Some(j) = child {
        write_subrange(&types.entries.entry(j as usize), out)?;
        child = next_listed(types.entries, types.children, k, j);
    }
    write(out, b"")
}

/// Writes how many elements a subrange has. An array has no other children.
#[tactic(auto, unfolding(crate::specs::Onto::onto))]
fn write_subrange(entry: &EntryRef, out: &mut Vec<u8>) -> Result<(), SpellError>
    ensures { Writes result out.new.items (onto out.old.items (subrange_in entry.now)) }
{
    if entry.tag() == DW_TAG_subrange_type {
        return write_count_and_mark(entry, out);
    }
    Err(SpellError::Cannot)
}

/// Writes how many elements a subrange has, and a semicolon.
fn write_count_and_mark(entry: &EntryRef, out: &mut Vec<u8>) -> Result<(), SpellError>
    ensures { Writes result out.new.items (onto out.old.items (count_in (value_of DW_AT_count entry.now) (value_of DW_AT_upper_bound entry.now) & Some (codes ";"))) }
{
    write_count(entry, out)?;
    write(out, b";")
}

/// Writes how many elements a subrange has, where it says so.
fn write_count(entry: &EntryRef, out: &mut Vec<u8>) -> Result<(), SpellError>
    ensures { Writes result out.new.items (onto out.old.items (count_in (value_of DW_AT_count entry.now) (value_of DW_AT_upper_bound entry.now))) }
{
    match value_of(entry, DW_AT_count) {
        Some(count) => write_bound(&count, 0, out),
        None => write_upper(entry, out),
    }
}

/// Writes how many elements there are up to the upper bound, where there is one.
fn write_upper(entry: &EntryRef, out: &mut Vec<u8>) -> Result<(), SpellError>
    ensures { Writes result out.new.items (onto out.old.items (count_in None (value_of DW_AT_upper_bound entry.now))) }
{
    match value_of(entry, DW_AT_upper_bound) {
        Some(upper) => write_bound(&upper, 1, out),
        None => write(out, b""),
    }
}

/// Writes a bound of an array, and as many more.
#[tactic(auto, unfolding(crate::specs::Onto::onto))]
fn write_bound(value: &ValueRef, more: u64, out: &mut Vec<u8>) -> Result<(), SpellError>
    ensures { Writes result out.new.items (onto out.old.items (bound_in more (value_seen value.now))) }
{
    match value {
        ValueRef::Number { form, bits } => write_sum(*form, *bits, more, out),
        _ => Err(SpellError::Cannot),
    }
}

/// Writes a constant, and as many more. A flag is no constant.
#[tactic(auto, unfolding(crate::specs::Onto::onto))]
fn write_sum(form: u16, bits: u64, more: u64, out: &mut Vec<u8>) -> Result<(), SpellError>
    ensures { Writes result out.new.items (onto out.old.items (number_in form bits more)) }
{
    if is_flag(form) || bits > u64::MAX - more {
        return Err(SpellError::Cannot);
    }
    write_decimal(bits + more, out)
}

/// Writes a number in decimal digits.
fn write_decimal(n: u64, out: &mut Vec<u8>) -> Result<(), SpellError>
    ensures { Writes result out.new.items (onto out.old.items (Some (decimal n))) }
{
    if n < 10 {
        return write_digit(n, out);
    }
    write_decimal(n / 10, out)?;
    write_digit(n % 10, out)
}

/// Writes a decimal digit.
fn write_digit(n: u64, out: &mut Vec<u8>) -> Result<(), SpellError>
    requires { n < 10 }
    ensures { Writes result out.new.items (onto out.old.items (Some ((48 + n) ∷ []))) }
{
    write(out, &[48 + n as u8])
}

/// Writes a subroutine type.
#[cycle(write_types)]
fn write_subroutine(
    types: &Types,
    levels: u32,
    k: u32,
    entry: &EntryRef,
    out: &mut Vec<u8>,
) -> Result<(), SpellError>
    requires types { AreTypes types.now }
    requires place { k < length types.now.entries.now }
    requires refers { RefersAmong (length types.now.entries.now) entry.now }
    ensures { Writes result out.new.items (onto out.old.items (Some (codes "(") & (parameters_in (spelled_in types.now levels) types.now.entries.now k & (Some (codes ")") & type_in (spelled_in types.now levels) entry.now)))) }
{
    write(out, b"(")?;
    write_parameters(types, levels, k, out)?;
    write_type_after(types, levels, b")", entry, out)
}

/// Writes the parameters among the children of entry `k`.
#[cycle(write_types)]
pub(crate) fn write_parameters(
    types: &Types,
    levels: u32,
    k: u32,
    out: &mut Vec<u8>,
) -> Result<(), SpellError>
    requires types { AreTypes types.now }
    requires place { k < length types.now.entries.now }
    ensures { Writes result out.new.items (onto out.old.items (parameters_in (spelled_in types.now levels) types.now.entries.now k)) }
{
    let mut child = first_listed(types.entries, types.children, k);
    while let Some(j) = child {
        write_parameter(types, levels, &types.entries.entry(j as usize), out)?;
        child = next_listed(types.entries, types.children, k, j);
    }
    write(out, b"")
}

/// Writes the type of a parameter, or three points for those that are not listed.
#[cycle(write_types)]
fn write_parameter(
    types: &Types,
    levels: u32,
    entry: &EntryRef,
    out: &mut Vec<u8>,
) -> Result<(), SpellError>
    requires types { AreTypes types.now }
    requires refers { RefersAmong (length types.now.entries.now) entry.now }
    ensures { Writes result out.new.items (onto out.old.items (parameter_in (spelled_in types.now levels) entry.now)) }
{
    if entry.tag() == DW_TAG_formal_parameter {
        return write_listed(types, levels, entry, out);
    }
    if entry.tag() == DW_TAG_unspecified_parameters {
        return write(out, b"...;");
    }
    write(out, b"")
}

/// Writes the type of a listed parameter.
#[cycle(write_types)]
fn write_listed(
    types: &Types,
    levels: u32,
    entry: &EntryRef,
    out: &mut Vec<u8>,
) -> Result<(), SpellError>
    requires types { AreTypes types.now }
    requires refers { RefersAmong (length types.now.entries.now) entry.now }
    ensures { Writes result out.new.items (onto out.old.items (type_in (spelled_in types.now levels) entry.now & Some (codes ";"))) }
{
    write_target(types, levels, value_of(entry, DW_AT_type), out)?;
    write(out, b";")
}
