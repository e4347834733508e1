//! Pieces of paths, which borrow their texts from the analyses.

ghost use Rattle.std.specs.Prelude.{◌≡◌, ◌<◌, ◌↔◌, ℕ, IsTrue, IsSome, is_some, length, slice_get, Some, if◌then◌else◌};
ghost use Rattle.std.specs.Option.{option_map};
ghost use Rattle.dwarf_types.specs.declared.entry.Entry.{Entry as AnEntry};
ghost use Rattle.odr_names.specs.Pieces.{IsSpelled, own_seen, parts_seen, piece_seen};
ghost use Rattle.type_names.specs.Entries.{Text, linkage_of};
ghost use Rattle.type_names.specs.Objects.{object_of};
ghost use Rattle.type_names.specs.Paths.{is_overloaded, parts_of, piece_text, private_of, tag_of};
ghost use Rattle.type_names.specs.Pooled.{AreNames};

use ds_base::BitRow;
use ds_base::dwarf::{DW_TAG_class_type, DW_TAG_structure_type, DW_TAG_subprogram};
use dwarf_types::{Analysis, EntryRef};
use type_names::{TypeNames, linkage_of, name_of};

/// The object and the entry of a piece that nothing else tells apart.
#[derive(Clone, Copy)]
pub(crate) struct Private {
    pub(crate) object: u32,
    pub(crate) entry: u32,
}

/// What tells an entry apart from most of its siblings.
#[derive(Clone, Copy)]
pub(crate) struct PartsRef<'a> {
    pub(crate) tag: u16,
    pub(crate) name: Option<&'a [u8]>,
    pub(crate) linkage: Option<&'a [u8]>,
    pub(crate) spelled: Option<&'a [u8]>,
    pub(crate) private: Option<Private>,
}

/// A piece of a path.
#[derive(Clone, Copy)]
pub(crate) struct PieceRef<'a> {
    pub(crate) parts: PartsRef<'a>,
    /// Which one it is of the siblings with the same parts, counted from 0.
    pub(crate) ordinal: u32,
}

/// The parts of an entry of an object, which is counted from 1.
pub(crate) fn parts_at<'a>(
    seen: &'a Analysis,
    live: &BitRow,
    names: &'a TypeNames,
    object: u32,
    k: u32,
) -> PartsRef<'a>
    requires place { k < length seen.now.entries }
    requires names { AreNames (object_of seen.now live.now) names.now }
    requires spelled { IsSpelled (object_of seen.now live.now) k }
    ensures { (e : AnEntry) → slice_get seen.now.entries k ≡ Some e → parts_seen result ≡ parts_of object (object_of seen.now live.now) k e }
{
    let entry = seen.entries.entry(k as usize);
    let linkage = linkage_of(&entry);
    let spelled = names.spelled.get(k);
    PartsRef {
        tag: tag_of(&entry),
        name: name_of(&entry),
        linkage,
        spelled,
        private: private_of(&entry, linkage.is_some(), spelled.is_some(), object, k),
    }
}

/// The tag of an entry, where a class is a structure.
fn tag_of(entry: &EntryRef) -> u16
    ensures { result ≡ tag_of entry.now }
{
    if entry.tag() == DW_TAG_class_type {
        DW_TAG_structure_type
    } else {
        entry.tag()
    }
}

/// The object and the entry of a subprogram that only its parameters tell apart, where these can't be spelled. `linked`
/// tells whether it has a linkage name.
fn private_of(entry: &EntryRef, linked: bool, spelled: bool, object: u32, k: u32) -> Option<Private>
    requires linked { linked ≡ is_some (linkage_of entry.now) }
    ensures { option_map own_seen result ≡ private_of object k entry.now spelled }
{
    if entry.tag() == DW_TAG_subprogram && !linked && !spelled {
        Some(Private { object, entry: k })
    } else {
        None
    }
}

/// Whether two pieces are equal.
pub(crate) fn piece_equal(a: &PieceRef, b: &PieceRef) -> bool
    ensures { IsTrue result ↔ (piece_seen a.now ≡ piece_seen b.now) }
{
    a.ordinal == b.ordinal && parts_equal(&a.parts, &b.parts)
}

/// Whether two pieces have the same parts.
pub(crate) fn parts_equal(a: &PartsRef, b: &PartsRef) -> bool
    ensures { IsTrue result ↔ (parts_seen a.now ≡ parts_seen b.now) }
{
    a.tag == b.tag
        && text_equal(a.name, b.name)
        && text_equal(a.linkage, b.linkage)
        && text_equal(a.spelled, b.spelled)
        && own_equal(a.private, b.private)
}

/// Whether two texts are equal, or neither is there.
fn text_equal(a: Option<&[u8]>, b: Option<&[u8]>) -> bool
    ensures { IsTrue result ↔ (option_map (λ text. text.now) a.entry ≡ option_map (λ text. text.now) b.entry) }
{
    match (a, b) {
        (Some(a), Some(b)) => a == b,
        (None, None) => true,
        _ => false,
    }
}

/// Whether two pieces are of one entry, or of entries that are told apart otherwise.
fn own_equal(a: Option<Private>, b: Option<Private>) -> bool
    ensures { IsTrue result ↔ (option_map own_seen a ≡ option_map own_seen b) }
{
    match (a, b) {
        (Some(a), Some(b)) => a.object == b.object && a.entry == b.entry,
        (None, None) => true,
        _ => false,
    }
}
