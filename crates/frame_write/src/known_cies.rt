//! Common information entries (DWARF 4, section 6.4.1), each put once.

ghost use Rattle.std.specs.Prelude.{◌≡◌, ◌++◌, ◌∷◌, [], None, IfOk, OnOk};
ghost use Rattle.frame_write.specs.Known.{cie_bytes, new_bytes, place_in, told, with_cie};

use appending::{append_offset, append_u32};
use ds_base::dwarf::{DW_CIE_ID, OFFSET_SIZE};
use ds_base::{Bytes, NoMemory, TextKey};
use indexmap::IndexMap;
use std::alloc::Global;
use std::marker::Model;

/// How many bytes of a CIE stand between its length and its content: its id.
const CIE_ID_LEN: usize = OFFSET_SIZE as usize;

/// The common information entries so far, looked up by content.
///
/// A contract sees each content, and the place of its entry in the section.
#[derive(Drop)]
pub(crate) struct KnownCies<'a> {
    places: IndexMap<TextKey<'a>, usize>,
}

impl<'a> Model for KnownCies<'a> {
    ghost use Rattle.frame_write.specs.Known.{Known, known_in};

    ghost Value = { Known };

    ghost view = { λ a. known_in a.places };
}

/// No entries.
pub(crate) fn no_cies<'a>(alloc: Global) -> KnownCies<'a>
    ensures { result ≡ [] }
{
    KnownCies {
        places: IndexMap::new(alloc),
    }
}

/// The place of an entry in the section, of which so many bytes are there. It is put last where it is new.
pub(crate) fn append_cie<'a>(
    out: &mut Bytes,
    known: &mut KnownCies<'a>,
    cie: &'a [u8],
    at: usize,
) -> Result<usize, NoMemory>
    ensures place { IfOk result (λ place. place ≡ told known.old cie.now at) }
    ensures known { OnOk result (known.new ≡ with_cie known.old cie.now at) }
    ensures written { OnOk result (out.new ≡ out.old ++ new_bytes known.old cie.now) }
{
    if let Some(place) = place_of(known, cie) {
        return Ok(place);
    }
    add(known, cie, at)?;
    append_entry(out, cie)?;
    Ok(at)
}

/// The place of the entry of a content, if it was put.
fn place_of(known: &KnownCies<'_>, cie: &[u8]) -> Option<usize>
    ensures { result ≡ place_in known.now cie.now }
{
    known.places.get(&TextKey { text: cie }).copied()
}

/// Keeps the place of an entry that is new.
fn add<'a>(known: &mut KnownCies<'a>, cie: &'a [u8], place: usize) -> Result<(), NoMemory>
    requires new { place_in known.old cie.now ≡ None }
    ensures { OnOk result (known.new ≡ known.old ++ (cie.now, place) ∷ []) }
{
    known.places.insert(TextKey { text: cie }, place)?;
    Ok(())
}

/// Puts an entry last, whose length doesn't count its own four bytes.
fn append_entry(out: &mut Bytes, cie: &[u8]) -> Result<(), NoMemory>
    ensures { OnOk result (out.new ≡ out.old ++ cie_bytes cie.now) }
{
    append_offset(out, CIE_ID_LEN + cie.len())?;
    append_u32(out, DW_CIE_ID)?;
    out.extend(cie)?;
    Ok(())
}
