//! What a symbol stands for.

ghost use Rattle.std.specs.Prelude.{◌≡◌};
ghost use Rattle.macho_read.specs.Seen.{symbol_seen};
ghost use Rattle.macho_read.specs.Standings;

use crate::image::Image;
use crate::symbol_list::SymbolRef;
use ds_base::macho::{N_EXT, N_SECT, N_STAB, N_TYPE, N_UNDF};

/// What a symbol of an image stands for (mach-o/nlist.h).
#[derive(Clone, Copy)]
pub enum Standing {
    /// An address in the section of this ordinal, which counts from 1 over the image's sections.
    Defined { section: u8 },
    /// Room that the linker sets aside for all objects that name it.
    Common,
    /// What another file defines.
    Undefined,
    /// A number.
    Absolute,
}

/// What a symbol of an image stands for (mach-o/nlist.h, `n_type` and `n_sect`).
///
/// A stab is absolute, and so is a symbol whose type is none of the others, or whose section isn't there.
#[tactic(auto, unfolding(crate::specs::Standings::standing_of))]
pub fn standing_of(image: &Image, symbol: SymbolRef<'_>) -> Standing
    ensures { result ≡ Standings.standing_of image.now (symbol_seen symbol.entry) }
{
    if is_stab(symbol) {
        return Standing::Absolute;
    }
    let kind = symbol.kind & N_TYPE;
    if kind == N_UNDF {
        if is_common(symbol) {
            Standing::Common
        } else {
            Standing::Undefined
        }
    } else if kind == N_SECT && has_section(image, symbol.sect) {
        Standing::Defined {
            section: symbol.sect,
        }
    } else {
        Standing::Absolute
    }
}

/// Whether a symbol of an image is defined in one of its sections (mach-o/nlist.h, `n_type` and `n_sect`).
pub fn is_defined(image: &Image, symbol: SymbolRef<'_>) -> bool
    ensures { result ≡ Standings.is_defined image.now (symbol_seen symbol.entry) }
{
    matches!(standing_of(image, symbol), Standing::Defined { .. })
}

/// Whether a symbol is a stab, which is the debugger's (mach-o/stab.h).
pub fn is_stab(symbol: SymbolRef<'_>) -> bool
    ensures { result ≡ Standings.is_stab (symbol_seen symbol.entry) }
{
    symbol.kind & N_STAB != 0
}

/// Whether an undefined symbol asks for room: it is external, and its value is the size.
fn is_common(symbol: SymbolRef<'_>) -> bool
    ensures { result ≡ Standings.is_common (symbol_seen symbol.entry) }
{
    symbol.kind & N_EXT != 0 && symbol.value != 0
}

/// Whether an image has a section of this ordinal, which counts from 1.
fn has_section(image: &Image, ordinal: u8) -> bool
    ensures { result ≡ Standings.has_section image.now ordinal }
{
    ordinal > 0 && ordinal as usize <= image.sections.len()
}
