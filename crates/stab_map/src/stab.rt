//! What a symbol says to the debug map (mach-o/stab.h).

ghost use Rattle.std.specs.Prelude.{◌≡◌};
ghost use Rattle.macho_read.specs.Seen.{symbol_seen};
ghost use Rattle.stab_map.specs.Stab.{asks, stab_of};

use ds_base::macho::{N_FUN, N_GSYM, N_LCSYM, N_OSO, N_SO, N_STSYM};
use macho_read::SymbolRef;

/// What a symbol says to the debug map.
#[derive(Clone, Copy)]
pub(crate) enum Stab {
    /// The object of this path begins: N_OSO with a name.
    Object,
    /// The object ends: N_OSO or N_SO without a name.
    End,
    /// A function of this name and address, whose size follows: N_FUN with a name.
    Function,
    /// A function's size: N_FUN without a name.
    Size,
    /// A variable of this name and address: N_STSYM or N_LCSYM with a name.
    Static,
    /// A variable of this name, whose address another symbol has: N_GSYM with a name.
    Global,
    /// Nothing, though it is of the kinds above: N_SO with a name, a variable without one.
    Silent,
    /// Nothing: any other symbol, stab or not.
    Other,
}

/// What a symbol says, by its kind and by whether it has a name.
#[tactic(auto, unfolding(crate::specs::Stab::stab_of))]
pub(crate) fn read_stab(symbol: SymbolRef<'_>) -> Stab
    ensures { result ≡ stab_of (symbol_seen symbol.entry) }
{
    let named = !symbol.name.is_empty();
    match symbol.kind {
        N_OSO if named => Stab::Object,
        N_SO if named => Stab::Silent,
        N_OSO | N_SO => Stab::End,
        N_FUN if named => Stab::Function,
        N_FUN => Stab::Size,
        N_STSYM | N_LCSYM if named => Stab::Static,
        N_GSYM if named => Stab::Global,
        N_STSYM | N_LCSYM | N_GSYM => Stab::Silent,
        _ => Stab::Other,
    }
}

/// Whether a symbol is a stab that asks for the address of its name: N_GSYM with a name.
pub(crate) fn asks(symbol: SymbolRef<'_>) -> bool
    ensures { result ≡ asks (stab_of (symbol_seen symbol.entry)) }
{
    matches!(read_stab(symbol), Stab::Global)
}
