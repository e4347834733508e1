//! Addresses of an object, and ranges of them.

ghost use Rattle.std.specs.Prelude.{◌≡◌};
ghost use Rattle.dwarf_types.specs.Addresses;

/// What an address of an object means, before it moves to the linked program.
#[derive(Clone, Copy)]
pub enum Addr {
    /// An address in the object's own address space.
    Placed(u64),
    /// So many bytes behind a symbol that another file defines; `symbol` is its index from 0.
    Named { symbol: u32, addend: u64 },
    /// A number that no relocation changes.
    Fixed(u64),
}

impl Addr {
    /// The address so many bytes behind it, modulo 2^64: what it counts from stays.
    pub fn plus(self, offset: u64) -> Addr
        ensures { result ≡ Addresses.plus self offset }
    {
        match self {
            Addr::Placed(at) => Addr::Placed(at.wrapping_add(offset)),
            Addr::Named { symbol, addend } => Addr::Named {
                symbol,
                addend: addend.wrapping_add(offset),
            },
            Addr::Fixed(number) => Addr::Fixed(number.wrapping_add(offset)),
        }
    }

    /// The address, the bytes behind the symbol, or the number.
    pub fn number(self) -> u64
        ensures { result ≡ Addresses.number_of self }
    {
        match self {
            Addr::Placed(at) => at,
            Addr::Named { addend, .. } => addend,
            Addr::Fixed(number) => number,
        }
    }
}

/// An address of an object, and where it went.
#[derive(Clone, Copy)]
pub struct Place {
    pub at: Addr,
    /// The address in the linked program, where the byte there was linked.
    pub linked: Option<u64>,
    /// The address in the linked program of an end, which is the first byte behind a range.
    pub linked_end: Option<u64>,
}

/// The addresses from `low` up to `high`, which is not one of them.
#[derive(Clone, Copy)]
pub struct Span {
    pub low: u64,
    pub high: u64,
}
