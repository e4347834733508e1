//! Single addresses.

ghost use Rattle.std.specs.Prelude.{◌≡◌};
ghost use Rattle.addr_map.specs.Sound.{IsSound};
ghost use Rattle.moved_parts.specs.Places.{place_of};

use addr_map::{AddrMap, moved, moved_end};
use dwarf_types::{Addr, Place};

/// An address of the object with the places to which it went in the linked program, as an address and as an end.
pub fn place(map: &AddrMap, at: Addr) -> Place
    requires { IsSound map.now }
    ensures { result ≡ place_of map.now at }
{
    Place {
        at,
        linked: moved(map, &at),
        linked_end: moved_end(map, &at),
    }
}
