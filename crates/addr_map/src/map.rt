//! An object's address map.

use ds_base::List;

/// The object's addresses from `start` up to `end`, which is not one of them; `start` went to `linked`.
#[derive(Clone, Copy, Debug)]
pub struct MapRange {
    pub start: u64,
    pub end: u64,
    pub linked: u64,
}

/// Where a symbol went that the object doesn't define, or that is common.
#[derive(Clone, Copy, Debug)]
pub struct MapName {
    /// Its index among the object's symbols, from 0.
    pub symbol: u32,
    pub linked: u64,
}

/// Where the addresses of an object went in the linked program.
#[derive(Drop)]
pub struct AddrMap {
    /// By rising starts; none is empty, and each ends before the next one starts.
    pub ranges: List<MapRange>,
    /// By rising symbols.
    pub names: List<MapName>,
}
