//! The pass over the symbols: what one symbol adds to the map.

ghost use Rattle.std.specs.Prelude.{◌≡◌, ◌++◌, ℕ, [], ◌∷◌, IfOk};
ghost use Rattle.std.specs.Str.{is_utf8};
ghost use Rattle.ds_base.specs.Reading.{Finds, Gives};
ghost use Rattle.macho_read.specs.Seen.{symbol_seen};
ghost use Rattle.stab_map.specs.Addresses.{address_in};
ghost use Rattle.stab_map.specs.DebugMap.{object_of};
ghost use Rattle.stab_map.specs.Pass.{Steps, StepsAlone, opened, whole_map};
ghost use Rattle.stab_map.specs.Stab.{stab_of};
ghost use Rattle.stab_map.specs.declared.pass.State.TheVariants as states;

use crate::object::{MapEntry, MapObject};
use crate::origin::find_origin;
use crate::stab::{Stab, read_stab};
use ds_base::{Bytes, Fault, Kind, List, NoMemory, Part, ReadError, TextKey};
use macho_read::SymbolRef;
use std::alloc::Global;
use std::collections::HashMap;

/// An object whose symbols are being read.
#[derive(Drop)]
pub(crate) struct Open<'a> {
    pub path: &'a [u8],
    /// Those of the symbols so far.
    pub entries: List<MapEntry>,
}

/// A function whose size is still to come.
#[derive(Clone, Copy)]
pub(crate) struct Start<'a> {
    pub name: &'a [u8],
    pub linked: u64,
    /// That of its symbol.
    pub index: usize,
}

/// Where the pass stands.
#[derive(Drop)]
pub(crate) enum State<'a> {
    /// Outside of objects.
    Outside,
    /// In an object.
    Inside(Open<'a>),
    /// In an object, behind a function: the next stab that is used tells its size.
    Named(Open<'a>, Start<'a>),
}

/// The state behind one more symbol, which has this index. An object that ends goes to `objects`.
pub(crate) fn step<'a>(
    alloc: Global,
    addresses: &HashMap<TextKey<'a>, u64>,
    objects: &mut List<MapObject>,
    state: State<'a>,
    index: usize,
    symbol: SymbolRef<'a>,
) -> Result<State<'a>, ReadError>
    ensures { Steps (address_in addresses.now) result objects.new objects.old state.entry index (symbol_seen symbol.entry) }
{
    let stab = read_stab(symbol);
    match state {
        State::Outside => step_outside(alloc, stab, index, symbol),
        State::Inside(current) => step_inside(
            alloc, addresses, objects, current, stab, index, symbol,
        ),
        State::Named(current, start) => step_named(alloc, current, start, stab, symbol),
    }
}

/// The same, outside of objects.
fn step_outside<'a>(
    alloc: Global,
    stab: Stab,
    index: usize,
    symbol: SymbolRef<'a>,
) -> Result<State<'a>, ReadError>
    requires { stab ≡ stab_of (symbol_seen symbol) }
    ensures { StepsAlone result states.Outside index (symbol_seen symbol.entry) }
{
    match stab {
        Stab::Object => Ok(State::Inside(open_object(alloc, index, symbol)?)),
        _ => Ok(State::Outside),
    }
}

/// The same, in an object and not behind a function.
fn step_inside<'a>(
    alloc: Global,
    addresses: &HashMap<TextKey<'a>, u64>,
    objects: &mut List<MapObject>,
    current: Open<'a>,
    stab: Stab,
    index: usize,
    symbol: SymbolRef<'a>,
) -> Result<State<'a>, ReadError>
    requires { stab ≡ stab_of (symbol_seen symbol) }
    ensures { Steps (address_in addresses.now) result objects.new objects.old (states.Inside current.entry) index (symbol_seen symbol.entry) }
{
    let name = symbol.name;
    match stab {
        Stab::Object => {
            let object = closed(alloc, current)?;
            objects.push(object)?;
            Ok(State::Inside(open_object(alloc, index, symbol)?))
        }
        Stab::End => {
            let object = closed(alloc, current)?;
            objects.push(object)?;
            Ok(State::Outside)
        }
        Stab::Function => {
            let start = Start {
                name,
                linked: symbol.value,
                index,
            };
            Ok(State::Named(current, start))
        }
        Stab::Static => {
            let entry = entry(alloc, name, symbol.value, None)?;
            Ok(State::Inside(with_entry(current, entry)?))
        }
        Stab::Global => match addresses.get(&TextKey { text: name }) {
            Some(address) => {
                let entry = entry(alloc, name, *address, None)?;
                Ok(State::Inside(with_entry(current, entry)?))
            }
            None => Ok(State::Inside(current)),
        },
        Stab::Size | Stab::Silent | Stab::Other => Ok(State::Inside(current)),
    }
}

/// The same, behind a function.
fn step_named<'a>(
    alloc: Global,
    current: Open<'a>,
    start: Start<'a>,
    stab: Stab,
    symbol: SymbolRef<'_>,
) -> Result<State<'a>, ReadError>
    requires { stab ≡ stab_of (symbol_seen symbol) }
    ensures { (index : ℕ) → StepsAlone result (states.Named current.entry start.entry) index (symbol_seen symbol.entry) }
{
    match stab {
        Stab::Size => {
            let entry = entry(alloc, start.name, start.linked, Some(symbol.value))?;
            Ok(State::Inside(with_entry(current, entry)?))
        }
        Stab::Other => Ok(State::Named(current, start)),
        _ => Err(ReadError::Faulty(map_fault(Kind::BadStab, start.index))),
    }
}

/// The end of the symbols: an object whose symbols were being read ends, and goes to `objects`.
pub(crate) fn finish(
    alloc: Global,
    objects: &mut List<MapObject>,
    state: State<'_>,
) -> Result<(), ReadError>
    ensures { Gives (λ _. objects.new) result (whole_map objects.old state.entry) }
{
    match state {
        State::Outside => Ok(()),
        State::Inside(current) => {
            let object = closed(alloc, current)?;
            objects.push(object)?;
            Ok(())
        }
        State::Named(_current, start) => Err(ReadError::Faulty(map_fault(
            Kind::BadStab,
            start.index,
        ))),
    }
}

/// The object that a symbol opens by its name, the path.
#[tactic(auto, unfolding(crate::specs::Pass::opened))]
fn open_object<'a>(alloc: Global, index: usize, symbol: SymbolRef<'a>) -> Result<Open<'a>, Fault>
    ensures { Finds (λ current. (current.path.now, current.entries)) result (opened index (symbol_seen symbol.entry)) }
{
    let path = symbol.name;
    if !is_text(path) {
        return Err(map_fault(Kind::BadPath, index));
    }
    Ok(Open {
        path,
        entries: List::new(alloc),
    })
}

/// Whether bytes are UTF-8.
fn is_text(bytes: &[u8]) -> bool
    ensures { result ≡ is_utf8 bytes.now }
{
    str::from_utf8(bytes).is_ok()
}

/// The object whose symbols were read.
fn closed(alloc: Global, current: Open<'_>) -> Result<MapObject, NoMemory>
    ensures { IfOk result (λ object. object ≡ object_of current.entry.path.now current.entry.entries) }
{
    let origin = find_origin(current.path);
    let member = match origin.member {
        Some(name) => Some(Bytes::from_slice(alloc, name)?),
        None => None,
    };
    Ok(MapObject {
        path: Bytes::from_slice(alloc, current.path)?,
        file: Bytes::from_slice(alloc, origin.file)?,
        member,
        entries: current.entries,
    })
}

/// An object with one entry more.
fn with_entry<'a>(current: Open<'a>, entry: MapEntry) -> Result<Open<'a>, NoMemory>
    ensures { IfOk result (λ grown. grown ≡ record current.entry { entries = current.entry.entries ++ entry ∷ [] }) }
{
    let mut current = current;
    current.entries.push(entry)?;
    Ok(current)
}

/// An entry with a copy of its name.
fn entry(alloc: Global, name: &[u8], linked: u64, size: Option<u64>) -> Result<MapEntry, NoMemory>
    ensures { IfOk result (λ entry. entry ≡ record { name = name.now; linked = linked; size = size }) }
{
    Ok(MapEntry {
        name: Bytes::from_slice(alloc, name)?,
        linked,
        size,
    })
}

/// The fault of the symbol of this index.
fn map_fault(kind: Kind, index: usize) -> Fault
    ensures { result ≡ Rattle.stab_map.specs.DebugMap.map_fault kind index }
{
    Fault {
        kind,
        section: Part::Map,
        place: index as u64,
    }
}
