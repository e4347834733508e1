//! The debug map of a program.

ghost use Rattle.std.specs.Prelude.{◌≡◌, true, IfOk};
ghost use Rattle.std.specs.List.{All};
ghost use Rattle.std.specs.Str.{is_utf8};
ghost use Rattle.ds_base.specs.Reading.{Gives};
ghost use Rattle.macho_read.specs.Sound.{IsSound};
ghost use Rattle.stab_map.specs.DebugMap.{Answers, map_of};

use crate::addresses::addresses_by_name;
use crate::object::{MapError, MapObject};
use crate::pass::{State, finish, step};
use ds_base::limits::OBJECTS;
use ds_base::{List, ReadError};
use macho_read::Image;
use std::alloc::Global;

/// The debug map of a program: the objects that it was linked from, in the order of its symbols.
///
/// A named N_OSO opens an object, which ends before the next N_OSO, an N_SO without a name, or the end of the
/// symbols. In an object, a named N_FUN is a function, and the next of the stabs that are read is an N_FUN
/// without a name with its size; else it is `BadStab`. A named N_STSYM or N_LCSYM is a variable, and so is a named
/// N_GSYM where a symbol that is no stab defines its name in a section: the first such symbol has its address.
/// The path of an object that isn't UTF-8 is `BadPath`. Faults are placed in the map, at the symbol's index,
/// which counts from 0; the first in the order of the symbols counts. Without a fault, 65,536 objects or more are
/// `Objects`.
///
/// The name of each object's file is text.
///
/// The names of global variables are looked up by their hash, so the time is linear in the symbols and their names.
#[tactic(auto, using(crate::proofs::Names::all_are_named))]
pub fn debug_map(alloc: Global, image: &Image) -> Result<List<MapObject>, MapError>
    requires { IsSound image.now }
    ensures map { Answers result (map_of image.now) }
    ensures names { IfOk result (All (λ object. is_utf8 object.file ≡ true)) }
{
    let objects = read_objects(alloc, image)?;
    if (objects.len() as u64) < OBJECTS {
        Ok(objects)
    } else {
        Err(MapError::Objects)
    }
}

/// All objects, however many.
#[tactic(auto, unfolding(crate::specs::DebugMap::objects_of))]
fn read_objects(alloc: Global, image: &Image) -> Result<List<MapObject>, ReadError>
    ensures { Gives (λ objects. objects) result (Rattle.stab_map.specs.DebugMap.objects_of image.now) }
{
    let addresses = addresses_by_name(alloc, image)?;
    let mut objects = List::new(alloc);
    let mut state = State::Outside;
    for index in 0..image.symbols.len() {
        let symbol = image.symbols.symbol(index);
        state = step(alloc, &addresses, &mut objects, state, index, symbol)?;
    }
    finish(alloc, &mut objects, state)?;
    Ok(objects)
}
