//! The cache: a shelf behind a lock.

ghost use Rattle.std.specs.Prelude.{◌≡◌, ◌^◌, ◌<◌, length, Ok, IfOk, IfSome};
ghost use Rattle.ds_base.specs.Reading.{Gives};
ghost use Rattle.dwarf_types.specs.Sound.{IsSound};
ghost use Rattle.object_view.specs.Analysis.{analysis_of};

use crate::kept::{Asked, Kept};
use crate::shelf::Shelf;
use ds_base::{NoMemory, ReadError};
use dwarf_types::Analysis;
use object_view::analyse;
use stab_map::MapObject;
use std::alloc::Global;
use std::sync::{Mutex, Wait};

/// Analyses that are kept for whoever asks, from any thread.
#[derive(Drop)]
pub struct Cache {
    shelf: Mutex<Shelf>,
}

impl Cache {
    /// A cache that keeps at most so many analyses.
    pub fn new(alloc: Global, most: u32) -> Result<Cache, NoMemory> {
        Ok(Cache {
            shelf: Mutex::new(Shelf::new(alloc, most)?),
        })
    }

    /// What [`analyse`] answers of the object in a file's bytes, by its part of a debug map, for a program of this CPU type.
    ///
    /// Where the analysis is kept, it is a copy of that one; else it is made, and kept as well where there is memory for it.
    /// The lock is not held while an object is analysed.
    pub fn analysed<R: Wait>(
        &self,
        rt: &R,
        alloc: Global,
        bytes: &[u8],
        object: &MapObject,
        cpu: u32,
    ) -> Result<Analysis, ReadError>
        requires { length bytes.now < 2 ^ 32 }
        ensures exact { Gives (λ analysis. analysis) result (analysis_of bytes.now object.now cpu) }
        ensures sound { IfOk result IsSound }
    {
        let asked = Asked { bytes, object, cpu };
        if let Some(seen) = self.look(rt, alloc, &asked)? {
            return Ok(seen);
        }
        let seen = analyse(alloc, bytes, object, cpu)?;
        self.keep(rt, alloc, &asked, &seen);
        Ok(seen)
    }

    /// A copy of the analysis of what is asked, where it is kept.
    fn look<R: Wait>(
        &self,
        rt: &R,
        alloc: Global,
        asked: &Asked,
    ) -> Result<Option<Analysis>, NoMemory>
        ensures { IfOk result (λ found. IfSome found (λ seen. analysis_of asked.now.bytes.now asked.now.object.now asked.now.cpu ≡ Ok seen)) }
    {
        let shelf = self.shelf.lock(rt);
        shelf.copy_of(alloc, asked)
    }

    /// Keeps an analysis, where there is memory for a copy.
    fn keep<R: Wait>(&self, rt: &R, alloc: Global, asked: &Asked, seen: &Analysis)
        requires { analysis_of asked.now.bytes.now asked.now.object.now asked.now.cpu ≡ Ok seen.now }
    {
        if let Ok(kept) = Kept::new(alloc, asked, seen) {
            self.shelf.lock(rt).enter(kept);
        }
    }

    /// The shelf, when nobody asks any more. It takes no memory.
    pub fn close(self) -> Shelf {
        self.shelf.into_inner()
    }
}
