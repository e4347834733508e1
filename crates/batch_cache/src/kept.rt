//! An analysis that is kept, and what it is the analysis of.

ghost use Rattle.std.specs.Prelude.{◌≡◌, Ok};
ghost use Rattle.object_view.specs.Analysis.{analysis_of};

use ds_base::{Bytes, NoMemory};
use dwarf_types::{Analysis, copy, held_bytes};
use stab_map::{MapObject, copy_object, same_object};
use std::alloc::Global;

/// What is asked: the analysis of the object in these bytes, by its part of a debug map, for a program of this CPU type.
#[derive(Clone, Copy)]
pub(crate) struct Asked<'a> {
    pub bytes: &'a [u8],
    pub object: &'a MapObject,
    pub cpu: u32,
}

/// An analysis, and what it is the analysis of.
#[derive(Drop)]
pub struct Kept {
    bytes: Bytes,
    object: MapObject,
    cpu: u32,
    seen: Analysis,
    /// How many bytes it takes.
    held: u64,
    ghost exact: { analysis_of bytes object cpu ≡ Ok seen },
}

impl Kept {
    ghost use Rattle.std.specs.Prelude.{◌≡◌, true, false, Ok, IfOk};
    ghost use Rattle.object_view.specs.Analysis.{analysis_of};
    ghost use Rattle.batch_cache.specs.Shelves.{asked_key, key_of};

    /// Copies of what is asked and of its analysis.
    pub(crate) fn new(alloc: Global, asked: &Asked, seen: &Analysis) -> Result<Kept, NoMemory>
        requires { analysis_of asked.now.bytes.now asked.now.object.now asked.now.cpu ≡ Ok seen.now }
        ensures { IfOk result (λ kept. key_of kept ≡ asked_key asked.now) }
    {
        let held = (asked.bytes.len() as u64).saturating_add(held_bytes(seen));
        let bytes = Bytes::from_slice(alloc, asked.bytes)?;
        let object = copy_object(alloc, asked.object)?;
        let seen = copy(alloc, seen)?;
        Ok(Kept {
            bytes,
            object,
            cpu: asked.cpu,
            seen,
            held,
        })
    }

    /// How many bytes it takes.
    pub(crate) fn held(&self) -> u64 {
        self.held
    }

    /// What it is the analysis of.
    pub(crate) fn asked(&self) -> Asked<'_>
        ensures { asked_key result ≡ key_of self.now }
    {
        Asked {
            bytes: self.bytes.as_slice(),
            object: &self.object,
            cpu: self.cpu,
        }
    }

    /// Whether it is the analysis of this.
    pub(crate) fn is_of(&self, asked: &Asked) -> bool
        ensures same { result ≡ true → key_of self.now ≡ asked_key asked.now }
        ensures other { result ≡ false → key_of self.now ≡ asked_key asked.now → ⊥ }
    {
        self.cpu == asked.cpu
            && self.bytes.len() == asked.bytes.len()
            && same_object(&self.object, asked.object)
            && self.bytes.as_slice() == asked.bytes
    }

    /// A copy of the analysis.
    pub(crate) fn copied(&self, alloc: Global) -> Result<Analysis, NoMemory>
        ensures { IfOk result (λ seen. analysis_of self.now.bytes self.now.object self.now.cpu ≡ Ok seen) }
    {
        copy(alloc, &self.seen)
    }
}
