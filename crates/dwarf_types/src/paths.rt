//! Names of directories, which contracts see as the list of them.

ghost use Rattle.std.specs.Prelude.{◌≡◌, ◌<◌, [], ◌∷◌, ◌++◌, length, slice_get, slice_index_or, Some, IfOk, OnOk, OnErr};
ghost use Rattle.std.specs.Option.{option_copied};

use crate::runs::{TextRun, held_by, keep_text, text_in};
use crate::shared_texts::SharedTexts;
use ds_base::NoMemory;
use std::alloc::Global;
use std::marker::Model;

/// Names of directories in the order of their numbers.
#[derive(Drop)]
pub struct Paths {
    texts: SharedTexts,
    /// The names that do not stand in the shared texts, one behind the other.
    bytes: Vec<u8>,
    runs: Vec<TextRun>,
}

impl Model for Paths {
    ghost use Rattle.std.specs.Prelude.{List, ℕ};

    ghost Value = { List (List ℕ) };

    ghost use Rattle.std.specs.Prelude.{All, map};
    ghost use Rattle.dwarf_types.specs.Runs.{InTexts, text_of};

    ghost view = { λ p. map (text_of p.texts p.bytes.items) p.runs.items };

    ghost invariant = { λ p. All (InTexts p.texts p.bytes.items) p.runs.items };
}

impl Paths {
    /// No names.
    pub fn new(alloc: Global) -> Paths
        ensures { result ≡ [] }
    {
        Paths::over(alloc, SharedTexts::none())
    }

    /// No names yet; those that stand in shared texts are not copied.
    pub fn over(alloc: Global, texts: SharedTexts) -> Paths
        ensures { result ≡ [] }
    {
        Paths {
            texts,
            bytes: Vec::new(alloc),
            runs: Vec::new(alloc),
        }
    }

    /// A copy, with the same shared texts.
    pub(crate) fn copy(&self, alloc: Global) -> Result<Paths, NoMemory>
        ensures { IfOk result (λ it. it ≡ self.now) }
    {
        Ok(Paths {
            texts: self.texts.share()?,
            bytes: Vec::from_slice(alloc, &self.bytes)?,
            runs: Vec::from_slice(alloc, &self.runs)?,
        })
    }

    /// How many bytes they hold, but for the shared texts.
    pub(crate) fn held_bytes(&self) -> u64 {
        held_by(&self.bytes, 1).saturating_add(held_by(&self.runs, size_of::<TextRun>()))
    }

    /// How many names there are.
    pub fn len(&self) -> usize
        ensures { result ≡ length self.now }
    {
        self.runs.len()
    }

    /// The name at a place, counted from 0, or `None` behind the last.
    pub fn get(&self, i: usize) -> Option<&[u8]>
        ensures { option_copied result ≡ slice_get self.now i }
    {
        if i >= self.runs.len() {
            return None;
        }
        Some(self.path(i))
    }

    /// The name at a place, counted from 0.
    pub fn path(&self, i: usize) -> &[u8]
        requires { i < length self.now }
        ensures stands { slice_get self.now i ≡ Some result.now }
        ensures item { result.now ≡ slice_index_or self.now i result.now }
    {
        text_in(self.texts.as_slice(), &self.bytes, self.runs[i])
    }

    /// Puts a copy of a name last.
    pub fn push(&mut self, path: &[u8]) -> Result<(), NoMemory>
        ensures ok { OnOk result (self.new ≡ self.old ++ path.now ∷ []) }
        ensures unchanged { OnErr result (self.new ≡ self.old) }
    {
        self.push_at(path, None)
    }

    /// Puts a name last. `place` is where it stands in the shared texts, if it stands there: it helps to keep the name
    /// without a copy, and means nothing more.
    pub fn push_at(&mut self, path: &[u8], place: Option<u32>) -> Result<(), NoMemory>
        ensures ok { OnOk result (self.new ≡ self.old ++ path.now ∷ []) }
        ensures unchanged { OnErr result (self.new ≡ self.old) }
    {
        let run = keep_text(self.texts.as_slice(), &mut self.bytes, path, place)?;
        self.runs.push(run)?;
        Ok(())
    }
}
