//! Files that are kept in memory.

ghost use Rattle.std.specs.Prelude.{◌≡◌, OnOk, OnErr, Some};
ghost use Rattle.std.specs.Option.{option_copied};
ghost use Rattle.std.specs.Ordering.{nat_cmp};
ghost use Rattle.std.specs.Cmp.Lexicographic.{slice_cmp};
ghost use Rattle.std.specs.FinMap as map;

use crate::ahead::Ahead;
use crate::files::{FileError, Files};
use crate::tally::Tally;
use ds_base::{Bytes, List, NoMemory};
use std::alloc::Global;
use std::marker::Model;

/// Files that are kept in memory and told, for tests.
#[derive(Drop)]
pub struct MemoryFiles {
    /// The names with their bytes, the newest of a name first.
    stored: Vec<(Bytes, Bytes)>,
    tally: Tally,
    /// The numbers of the calls that fail, from 1.
    failing: List<u64>,
}

impl Model for MemoryFiles {
    ghost use Rattle.std.specs.FinMap as map;
    ghost use Rattle.ds_files.specs.MemoryFiles.{StoredFiles, stored_files_code};

    ghost Value = { StoredFiles };

    ghost coded = { stored_files_code };

    ghost view = { λ s. record { files = map.from_entries s.stored.items; counts = s.tally; failing = s.failing } };
}

impl MemoryFiles {
    ghost use Rattle.ds_files.specs.Outside.{IsLater};
    ghost use Rattle.ds_files.specs.MemoryFiles.{no_files, set_file, fails_next, call_more, long_error};

    /// No file, and no call yet. It asks the allocator for nothing.
    ///
    /// `failing` has the numbers of the calls that fail: those of `read` and `replace` are counted together, from 1.
    pub fn new(alloc: Global, failing: List<u64>) -> MemoryFiles
        ensures { result ≡ no_files failing }
    {
        MemoryFiles {
            stored: Vec::new(alloc),
            tally: Tally::new(),
            failing,
        }
    }

    /// Gives the name these bytes, and leaves all other names and all counts. It never fails but for memory.
    pub fn set(&mut self, alloc: Global, name: &str, bytes: &[u8]) -> Result<(), NoMemory>
        ensures ok { OnOk result (self.new ≡ set_file name.now bytes.now self.old) }
        ensures unchanged { OnErr result (self.new ≡ self.old) }
    {
        let key = Bytes::from_slice(alloc, name.as_bytes())?;
        let value = Bytes::from_slice(alloc, bytes)?;
        self.stored.insert(0, (key, value))?;
        Ok(())
    }

    /// The bytes of the named file, or `None` where it isn't there.
    pub fn file(&self, name: &str) -> Option<&[u8]>
        ensures { option_copied result ≡ map.get self.now.files name.now }
    {
        find_file(self.stored.as_slice(), name)
    }

    /// Counts a call, and says whether it fails.
    fn call_fails(&mut self) -> bool
        ensures result { result ≡ fails_next self.old }
        ensures counted { self.new ≡ call_more self.old }
        ensures later { IsLater self.old.counts self.new.counts }
    {
        let number = self.tally.call();
        self.failing.as_slice().contains(&number)
    }

    /// The error of a file that is too long. A count at its last value counts as risen, so it is then `Failed`.
    fn long_error(&self) -> FileError
        ensures { result ≡ long_error self.now.counts }
    {
        if self.tally.is_full() {
            FileError::Failed
        } else {
            FileError::TooLong
        }
    }
}

impl Files for MemoryFiles {
    ghost use Rattle.std.specs.Prelude.{◌≡◌, ◌≤◌, length, None, Some, IfOk, OnOk, IfErr, option_map};
    ghost use Rattle.std.specs.FinMap as map;
    ghost use Rattle.ds_files.specs.Outside.{IsLater, IsOneCall, Told, IsLong, IsQuiet, ReadFails, RefusesLong, ReplaceFails, called};
    ghost use Rattle.ds_files.specs.MemoryFiles.{Answers, read_of, replace_of, after_read, after_replace};

    ghost files = { λ s. Some s.files };

    ghost counts = { λ s. s.counts };

    #[tactic(auto, using(crate::proofs::Later::later_trans))]
    fn read(&mut self, alloc: Global, name: &str, most: u64) -> Result<Bytes, FileError>
        ensures exact { Answers result (read_of self.old name.now most) }
        ensures after { self.new ≡ after_read result self.old }

        ensures found { IfOk result (λ b. (length b ≤ most) × Told (Some self.old.files) (λ m. map.get m name.now ≡ Some b)) }
        ensures quiet { IfOk result (λ _. self.new.counts ≡ called self.old.counts) }
        ensures failed { IfErr result (ReadFails (Some self.old.files) name.now most self.old.counts self.new.counts) }
        ensures long { Told (Some self.old.files) (λ m. IsLong name.now most m → IsQuiet self.old.counts self.new.counts → RefusesLong result) }

        ensures same { Some self.new.files ≡ Some self.old.files }
        ensures called { IsOneCall self.old.counts self.new.counts }
        ensures later { IsLater self.old.counts self.new.counts }
    {
        if self.call_fails() {
            return Err(self.tally.count(FileError::Failed));
        }
        let Some(bytes) = self.file(name) else {
            return Err(self.tally.count(FileError::Missing));
        };
        if bytes.len() as u64 > most {
            let error = self.long_error();
            return Err(self.tally.count(error));
        }
        Ok(Bytes::from_slice(alloc, bytes)?)
    }

    #[tactic(auto, using(crate::proofs::Later::later_trans))]
    fn replace(&mut self, alloc: Global, name: &str, bytes: &[u8]) -> Result<(), FileError>
        ensures exact { Answers result (replace_of self.old) }
        ensures after { self.new ≡ after_replace result name.now bytes.now self.old }

        ensures done { OnOk result (Some self.new.files ≡ option_map (λ m. map.insert m name.now bytes.now) (Some self.old.files)) }
        ensures quiet { OnOk result (self.new.counts ≡ called self.old.counts) }
        ensures failed { IfErr result (ReplaceFails (Some self.old.files) (Some self.new.files) name.now self.old.counts self.new.counts) }
        ensures called { IsOneCall self.old.counts self.new.counts }
        ensures later { IsLater self.old.counts self.new.counts }
    {
        if self.call_fails() {
            return Err(self.tally.count(FileError::Failed));
        }
        self.set(alloc, name, bytes)?;
        Ok(())
    }

    fn size_ahead(&self, _name: &str) -> Option<u64>
        ensures { result ≡ None }
    {
        None
    }

    fn fetch(&self, _alloc: Global, _name: &str, _most: u64) -> Option<Bytes>
        ensures { result ≡ None }
    {
        None
    }

    fn keep(&mut self, _ahead: Ahead)
        ensures exact { self.new ≡ self.old }

        ensures same { Some self.new.files ≡ Some self.old.files }
        ensures counted { self.new.counts ≡ self.old.counts }
    {}
}

/// The newest bytes of a name.
fn find_file<'a>(stored: &'a [(Bytes, Bytes)], name: &str) -> Option<&'a [u8]>
    ensures { option_copied result ≡ map.find (slice_cmp nat_cmp) name.now stored.now }
{
    for (key, bytes) in stored {
        if name.as_bytes() == key.as_slice() {
            return Some(bytes.as_slice());
        }
    }
    None
}
