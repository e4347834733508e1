//! The files of objects, each of which goes once its last object is read.

ghost use Rattle.std.specs.Prelude.{◌<◌, ◌≤◌, ◌^◌, List as Listed, ℕ, Option, length, IfOk, IfSome};
ghost use Rattle.std.specs.List.{All};
ghost use Rattle.object_reads.specs.Reading.{AreHeld, AreLast, HoldsFrom};

use ds_base::{Bytes, List, NoMemory};
use std::alloc::Global;
use std::mem::swap;

/// Of all bytes and of all objects a batch has one in so many at least, so that there are few batches.
const BATCHES: u32 = 32;

/// So many of the greatest file at least are in a batch for each worker beside the first.
const FILES_EACH: u64 = 4;

/// So many objects for each worker are not too few for a batch.
const OBJECTS_EACH: u32 = 128;

/// The files of the objects that are not read yet.
#[derive(Drop)]
pub struct FilesLeft {
    /// All files; those that went are empty.
    pub left: List<Bytes>,
    /// The number of the last object of each, counted from 0.
    pub last: Vec<u32>,
    /// So many bytes of files at least go behind a batch.
    pub least: u64,
    /// A batch has so many objects at most.
    pub most: u32,
}

impl FilesLeft {
    /// All files of objects. `source` tells for each object the number of its file, if it has one.
    pub fn new(
        alloc: Global,
        files: List<Bytes>,
        source: &[Option<u32>],
        workers: u32,
    ) -> Result<FilesLeft, NoMemory>
        requires few { length source.now < 2 ^ 20 }
        requires held { All (λ k. IfSome k (λ n. n < length files)) source.now }
        requires small { All (λ file. length file < 2 ^ 32) files }
        ensures { IfOk result (HoldsFrom 0 source.now files) }
    {
        let last = last_objects(alloc, source, files.len())?;
        let least = least_batch(files.as_slice(), workers);
        Ok(FilesLeft {
            left: files,
            last,
            least,
            most: most_objects(source.len() as u32, workers),
        })
    }
}

/// The number of the last object of each file, counted from 0. A file without one has 0.
fn last_objects(alloc: Global, source: &[Option<u32>], files: usize) -> Result<Vec<u32>, NoMemory>
    requires few { length source.now < 2 ^ 20 }
    requires held { All (λ k. IfSome k (λ n. n < files)) source.now }
    ensures { IfOk result (λ last. AreLast source.now last.items) }
{
    let mut last = vec![in alloc; 0; files]?;
    for (k, number) in source.iter().enumerate() {
        if let Some(n) = *number {
            last[n as usize] = k as u32;
        }
    }
    Ok(last)
}

/// So many bytes of files at least go behind a batch.
///
/// Of all bytes they are so many that there are few batches, and so many that workers seldom wait for each other at the
/// end of one. A single worker waits for nobody.
fn least_batch(files: &[Bytes], workers: u32) -> u64
    ensures { 1 ≤ result }
{
    let mut all: u64 = 0;
    let mut greatest: u64 = 0;
    for file in files {
        let size = file.len() as u64;
        all = all.saturating_add(size);
        greatest = greatest.max(size);
    }
    let others = u64::from(workers.saturating_sub(1));
    let shared = greatest.saturating_mul(FILES_EACH * others);
    (all / u64::from(BATCHES)).max(shared).max(1)
}

/// A batch has so many of these objects at most, so that those of one archive, which goes behind its last, are not all in
/// one batch. They are so many that there are few batches.
fn most_objects(objects: u32, workers: u32) -> u32 {
    (objects / BATCHES).max(workers.saturating_mul(OBJECTS_EACH))
}

/// Where the batch that begins with an object ends: so far that files of so many bytes go behind it, or that it has so
/// many objects, and at `end` at the latest.
pub(crate) fn batch_end(files: &FilesLeft, source: &[Option<u32>], first: u32, end: u32) -> u32
    requires few { length source.now < 2 ^ 20 }
    requires there { first < end }
    requires within { end ≤ length source.now }
    ensures { (first < result) × (result ≤ end) }
{
    let mut going: u64 = 0;
    for k in first..end {
        let bytes = bytes_going(files.left.as_slice(), &files.last, source[k as usize], k);
        going = going.saturating_add(bytes);
        if going >= files.least || k + 1 - first >= files.most {
            return k + 1;
        }
    }
    end
}

/// The bytes of a file that goes with this object, which is of the file.
fn bytes_going(files: &[Bytes], last: &[u32], number: Option<u32>, object: u32) -> u64 {
    match number {
        Some(n) if last.get(n as usize) == Some(&object) => match files.get(n as usize) {
            Some(file) => file.len() as u64,
            None => 0,
        },
        _ => 0,
    }
}

/// Takes away the files of the objects from `first` up to `end` of which no object is left.
pub(crate) fn drop_files(
    alloc: Global,
    left: &mut [Bytes],
    source: &[Option<u32>],
    last: &[u32],
    first: u32,
    end: u32,
) -> Result<List<Bytes>, NoMemory>
    requires last { AreLast source.now last.now }
    requires order { end ≤ length source.now }
    ensures held { (files : Listed (Listed ℕ)) → AreHeld end source.now files left.old → AreHeld end source.now files left.new }
    ensures small { All (λ file. length file < 2 ^ 32) left.old → All (λ file. length file < 2 ^ 32) left.new }
{
    let mut gone = List::new(alloc);
    for k in first..end {
        drop_file(alloc, left, &mut gone, last, source[k as usize], end)?;
    }
    Ok(gone)
}

/// Takes away a file of which no object from `end` on is.
fn drop_file(
    alloc: Global,
    left: &mut [Bytes],
    gone: &mut List<Bytes>,
    last: &[u32],
    number: Option<u32>,
    end: u32,
) -> Result<(), NoMemory>
    ensures held { (source : Listed (Option ℕ)) (files : Listed (Listed ℕ)) → AreLast source last.now → AreHeld end source files left.old → AreHeld end source files left.new }
    ensures small { All (λ file. length file < 2 ^ 32) left.old → All (λ file. length file < 2 ^ 32) left.new }
{
    let Some(n) = number else {
        return Ok(());
    };
    let n = n as usize;
    if n < left.len() && n < last.len() && last[n] < end {
        let mut file = Bytes::new(alloc);
        swap(&mut left[n], &mut file);
        gone.push(file)?;
    }
    Ok(())
}
