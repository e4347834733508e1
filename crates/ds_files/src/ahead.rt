//! Files that are read before they are asked for.

ghost use Rattle.std.specs.Prelude.{◌≤◌};

use crate::files::Files;
use ds_base::{Bytes, NoMemory};
use std::alloc::Global;
use std::thread::{Threads, map_vec};

/// Files that were read before they are asked for. Each is given out once.
#[derive(Drop)]
pub struct Ahead {
    /// Those that were not given out yet, the one that is to be asked for next last. Where there never was one, there is no
    /// list, and no allocator is asked for.
    files: Option<Vec<FileAhead>>,
}

/// A file that was read.
#[derive(Drop)]
struct FileAhead {
    name: Bytes,
    bytes: Bytes,
}

/// A file that is to be read, and how many bytes it is said to have.
#[derive(Clone, Copy)]
struct Wanted<'a> {
    name: &'a str,
    size: u64,
}

impl Ahead {
    /// No file.
    pub fn new() -> Ahead {
        Ahead { files: None }
    }

    /// The bytes of the named file, if it is the one that is to be asked for next.
    pub(crate) fn take(&mut self, name: &str) -> Option<Bytes> {
        match &mut self.files {
            Some(files) => take_last(files, name),
            None => None,
        }
    }
}

/// Files that are to be asked for next, in the order of their names: the first of them, which have at most `most` bytes
/// together, fetched by at most `workers` threads. Once they are kept ([`Files::keep`]) they are read quickly.
///
/// This is a hint, and nothing else comes of it. Whatever can't be fetched is read when it is asked for. Without a worker,
/// or with fewer than two names, nothing is fetched. Work for which no thread can be started is done in the caller's.
pub fn fetch_ahead<R: Threads + Sync, F: Files + Sync>(
    rt: &R,
    alloc: Global,
    workers: u32,
    names: &[&str],
    most: u64,
    files: &F,
) -> Ahead {
    if workers == 0 || names.len() < 2 {
        return Ahead::new();
    }
    match fetched(rt, alloc, workers, names, most, files) {
        Ok(ahead) => ahead,
        Err(NoMemory) => Ahead::new(),
    }
}

/// The first files of these names that have at most `most` bytes together, fetched by at most `workers` threads.
fn fetched<R: Threads + Sync, F: Files + Sync>(
    rt: &R,
    alloc: Global,
    workers: u32,
    names: &[&str],
    most: u64,
    files: &F,
) -> Result<Ahead, NoMemory>
    requires { 1 ≤ workers }
{
    let wanted = wanted_files(alloc, names, most, files)?;
    let runs = runs_of(alloc, wanted.as_slice(), workers)?;
    let fetched = map_vec(rt, runs, &|run| fetch_run(alloc, run, files))?;
    let files = last_first(alloc, fetched)?;
    Ok(Ahead { files: Some(files) })
}

/// The files of these names that may be fetched, up to the first with which they would have more than `most` bytes together.
fn wanted_files<'a, F: Files>(
    alloc: Global,
    names: &[&'a str],
    most: u64,
    files: &F,
) -> Result<Vec<Wanted<'a>>, NoMemory> {
    let mut wanted = Vec::new(alloc);
    let mut left = most;
    for name in names {
        let Some(size) = files.size_ahead(name) else {
            continue;
        };
        if size > left {
            break;
        }
        left -= size;
        wanted.push(Wanted { name, size })?;
    }
    Ok(wanted)
}

/// The files in at most `workers` runs of about as many bytes.
///
/// Each run but the last has more bytes than one part in `workers` of all, so there are fewer than `workers` of these.
fn runs_of<'a>(
    alloc: Global,
    files: &[Wanted<'a>],
    workers: u32,
) -> Result<Vec<Vec<Wanted<'a>>>, NoMemory>
    requires { 1 ≤ workers }
{
    let share = size_of_all(files) / u64::from(workers);
    let mut runs = Vec::new(alloc);
    let mut run = Vec::new(alloc);
    let mut size = 0u64;
    for file in files {
        if size > share {
            runs.push(run)?;
            run = Vec::new(alloc);
            size = 0;
        }
        run.push(*file)?;
        size = size.saturating_add(file.size);
    }
    runs.push(run)?;
    Ok(runs)
}

/// How many bytes the files have together.
fn size_of_all(files: &[Wanted]) -> u64 {
    let mut size = 0u64;
    for file in files {
        size = size.saturating_add(file.size);
    }
    size
}

/// The files of a run, fetched one after the other. What can't be fetched is left out.
fn fetch_run<F: Files>(alloc: Global, run: Vec<Wanted>, files: &F) -> Vec<FileAhead> {
    let mut fetched = Vec::new(alloc);
    for wanted in run {
        let Some(file) = fetch_one(alloc, wanted, files) else {
            continue;
        };
        if fetched.push(file).is_err() {
            break;
        }
    }
    fetched
}

/// A file with its bytes, unless it can't be fetched or has more bytes than were said.
fn fetch_one<F: Files>(alloc: Global, wanted: Wanted, files: &F) -> Option<FileAhead> {
    let name = Bytes::from_slice(alloc, wanted.name.as_bytes()).ok()?;
    let bytes = files.fetch(alloc, wanted.name, wanted.size)?;
    Some(FileAhead { name, bytes })
}

/// The files of all runs, from the last to the first.
fn last_first(alloc: Global, runs: Vec<Vec<FileAhead>>) -> Result<Vec<FileAhead>, NoMemory> {
    let mut files = Vec::new(alloc);
    for mut run in runs.into_iter().rev() {
        run.reverse();
        files.append(&mut run)?;
    }
    Ok(files)
}

/// The bytes of the last file, which is taken off, if it has this name.
fn take_last(files: &mut Vec<FileAhead>, name: &str) -> Option<Bytes> {
    if files.last()?.name.as_slice() != name.as_bytes() {
        return None;
    }
    let file = files.pop()?;
    Some(file.bytes)
}
