//! The files of the system.

ghost use Rattle.std.specs.Prelude.{◌≡◌, ◌≢◌, ◌<◌, ◌≤◌, [], length, IfOk, IfErr};
ghost use Rattle.std.specs.Result.{IsErrAnd};
ghost use Rattle.ds_files.specs.Outside.{Told};
ghost use Rattle.ds_files.specs.Reading.{WholeFails};
ghost use Rattle.ds_files.specs.declared.files.FileError.TheVariants as errors;

use crate::ahead::Ahead;
use crate::files::{FileError, Files};
use crate::tally::Tally;
use ds_base::{Bytes, NoMemory};
use std::alloc::Global;
use std::fs::{File, OpenFile, OpenOptions};
use std::io::{ErrorKind, Read, Seek, SeekFrom, Write};
use std::marker::Model;
use std::path::Path;
use std::{fs, io, rt};

/// How many bytes of a file are written last: as many as the magic number of a Mach-O file has.
const MARK: usize = 4;

/// The files of the system, each by its path. What they hold is not told; a contract sees the counts alone.
///
/// A file is read into one buffer, and is `Missing` where the system finds no such path, `TooLong` once it has more bytes
/// than the call allows, and `Failed` at any other error. To replace a file makes the folders of its path that are missing.
/// What was read ahead is given out where it is asked for next. It is let go once a file is replaced, which may be in it.
#[derive(Drop)]
pub struct HostFiles<R> {
    rt: R,
    tally: Tally,
    /// What was read before it is asked for.
    ahead: Ahead,
}

impl<R> Model for HostFiles<R> {
    ghost use Rattle.ds_files.specs.Outside.{Counts};

    ghost Value = { Counts };

    ghost view = { λ s. s.tally };
}

impl<R: rt::Files> HostFiles<R> {
    ghost use Rattle.ds_files.specs.Counting.{no_counts};

    /// The files that a runtime reaches, with no call yet. `rt` may be a reference to the runtime.
    pub fn new(rt: R) -> HostFiles<R>
        ensures { result ≡ no_counts }
    {
        HostFiles {
            rt,
            tally: Tally::new(),
            ahead: Ahead::new(),
        }
    }
}

impl<R: rt::Files> Files for HostFiles<R> {
    ghost use Rattle.std.specs.Prelude.{◌≡◌, ◌≤◌, length, None, IfOk, IfErr};
    ghost use Rattle.ds_files.specs.Outside.{IsLater};
    ghost use Rattle.ds_files.specs.Counting.{counts_after};
    ghost use Rattle.ds_files.specs.declared.files.FileError.TheVariants as errors;

    ghost files = { λ _. None };

    ghost counts = { λ s. s };

    fn read(&mut self, alloc: Global, name: &str, most: u64) -> Result<Bytes, FileError>
        ensures within { IfOk result (λ b. length b ≤ most) }
        ensures after { self.new ≡ counts_after result self.old }
        ensures later { IsLater self.old self.new }
    {
        self.tally.call();
        match read_once(&self.rt, &mut self.ahead, alloc, name, most) {
            Ok(bytes) => Ok(bytes),
            Err(error) => Err(self.tally.count(error)),
        }
    }

    fn replace(&mut self, _alloc: Global, name: &str, bytes: &[u8]) -> Result<(), FileError>
        ensures failed { IfErr result (λ error. error ≡ errors.Failed) }
        ensures after { self.new ≡ counts_after result self.old }
        ensures later { IsLater self.old self.new }
    {
        self.tally.call();
        self.ahead = Ahead::new();
        match replace_file(&self.rt, name, bytes) {
            Ok(()) => Ok(()),
            Err(_) => Err(self.tally.count(FileError::Failed)),
        }
    }

    /// The size that the system tells of a regular file. Nothing else is fetched.
    fn size_ahead(&self, name: &str) -> Option<u64> {
        match fs::metadata(&self.rt, name) {
            Ok(metadata) if metadata.is_file() => Some(metadata.len()),
            _ => None,
        }
    }

    fn fetch(&self, alloc: Global, name: &str, most: u64) -> Option<Bytes> {
        read_file(&self.rt, alloc, name, most).ok()
    }

    fn keep(&mut self, ahead: Ahead)
        ensures { self.new ≡ self.old }
    {
        self.ahead = ahead;
    }
}

/// All bytes of a file: those that were read ahead, or it is read now.
fn read_once<R: rt::Files>(
    rt: &R,
    ahead: &mut Ahead,
    alloc: Global,
    name: &str,
    most: u64,
) -> Result<Bytes, FileError>
    ensures { IfOk result (λ b. length b ≤ most) }
{
    let Some(bytes) = ahead.take(name) else {
        return read_file(rt, alloc, name, most);
    };
    if bytes.len() as u64 > most {
        return Err(FileError::TooLong);
    }
    Ok(bytes)
}

/// All bytes of a file. Its size, where the system tells it, says what to reserve and whether to read at all.
fn read_file<R: rt::Files>(rt: &R, alloc: Global, name: &str, most: u64) -> Result<Bytes, FileError>
    ensures { IfOk result (λ b. length b ≤ most) }
{
    let file = match File::open(rt, name) {
        Ok(file) => file,
        Err(error) => return Err(open_error(error.kind())),
    };
    let size = match file.metadata() {
        Ok(metadata) if metadata.is_file() => metadata.len(),
        _ => 0,
    };
    read_sized(file, alloc, size, most)
}

/// All bytes of a reader that is said to have `size` bytes left. It is not read where that is more than `most`.
///
/// What is said may be wrong: a reader that has fewer than `size` bytes, or more, is read as it is.
fn read_sized<R: Read + Drop>(
    reader: R,
    alloc: Global,
    size: u64,
    most: u64,
) -> Result<Bytes, FileError>
    ensures within { IfOk result (λ b. length b ≤ most) }
    ensures whole { IfOk result (λ b. Told (R.remaining reader) (λ bytes. b ≡ bytes)) }
    ensures failed { size ≤ most → IfErr result (WholeFails (R.remaining reader) most) }
    ensures long { most < size → IsErrAnd result (λ error. error ≡ errors.TooLong) }
{
    if size > most {
        return Err(FileError::TooLong);
    }
    // One byte more, so that a read into it finds the end.
    let mut bytes = room_for(alloc, (size as usize).saturating_add(1))?;
    // One byte more than there may be tells that there are more.
    let mut first = reader.take(most.saturating_add(1));
    if let Err(error) = first.read_to_end(&mut bytes) {
        return Err(read_error(error.kind()));
    }
    if bytes.len() as u64 > most {
        return Err(FileError::TooLong);
    }
    Ok(Bytes::from_vec(bytes))
}

/// No bytes, and room for `count` of them.
fn room_for(alloc: Global, count: usize) -> Result<Vec<u8>, NoMemory>
    ensures { IfOk result (λ made. made.items ≡ []) }
{
    Ok(Vec::with_capacity(alloc, count)?)
}

/// Why a file was not read to its end.
fn read_error(kind: ErrorKind) -> FileError
    ensures memory { kind ≡ ErrorKind.OutOfMemory → result ≡ errors.NoMemory }
    ensures failed { kind ≢ ErrorKind.OutOfMemory → result ≡ errors.Failed }
{
    if kind == ErrorKind::OutOfMemory {
        FileError::NoMemory
    } else {
        FileError::Failed
    }
}

/// Why a file was not opened: it is `Missing` where the system finds no such path, and only there.
fn open_error(kind: ErrorKind) -> FileError
    ensures missing { kind ≡ ErrorKind.NotFound → result ≡ errors.Missing }
    ensures failed { kind ≢ ErrorKind.NotFound → result ≡ errors.Failed }
{
    if kind == ErrorKind::NotFound {
        FileError::Missing
    } else {
        FileError::Failed
    }
}

/// Makes the folders that are missing, and the file of these bytes, whether or not there was one.
///
/// A file that is there is written over: to empty it first may take longer than to write it. Its first bytes are cleared
/// before all others are written, and come last, so that nobody takes what is left half written for a whole file.
fn replace_file<R: rt::Files>(rt: &R, name: &str, bytes: &[u8]) -> io::Result<()> {
    if let Some(folder) = Path::new(name).parent() {
        fs::create_dir_all(rt, folder)?;
    }
    let mut file = OpenOptions::new().write(true).create(true).open(rt, name)?;
    let (mark, rest) = bytes.split_at(bytes.len().min(MARK));
    file.write_all(&[0; MARK][..mark.len()])?;
    file.write_all(rest)?;
    cut_off(&file, bytes.len() as u64)?;
    file.seek(SeekFrom::Start(0))?;
    file.write_all(mark)
}

/// Ends a file behind its first `len` bytes, if it has more.
fn cut_off<F: OpenFile>(file: &F, len: u64) -> io::Result<()> {
    if file.metadata()?.len() > len {
        file.set_len(len)?;
    }
    Ok(())
}
