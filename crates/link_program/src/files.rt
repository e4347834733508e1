//! Reading the files of a link.

ghost use Rattle.std.specs.Prelude.{◌≡◌, ◌+◌, ◌<◌, ◌≤◌, ◌^◌, ◌∷◌, [], None, false, true, length, map, IfOk};
ghost use Rattle.std.specs.Str.{is_utf8};
ghost use Rattle.indexmap.specs.IndexMap.{values};
ghost use Rattle.link_program.specs.Files.{content_in, is_missing, passes_over as is_passed_over, none_held, with_file, with_warning, world, ReadsFiles, unread_status};
ghost use Rattle.link_program.specs.Seen.{HaveNames, missing_seen, held_seen, number_in};
ghost use Rattle.link_program.specs.Holding.{Becomes, PassesOver, held_answer, held_of, Holds};

use crate::warnings::warning;
use ds_base::limits::INPUT_BYTES;
use ds_base::{Bytes, List, NoMemory};
use ds_files::{Ahead, FileError, Files};
use indexmap::IndexMap;
use link_status::{LimitKind, Status};
use stab_map::MapObject;
use std::alloc::Global;

/// What is held of the files of objects.
#[derive(Drop)]
pub struct HeldFiles<'a> {
    /// Those that were read, each by its name.
    pub files: IndexMap<&'a [u8], Bytes>,
    /// The names of those that are missing and were passed over.
    pub missing: IndexMap<&'a [u8], ()>,
    /// How many bytes the others may have together.
    pub left: u64,
    /// A line for each object whose file was let go.
    pub warnings: Bytes,
}

/// Why the reading of files ended before its end, and the warnings so far.
#[derive(Drop)]
pub struct Stopped {
    pub status: Status,
    pub warnings: Bytes,
}

/// Lets [`read_files`] be quick by what was read ahead; nothing else comes of that.
pub fn expect_files<F: Files>(ahead: Ahead, files: &mut F)
    ensures { world (F.files files.new) (F.counts files.new) ≡ world (F.files files.old) (F.counts files.old) }
{
    files.keep(ahead);
}

/// The files of objects, each read once in the order of the objects. They have at most `most` bytes together. A missing
/// one is let go where that is asked.
pub fn read_files<'a, F: Files>(
    alloc: Global,
    objects: &'a [MapObject],
    keep_going: bool,
    most: u64,
    files: &mut F,
) -> Result<HeldFiles<'a>, Stopped>
    requires names { HaveNames objects.now }
    requires few { length objects.now < 2 ^ 16 }
    ensures { ReadsFiles keep_going 1 objects.now (none_held most) (world (F.files files.old) (F.counts files.old)) (world (F.files files.new) (F.counts files.new)) (held_answer result) }
{
    let mut held = HeldFiles {
        files: IndexMap::new(alloc),
        missing: IndexMap::new(alloc),
        left: most,
        warnings: Bytes::new(alloc),
    };
    for (k, object) in objects.iter().enumerate() {
        let read = hold_file(alloc, keep_going, &mut held, k as u32 + 1, object, files);
        if let Err(status) = read {
            return Err(Stopped {
                status,
                warnings: held.warnings,
            });
        }
    }
    Ok(held)
}

/// Reads the file of the object of this number, unless it is held or was let go.
fn hold_file<'a, F: Files>(
    alloc: Global,
    keep_going: bool,
    held: &mut HeldFiles<'a>,
    number: u32,
    object: &'a MapObject,
    files: &mut F,
) -> Result<(), Status>
    requires { is_utf8 object.now.file ≡ true }
    ensures { Holds keep_going number object.now held.old held.new (world (F.files files.old) (F.counts files.old)) (world (F.files files.new) (F.counts files.new)) result }
{
    let name = object.file.as_slice();
    if held.files.contains_key(name) {
        return Ok(());
    }
    if held.missing.contains_key(name) {
        return warn(alloc, held, object);
    }
    match files.read(alloc, file_name(object), held.left) {
        Ok(bytes) => hold(held, name, bytes),
        Err(error) => pass_over(alloc, keep_going, held, number, object, error),
    }
}

/// Holds the bytes of a file that wasn't held.
fn hold<'a>(held: &mut HeldFiles<'a>, name: &'a [u8], bytes: Bytes) -> Result<(), Status>
    requires few { length bytes ≤ held.old.left }
    requires new { content_in (held_seen held.old.files) name.now ≡ None }
    ensures { Becomes (with_file (held_of held.old) name.now bytes) held.new result }
{
    held.left -= bytes.len() as u64;
    match held.files.insert(name, bytes) {
        Ok(_) => Ok(()),
        Err(_) => Err(Status::NoMemory),
    }
}

/// Passes over the file of an object that wasn't read, where it is missing and that is asked; or gives the status for it.
fn pass_over<'a>(
    alloc: Global,
    keep_going: bool,
    held: &mut HeldFiles<'a>,
    number: u32,
    object: &'a MapObject,
    error: FileError,
) -> Result<(), Status>
    requires new { is_missing (missing_seen held.old.missing) object.now.file ≡ false }
    ensures { PassesOver keep_going number object.now error held.old held.new result }
{
    if !passes_over(keep_going, error) {
        return Err(unread(number, error));
    }
    match held.missing.insert(object.file.as_slice(), ()) {
        Ok(_) => warn(alloc, held, object),
        Err(_) => Err(Status::NoMemory),
    }
}

/// Whether a file that wasn't read is let go.
fn passes_over(keep_going: bool, error: FileError) -> bool
    ensures { result ≡ is_passed_over keep_going error }
{
    match error {
        FileError::Missing => keep_going,
        _ => false,
    }
}

/// Puts the line of an object whose file was let go behind the others.
fn warn(alloc: Global, held: &mut HeldFiles, object: &MapObject) -> Result<(), Status>
    ensures { Becomes (with_warning (held_of held.old) object.now) held.new result }
{
    let Ok(line) = warning(alloc, object) else {
        return Err(Status::NoMemory);
    };
    match held.warnings.extend(line.as_slice()) {
        Ok(()) => Ok(()),
        Err(NoMemory) => Err(Status::NoMemory),
    }
}

/// The name of an object's file.
fn file_name(object: &MapObject) -> &str
    requires { is_utf8 object.now.file ≡ true }
    ensures { result.now ≡ object.now.file }
{
    match str::from_utf8(object.file.as_slice()) {
        Ok(name) => name,
        Err(_) => unreachable!(),
    }
}

/// For each object the number of its file, in the order of reading, where it is held.
pub(crate) fn numbers_of(
    alloc: Global,
    objects: &[MapObject],
    held: &IndexMap<&[u8], Bytes>,
) -> Result<List<Option<u32>>, NoMemory>
    requires few { length (held_seen held.now) < 2 ^ 16 }
    ensures { IfOk result (λ numbers. numbers ≡ map (λ o. number_in held.now o.file) objects.now) }
{
    let mut numbers = List::new(alloc);
    for object in objects {
        numbers.push(number_of(held, object.file.as_slice()))?;
    }
    Ok(numbers)
}

/// The number of the file of this name, if it is held.
fn number_of(held: &IndexMap<&[u8], Bytes>, name: &[u8]) -> Option<u32>
    requires few { length (held_seen held.now) < 2 ^ 16 }
    ensures { result ≡ number_in held.now name.now }
{
    match held.get_index_of(name) {
        Some(number) => Some(number as u32),
        None => None,
    }
}

/// The bytes of the files that were read, in the order of reading.
pub(crate) fn contents_of(
    alloc: Global,
    held: IndexMap<&[u8], Bytes>,
) -> Result<List<Bytes>, NoMemory>
    ensures { IfOk result (λ contents. contents ≡ values held.entry) }
{
    let mut contents = List::new(alloc);
    for bytes in held.into_values() {
        contents.push(bytes)?;
    }
    Ok(contents)
}

/// The status for a file that was not read.
pub fn unread(file: u32, error: FileError) -> Status
    ensures { result ≡ unread_status file error }
{
    match error {
        FileError::Missing => Status::Missing { file },
        FileError::Failed => Status::ReadFault { file },
        FileError::TooLong => Status::Limit {
            which: LimitKind::Input,
            number: INPUT_BYTES,
        },
        FileError::NoMemory => Status::NoMemory,
    }
}
