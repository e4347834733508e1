//! The files of a line table, which contracts see as the list of them.

ghost use Rattle.std.specs.Prelude.{◌≡◌, ◌<◌, [], ◌∷◌, ◌++◌, length, slice_get, slice_index_or, Some, IfSome, IfOk, OnOk, OnErr};
ghost use Rattle.std.specs.Option.{option_copied, option_map};
ghost use Rattle.dwarf_types.specs.Cells.{Begins};
ghost use Rattle.dwarf_types.specs.LineColumns.{FileWithin, file_of};
ghost use Rattle.dwarf_types.specs.Runs.{InRun, run_of};
ghost use Rattle.dwarf_types.specs.SeenLines.{file_seen};

use crate::runs::{Run, TextRun, append, held_by, keep_text, part_of, text_in};
use crate::shared_texts::SharedTexts;
use ds_base::NoMemory;
use std::alloc::Global;
use std::marker::Model;

/// Files in the order of their numbers.
#[derive(Drop)]
pub struct FileNames {
    texts: SharedTexts,
    /// The digests, and the names that do not stand in the shared texts, one behind the other.
    bytes: Vec<u8>,
    rows: Vec<FileRow>,
}

/// A file whose texts are runs of bytes.
#[derive(Clone, Copy)]
pub(crate) struct FileRow {
    pub(crate) name: TextRun,
    pub(crate) dir: u64,
    pub(crate) time: u64,
    pub(crate) size: u64,
    pub(crate) digest: Option<Run>,
}

impl Model for FileNames {
    ghost use Rattle.std.specs.Prelude.{List as Listed};
    ghost use Rattle.dwarf_types.specs.declared.lines.FileName.{FileName as AFile};

    ghost Value = { Listed AFile };

    ghost use Rattle.std.specs.Prelude.{All, map};
    ghost use Rattle.dwarf_types.specs.LineColumns.{FileWithin, file_of};

    ghost view = { λ f. map (file_of f.texts f.bytes.items) f.rows.items };

    ghost invariant = { λ f. All (FileWithin f.texts f.bytes.items) f.rows.items };
}

/// A file where it stands.
#[derive(Clone, Copy)]
pub struct FileNameRef<'a> {
    pub name: &'a [u8],
    /// The number of its directory; 0 is the directory of the compilation.
    pub dir: u64,
    /// When it was last changed; 0 where that is not told.
    pub time: u64,
    /// In bytes; 0 where that is not told.
    pub size: u64,
    /// The MD5 digest of its content (DWARF 5, section 6.2.4.1).
    pub digest: Option<&'a [u8]>,
}

impl FileNames {
    /// No files.
    pub fn new(alloc: Global) -> FileNames
        ensures { result ≡ [] }
    {
        FileNames::over(alloc, SharedTexts::none())
    }

    /// No files yet; names that stand in shared texts are not copied.
    pub fn over(alloc: Global, texts: SharedTexts) -> FileNames
        ensures { result ≡ [] }
    {
        FileNames {
            texts,
            bytes: Vec::new(alloc),
            rows: Vec::new(alloc),
        }
    }

    /// A copy, with the same shared texts.
    pub(crate) fn copy(&self, alloc: Global) -> Result<FileNames, NoMemory>
        ensures { IfOk result (λ it. it ≡ self.now) }
    {
        Ok(FileNames {
            texts: self.texts.share()?,
            bytes: Vec::from_slice(alloc, &self.bytes)?,
            rows: Vec::from_slice(alloc, &self.rows)?,
        })
    }

    /// How many bytes they hold, but for the shared texts.
    pub(crate) fn held_bytes(&self) -> u64 {
        held_by(&self.bytes, 1).saturating_add(held_by(&self.rows, size_of::<FileRow>()))
    }

    /// How many bytes the shared texts have.
    pub(crate) fn shared_bytes(&self) -> u64 {
        self.texts.as_slice().len() as u64
    }

    /// How many files there are.
    pub fn len(&self) -> usize
        ensures { result ≡ length self.now }
    {
        self.rows.len()
    }

    /// The file at a place, counted from 0, or `None` behind the last.
    pub fn get(&self, i: usize) -> Option<FileNameRef<'_>>
        ensures { option_map file_seen result ≡ slice_get self.now i }
    {
        if i >= self.rows.len() {
            return None;
        }
        Some(self.file(i))
    }

    /// The file at a place, counted from 0.
    pub fn file(&self, i: usize) -> FileNameRef<'_>
        requires { i < length self.now }
        ensures stands { slice_get self.now i ≡ Some (file_seen result) }
        ensures item { file_seen result ≡ slice_index_or self.now i (file_seen result) }
    {
        file_in(self.texts.as_slice(), &self.bytes, self.rows[i])
    }

    /// Puts a copy of a file last.
    pub fn push(&mut self, file: &FileNameRef<'_>) -> Result<(), NoMemory>
        ensures ok { OnOk result (self.new ≡ self.old ++ file_seen file.now ∷ []) }
        ensures unchanged { OnErr result (self.new ≡ self.old) }
    {
        self.push_at(file, None)
    }

    /// Puts a file last. `place` is where its name stands in the shared texts, if it stands there: it helps to keep the
    /// name without a copy, and means nothing more.
    pub fn push_at(&mut self, file: &FileNameRef<'_>, place: Option<u32>) -> Result<(), NoMemory>
        ensures ok { OnOk result (self.new ≡ self.old ++ file_seen file.now ∷ []) }
        ensures unchanged { OnErr result (self.new ≡ self.old) }
    {
        let name = keep_text(self.texts.as_slice(), &mut self.bytes, file.name, place)?;
        let digest = append_digest(&mut self.bytes, file.digest)?;
        self.rows.push(FileRow {
            name,
            dir: file.dir,
            time: file.time,
            size: file.size,
            digest,
        })?;
        Ok(())
    }
}

/// The file of a row.
fn file_in<'a>(shared: &'a [u8], own: &'a [u8], row: FileRow) -> FileNameRef<'a>
    requires { FileWithin shared.now own.now row }
    ensures { file_seen result ≡ file_of shared.now own.now row }
{
    FileNameRef {
        name: text_in(shared, own, row.name),
        dir: row.dir,
        time: row.time,
        size: row.size,
        digest: digest_in(own, row.digest),
    }
}

fn digest_in(bytes: &[u8], digest: Option<Run>) -> Option<&[u8]>
    requires { IfSome digest (InRun bytes.now) }
    ensures { option_copied result ≡ option_map (run_of bytes.now) digest }
{
    match digest {
        Some(run) => Some(part_of(bytes, run)),
        None => None,
    }
}

/// Puts a digest last, if there is one, and answers where it lies.
fn append_digest(bytes: &mut Vec<u8>, digest: Option<&[u8]>) -> Result<Option<Run>, NoMemory>
    ensures within { IfOk result (λ run. IfSome run (InRun bytes.new.items)) }
    ensures is { IfOk result (λ run. option_map (run_of bytes.new.items) run ≡ option_copied digest.entry) }
    ensures grows { Begins bytes.old.items bytes.new.items }
{
    match digest {
        Some(text) => Ok(Some(append(bytes, text)?)),
        None => Ok(None),
    }
}
