//! Line tables (DWARF 4, section 6.2).

ghost use Rattle.std.specs.Prelude.{◌≡◌, IfOk};

use crate::address::Addr;
use crate::files::FileNames;
use crate::paths::Paths;
use crate::sequences::{RawSequences, Sequences};
use ds_base::{Bytes, List, NoMemory};
use std::alloc::Global;

/// A file of a line table (DWARF 4, section 6.2.4).
#[derive(Drop)]
pub struct FileName {
    pub name: Bytes,
    /// The number of its directory; 0 is the directory of the compilation.
    pub dir: u64,
    /// When it was last changed; 0 where that is not told.
    pub time: u64,
    /// In bytes; 0 where that is not told.
    pub size: u64,
    /// The MD5 digest of its content (DWARF 5, section 6.2.4.1).
    pub digest: Option<Bytes>,
}

/// A row of a line table: the registers of the line state machine (DWARF 4, section 6.2.2).
#[derive(Clone, Copy)]
pub struct Row {
    /// In the linked program; of a row as it is read 0.
    pub address: u64,
    /// The number of the file.
    pub file: u64,
    /// Counted from 1; 0 where the code has no line.
    pub line: u32,
    /// Counted from 1; 0 is the left edge of the line.
    pub column: u64,
    pub discriminator: u64,
    pub isa: u64,
    pub is_stmt: bool,
    pub basic_block: bool,
    pub prologue_end: bool,
    pub epilogue_begin: bool,
}

/// Rows of a contiguous piece of the linked program.
#[derive(Drop)]
pub struct Sequence {
    pub rows: List<Row>,
    /// The address behind the last instruction.
    pub end: u64,
}

/// A unit's line table, as it is written.
#[derive(Drop)]
pub struct OutLines {
    pub dirs: Paths,
    pub files: FileNames,
    pub sequences: Sequences,
}

impl OutLines {
    /// A copy.
    pub(crate) fn copy(&self, alloc: Global) -> Result<OutLines, NoMemory>
        ensures { IfOk result (λ it. it ≡ self.now) }
    {
        Ok(OutLines {
            dirs: self.dirs.copy(alloc)?,
            files: self.files.copy(alloc)?,
            sequences: self.sequences.copy(alloc)?,
        })
    }

    /// How many bytes its columns hold, but for the shared texts.
    pub(crate) fn held_bytes(&self) -> u64 {
        self.dirs
            .held_bytes()
            .saturating_add(self.files.held_bytes())
            .saturating_add(self.sequences.held_bytes())
    }
}

/// A row as it is read: its address is the object's.
#[derive(Clone, Copy)]
pub struct RawRow {
    pub at: Addr,
    pub row: Row,
}

/// A sequence as it is read: "a series of contiguous target machine instructions" (DWARF 4, section 6.2.1).
#[derive(Drop)]
pub struct RawSequence {
    pub rows: List<RawRow>,
    /// The address behind the last instruction; none where the program ends before the sequence does.
    pub end: Option<Addr>,
}

/// A line table as it is read.
#[derive(Drop)]
pub struct RawLines {
    pub dirs: Paths,
    pub files: FileNames,
    pub sequences: RawSequences,
}
