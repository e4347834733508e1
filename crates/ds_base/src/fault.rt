//! What is wrong with the bytes of a file, and where.

use std::alloc::{AllocError, AllocFailed};

/// Memory ran out. Nothing that was lent to the call has changed, unless the call says so.
#[derive(Clone, Copy, Debug, PartialEq, Eq)]
pub struct NoMemory;

impl From<AllocError> for NoMemory {
    fn from(_error: AllocError) -> NoMemory {
        NoMemory
    }
}

impl<T: Drop> From<AllocFailed<T>> for NoMemory {
    fn from(_error: AllocFailed<T>) -> NoMemory {
        NoMemory
    }
}

/// A part of a file in which a fault is placed (docs/PROFILE.md, "Parts of a file").
#[derive(Clone, Copy, Debug, PartialEq, Eq)]
pub enum Part {
    /// The Mach-O header; places are offsets in the file.
    Header,
    /// The load commands; places are offsets in the file, or indices of a segment or section.
    Commands,
    /// The symbol table; a place is the symbol's index, counted from 0.
    Symbols,
    /// A BSD archive; places are offsets in the file.
    Archive,
    /// The debug map; a place is the index of a symbol, counted from 0.
    Map,
    /// `__debug_info`; here and below, places are offsets in the section.
    Info,
    /// `__debug_abbrev`.
    Abbrev,
    /// `__debug_str`.
    Str,
    /// `__debug_str_offs`.
    StrOffs,
    /// `__debug_addr`.
    Addr,
    /// `__debug_line`.
    Line,
    /// `__debug_line_str`.
    LineStr,
    /// `__debug_ranges`.
    Ranges,
    /// `__debug_rnglists`.
    Rnglists,
    /// `__debug_loc`.
    Loc,
    /// `__debug_loclists`.
    Loclists,
    /// `__debug_aranges`.
    Aranges,
    /// `__debug_frame`.
    Frame,
    /// `__apple_names`.
    AppleNames,
    /// `__apple_types`.
    AppleTypes,
    /// `__apple_namespac`.
    AppleNamespac,
}

/// What is wrong. Each kind's condition and place stand in docs/PROFILE.md, "Faults".
#[derive(Clone, Copy, Debug, PartialEq, Eq)]
pub enum Kind {
    /// An item passes the end of its section, unit, list, table, expression or frame entry.
    Truncated,
    /// A LEB number does not fit 64 bits.
    LebTooWide,
    /// The magic number is not that of a 64-bit little-endian Mach-O file.
    NotMachO,
    /// The CPU type is not read, or an object's is not the program's.
    WrongCpu,
    /// The file type is not one that is read here.
    BadFileType,
    /// A load command is cut, or its size or addresses are wrong.
    BadCommand,
    /// The program has a `__DWARF` segment or section.
    AlreadyLinked,
    /// A debug section passes the file, or is zero-filled.
    BadSection,
    /// A debug section is compressed.
    CompressedSection,
    /// The symbol or string table passes the file, or a name does not end in it.
    BadSymbols,
    /// The file does not begin as a BSD archive.
    NotArchive,
    /// A member header of an archive is cut or wrong, or its member passes the file.
    BadMember,
    /// The archive has no member of that name.
    NoMember,
    /// A named N_FUN is not followed by the N_FUN with its size.
    BadStab,
    /// The name of an N_OSO is not UTF-8.
    BadPath,
    /// A relocation of a debug section is not a plain one of 8 bytes.
    RelocKind,
    /// A relocation passes its section.
    RelocPlace,
    /// A relocation names a symbol that is not there.
    RelocSymbol,
    /// Two relocations of a section overlap.
    RelocOverlap,
    /// A number of an abbreviation is wrong.
    BadAbbrev,
    /// A code stands twice in one abbreviation table.
    DuplicateCode,
    /// An abbreviation has more than 256 attributes.
    LimitAttributes,
    /// A unit's version is not read.
    UnsupportedVersion,
    /// A unit's header, root or rest is wrong.
    BadUnit,
    /// The unit is split: its root has a dwo name.
    SplitUnit,
    /// An entry's code is not in the abbreviation table.
    UnknownCode,
    /// The unit ends inside an open list of siblings.
    UnclosedSiblings,
    /// More than 1,000 lists of siblings are open.
    LimitDepth,
    /// An object has more than 2^24 entries.
    LimitEntries,
    /// A value's form is not known.
    UnknownForm,
    /// A value's form is known and not read.
    FormOutsideProfile,
    /// An offset to a text, table or list is not below its section's size, or the text is not ended.
    BadOffset,
    /// A reference leads to no entry.
    BadReference,
    /// An operation of an expression is not known.
    UnknownOp,
    /// An operation of an expression is known and not read.
    OpOutsideProfile,
    /// An expression with a branch has an operation whose length changes.
    BranchOverRewrite,
    /// An operation names no base type of its unit.
    BadOperandType,
    /// The rewritten expression of a location list item is too long for its version.
    LongExpression,
    /// A line table's version is not read.
    LineVersion,
    /// A line table's header is wrong.
    BadLineHeader,
    /// A line table has several operations per instruction.
    VliwLine,
    /// An extended operation of a line program does not fill its length.
    BadLineOp,
    /// An address of a sequence is below the one before.
    LineBackwards,
    /// The ends of a list's span do not belong together.
    BadList,
    /// A frame entry's length is wrong, or its CIE is not there.
    BadFrame,
    /// An index lies outside of its table.
    BadIndex,
    /// An entry format of a line table is wrong.
    BadEntryFormat,
    /// The kind of a list entry is not known.
    UnknownListEntry,
    /// The bytes are not the encoding of one graph.
    BadOutput,
    /// An accelerator table is none that is written here.
    BadTable,
    /// A universal file's count or a record of it is wrong.
    BadUniversal,
}

/// The one fault of a file's content.
///
/// `place` is an offset in the part's bytes, or an index, as the part says; both count from 0.
#[derive(Clone, Copy, Debug, PartialEq, Eq)]
pub struct Fault {
    pub kind: Kind,
    pub section: Part,
    pub place: u64,
}

/// Why bytes were not read: the first fault from the left, or want of memory.
#[derive(Clone, Copy, Debug, PartialEq, Eq)]
pub enum ReadError {
    Faulty(Fault),
    NoMemory,
}

impl From<Fault> for ReadError {
    ghost use Rattle.std.specs.Prelude.{◌≡◌};
    ghost use Rattle.ds_base.specs.declared.fault.ReadError.TheVariants as errors;

    ghost from_gives = { λ fault error. error ≡ errors.Faulty fault };

    fn from(fault: Fault) -> ReadError {
        ReadError::Faulty(fault)
    }
}

impl From<NoMemory> for ReadError {
    ghost use Rattle.std.specs.Prelude.{◌≡◌};
    ghost use Rattle.ds_base.specs.declared.fault.ReadError.TheVariants as errors;

    ghost from_gives = { λ _ error. error ≡ errors.NoMemory };

    fn from(_error: NoMemory) -> ReadError {
        ReadError::NoMemory
    }
}

impl From<AllocError> for ReadError {
    ghost use Rattle.std.specs.Prelude.{◌≡◌};
    ghost use Rattle.ds_base.specs.declared.fault.ReadError.TheVariants as errors;

    ghost from_gives = { λ _ error. error ≡ errors.NoMemory };

    fn from(_error: AllocError) -> ReadError {
        ReadError::NoMemory
    }
}

impl<T: Drop> From<AllocFailed<T>> for ReadError {
    ghost use Rattle.std.specs.Prelude.{◌≡◌};
    ghost use Rattle.ds_base.specs.declared.fault.ReadError.TheVariants as errors;

    ghost from_gives = { λ _ error. error ≡ errors.NoMemory };

    fn from(_error: AllocFailed<T>) -> ReadError {
        ReadError::NoMemory
    }
}
