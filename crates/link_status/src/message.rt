//! The line that tells how a link ended.

ghost use Rattle.std.specs.Prelude.{◌≡◌, ◌++◌, codes, decimal, IfOk};
ghost use Rattle.link_status.specs.StatusText as spec;

use crate::names::{image_name, plist_name};
use crate::refusal::LimitKind;
use crate::status::Status;
use ds_base::{Bytes, Fault, Kind, NoMemory, Part};
use stab_map::MapObject;
use std::alloc::Global;

/// The words of the command.
const USAGE: &str =
    "usage: dsymlink [-o OUT] [-j N] [--no-odr] [--keep-going] [--statistics] [--dump-map] [--generate N] EXE";

/// The line that tells a status, for a program, its bundle and its objects. There is none where the link is done, where
/// memory ran out, and where the message could not be put out.
pub fn status_text(
    alloc: Global,
    status: &Status,
    exe: &str,
    out: &str,
    objects: &[MapObject],
) -> Result<Bytes, NoMemory>
    ensures { IfOk result (λ text. text ≡ spec.status_line status.now exe.now out.now objects.now) }
{
    match status {
        Status::Done => Ok(Bytes::new(alloc)),
        Status::Usage => line(alloc, USAGE, b""),
        Status::Missing { file } => line(alloc, "missing: ", read_name(exe, objects, *file)),
        Status::ReadFault { file } => line(alloc, "read fault: ", read_name(exe, objects, *file)),
        Status::Faulty { file, fault } => faulty_line(
            alloc,
            whole_name(exe, objects, *file),
            fault,
        ),
        Status::Limit { which, number } => limit_line(alloc, *which, *number),
        Status::WriteFault { file } => unwritten_line(alloc, exe, out, *file),
        Status::NoMemory => Ok(Bytes::new(alloc)),
        Status::MessageFault => Ok(Bytes::new(alloc)),
    }
}

/// A line of the program: a text, and a name behind it.
pub fn line(alloc: Global, text: &str, name: &[u8]) -> Result<Bytes, NoMemory>
    ensures { IfOk result (λ made. made ≡ spec.line (text.now ++ name.now)) }
{
    let mut made = Bytes::from_slice(alloc, "dsymlink: ".as_bytes())?;
    made.extend(text.as_bytes())?;
    made.extend(name)?;
    made.push(b'\n')?;
    Ok(made)
}

/// The line of a file's fault.
fn faulty_line(alloc: Global, name: &[u8], fault: &Fault) -> Result<Bytes, NoMemory>
    ensures { IfOk result (λ made. made ≡ spec.line (codes "faulty: " ++ (name.now ++ (codes ": " ++ spec.fault_text fault.now)))) }
{
    let place = fault.place.to_string(alloc)?;
    let mut text = Bytes::from_slice(alloc, name)?;
    text.extend(": ".as_bytes())?;
    text.extend(kind_text(fault.kind).as_bytes())?;
    text.extend(" in ".as_bytes())?;
    text.extend(part_text(fault.section).as_bytes())?;
    text.extend(" at ".as_bytes())?;
    text.extend(place.as_bytes())?;
    line(alloc, "faulty: ", text.as_slice())
}

/// The line of a limit that was reached.
fn limit_line(alloc: Global, which: LimitKind, number: u64) -> Result<Bytes, NoMemory>
    ensures { IfOk result (λ made. made ≡ spec.line (codes "limit: " ++ (spec.limit_text which ++ (codes " " ++ decimal number)))) }
{
    let number = number.to_string(alloc)?;
    let mut text = Bytes::from_slice(alloc, limit_text(which).as_bytes())?;
    text.push(b' ')?;
    text.extend(number.as_bytes())?;
    line(alloc, "limit: ", text.as_slice())
}

/// The line of a file of the bundle that was not written: 0 is Info.plist, and 1 the image.
fn unwritten_line(alloc: Global, exe: &str, out: &str, file: u32) -> Result<Bytes, NoMemory>
    ensures { IfOk result (λ made. made ≡ spec.line (codes "write fault: " ++ spec.written_name exe.now out.now file)) }
{
    let name = if file == 0 {
        plist_name(alloc, out)?
    } else {
        image_name(alloc, out, exe)?
    };
    line(alloc, "write fault: ", name.as_bytes())
}

/// The name of the file of a number that was to be read: 0 is the program, and its objects follow.
fn read_name<'a>(exe: &'a str, objects: &'a [MapObject], file: u32) -> &'a [u8]
    ensures { result.now ≡ spec.read_name exe.now objects.now file }
{
    if file == 0 {
        return exe.as_bytes();
    }
    match objects.get(file as usize - 1) {
        Some(object) => object.file.as_slice(),
        None => &[],
    }
}

/// The program, or the path of the object of a number as it stands in the program.
fn whole_name<'a>(exe: &'a str, objects: &'a [MapObject], file: u32) -> &'a [u8]
    ensures { result.now ≡ spec.whole_name exe.now objects.now file }
{
    if file == 0 {
        return exe.as_bytes();
    }
    match objects.get(file as usize - 1) {
        Some(object) => object.path.as_slice(),
        None => &[],
    }
}

/// A limit, as it is printed.
fn limit_text(which: LimitKind) -> &'static str
    ensures { result.now ≡ spec.limit_text which }
{
    match which {
        LimitKind::Objects => "Objects",
        LimitKind::Input => "Input",
        LimitKind::Pooled => "Pooled",
        LimitKind::Unit => "Unit",
        LimitKind::Section => "Section",
        LimitKind::File => "File",
    }
}

/// A part of a file, as it is printed.
fn part_text(part: Part) -> &'static str
    ensures { result.now ≡ spec.part_text part }
{
    match part {
        Part::Header => "header",
        Part::Commands => "commands",
        Part::Symbols => "symbols",
        Part::Archive => "archive",
        Part::Map => "map",
        Part::Info => "__debug_info",
        Part::Abbrev => "__debug_abbrev",
        Part::Str => "__debug_str",
        Part::StrOffs => "__debug_str_offs",
        Part::Addr => "__debug_addr",
        Part::Line => "__debug_line",
        Part::LineStr => "__debug_line_str",
        Part::Ranges => "__debug_ranges",
        Part::Rnglists => "__debug_rnglists",
        Part::Loc => "__debug_loc",
        Part::Loclists => "__debug_loclists",
        Part::Aranges => "__debug_aranges",
        Part::Frame => "__debug_frame",
        Part::AppleNames => "__apple_names",
        Part::AppleTypes => "__apple_types",
        Part::AppleNamespac => "__apple_namespac",
    }
}

/// A kind of fault, as it is printed.
fn kind_text(kind: Kind) -> &'static str
    ensures { result.now ≡ spec.kind_text kind }
{
    match kind {
        Kind::Truncated => "Truncated",
        Kind::LebTooWide => "LebTooWide",
        Kind::NotMachO => "NotMachO",
        Kind::WrongCpu => "WrongCpu",
        Kind::BadFileType => "BadFileType",
        Kind::BadCommand => "BadCommand",
        Kind::AlreadyLinked => "AlreadyLinked",
        Kind::BadSection => "BadSection",
        Kind::CompressedSection => "CompressedSection",
        Kind::BadSymbols => "BadSymbols",
        Kind::NotArchive => "NotArchive",
        Kind::BadMember => "BadMember",
        Kind::NoMember => "NoMember",
        Kind::BadStab => "BadStab",
        Kind::BadPath => "BadPath",
        Kind::RelocKind => "RelocKind",
        Kind::RelocPlace => "RelocPlace",
        Kind::RelocSymbol => "RelocSymbol",
        Kind::RelocOverlap => "RelocOverlap",
        Kind::BadAbbrev => "BadAbbrev",
        Kind::DuplicateCode => "DuplicateCode",
        Kind::LimitAttributes => "LimitAttributes",
        Kind::UnsupportedVersion => "UnsupportedVersion",
        Kind::BadUnit => "BadUnit",
        Kind::SplitUnit => "SplitUnit",
        Kind::UnknownCode => "UnknownCode",
        Kind::UnclosedSiblings => "UnclosedSiblings",
        Kind::LimitDepth => "LimitDepth",
        Kind::LimitEntries => "LimitEntries",
        Kind::UnknownForm => "UnknownForm",
        Kind::FormOutsideProfile => "FormOutsideProfile",
        Kind::BadOffset => "BadOffset",
        Kind::BadReference => "BadReference",
        Kind::UnknownOp => "UnknownOp",
        Kind::OpOutsideProfile => "OpOutsideProfile",
        Kind::BranchOverRewrite => "BranchOverRewrite",
        Kind::BadOperandType => "BadOperandType",
        Kind::LongExpression => "LongExpression",
        Kind::LineVersion => "LineVersion",
        Kind::BadLineHeader => "BadLineHeader",
        Kind::VliwLine => "VliwLine",
        Kind::BadLineOp => "BadLineOp",
        Kind::LineBackwards => "LineBackwards",
        Kind::BadList => "BadList",
        Kind::BadFrame => "BadFrame",
        Kind::BadIndex => "BadIndex",
        Kind::BadEntryFormat => "BadEntryFormat",
        Kind::UnknownListEntry => "UnknownListEntry",
        Kind::BadOutput => "BadOutput",
        Kind::BadTable => "BadTable",
        Kind::BadUniversal => "BadUniversal",
    }
}
