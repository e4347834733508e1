//! One object of a program, as it is read.

ghost use Rattle.std.specs.Prelude.{◌≡◌, ◌<◌, ◌≤◌, ◌^◌, Bool, List as Listed, Option as Maybe, Result as Outcome, ℕ, length, IfOk};
ghost use Rattle.dwarf_types.specs.declared.analysis.Analysis.{Analysis as Seen};
ghost use Rattle.ds_base.specs.declared.fault.Fault.{Fault as Wrong};
ghost use Rattle.ds_base.specs.Reading.{Finds, Gives};
ghost use Rattle.dwarf_types.specs.Sound.{IsSound};
ghost use Rattle.object_view.specs.Analysis.{analysis_of};
ghost use Rattle.odr_names.specs.Making.{IsLiveRow};
ghost use Rattle.object_reads.specs.MadeNames.{HasNames};
ghost use Rattle.object_reads.specs.Opening.{IsOpened};
ghost use Rattle.object_reads.specs.Reading.{ReadsNumbered, ReadsObject};
ghost use Rattle.object_reads.specs.Sources.{analysis_from, analysis_of_thin as thin_analysis, content_of as bytes_of};

use crate::opened::{Opened, ThinFile};
use crate::target::Target;
use ar_read::Members;
use ds_base::{BitRow, Bytes, Fault, List, NoMemory, ReadError};
use dwarf_types::{Analysis, Entries, OutFrames};
use link_status::Refusal;
use liveness::live;
use object_view::analyse;
use odr_names::{ObjectNames, object_names};
use stab_map::MapObject;
use std::alloc::Global;

/// An object as it was read.
#[derive(Drop)]
pub struct ReadObject {
    pub analysis: Analysis,
    /// The marks of its live entries.
    pub live: BitRow,
    /// Its names, where those of one name are merged.
    pub made: Option<ObjectNames>,
}

/// An object for a program, or its first fault; with its names, which bid by a number, if they are wanted.
pub(crate) fn read_object(
    alloc: Global,
    target: Target,
    named: bool,
    bid: u32,
    object: &MapObject,
    file: Option<&Opened>,
) -> Result<ReadObject, ReadError>
    requires counted { (1 ≤ bid) × (bid < 2 ^ 16) }
    ensures read { (bytes : Maybe (Listed ℕ)) → IsOpened target.arch bytes file.entry → ReadsObject (analysis_from target object.now bytes) result }
    ensures names { IfOk result (λ it. HasNames named bid it.analysis it.live it.made) }
{
    let analysis = analysis(alloc, target, object, file)?;
    let live = live(alloc, &analysis)?;
    let made = made_names(alloc, named, bid, &analysis, &live)?;
    Ok(ReadObject {
        analysis,
        live,
        made,
    })
}

/// What was read of the object of a number.
pub(crate) fn numbered(
    number: u32,
    read: Result<ReadObject, ReadError>,
) -> Result<ReadObject, Refusal>
    ensures read { (of : Outcome Seen Wrong) → ReadsObject of read → ReadsNumbered number of result }
    ensures names { (named : Bool) (bid : ℕ) → IfOk read (λ it. HasNames named bid it.analysis it.live it.made) → IfOk result (λ it. HasNames named bid it.analysis it.live it.made) }
{
    match read {
        Ok(it) => Ok(it),
        Err(ReadError::Faulty(fault)) => Err(Refusal::Faulty {
            file: number,
            fault,
        }),
        Err(ReadError::NoMemory) => Err(Refusal::NoMemory),
    }
}

/// The names of an object, which bid by a number, if they are wanted.
fn made_names(
    alloc: Global,
    named: bool,
    bid: u32,
    analysis: &Analysis,
    live: &BitRow,
) -> Result<Option<ObjectNames>, NoMemory>
    requires counted { (1 ≤ bid) × (bid < 2 ^ 16) }
    requires sound { IsSound analysis.now }
    requires live { IsLiveRow analysis.now.entries live.now }
    ensures { IfOk result (HasNames named bid analysis.now live.now) }
{
    if !named {
        return Ok(None);
    }
    let made = object_names(alloc, analysis, live, bid)?;
    Ok(Some(made))
}

/// The analysis of an object, which has a file or is left away.
fn analysis(
    alloc: Global,
    target: Target,
    object: &MapObject,
    file: Option<&Opened>,
) -> Result<Analysis, ReadError>
    ensures exact { (bytes : Maybe (Listed ℕ)) → IsOpened target.arch bytes file.entry → Gives (λ it. it) result (analysis_from target object.now bytes) }
    ensures sound { IfOk result IsSound }
{
    let Some(file) = file else {
        return Ok(no_entries(alloc));
    };
    match file {
        Opened::Thin(file) => analysis_of_thin(alloc, target.cpu, object, file),
        Opened::Refused(fault) => Err(ReadError::Faulty(*fault)),
    }
}

/// The analysis of an object without entries, as of one that is left away.
pub fn no_entries(alloc: Global) -> Analysis
    ensures { result ≡ Rattle.object_reads.specs.Sources.no_entries }
{
    Analysis {
        units: List::new(alloc),
        entries: Entries::new(alloc),
        code: List::new(alloc),
        frames: OutFrames::new(alloc),
    }
}

/// The analysis of an object by a file that isn't universal.
#[tactic(auto, unfolding(crate::specs::Sources::analysis_of_thin))]
fn analysis_of_thin(
    alloc: Global,
    cpu: u32,
    object: &MapObject,
    file: &ThinFile,
) -> Result<Analysis, ReadError>
    ensures exact { Gives (λ it. it) result (thin_analysis cpu object.now file.now.bytes.now) }
    ensures sound { IfOk result IsSound }
{
    let bytes = content_of(&object.member, file.bytes, &file.members)?;
    analysis_of_bytes(alloc, cpu, object, bytes)
}

/// The bytes of an object: those of its file, or of the member that it is.
fn content_of<'a>(
    member: &Option<Bytes>,
    file: &'a [u8],
    members: &Members<'a>,
) -> Result<&'a [u8], Fault>
    requires { members.now ≡ file.now }
    ensures finds { Finds (λ bytes. bytes.now) result (bytes_of member.now file.now) }
    ensures within { IfOk result (λ bytes. length bytes.now ≤ length file.now) }
{
    match member {
        None => Ok(file),
        Some(name) => members.find(name.as_slice()),
    }
}

/// The analysis of an object by its bytes.
fn analysis_of_bytes(
    alloc: Global,
    cpu: u32,
    object: &MapObject,
    bytes: &[u8],
) -> Result<Analysis, ReadError>
    requires { length bytes.now < 2 ^ 32 }
    ensures exact { Gives (λ it. it) result (analysis_of bytes.now object.now cpu) }
    ensures sound { IfOk result IsSound }
{
    analyse(alloc, bytes, object, cpu)
}
