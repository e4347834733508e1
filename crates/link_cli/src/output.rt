//! The two files of a bundle.

ghost use Rattle.std.specs.Prelude.{◌≡◌, IfOk};
ghost use Rattle.link_cli.specs.Answer.{Writes};
ghost use Rattle.link_cli.specs.Endings.{done_message as told_when_done, unwritten_ending};
ghost use Rattle.link_program.specs.Files.{world};
ghost use Rattle.link_cli.specs.Plans.{plan_seen};
ghost use Rattle.link_cli.specs.Prepared.{IsPrepared};

use crate::ending::{Ending, refusal_message};
use crate::plan::Plan;
use crate::texts::summary;
use ds_base::{Bytes, NoMemory};
use ds_files::{FileError, Files};
use link_core::Counts;
use link_program::Bundle;
use link_status::{Status, image_name, plist_name};
use stab_map::MapObject;
use std::alloc::Global;

/// What is made before the first file is replaced: the names of both, and the message for each way in which that ends.
#[derive(Drop)]
pub(crate) struct Prepared {
    pub plist: String,
    pub image: String,
    pub plist_unwritten: Bytes,
    pub image_unwritten: Bytes,
    pub done: Bytes,
}

/// Writes the files of a program's bundle: Info.plist, and then the image. Their names and all messages are made first.
pub(crate) fn write_bundle<F: Files>(
    alloc: Global,
    plan: &Plan,
    objects: &[MapObject],
    warnings: Bytes,
    linked: &Bundle,
    files: &mut F,
) -> Ending
    ensures { Writes (plan_seen plan.now) objects.now warnings linked.now (world (F.files files.old) (F.counts files.old)) (world (F.files files.new) (F.counts files.new)) result }
{
    let Ok(made) = prepare(alloc, plan, objects, warnings, &linked.counts) else {
        return Ending::no_memory(alloc);
    };
    if let Err(error) = files.replace(alloc, made.plist.as_str(), linked.plist.as_slice()) {
        return unwritten(alloc, 0, error, made.plist_unwritten);
    }
    match files.replace(alloc, made.image.as_str(), linked.image.as_slice()) {
        Ok(()) => Ending {
            status: Status::Done,
            message: made.done,
        },
        Err(error) => unwritten(alloc, 1, error, made.image_unwritten),
    }
}

/// The names of a bundle's files, and the messages.
fn prepare(
    alloc: Global,
    plan: &Plan,
    objects: &[MapObject],
    warnings: Bytes,
    counts: &Counts,
) -> Result<Prepared, NoMemory>
    ensures { IfOk result (IsPrepared (plan_seen plan.now) objects.now warnings counts.now) }
{
    let plist = plist_name(alloc, plan.out.as_str())?;
    let image = image_name(alloc, plan.out.as_str(), plan.exe.as_str())?;
    let first = warnings.copy(alloc)?;
    let second = warnings.copy(alloc)?;
    let plist_unwritten = refusal_message(
        alloc,
        plan,
        objects,
        first,
        &Status::WriteFault { file: 0 },
    )?;
    let image_unwritten = refusal_message(
        alloc,
        plan,
        objects,
        second,
        &Status::WriteFault { file: 1 },
    )?;
    let done = done_message(alloc, plan, warnings, counts)?;
    Ok(Prepared {
        plist,
        image,
        plist_unwritten,
        image_unwritten,
        done,
    })
}

/// The message where a bundle was written: the warnings, and what was counted where it is asked.
fn done_message(
    alloc: Global,
    plan: &Plan,
    warnings: Bytes,
    counts: &Counts,
) -> Result<Bytes, NoMemory>
    ensures { IfOk result (λ message. message ≡ told_when_done (plan_seen plan.now) warnings counts.now) }
{
    let mut message = warnings;
    if plan.statistics {
        let told = summary(alloc, counts)?;
        message.extend(told.as_slice())?;
    }
    Ok(message)
}

/// How it ends where a file of the bundle was not written, by the message for that.
fn unwritten(alloc: Global, file: u32, error: FileError, message: Bytes) -> Ending
    ensures { result ≡ unwritten_ending file error message }
{
    match error {
        FileError::NoMemory => Ending::no_memory(alloc),
        FileError::Missing | FileError::Failed | FileError::TooLong => Ending {
            status: Status::WriteFault { file },
            message,
        },
    }
}
