//! How the command ends, and what it tells of that.

ghost use Rattle.std.specs.Prelude.{◌≡◌, IfOk};
ghost use Rattle.link_cli.specs.Endings as spec;
ghost use Rattle.link_cli.specs.Plans.{plan_seen};

use crate::plan::Plan;
use ds_base::{Bytes, NoMemory};
use ds_files::Sink;
use link_status::{Status, status_text};
use stab_map::MapObject;
use std::alloc::Global;

/// A status, and the message that goes out.
#[derive(Drop)]
pub(crate) struct Ending {
    pub status: Status,
    pub message: Bytes,
}

impl Ending {
    /// Memory ran out, and nothing is told.
    pub fn no_memory(alloc: Global) -> Ending
        ensures { result ≡ spec.no_memory }
    {
        Ending {
            status: Status::NoMemory,
            message: Bytes::new(alloc),
        }
    }

    /// The words are none of the command's.
    pub fn usage(alloc: Global) -> Ending
        ensures { spec.Tells spec.usage_ending result }
    {
        match status_text(alloc, &Status::Usage, "", "", &[]) {
            Ok(message) => Ending {
                status: Status::Usage,
                message,
            },
            Err(NoMemory) => Ending::no_memory(alloc),
        }
    }

    /// A plan is refused, for a program of these objects, with warnings before.
    pub fn refused(
        alloc: Global,
        plan: &Plan,
        objects: &[MapObject],
        warnings: Bytes,
        status: Status,
    ) -> Ending
        ensures { spec.Tells (spec.refused_ending (plan_seen plan.now) objects.now warnings status) result }
    {
        match refusal_message(alloc, plan, objects, warnings, &status) {
            Ok(message) => Ending { status, message },
            Err(NoMemory) => Ending::no_memory(alloc),
        }
    }

    /// Puts the message out, unless it is empty. Where that fails, its failure is the status.
    pub fn put<S: Sink>(self, messages: &mut S) -> Status
        ensures { spec.Puts self (spec.said (S.text messages.old) (S.faults messages.old) (S.calls messages.old)) (spec.said (S.text messages.new) (S.faults messages.new) (S.calls messages.new)) result }
    {
        if self.message.is_empty() {
            return self.status;
        }
        match messages.put(self.message.as_slice()) {
            Ok(()) => self.status,
            Err(_) => Status::MessageFault,
        }
    }
}

/// The message of a refusal: the warnings before it, and its line.
pub(crate) fn refusal_message(
    alloc: Global,
    plan: &Plan,
    objects: &[MapObject],
    warnings: Bytes,
    status: &Status,
) -> Result<Bytes, NoMemory>
    ensures { IfOk result (λ message. message ≡ spec.refusal_message (plan_seen plan.now) objects.now warnings status.now) }
{
    if is_no_memory(status) {
        return Ok(Bytes::new(alloc));
    }
    let line = status_text(alloc, status, plan.exe.as_str(), plan.out.as_str(), objects)?;
    let mut message = warnings;
    message.extend(line.as_slice())?;
    Ok(message)
}

/// Whether memory ran out.
fn is_no_memory(status: &Status) -> bool
    ensures { result ≡ spec.is_no_memory status.now }
{
    match status {
        Status::NoMemory => true,
        _ => false,
    }
}
