//! How a link ended, and the program's exit code for it.

ghost use Rattle.std.specs.Prelude.{◌≡◌};
ghost use Rattle.link_status.specs.Codes.{code_of};

use crate::refusal::{LimitKind, Refusal};
use ds_base::Fault;

/// How a link ended.
///
/// A file is numbered: 0 is the program, and its objects follow from 1. In `WriteFault` 0 is Info.plist and 1 the image.
#[derive(Clone, Copy, Debug, PartialEq, Eq)]
pub enum Status {
    /// It is done: the bundle was written, or what was asked for is told.
    Done,
    /// The words are not those of the command.
    Usage,
    /// The file is not there.
    Missing { file: u32 },
    /// The file could not be read.
    ReadFault { file: u32 },
    /// The file's content is wrong: its first fault.
    Faulty { file: u32, fault: Fault },
    /// The limit was reached.
    Limit { which: LimitKind, number: u64 },
    /// The file could not be written.
    WriteFault { file: u32 },
    /// Memory ran out.
    NoMemory,
    /// The message could not be put out.
    MessageFault,
}

/// The exit code of a status: 0 to 8 in the order of the statuses.
pub fn code(status: &Status) -> u8
    ensures { result ≡ code_of status.now }
{
    match status {
        Status::Done => 0,
        Status::Usage => 1,
        Status::Missing { .. } => 2,
        Status::ReadFault { .. } => 3,
        Status::Faulty { .. } => 4,
        Status::Limit { .. } => 5,
        Status::WriteFault { .. } => 6,
        Status::NoMemory => 7,
        Status::MessageFault => 8,
    }
}

impl From<Refusal> for Status {
    ghost use Rattle.std.specs.Prelude.{◌≡◌};
    ghost use Rattle.link_status.specs.Statuses.{refused_status};

    ghost from_gives = { λ refusal status. status ≡ refused_status refusal };

    fn from(refusal: Refusal) -> Status {
        match refusal {
            Refusal::Faulty { file, fault } => Status::Faulty { file, fault },
            Refusal::Limit { which, number } => Status::Limit { which, number },
            Refusal::NoMemory => Status::NoMemory,
        }
    }
}
