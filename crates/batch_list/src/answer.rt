//! How a batch ends, and the program's exit code for it.

ghost use Rattle.std.specs.Prelude.{◌≡◌, option_map};
ghost use Rattle.std.specs.List.{find, list_any};
ghost use Rattle.batch_list.specs.Answers as spec;

use link_status::Status;

/// How a batch ended.
#[derive(Clone, Copy, Debug, PartialEq, Eq)]
pub enum BatchStatus {
    /// Every program is done.
    Done,
    /// The words are not those of the command.
    Usage,
    /// The list is not there.
    Missing,
    /// The list could not be read.
    ReadFault,
    /// A line of the list is refused: the first such line.
    BadLine { line: u32 },
    /// The list is longer than a list may be.
    Limit,
    /// Memory ran out.
    NoMemory,
    /// A message could not be put out.
    MessageFault,
    /// A program is refused: the line of the first such program.
    Programs { first: u32 },
}

/// The exit code of a batch.
pub fn batch_code(status: &BatchStatus) -> u8
    ensures { result ≡ spec.code_of status.now }
{
    match status {
        BatchStatus::Done => 0,
        BatchStatus::Usage => 1,
        BatchStatus::Missing => 2,
        BatchStatus::ReadFault => 3,
        BatchStatus::BadLine { .. } => 4,
        BatchStatus::Limit => 5,
        BatchStatus::NoMemory => 7,
        BatchStatus::MessageFault => 8,
        BatchStatus::Programs { .. } => 9,
    }
}

/// A program's line, and the status that was told of it.
#[derive(Clone, Copy)]
pub struct Told {
    pub line: u32,
    pub status: Status,
}

/// The answer of a batch whose programs were all told, in the order of their lines.
///
/// It is `Programs` with the line of the first one whose status is neither `Done` nor `NoMemory`; without such a one,
/// `NoMemory` where some program's status is that; and else `Done`.
pub fn answer_of(told: &[Told]) -> BatchStatus
    ensures { result ≡ spec.answer_of told.now }
{
    if let Some(first) = first_refused(told) {
        return BatchStatus::Programs { first };
    }
    if lacks_memory(told) {
        BatchStatus::NoMemory
    } else {
        BatchStatus::Done
    }
}

/// The line of the first program that was refused, for another cause than memory.
fn first_refused(told: &[Told]) -> Option<u32>
    ensures { result ≡ option_map (λ it. it.line) (find spec.is_refused told.now) }
{
    for it in told {
        if is_refused(it.status) {
            return Some(it.line);
        }
    }
    None
}

/// Whether memory ran out for a program.
fn lacks_memory(told: &[Told]) -> bool
    ensures { result ≡ list_any spec.lacked_memory told.now }
{
    for it in told {
        if is_memory(it.status) {
            return true;
        }
    }
    false
}

/// Whether a status refuses a program, for another cause than memory.
fn is_refused(status: Status) -> bool
    ensures { result ≡ spec.refuses status }
{
    !matches!(status, Status::Done | Status::NoMemory)
}

/// Whether a status is want of memory.
fn is_memory(status: Status) -> bool
    ensures { result ≡ spec.lacks_memory status }
{
    matches!(status, Status::NoMemory)
}
