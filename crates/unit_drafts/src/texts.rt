//! Memory for the string section, taken while the last of its units is drafted.

use link_status::Refusal;
use std::thread::Threads;
use text_pool::Names;
use unit_draft::Draft;
use work_share::{Rooming, Workers, start_room};

/// Memory for the string section, taken beside the drafts where it is wanted.
#[derive(Drop)]
pub(crate) struct TextRoom {
    pub wanted: bool,
    pub taken: Rooming,
}

impl TextRoom {
    /// None is taken so far.
    pub(crate) fn new(wanted: bool) -> TextRoom {
        TextRoom {
            wanted,
            taken: None,
        }
    }
}

/// Bytes of the texts of a merged node, about.
const TEXT_BYTES: usize = 24;

/// Starts a thread that takes memory for the string section while a unit of so many nodes is still drafted, and these are
/// all others.
pub(crate) fn start_text_room<R: Threads>(
    workers: &Workers<R>,
    nodes: usize,
    others: &[Result<Draft, Refusal>],
) -> Rooming {
    let mut texts: usize = 0;
    for other in others {
        if let Ok(draft) = other {
            texts = texts.saturating_add(size_of_texts(&draft.names));
        }
    }
    start_room(
        workers,
        size_of_all_texts(nodes.saturating_mul(TEXT_BYTES), texts),
    )
}

/// About the bytes of the string section of these drafts.
pub fn size_of_their_texts(drafts: &[Draft]) -> usize {
    let mut others: usize = 0;
    for draft in drafts {
        others = others.saturating_add(size_of_texts(&draft.names));
    }
    let first = match drafts.first() {
        Some(draft) => size_of_texts(&draft.names),
        None => 0,
    };
    size_of_all_texts(first, others.saturating_sub(first))
}

/// About the bytes of a string section of these texts of a first unit and of the others, many of which are those of another.
fn size_of_all_texts(first: usize, others: usize) -> usize {
    first.saturating_add(others / 2)
}

/// The bytes of texts, each with the zero byte behind it.
fn size_of_texts(names: &Names) -> usize {
    let mut size: usize = 0;
    for number in 0..names.len() {
        let text = names.get(number).unwrap_or(&[]);
        size = size.saturating_add(text.len()).saturating_add(1);
    }
    size
}
