//! How a link ends: why it is refused, the status that is told, its exit code and its line, and the names of a bundle's files.
//!
//! Layer: top. A [`Refusal`] is what the content of files, a limit or want of memory refuses; a [`Status`] is that, or what
//! words, files and messages come to. Whoever links tells of a program by the number 0, and of its objects from 1 on. What a
//! line says is `specs/StatusText.antt`.
#![tactic(auto)]

mod message;
mod names;
mod refusal;
mod status;

pub use message::{line, status_text};
pub use names::{image_name, last_part, plist_name};
pub use refusal::{LimitKind, Refusal};
pub use status::{Status, code};
