//! Numbers, and lengths that are known when what they count is there, put behind bytes.
//!
//! Layer: ground. A writer of a part of the output appends its items to `Bytes` by these calls, and its contract says
//! which bytes it puts behind those that were there. A field that holds the length of what follows it is appended as
//! four zeros by [`open_length`], and filled in by [`close_length`].
#![tactic(auto)]

mod length;
mod numbers;

pub use length::{append_offset, close_length, open_length};
pub use numbers::{append_sleb, append_u16, append_u32, append_u64, append_uleb};
