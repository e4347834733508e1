//! The outside: files with names, a sink for messages, and a gate that workers pass.
//!
//! Layer: ground. All that the linker reads and writes goes through the traits [`Files`] and [`Sink`]. Their clauses say
//! what a call gave and changed where the outside tells its content, and by which count each failure is known
//! (`specs/Outside.antt`), and calls are counted too; so a caller that is generic over them can tell the cause of each
//! error, and that it made one call and no more.
//!
//! [`MemoryFiles`] and [`MemorySink`] keep all in memory, tell it, and fail where they are asked to: their contracts say
//! exactly what each call answers (`specs/MemoryFiles.antt`, `specs/MemorySink.antt`). [`HostFiles`] and [`HostSink`] are
//! the trusted edge, the system's files and standard output. What those hold is not told, so no clause says that a file
//! has the bytes that were written. [`Gate`] has no meaning, nor has [`fetch_ahead`], by which several threads read files
//! before they are asked for: it changes neither files nor counts.
#![tactic(auto)]

mod ahead;
mod files;
mod gate;
mod host_files;
mod host_sink;
mod memory_files;
mod memory_sink;
mod sink;
mod tally;

pub use ahead::{Ahead, fetch_ahead};
pub use files::{FileError, Files};
pub use gate::{Gate, OpenGate};
pub use host_files::HostFiles;
pub use host_sink::HostSink;
pub use memory_files::MemoryFiles;
pub use memory_sink::MemorySink;
pub use sink::{Sink, SinkFailed};
