//! What the command answers over files and a sink in memory: each status with its message and what stands in the files
//! then, each call that fails, and that the threads that were asked for share a link under the gate that was handed in.
//!
//! Layer: top. The crate has no code of its own. Expected values were written out by hand from mach-o/loader.h, nlist.h,
//! stab.h, DWARF 4 and docs/PROFILE.md.
#![tactic(auto)]

#[cfg(test)]
mod answers;
#[cfg(test)]
mod bytes;
#[cfg(test)]
mod devices;
#[cfg(test)]
mod worlds;
