//! Object files and programs to try the tool with: their bytes are defined, not copied from a compiler.
//!
//! Layer: samples. [`object`] is the Mach-O file of an object with one unit (mach-o/loader.h): `object_bytes` of its
//! [`ObjectSpec`] (`specs/ObjectFile.antt`), whose debug sections are `encode` of that unit. [`is_within_limits`] tests
//! what the call asks of the unit. [`program_file`] is the file of a linked program: `program_bytes` of its image
//! (`specs/ProgramFile.antt`), and a law says that it is read back. [`generated`] is `generated_program` of a number of objects
//! (`specs/GeneratedProgram.antt`): a program of C++ units with structures of shared names, its debug map, and the files
//! of its objects; what stands in a unit is said in `specs/GeneratedUnit.antt`. Its units have version 4.
#![tactic(auto)]

mod attributes;
mod commands;
mod debug_map;
mod file;
mod functions;
mod generator;
mod law;
mod lines;
mod linked;
mod linked_file;
mod objects;
mod places;
mod program;
mod relocation;
mod sections;
mod spec;
mod structures;
mod symbols;
mod texts;
mod unit;

pub use file::object;
pub use generator::{generated, generated_file, generated_with};
pub use law::programs_read_back;
pub use linked_file::program_file;
pub use program::Generated;
pub use sections::is_within_limits;
pub use spec::ObjectSpec;
