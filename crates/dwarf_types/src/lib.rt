//! Debugging information as values: what is read of an object, the output graph, and its one encoding.
//!
//! Layer: ground. The types hold plain data, and contracts see each `Bytes` and `List` in them as a
//! list, so that a value of a type here is the value that definitions speak of. What is held by the
//! million, entries with their values, operations and frames, stands in flat columns that contracts see
//! as lists of the records here (`specs/Columns.antt`, `specs/Cells.antt`). The encoding of a
//! graph is a definition alone (`specs/Encode.antt`): sections of DWARF 4 and 5, section 7, with this
//! project's choices (docs/PROFILE.md, "Bytes written"). What every linked graph keeps to is
//! `specs/Well.antt`; that its sections are bytes is proved in `proofs/WellBytes.antt`. There are two tables
//! here: that of the operations of expressions ([`operands_after`]), by which they are read and written, and
//! that of the places of entries ([`PlaceTable`]), by which the entry at a place is found. What was read of an
//! object is copied column by column ([`copy`], [`copy_units`]). Nothing here reads or writes bytes.
#![tactic(auto)]

mod abbrev;
mod address;
mod analysis;
mod builder;
mod columns;
mod entries;
mod entry;
mod entry_ref;
mod expr;
mod files;
mod forms;
mod frame_columns;
mod frames;
mod graph;
mod lines;
mod lists;
mod op_rows;
mod operands;
mod ops;
mod packed_op;
mod packed_row;
mod parts;
mod paths;
mod place_table;
mod put;
mod rows;
mod runs;
mod sections;
mod seen;
mod sequences;
mod shape;
mod shared_texts;
mod sides;
mod value;

pub use abbrev::{Abbrev, Declaration, Field, MOST_FIELDS};
pub use address::{Addr, Place, Span};
pub use analysis::{Analysis, CodeRange, copy, held_bytes};
pub use builder::Builder;
pub use entries::{Entries, RawEntries};
pub use entry::{Attr, Entry, InUnit, MOST_ENTRIES, RawAttr, RawEntry, RawUnits, copy_units};
pub use entry_ref::{EntryRef, RawEntryRef};
pub use expr::{Base, Op, PlainOp};
pub use files::{FileNameRef, FileNames};
pub use forms::is_flag;
pub use frames::{FrameRef, OutFrame, OutFrames, RawFrame, RawFrameRef, RawFrames};
pub use graph::{Graph, Node, OutAttr, OutLocation, OutUnit, OutValue, Target, Written};
pub use lines::{FileName, OutLines, RawLines, RawRow, RawSequence, Row, Sequence};
pub use lists::{Location, RawLocation, RawSpan};
pub use operands::{Named, Operands, operands_after};
pub use ops::{LocationList, Ops};
pub use parts::{ExprPart, PlainPart};
pub use paths::Paths;
pub use place_table::PlaceTable;
pub use put::{NewValue, RawValue};
pub use rows::Rows;
pub use sections::Sections;
pub use seen::{
    AttrRef, InnerOpRef, InnerOpsRef, LocationRef, LocationsRef, OpRef, OpsRef, RawAttrRef,
    ValueRef,
};
pub use sequences::{
    RawSequenceBuilder, RawSequenceRef, RawSequences, SequenceBuilder, SequenceRef, Sequences,
};
pub use shape::{Origin, Shape, ShapeUnit};
pub use shared_texts::SharedTexts;
pub use value::Value;
