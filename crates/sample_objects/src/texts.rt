//! The texts of the generated program, and how they are made.

ghost use Rattle.std.specs.Prelude.{◌≡◌, ◌++◌, IfOk, OnOk};
ghost use Rattle.std.specs.Fmt.{decimal};

use ds_base::{Bytes, NoMemory};
use std::alloc::Global;

/// Behind the number of an object in the name of its unit.
pub const UNIT_ENDING: [u8; 3] = *b".cc";

/// Before the number of an object in the path of its file, and behind it.
pub const FOLDER: [u8; 4] = *b"gen/";

pub const OBJECT_ENDING: [u8; 2] = *b".o";

/// The base type.
pub const INT: [u8; 3] = *b"int";

/// The namespace.
pub const GEN: [u8; 3] = *b"gen";

/// Before the number of a structure, and that of a member.
pub const STRUCTURE: [u8; 1] = *b"S";

pub const MEMBER: [u8; 1] = *b"m";

/// The subprograms of a structure, and what stands before its number in the linkage name of the second.
pub const F: [u8; 1] = *b"f";

pub const G: [u8; 1] = *b"g";

pub const G_LINKAGE: [u8; 10] = *b"_ZN3gen1gE";

/// Before the numbers of an object and of a function, and between them.
pub const FUNCTION: [u8; 1] = *b"f";

pub const SEPARATOR: [u8; 1] = *b"_";

/// The variables of a function.
pub const FIRST_VARIABLE: [u8; 1] = *b"a";

pub const SECOND_VARIABLE: [u8; 1] = *b"b";

pub const THIRD_VARIABLE: [u8; 1] = *b"c";

/// Before the name of a function in that of its symbol.
pub const SYMBOL: [u8; 1] = *b"_";

/// A text with a number behind it.
pub(crate) fn numbered(alloc: Global, before: &[u8], number: u32) -> Result<Bytes, NoMemory>
    ensures { IfOk result (λ text. text ≡ before.now ++ decimal number) }
{
    let mut text = Bytes::from_slice(alloc, before)?;
    append_decimal(alloc, &mut text, number)?;
    Ok(text)
}

/// Puts the decimal digits of a number last.
pub(crate) fn append_decimal(alloc: Global, out: &mut Bytes, number: u32) -> Result<(), NoMemory>
    ensures { OnOk result (out.new ≡ out.old ++ decimal number) }
{
    let digits = number.to_string(alloc)?;
    out.extend(digits.as_bytes())?;
    Ok(())
}
