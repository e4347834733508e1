//! Bytes of debug sections that are read.

/// Operations one behind the other: addr and stack_value, bregx and bit_piece, a conversion to a base type, one to the
/// generic type, and an entry value and stack_value.
#[rattlefmt::skip]
pub const CUT: [u8; 26] = *b"\x03\0\0\0\0\0\0\0\0\x9f\x92\x81\x01\x78\x9d\x85\x02\x03\xa8\x2a\xa8\0\xa3\x01\x55\x9f";

/// The index of the second address, a number, a conversion to a base type, and an entry value of nop and such a conversion.
#[rattlefmt::skip]
pub const NAMING: [u8; 18] = *b"\xa1\x01\x03\x20\0\0\0\0\0\0\0\xa8\x2a\xa3\x03\x96\xa8\x2a";

/// The `__debug_line` that clang 14 writes for x86_64-apple-macos with `-g -gdwarf-4 -O1` of two functions in two
/// sections, without the relocations.
#[rattlefmt::skip]
pub const COMPILED: [u8; 120] = *b"\x74\0\0\0\x04\0\x1b\0\0\0\x01\x01\x01\xfb\x0e\x0d\
    \0\x01\x01\x01\x01\0\0\0\x01\0\0\x01\0\x6d\x2e\x63\
    \0\0\0\0\0\0\x09\x02\0\0\0\0\0\0\0\0\
    \x15\x05\x0f\x0a\xd7\x05\x17\x3d\x05\x05\x06\x2e\x03\x7a\x2e\x05\
    \x19\x06\xb3\x05\x1d\x81\x05\x17\x06\x74\x05\x05\xac\x06\x30\x02\
    \x12\0\x01\x01\0\x09\x02\x50\0\0\0\0\0\0\0\x03\
    \x0b\x01\x05\x19\x0a\x08\xdf\x05\x1d\x81\x05\x17\x06\x74\x05\x05\
    \x9e\x06\x35\x02\x0e\0\x01\x01";

/// A line table of version 5 without sequences, of the directory `/src` and of two files that are both `a.c` there.
#[rattlefmt::skip]
pub const TABLE_5: [u8; 62] = *b"\x3a\0\0\0\x05\0\x08\0\x32\0\0\0\x01\x01\x01\xfb\x0e\x0d\
    \0\x01\x01\x01\x01\0\0\0\x01\0\0\x01\
    \x01\x01\x1f\x01\0\0\0\0\
    \x04\x01\x1f\x02\x0f\x03\x0f\x04\x0f\
    \x02\x05\0\0\0\0\0\0\x05\0\0\0\0\0\0";

/// Two CIEs, of 16 and 12 bytes, and three FDEs of 24, of which the second names the second CIE.
#[rattlefmt::skip]
pub const FRAMES: [u8; 100] = *b"\x0c\0\0\0\xff\xff\xff\xff\x04\0\x08\0\x01\x78\x1e\0\
    \x08\0\0\0\xff\xff\xff\xff\x04\0\x08\x01\
    \x14\0\0\0\0\0\0\0\x20\0\0\0\0\0\0\0\x08\0\0\0\0\0\0\0\
    \x14\0\0\0\x10\0\0\0\x50\0\0\0\0\0\0\0\x0b\0\0\0\0\0\0\0\
    \x14\0\0\0\0\0\0\0\x03\0\0\0\0\0\0\0\x0c\0\0\0\0\0\0\0";
