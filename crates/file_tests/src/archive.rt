//! An archive (ar.h).

/// Six members: one with a long name, then one of an odd size, one whose size has leading zeros, and another of the name
/// `a.o`; the fifth, at 296, has another mark than the others.
#[rattlefmt::skip]
pub const ARCHIVE: [u8; 424] = *b"!<arch>\n\
    #1/4            0           0     0     100644  36        `\n\
    x.o\x000123456789abcdef0123456789ABCDEF\
    a.o             0           0     0     100644  3         `\none\n\
    b.o             0           0     0     100644  004       `\nfour\
    a.o             0           0     0     100644  4         `\ntwo.\
    c.o             0           0     0     100644  4         `\rfive\
    d.o             0           0     0     100644  4         `\nlast";
