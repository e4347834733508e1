//! The file of a program (mach-o/loader.h, mach-o/nlist.h, mach-o/stab.h).

/// The file of a program for arm64 with one section, one function `_a` in it, and one variable `a` elsewhere, both of one
/// object.
///
/// The lines have
/// - of the header: magic, cputype, cpusubtype, filetype, ncmds, sizeofcmds, flags, reserved
/// - of the segment: cmd, cmdsize, segname; vmaddr, vmsize, fileoff, filesize; maxprot, initprot, nsects, flags
/// - of the section: sectname, segname, addr, size; offset, align, reloff, nreloc, flags, reserved1 to 3
/// - of the symbol table: cmd, cmdsize, symoff, nsyms, stroff, strsize
/// - of N_OSO, N_FUN and its end, N_GSYM, and the symbol of the variable: n_strx, n_type, n_sect, n_desc, n_value
/// - the strings
#[rattlefmt::skip]
pub const PROGRAM: [u8; 301] = *b"\
    \xcf\xfa\xed\xfe\x0c\0\0\x01\0\0\0\0\x02\0\0\0\x02\0\0\0\xb0\0\0\0\0\0\0\0\0\0\0\0\
    \x19\0\0\0\x98\0\0\0__TEXT\0\0\0\0\0\0\0\0\0\0\
    \0\0\0\0\x01\0\0\0\0\x40\0\0\0\0\0\0\0\0\0\0\0\0\0\0\0\0\0\0\0\0\0\0\
    \x05\0\0\0\x05\0\0\0\x01\0\0\0\0\0\0\0\
    __text\0\0\0\0\0\0\0\0\0\0__TEXT\0\0\0\0\0\0\0\0\0\0\0\x20\0\0\x01\0\0\0\x20\0\0\0\0\0\0\0\
    \0\0\0\0\x04\0\0\0\0\0\0\0\0\0\0\0\0\x04\0\x80\0\0\0\0\0\0\0\0\0\0\0\0\
    \x02\0\0\0\x18\0\0\0\xd0\0\0\0\x05\0\0\0\x20\x01\0\0\x0d\0\0\0\
    \x01\0\0\0\x66\0\x01\0\0\0\0\0\0\0\0\0\
    \x0a\0\0\0\x24\x01\0\0\0\x20\0\0\x01\0\0\0\
    \0\0\0\0\x24\0\0\0\x20\0\0\0\0\0\0\0\
    \x0b\0\0\0\x20\0\0\0\0\0\0\0\0\0\0\0\
    \x0b\0\0\0\x0f\x01\0\0\x10\x80\0\0\x01\0\0\0\
    \0/tmp/m.o\0_a\0";
