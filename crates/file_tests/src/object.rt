//! The file of an object (mach-o/loader.h, mach-o/reloc.h, mach-o/nlist.h).

/// The file of an arm64 object with a unit of two entries, whose addresses stand at 12 and at 21 of `__debug_info` and are
/// relocated, and with two symbols, whose names share their bytes: `_a` at 0x20 of `__text`, and `a` of 8 bytes, which is
/// common.
///
/// The lines have
/// - of the header: magic, cputype, cpusubtype, filetype, ncmds, sizeofcmds, flags, reserved
/// - of the segment: cmd, cmdsize, segname; vmaddr, vmsize, fileoff, filesize; maxprot, initprot, nsects, flags
/// - of each section: sectname, segname, addr, size; offset, align, reloff, nreloc, flags, reserved1 to 3
/// - of the UUID: cmd, cmdsize, uuid
/// - of the symbol table: cmd, cmdsize, symoff, nsyms, stroff, strsize
/// - the abbreviations of a unit and of a function, each with low_pc
/// - of the unit: unit_length, version, debug_abbrev_offset, address_size; code, low_pc; the function's code, low_pc, and the end
/// - of the relocation of the second address, and of that of the first: r_address, and section 1, length 8
/// - of each symbol: n_strx, n_type, n_sect, n_desc, n_value
/// - the strings
#[rattlefmt::skip]
pub const OBJECT: [u8; 489] = *b"\
    \xcf\xfa\xed\xfe\x0c\0\0\x01\0\0\0\0\x01\0\0\0\x03\0\0\0\x68\x01\0\0\0\0\0\0\0\0\0\0\
    \x19\0\0\0\x38\x01\0\0\0\0\0\0\0\0\0\0\0\0\0\0\0\0\0\0\
    \0\0\0\0\0\0\0\0\0\0\x01\0\0\0\0\0\x88\x01\0\0\0\0\0\0\x2d\0\0\0\0\0\0\0\
    \x07\0\0\0\x07\0\0\0\x03\0\0\0\0\0\0\0\
    __text\0\0\0\0\0\0\0\0\0\0__TEXT\0\0\0\0\0\0\0\0\0\0\0\0\0\0\0\0\0\0\0\0\x01\0\0\0\0\0\
    \0\0\0\0\0\0\0\0\0\0\0\0\0\0\0\0\0\0\0\0\0\0\0\0\0\0\0\0\0\0\0\0\
    __debug_abbrev\0\0__DWARF\0\0\0\0\0\0\0\0\0\0\0\0\0\0\0\0\0\x0f\0\0\0\0\0\0\0\
    \x88\x01\0\0\0\0\0\0\0\0\0\0\0\0\0\0\0\0\0\x02\0\0\0\0\0\0\0\0\0\0\0\0\
    __debug_info\0\0\0\0__DWARF\0\0\0\0\0\0\0\0\0\0\0\0\0\0\0\0\0\x1e\0\0\0\0\0\0\0\
    \x97\x01\0\0\0\0\0\0\xb5\x01\0\0\x02\0\0\0\0\0\0\x02\0\0\0\0\0\0\0\0\0\0\0\0\
    \x1b\0\0\0\x18\0\0\0\0\x11\x22\x33\x44\x55\x66\x77\x88\x99\xaa\xbb\xcc\xdd\xee\xff\
    \x02\0\0\0\x18\0\0\0\xc5\x01\0\0\x02\0\0\0\xe5\x01\0\0\x04\0\0\0\
    \x01\x11\x01\x11\x01\0\0\x02\x2e\0\x11\x01\0\0\0\
    \x1a\0\0\0\x04\0\0\0\0\0\x08\x01\0\0\0\0\0\0\0\0\x02\x08\0\0\0\0\0\0\0\0\
    \x15\0\0\0\x01\0\0\x06\
    \x0c\0\0\0\x01\0\0\x06\
    \x01\0\0\0\x0f\x01\0\0\x20\0\0\0\0\0\0\0\
    \x02\0\0\0\x01\0\0\0\x08\0\0\0\0\0\0\0\
    \0_a\0";
