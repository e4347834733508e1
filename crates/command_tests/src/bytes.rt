//! The bytes of the first worked program, of its object, and of its bundle (mach-o/loader.h, nlist.h, stab.h, reloc.h,
//! DWARF 4).

/// The file of an arm64 program with one function `_main` of 0x2a bytes, from the object `m.o`.
///
/// The lines have
/// - of the header: magic, cputype, cpusubtype, filetype, ncmds, sizeofcmds, flags, reserved
/// - of the UUID: cmd, cmdsize, uuid
/// - of the segment: cmd, cmdsize, segname; vmaddr, vmsize, fileoff, filesize; maxprot, initprot, nsects, flags
/// - of its section: sectname, segname, addr, size; offset, align, reloff, nreloc, flags, reserved1 to 3
/// - of the symbol table: cmd, cmdsize, symoff, nsyms, stroff, strsize
/// - of each symbol: n_strx, n_type, n_sect, n_desc, n_value: an N_OSO, an N_FUN, its size, and `_main` itself
/// - the strings
#[rattlefmt::skip]
pub(crate) const PROGRAM: &[u8] = b"\
    \xcf\xfa\xed\xfe\x0c\0\0\x01\0\0\0\0\x02\0\0\0\x03\0\0\0\xc8\0\0\0\0\0\0\0\0\0\0\0\
    \x1b\0\0\0\x18\0\0\0\0\x11\x22\x33\x44\x55\x66\x77\x88\x99\xaa\xbb\xcc\xdd\xee\xff\
    \x19\0\0\0\x98\0\0\0__TEXT\0\0\0\0\0\0\0\0\0\0\
    \0\0\0\0\x01\0\0\0\0\x40\0\0\0\0\0\0\0\0\0\0\0\0\0\0\0\0\0\0\0\0\0\0\
    \x05\0\0\0\x05\0\0\0\x01\0\0\0\0\0\0\0\
    __text\0\0\0\0\0\0\0\0\0\0__TEXT\0\0\0\0\0\0\0\0\0\0\x50\x3f\0\0\x01\0\0\0\x2a\0\0\0\0\0\0\0\
    \0\0\0\0\x04\0\0\0\0\0\0\0\0\0\0\0\0\x04\0\x80\0\0\0\0\0\0\0\0\0\0\0\0\
    \x02\0\0\0\x18\0\0\0\xe8\0\0\0\x04\0\0\0\x28\x01\0\0\x0b\0\0\0\
    \x01\0\0\0\x66\0\x01\0\0\0\0\0\0\0\0\0\
    \x05\0\0\0\x24\x01\0\0\x50\x3f\0\0\x01\0\0\0\
    \0\0\0\0\x24\0\0\0\x2a\0\0\0\0\0\0\0\
    \x05\0\0\0\x0f\x01\0\0\x50\x3f\0\0\x01\0\0\0\
    \0m.o\0_main\0";

/// The file of a program as above, with a function of an object `n.o` before that of `m.o`, at 0x100003f7a. Both have the name
/// `_main`.
#[rattlefmt::skip]
pub(crate) const PAIR: &[u8] = b"\
    \xcf\xfa\xed\xfe\x0c\0\0\x01\0\0\0\0\x02\0\0\0\x03\0\0\0\xc8\0\0\0\0\0\0\0\0\0\0\0\
    \x1b\0\0\0\x18\0\0\0\0\x11\x22\x33\x44\x55\x66\x77\x88\x99\xaa\xbb\xcc\xdd\xee\xff\
    \x19\0\0\0\x98\0\0\0__TEXT\0\0\0\0\0\0\0\0\0\0\
    \0\0\0\0\x01\0\0\0\0\x40\0\0\0\0\0\0\0\0\0\0\0\0\0\0\0\0\0\0\0\0\0\0\
    \x05\0\0\0\x05\0\0\0\x01\0\0\0\0\0\0\0\
    __text\0\0\0\0\0\0\0\0\0\0__TEXT\0\0\0\0\0\0\0\0\0\0\x50\x3f\0\0\x01\0\0\0\x54\0\0\0\0\0\0\0\
    \0\0\0\0\x04\0\0\0\0\0\0\0\0\0\0\0\0\x04\0\x80\0\0\0\0\0\0\0\0\0\0\0\0\
    \x02\0\0\0\x18\0\0\0\xe8\0\0\0\x07\0\0\0\x58\x01\0\0\x0f\0\0\0\
    \x0b\0\0\0\x66\0\x01\0\0\0\0\0\0\0\0\0\
    \x05\0\0\0\x24\x01\0\0\x7a\x3f\0\0\x01\0\0\0\
    \0\0\0\0\x24\0\0\0\x2a\0\0\0\0\0\0\0\
    \x01\0\0\0\x66\0\x01\0\0\0\0\0\0\0\0\0\
    \x05\0\0\0\x24\x01\0\0\x50\x3f\0\0\x01\0\0\0\
    \0\0\0\0\x24\0\0\0\x2a\0\0\0\0\0\0\0\
    \x05\0\0\0\x0f\x01\0\0\x50\x3f\0\0\x01\0\0\0\
    \0m.o\0_main\0n.o\0";

/// The file of the object: a unit `m.c` with the function `main`, whose address is relocated.
///
/// The lines have the header, the segment and its four sections and the symbol table as above, and then
/// - the code
/// - the abbreviations of a unit and of a function
/// - of the unit: unit_length, version, debug_abbrev_offset, address_size
/// - of the root: code, name, language; of the function: code, low_pc, high_pc, name; the end
/// - the texts
/// - of the relocation: r_address, and section 1, length 8
/// - of the symbol: n_strx, n_type, n_sect, n_desc, n_value
/// - the strings
#[rattlefmt::skip]
pub(crate) const OBJECT: &[u8] = b"\
    \xcf\xfa\xed\xfe\x0c\0\0\x01\0\0\0\0\x01\0\0\0\x02\0\0\0\xa0\x01\0\0\0\0\0\0\0\0\0\0\
    \x19\0\0\0\x88\x01\0\0\0\0\0\0\0\0\0\0\0\0\0\0\0\0\0\0\
    \0\0\0\0\0\0\0\0\x6c\0\0\0\0\0\0\0\xc0\x01\0\0\0\0\0\0\x6c\0\0\0\0\0\0\0\
    \x07\0\0\0\x07\0\0\0\x04\0\0\0\0\0\0\0\
    __text\0\0\0\0\0\0\0\0\0\0__TEXT\0\0\0\0\0\0\0\0\0\0\0\0\0\0\0\0\0\0\x2a\0\0\0\0\0\0\0\
    \xc0\x01\0\0\0\0\0\0\0\0\0\0\0\0\0\0\0\x04\0\x80\0\0\0\0\0\0\0\0\0\0\0\0\
    __debug_abbrev\0\0__DWARF\0\0\0\0\0\0\0\0\0\x2a\0\0\0\0\0\0\0\x15\0\0\0\0\0\0\0\
    \xea\x01\0\0\0\0\0\0\0\0\0\0\0\0\0\0\0\0\0\x02\0\0\0\0\0\0\0\0\0\0\0\0\
    __debug_info\0\0\0\0__DWARF\0\0\0\0\0\0\0\0\0\x3f\0\0\0\0\0\0\0\x24\0\0\0\0\0\0\0\
    \xff\x01\0\0\0\0\0\0\x2c\x02\0\0\x01\0\0\0\0\0\0\x02\0\0\0\0\0\0\0\0\0\0\0\0\
    __debug_str\0\0\0\0\0__DWARF\0\0\0\0\0\0\0\0\0\x63\0\0\0\0\0\0\0\x09\0\0\0\0\0\0\0\
    \x23\x02\0\0\0\0\0\0\0\0\0\0\0\0\0\0\0\0\0\x02\0\0\0\0\0\0\0\0\0\0\0\0\
    \x02\0\0\0\x18\0\0\0\x34\x02\0\0\x01\0\0\0\x44\x02\0\0\x07\0\0\0\
    \0\0\0\0\0\0\0\0\0\0\0\0\0\0\0\0\0\0\0\0\0\0\0\0\0\0\0\0\0\0\0\0\0\0\0\0\0\0\0\0\0\0\
    \x01\x11\x01\x03\x0e\x13\x05\0\0\x02\x2e\0\x11\x01\x12\x06\x03\x0e\0\0\0\
    \x20\0\0\0\x04\0\0\0\0\0\x08\
    \x01\0\0\0\0\x0c\0\
    \x02\0\0\0\0\0\0\0\0\x2a\0\0\0\x04\0\0\0\
    \0\
    m.c\0main\0\
    \x13\0\0\0\x01\0\0\x06\
    \x01\0\0\0\x0f\x01\0\0\0\0\0\0\0\0\0\0\
    \0_main\0";

/// The file of that object with other sections of entries behind it, of a unit of C++, so that its structure has a name by which
/// it is merged.
///
/// The last lines have
/// - the abbreviations of a unit; of a function with low_pc, high_pc, specification and type; of one with a specification; of
///   a structure; of a member
/// - of the unit: unit_length, version, debug_abbrev_offset, address_size; the root
/// - the function `main`, whose specification is the entry at 0x27 and whose type the one at 0x2c
/// - the other function, whose specification is the entry at 0x12
/// - the structure `S` at 0x2c with its member, and the ends
#[rattlefmt::skip]
pub(crate) const MERGED: &[u8] = b"\
    \xcf\xfa\xed\xfe\x0c\0\0\x01\0\0\0\0\x01\0\0\0\x02\0\0\0\xa0\x01\0\0\0\0\0\0\0\0\0\0\
    \x19\0\0\0\x88\x01\0\0\0\0\0\0\0\0\0\0\0\0\0\0\0\0\0\0\
    \0\0\0\0\0\0\0\0\x6c\0\0\0\0\0\0\0\xc0\x01\0\0\0\0\0\0\x6c\0\0\0\0\0\0\0\
    \x07\0\0\0\x07\0\0\0\x04\0\0\0\0\0\0\0\
    __text\0\0\0\0\0\0\0\0\0\0__TEXT\0\0\0\0\0\0\0\0\0\0\0\0\0\0\0\0\0\0\x2a\0\0\0\0\0\0\0\
    \xc0\x01\0\0\0\0\0\0\0\0\0\0\0\0\0\0\0\x04\0\x80\0\0\0\0\0\0\0\0\0\0\0\0\
    __debug_abbrev\0\0__DWARF\0\0\0\0\0\0\0\0\0\x2a\0\0\0\0\0\0\0\x2c\0\0\0\0\0\0\0\
    \x4b\x02\0\0\0\0\0\0\0\0\0\0\0\0\0\0\0\0\0\x02\0\0\0\0\0\0\0\0\0\0\0\0\
    __debug_info\0\0\0\0__DWARF\0\0\0\0\0\0\0\0\0\x3f\0\0\0\0\0\0\0\x36\0\0\0\0\0\0\0\
    \x77\x02\0\0\0\0\0\0\x2c\x02\0\0\x01\0\0\0\0\0\0\x02\0\0\0\0\0\0\0\0\0\0\0\0\
    __debug_str\0\0\0\0\0__DWARF\0\0\0\0\0\0\0\0\0\x63\0\0\0\0\0\0\0\x09\0\0\0\0\0\0\0\
    \x23\x02\0\0\0\0\0\0\0\0\0\0\0\0\0\0\0\0\0\x02\0\0\0\0\0\0\0\0\0\0\0\0\
    \x02\0\0\0\x18\0\0\0\x34\x02\0\0\x01\0\0\0\x44\x02\0\0\x07\0\0\0\
    \0\0\0\0\0\0\0\0\0\0\0\0\0\0\0\0\0\0\0\0\0\0\0\0\0\0\0\0\0\0\0\0\0\0\0\0\0\0\0\0\0\0\
    \x01\x11\x01\x03\x0e\x13\x05\0\0\x02\x2e\0\x11\x01\x12\x06\x03\x0e\0\0\0\
    \x20\0\0\0\x04\0\0\0\0\0\x08\
    \x01\0\0\0\0\x0c\0\
    \x02\0\0\0\0\0\0\0\0\x2a\0\0\0\x04\0\0\0\
    \0\
    m.c\0main\0\
    \x13\0\0\0\x01\0\0\x06\
    \x01\0\0\0\x0f\x01\0\0\0\0\0\0\0\0\0\0\
    \0_main\0\
    \x01\x11\x01\x03\x0e\x13\x05\0\0\x02\x2e\0\x11\x01\x12\x06\x47\x13\x49\x13\0\0\x03\x2e\0\x47\x13\0\0\
    \x04\x13\x01\x03\x08\0\0\x05\x0d\0\x49\x13\0\0\0\
    \x32\0\0\0\x04\0\0\0\0\0\x08\x01\0\0\0\0\x04\0\
    \x02\0\0\0\0\0\0\0\0\x2a\0\0\0\x27\0\0\0\x2c\0\0\0\
    \x03\x12\0\0\0\
    \x04S\0\x05\x2c\0\0\0\0\0";

/// Where the sections of an image begin.
pub(crate) const SECTIONS_AT: usize = 4096;

/// The sections of the image of the first program.
///
/// The lines have
/// - the abbreviations of the unit and of the function, and the end
/// - of the unit: unit_length, version, debug_abbrev_offset, address_size
/// - of the root: code, name, language, low_pc, ranges; of the function: code, low_pc, high_pc, name; the end
/// - the texts
/// - the range of the unit and the end of the list
/// - of the unit's addresses: length, version, debug_info_offset, address_size, segment_size, padding; the range, the end
#[rattlefmt::skip]
pub(crate) const SECTIONS: &[u8] = b"\
    \x01\x11\x01\x03\x0e\x13\x05\x11\x01\x55\x17\0\0\
    \x02\x2e\0\x11\x01\x12\x06\x03\x0e\0\0\
    \0\
    \x2c\0\0\0\x04\0\0\0\0\0\x08\
    \x01\0\0\0\0\x0c\0\0\0\0\0\0\0\0\0\0\0\0\0\
    \x02\x50\x3f\0\0\x01\0\0\0\x2a\0\0\0\x04\0\0\0\
    \0\
    m.c\0main\0\
    \x50\x3f\0\0\x01\0\0\0\x7a\x3f\0\0\x01\0\0\0\0\0\0\0\0\0\0\0\0\0\0\0\0\0\0\0\
    \x2c\0\0\0\x02\0\0\0\0\0\x08\0\0\0\0\0\x50\x3f\0\0\x01\0\0\0\x2a\0\0\0\0\0\0\0\0\0\0\0\0\0\0\0\0\0\0\0\0\0\0\0";

/// The text of Info.plist for a program `a.out`.
pub(crate) const PLIST: &str = "\
<?xml version=\"1.0\" encoding=\"UTF-8\"?>\n\
<!DOCTYPE plist PUBLIC \"-//Apple Computer//DTD PLIST 1.0//EN\" \"http://www.apple.com/DTDs/PropertyList-1.0.dtd\">\n\
<plist version=\"1.0\">\n\
\t<dict>\n\
\t\t<key>CFBundleDevelopmentRegion</key>\n\
\t\t<string>English</string>\n\
\t\t<key>CFBundleIdentifier</key>\n\
\t\t<string>com.apple.xcode.dsym.a.out</string>\n\
\t\t<key>CFBundleInfoDictionaryVersion</key>\n\
\t\t<string>6.0</string>\n\
\t\t<key>CFBundlePackageType</key>\n\
\t\t<string>dSYM</string>\n\
\t\t<key>CFBundleSignature</key>\n\
\t\t<string>????</string>\n\
\t\t<key>CFBundleShortVersionString</key>\n\
\t\t<string>1.0</string>\n\
\t\t<key>CFBundleVersion</key>\n\
\t\t<string>1</string>\n\
\t</dict>\n\
</plist>\n";
