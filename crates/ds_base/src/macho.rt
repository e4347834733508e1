//! The numbers of Mach-O under the names of Apple's headers.

// mach-o/loader.h: the header of a 64-bit file.
pub const MH_MAGIC_64: u32 = 0xfeed_facf;

pub const MH_OBJECT: u32 = 1;

pub const MH_EXECUTE: u32 = 2;

pub const MH_DYLIB: u32 = 6;

pub const MH_BUNDLE: u32 = 8;

pub const MH_DSYM: u32 = 10;

// mach/machine.h: the CPU types that are read.
pub const CPU_TYPE_X86_64: u32 = 0x0100_0007;

pub const CPU_TYPE_ARM64: u32 = 0x0100_000c;

// mach-o/loader.h: load commands.
pub const LC_SYMTAB: u32 = 0x02;

pub const LC_SEGMENT_64: u32 = 0x19;

pub const LC_UUID: u32 = 0x1b;

// mach-o/loader.h, mach-o/nlist.h, mach-o/reloc.h, ar.h: sizes of records in bytes.
pub const MACH_HEADER_64_SIZE: u32 = 32;

pub const SEGMENT_COMMAND_64_SIZE: u32 = 72;

pub const SECTION_64_SIZE: u32 = 80;

pub const SYMTAB_COMMAND_SIZE: u32 = 24;

pub const UUID_COMMAND_SIZE: u32 = 24;

pub const NLIST_64_SIZE: u32 = 16;

pub const RELOCATION_INFO_SIZE: u32 = 8;

pub const AR_HDR_SIZE: u32 = 60;

// mach-o/fat.h: what a universal file begins with, and the sizes of its header and of a record in bytes. Its numbers have
// the highest byte first.
pub const FAT_MAGIC: u32 = 0xcafe_babe;

pub const FAT_HEADER_SIZE: u32 = 8;

pub const FAT_ARCH_SIZE: u32 = 20;

// mach/machine.h: the bits of a CPU subtype that say what the code may do, and not which CPU it is for.
pub const CPU_SUBTYPE_MASK: u32 = 0xff00_0000;

// mach-o/loader.h: names of segments and sections, padded with zeros to 16 bytes.
pub const SEG_TEXT: [u8; 16] = *b"__TEXT\0\0\0\0\0\0\0\0\0\0";

pub const SEG_DWARF: [u8; 16] = *b"__DWARF\0\0\0\0\0\0\0\0\0";

pub const SECT_TEXT: [u8; 16] = *b"__text\0\0\0\0\0\0\0\0\0\0";

pub const SECT_DEBUG_ABBREV: [u8; 16] = *b"__debug_abbrev\0\0";

pub const SECT_DEBUG_INFO: [u8; 16] = *b"__debug_info\0\0\0\0";

pub const SECT_DEBUG_STR: [u8; 16] = *b"__debug_str\0\0\0\0\0";

pub const SECT_DEBUG_STR_OFFS: [u8; 16] = *b"__debug_str_offs";

pub const SECT_DEBUG_ADDR: [u8; 16] = *b"__debug_addr\0\0\0\0";

pub const SECT_DEBUG_LINE: [u8; 16] = *b"__debug_line\0\0\0\0";

pub const SECT_DEBUG_LINE_STR: [u8; 16] = *b"__debug_line_str";

pub const SECT_DEBUG_RANGES: [u8; 16] = *b"__debug_ranges\0\0";

pub const SECT_DEBUG_RNGLISTS: [u8; 16] = *b"__debug_rnglists";

pub const SECT_DEBUG_LOC: [u8; 16] = *b"__debug_loc\0\0\0\0\0";

pub const SECT_DEBUG_LOCLISTS: [u8; 16] = *b"__debug_loclists";

pub const SECT_DEBUG_ARANGES: [u8; 16] = *b"__debug_aranges\0";

pub const SECT_DEBUG_FRAME: [u8; 16] = *b"__debug_frame\0\0\0";

pub const SECT_APPLE_NAMES: [u8; 16] = *b"__apple_names\0\0\0";

pub const SECT_APPLE_TYPES: [u8; 16] = *b"__apple_types\0\0\0";

pub const SECT_APPLE_NAMESPACES: [u8; 16] = *b"__apple_namespac";

/// What the name of each compressed debug section begins with.
pub const SECT_ZDEBUG: [u8; 8] = *b"__zdebug";

// mach-o/loader.h: a type, which is the lowest byte of a section's flags, and attributes there.
pub const S_ZEROFILL: u32 = 0x01;

pub const S_ATTR_DEBUG: u32 = 0x0200_0000;

// mach/vm_prot.h: protections of a segment.
pub const VM_PROT_READ: u32 = 0x01;

pub const VM_PROT_WRITE: u32 = 0x02;

pub const VM_PROT_EXECUTE: u32 = 0x04;

/// Reading, writing and running.
pub const VM_PROT_ALL: u32 = 0x07;

/// Reading and writing.
pub const VM_PROT_DEFAULT: u32 = 0x03;

// mach-o/nlist.h: the fields and the values of a symbol's n_type.
pub const N_STAB: u8 = 0xe0;

pub const N_TYPE: u8 = 0x0e;

pub const N_EXT: u8 = 0x01;

pub const N_UNDF: u8 = 0x00;

pub const N_ABS: u8 = 0x02;

pub const N_SECT: u8 = 0x0e;

// mach-o/stab.h: the kinds of stabs.
pub const N_GSYM: u8 = 0x20;

pub const N_FUN: u8 = 0x24;

pub const N_STSYM: u8 = 0x26;

pub const N_LCSYM: u8 = 0x28;

pub const N_BNSYM: u8 = 0x2e;

pub const N_AST: u8 = 0x32;

pub const N_ENSYM: u8 = 0x4e;

pub const N_SO: u8 = 0x64;

pub const N_OSO: u8 = 0x66;

// mach-o/x86_64/reloc.h and mach-o/arm64/reloc.h: the plain relocation, and the length of 8 bytes in
// powers of two (mach-o/reloc.h).
pub const X86_64_RELOC_UNSIGNED: u8 = 0;

pub const ARM64_RELOC_UNSIGNED: u8 = 0;

pub const RELOC_LENGTH_8: u8 = 3;

// mach-o/reloc.h: the bit of `r_address` that is set in a scattered relocation.
pub const R_SCATTERED: u32 = 0x8000_0000;

// ar.h: the bytes an archive begins with, those that end a member's header, and those that a long name's
// length follows.
pub const ARMAG: [u8; 8] = *b"!<arch>\n";

pub const ARFMAG: [u8; 2] = *b"`\n";

pub const AR_EFMT1: [u8; 3] = *b"#1/";
