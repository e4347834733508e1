//! The sections that an object's debugging information is read from.

ghost use Rattle.std.specs.Prelude.{◌≡◌};
ghost use Rattle.dwarf_types.specs.SectionBytes.{bytes_in, location_bytes, range_bytes};

use ds_base::dwarf::DWARF_5;

/// The bytes of an object's debug sections; a section that is not there has none.
#[derive(Clone, Copy)]
pub struct Sections<'a> {
    /// `__debug_info`.
    pub info: &'a [u8],
    /// `__debug_abbrev`.
    pub abbrev: &'a [u8],
    /// `__debug_str`.
    pub strings: &'a [u8],
    /// `__debug_str_offs`.
    pub str_offs: &'a [u8],
    /// `__debug_addr`.
    pub addr: &'a [u8],
    /// `__debug_line`.
    pub line: &'a [u8],
    /// `__debug_line_str`.
    pub line_str: &'a [u8],
    /// `__debug_ranges`.
    pub ranges: &'a [u8],
    /// `__debug_rnglists`.
    pub rnglists: &'a [u8],
    /// `__debug_loc`.
    pub loc: &'a [u8],
    /// `__debug_loclists`.
    pub loclists: &'a [u8],
    /// `__debug_aranges`.
    pub aranges: &'a [u8],
    /// `__debug_frame`.
    pub frame: &'a [u8],
}

impl<'a> Sections<'a> {
    /// The section of the range lists of a unit of this version: `__debug_rnglists` in version 5, else
    /// `__debug_ranges`.
    pub fn range_lists(&self, version: u16) -> &'a [u8]
        ensures { result.now ≡ range_bytes (bytes_in self.now) version }
    {
        if version == DWARF_5 {
            self.rnglists
        } else {
            self.ranges
        }
    }

    /// The section of its location lists: `__debug_loclists` in version 5, else `__debug_loc`.
    pub fn location_lists(&self, version: u16) -> &'a [u8]
        ensures { result.now ≡ location_bytes (bytes_in self.now) version }
    {
        if version == DWARF_5 {
            self.loclists
        } else {
            self.loc
        }
    }
}
