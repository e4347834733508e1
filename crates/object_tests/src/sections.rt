//! Sections that are read without an object around them.

ghost use Rattle.std.specs.Prelude.{◌≡◌};

use crate::parts::same;
use ds_base::{Cursor, Part};
use dwarf_types::{Field, RawValue, Sections, copy_units};
use form_value::read_value;
use unit_tree::read_units;

/// Sections that have texts beside these.
fn sections<'a>(info: &'a [u8], abbrev: &'a [u8]) -> Sections<'a>
    ensures { result.info.now ≡ info.now }
{
    Sections {
        info,
        abbrev,
        strings: b"m.c\0main\0",
        str_offs: b"",
        addr: b"",
        line: b"",
        line_str: b"a\0b",
        ranges: b"",
        rnglists: b"",
        loc: b"",
        loclists: b"",
        aranges: b"",
        frame: b"",
    }
}

/// The place among the texts of the sections of the text to which four bytes lead, by a form.
fn place_of(form: u16, bytes: &[u8; 4]) -> Option<u32> {
    let mut cursor = Cursor::new(bytes, Part::Info, 0, 4);
    let field = Field {
        name: 3,
        form,
        fixed: 0,
    };
    match read_value(&mut cursor, &field, 5, &sections(b"", b"")) {
        Ok(RawValue::Text { place, .. }) => place,
        _ => None,
    }
}

/// By strp and by line_strp. No clause tells the place, since a text that does not stand there is kept as a copy.
#[test]
fn a_text_has_a_place_behind_those_of_the_sections_before(rt: HostRuntime) {
    same(&rt, "`main`", place_of(0x0e, b"\x04\0\0\0"), Some(4));
    same(&rt, "`a`", place_of(0x1f, b"\0\0\0\0"), Some(9));
}

/// The unit has a name and no children, by the one declaration of its table.
#[test]
fn a_unit_is_read_by_its_table(rt: HostRuntime) {
    let info = b"\x0c\0\0\0\x04\0\0\0\0\0\x08\x01\x04\0\0\0";
    let abbrev = b"\x01\x11\0\x03\x0e\0\0\0";
    let read = read_units(rt.alloc(), &sections(info, abbrev)).expect(&rt, "units");
    let counts = (read.units.len(), read.entries.len());
    let twin = copy_units(rt.alloc(), &read).expect(&rt, "memory");
    drop(read);
    let copied = (twin.units.len(), twin.entries.len());
    drop(twin);
    same(&rt, "units and entries", counts, (1, 1));
    same(&rt, "of a copy", copied, (1, 1));
}
