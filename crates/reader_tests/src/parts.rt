//! What the runs share: an object, and its sections.

ghost use Rattle.std.specs.Prelude.{◌≡◌, length};
ghost use Rattle.macho_read.specs.Sound.{IsSound as IsSoundImage};
ghost use Rattle.reloc_table.specs.Sound.{IsSound};

use ds_base::List;
use dwarf_types::Sections;
use macho_read::{Image, Symbols};
use reloc_table::Relocs;
use std::alloc::Global;

/// An object without sections, symbols and relocations.
#[derive(Drop)]
pub(crate) struct Object {
    pub(crate) image: Image,
    pub(crate) relocs: Relocs,
}

pub(crate) fn bare_object(alloc: Global) -> Object
    ensures image { IsSoundImage result.image }
    ensures relocs { IsSound result.image result.relocs }
{
    let image = Image {
        cpu: 0x0100_000c,
        sub: 0,
        filetype: 1,
        uuid: None,
        segments: List::new(alloc),
        sections: List::new(alloc),
        symbols: Symbols::new(alloc),
    };
    Object {
        image,
        relocs: Relocs {
            list: List::new(alloc),
        },
    }
}

/// An object's sections, of which each that is read has these bytes.
pub(crate) fn sections<'a>(bytes: &'a [u8]) -> Sections<'a>
    ensures addr { length result.addr.now ≡ 0 }
    ensures line { result.line.now ≡ bytes.now }
    ensures rnglists { result.rnglists.now ≡ bytes.now }
    ensures loclists { result.loclists.now ≡ bytes.now }
    ensures frame { result.frame.now ≡ bytes.now }
{
    Sections {
        info: b"",
        abbrev: b"",
        strings: b"",
        str_offs: b"",
        addr: b"",
        line: bytes,
        line_str: b"",
        ranges: bytes,
        rnglists: bytes,
        loc: bytes,
        loclists: bytes,
        aranges: b"",
        frame: bytes,
    }
}
