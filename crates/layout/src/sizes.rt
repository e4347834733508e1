//! The sizes of the sections, and the first that is too long.

ghost use Rattle.std.specs.Prelude.{◌≡◌, ◌+◌, ◌<◌, ◌^◌};
ghost use Rattle.layout.specs.Lengths.{common_size, lists_size, size_in, start_in};
ghost use Rattle.layout.specs.Pass.{AreBelow, first_long, is_long, long_in};

use crate::starts::Starts;
use crate::table::{Common, Content, Piece, SECTIONS, Section, piece_of};
use ds_base::Part;
use ds_base::limits::SECTION_BYTES;

/// How many bytes stand before the lists of a section of version 5 (DWARF 5, sections 7.28 and 7.29).
pub const LISTS_HEADER_LEN: u32 = 12;

/// The sizes in bytes of what the sections are made of.
#[derive(Clone, Copy)]
pub(crate) struct Sizes {
    /// Of what units give, each by itself.
    pub(crate) ends: Starts,
    /// Of what they give together.
    pub(crate) texts: u64,
    pub(crate) line_texts: u64,
    pub(crate) aranges: u64,
    pub(crate) frames: u64,
}

/// The size of a section in bytes.
pub(crate) fn size_of(sizes: &Sizes, content: Content) -> u128
    requires { AreBelow (2 ^ 127) sizes.now.ends }
    ensures { result ≡ size_in sizes.now content }
{
    match content {
        Content::Entries => sizes.ends.info,
        Content::Lines => sizes.ends.line,
        Content::Pieces(piece) => start_of(&sizes.ends, piece),
        Content::Lists(lists) => size_of_lists(start_of(&sizes.ends, piece_of(lists))),
        Content::Common(common) => u128::from(size_of_common(sizes, common)),
    }
}

/// Where the pieces of some kind end.
fn start_of(starts: &Starts, piece: Piece) -> u128
    ensures is { result ≡ start_in starts.now piece }
    ensures room { AreBelow (2 ^ 127) starts.now → result < 2 ^ 127 }
{
    match piece {
        Piece::Tables => starts.tables,
        Piece::Ranges => starts.ranges,
        Piece::Rnglists => starts.rnglists,
        Piece::Loc => starts.loc,
        Piece::Loclists => starts.loclists,
    }
}

/// The size of a section of version 5 with so many bytes of lists: they stand behind a header, where there are any.
fn size_of_lists(lists: u128) -> u128
    requires { lists < 2 ^ 127 }
    ensures { result ≡ lists_size lists }
{
    if lists == 0 {
        0
    } else {
        u128::from(LISTS_HEADER_LEN) + lists
    }
}

/// The size of what units give together.
fn size_of_common(sizes: &Sizes, common: Common) -> u64
    ensures { result ≡ common_size sizes.now common }
{
    match common {
        Common::Texts => sizes.texts,
        Common::LineTexts => sizes.line_texts,
        Common::Aranges => sizes.aranges,
        Common::Frames => sizes.frames,
    }
}

/// Whether a section of a size is too long.
fn is_too_long(size: u128) -> bool
    ensures { result ≡ is_long size }
{
    size >= u128::from(SECTION_BYTES)
}

/// A section that is too long by these sizes: the string section, else the first in the order of the output.
pub(crate) fn first_limit(sizes: &Sizes) -> Option<Part>
    requires { AreBelow (2 ^ 127) sizes.now.ends }
    ensures { result ≡ first_long (λ content. is_long (size_in sizes.now content)) }
{
    if is_too_long(u128::from(sizes.texts)) {
        return Some(Part::Str);
    }
    first_of(&SECTIONS, sizes)
}

/// The first of these sections that is too long.
fn first_of(sections: &[Section], sizes: &Sizes) -> Option<Part>
    requires { AreBelow (2 ^ 127) sizes.now.ends }
    ensures { result ≡ long_in (λ content. is_long (size_in sizes.now content)) sections.now }
{
    for section in sections {
        if is_too_long(size_of(sizes, section.content)) {
            return Some(section.part);
        }
    }
    None
}
