//! The sections of the output, in a table.

ghost use Rattle.std.specs.Prelude.{◌≡◌};
ghost use Rattle.layout.specs.Lengths.{piece_in};

use ds_base::Part;

/// A piece that each unit gives to a section, and that is copied as it is.
#[derive(Clone, Copy)]
pub enum Piece {
    /// Its abbreviations.
    Tables,
    /// Its range lists of version 4.
    Ranges,
    /// Its range lists of version 5.
    Rnglists,
    /// Its location lists of version 4.
    Loc,
    /// Its location lists of version 5.
    Loclists,
}

/// Lists that stand behind the header of their section.
#[derive(Clone, Copy)]
pub enum Listed {
    /// Range lists of version 5.
    Ranges,
    /// Location lists of version 5.
    Locations,
}

/// What all units give together.
#[derive(Clone, Copy)]
pub enum Common {
    /// The texts of entries.
    Texts,
    /// The texts of line tables.
    LineTexts,
    /// The addresses of code.
    Aranges,
    /// The frame descriptions.
    Frames,
}

/// What a section is made of.
#[derive(Clone, Copy)]
pub enum Content {
    /// The entries of each unit, one unit behind the other, filled with what stands outside of the unit.
    Entries,
    /// The line table of each unit, likewise.
    Lines,
    /// A piece of each unit, one behind the other.
    Pieces(Piece),
    /// Pieces that are lists, behind the header of their section where there are any.
    Lists(Listed),
    /// What is made of all units together.
    Common(Common),
}

/// A section.
#[derive(Clone, Copy)]
pub struct Section {
    pub part: Part,
    pub content: Content,
}

/// The sections, in the order of the output.
pub const SECTIONS: [Section; 11] = [
    Section {
        part: Part::Abbrev,
        content: Content::Pieces(Piece::Tables),
    },
    Section {
        part: Part::Info,
        content: Content::Entries,
    },
    Section {
        part: Part::Str,
        content: Content::Common(Common::Texts),
    },
    Section {
        part: Part::Line,
        content: Content::Lines,
    },
    Section {
        part: Part::LineStr,
        content: Content::Common(Common::LineTexts),
    },
    Section {
        part: Part::Ranges,
        content: Content::Pieces(Piece::Ranges),
    },
    Section {
        part: Part::Rnglists,
        content: Content::Lists(Listed::Ranges),
    },
    Section {
        part: Part::Loc,
        content: Content::Pieces(Piece::Loc),
    },
    Section {
        part: Part::Loclists,
        content: Content::Lists(Listed::Locations),
    },
    Section {
        part: Part::Aranges,
        content: Content::Common(Common::Aranges),
    },
    Section {
        part: Part::Frame,
        content: Content::Common(Common::Frames),
    },
];

/// Which piece of a unit lists are.
pub fn piece_of(lists: Listed) -> Piece
    ensures { result ≡ piece_in lists }
{
    match lists {
        Listed::Ranges => Piece::Rnglists,
        Listed::Locations => Piece::Loclists,
    }
}
