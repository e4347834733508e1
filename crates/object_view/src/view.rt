//! What every reader of an object's debug sections stands on.

use dwarf_types::Sections;
use macho_read::Image;
use object_read::DebugRelocs;

/// An object that was read, with the bytes of its debug sections, which are the file's.
#[derive(Clone, Copy)]
pub(crate) struct ObjectView<'a> {
    pub(crate) image: &'a Image,
    pub(crate) sections: Sections<'a>,
    pub(crate) relocs: &'a DebugRelocs,
}
