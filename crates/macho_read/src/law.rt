//! The laws above the definitions: what is spelled by the records is read back, and of which kinds faults are.

ghost use Rattle.std.specs.Prelude.{◌≡◌, ℕ, List as Listed, [], ◌∷◌, Err};
ghost use Rattle.std.specs.List.{Contains, flat_map};
ghost use Rattle.ds_base.specs.declared.fault.Fault.{Fault};
ghost use Rattle.ds_base.specs.declared.fault.Kind.TheVariants.{AlreadyLinked, BadCommand, BadFileType, BadSection, BadSymbols, CompressedSection, NotMachO, Truncated, WrongCpu};
ghost use Rattle.macho_read.specs.declared.image.Image.{Image};
ghost use Rattle.macho_read.specs.declared.image.Section.{Section};
ghost use Rattle.macho_read.specs.declared.kind.Role.{Role};
ghost use Rattle.macho_read.specs.Debug.{section_in};
ghost use Rattle.macho_read.specs.Image.{image_of};
ghost use Rattle.macho_read.specs.ImageSpelling.{ImagesReadBack};
ghost use Rattle.macho_read.specs.Kind.{kind_of, with_sections};
ghost use Rattle.macho_read.specs.Sound.{IsSound};
ghost use Rattle.macho_read.specs.Spelling.{CommandsReadBack, RecordsReadBack};

/// A segment command, a section record and a symbol table command (mach-o/loader.h), spelled field by field,
/// are cut back into their fields.
pub fn records_read_back()
    ensures { RecordsReadBack }
{}

/// Load commands that follow one another are read back, each with all its bytes.
pub fn commands_read_back()
    ensures { CommandsReadBack }
{}

/// A file that is spelled by its records is read back: its header, its segments and their sections, its
/// first UUID, and the symbols of its first symbol table with their names.
pub fn images_read_back()
    ensures { ImagesReadBack }
{}

/// The segments of a sound image have all its sections as their own, one segment after the other.
pub fn segments_have_all_sections()
    ensures { (image : Image) → IsSound image → flat_map (λ segment. segment.1) (with_sections image.segments image.sections) ≡ image.sections }
{}

/// Each fault of an image is of one of these kinds.
pub fn kinds_of_image_faults()
    ensures { (bytes : Listed ℕ) (f : Fault) →
        image_of bytes ≡ Err f → Contains (Truncated ∷ NotMachO ∷ WrongCpu ∷ BadCommand ∷ BadSymbols ∷ []) f.kind }
{}

/// Each fault of an image in a role is of one of these kinds.
pub fn kinds_of_role_faults()
    ensures { (image : Image) (role : Role) (f : Fault) →
        kind_of image role ≡ Err f → Contains (BadFileType ∷ WrongCpu ∷ AlreadyLinked ∷ []) f.kind }
{}

/// Each fault of a debug section's bytes is of one of these kinds.
pub fn kinds_of_section_faults()
    ensures { (bytes : Listed ℕ) (section : Section) (index : ℕ) (f : Fault) →
        section_in bytes section index ≡ Err f → Contains (CompressedSection ∷ BadSection ∷ []) f.kind }
{}
