//! The law of programs' files.

ghost use Rattle.sample_objects.specs.ProgramFile.{ProgramsReadBack};

/// The file of an image is read as that image, if all that the image says fits its fields.
pub fn programs_read_back()
    ensures { ProgramsReadBack }
{}
