//! For what the objects of a program are read.

ghost use Rattle.std.specs.Prelude.{◌≡◌};
ghost use Rattle.link_core.specs.Linked as spec;

use crate::program::Program;
use object_reads::Target;

/// The CPU type and subtype of slices, and the CPU type in the program's header.
pub(crate) fn target_of(program: &Program) -> Target
    ensures { result ≡ spec.target_of program.now.arch program.now.image.now }
{
    Target {
        arch: program.arch,
        cpu: program.image.cpu,
    }
}
