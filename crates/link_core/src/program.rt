//! What is linked.

ghost use Rattle.std.specs.Prelude.{◌≡◌, Ok};
ghost use Rattle.macho_read.specs.declared.kind.Role.TheVariants as roles;
ghost use Rattle.macho_read.specs.Kind.{kind_of};
ghost use Rattle.macho_read.specs.Sound.{IsSound};

use macho_read::Image;
use universal::Arch;

/// A program that was linked: an executable, a library or a bundle, or a slice of a universal one.
#[derive(Drop)]
pub struct Program<'a> {
    /// For which slices of universal files its objects are read: the CPU type and subtype of its record in a universal file,
    /// or those in its header.
    pub arch: Arch,
    /// Its headers, segments and symbols.
    pub image: &'a Image,
    ghost sound: { IsSound image.now },
    ghost kind: { kind_of image.now roles.Program ≡ Ok tt },
}
