//! That the constants are the numbers of the standards, as definitions name them.

ghost use Rattle.ds_base.specs.SameNumbers.{AreDwarfNumbers, AreMachONumbers};

/// Each constant of [`crate::dwarf`] is the number of that name in `specs/DwarfNumbers.antt`.
pub fn dwarf_constants_are_the_standards()
    ensures { AreDwarfNumbers }
{}

/// Each constant of [`crate::macho`] is the number, or the text, of that name in `specs/MachONumbers.antt`.
pub fn mach_o_constants_are_the_standards()
    ensures { AreMachONumbers }
{}
