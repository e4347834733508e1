//! The laws above the definitions.

ghost use Rattle.std.specs.Prelude.{◌≡◌, ◌≤◌, ℕ, ◌++◌, false, List as Listed, [], ◌∷◌, length, Some, Ok, Err};
ghost use Rattle.std.specs.List.{Contains};
ghost use Rattle.ds_base.specs.declared.fault.Fault.{Fault};
ghost use Rattle.ds_base.specs.declared.fault.Kind.TheVariants.{BadUniversal, Truncated, WrongCpu};
ghost use Rattle.universal.specs.declared.choosing.Arch.{Arch};
ghost use Rattle.universal.specs.declared.parts.Thin.{Thin};
ghost use Rattle.universal.specs.declared.records.Slice.{Slice};
ghost use Rattle.universal.specs.Choice.{slice_for};
ghost use Rattle.universal.specs.Joined.{joined, page_zeros, unheaded};
ghost use Rattle.universal.specs.Laws.{Refuses, SlicesReadBack};
ghost use Rattle.universal.specs.Records.{AreWithin, is_universal, slices_of};

/// A file of 1 to 16 joined parts that has less than 2^32 bytes is read back: its slices are those of the parts, in their
/// order, and each has the bytes of its part.
pub fn slices_read_back()
    ensures { SlicesReadBack }
{}

/// A universal file has 1 to 16 slices, and each lies in it.
pub fn slices_lie_in_the_file()
    ensures { (bytes : Listed ℕ) (slices : Listed Slice) → slices_of bytes ≡ Ok (Some slices) → AreWithin bytes slices }
{}

/// Each fault of a universal file has its cause, which says its place, and no cause that is tried before.
pub fn universal_faults_have_causes()
    ensures { (bytes : Listed ℕ) (f : Fault) → slices_of bytes ≡ Err f → Refuses bytes f }
{}

/// Each fault of a file's slice for a CPU is of one of these kinds; those of its slices are the first two.
pub fn kinds_of_universal_faults()
    ensures slices { (bytes : Listed ℕ) (f : Fault) → slices_of bytes ≡ Err f → Contains (Truncated ∷ BadUniversal ∷ []) f.kind }
    ensures slice { (arch : Arch) (file : Listed ℕ) (f : Fault) → slice_for arch file ≡ Err f → Contains (Truncated ∷ BadUniversal ∷ WrongCpu ∷ []) f.kind }
{}

/// A file that isn't universal stands for itself on each CPU; so a slice that isn't universal does, and to cut it again
/// changes nothing.
pub fn thin_files_stand_for_themselves()
    ensures { (arch : Arch) (file : Listed ℕ) → is_universal file ≡ false → slice_for arch file ≡ Ok file }
{}

/// A file that is made in place has one part more, once zeros up to the next page and the part's bytes are put last. Of 1
/// to 16 parts it is as long as the joined file.
pub fn parts_are_appended()
    ensures appended { (parts : Listed Thin) (part : Thin) →
        unheaded (parts ++ part ∷ []) ≡ unheaded parts ++ (page_zeros (length (unheaded parts)) ++ part.bytes) }
    ensures size { (parts : Listed Thin) → 1 ≤ length parts → length parts ≤ 16 → length (unheaded parts) ≡ length (joined parts) }
{}
