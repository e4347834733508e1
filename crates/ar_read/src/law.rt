//! The laws above the definition of an archive's members.

ghost use Rattle.std.specs.Prelude.{◌≡◌, ◌≤◌, ℕ, List, [], ◌∷◌, length, Err};
ghost use Rattle.std.specs.List.{Contains};
ghost use Rattle.ds_base.specs.declared.fault.Fault.{Fault};
ghost use Rattle.ds_base.specs.declared.fault.Kind.TheVariants.{BadMember, NoMember, NotArchive};
ghost use Rattle.ar_read.specs.Archive.{Fill, member_of, members_of};
ghost use Rattle.ar_read.specs.Spelling.{ArchivesReadBack};

/// The members of an archive follow each other without a gap from behind the magic to the archive's end, or to the
/// first header that is wrong.
pub fn members_fill_the_archive()
    ensures { (bytes : List ℕ) → 8 ≤ length bytes → Fill bytes 8 (members_of bytes).members (members_of bytes).stop }
{}

/// An archive that is spelled by its members is read back as these: of each name the content of the first of them.
pub fn archives_read_back()
    ensures { ArchivesReadBack }
{}

/// Each fault of a member is of one of these kinds.
pub fn kinds_of_member_faults()
    ensures { (bytes name : List ℕ) (f : Fault) →
        member_of bytes name ≡ Err f → Contains (NotArchive ∷ BadMember ∷ NoMember ∷ []) f.kind }
{}
