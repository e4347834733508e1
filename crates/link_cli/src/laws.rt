//! What the command answers, said of the files alone.

ghost use Rattle.std.specs.Prelude.{◌≡◌, ◌⊎◌, ℕ, List as Listed, Some};
ghost use Rattle.ds_files.specs.Outside.{Contents, Rose};
ghost use Rattle.link_status.specs.declared.status.Status.{Status as Ended};
ghost use Rattle.link_status.specs.declared.status.Status.TheVariants as statuses;
ghost use Rattle.link_cli.specs.Answer.{Links};
ghost use Rattle.link_cli.specs.Endings.{Said};
ghost use Rattle.link_program.specs.Files.{World};
ghost use Rattle.link_cli.specs.Told.{Answers, IsAnswerable, NoFault};

/// Where the files tell their contents, and their count of faults doesn't rise in the call, `link_main` ends as the words
/// and the contents alone determine, puts the message of that out, and leaves the files so; or memory ran out.
///
/// So a file is `Missing` only where it isn't there, neither `ReadFault` nor `WriteFault` comes, and each other refusal
/// has its cause in the words or the contents. A count that stands at 2^64 - 1, its last value, counts as risen. Of the
/// other two counts nothing is asked.
pub fn links_answer_what_is_told()
    ensures { (words : Listed (Listed ℕ)) (before after : World) (silent heard : Said) (status : Ended) (files : Contents) →
        Links words before after silent heard status → before.files ≡ Some files → NoFault before.counts after.counts →
        (now : Contents) × (after.files ≡ Some now) × Answers words files now silent heard status }
{}

/// Where the files tell their contents, neither their count of faults nor the sink's rises in the call, the words give a
/// plan, its program has no fault, and where it is to be linked all files are there or let go, none has a fault and no
/// limit is reached, the plan is done, or memory ran out. Of a plan with a generated program it is asked alone that its
/// objects have no fault and no limit is reached.
pub fn what_is_linkable_is_linked()
    ensures { (words : Listed (Listed ℕ)) (before after : World) (silent heard : Said) (status : Ended) (files : Contents) →
        Links words before after silent heard status → before.files ≡ Some files → NoFault before.counts after.counts → (Rose silent.faults heard.faults → ⊥) →
        IsAnswerable words files → (status ≡ statuses.Done) ⊎ (status ≡ statuses.NoMemory) }
{}
