//! A sink for messages.

/// The sink failed, and took none, some or all of the bytes.
#[derive(Clone, Copy, Debug, PartialEq, Eq)]
pub struct SinkFailed;

/// Takes bytes, one piece after the other, and asks for no memory.
///
/// `text` are all bytes that were taken, where they are told. `calls` says how many calls there were, and `faults` how
/// often one failed. Neither ever falls, and at 2^64 - 1, its last value, it counts as risen. A call that goes well counts
/// no failure.
pub trait Sink {
    ghost use Rattle.std.specs.Prelude.{◌≡◌, ◌≤◌, ℕ, List, ◌++◌, OnOk, OnErr, option_map};
    ghost use Rattle.std.specs.declared.option.Option.{Option as Maybe};
    ghost use Rattle.ds_files.specs.Outside.{Rose, PrefixAdded, one_more};

    /// All bytes that were taken, where they are told.
    ghost text: { Self → Maybe (List ℕ) };

    /// How many calls there were, however they ended.
    ghost calls: { Self → ℕ };

    /// How often a call failed.
    ghost faults: { Self → ℕ };

    /// Takes all the bytes, behind those it took before. Where it fails, it took the first of them, perhaps none.
    fn put(&mut self, bytes: &[u8]) -> Result<(), SinkFailed>
        ensures done { OnOk result (text self.new ≡ option_map (λ t. t ++ bytes.now) (text self.old)) }
        ensures quiet { OnOk result (faults self.new ≡ faults self.old) }
        ensures failed { OnErr result (Rose (faults self.old) (faults self.new) × PrefixAdded bytes.now (text self.old) (text self.new)) }
        ensures called { calls self.new ≡ one_more (calls self.old) }
        ensures later { faults self.old ≤ faults self.new };
}
