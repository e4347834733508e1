//! The codes of the declarations so far, so that one which stands twice is found at once.

ghost use Rattle.std.specs.Prelude.{◌≡◌, ◌<◌, ◌||◌, ℕ, false, not, nat_eq, IfOk, OnOk};
ghost use Rattle.abbrev_read.specs.Run.{has_code};

use ds_base::NoMemory;
use std::alloc::Global;
use std::collections::BTreeSet;

/// Codes of declarations.
///
/// Compilers number the declarations of a table 1, 2, 3 and so on, and then a comparison tells that
/// a code is new.
#[derive(Drop)]
pub(crate) struct Codes {
    /// The codes from 1 to this one are there.
    run: u64,
    /// The codes that came out of turn.
    apart: BTreeSet<u64>,
}

impl Codes {
    /// No codes.
    pub(crate) fn new(alloc: Global) -> Codes
        ensures { (code : ℕ) → has_code result code ≡ false }
    {
        Codes {
            run: 0,
            apart: BTreeSet::new(alloc),
        }
    }

    /// Puts a code to the others, and tells whether it is new.
    pub(crate) fn add(&mut self, code: u64) -> Result<bool, NoMemory>
        requires { 0 < code }
        ensures new { IfOk result (λ new. new ≡ not (has_code self.old code)) }
        ensures added { OnOk result ((other : ℕ) → has_code self.new other ≡ (has_code self.old other || nat_eq code other)) }
    {
        if code <= self.run {
            return Ok(false);
        }
        if code == self.run + 1 {
            let new = !self.apart.contains(&code);
            self.run = code;
            return Ok(new);
        }
        let new = self.apart.insert(code)?;
        Ok(new)
    }
}
