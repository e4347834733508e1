//! What the tables share: how what a call answers is compared.

use std::process::Abort;

/// What was seen is what was wanted.
pub(crate) fn same<T: Copy + PartialEq>(rt: &impl Abort, seen: T, want: T) {
    assert!(rt; seen == want);
}
