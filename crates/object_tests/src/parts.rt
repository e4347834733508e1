//! What the tests share: how what a call answers is compared.

use std::process::Abort;

/// What was seen is what was wanted.
pub(crate) fn same<T: Copy + PartialEq>(rt: &impl Abort, label: &str, seen: T, want: T) {
    assert!(rt; seen == want, "{label}");
}
