//! What a test claims. An assertion that tells what it is about costs much to prove, and these are proved once.
use std::process::Abort;

/// Ends the test where this doesn't hold, and tells what was claimed.
pub(crate) fn claim(rt: &impl Abort, holds: bool, what: &str) {
    assert!(rt; holds, "{what}");
}

/// The same, with a number, and what came in place of it.
pub(crate) fn claim_at(rt: &impl Abort, holds: bool, what: &str, number: u64, came: &str) {
    assert!(rt; holds, "{what} {number}: {came}");
}
