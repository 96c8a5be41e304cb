//! Tests of the crates `block_digest` and `block_batch`: digests, and the head of a batch, against those of another
//! program and of the format document; and that there is a file in memory (`block_device`).
//!
//! What is read of a batch, and what a crash leaves of a file, clauses say (`read`, `crash`).

mod batch_tests;
mod device_tests;
mod digest_tests;

use crate::values::claim;
use batch_tests::is_sealed;
use device_tests::is_made;
use digest_tests::are_known;

#[test]
fn digests_and_batches(rt: HostRuntime) {
    claim(&rt, is_sealed(), "a batch word by word");
    claim(&rt, is_made(rt.alloc()), "a file in memory");
    claim(&rt, are_known(), "digests of known bytes");
}
