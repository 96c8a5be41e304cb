//! The digest of bytes: xxHash64, a hash of 64 bits.
//!
//! Proved: `digest` gives it with the seed 0, and `digest_from` with any seed. Tested by `test_tables`: what another
//! program's hash of the same bytes is.
#![tactic(auto)]

ghost use Rattle.std.specs.Prelude.{◌≡◌};
ghost use Rattle.block_digest.specs.Digest.{digest, digest_from};

use crate::steps::{begun, mixed, with_bytes, with_half, with_words};

mod steps;

/// The digest of these bytes, with a seed.
pub fn digest_from(seed: u64, bytes: &[u8]) -> u64
    ensures { result ≡ digest_from seed bytes.now }
{
    let size = bytes.len();
    let sum = begun(seed, bytes).wrapping_add(size as u64);
    let words = with_words(bytes, size / 32 * 32, sum, size % 32 / 8);
    let halves = with_half(bytes, words);
    mixed(with_bytes(bytes, size / 4 * 4, halves, size % 4))
}

/// The digest of these bytes, with the seed 0.
pub fn digest(bytes: &[u8]) -> u64
    ensures { result ≡ digest bytes.now }
{
    digest_from(0, bytes)
}
