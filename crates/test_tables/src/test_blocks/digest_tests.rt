//! Tests of the crate `block_digest`.
use block_device::BLOCK_SIZE;
use block_digest::{digest, digest_from};

// What the library libxxhash 0.8.1 answers for `XXH64` of these bytes. Each step is in one of them: stripes, words,
// half a word, and bytes.
static DIGESTS: [(&[u8], u64); 5] = [
    (b"", 0xEF46_DB37_51D8_E999),
    (b"a", 0xD24E_C4F1_A98C_6E5B),
    (b"abc", 0x44BC_2CF5_AD77_0999),
    (b"0123456", 0x97EE_4FE4_A0FF_4DFA),
    (
        b"Nobody inspects the spammish repetition",
        0xFBCE_A83C_8A37_8BF1,
    ),
];

// The same with a seed.
static SEEDED: [(u64, &[u8], u64); 2] = [
    (20141025, b"xxhash", 13067679811253438005),
    (1, &[0; BLOCK_SIZE], 9428967588016603102),
];

// Whether the digests are those.
fn are_digests() -> bool {
    for (bytes, wanted) in &DIGESTS {
        if digest(*bytes) != *wanted {
            return false;
        }
    }
    true
}

// Whether those with a seed are.
fn are_seeded() -> bool {
    for (seed, bytes, wanted) in &SEEDED {
        if digest_from(*seed, *bytes) != *wanted {
            return false;
        }
    }
    true
}

/// Whether all are.
pub(crate) fn are_known() -> bool {
    are_digests() && are_seeded()
}
