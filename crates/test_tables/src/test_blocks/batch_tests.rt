//! Tests of the crate `block_batch`.
use block_batch::{block_digest, seal};
use block_device::{BLOCK_SIZE, WORDS, words_of};

// The first words of an area with a batch of two blocks: the text `NSFBATCH`, the number of the batch, how many blocks
// it has, and each one's place and digest. The digests are those of libxxhash 0.8.1 over the same bytes, with the
// places as seeds.
static HEAD: [u64; 8] = [
    0x4E53_4642_4154_4348,
    7,
    2,
    5,
    6797217502705504043,
    2,
    4580890504158360682,
    0,
];

// What that library answers over the words before the last, which it is.
const LAST: u64 = 14305687474596507481;

// The first block of an area in which two were sealed.
fn sealed() -> [u64; WORDS] {
    let mut area = [
        [9; BLOCK_SIZE],
        [1; BLOCK_SIZE],
        [2; BLOCK_SIZE],
        [3; BLOCK_SIZE],
    ];
    let digests = [block_digest(5, &area[1]), block_digest(2, &area[2])];
    seal(&mut area, 7, &[5, 2], &digests);
    words_of(&area[0])
}

/// Whether a batch is so, word by word.
pub(crate) fn is_sealed() -> bool {
    let words = sealed();
    words.starts_with(&HEAD) && words[WORDS - 1] == LAST
}
