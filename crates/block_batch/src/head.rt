// The head of a batch.
ghost use Rattle.std.specs.Prelude.{◌≡◌, ◌+◌, ◌*◌, ◌≤◌, ◌<◌, ℕ, true, length, slice_index};
ghost use Rattle.block_device.specs.Blocks.{block};
ghost use Rattle.block_device.specs.Words.{word};
ghost use Rattle.block_batch.specs.Batch.{is_batch, number_in, count_in, place_in, block_digest};

use block_device::{BLOCK_SIZE, WORDS, spell_words};
use block_digest::{digest, digest_from};

/// The most blocks that a batch has.
pub const PLACES_MAX: usize = 254;

// The text `NSFBATCH` as a number.
pub(crate) const TEXT: u64 = 0x4E53_4642_4154_4348;

// Which number of the head is the first place, and which the digest of the numbers.
pub(crate) const FIRST_PLACE: usize = 3;

pub(crate) const DIGEST: usize = WORDS - 1;

/// What the head of a batch tells.
#[derive(Clone, Copy)]
pub struct Head {
    pub(crate) words: [u64; WORDS],
}

impl Head {
    ghost use Rattle.block_batch.specs.Head.{number_of, count_of, place_of};

    /// The number of the batch.
    pub fn number(&self) -> u64
        ensures { result ≡ number_of self.now }
    {
        self.words[1]
    }

    /// How many blocks it has.
    pub fn count(&self) -> u64
        ensures { result ≡ count_of self.now }
    {
        self.words[2]
    }

    /// The place of its i-th block.
    pub fn place(&self, i: usize) -> u64
        requires { i < PLACES_MAX }
        ensures { result ≡ place_of self.now i }
    {
        self.words[FIRST_PLACE + 2 * i]
    }
}

/// The digest of a block in its place.
pub fn block_digest(place: u64, bytes: &[u8; BLOCK_SIZE]) -> u64
    ensures { result ≡ block_digest place bytes.now }
{
    digest_from(place, bytes)
}

// The numbers of a head, but for the digest of them.
fn head_of(number: u64, places: &[u64], digests: &[u64]) -> [u64; WORDS]
    requires few { length places.now ≤ PLACES_MAX }
    requires size { length digests.now ≡ length places.now }
    ensures text { slice_index result 0 ≡ TEXT }
    ensures number { slice_index result 1 ≡ number }
    ensures count { slice_index result 2 ≡ length places.now }
    ensures places { (i : ℕ) → i < length places.now
        → slice_index result (3 + 2 * i) ≡ slice_index places.now i }
    ensures digests { (i : ℕ) → i < length places.now
        → slice_index result (4 + 2 * i) ≡ slice_index digests.now i }
    ensures rest { (i : ℕ) → 3 + 2 * length places.now ≤ i → slice_index result i ≡ 0 }
{
    let mut words = [0; WORDS];
    words[0] = TEXT;
    words[1] = number;
    words[2] = places.len() as u64;
    for i in 0..places.len() {
        words[FIRST_PLACE + 2 * i] = places[i];
        words[FIRST_PLACE + 2 * i + 1] = digests[i];
    }
    words
}

/// Makes a batch of an area whose blocks stand behind the place of its head: of this number, with the place and the
/// digest of each. The numbers of the head that it doesn't need are zero (`rest`).
pub fn seal(area: &mut [[u8; BLOCK_SIZE]], number: u64, places: &[u64], digests: &[u64])
    requires few { length places.now ≤ PLACES_MAX }
    requires room { length places.now < length area.old }
    requires size { length digests.now ≡ length places.now }
    requires digests { (i : ℕ) → i < length places.now
        → slice_index digests.now i ≡ block_digest (slice_index places.now i) (block area.old (1 + i)) }
    ensures batch { is_batch area.new ≡ true }
    ensures number { number_in area.new ≡ number }
    ensures count { count_in area.new ≡ length places.now }
    ensures places { (i : ℕ) → i < length places.now → place_in area.new i ≡ slice_index places.now i }
    ensures rest { (i : ℕ) → 3 + 2 * length places.now ≤ i → i < 511 → word (block area.new 0) i ≡ 0 }
    ensures blocks { (n : ℕ) → 0 < n → block area.new n ≡ block area.old n }
    ensures size { length area.new ≡ length area.old }
{
    let mut words = head_of(number, places, digests);
    let head = spell_words(&words);
    let digested = 8 * (FIRST_PLACE + 2 * places.len());
    words[DIGEST] = digest(&head[..digested]);
    area[0] = spell_words(&words);
}
