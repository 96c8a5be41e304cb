// A block as numbers.
ghost use Rattle.std.specs.Prelude.{◌≡◌, ◌<◌, ℕ, slice_index};
ghost use Rattle.std.specs.List.{flat_map};
ghost use Rattle.byteorder.specs.Endian.{big_bytes};
ghost use Rattle.block_device.specs.Words.{word};

use crate::BLOCK_SIZE;
use byteorder::{BigEndian, ByteOrder};

/// The numbers of a block.
pub const WORDS: usize = 512;

/// The numbers that a block spells.
#[tactic(auto, unfolding(crate::specs::Words::word))]
pub fn words_of(bytes: &[u8; BLOCK_SIZE]) -> [u64; WORDS]
    ensures { (i : ℕ) → i < WORDS → slice_index result i ≡ word bytes.now i }
{
    let mut words = [0; WORDS];
    BigEndian::read_u64_into(bytes, &mut words);
    words
}

/// The block that spells these numbers.
pub fn spell_words(words: &[u64; WORDS]) -> [u8; BLOCK_SIZE]
    ensures spelled { result ≡ flat_map (big_bytes 8) words.now }
    ensures again { (i : ℕ) → i < WORDS → word result i ≡ slice_index words.now i }
{
    let mut bytes = [0; BLOCK_SIZE];
    BigEndian::write_u64_into(words, &mut bytes);
    bytes
}
