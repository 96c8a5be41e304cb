//! Bytes that lie in the value itself.
ghost use Rattle.std.specs.Prelude.{◌≡◌, ◌≤◌, ◌↔◌, Some, IsSome, IfSome, length, nat_eq, refl};
ghost use Rattle.std.specs.Ordering.{nat_cmp};
ghost use Rattle.std.specs.Cmp.{on_equiv, on_total, on_po, on_per, partial_equiv_from_equiv};
ghost use Rattle.std.specs.Cmp.Lexicographic.{pointwise, slice_cmp, nat_list_eq_equiv, nat_list_cmp_total, texts_po};
ghost use Rattle.std.specs.Cmp.Lexicographic.{texts_ties};

use std::cmp::Ordering;
use std::fmt;
use std::marker::Model;

// The most bytes that a length of one byte can tell.
const LEN_MAX: usize = 255;

/// At most `MAX` bytes, and at most 255. The unused ones are zero.
#[derive(Clone, Copy)]
pub struct ShortBytes<const MAX: usize> {
    bytes: [u8; MAX],
    len: u8,
}

impl<const MAX: usize> Model for ShortBytes<MAX> {
    ghost use Rattle.std.specs.Prelude.{◌≡◌, ◌≤◌, ◌-◌, ◌++◌, ℕ, List, length, take, drop, replicate};
    ghost use Rattle.record_values.specs.Padded.{bytes_back, length_back};

    ghost Value = { List ℕ };

    ghost view = { λ s. take s.len s.bytes };

    ghost invariant = { λ s. (s.len ≤ MAX) × (length s.bytes ≡ MAX)
        × (drop s.len s.bytes ≡ replicate (MAX - s.len) 0) };

    ghost inverse = { λ xs. record { bytes = xs ++ replicate (MAX - length xs) 0; len = length xs } };

    ghost inverse_ok = { λ s h i. record {
      bytes = bytes_back s.len MAX s.bytes h.0 h.1 h.2 i;
      len = length_back s.len MAX s.bytes h.0 h.1 i;
    } };
}

impl<const MAX: usize> ShortBytes<MAX> {
    /// These bytes, where they fit: no more than `MAX`, and no more than 255.
    pub fn new(bytes: &[u8]) -> Option<Self>
        ensures fits { IsSome result ↔ ((length bytes.now ≤ MAX) × (length bytes.now ≤ LEN_MAX)) }
        ensures value { IfSome result (λ s. s ≡ bytes.now) }
    {
        if bytes.len() > MAX || bytes.len() > LEN_MAX {
            return None;
        }
        let mut held = [0; MAX];
        held[..bytes.len()].copy_from_slice(bytes);
        Some(ShortBytes {
            bytes: held,
            len: bytes.len() as u8,
        })
    }

    /// The bytes.
    pub fn as_slice(&self) -> &[u8]
        ensures value { result.now ≡ self.now }
        ensures fits { length result.now ≤ MAX }
    {
        &self.bytes[..self.len as usize]
    }
}

// How many bytes are compared at once.
const WORD: usize = 8;

// The order of as many bytes, word by word.
fn order(some: &[u8], other: &[u8]) -> Ordering
    requires { length some.now ≡ length other.now }
    ensures { result ≡ slice_cmp nat_cmp some.now other.now }
{
    let (words, rest) = some.as_chunks::<WORD>();
    let (other_words, other_rest) = other.as_chunks::<WORD>();
    for i in 0..words.len() {
        let word = u64::from_be_bytes(words[i]);
        let other_word = u64::from_be_bytes(other_words[i]);
        if word != other_word {
            return word.cmp(&other_word);
        }
    }
    rest.cmp(other_rest)
}

impl<const MAX: usize> PartialEq for ShortBytes<MAX> {
    ghost eq = { λ s t. pointwise nat_eq s t };

    ghost laws = { partial_equiv_from_equiv nat_list_eq_equiv };

    fn eq(&self, other: &Self) -> bool {
        self.as_slice() == other.as_slice()
    }
}

impl<const MAX: usize> Eq for ShortBytes<MAX> {
    ghost laws = { nat_list_eq_equiv };
}

impl<const MAX: usize> PartialOrd for ShortBytes<MAX> {
    ghost partial_cmp = { λ s t. Some (slice_cmp nat_cmp s t) };

    ghost laws = { texts_po };

    fn partial_cmp(&self, other: &Self) -> Option<Ordering> {
        Some(self.cmp(other))
    }
}

impl<const MAX: usize> Ord for ShortBytes<MAX> {
    ghost cmp = { slice_cmp nat_cmp };

    ghost total = { nat_list_cmp_total };

    ghost matches_partial_cmp = { λ s t. refl };

    ghost matches_eq = { texts_ties };

    fn cmp(&self, other: &Self) -> Ordering {
        order(&self.bytes, &other.bytes).then(self.len.cmp(&other.len))
    }
}

impl<const MAX: usize> fmt::Debug for ShortBytes<MAX> {
    fn fmt<W: fmt::Write>(&self, f: &mut fmt::Formatter<W>) -> fmt::Result {
        fmt::Debug::fmt(&self.as_slice(), f)
    }
}
