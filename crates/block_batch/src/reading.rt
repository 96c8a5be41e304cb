// A batch is read.
ghost use Rattle.std.specs.Prelude.{◌≡◌, ◌<◌, ◌≤◌, ℕ, true, false, length, slice_index, IfSome, IfNone};
ghost use Rattle.block_device.specs.Blocks.{block};
ghost use Rattle.block_device.specs.Words.{word};
ghost use Rattle.block_batch.specs.Batch.{do_fit, is_batch, number_in, count_in, place_in};
ghost use Rattle.block_batch.specs.Head.{number_of, count_of, place_of};

use crate::head::{DIGEST, FIRST_PLACE, Head, PLACES_MAX, TEXT, block_digest};
use block_device::{BLOCK_SIZE, WORDS, words_of};
use block_digest::digest;

// Whether so many blocks of an area fit the digests in its head, whose numbers these are.
fn blocks_fit(words: &[u64; WORDS], area: &[[u8; BLOCK_SIZE]], count: usize) -> bool
    requires head { (i : ℕ) → i < WORDS → slice_index words.now i ≡ word (block area.now 0) i }
    requires few { count ≤ PLACES_MAX }
    requires room { count < length area.now }
    ensures { result ≡ do_fit area.now count }
{
    for i in 0..count {
        let place = words[FIRST_PLACE + 2 * i];
        if words[FIRST_PLACE + 2 * i + 1] != block_digest(place, &area[1 + i]) {
            return false;
        }
    }
    true
}

/// What the head of an area's batch tells. `None` where it has no batch: what stands there was not written whole, or
/// never.
pub fn read(area: &[[u8; BLOCK_SIZE]]) -> Option<Head>
    requires { 0 < length area.now }
    ensures found { IfSome result (λ _. is_batch area.now ≡ true) }
    ensures number { IfSome result (λ head. number_of head ≡ number_in area.now) }
    ensures count { IfSome result (λ head. count_of head ≡ count_in area.now) }
    ensures places { IfSome result (λ head. (i : ℕ) → i < PLACES_MAX → place_of head i ≡ place_in area.now i) }
    ensures none { IfNone result (is_batch area.now ≡ false) }
{
    let words = words_of(&area[0]);
    let count = words[2] as usize;
    if words[0] != TEXT || count > PLACES_MAX || count >= area.len() {
        return None;
    }
    let head = &area[0];
    let digested = 8 * (FIRST_PLACE + 2 * count);
    if words[DIGEST] != digest(&head[..digested]) || !blocks_fit(&words, area, count) {
        return None;
    }
    Some(Head { words })
}
