// What a crash makes of the loose blocks of a file in memory.
ghost use Rattle.std.specs.Prelude.{◌≡◌, length};
ghost use Rattle.block_device.specs.Crash.{IsJunk, halves, HasFate, IsCrashed, fate_at};

use crate::{BLOCK_SIZE, Fate};

// The bytes of the first half of a block.
const HALF: usize = BLOCK_SIZE / 2;

fn junk() -> [u8; BLOCK_SIZE]
    ensures { IsJunk result }
{
    let mut bytes = [0; BLOCK_SIZE];
    for i in 0..BLOCK_SIZE {
        bytes[i] = ((7 * i + 13) % 256) as u8;
    }
    bytes
}

// The first half of one block, and the second half of another.
fn halves(front: &[u8; BLOCK_SIZE], back: &[u8; BLOCK_SIZE]) -> [u8; BLOCK_SIZE]
    ensures { result ≡ halves front.now back.now }
{
    let mut bytes = *front;
    bytes[HALF..].copy_from_slice(&back[HALF..]);
    bytes
}

fn fate(fates: &[Fate], i: usize) -> Fate
    ensures { result ≡ fate_at fates.now i }
{
    if fates.is_empty() {
        return Fate::Old;
    }
    fates[i % fates.len()]
}

// A loose block after the crash, with what it held at the last sync, and what it held last.
fn torn(fate: Fate, synced: &[u8; BLOCK_SIZE], content: &[u8; BLOCK_SIZE]) -> [u8; BLOCK_SIZE]
    ensures { HasFate fate synced.now content.now result }
{
    match fate {
        Fate::Old => *synced,
        Fate::New => *content,
        Fate::Front => halves(content, synced),
        Fate::Back => halves(synced, content),
        Fate::Junk => junk(),
    }
}

/// Gives the loose blocks the fates in turn.
pub(crate) fn tear(
    content: &mut [[u8; BLOCK_SIZE]],
    synced: &[[u8; BLOCK_SIZE]],
    loose: &[bool],
    fates: &[Fate],
)
    requires synced { length synced.now ≡ length content.old }
    requires loose { length loose.now ≡ length content.old }
    ensures { IsCrashed fates.now
        record { content = content.old; synced = synced.now; loose = loose.now } content.new }
{
    let mut next = 0;
    for k in 0..content.len() {
        if loose[k] {
            content[k] = torn(fate(fates, next), &synced[k], &content[k]);
            next += 1;
        }
    }
}
