//! What is below the disk of a store that C opened.
ghost use Rattle.std.specs.Prelude.{◌≡◌, ◌↔◌, IsTrue};

use sector_device::SECTOR_SIZE;
use std::io::{Error, ErrorKind};
use store_file::Backing;

/// What is below the disk of a store.
#[derive(Drop)]
pub enum Below {
    /// Nothing: what is written stays in memory.
    Memory,
    /// A line, by its descriptor: whoever is at its other end writes and syncs the sectors.
    Line(i32),
}

// The number that asks for a sync in place of a write.
const SYNC: u64 = u64::MAX;

// Whether an answer says that what was asked is done: that one byte came, and it is 0.
fn says_done(count: usize, answer: u8) -> bool
    ensures { IsTrue result ↔ (count ≡ 1) × (answer ≡ 0) }
{
    count == 1 && answer == 0
}

// Whether the other end said that it is done.
fn is_done(line: i32) -> bool {
    let mut answer = [1];
    let count = io::read_full(line, &mut answer);
    says_done(count, answer[0])
}

// Asks the other end, and waits for its answer.
fn ask(line: i32, number: u64, bytes: &[u8]) -> std::io::Result<()> {
    let is_sent = io::write_all(line, &number.to_le_bytes()) && io::write_all(line, bytes);
    if is_sent && is_done(line) {
        return Ok(());
    }
    Err(Error::from(ErrorKind::Other))
}

impl Backing for Below {
    fn put(&mut self, n: u64, bytes: &[u8; SECTOR_SIZE]) -> std::io::Result<()> {
        match self {
            Below::Memory => Ok(()),
            Below::Line(line) => ask(*line, n, bytes),
        }
    }

    fn sync(&mut self) -> std::io::Result<()> {
        match self {
            Below::Memory => Ok(()),
            Below::Line(line) => ask(*line, SYNC, &[]),
        }
    }
}
