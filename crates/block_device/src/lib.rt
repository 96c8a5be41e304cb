//! A file of blocks of 4,096 bytes, as a journal sees it: reads, writes and syncs of runs of blocks, and what a crash
//! may leave. Where a sector is harmed alone (`sector_device`), a block is harmed as a whole.
//!
//! Proved of `MemBlocks`: the clauses of `Blocks`: what each call does, and what it leaves where it fails (`ok`,
//! `err`); what a crash leaves around it (`time`); that failures are counted (`counts`); which runs of blocks were
//! written back, and when (`back`). `crash` leaves the crash file that the fates name (`crash`, `fates`), by what the
//! last sync left (`last_synced`). Neither: that a real file behaves so. That is the premise of all above it.
//!
//! A block is also read as 512 numbers of eight bytes, the highest byte first. Proved: `words_of` gives the numbers
//! that it spells, and `spell_words` the block that spells numbers, so that they are read as they were (`spelled`,
//! `again`).
//!
//! Lemmas about its public words that crates above may cite, in `proofs`: `CrashFiles`, `Moments`, `Spelled` and
//! `Within`.
#![tactic(auto)]

mod back;
mod blocks;
mod crash;
mod fate;
mod held;
mod memory;
mod runs;
mod words;

pub use back::BackRuns;
pub use blocks::{BLOCK_SIZE, Blocks, few_blocks};
pub use fate::Fate;
pub use memory::MemBlocks;
pub use runs::{put_run, zero_block, zero_blocks};
pub use words::{WORDS, spell_words, words_of};
