//! Tests of stores in memory: of `restart`, which opens and serves them, and of the versions of their format.
//!
//! Each allocation is refused in turn, and each call of the device fails in turn, with each fate, and after it each
//! write and sync of two restarts; damaged stores are refused by name. The calls of the device are counted that a group
//! takes. Images are taken, and an index is built over every place. Stores of version 1, written by the format's text,
//! are moved, harmed and hindered.
//!
//! Proved of them is safety. What a test ends with is left (`forget`): to prove that it is let go costs more than the
//! test. `test_files` has the tests of stores in files.
#![tactic(auto)]

#[cfg(test)]
mod answer;
#[cfg(test)]
mod build_tests;
#[cfg(test)]
mod byte_tests;
#[cfg(test)]
mod claims;
#[cfg(test)]
mod contents;
#[cfg(test)]
mod crash_tests;
#[cfg(test)]
mod damage_tests;
#[cfg(test)]
mod disk;
#[cfg(test)]
mod image_tests;
#[cfg(test)]
mod jobs;
#[cfg(test)]
mod memory_tests;
#[cfg(test)]
mod migration_tests;
#[cfg(test)]
mod opened;
#[cfg(test)]
mod parts_tests;
#[cfg(test)]
mod store;
