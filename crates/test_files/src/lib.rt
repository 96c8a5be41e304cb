//! Tests of files, of the stores in them, and of the program `nsf-store`.
//!
//! Of files: names, locks and refusals; what is written, synced and named, and in which order; and calls that fail. Of
//! disks over them, plain or of blocks: what a backing that fails, drops or tears leaves. Then the verbs of
//! `nsf-store`, one behind the other on a real file, also of version 1, and on a file of blocks, whole and harmed; rows
//! that are loaded and exported on either; and what is salvaged of a harmed one. And rows as comma-separated fields,
//! without a file (`test_rows`).
//!
//! Proved of them is safety. What a test ends with is left (`forget`): to prove that it is let go costs more than the
//! test. Outside the gate, `tools/kill_store.py` kills the program at random moments.
#![tactic(auto)]

#[cfg(test)]
mod answers;
#[cfg(test)]
mod backing;
#[cfg(test)]
mod block_fault_tests;
#[cfg(test)]
mod block_tests;
#[cfg(test)]
mod claims;
#[cfg(test)]
mod fault_tests;
#[cfg(test)]
mod file_tests;
#[cfg(test)]
mod help;
#[cfg(test)]
mod program;
#[cfg(test)]
mod program_tests;
#[cfg(test)]
mod row_tests;
#[cfg(test)]
mod salvage_tests;
#[cfg(test)]
mod scenes;
#[cfg(test)]
mod scripts;
#[cfg(test)]
mod shell_tests;
#[cfg(test)]
mod steps;
#[cfg(test)]
mod test_rows;
#[cfg(test)]
mod watched;
