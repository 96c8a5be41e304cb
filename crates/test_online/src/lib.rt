//! A whole host in memory, beside the index that it keeps (`online_index`): rows are changed, taken back and read while
//! the index is built; a checkpoint is saved in pieces, the host stops, redoes its log and goes on.
//!
//! Proved of it is safety. Tested: that in the end the index shows exactly the rows; and pages, found keys and counts
//! of a small index.
#![tactic(auto)]

#[cfg(test)]
mod host;
#[cfg(test)]
mod reading_tests;
#[cfg(test)]
mod tests;
