//! Tests of the parts of the core: the rows in their pages (`heap_pages`), the active transactions (`txn_table`), the
//! builder's scan (`sorted_scan`), the tree of the entries (`btree_node`), the entries with their marks
//! (`marked_index`); and where they take no memory the core (`nsf_core`), a disk in memory (`sector_device`) and the
//! words that threads share (`board`). And of what is lower: values (`test_values`), blocks (`test_blocks`), and the
//! device calls of a log (`gate_log`).
//!
//! Proved of them is safety. Each allocation is refused in turn. The calls that take no memory are made where the next
//! allocation would be refused, and counted. What a test ends with is mostly left (`forget`): to prove that it is let
//! go costs more than the test. A page, a heap and a board are let go of where memory would be refused.
#![tactic(auto)]

#[cfg(test)]
mod jobs;
#[cfg(test)]
mod log_tests;
#[cfg(test)]
mod memory_tests;
#[cfg(test)]
mod quiet_reads;
#[cfg(test)]
mod quiet_tests;
#[cfg(test)]
mod test_blocks;
#[cfg(test)]
mod test_values;
#[cfg(test)]
mod tree_tests;
#[cfg(test)]
mod values;
