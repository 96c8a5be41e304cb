//! The active transactions: what each may still take back, and the rows that it holds.
//!
//! Proved: at most 16 active transactions of at most 64 changes, and no row held by two (`sound`, `only`). A change is
//! refused as the first of `NoSuchTxn`, `TooManyChanges`, `RowBusy` that applies (`refused`), and nothing changes then
//! (`err`). A row is held to its transaction's end (`held`, `released`). `are_held_before` says whether each held place
//! comes before one (`before`). Numbers rise, and none comes again (`number`, `spent`). Only tested (`test_tables`):
//! that calls succeed where there is memory.
//!
//! Lemmas about its public words that crates above may cite, in `proofs`: `TableLaws`.
#![tactic(auto)]

mod active;
mod held;
mod progress;
mod table;

pub use progress::Progress;
pub use table::TxnTable;
