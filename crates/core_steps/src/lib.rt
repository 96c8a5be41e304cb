//! The steps of a change and of its undo, each with what its record says.
//!
//! Proved: `undo` answers the steps of the definition, in order, and so does `forward`, which the core doesn't call.
//! `has_old_entry` and `has_new_entry` say whether a change has the step of its old row's entry and of its new row's
//! (`marked`, `put`). The core makes its steps as these say. The law `each_change` of `nsf_core` ties each step's
//! record to the abstract core (`first`, `next`, `undo`).
#![tactic(auto)]

mod step;

pub use step::{Cell, Step, forward, has_new_entry, has_old_entry, undo};
