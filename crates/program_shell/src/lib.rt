//! The program `nsf-store` over what it reads and writes: a store in a file, and the verbs that make, serve and show
//! it.
//!
//! Proved: that it is safe, and meets what the calls below ask.
//!
//! Only tested: what the verbs print, how they end, and what they say of a file that is no store, or is damaged. The
//! steps below have the promises of `program_commands`, `program_rows`, `program_files` and `program_lines`.
#![tactic(auto)]

mod loading;
mod looks;
mod program;
mod scan;
mod show;

pub use program::run;
pub use program_files::{Refused, refuse_words};
