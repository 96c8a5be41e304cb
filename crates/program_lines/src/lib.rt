//! The lines of an input that `nsf-store run` serves over a store in a file.
//!
//! Proved: that it is safe, and meets what the calls below ask.
//!
//! Only tested (`test_files`): what is answered to a line, what the error stream tells, and how an input ends; and that
//! a line is kept with fewer than 65,536 bytes, however long it is, and answered as if it were whole. A command has the
//! promises of `program_commands`.
#![tactic(auto)]

mod backup;
mod forms;
mod input;
mod name;
mod running;
mod serve;
mod tally;

pub use running::run_file;
pub use tally::Ended;
