//! The program `nsf-threads`: the threads of `program_team` on a new store in memory, whose power is cut then, or on
//! the store in a file; and what is found behind that.
//!
//! Proved: that it is safe, and meets what the calls below ask. What a crash keeps of what the threads were told,
//! `program_team` says. Only tested (`test_threads`, and the run of `nsf_threads`): what is printed, and the status.
#![tactic(auto)]

mod file;
mod found;
mod listeners;
mod program;

pub use found::Found;
pub use program::{run, told};
pub use program_team::{
    Acknowledged, Beginning, Listener, NotOpened, Progress, Refusals, Team, Turn, Worked, key_of,
    work_on,
};
