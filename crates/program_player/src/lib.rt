//! A session of the program `nsf-replay`: a store on a disk in memory under a script, from the program's words and
//! input to the lines that it prints.
//!
//! Proved: the theorem over a whole script is the contract of `run_script` (`Plays`), where no write of the output
//! fails. `run_input`, `run_words` and `run_without_map` hand it on for the input and the program's words
//! (`PlaysInput`, `RunsWords`). What stands behind more lines of the input than a script may have changes nothing
//! (`enough`). Only tested (`test_replay_rows`): that just the write or sync that was asked for is cut short, and the
//! order of faults; and (`tools/check_programs.py`) that no more is read then, and that a line of more than 65,535
//! bytes ends the input, as one that can't be read. Neither: when memory is lacking.
//!
//! `run` is the program: a script's run, or what a loss of power leaves of its store, as a table and a picture
//! of each write and sync and each fate. Each run of a map is one of `run_script`, which is stopped at one write or
//! sync of the script's commands. What it prints behind the stop is what was left: the restart and a dump. Proved of
//! maps is safety. Tested (`test_replay_rows`): the table of a script, and what is told where a stream fails or a
//! script is refused; where memory is wanting, by `scripts/refuse-memory` alone.
#![tactic(auto)]

mod crash_map;
mod input;
mod map;
mod picture;
mod program;
mod session;
mod table;

pub use crash_map::{refuse_words, run};
pub use program::{run_input, run_script, run_without_map, run_words};
pub use program_values::Arguments;
