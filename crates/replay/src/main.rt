//! Runs a script of commands against a store on a disk in memory, and prints each answer; or, asked by `--crash-map`,
//! what a stop at each write and sync leaves.
//!
//! All that it does is in `program_player`.
#![tactic(auto)]

use std::process::ExitCode;
use std::{env, io};

// The words that the program was given.
fn words(rt: &HostRuntime) -> io::Result<Vec<String>> {
    Ok(env::args(rt)?.collect(rt.alloc())?)
}

fn main(rt: HostRuntime) -> io::Result<ExitCode> {
    let output = &mut io::writer(&rt);
    let errors = &mut rt.stderr();
    let words = match words(&rt) {
        Ok(words) => words,
        Err(error) => return Ok(ExitCode::from(program_player::refuse_words(
            error, output, errors,
        ))),
    };
    let status = program_player::run(&rt, rt.alloc(), &words, &mut rt.reader(), output, errors);
    Ok(ExitCode::from(status))
}
