//! Lets writers, a builder, a cleaner and a flusher run side by side on a store in memory, cuts its power, and says
//! what is found behind that.
//!
//! All that it does is in `program_demonstration`.
#![tactic(auto)]

use program_demonstration::Progress;
use std::io::IsTerminal;
use std::process::ExitCode;
use std::{env, io};

// The words that the program was given.
fn words(rt: &HostRuntime) -> io::Result<Vec<String>> {
    Ok(env::args(rt)?.collect(rt.alloc())?)
}

fn main(rt: HostRuntime) -> io::Result<ExitCode> {
    let words = match words(&rt) {
        Ok(words) => words,
        Err(error) => {
            let status = program_files::refuse_words("nsf-threads", error, &mut rt.stderr());
            return Ok(ExitCode::from(status));
        }
    };
    let progress = Progress {
        errors: rt.stderr(),
        is_terminal: rt.stderr().is_terminal(),
    };
    let status = program_demonstration::run(
        &rt,
        rt.alloc(),
        words.as_slice(),
        &mut io::writer(&rt),
        progress,
        &mut rt.stderr(),
    );
    Ok(ExitCode::from(status))
}
