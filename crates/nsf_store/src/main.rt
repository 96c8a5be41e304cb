//! Keeps a store in a file: makes it, serves it, builds its index, and shows it.
//!
//! All that it does is in `program_shell`.
#![tactic(auto)]

use std::io::{BufReader, IsTerminal};
use std::process::ExitCode;
use std::{env, io};

// Whether this is among the words.
fn has_word(words: &[String], wanted: &str) -> bool {
    words.iter().any(|word| word.as_str() == wanted)
}

fn add_word(rt: &HostRuntime, words: &mut Vec<String>, word: &str) -> io::Result<()> {
    words.push(String::from_str(rt.alloc(), word)?)?;
    Ok(())
}

// Where `run` reads a terminal, a prompt is asked for, and that each commit is flushed.
fn add_prompt(rt: &HostRuntime, words: &mut Vec<String>) -> io::Result<()> {
    if !is_to(words.as_slice(), "run") || !rt.stdin().is_terminal() {
        return Ok(());
    }
    if !has_word(words.as_slice(), "--prompt") {
        add_word(rt, words, "--prompt")?;
    }
    if !has_word(words.as_slice(), "--durable") && !has_word(words.as_slice(), "--lazy") {
        add_word(rt, words, "--durable")?;
    }
    Ok(())
}

// Whether the program is to do this.
fn is_to(words: &[String], verb: &str) -> bool {
    words.get(1).is_some_and(|word| word.as_str() == verb)
}

// Where `build` or `load` tells a terminal of it, progress is asked for.
fn add_progress(rt: &HostRuntime, words: &mut Vec<String>) -> io::Result<()> {
    let shows = is_to(words.as_slice(), "build") || is_to(words.as_slice(), "load");
    if shows && !has_word(words.as_slice(), "--progress") && rt.stderr().is_terminal() {
        add_word(rt, words, "--progress")?;
    }
    Ok(())
}

// The words that the program was given.
fn words(rt: &HostRuntime) -> io::Result<Vec<String>> {
    let mut words = env::args(rt)?.collect(rt.alloc())?;
    add_prompt(rt, &mut words)?;
    add_progress(rt, &mut words)?;
    Ok(words)
}

// Runs the program, and answers its exit status. The error is that its words can't be read, or its input.
fn run(rt: &HostRuntime) -> io::Result<u8> {
    let words = words(rt)?;
    let mut input = BufReader::new(rt.alloc(), rt.reader())?;
    Ok(program_shell::run(
        rt,
        words.as_slice(),
        &mut input,
        &mut io::writer(rt),
        &mut rt.stderr(),
    ))
}

fn main(rt: HostRuntime) -> ExitCode {
    let status = match run(&rt) {
        Ok(status) => status,
        Err(error) => program_shell::refuse_words("nsf-store", error, &mut rt.stderr()),
    };
    ExitCode::from(status)
}
