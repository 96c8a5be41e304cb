// The program `nsf-store`, run in a test of some steps.
use crate::answers::{Answers, Look};
use crate::claims::claim_at;
use crate::steps::{Act, holds, name_of_done, told_of_act};
use std::alloc::{AllocError, Global};
use std::fs::File;
use std::process::Abort;
use std::rt::{Clock, Files};
use std::{fs, io};
use test_store::{Edit, sector_with};

/// A run of the program: its words and its input; the status that it ends with; and what it prints, and says on the
/// error stream.
#[derive(Clone, Copy)]
pub(crate) struct ProgramRun {
    pub words: &'static [&'static str],
    pub input: &'static str,
    pub status: u8,
    pub look: Look,
    pub printed: &'static str,
    pub said: &'static str,
}

/// What a file holds in so many sectors: these parts, and zeros elsewhere.
pub(crate) type Parts = (u64, &'static [Edit<'static>]);

/// A step of such a test.
#[derive(Clone, Copy)]
pub(crate) enum Deed {
    /// The program is run without input: its words, the status that it ends with, and what it prints and says.
    Call(&'static [&'static str], u8, &'static str, &'static str),
    Serve(ProgramRun),
    /// The program is run: its words and its input, the status that it ends with, and what it prints and says.
    Feed(&'static [&'static str], &'static str, u8, &'static str, &'static str),
    /// The file of this name gets this text.
    Write(&'static str, &'static str),
    /// The file of this name gets these parts.
    Lay(&'static str, Parts),
    /// It has just these.
    Keep(&'static str, Parts),
    /// This is done to it.
    Act(&'static str, Act),
}

// Each line is answered before the next one is read, and the file holds what it is to hold.
fn is_looked<R: Files<File = File> + AllocGlobal>(
    rt: &R,
    answers: &Answers<'_, R>,
    run: &ProgramRun,
) -> bool {
    let is_each = answers.flushes >= run.input.lines().count();
    match run.look {
        Look::Whole | Look::End | Look::Moved(..) => true,
        Look::Durable(path) => is_each && holds(rt, path, &answers.held).unwrap_or(false),
        Look::Cut(_) => is_each,
    }
}

// Whether this is printed.
fn is_printed(text: &[u8], run: &ProgramRun) -> bool {
    match run.look {
        Look::End => text.ends_with(run.printed.as_bytes()),
        _ => text == run.printed.as_bytes(),
    }
}

// Runs the program, and keeps what it prints and says. Its status.
fn serve<R: Files<File = File> + Clock + AllocGlobal>(
    rt: &R,
    run: &ProgramRun,
    answers: &mut Answers<'_, R>,
    said: &mut Vec<u8>,
) -> u8 {
    let mut input = run.input.as_bytes();
    program_shell::run(rt, run.words, &mut input, answers, said)
}

// What came otherwise than is wanted.
fn told_of_run(is_printed: bool, is_said: bool, ends_so: bool, is_looked: bool) -> &'static str {
    if !is_printed {
        return "prints otherwise";
    }
    if !is_said {
        return "says otherwise";
    }
    if !ends_so {
        return "ends otherwise";
    }
    if is_looked {
        "done"
    } else {
        "the file, or an answer by itself"
    }
}

// Runs the program, and tells what came otherwise than is wanted.
fn run<R: Files<File = File> + Clock + AllocGlobal>(rt: &R, run: &ProgramRun) -> &'static str {
    let mut answers = Answers::new(rt, run.look);
    let mut said = Vec::new(rt.alloc());
    let status = serve(rt, run, &mut answers, &mut said);
    let is_printed = is_printed(&answers.text, run);
    let is_looked = is_looked(rt, &answers, run);
    let is_said = said.as_slice() == run.said.as_bytes();
    drop(answers);
    drop(said);
    told_of_run(is_printed, is_said, status == run.status, is_looked)
}

// Runs the program on this input, which is to end with a status, and to print and say this.
fn feed<R: Files<File = File> + Clock + AllocGlobal>(
    rt: &R,
    words: &'static [&'static str],
    input: &'static str,
    (status, printed, said): (u8, &'static str, &'static str),
) -> &'static str {
    let fed = ProgramRun {
        words,
        input,
        status,
        look: Look::Whole,
        printed,
        said,
    };
    run(rt, &fed)
}

// What a file holds with these parts.
fn bytes_of(alloc: Global, (sectors, parts): Parts) -> Result<Vec<u8>, AllocError> {
    let mut bytes = Vec::new(alloc);
    for n in 0..sectors {
        bytes.extend_from_slice(sector_with(parts, n).as_slice())?;
    }
    Ok(bytes)
}

// Writes it, or tells whether the file holds just it.
fn lay<R: Files<File = File> + AllocGlobal>(
    rt: &R,
    path: &str,
    parts: Parts,
    is_kept: bool,
) -> io::Result<bool> {
    let bytes = bytes_of(rt.alloc(), parts)?;
    let laid = if is_kept {
        holds(rt, path, &bytes)
    } else {
        fs::write(rt, path, bytes.as_slice()).map(|()| true)
    };
    drop(bytes);
    laid
}

// What a step comes to.
fn take<R: Files<File = File> + Clock + AllocGlobal>(rt: &R, deed: &Deed) -> &'static str {
    match *deed {
        Deed::Call(words, status, printed, said) => feed(rt, words, "", (status, printed, said)),
        Deed::Feed(words, input, status, printed, said) => {
            feed(rt, words, input, (status, printed, said))
        }
        Deed::Serve(served) => run(rt, &served),
        Deed::Write(path, text) => {
            name_of_done(fs::write(rt, path, text.as_bytes()).map(|()| true))
        }
        Deed::Lay(path, parts) => name_of_done(lay(rt, path, parts, false)),
        Deed::Keep(path, parts) => name_of_done(lay(rt, path, parts, true)),
        Deed::Act(path, act) => told_of_act(rt, path, act),
    }
}

/// Takes steps, one behind the other, each of which comes to what is wanted. Else it is told which came to what.
pub(crate) fn take_all<R: Abort + Files<File = File> + Clock + AllocGlobal>(
    rt: &R,
    deeds: &[Deed],
) {
    take_from(rt, deeds, 0);
}

// The same of those that are behind so many.
fn take_from<R: Abort + Files<File = File> + Clock + AllocGlobal>(
    rt: &R,
    deeds: &[Deed],
    before: u64,
) {
    let mut number = before;
    for deed in deeds {
        number = number.saturating_add(1);
        let told = take(rt, deed);
        claim_at(rt, told == "done", "step", number, told);
    }
}

/// The same of several tests, one behind the other: step 2 of the third one has the number 302.
pub(crate) fn take_each<R: Abort + Files<File = File> + Clock + AllocGlobal>(
    rt: &R,
    tests: &[&[Deed]],
) {
    let mut number: u64 = 0;
    for deeds in tests {
        number = number.saturating_add(100);
        take_from(rt, *deeds, number);
    }
}
