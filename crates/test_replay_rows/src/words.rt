//! What is told of words that can't be read.
use program_player::refuse_words;
use std::alloc::Global;
use std::io;
use std::io::{ErrorKind, Write};

// Whether the program ends with this status, and prints and says this, where its words can't be read for this reason.
fn is_told(alloc: Global, reason: ErrorKind, (status, printed, said): (u8, &str, &str)) -> bool {
    let mut output = Vec::new(alloc);
    let mut errors = Vec::new(alloc);
    let ended = refuse_words(io::Error::from(reason), &mut output, &mut errors);
    let is_printed = output.as_slice() == printed.as_bytes();
    let is_said = errors.as_slice() == said.as_bytes();
    drop(output);
    drop(errors);
    ended == status && is_printed && is_said
}

fn tell<W: Write>(report: &mut W, reason: &str, is_told: bool) -> io::Result<()> {
    let found = if is_told { "ok" } else { "wrong" };
    writeln!(report, "{reason}: {found}")
}

/// Prints, of each reason for which words can't be read, whether what is told then is as it should be.
pub fn tell_each<W: Write>(alloc: Global, report: &mut W) -> io::Result<()> {
    let no_text = (2, "", "error: a word isn't text\n");
    let is_told_of_text = is_told(alloc, ErrorKind::InvalidData, no_text);
    tell(report, "words that are no text", is_told_of_text)?;
    let no_memory = (1, "refused 1 NoMemory\n", "");
    let is_told_of_memory = is_told(alloc, ErrorKind::OutOfMemory, no_memory);
    tell(report, "no memory for the words", is_told_of_memory)
}
