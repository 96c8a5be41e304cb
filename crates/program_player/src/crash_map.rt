//! The program for its words: a script's run, or the map of it.
use crate::input::{Unread, read_script};
use crate::map::CrashMap;
use crate::picture::write_picture;
use crate::program::{run_script, run_without_map};
use crate::table::write_table;
use program_arguments::NoArguments;
use program_values::Arguments;
use std::alloc::Global;
use std::convert::AsStr;
use std::fs::Files;
use std::io::{ErrorKind, Read, Write};
use std::{fs, io};

// The word that asks for a map, and the one before the name of a file for its picture.
const MAP: &str = "--crash-map";

const PICTURE: &str = "--svg";

// With what a picture begins.
const BEGINNING: &[u8] = b"<svg";

// What a map ends with in place of its status.
#[derive(Clone, Copy)]
enum Ending {
    NoMemory,
    Unread(Unread),
    Unwritten,
    Undrawn,
    /// Another file has the picture's name.
    Other,
}

// Whether a map is asked for.
fn is_asked<S: AsStr>(words: &[S]) -> bool {
    words.iter().any(|word| word.as_str() == MAP)
}

// What an error of a stream, or of a file, ends with: want of memory is told as that.
fn ending_of(error: io::Error, ending: Ending) -> Ending {
    match error.kind() {
        ErrorKind::OutOfMemory => Ending::NoMemory,
        _ => ending,
    }
}

// What a script that isn't read ends with.
fn ending_of_input(unread: Unread) -> Ending {
    if unread.is_want_of_memory() {
        return Ending::NoMemory;
    }
    Ending::Unread(unread)
}

// The words that are no map's own.
fn others<'a, S: AsStr>(alloc: Global, words: &'a [S]) -> io::Result<Vec<&'a str>> {
    let mut others = Vec::new(alloc);
    let mut is_name = false;
    for word in words {
        let text = word.as_str();
        if !is_name && text != MAP && text != PICTURE {
            others.push(text)?;
        }
        is_name = !is_name && text == PICTURE;
    }
    Ok(others)
}

// The name of the file for the picture, where there is one.
fn picture_file<'a, S: AsStr>(words: &'a [S]) -> Option<&'a str> {
    let at = words.iter().position(|word| word.as_str() == PICTURE)?;
    Some(words.get(at + 1)?.as_str())
}

// What is printed of a map, and the status: what the script's run itself prints where it is refused, or else the table.
// The map is drawn into the file.
fn printed<F: Files>(
    rt: &F,
    alloc: Global,
    arguments: &Arguments,
    text: &[u8],
    file: Option<&str>,
) -> io::Result<(Vec<u8>, u8)> {
    let mut printed = Vec::new(alloc);
    let status = run_script(alloc, arguments, text, &mut printed)?;
    if status != 0 {
        return Ok((printed, status));
    }
    let map = CrashMap::new(alloc, arguments, text)?;
    let mut table = Vec::new(alloc);
    write_table(&mut table, &map)?;
    if let Some(file) = file {
        let mut picture = Vec::new(alloc);
        write_picture(&mut picture, &map)?;
        fs::write(rt, file, picture)?;
    }
    Ok((table, 0))
}

// Whether a picture may be written over what has this name: over nothing, an empty file, a picture, and what is no file
// of bytes.
fn may_be_drawn<F: Files>(rt: &F, file: &str) -> io::Result<bool> {
    let found = match fs::metadata(rt, file) {
        Ok(found) => found,
        Err(error) if error.kind() == ErrorKind::NotFound => return Ok(true),
        Err(error) => return Err(error),
    };
    if !found.is_file() || found.len() == 0 {
        return Ok(true);
    }
    let mut first = [0; 4];
    let count = fs::open(rt, file)?.read(&mut first)?;
    Ok(first[..count].starts_with(BEGINNING))
}

// Why the picture isn't drawn into this file, if it isn't.
fn fault_of_file<F: Files>(rt: &F, file: Option<&str>) -> Option<Ending> {
    match may_be_drawn(rt, file?) {
        Ok(true) => None,
        Ok(false) => Some(Ending::Other),
        Err(error) => Some(ending_of(error, Ending::Undrawn)),
    }
}

// Reads the script, and shows its map.
fn show<R: Read, W: Write, F: Files>(
    rt: &F,
    alloc: Global,
    arguments: &Arguments,
    file: Option<&str>,
    input: &mut R,
    output: &mut W,
) -> Result<u8, Ending> {
    if let Some(ending) = fault_of_file(rt, file) {
        return Err(ending);
    }
    let text = match read_script(alloc, input) {
        Ok(text) => text,
        Err(unread) => return Err(ending_of_input(unread)),
    };
    let (printed, status) = match printed(rt, alloc, arguments, &text, file) {
        Ok(made) => made,
        Err(error) => return Err(ending_of(error, Ending::Undrawn)),
    };
    match output.write_all(&printed) {
        Ok(()) => Ok(status),
        Err(error) => Err(ending_of(error, Ending::Unwritten)),
    }
}

// Tells what a map ended with. What can't be told either is let go: the status tells it.
fn tell<W: Write>(ending: Ending, file: Option<&str>, output: &mut W, errors: &mut impl Write) {
    let _ = match ending {
        Ending::Unread(unread) => return unread.tell(errors),
        Ending::NoMemory => writeln!(output, "refused 1 NoMemory"),
        Ending::Unwritten => writeln!(errors, "nsf: cannot write to standard output"),
        Ending::Undrawn => writeln!(errors, "nsf: cannot write {}", file.unwrap_or("")),
        Ending::Other => writeln!(
            errors,
            "nsf: {} is no picture, and is not written over",
            file.unwrap_or("")
        ),
    };
}

// Why a map isn't made of these words, if it isn't.
fn fault_of<S: AsStr>(words: &[S], arguments: &Arguments) -> Option<&'static str> {
    if arguments.stop.is_some() {
        return Some("a crash map stops at each write and sync: leave out --stop");
    }
    if words.iter().any(|word| word.as_str() == PICTURE) && picture_file(words).is_none() {
        return Some("--svg takes the name of a file");
    }
    None
}

// The words that are no map's own, and the arguments that they ask for.
fn arguments_of<S: AsStr, W: Write>(
    alloc: Global,
    words: &[S],
    output: &mut W,
    errors: &mut impl Write,
) -> Result<Arguments, NoArguments> {
    match others(alloc, words) {
        Ok(others) => program_arguments::read(alloc, &others, output, errors),
        Err(_) => Err(NoArguments::NoMemory),
    }
}

/// Tells why the program's own words can't be read, and answers the exit status: 1 for want of memory, and 2 for a word
/// that isn't text.
pub fn refuse_words<W: Write>(error: io::Error, output: &mut W, errors: &mut impl Write) -> u8 {
    match error.kind() {
        ErrorKind::OutOfMemory => {
            tell(Ending::NoMemory, None, output, errors);
            1
        }
        _ => {
            let _ = writeln!(errors, "error: a word isn't text");
            2
        }
    }
}

// Makes the map that the words ask for, and answers the exit status.
fn run_map<S: AsStr, R: Read, W: Write, F: Files>(
    rt: &F,
    alloc: Global,
    words: &[S],
    input: &mut R,
    output: &mut W,
    errors: &mut impl Write,
) -> u8 {
    let arguments = match arguments_of(alloc, words, output, errors) {
        Ok(arguments) => arguments,
        Err(NoArguments::NoMemory) => {
            tell(Ending::NoMemory, None, output, errors);
            return 1;
        }
        Err(NoArguments::Told(status)) => return status,
    };
    if let Some(fault) = fault_of(words, &arguments) {
        let _ = writeln!(errors, "error: {fault}");
        return 2;
    }
    let file = picture_file(words);
    match show(rt, alloc, &arguments, file, input, output) {
        Ok(status) => status,
        Err(ending) => {
            tell(ending, file, output, errors);
            1
        }
    }
}

/// Runs the program on these words, the first of them its own name, and answers its exit status: 0 where the script ran
/// or its map was printed, or help was asked for; 1 where the script or the device was refused, memory was wanting, or
/// a file or stream failed; 2 for bad arguments. A map is made of the script that the input holds where `--crash-map`
/// is among the words.
pub fn run<S: AsStr, R: Read, W: Write, F: Files>(
    rt: &F,
    alloc: Global,
    words: &[S],
    input: &mut R,
    output: &mut W,
    errors: &mut impl Write,
) -> u8 {
    if is_asked(words) {
        return run_map(rt, alloc, words, input, output, errors);
    }
    run_without_map(alloc, words, input, output, errors)
}
