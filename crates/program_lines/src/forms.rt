//! How the lines of the input are written, and why one is none.
use std::alloc::Global;
use std::io;
use std::io::Write;
use strsim::levenshtein;

/// A line that is served: its name, the words behind that, and what it does.
type Form = (&'static str, &'static str, &'static str);

static FORMS: [Form; 25] = [
    ("begin", "", "begins a transaction"),
    ("insert", " <t> <key> <body>", "inserts a row"),
    ("delete", " <t> <rid>", "deletes the row at a place"),
    (
        "delete-key",
        " <t> <key>",
        "deletes the one row with a key, with all steps",
    ),
    (
        "update",
        " <t> <rid> <key> <body>",
        "puts another row at a place",
    ),
    (
        "update-key",
        " <t> <old> <key> <body>",
        "puts another row in place of the one with the old key, with all steps",
    ),
    ("step", " <t>", "makes the next step of a change"),
    ("undo", " <t>", "takes a step of the last change back"),
    ("end", " <t>", "ends a transaction without a change"),
    ("commit", " <t>", "commits a transaction"),
    ("commit!", " <t>", "commits a transaction, and flushes"),
    ("create", "", "creates the index"),
    ("drop", "", "drops the index"),
    ("build", " [<count>]", "makes steps of the builder"),
    ("clean", " [<count>]", "makes steps of the cleaner"),
    ("flush", "", "makes all safe that was answered"),
    ("image", "", "takes an image of the store"),
    ("crash", " <fate>", "is skipped here"),
    ("get", " <rid>", "shows the row at a place"),
    ("find", " <key>", "shows the places of the rows with a key"),
    (
        "scan",
        " [<first> [<last>]] [back] [count <count>]",
        "shows the index from key to key, or back",
    ),
    ("dump", "", "shows all rows and entries"),
    (
        "backup",
        " <file>",
        "flushes, and copies the store to a new file",
    ),
    ("help", "", "shows this"),
    ("quit", "", "ends the input"),
];

// The last line of help.
const MARKS: &str =
    "A key or body is `=` and graphic bytes, as `=ant`, or `:` and hexadecimal digits, as `:616e74`\n";

fn forms() -> &'static [Form] {
    &FORMS
}

/// Prints how each line is written, and what it does.
pub(crate) fn print_help<W: Write>(output: &mut W) -> io::Result<()> {
    for (name, words, does) in forms() {
        writeln!(output, "{name}{words}: {does}")?;
    }
    output.write_all(MARKS.as_bytes())
}

fn is_space(byte: &u8) -> bool {
    *byte == b' '
}

// The first word of a line.
fn first_word(line: &[u8]) -> &[u8] {
    line.split(is_space).next().unwrap_or(line)
}

// How the line with this first word is written.
fn form_named(word: &[u8]) -> Option<&'static Form> {
    forms().iter().find(|form| form.0.as_bytes() == word)
}

// The name that is nearest to a word, where fewer letters than three, and than all, are others.
fn nearest_name(alloc: Global, word: &str) -> Option<&'static str> {
    let mut least = word.len().min(3);
    let mut found = None;
    for (name, _, _) in forms() {
        let distance = levenshtein(alloc, word, name).unwrap_or(least);
        if distance < least {
            least = distance;
            found = Some(*name);
        }
    }
    found
}

// Whether a key or a body is among these words.
fn takes_bytes(words: &str) -> bool {
    words.contains("<key>") || words.contains("<first>")
}

// Whether a word begins with a letter, and is no name of its own behind the first one, as a key or body without its
// mark does.
fn is_unmarked(word: &&[u8]) -> bool {
    let word = *word;
    match word {
        [first, ..] => first.is_ascii_alphabetic()
            && word != b"count".as_slice()
            && word != b"back".as_slice(),
        [] => false,
    }
}

// A word behind the first one that is so.
fn unmarked_word(line: &[u8]) -> Option<&[u8]> {
    line.split(is_space).skip(1).find(is_unmarked)
}

fn is_empty(word: &[u8]) -> bool {
    word.is_empty()
}

fn has_empty_word(line: &[u8]) -> bool {
    line.split(is_space).any(is_empty)
}

fn is_no_text(byte: &u8) -> bool {
    *byte != b' ' && !byte.is_ascii_graphic()
}

fn has_no_text(line: &[u8]) -> bool {
    line.iter().any(is_no_text)
}

// Tells of the line of this number: a text, in which the others stand behind its pieces.
fn tell<E: Write>(
    errors: &mut E,
    number: u64,
    [first, second, third]: [&'static str; 3],
    word: &str,
    name: &str,
) {
    let _ = writeln!(
        errors,
        "nsf-store: line {number}: {first}{word}{second}{name}{third}"
    );
}

// Tells of a line of words whose first one is no name.
fn tell_unknown<E: Write>(alloc: Global, line: &[u8], number: u64, errors: &mut E) {
    let Ok(word) = std::str::from_utf8(first_word(line)) else {
        return;
    };
    match nearest_name(alloc, word) {
        Some(name) => {
            let text = ["`", "` is no command; is `", "` meant?"];
            tell(errors, number, text, word, name);
        }
        None => {
            let text = ["`", "` is no command; `help` tells of all", ""];
            tell(errors, number, text, word, "");
        }
    }
}

// The word behind the first one that lacks its mark, of a line that has words of bytes.
fn unmarked_in<'a>(line: &'a [u8], words: &str) -> Option<&'a str> {
    if !takes_bytes(words) {
        return None;
    }
    std::str::from_utf8(unmarked_word(line)?).ok()
}

// Tells of a line of words with this first one.
fn tell_form<E: Write>(line: &[u8], number: u64, form: &Form, errors: &mut E) {
    let (name, words, _) = form;
    match unmarked_in(line, words) {
        Some(word) => {
            let text = [
                "`",
                "` begins with neither `=` nor `:`, as a key or body does",
                "",
            ];
            tell(errors, number, text, word, "");
        }
        None => tell(errors, number, ["it is written `", "", "`"], name, words),
    }
}

// What is wrong with the bytes of a line, if they are.
fn fault_of_bytes(line: &[u8]) -> Option<&'static str> {
    if line.contains(&b'\r') {
        return Some("a carriage return is in it; a line ends with a line feed alone");
    }
    if has_no_text(line) {
        return Some("a byte in it is neither a space nor graphic ASCII");
    }
    if has_empty_word(line) {
        return Some("its words aren't parted by single spaces");
    }
    None
}

/// Tells why the line of this number is none that is served.
pub(crate) fn tell_why<E: Write>(alloc: Global, line: &[u8], number: u64, errors: &mut E) {
    if let Some(fault) = fault_of_bytes(line) {
        tell(errors, number, [fault, "", ""], "", "");
        return;
    }
    match form_named(first_word(line)) {
        Some(form) => tell_form(line, number, form, errors),
        None => tell_unknown(alloc, line, number, errors),
    }
}
