//! A case: a script, and what the program gives on it.
use crate::streams::{Input, Output};
use program_player::run;
use program_values::FATES;
use std::alloc::{AllocError, Global};
use std::fs::Files;
use std::io;
use std::io::Write;
use std::str::from_utf8;

/// A script, and what the program is to give on it, as far as the table was read; and what its last run gave.
#[derive(Drop)]
pub struct Case {
    alloc: Global,
    name: Vec<u8>,
    script: Vec<u8>,
    is_broken: bool,
    output: Vec<u8>,
    errors: Vec<u8>,
    status: u8,
    // how many runs gave what was expected
    good: u32,
    // what the last run printed, and what it said on the error stream
    printed: Output,
    said: Vec<u8>,
}

// What is said where the output has no room.
const NO_ROOM: &str = "nsf: cannot write to standard output\n";

fn text_of(bytes: &[u8]) -> &str {
    from_utf8(bytes).unwrap_or("no text")
}

fn add_line(lines: &mut Vec<u8>, text: &[u8]) -> Result<(), AllocError> {
    lines.extend_from_slice(text)?;
    lines.push(b'\n')?;
    Ok(())
}

// What stands behind the space that parts it from what the line is.
fn behind_space(rest: &[u8]) -> &[u8] {
    match rest.split_first() {
        Some((_, text)) => text,
        None => rest,
    }
}

// The number that the text begins with, and the text behind it.
fn number_before(text: &str) -> (u32, &str) {
    match text.split_once(' ') {
        Some((number, rest)) => (number.parse::<u32>().unwrap_or(0), rest),
        None => (0, text),
    }
}

// The name of the program, and these words behind it.
fn words_of<'a>(alloc: Global, words: &'a str) -> Result<Vec<&'a str>, AllocError> {
    let mut all = vec![in alloc; "nsf-replay"]?;
    for word in words.split_whitespace() {
        all.push(word)?;
    }
    Ok(all)
}

impl Case {
    /// A case of no script.
    pub fn new(alloc: Global) -> Self {
        Case {
            alloc,
            name: Vec::new(alloc),
            script: Vec::new(alloc),
            is_broken: false,
            output: Vec::new(alloc),
            errors: Vec::new(alloc),
            status: 0,
            good: 0,
            printed: Output {
                bytes: Vec::new(alloc),
                room: 0,
            },
            said: Vec::new(alloc),
        }
    }

    /// Does what each line of the table says.
    pub fn follow_all<F: Files, W: Write>(
        &mut self,
        rt: &F,
        table: &[u8],
        report: &mut W,
    ) -> io::Result<()> {
        for line in table.split(|byte| *byte == b'\n') {
            self.follow(rt, line, report)?;
        }
        Ok(())
    }

    // Does what the line of the table says.
    fn follow<F: Files, W: Write>(
        &mut self,
        rt: &F,
        line: &[u8],
        report: &mut W,
    ) -> io::Result<()> {
        let Some((kind, rest)) = line.split_first() else {
            return self.end(report);
        };
        let text = behind_space(rest);
        match *kind {
            b'$' => self.check(rt, text_of(text), report),
            b'@' => self.check_stops(rt, text_of(text), report),
            b'%' => self.check_narrow(rt, text_of(text), report),
            kind => Ok(self.keep(kind, text)?),
        }
    }

    // Keeps what a line of this kind says of the case.
    fn keep(&mut self, kind: u8, text: &[u8]) -> Result<(), AllocError> {
        match kind {
            b'=' => self.name.extend_from_slice(text),
            b'<' => add_line(&mut self.script, text),
            b'+' => self.script.extend_from_slice(text),
            b'*' => self.repeat(text_of(text)),
            b'>' => add_line(&mut self.output, text),
            b'!' => add_line(&mut self.errors, text),
            _ => {
                self.keep_mark(kind, text);
                Ok(())
            }
        }
    }

    fn keep_mark(&mut self, kind: u8, text: &[u8]) {
        match kind {
            b'~' => self.is_broken = true,
            b'?' => self.status = text_of(text).parse::<u8>().unwrap_or(0),
            _ => {}
        }
    }

    // Adds a line to the script, as often as the number before it says.
    fn repeat(&mut self, text: &str) -> Result<(), AllocError> {
        let (count, line) = number_before(text);
        for _ in 0..count {
            add_line(&mut self.script, line.as_bytes())?;
        }
        Ok(())
    }

    // Runs the program on these words, with so much room for the output, keeps what it gives, and answers its status.
    fn play_on<F: Files>(&mut self, rt: &F, words: &[&str], room: usize) -> u8 {
        self.printed.bytes.clear();
        self.printed.room = room;
        self.said.clear();
        let mut input = Input {
            bytes: self.script.as_slice(),
            is_broken: self.is_broken,
        };
        run(
            rt,
            self.alloc,
            words,
            &mut input,
            &mut self.printed,
            &mut self.said,
        )
    }

    // The same on these words behind its name.
    fn play<F: Files>(&mut self, rt: &F, words: &str, room: usize) -> Result<u8, AllocError> {
        let words = words_of(self.alloc, words)?;
        let status = self.play_on(rt, words.as_slice(), room);
        drop(words);
        Ok(status)
    }

    // Whether what was said on the error stream is what the case has of it.
    fn says_errors(&self) -> bool {
        if self.errors.is_empty() {
            return self.said.is_empty();
        }
        self.said.starts_with(self.errors.as_slice())
    }

    // Whether the last run, which ended so, gave what is expected.
    fn is_expected(&self, status: u8) -> bool {
        self.printed.bytes == self.output && status == self.status && self.says_errors()
    }

    // Runs the program on these words, and tells what it gives where that is not expected.
    fn check<F: Files, W: Write>(&mut self, rt: &F, words: &str, report: &mut W) -> io::Result<()> {
        let status = self.play(rt, words, usize::MAX)?;
        if self.is_expected(status) {
            self.good = self.good.saturating_add(1);
            return Ok(());
        }
        self.tell(words, status, report)
    }

    // Tells what the last run gave.
    fn tell<W: Write>(&self, words: &str, status: u8, report: &mut W) -> io::Result<()> {
        let name = text_of(&self.name);
        let printed = text_of(&self.printed.bytes);
        let said = text_of(&self.said);
        writeln!(report, "{name}: {words}: status {status}\n{printed}{said}")
    }

    // Runs the program on these words, with a stop at this write or sync, and with this fate.
    fn check_stop<F: Files, W: Write>(
        &mut self,
        rt: &F,
        words: &str,
        (stop, fate): (u32, &str),
        report: &mut W,
    ) -> io::Result<()> {
        let all = format!(in self.alloc; "{words} --stop {stop} --fate {fate}")?;
        let checked = self.check(rt, &all, report);
        drop(all);
        checked
    }

    // The same with a stop at each write and sync from the first of two numbers to the second, and with each fate, on
    // the words behind these numbers.
    fn check_stops<F: Files, W: Write>(
        &mut self,
        rt: &F,
        text: &str,
        report: &mut W,
    ) -> io::Result<()> {
        let (first, rest) = number_before(text);
        let (last, words) = number_before(rest);
        for stop in first..=last {
            for fate in FATES {
                self.check_stop(rt, words, (stop, fate), report)?;
            }
        }
        Ok(())
    }

    // Whether the last run, which ended so, tells that the output had no room.
    fn is_narrow(&self, status: u8) -> bool {
        status == 1 && self.said.as_slice() == NO_ROOM.as_bytes()
    }

    // Runs the program on these words at each width of the output up to that of what is expected. Whatever doesn't fit
    // ends it with the status 1, and is told.
    fn check_narrow<F: Files, W: Write>(
        &mut self,
        rt: &F,
        words: &str,
        report: &mut W,
    ) -> io::Result<()> {
        let whole = self.output.len();
        for room in 0..=whole {
            let status = self.play(rt, words, room)?;
            let is_good = if room < whole {
                self.is_narrow(status)
            } else {
                self.is_expected(status)
            };
            if is_good {
                self.good = self.good.saturating_add(1);
            } else {
                self.tell(words, status, report)?;
            }
        }
        Ok(())
    }

    // Prints how many runs of the case gave what was expected, and begins another case.
    fn end<W: Write>(&mut self, report: &mut W) -> io::Result<()> {
        if !self.name.is_empty() {
            let name = text_of(&self.name);
            let good = self.good;
            writeln!(report, "{name}: {good} ok")?;
        }
        self.clear();
        Ok(())
    }

    // Makes it a case of no script.
    fn clear(&mut self) {
        self.name.clear();
        self.script.clear();
        self.is_broken = false;
        self.output.clear();
        self.errors.clear();
        self.status = 0;
        self.good = 0;
    }
}
