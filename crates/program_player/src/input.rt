//! A script is read from an input, and no more of that than a script may have.
ghost use Rattle.std.specs.Prelude.{◌≡◌, ◌==◌, ◌<◌, true, count_by, IfOk};
ghost use Rattle.std.specs.Io.{ReadsAtMost};
ghost use Rattle.std.specs.Io.KnownBytes.{ReadConsumes};
ghost use Rattle.program_player.specs.Inputs.{IsEnough, feeds_in};

use program_script::LINES_MAX;
use std::alloc::Global;
use std::io;
use std::io::{ErrorKind, Read, Write};

// The most bytes that a line of a script has, without its line feed.
const LINE_MAX: u64 = 65_535;

/// Why the script of an input isn't read.
#[derive(Clone, Copy)]
pub(crate) enum Unread {
    /// The line of this number has more bytes than a line may have.
    LongLine(u64),
    /// The input failed so, or there was no memory for what it gave.
    Failed(ErrorKind),
}

impl Unread {
    /// Whether there was no memory.
    pub(crate) fn is_want_of_memory(self) -> bool {
        matches!(self, Unread::Failed(ErrorKind::OutOfMemory))
    }

    /// The error that stands for it.
    pub(crate) fn into_error(self) -> io::Error {
        match self {
            Unread::LongLine(_) => io::Error::from(ErrorKind::InvalidData),
            Unread::Failed(kind) => io::Error::from(kind),
        }
    }

    /// Says on the error stream why.
    pub(crate) fn tell<E: Write>(self, errors: &mut E) {
        let _ = match self {
            Unread::LongLine(number) => writeln!(
                errors,
                "nsf: line {number} of the script is longer than {LINE_MAX} bytes"
            ),
            Unread::Failed(_) => writeln!(errors, "nsf: cannot read standard input"),
        };
    }
}

// An input that fails behind a line that is too long, and behind more lines than a script may have.
#[derive(Drop)]
struct ScriptInput<R: Read> {
    source: R,
    // How many lines were read to their ends.
    lines: u64,
    // How many bytes were read of the line behind them; of one that is too long no more is read.
    bytes: u64,
}

impl<R: Read> ScriptInput<R> {
    ghost use Rattle.program_player.specs.Inputs.{source_under};

    fn new(source: R) -> Self
        ensures { source_under result ≡ source }
    {
        ScriptInput {
            source,
            lines: 0,
            bytes: 0,
        }
    }

    fn is_line_long(&self) -> bool {
        self.bytes > LINE_MAX
    }

    // Notes a byte that was read.
    fn note(&mut self, byte: u8)
        ensures { source_under self.new ≡ source_under self.old }
    {
        if self.is_line_long() {
            return;
        }
        if byte == b'\n' {
            self.lines = self.lines.saturating_add(1);
            self.bytes = 0;
        } else {
            self.bytes = self.bytes.saturating_add(1);
        }
    }

    // Notes what was read.
    fn note_all(&mut self, bytes: &[u8])
        ensures { source_under self.new ≡ source_under self.old }
    {
        for byte in bytes {
            self.note(*byte);
        }
    }

    // Reads on, unless enough was read.
    fn read_on(&mut self, buffer: &mut [u8]) -> io::Result<usize>
        ensures bound { ReadsAtMost result buffer.new }
        ensures bytes { ReadConsumes (R.remaining (source_under self.old)) (R.remaining (source_under self.new))
            result buffer.new }
    {
        if self.is_line_long() || self.lines > LINES_MAX {
            return Err(io::Error::from(ErrorKind::InvalidData));
        }
        let count = match self.source.read(buffer) {
            Ok(count) => count,
            Err(error) => return Err(error),
        };
        self.note_all(&buffer[..count]);
        Ok(count)
    }

    // Why it was not read to its end, where a read failed so.
    fn unread(&self, error: &io::Error) -> Unread {
        if self.is_line_long() {
            return Unread::LongLine(self.lines.saturating_add(1));
        }
        Unread::Failed(error.kind())
    }
}

impl<R: Read> Read for ScriptInput<R> {
    ghost use Rattle.program_player.specs.Inputs.{source_under};

    ghost remaining = { λ s. R.remaining (source_under s) };

    fn read(&mut self, buffer: &mut [u8]) -> io::Result<usize> {
        self.read_on(buffer)
    }
}

// Whether the text has more lines than a script may have.
fn has_many_lines(text: &[u8]) -> bool
    ensures { result ≡ true → LINES_MAX < feeds_in text.now }
{
    let mut feeds: u64 = 0;
    for byte in text {
        if *byte == b'\n' {
            feeds = feeds.saturating_add(1);
        }
    }
    feeds > LINES_MAX
}

/// Reads the script that the input holds: all of it, or so much that it has more lines than a script may have
/// (`enough`). No more is read, nor of a line that is too long. (That is only tested.)
pub(crate) fn read_script<R: Read>(alloc: Global, input: &mut R) -> Result<Vec<u8>, Unread>
    ensures enough { IfOk result (λ text. IsEnough (R.remaining input.old) text.items) }
{
    let mut script = ScriptInput::new(input);
    let mut text = Vec::new(alloc);
    match script.read_to_end(&mut text) {
        Ok(_) => Ok(text),
        Err(_) if has_many_lines(&text) => Ok(text),
        Err(error) => Err(script.unread(&error)),
    }
}
