//! A source of comma-separated fields that is watched for a quote that nothing closes.
ghost use Rattle.std.specs.Prelude.{◌≡◌, ◌+◌, ◌-◌, ◌^◌, [], false, length, min, take, true, IfOk, OnErr, OnOk};
ghost use Rattle.std.specs.Io.{ReadsAtMost};
ghost use Rattle.std.specs.Io.KnownBytes.{ReadConsumes};
ghost use Rattle.program_quotes.specs.Quotes.{ends_field, is_in_quote, place_after, place_in_mark, place_of_first};
ghost use Rattle.program_quotes.specs.Quotes.{ends_record, place_outside, place_then, record_after};

use std::io;
use std::io::{ErrorKind, Read};

/// The most bytes that a record of a text may have, its quotes and commas with it.
pub const RECORD_MAX: u64 = 1 << 20;

/// Where in a text the next byte stands.
#[derive(Clone, Copy)]
pub(crate) enum Place {
    /// At the start of the text.
    TextStart,
    /// Behind the first byte of what may be a byte order mark.
    MarkSecond,
    /// Behind the second one.
    MarkThird,
    /// At the start of a field.
    FieldStart,
    /// In a field, outside of quotes.
    InField,
    /// Inside a quote.
    InQuote,
    /// Behind a quote within quotes: another one would stand for a quote.
    BehindQuote,
}

// Whether a field ends with this byte, outside of quotes.
fn ends_field(byte: u8) -> bool
    ensures { result ≡ ends_field byte }
{
    byte == b',' || byte == b'\r' || byte == b'\n'
}

// Where the next byte stands behind this one, which is outside of quotes.
fn place_outside(byte: u8) -> Place
    ensures { result ≡ place_outside byte }
{
    if ends_field(byte) {
        Place::FieldStart
    } else {
        Place::InField
    }
}

// The same where the byte is the first one of a field.
fn place_of_first(byte: u8) -> Place
    ensures { result ≡ place_of_first byte }
{
    if byte == b'"' {
        Place::InQuote
    } else {
        place_outside(byte)
    }
}

// The same where this byte of a byte order mark would be followed by that place.
fn place_in_mark(byte: u8, wanted: u8, next: Place) -> Place
    ensures { result ≡ place_in_mark byte wanted next }
{
    if byte == wanted {
        next
    } else {
        place_outside(byte)
    }
}

// The same at the start of the text.
fn place_of_text(byte: u8) -> Place
    ensures { result ≡ place_then Place.TextStart byte }
{
    if byte == 0xef {
        Place::MarkSecond
    } else {
        place_of_first(byte)
    }
}

// The same inside a quote.
fn place_quoted(byte: u8) -> Place
    ensures { result ≡ place_then Place.InQuote byte }
{
    if byte == b'"' {
        Place::BehindQuote
    } else {
        Place::InQuote
    }
}

impl Place {
    // Where the next byte stands behind this one.
    fn then(self, byte: u8) -> Place
        ensures { result ≡ place_then self byte }
    {
        match self {
            Place::TextStart => place_of_text(byte),
            Place::MarkSecond => place_in_mark(byte, 0xbb, Place::MarkThird),
            Place::MarkThird => place_in_mark(byte, 0xbf, Place::FieldStart),
            Place::FieldStart => place_of_first(byte),
            Place::InField => place_outside(byte),
            Place::InQuote => place_quoted(byte),
            Place::BehindQuote => place_in_mark(byte, b'"', Place::InQuote),
        }
    }

    // Where the next byte stands behind these.
    fn behind(self, bytes: &[u8]) -> Place
        ensures { result ≡ place_after self bytes.now }
    {
        let mut place = self;
        for byte in bytes {
            place = place.then(*byte);
        }
        place
    }

    // Whether a record ends with this byte.
    fn ends_record(self, byte: u8) -> bool
        ensures { result ≡ ends_record self byte }
    {
        !self.is_in_quote() && (byte == b'\r' || byte == b'\n')
    }

    // How long a record is behind these bytes, of which so many were read before.
    fn record_behind(self, before: u64, bytes: &[u8]) -> u64
        ensures { result ≡ record_after self before bytes.now }
    {
        let mut place = self;
        let mut record = before;
        for byte in bytes {
            record = if place.ends_record(*byte) {
                0
            } else {
                record.saturating_add(1)
            };
            place = place.then(*byte);
        }
        record
    }

    fn is_in_quote(self) -> bool
        ensures { result ≡ is_in_quote self }
    {
        matches!(self, Place::InQuote)
    }
}

/// A source that is watched as it is read.
#[derive(Drop)]
pub struct Watched<R: Read> {
    source: R,
    // Where the next byte stands.
    place: Place,
    // Whether the last read gave none.
    has_ended: bool,
    // How many bytes the reads gave.
    passed: u64,
    // How many of them stand behind the last line end outside of quotes.
    record: u64,
}

impl<R: Read> Watched<R> {
    ghost use Rattle.program_quotes.specs.Quotes.{has_ended, is_cut_off, is_too_long, passed_in, place_in};
    ghost use Rattle.program_quotes.specs.Quotes.{record_in, source_under};

    /// The source, from which nothing is read yet.
    pub fn new(source: R) -> Self
        ensures source { source_under result ≡ source }
        ensures start { place_in result ≡ Place.TextStart }
        ensures fresh { has_ended result ≡ false }
        ensures none { passed_in result ≡ 0 }
        ensures record { record_in result ≡ 0 }
    {
        Watched {
            source,
            place: Place::TextStart,
            has_ended: false,
            passed: 0,
            record: 0,
        }
    }

    /// How many bytes were read.
    pub fn passed(&self) -> u64
        ensures { result ≡ passed_in self.now }
    {
        self.passed
    }

    /// Whether the last read gave no byte.
    pub fn has_ended(&self) -> bool
        ensures { result ≡ has_ended self.now }
    {
        self.has_ended
    }

    /// Whether the text ended inside a quote.
    pub fn is_cut_off(&self) -> bool
        ensures { result ≡ is_cut_off self.now }
    {
        self.has_ended && self.place.is_in_quote()
    }

    /// Whether a record has more bytes than it may have, so far as it was read.
    pub fn is_too_long(&self) -> bool
        ensures { result ≡ is_too_long self.now }
    {
        self.record > RECORD_MAX
    }

    // Notes the bytes of a read. An error where there is none inside a quote.
    fn note(&mut self, bytes: &[u8]) -> io::Result<()>
        ensures source { source_under self.new ≡ source_under self.old }
        ensures place { place_in self.new ≡ place_after (place_in self.old) bytes.now }
        ensures counted { passed_in self.new ≡ min (passed_in self.old + length bytes.now) (2 ^ 64 - 1) }
        ensures record { record_in self.new ≡ record_after (place_in self.old) (record_in self.old) bytes.now }
        ensures none { OnErr result (bytes.now ≡ []) }
        ensures cut { OnErr result (is_cut_off self.new ≡ true) }
        ensures whole { OnOk result (is_cut_off self.new ≡ false) }
    {
        self.record = self.place.record_behind(self.record, bytes);
        self.place = self.place.behind(bytes);
        self.has_ended = bytes.is_empty();
        self.passed = self.passed.saturating_add(bytes.len() as u64);
        if self.is_cut_off() {
            return Err(io::Error::from(ErrorKind::InvalidData));
        }
        Ok(())
    }

    // Reads on. Where the text ends inside a quote, that is an error, each time; and once a record is too long, no more
    // is read.
    fn read_on(&mut self, buffer: &mut [u8]) -> io::Result<usize>
        ensures bound { ReadsAtMost result buffer.new }
        ensures bytes { ReadConsumes (R.remaining (source_under self.old)) (R.remaining (source_under self.new))
            result buffer.new }
        ensures place { IfOk result (λ n. place_in self.new ≡ place_after (place_in self.old) (take n buffer.new)) }
        ensures counted { IfOk result (λ n. passed_in self.new
            ≡ min (passed_in self.old + length (take n buffer.new)) (2 ^ 64 - 1)) }
        ensures whole { OnOk result (is_cut_off self.new ≡ false) }
        ensures short { OnOk result (is_too_long self.old ≡ false) }
        ensures stays { is_too_long self.old ≡ true → self.new ≡ self.old }
    {
        if self.is_too_long() {
            return Err(io::Error::from(ErrorKind::InvalidData));
        }
        let count = match self.source.read(buffer) {
            Ok(count) => count,
            Err(error) => return Err(error),
        };
        match self.note(&buffer[..count]) {
            Ok(()) => Ok(count),
            Err(error) => Err(error),
        }
    }
}

impl<R: Read> Read for Watched<R> {
    ghost use Rattle.program_quotes.specs.Quotes.{source_under};

    ghost remaining = { λ w. R.remaining (source_under w) };

    fn read(&mut self, buffer: &mut [u8]) -> io::Result<usize> {
        self.read_on(buffer)
    }
}
