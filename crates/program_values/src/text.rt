//! How values are spelled in answers.
ghost use Rattle.std.specs.Prelude.{◌≤◌, ◌++◌, Some, length};
ghost use Rattle.std.specs.Fmt.{DisplaysOnOk, decimal};
ghost use Rattle.program_script.specs.Grammar.{rid_text};
ghost use Rattle.program_values.specs.Texts.{bytes_text, further_text, places_text, row_text, pair_text, entry_text};
ghost use Rattle.program_values.specs.Texts.{life_text, refusal_text};

use model::Life;
use records::{BODY_MAX, Error, Mark, Pair, Rid, Row};
use std::fmt;
use std::fmt::Display;

// The most digits that bytes are spelled with.
const DIGITS_MAX: usize = 2 * BODY_MAX;

/// A place of a row: `<page>.<slot>`, both in decimal.
#[derive(Clone, Copy)]
pub struct Place(pub Rid);

impl fmt::Display for Place {
    ghost output = { λ p. Some (rid_text p.0) };

    fn fmt<W: fmt::Write>(&self, f: &mut fmt::Formatter<W>) -> fmt::Result {
        let page = self.0.page;
        let slot = self.0.slot;
        write!(f, "{page}.{slot}")
    }
}

// Writes each place, with a space before it.
fn write_further<W: fmt::Write>(f: &mut fmt::Formatter<W>, rids: &[Rid]) -> fmt::Result
    ensures { DisplaysOnOk W.write_str_gives f.old result (Some (further_text rids.now)) f.new }
{
    for rid in rids {
        let place = Place(*rid);
        write!(f, " {place}")?;
    }
    Ok(())
}

/// Places of rows, parted by spaces, or `-` where there is none.
#[derive(Clone, Copy)]
pub struct Places<'a>(pub &'a [Rid]);

impl fmt::Display for Places<'_> {
    ghost output = { λ p. Some (places_text p.0.now) };

    fn fmt<W: fmt::Write>(&self, f: &mut fmt::Formatter<W>) -> fmt::Result {
        match self.0 {
            [] => f.write_str("-"),
            [first, rest @ ..] => {
                Place(*first).fmt(f)?;
                write_further(f, rest)
            }
        }
    }
}

// Writes the bytes of a key or a body: `:` and two lower-case hexadecimal digits for each.
fn write_bytes<W: fmt::Write>(f: &mut fmt::Formatter<W>, bytes: &[u8]) -> fmt::Result
    requires { length bytes.now ≤ BODY_MAX }
    ensures { DisplaysOnOk W.write_str_gives f.old result (Some (bytes_text bytes.now)) f.new }
{
    let mut room = [0; DIGITS_MAX];
    let digits = &mut room[..2 * bytes.len()];
    hex::encode_to_slice(bytes, digits).map_err(|_| fmt::Error)?;
    let digits = std::str::from_utf8(digits).map_err(|_| fmt::Error)?;
    f.write_str(":")?;
    f.write_str(digits)
}

/// A row: its key and its body.
#[derive(Clone, Copy)]
pub struct RowText(pub Row);

impl fmt::Display for RowText {
    ghost output = { λ r. Some (row_text r.0) };

    fn fmt<W: fmt::Write>(&self, f: &mut fmt::Formatter<W>) -> fmt::Result {
        write_bytes(f, self.0.key.as_slice())?;
        f.write_str(" ")?;
        write_bytes(f, self.0.body.as_slice())
    }
}

/// A pair: its key and its place.
#[derive(Clone, Copy)]
pub struct PairText(pub Pair);

impl fmt::Display for PairText {
    ghost output = { λ p. Some (pair_text p.0) };

    fn fmt<W: fmt::Write>(&self, f: &mut fmt::Formatter<W>) -> fmt::Result {
        write_bytes(f, self.0.key.as_slice())?;
        let place = Place(self.0.rid);
        write!(f, " {place}")
    }
}

/// Writes a text, and a number behind it.
pub(crate) fn write_number<W: fmt::Write>(
    f: &mut fmt::Formatter<W>,
    text: &str,
    number: u64,
) -> fmt::Result
    ensures { DisplaysOnOk W.write_str_gives f.old result (Some (text.now ++ decimal number)) f.new }
{
    write!(f, "{text}{number}")
}

/// Writes a text, and a pair behind it.
pub(crate) fn write_pair<W: fmt::Write>(
    f: &mut fmt::Formatter<W>,
    text: &str,
    pair: Pair,
) -> fmt::Result
    ensures { DisplaysOnOk W.write_str_gives f.old result (Some (text.now ++ pair_text pair)) f.new }
{
    let pair = PairText(pair);
    write!(f, "{text}{pair}")
}

/// An entry: `live` or `marked`, and its pair.
#[derive(Clone, Copy)]
pub struct EntryText(pub Pair, pub Mark);

impl fmt::Display for EntryText {
    ghost output = { λ e. Some (entry_text e.0 e.1) };

    fn fmt<W: fmt::Write>(&self, f: &mut fmt::Formatter<W>) -> fmt::Result {
        match self.1 {
            Mark::Live => write_pair(f, "live ", self.0),
            Mark::Marked => write_pair(f, "marked ", self.0),
        }
    }
}

/// How far the index is: `none`, `building` with the last checkpointed pair or `-`, or `complete`.
#[derive(Clone, Copy)]
pub struct LifeText(pub Life);

impl fmt::Display for LifeText {
    ghost output = { λ l. Some (life_text l.0) };

    fn fmt<W: fmt::Write>(&self, f: &mut fmt::Formatter<W>) -> fmt::Result {
        match self.0 {
            Life::Absent => f.write_str("none"),
            Life::Building { highest } => match highest {
                None => f.write_str("building -"),
                Some(pair) => write_pair(f, "building ", pair),
            },
            Life::Complete => f.write_str("complete"),
        }
    }
}

/// Writes a text, and how far the index is behind it.
pub(crate) fn write_life<W: fmt::Write>(
    f: &mut fmt::Formatter<W>,
    text: &str,
    life: Life,
) -> fmt::Result
    ensures { DisplaysOnOk W.write_str_gives f.old result (Some (text.now ++ life_text life)) f.new }
{
    let life = LifeText(life);
    write!(f, "{text}{life}")
}

/// A refusal: its number and its name, and the sector or line that it names.
#[derive(Clone, Copy)]
pub struct Refusal(pub Error);

impl fmt::Display for Refusal {
    ghost output = { λ r. Some (refusal_text r.0) };

    fn fmt<W: fmt::Write>(&self, f: &mut fmt::Formatter<W>) -> fmt::Result {
        let error = self.0;
        let number = error.number();
        let name = error.name();
        match error {
            Error::Damaged { sector } => write!(f, "{number} {name} {sector}"),
            Error::BadScript { line } => write!(f, "{number} {name} {line}"),
            _ => write!(f, "{number} {name}"),
        }
    }
}
