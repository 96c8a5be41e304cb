//! What a scan asks of the store, and what is printed for it.
ghost use Rattle.std.specs.Prelude.{◌≡◌, ◌-◌, ◌^◌, IfOk, None, OnOk};
ghost use Rattle.std.specs.Io.KnownBytes.{Appends};
ghost use Rattle.std.specs.Option.{unwrap_or};
ghost use Rattle.core_scan.specs.Answered.{IsCountOf};
ghost use Rattle.program_values.specs.Texts.{line_of};
ghost use Rattle.program_commands.specs.Pages.{bound_asked, end_line, page_text, pair_line, pair_lines, range_asked};

use crate::outcome::Outcome;
use crate::store::Store;
use core_scan::{KeyRange, Page, count, scan, scan_back};
use program_script::{ByteText, Scan, Span};
use program_values::{Answer, PairText};
use records::{Error, Key, Pair};
use sector_device::Device;
use std::alloc::Global;
use std::io;
use std::io::Write;
use std::ops::Bound;

/// A range of the index, whether its last pair is to come first, and how many of its pairs are asked for at most.
#[derive(Clone, Copy)]
pub struct PageRequest {
    pub range: KeyRange,
    pub is_back: bool,
    pub limit: usize,
}

// The bound that has this key.
fn bound_of(key: &ByteText) -> Result<Bound<Key>, Error>
    ensures { result ≡ bound_asked key.now }
{
    Ok(Bound::Included(Key::new(key.as_slice())?))
}

// The range of the keys that a scan gives.
fn range_of(span: &Span) -> Result<KeyRange, Error>
    ensures { result ≡ range_asked span.now }
{
    match span {
        Span::Whole => Ok(KeyRange {
            from: Bound::Unbounded,
            to: Bound::Unbounded,
        }),
        Span::From { first } => Ok(KeyRange {
            from: bound_of(first)?,
            to: Bound::Unbounded,
        }),
        Span::Between { first, last } => Ok(KeyRange {
            from: bound_of(first)?,
            to: bound_of(last)?,
        }),
    }
}

// How many pairs are asked for; without a number as many as there may be.
fn limit_of(limit: Option<u32>) -> usize
    ensures { result ≡ unwrap_or limit (2 ^ 64 - 1) }
{
    match limit {
        Some(count) => count as usize,
        None => usize::MAX,
    }
}

impl PageRequest {
    ghost use Rattle.program_commands.specs.Pages.{page_asked};

    /// The page that the scan asks for. `KeyTooLong` where a key has too many bytes.
    pub fn of(scan: &Scan) -> Result<Self, Error>
        ensures { result ≡ page_asked scan.now }
    {
        let range = range_of(&scan.span)?;
        let limit = limit_of(scan.limit);
        Ok(PageRequest {
            range,
            is_back: scan.is_back,
            limit,
        })
    }
}

// Prints a pair.
fn print_pair<W: Write>(pair: Pair, output: &mut W) -> io::Result<()>
    ensures { OnOk result (Appends (W.contents output.old) (W.contents output.new) (pair_line pair)) }
{
    let pair = PairText(pair);
    writeln!(output, "{pair}")
}

// Prints pairs, a line each.
fn print_pairs<W: Write>(pairs: &[Pair], output: &mut W) -> io::Result<()>
    ensures { OnOk result (Appends (W.contents output.old) (W.contents output.new) (pair_lines pairs.now)) }
{
    for pair in pairs {
        print_pair(*pair, output)?;
    }
    Ok(())
}

// Prints whether more is left behind a page, and the pair behind which.
fn print_end<W: Write>(next: Option<Pair>, output: &mut W) -> io::Result<()>
    ensures { OnOk result (Appends (W.contents output.old) (W.contents output.new) (end_line next)) }
{
    match next {
        Some(pair) => {
            let pair = PairText(pair);
            writeln!(output, "more {pair}")
        }
        None => writeln!(output, "end"),
    }
}

// Prints a page.
fn print_lines<W: Write>(page: &Page<Global>, output: &mut W) -> io::Result<()>
    ensures { OnOk result (Appends (W.contents output.old) (W.contents output.new)
        (page_text page.now)) }
{
    print_pairs(page.pairs.as_slice(), output)?;
    print_end(page.next, output)
}

// Prints why there is no answer.
fn print_refusal<W: Write>(error: Error, output: &mut W) -> io::Result<()>
    ensures { OnOk result (Appends (W.contents output.old) (W.contents output.new) (line_of (Answer.Refused error))) }
{
    let answer = Answer::Refused(error);
    writeln!(output, "{answer}")
}

impl<D: Device> Store<D> {
    ghost use Rattle.program_commands.specs.Pages.{IsPageAsked, PrintsCount, PrintsPage};
    ghost use Rattle.program_commands.specs.Store.{entries_of, life_of};

    // The first page of the range, or the last one backward.
    fn page_of(&self, alloc: Global, asked: &PageRequest) -> Result<Page<Global>, Error>
        ensures { IsPageAsked (entries_of self.now) (life_of self.now) asked.now result }
    {
        if asked.is_back {
            return scan_back(alloc, self.core(), &asked.range, None, asked.limit);
        }
        scan(alloc, self.core(), &asked.range, None, asked.limit)
    }

    /// Prints the first page of the range that is asked for, or the last one, from its last pair back: a line for each
    /// pair, in order, and then `end`, or (with a limit above 0) `more` and the last of these pairs where more is left
    /// of the range. Or it prints why there is none: `NoIndex`, `NotBuilt` or `NoMemory`. It tells what came of it.
    pub fn print_page<W: Write>(
        &self,
        alloc: Global,
        asked: &PageRequest,
        output: &mut W,
    ) -> io::Result<Outcome>
        ensures { IfOk result (λ outcome.
            PrintsPage W.contents self.now asked.now outcome output.old output.new) }
    {
        match self.page_of(alloc, asked) {
            Ok(page) => {
                print_lines(&page, output)?;
                Ok(Outcome::Other)
            }
            Err(error) => {
                print_refusal(error, output)?;
                Ok(Outcome::Refused(error))
            }
        }
    }

    // How many visible pairs the range has.
    fn count_of(&self, range: &KeyRange) -> Result<u64, Error>
        ensures { IsCountOf (entries_of self.now) (life_of self.now) range.now result }
    {
        count(self.core(), range)
    }

    /// Prints how many visible pairs the range has, or why that isn't known: `NoIndex` or `NotBuilt`. It tells what
    /// came of it.
    pub fn print_count<W: Write>(&self, range: &KeyRange, output: &mut W) -> io::Result<Outcome>
        ensures { IfOk result (λ outcome.
            PrintsCount W.contents self.now range.now outcome output.old output.new) }
    {
        match self.count_of(range) {
            Ok(count) => {
                writeln!(output, "{count}")?;
                Ok(Outcome::Other)
            }
            Err(error) => {
                print_refusal(error, output)?;
                Ok(Outcome::Refused(error))
            }
        }
    }
}
