//! The lines that are printed for steps of the builder and the cleaner.
ghost use Rattle.std.specs.Prelude.{◌≡◌, Some};
ghost use Rattle.program_values.specs.Texts.{step_text};
ghost use Rattle.program_values.specs.Steps.{ends_steps};

use crate::text::{PairText, write_number, write_pair};
use records::Pair;
use std::fmt;

/// What a step of the builder or of the cleaner did.
#[derive(Clone, Copy)]
pub enum Step {
    /// The builder took the pairs of a page: `scanned <page>`.
    Scanned(u32),
    /// It placed a pair: `placed <pair>`.
    Placed(Pair),
    /// It left a pair that had an entry: `rejected <pair>`.
    Rejected(Pair),
    /// It made a checkpoint of a pair, by this record: `marked <pair> ticket <n>`.
    Marked(Pair, u64),
    /// It completed the index, by this record: `done ticket <n>`.
    Completed(u64),
    /// The index was complete before: `idle`.
    Idle,
    /// The cleaner took an entry out: `cleaned <pair>`.
    Cleaned(Pair),
    /// It left an entry: `kept <pair>`.
    Kept(Pair),
    /// It was at the end, and begins anew: `wrapped`.
    Wrapped,
}

impl Step {
    /// Whether no step follows it in the same command: the index is complete.
    pub fn ends_steps(&self) -> bool
        ensures { result ≡ ends_steps self.now }
    {
        matches!(self, Step::Completed(_) | Step::Idle)
    }
}

impl fmt::Display for Step {
    ghost output = { λ s. Some (step_text s) };

    fn fmt<W: fmt::Write>(&self, f: &mut fmt::Formatter<W>) -> fmt::Result {
        match *self {
            Step::Scanned(page) => write_number(f, "scanned ", u64::from(page)),
            Step::Placed(pair) => write_pair(f, "placed ", pair),
            Step::Rejected(pair) => write_pair(f, "rejected ", pair),
            Step::Marked(pair, number) => {
                let pair = PairText(pair);
                write!(f, "marked {pair} ticket {number}")
            }
            Step::Completed(number) => write_number(f, "done ticket ", number),
            Step::Idle => f.write_str("idle"),
            Step::Cleaned(pair) => write_pair(f, "cleaned ", pair),
            Step::Kept(pair) => write_pair(f, "kept ", pair),
            Step::Wrapped => f.write_str("wrapped"),
        }
    }
}
