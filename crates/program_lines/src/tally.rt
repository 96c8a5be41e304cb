//! What came of the lines of an input.
use program_commands::Outcome;
use std::io::Write;

/// What came of a line.
#[derive(Clone, Copy)]
pub(crate) enum Came {
    /// It was served, or left out.
    Served,
    /// Its command was refused.
    Refused,
    /// Its command was skipped.
    Skipped,
    /// It is no command.
    NoCommand,
    /// It couldn't be read.
    Unread,
    /// It ends the input.
    Quit,
}

impl Came {
    /// What came of a line whose command came to this.
    pub(crate) fn of(outcome: Outcome) -> Came {
        match outcome {
            Outcome::Skipped => Came::Skipped,
            outcome if outcome.is_refusal() => Came::Refused,
            _ => Came::Served,
        }
    }
}

/// How an input ended.
#[derive(Clone, Copy)]
pub enum Ended {
    /// Each line was one that is served.
    Well,
    /// A line was none.
    WithBadLine,
    /// A command was refused or skipped, and the input was to end with that.
    WithRefusal,
}

/// What came of the lines so far.
#[derive(Clone, Copy, Default)]
pub(crate) struct Tally {
    /// Whether a line was none that is served.
    has_bad_line: bool,
    /// How many commands were refused, and in which line the first one was.
    refused: u64,
    first: u64,
    /// The line of the last command that was skipped.
    skipped: Option<u64>,
}

impl Tally {
    /// Adds what came of the line of this number.
    pub(crate) fn add(&mut self, came: Came, number: u64) {
        match came {
            Came::Refused => {
                if self.refused == 0 {
                    self.first = number;
                }
                self.refused = self.refused.saturating_add(1);
            }
            Came::Skipped => self.skipped = Some(number),
            Came::NoCommand | Came::Unread => self.has_bad_line = true,
            Came::Served | Came::Quit => {}
        }
    }

    /// Tells how many commands were refused, if any was; and which one was skipped, where the input was to end with
    /// that.
    pub(crate) fn tell<E: Write>(&self, stops_on_refusal: bool, errors: &mut E) {
        let Tally {
            refused,
            first,
            skipped,
            ..
        } = *self;
        if let (true, Some(line)) = (stops_on_refusal, skipped) {
            let _ = writeln!(
                errors,
                "nsf-store: the command in line {line} was skipped, and the input ended with it"
            );
        }
        if refused > 0 {
            let _ = writeln!(
                errors,
                "nsf-store: commands refused: {refused}, the first in line {first}"
            );
        }
    }

    /// How the input ended, which may have been to end with a refusal.
    pub(crate) fn ended(&self, stops_on_refusal: bool) -> Ended {
        if self.has_bad_line {
            Ended::WithBadLine
        } else if stops_on_refusal && (self.refused > 0 || self.skipped.is_some()) {
            Ended::WithRefusal
        } else {
            Ended::Well
        }
    }
}
