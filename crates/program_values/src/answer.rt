//! The lines that the program prints.
use crate::step::Step;
use crate::text::{EntryText, Place, Places, Refusal, RowText, write_life, write_number};
use model::Life;
use records::{Error, Mark, Pair, Rid, Row, Txn};
use std::fmt;
use std::fmt::Display;

/// A line of the output.
#[derive(Drop)]
pub enum Answer {
    /// The number of the new transaction: `txn <n>`.
    Txn(Txn),
    /// Where the row was put: `rid <rid>`.
    Rid(Rid),
    /// A deletion, an update or an end was made: `ok`.
    Done,
    /// A change was taken back: `undone`.
    Undone,
    /// No change was left to take back: `empty`.
    Empty,
    /// The record of a commit or of a creation: `ticket <n>`.
    Ticket(u64),
    /// What a step of the builder or of the cleaner did.
    Made(Step),
    /// Every record up to this one is synced: `horizon <n>`.
    Horizon(u64),
    /// An image of the store is current: `flipped`.
    Flipped,
    /// The row that was asked for: `row <key> <body>`.
    Row(Row),
    /// No row is there: `none`.
    NoRow,
    /// The places of the rows that were asked for, parted by spaces, or `-`.
    Found(Vec<Rid>),
    /// The places of the rows of which just one was to be changed, and none was: `refused several <rid> ..`.
    Several(Vec<Rid>),
    /// How far the index is: `life <life>`.
    Life(Life),
    /// A row of a dump, and its place: `row <rid> <key> <body>`.
    RowAt { rid: Rid, row: Row },
    /// An entry of a dump: `live <pair>` or `marked <pair>`.
    Entry { pair: Pair, mark: Mark },
    /// The store was opened again, with the index so far: `restart <life>`.
    Restart(Life),
    /// The script was cut short: `stopped`.
    Stopped,
    /// The store doesn't serve such a command now: `skipped`.
    Skipped,
    /// Why a command was refused: `refused <number> <name>`, and behind it a sector or line.
    Refused(Error),
}

impl Answer {
    ghost use Rattle.std.specs.Prelude.{◌≡◌};
    ghost use Rattle.program_values.specs.Steps.{is_last_step};

    /// Whether it ends the steps of a command: the index is complete, or the step was refused.
    pub fn is_last_step(&self) -> bool
        ensures { result ≡ is_last_step self.now }
    {
        match self {
            Answer::Made(step) => step.ends_steps(),
            Answer::Refused(_) => true,
            _ => false,
        }
    }
}

impl fmt::Display for Answer {
    ghost use Rattle.std.specs.Prelude.{Some};
    ghost use Rattle.program_values.specs.Texts.{answer_text};

    ghost output = { λ a. Some (answer_text a) };

    fn fmt<W: fmt::Write>(&self, f: &mut fmt::Formatter<W>) -> fmt::Result {
        match self {
            Answer::Txn(txn) => write_number(f, "txn ", txn.number()),
            Answer::Rid(rid) => write!(f, "rid {}", Place(*rid)),
            Answer::Done => f.write_str("ok"),
            Answer::Undone => f.write_str("undone"),
            Answer::Empty => f.write_str("empty"),
            Answer::Ticket(number) => write_number(f, "ticket ", *number),
            Answer::Made(step) => step.fmt(f),
            Answer::Horizon(number) => write_number(f, "horizon ", *number),
            Answer::Flipped => f.write_str("flipped"),
            Answer::Row(row) => write!(f, "row {}", RowText(*row)),
            Answer::NoRow => f.write_str("none"),
            Answer::Found(rids) => Places(rids.as_slice()).fmt(f),
            Answer::Several(rids) => write!(f, "refused several {}", Places(rids.as_slice())),
            Answer::Life(life) => write_life(f, "life ", *life),
            Answer::RowAt { rid, row } => write!(f, "row {} {}", Place(*rid), RowText(*row)),
            Answer::Entry { pair, mark } => EntryText(*pair, *mark).fmt(f),
            Answer::Restart(life) => write_life(f, "restart ", *life),
            Answer::Stopped => f.write_str("stopped"),
            Answer::Skipped => f.write_str("skipped"),
            Answer::Refused(error) => write!(f, "refused {}", Refusal(*error)),
        }
    }
}
