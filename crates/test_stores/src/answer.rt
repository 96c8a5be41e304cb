//! What a store answers.
use model::Life;
use nsf_core::{BuildReply, CleanReply, Ticket};
use records::{Error, Rid, Row, Txn};
use restart::Reply;
use std::alloc::Allocator;

/// An answer. Of the places that were found, how many there are, and the first of them.
#[derive(Clone, Copy, PartialEq)]
pub enum Answer {
    Txn(Txn),
    Rid(Rid),
    Stepped,
    Undone,
    Empty,
    Ended,
    Ticket(Ticket),
    Built(BuildReply),
    Cleaned(CleanReply),
    Horizon(u64),
    LogFull,
    Copied,
    Flipped(u64),
    Again,
    Row(Option<Row>),
    Found(usize, Option<Rid>),
    Life(Life),
    Skipped,
    Refused(Error),
}

impl Answer {
    /// The number up to which all is safe, if that is told.
    pub fn safe(&self) -> Option<u64> {
        match self {
            Answer::Horizon(number) | Answer::Flipped(number) => Some(*number),
            _ => None,
        }
    }

    /// Whether it is one of the device, as a flush or an image gets it.
    pub fn is_of_device(&self) -> bool {
        matches!(
            self,
            Answer::Copied | Answer::Horizon(_) | Answer::Flipped(_)
        )
    }

    /// Whether it tells that the device has failed.
    pub fn is_failure(&self) -> bool {
        matches!(self, Answer::Refused(Error::DeviceFailed))
    }

    /// Whether it tells that memory is wanting.
    pub fn is_want_of_memory(&self) -> bool {
        matches!(self, Answer::Refused(Error::NoMemory))
    }

    /// The number of the record that is told of: one to wait for, or the last that is safe. Of a piece that is copied,
    /// 0.
    pub fn number(&self) -> Option<u64> {
        match self {
            Answer::Copied => Some(0),
            Answer::Ticket(ticket) => Some(ticket.record.get()),
            other => other.safe(),
        }
    }
}

/// What is answered by this reply.
pub(crate) fn answer_of<A: Allocator>(reply: &Reply<A>) -> Answer {
    match reply {
        Reply::Txn(txn) => Answer::Txn(*txn),
        Reply::Rid(rid) => Answer::Rid(*rid),
        Reply::Stepped => Answer::Stepped,
        Reply::Undone => Answer::Undone,
        Reply::Empty => Answer::Empty,
        Reply::Ended => Answer::Ended,
        Reply::Ticket(ticket) => Answer::Ticket(*ticket),
        Reply::Built(built) => Answer::Built(*built),
        Reply::Cleaned(cleaned) => Answer::Cleaned(*cleaned),
        Reply::Horizon(number) => Answer::Horizon(*number),
        Reply::LogFull => Answer::LogFull,
        Reply::Copied => Answer::Copied,
        Reply::Flipped(number) => Answer::Flipped(*number),
        Reply::Again => Answer::Again,
        Reply::Row(row) => Answer::Row(*row),
        Reply::Found(rids) => Answer::Found(rids.len(), rids.first().copied()),
        Reply::Life(life) => Answer::Life(*life),
        Reply::Skipped => Answer::Skipped,
        Reply::Refused(error) => Answer::Refused(*error),
    }
}
