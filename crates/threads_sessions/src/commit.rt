//! Commits.
ghost use Rattle.std.specs.Prelude.{◌≡◌};

use model::Write;
use nsf_core::Ticket;
use records::RecordNumber;
use std::alloc::{Allocator, Global};
use std::marker::Model;

/// A commit: its ticket, and the row that it left at each place that its transaction held. To a contract it is a
/// `CommitValue`.
#[derive(Drop)]
pub struct Commit<A: Allocator = Global> {
    pub(crate) record: RecordNumber,
    pub(crate) number: Option<u64>,
    pub(crate) writes: Vec<Write, A>,
}

impl<A: Allocator> Model for Commit<A> {
    ghost use Rattle.threads_sessions.specs.Values.{CommitValue};

    ghost Value = { CommitValue };

    ghost view = { λ c. record {
      ticket = record { «record» = c.«record»; commit = c.number };
      writes = c.writes.items;
    } };
}

impl<A: Allocator> Commit<A> {
    /// The numbers of its record and of the commit.
    pub fn ticket(&self) -> Ticket
        ensures { result ≡ self.now.ticket }
    {
        Ticket {
            record: self.record,
            commit: self.number,
        }
    }

    /// The row that it left at each place that its transaction held.
    pub fn writes(&self) -> &[Write]
        ensures { result.now ≡ self.now.writes }
    {
        &self.writes
    }

    // The list of these rows.
    pub(crate) fn into_writes(self) -> Vec<Write, A> {
        let Commit {
            record: _,
            number: _,
            writes,
        } = self;
        writes
    }
}
