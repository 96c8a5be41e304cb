//! A seat, and what it is given for a ticket.
ghost use Rattle.std.specs.Prelude.{◌≡◌, ◌≢◌, ◌==◌, IfSome, length, unwrap_or};

use board::View;
use locked_core::{Group, Memory, SeatPart};
use nsf_core::Ticket;
use records::Txn;
use std::alloc::Global;
use std::marker::{Model, PhantomData};
use threads_sessions::{Keeping, Told};

/// One thread's place among those that share a core. `K` says whether its commits are kept in memory. To a contract it
/// is a `SeatValue`.
#[derive(Drop)]
pub struct Seat<B: Group, A: Memory = Global, K: Keeping = Told> {
    pub(crate) part: SeatPart<B, A, K>,
    pub(crate) view: View,
    // The mark that it has read last, or 0.
    pub(crate) mark: u64,
}

impl<B: Group, A: Memory, K: Keeping> Model for Seat<B, A, K> {
    ghost use Rattle.std.specs.Prelude.{◌≡◌};
    ghost use Rattle.shared.specs.Seats.{SeatValue};

    ghost Value = { SeatValue };

    ghost view = { λ s. record { number = s.part.number; session = s.part.session; sight = s.view } };

    ghost invariant = { λ s. (s.view.board ≡ B.site.board) × (s.mark ≡ s.view.mark) };
}

/// Says that the record of a ticket is safe on the device. To a contract it is an `AckValue`.
#[derive(Drop)]
pub struct Ack<B: Group> {
    pub(crate) ticket: Ticket,
    pub(crate) view: View,
    pub(crate) site: PhantomData<B>,
}

impl<B: Group> Model for Ack<B> {
    ghost use Rattle.std.specs.Prelude.{◌≡◌, ◌≤◌};
    ghost use Rattle.shared.specs.Seats.{AckValue};

    ghost Value = { AckValue };

    ghost view = { λ a. record { ticket = a.ticket; sight = a.view } };

    ghost invariant = { λ a. (a.view.board ≡ B.site.board) × (a.ticket.«record» ≤ a.view.horizon) };
}

impl<B: Group, A: Memory, K: Keeping> Seat<B, A, K> {
    ghost use Rattle.threads_sessions.specs.Values.{is_active, is_ready, is_unfinished};

    /// Whether the seat has no transaction.
    pub fn is_idle(&self) -> bool
        ensures { result ≡ (length self.now.session.active == 0) }
    {
        self.part.is_idle()
    }

    /// Whether the transaction is one of the seat's.
    pub fn is_active(&self, txn: Txn) -> bool
        ensures { result ≡ is_active self.now.session txn }
    {
        self.part.is_active(txn)
    }

    /// Whether the transaction may begin a change or commit: it is one of the seat's, has no change to finish, and
    /// isn't rolling back.
    pub fn ready(&self, txn: Txn) -> bool
        ensures { result ≡ is_ready self.now.session txn }
    {
        self.part.ready(txn)
    }

    /// Whether the transaction is one of the seat's and has a change to finish.
    pub fn unfinished(&self, txn: Txn) -> bool
        ensures { result ≡ is_unfinished self.now.session txn }
    {
        self.part.unfinished(txn)
    }

    /// The mark that the seat has read last, or 0 where it has read none.
    pub fn last_mark(&self) -> u64
        ensures { result ≡ self.now.sight.mark }
    {
        self.mark
    }
}

// The mark that a word of the board is, unless it is 0.
pub(crate) fn mark_in(word: u64) -> Option<u64>
    ensures word { unwrap_or result 0 ≡ word }
    ensures marked { IfSome result (λ mark. mark ≢ 0) }
{
    if word == 0 { None } else { Some(word) }
}
