//! A seat's part of what is shared.
ghost use Rattle.std.specs.Prelude.{◌≡◌, ◌==◌, ◌<◌, length};
ghost use Rattle.threads_sessions.specs.Values.{empty_session, is_active, is_ready, is_unfinished};

use crate::group::Group;
use records::Txn;
use std::alloc::Global;
use std::marker::{Model, PhantomData};
use threads_queue::Memory;
use threads_sessions::{Half, Keeping, Session, Told};

/// A seat's session, with the half of it that is tied to the one under the lock. To a contract it is a `SeatValue`.
#[derive(Drop)]
pub struct SeatPart<B: Group, A: Memory = Global, K: Keeping = Told> {
    pub(crate) number: usize,
    pub(crate) session: Session<A, K>,
    pub(crate) half: Half<A>,
    pub(crate) site: PhantomData<B>,
}

impl<B: Group, A: Memory, K: Keeping> Model for SeatPart<B, A, K> {
    ghost use Rattle.std.specs.Prelude.{◌≡◌, ◌<◌};
    ghost use Rattle.locked_core.specs.Seats.{SeatValue};

    ghost Value = { SeatValue };

    ghost view = { λ s. record { number = s.number; session = s.session } };

    ghost invariant = { λ s. (s.half ≡ record { table = B.site.table; number = s.number; session = s.session })
        × (s.number < B.site.seats) };
}

impl<B: Group, A: Memory, K: Keeping> SeatPart<B, A, K> {
    /// The seat of this number, with nothing in its session.
    pub fn new(alloc: A, number: usize, half: Half<A>) -> SeatPart<B, A, K>
        requires half { half ≡ record { table = B.site.table; number = number; session = empty_session } }
        requires number { number < B.site.seats }
        ensures { result ≡ record { number = number; session = empty_session } }
    {
        SeatPart {
            number,
            session: Session::new(alloc),
            half,
            site: PhantomData,
        }
    }

    /// The session.
    pub fn into_session(self) -> Session<A, K>
        ensures { result ≡ self.session }
    {
        let SeatPart {
            number: _,
            session,
            half: _,
            site: _,
        } = self;
        session
    }

    /// Whether the seat has no transaction.
    pub fn is_idle(&self) -> bool
        ensures { result ≡ (length self.now.session.active == 0) }
    {
        self.session.is_idle()
    }

    /// Whether the transaction is one of the seat's.
    pub fn is_active(&self, txn: Txn) -> bool
        ensures { result ≡ is_active self.now.session txn }
    {
        self.session.is_active(txn)
    }

    /// Whether the transaction may begin a change or commit: it is one of the seat's, has no change to finish, and
    /// isn't rolling back.
    pub fn ready(&self, txn: Txn) -> bool
        ensures { result ≡ is_ready self.now.session txn }
    {
        self.session.ready(txn)
    }

    /// Whether the transaction is one of the seat's and has a change to finish.
    pub fn unfinished(&self, txn: Txn) -> bool
        ensures { result ≡ is_unfinished self.now.session txn }
    {
        self.session.unfinished(txn)
    }
}
