//! The calls of a seat over a store, each made here once.
ghost use Rattle.std.specs.Prelude.{◌≡◌};

use crate::calls::Calls;
use crate::chairs::Player;
use crate::waits::Waits;
use model::Life;
use nsf_core::Ticket;
use records::{Body, Error, Key, Rid, Row, Txn};
use shared::{Change, Group, Kept, Memory, Placed, Refusal, Seat, Shared};
use std::sync::Wait;

/// A seat, and its number.
#[derive(Drop)]
pub(crate) struct Numbered<B: Group, A: Memory> {
    pub(crate) seat: Seat<B, A, Kept>,
    pub(crate) number: usize,
    ghost is_so: { seat.number ≡ number },
}

/// A seat at its store.
#[derive(Drop)]
pub(crate) struct AtSeat<'a, B: Group, A: Memory, R, W> {
    pub(crate) rt: &'a R,
    pub(crate) shared: &'a Shared<B, A>,
    pub(crate) waits: &'a W,
    pub(crate) at: &'a mut Numbered<B, A>,
}

/// Lets it play at the seat: the one place where a seat of a store is handed to what is generic over its calls, since
/// each such place costs much to prove.
pub(crate) fn let_play<B: Group, A: Memory, P: Player, R: Wait, W: Waits<B, A>>(
    rt: &R,
    shared: &Shared<B, A>,
    waits: &W,
    at: &mut Numbered<B, A>,
    player: &mut P,
) {
    let mut seat = AtSeat {
        rt,
        shared,
        waits,
        at,
    };
    player.play(&mut seat);
}

// Why a transaction of one change was refused. One that is left is told as another refusal.
fn refused_by(refusal: Refusal) -> Error {
    match refusal.left {
        None => refusal.error,
        Some(_) => Error::TxnsActive,
    }
}

impl<B: Group, A: Memory, R: Wait, W: Waits<B, A>> Calls for AtSeat<'_, B, A, R, W> {
    fn begin(&mut self) -> Result<Txn, Error> {
        let at = &mut *self.at;
        self.shared.begin(self.rt, &mut at.seat)
    }

    fn insert(&mut self, txn: Txn, key: Key, body: Body) -> Result<Change, Error> {
        let at = &mut *self.at;
        self.shared
            .insert_if_ready(self.rt, &mut at.seat, txn, key, body)
    }

    fn update(&mut self, txn: Txn, rid: Rid, key: Key, body: Body) -> Result<Change, Error> {
        let at = &mut *self.at;
        self.shared
            .update_if_ready(self.rt, &mut at.seat, txn, rid, key, body)
    }

    fn delete(&mut self, txn: Txn, rid: Rid) -> Result<Change, Error> {
        let at = &mut *self.at;
        self.shared.delete_if_ready(self.rt, &mut at.seat, txn, rid)
    }

    fn carry_on(&mut self, txn: Txn) -> Result<(), Error> {
        let at = &mut *self.at;
        self.shared.carry_on(self.rt, &mut at.seat, txn)
    }

    fn abort(&mut self, txn: Txn) -> Result<(), Error> {
        let at = &mut *self.at;
        self.shared.abort(self.rt, &mut at.seat, txn)
    }

    fn commit(&mut self, txn: Txn) -> Result<Ticket, Error> {
        let at = &mut *self.at;
        self.shared.commit_if_ready(self.rt, &mut at.seat, txn)
    }

    fn put_at_once(&mut self, key: Key, body: Body) -> Result<Placed, Error> {
        let at = &mut *self.at;
        match self.shared.put(self.rt, &mut at.seat, key, body) {
            Ok(placed) => Ok(placed),
            Err(refusal) => Err(refused_by(refusal)),
        }
    }

    fn replace_at_once(&mut self, rid: Rid, key: Key, body: Body) -> Result<Ticket, Error> {
        let at = &mut *self.at;
        match self.shared.replace(self.rt, &mut at.seat, rid, key, body) {
            Ok(ticket) => Ok(ticket),
            Err(refusal) => Err(refused_by(refusal)),
        }
    }

    fn remove_at_once(&mut self, rid: Rid) -> Result<Ticket, Error> {
        let at = &mut *self.at;
        match self.shared.remove(self.rt, &mut at.seat, rid) {
            Ok(ticket) => Ok(ticket),
            Err(refusal) => Err(refused_by(refusal)),
        }
    }

    fn await_ack(&mut self, ticket: Ticket) -> Result<(), Error> {
        self.waits.wait(self.rt, self.shared, self.at, ticket)
    }

    fn create_index(&mut self) -> Result<Ticket, Error> {
        let at = &mut *self.at;
        self.shared.create_index(self.rt, &mut at.seat)
    }

    fn drop_index(&mut self) -> Result<Ticket, Error> {
        let at = &mut *self.at;
        self.shared.drop_index(self.rt, &mut at.seat)
    }

    fn get(&mut self, rid: Rid) -> Option<Row> {
        let at = &mut *self.at;
        self.shared.get(self.rt, &mut at.seat, rid)
    }

    fn find_one(&mut self, key: Key) -> Result<Option<Rid>, Error> {
        let at = &mut *self.at;
        let found = self.shared.find(self.rt, &mut at.seat, key)?;
        match found.as_slice() {
            [rid] => Ok(Some(*rid)),
            _ => Ok(None),
        }
    }

    fn life(&mut self) -> Life {
        let at = &mut *self.at;
        self.shared.life(self.rt, &mut at.seat)
    }

    fn marked(&mut self) -> usize {
        let at = &mut *self.at;
        self.shared.counts(self.rt, &mut at.seat).marked
    }

    fn has_failed(&mut self) -> bool {
        let at = &mut *self.at;
        self.shared.another_view(&mut at.seat).failed(self.shared)
    }

    fn is_acked(&mut self, ticket: Ticket) -> bool {
        let at = &mut *self.at;
        self.shared.is_acked(&mut at.seat, ticket)
    }

    fn progress(&mut self) -> u64 {
        let at = &mut *self.at;
        self.shared.progress(&mut at.seat)
    }

    fn ask_to_stop(&mut self, txn: Txn) -> bool {
        let at = &mut *self.at;
        self.shared.mark(&mut at.seat);
        self.shared.stop(&mut at.seat);
        at.seat.ready(txn)
    }
}
