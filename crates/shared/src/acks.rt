//! What a seat learns from the board. No call here takes the lock.
ghost use Rattle.std.specs.Prelude.{◌≡◌, ◌≢◌, ◌≤◌, ◌↔◌, ◌<◌, false, true, IfErr, IfNone, IfOk, IfSome, IsTrue};
ghost use Rattle.std.specs.Prelude.{unwrap_or};
ghost use Rattle.shared.specs.Waits.{HasReadWhy, IsAcked, IsNotAcked};

use crate::seat::{Ack, Seat, mark_in};
use crate::shared::Shared;
use locked_core::{Group, Memory};
use nsf_core::Ticket;
use records::Error;
use std::hint;
use std::marker::PhantomData;
use std::sync::Wait;
use std::time::Duration;
use threads_sessions::Keeping;

// A seat looks so often for the horizon before it sleeps: more often where nobody else sleeps for it. No sleep is
// longer than so many microseconds.
const LOOKS: u32 = 16;

const LOOKS_ALONE: u32 = 128;

// Where it is the only one that looks for a ring, it looks so often before that, and so many times more as long as
// nobody else sleeps for it: else a lone seat and the flusher would often wake each other.
const RING_LOOKS: u32 = 400;

const TURNS_ALONE: u32 = 9;

const LAST_ALONE: u32 = LOOKS_ALONE + TURNS_ALONE;

const LONGEST_SLEEP: u64 = 1_000;

impl<B: Group, A: Memory> Shared<B, A> {
    /// Whether the record of the ticket is safe on the device, by the horizon as it is read now. It takes no memory and
    /// waits for nothing.
    pub fn is_acked<K: Keeping>(&self, seat: &mut Seat<B, A, K>, ticket: Ticket) -> bool
        ensures reached { IsTrue result ↔ (ticket.«record» ≤ seat.new.sight.horizon) }
        ensures seen { seat.new ≡ record seat.old {
          sight = record seat.old.sight {
            horizon = seat.new.sight.horizon;
            checked = false;
          };
        } }
        ensures rises { seat.old.sight.horizon ≤ seat.new.sight.horizon }
    {
        self.board.horizon(&mut seat.view) >= ticket.record.get()
    }

    /// A mark that the flusher has noted, a number of the device's clock: the last one as it is read. `None` where it
    /// noted none, as of a device without a clock. (That it is the last, or that one is noted where there is a clock,
    /// no clause says.) It takes no memory and waits for nothing.
    ///
    /// The seat keeps beside it the horizon that it has seen by now. A crash at any moment since the marked one keeps
    /// that horizon (`settle` of `FlushPart`).
    pub fn mark<K: Keeping>(&self, seat: &mut Seat<B, A, K>) -> Option<u64>
        ensures seen { seat.new ≡ record seat.old {
          sight = record seat.old.sight {
            mark = unwrap_or result 0;
            safe = seat.old.sight.horizon;
          };
        } }
        ensures marked { IfSome result (λ mark. mark ≢ 0) }
    {
        seat.mark = self.board.mark(&mut seat.view);
        mark_in(seat.mark)
    }

    // An acknowledgement, where the horizon that is read reaches the record.
    fn try_ack<K: Keeping>(&self, seat: &mut Seat<B, A, K>, ticket: &Ticket) -> Option<Ack<B>>
        ensures acked { IfSome result (λ ack. IsAcked ticket.now seat.old seat.new ack) }
        ensures none { IfNone result (seat.new.sight.horizon < ticket.now.«record») }
        ensures seen { IfNone result (seat.new ≡ record seat.old
            { sight = record seat.old.sight { horizon = seat.new.sight.horizon; checked = false } }) }
        ensures rises { seat.old.sight.horizon ≤ seat.new.sight.horizon }
    {
        if self.board.horizon(&mut seat.view) < ticket.record.get() {
            return None;
        }
        let view = self.board.another(&mut seat.view);
        Some(Ack {
            ticket: *ticket,
            view,
            site: PhantomData,
        })
    }

    // Why the seat waits no longer, if so.
    fn ended<K: Keeping>(&self, seat: &mut Seat<B, A, K>) -> Option<Error>
        ensures why { IfSome result (λ e. HasReadWhy e seat.old seat.new) }
        ensures none { IfNone result (seat.new ≡ record seat.old { sight = record seat.old.sight { checked = true } }) }
        ensures unfailed { IfNone result (seat.old.sight.failed ≡ false) }
        ensures unstopped { IfNone result (seat.old.sight.stopped ≡ false) }
    {
        if self.board.failed(&mut seat.view) {
            return Some(Error::DeviceFailed);
        }
        if self.board.stopped(&mut seat.view) {
            return Some(Error::Stopped);
        }
        None
    }

    /// Waits until the record of the ticket is safe on the device: it looks for a while, and then sleeps until the
    /// flusher has published, or for a short while.
    ///
    /// `DeviceFailed` where the flusher says that its device failed, and else `Stopped` where the threads are asked to
    /// stop; neither where the horizon that was read last reaches the record, and each by the failed flag as it was
    /// read behind that horizon. After an error the seat has seen a horizon and the flag that says why, after `Ok` a
    /// horizon, and no more.
    pub fn await_ack<R: Wait, K: Keeping>(
        &self,
        rt: &R,
        seat: &mut Seat<B, A, K>,
        ticket: Ticket,
    ) -> Result<Ack<B>, Error>
        ensures acked { IfOk result (λ ack. IsAcked ticket seat.old seat.new ack) }
        ensures refused { IfErr result (λ e. IsNotAcked ticket seat.old seat.new e) }
        ensures seat { seat.new ≡ record seat.old { sight = seat.new.sight } }
        ensures rises { seat.old.sight.horizon ≤ seat.new.sight.horizon }
    {
        let mut looks: u32 = 0;
        for _ in rt.forever() {
            let rings = self.board.waits().published.rings();
            if let Some(ack) = self.try_ack(seat, &ticket) {
                return Ok(ack);
            }
            if let Some(error) = self.ended(seat) {
                return Err(error);
            }
            self.look_or_sleep(rt, looks, rings);
            looks = looks.saturating_add(1);
        }
        unreachable!()
    }

    // Goes on at once where there were few looks for the horizon. Else it looks for a ring, and where it has looked for
    // long enough it sleeps until there is one, or for a short while.
    fn look_or_sleep<R: Wait>(&self, rt: &R, looks: u32, rings: u64) {
        let published = &self.board.waits().published;
        let (most, last) = if published.has_sleepers() {
            (LOOKS, LOOKS)
        } else {
            (LOOKS_ALONE, LAST_ALONE)
        };
        if looks < most {
            hint::spin_loop();
            return;
        }
        let has_rung = published.look(rings, RING_LOOKS);
        if !has_rung && looks >= last {
            published.sleep(rt, rings, Duration::from_micros(LONGEST_SLEEP));
        }
    }

    /// How many attempts the builder has made since the store was opened, as it has published. It takes no memory and
    /// waits for nothing.
    pub fn progress<K: Keeping>(&self, seat: &mut Seat<B, A, K>) -> u64
        ensures seen { seat.new ≡ record seat.old { sight = record seat.old.sight { progress = result } } }
        ensures rises { seat.old.sight.progress ≤ result }
    {
        self.board.progress(&mut seat.view)
    }

    /// Sets the stop flag, by which all threads are asked to stop. It takes no memory and waits for nothing. (That
    /// those that sleep are woken, no clause says.)
    pub fn stop<K: Keeping>(&self, seat: &mut Seat<B, A, K>)
        ensures { seat.new ≡ record seat.old { sight = record seat.old.sight { stopped = true; stops = true } } }
    {
        self.board.stop(&mut seat.view);
    }
}
