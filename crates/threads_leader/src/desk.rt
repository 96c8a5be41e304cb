//! Where the flusher's part lies between the rounds that threads make.
ghost use Rattle.std.specs.Prelude.{◌≡◌, ◌≤◌, IfErr, IfOk, OnOk, Some, false, true};
ghost use Rattle.record_values.specs.declared.error.Error.TheVariants.{DeviceFailed};
ghost use Rattle.store_writer.specs.Parts.{has_failed};
ghost use Rattle.threads_loops.specs.Waits.{IsAcked, IsNotAcked};
ghost use Rattle.threads_loops.specs.Through.{HasFlushed};
ghost use Rattle.threads_leader.specs.Led.{IsLed};

use crate::course::Course;
use crate::rest::{rest_helper, rest_seat};
use crate::turn::{Led, Turn};
use nsf_core::Ticket;
use records::Error;
use sector_device::Device;
use std::alloc::Global;
use std::mem::forget;
use std::sync::atomic::{AtomicU64, Ordering};
use std::sync::{Mutex, MutexGuard, Wait};
use threads_loops::{
    Ack, FlushPart, Flushed, Flushing, Gate, Group, Keeping, Memory, NoGate, Seat, Shared,
};

/// Where the flusher's part of a run lies, under a lock of its own, from its beginning to its end. A thread that has
/// the lock may make a round with it, as the flusher's thread does; so a seat that waits for its commit need not wait
/// for that one.
#[derive(Drop)]
pub struct Desk<C: Course<D, A>, B: Group, D: Device, A: Memory = Global> {
    turn: Mutex<Option<Turn<C, B, D, A>>>,
}

impl<C: Course<D, A>, B: Group, D: Device, A: Memory> Desk<C, B, D, A> {
    /// A desk of this course, on which nothing lies yet.
    pub fn new() -> Desk<C, B, D, A> {
        Desk {
            turn: Mutex::new(None),
        }
    }

    // Makes a round, if one is to be made and no other thread makes one.
    fn lead<R: Wait, G: Gate>(&self, rt: &R, shared: &Shared<B, A>, gate: &G) -> Led {
        let Some(mut guard) = self.turn.try_lock() else {
            return Led::Busy;
        };
        let led = match &mut *guard {
            Some(turn) => turn.lead(rt, shared, gate),
            None => Led::Over,
        };
        MutexGuard::unlock(guard);
        led
    }

    // Makes rounds until the record of the ticket is safe, or none is to be made.
    fn lead_until<R: Wait, K: Keeping>(
        &self,
        rt: &R,
        shared: &Shared<B, A>,
        seat: &mut Seat<B, A, K>,
        ticket: &Ticket,
    )
        ensures seen { seat.new ≡ record seat.old {
          sight = record seat.old.sight {
            horizon = seat.new.sight.horizon;
            checked = seat.new.sight.checked;
          };
        } }
        ensures rises { seat.old.sight.horizon ≤ seat.new.sight.horizon }
    {
        let published = &shared.board().waits().published;
        let mut looks: u32 = 0;
        for _ in rt.forever() {
            let rings = published.rings();
            if shared.is_acked(seat, *ticket) {
                return;
            }
            let led = self.lead(rt, shared, &NoGate);
            if led.is_over() {
                return;
            }
            looks = rest_seat(rt, published, rings, led, looks);
        }
        unreachable!()
    }

    /// Waits until the record of the ticket is safe on the device, as `Shared::await_ack` does, with the same answers.
    /// Meanwhile it makes rounds of the flusher itself, where nobody else makes one: it writes what waits, makes some
    /// steps of an image, and publishes. (That it makes one, no clause says.)
    pub fn await_ack<R: Wait, K: Keeping>(
        &self,
        rt: &R,
        shared: &Shared<B, A>,
        seat: &mut Seat<B, A, K>,
        ticket: Ticket,
    ) -> Result<Ack<B>, Error>
        ensures acked { IfOk result (λ ack. IsAcked ticket seat.old seat.new ack) }
        ensures refused { IfErr result (λ e. IsNotAcked ticket seat.old seat.new e) }
        ensures seat { seat.new ≡ record seat.old { sight = seat.new.sight } }
        ensures rises { seat.old.sight.horizon ≤ seat.new.sight.horizon }
    {
        let waited = &ticket;
        self.lead_until(rt, shared, seat, waited);
        shared.await_ack(rt, seat, *waited)
    }

    // Makes rounds now and then, where nobody else does, until the run ends or none is to be made.
    fn help<R: Wait, G: Gate>(&self, rt: &R, shared: &Shared<B, A>, gate: &G, ended: &AtomicU64) {
        let bell = &shared.board().waits().resting;
        let mut quiet: u32 = 0;
        for _ in rt.forever() {
            let rings = bell.rings();
            if ended.load(Ordering::SeqCst) > 0 {
                return;
            }
            let led = self.lead(rt, shared, gate);
            if led.is_over() {
                return;
            }
            quiet = rest_helper(rt, bell, rings, led, quiet);
        }
        unreachable!()
    }

    // Takes the part from there. Where there is none it waits for ever; nobody else takes it.
    fn clear<R: Wait>(&self, rt: &R) -> FlushPart<B, D, A>
        ensures { IsLed D.past_of D.marks D.failures B.site.opened C.begun result }
    {
        let mut guard = self.turn.lock(rt);
        let turn = guard.take();
        MutexGuard::unlock(guard);
        part_of(rt, turn)
    }
}

// The part that lay there. Where there was none it waits for ever.
fn part_of<C: Course<D, A>, B: Group, D: Device, R: Wait, A: Memory>(
    rt: &R,
    turn: Option<Turn<C, B, D, A>>,
) -> FlushPart<B, D, A>
    ensures { IsLed D.past_of D.marks D.failures B.site.opened C.begun result }
{
    let Some(turn) = turn else {
        for _ in rt.forever() {}
        unreachable!()
    };
    turn.into_part()
}

impl<C: Course<D, Global>, B: Group, D: Device + Drop> Desk<C, B, D> {
    // Lays the part there. Nothing lay there before.
    fn fill<R: Wait>(&self, rt: &R, part: FlushPart<B, D>)
        requires { C.begun ≡ Some part }
    {
        let turn = Turn::new(part);
        let mut guard = self.turn.lock(rt);
        forget(guard.replace(turn));
        MutexGuard::unlock(guard);
    }
}

// How a flusher of this part ended.
fn ended_as<B: Group, D: Device, A: Memory>(part: &FlushPart<B, D, A>) -> Result<(), Error>
    ensures sound { OnOk result (has_failed part.now.writer ≡ false) }
    ensures failed { IfErr result (λ error. (error ≡ DeviceFailed) × (has_failed part.now.writer ≡ true)) }
{
    if part.has_failed() {
        return Err(Error::DeviceFailed);
    }
    Ok(())
}

impl<C: Course<D, Global>, B: Group, D: Device + Drop> Flushing<Shared<B>, FlushPart<B, D>>
    for Desk<C, B, D> {
    ghost takes = { λ _ part. C.begun ≡ Some part };

    ghost leaves = { HasFlushed D.past_of D.marks D.failures B.site.opened };

    fn flush<R: Wait, G: Gate>(
        &self,
        rt: &R,
        shared: &Shared<B>,
        flush: FlushPart<B, D>,
        gate: &G,
        ended: &AtomicU64,
    ) -> Flushed<FlushPart<B, D>>
        requires takes { C.begun ≡ Some flush }
        ensures leaves { HasFlushed D.past_of D.marks D.failures B.site.opened flush result.flush result.ended }
    {
        flush.stands();
        self.fill(rt, flush);
        self.help(rt, shared, gate, ended);
        let flush = self.clear(rt);
        let ended = ended_as(&flush);
        Flushed { flush, ended }
    }
}
