//! The end of threads, and what is opened behind it.
ghost use Rattle.std.specs.Prelude.{◌≡◌, ◌≤◌, All, None, IfErr, IfOk, IfSome};
ghost use Rattle.sector_device.specs.Disk.{CrashState, IsCrashState};
ghost use Rattle.gate_log.specs.Area.{Refuses};
ghost use Rattle.store_writer.specs.Parts.{device_of, halves_of, has_failed, synced_of};
ghost use Rattle.nsf.specs.Part.{popped_by};
ghost use Rattle.nsf.specs.Closing.{GivesSome};
ghost use Rattle.nsf.specs.Gathered.{AreAllSeats};
ghost use Rattle.restart.specs.Parts as engines;
ghost use Rattle.headline.specs.Seats.{GivesAllSeats, HoldsAllSeats, HoldsSeats, IsUnwritten};

use crate::Mortal;
use nsf::{Ack, Group, Keeping, Memory, Parts, Shared, finish};
use records::Error;
use restart::{Engine, restart};
use sector_device::Device;
use std::sync::Wait;
use store_reader::one_answer;

/// A store that was opened again behind its threads. Where not all that they made had been written out before, why.
#[derive(Drop)]
pub struct Reopened<D: Mortal, A: Memory> {
    pub engine: Engine<D, A>,
    pub unwritten: Option<Error>,
}

// The device, with all that the seats made written out, or as much as could be; and why it wasn't all.
fn finish_device<B: Group, D: Device, R: Wait, A: Memory, K: Keeping>(
    rt: &R,
    alloc: A,
    shared: Shared<B, A>,
    parts: Parts<B, D, A, K>,
    acks: Vec<Ack<B>, A>,
) -> (D, Option<Error>)
    requires seats { AreAllSeats B.site.seats parts.seats.items }
    ensures some { (image : CrashState) → IsCrashState (D.past_of result.0).disk image
        → ∥ GivesSome B.site.opened (halves_of parts.flush.writer).geometry parts.seats.items (popped_by parts.flush)
        (synced_of parts.flush.writer) image ∥₁ }
    ensures acked { All (λ a. a.ticket.«record» ≤ synced_of parts.flush.writer) acks.items }
    ensures all { result.1 ≡ None → (image : CrashState) → IsCrashState (D.past_of result.0).disk image
        → ∥ GivesAllSeats B.site.opened.given.table (halves_of parts.flush.writer).geometry parts.seats.items image ∥₁ }
    ensures why { IfSome result.1 (IsUnwritten (has_failed parts.flush.writer)
        (D.failures (device_of parts.flush.writer)) (D.failures result.0)) }
    ensures later { D.failures (device_of parts.flush.writer) ≤ D.failures result.0 }
{
    match finish(rt, alloc, shared, parts, acks) {
        Ok(closed) => (closed.into_device(), None),
        Err((error, device)) => (device, Some(error)),
    }
}

/// Takes every seat and every part back and writes out what they made, as `finish` does. Whatever that answers, the
/// power then fails; and the store is opened again.
///
/// What it holds are the rows that the threads began with, and over them the first commits of all seats, in the order
/// of their numbers. Each that was synced before is among them, and so each whose acknowledgement is handed in.
/// The index is as far, and has the entries, as the records up to the last one make it: each visible entry is the pair
/// of a row; as far as the index is built, the pair of each row is visible. No transaction is active (`holds`).
///
/// Where all was written out, the commits of all seats are among them (`whole`); else `unwritten` is what `finish`
/// answered: `DeviceFailed` where the device failed, now or earlier, and else `NoMemory` (`unwritten`).
///
/// A refusal is that of the opening, and gives the device back: `NoMemory`, or `DeviceFailed`, which comes only where
/// the device failed since the call began (`refused`).
pub fn finish_and_open<B: Group, D: Mortal, R: Wait, A: Memory, K: Keeping>(
    rt: &R,
    alloc: A,
    shared: Shared<B, A>,
    parts: Parts<B, D, A, K>,
    acks: Vec<Ack<B>, A>,
) -> Result<Reopened<D, A>, (Error, D)>
    requires seats { AreAllSeats B.site.seats parts.seats.items }
    ensures holds { IfOk result (λ r. ∥ HoldsSeats B.site.opened (halves_of parts.flush.writer).geometry
        parts.seats.items (synced_of parts.flush.writer) acks.items (engines.core_of r.engine) ∥₁) }
    ensures whole { IfOk result (λ r. r.unwritten ≡ None
        → ∥ HoldsAllSeats B.site.opened.given.table parts.seats.items (engines.core_of r.engine) ∥₁) }
    ensures unwritten { IfOk result (λ r. IfSome r.unwritten (IsUnwritten (has_failed parts.flush.writer)
        (D.failures (device_of parts.flush.writer)) (D.failures (engines.device_of r.engine)))) }
    ensures refused { IfErr result (λ r. Refuses (D.failures (device_of parts.flush.writer)) (D.failures r.1) r.0) }
    ensures later { IfErr result (λ r. D.failures (device_of parts.flush.writer) ≤ D.failures r.1) }
{
    one_answer();
    let (mut device, unwritten) = finish_device(rt, alloc, shared, parts, acks);
    device.stop_now();
    match restart(alloc, device) {
        Ok(engine) => Ok(Reopened { engine, unwritten }),
        Err(refused) => Err(refused),
    }
}
