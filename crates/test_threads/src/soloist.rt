//! One seat of a store where no loop runs, to the end.
ghost use Rattle.std.specs.Prelude.{◌≡◌, ◌+◌, OnOk, IfSome, length};
ghost use Rattle.threads_lifetime.specs.Gathered.{AreAllSeats};
ghost use Rattle.shared.specs.Seats.{AreNewSeats};

use crate::at_seat::{Numbered, let_play};
use crate::calls::Calls;
use crate::chairs::Player;
use crate::looks::QueueEnd;
use crate::play::{Solo, Turn};
use crate::store::{open, start, take_back};
use crate::waits::ByFlusher;
use records::Error;
use sector_device::Device;
use shared::{Group, Kept, Memory, Seat, Shared};
use std::alloc::Global;
use std::marker::Brand;
use std::mem::forget;
use std::sync::Wait;
use test_memory::Refusing;
use threads_flusher::FlushPart;
use threads_lifetime::{OpenStore, Parts};

// What takes from the queue of a store.
#[derive(Drop)]
struct Taking<'a, B: Group, D: Device, A: Memory, R> {
    rt: &'a R,
    shared: &'a Shared<B, A>,
    flush: &'a mut FlushPart<B, D, A>,
}

// The number of the last record that came to the queue. The flusher takes all that waits there, and nothing is pushed.
fn last_in_queue<B: Group, D: Device, A: Memory, R: Wait>(
    rt: &R,
    shared: &Shared<B, A>,
    flush: &mut FlushPart<B, D, A>,
) -> Result<u64, Error> {
    flush.take(rt, shared.queue())?;
    let mut locked = shared.hold_to_flush(rt, flush);
    flush.hand_in(rt, shared.queue(), &mut locked)?;
    Ok(flush.last_handed())
}

impl<B: Group, D: Device, A: Memory, R: Wait> QueueEnd for Taking<'_, B, D, A, R> {
    fn last(&mut self) -> Result<u64, Error> {
        last_in_queue(self.rt, self.shared, self.flush)
    }
}

// A soloist, and the end of the queue.
#[derive(Drop)]
struct Alone<'a, 'b, 'c, Q> {
    solo: &'a mut Solo<'c>,
    queue: &'b mut Q,
}

impl<Q: QueueEnd> Player for Alone<'_, '_, '_, Q> {
    fn play<C: Calls>(&mut self, seat: &mut C) {
        self.solo.play_alone(seat, self.queue);
    }
}

// Lets it play at a seat, with the end of the queue.
fn play_beside_queue<B: Group, Q: QueueEnd, A: Memory, R: Wait>(
    rt: &R,
    shared: &Shared<B, A>,
    at: &mut Numbered<B, A>,
    solo: &mut Solo<'_>,
    queue: &mut Q,
) {
    let mut alone = Alone { solo, queue };
    let_play(rt, shared, &ByFlusher, at, &mut alone);
}

// The same with the flusher's part.
fn play_at<B: Group, D: Device, A: Memory, R: Wait>(
    rt: &R,
    shared: &Shared<B, A>,
    at: &mut Numbered<B, A>,
    flush: &mut FlushPart<B, D, A>,
    solo: &mut Solo<'_>,
) {
    let mut queue = Taking { rt, shared, flush };
    play_beside_queue(rt, shared, at, solo, &mut queue);
}

/// Takes the last of new seats, if there is one.
pub(crate) fn take_last<B: Group, A: Memory>(
    seats: &mut Vec<Seat<B, A, Kept>, A>,
) -> Option<Numbered<B, A>>
    requires { AreNewSeats B.site.board B.site.seats seats.old.items }
    ensures others { IfSome result (λ at. AreAllSeats (length seats.new.items) seats.new.items) }
    ensures count { IfSome result (λ at. length seats.new.items + 1 ≡ B.site.seats) }
{
    let seat = seats.pop()?;
    let number = seats.len();
    Some(Numbered { seat, number })
}

// Puts it back, where it has the number that is wanted there.
fn put_back<B: Group, A: Memory>(
    seats: &mut Vec<Seat<B, A, Kept>, A>,
    at: Numbered<B, A>,
) -> Result<(), Error>
    requires { AreAllSeats (length seats.old.items) seats.old.items }
    ensures { OnOk result (AreAllSeats (length seats.old.items + 1) seats.new.items) }
{
    if at.number != seats.len() {
        forget(at);
        return Err(Error::Stopped);
    }
    match seats.push(at.seat) {
        Ok(()) => Ok(()),
        Err(failed) => {
            forget(failed);
            Err(Error::NoMemory)
        }
    }
}

// Lets it play at the last of new seats.
fn play_at_last<B: Group, D: Device, A: Memory, R: Wait>(
    rt: &R,
    shared: &Shared<B, A>,
    seats: &mut Vec<Seat<B, A, Kept>, A>,
    flush: &mut FlushPart<B, D, A>,
    solo: &mut Solo<'_>,
) -> Result<(), Error>
    requires { AreNewSeats B.site.board B.site.seats seats.old.items }
    ensures { OnOk result (AreAllSeats B.site.seats seats.new.items) }
{
    let Some(mut at) = take_last(seats) else {
        return Err(Error::NoMemory);
    };
    play_at(rt, shared, &mut at, flush, solo);
    put_back(seats, at)
}

// The device, once it has played and all is taken back, and why not all is written out, if so.
fn play_with<B: Group, D: Device + Drop, A: Memory, R: Wait>(
    rt: &R,
    alloc: A,
    shared: Shared<B, A>,
    mut parts: Parts<B, D, A, Kept>,
    solo: &mut Solo<'_>,
) -> Result<(D, Option<Error>), (Error, Option<D>)>
    requires seats { AreNewSeats B.site.board B.site.seats parts.seats.items }
{
    match play_at_last(rt, &shared, &mut parts.seats, &mut parts.flush, solo) {
        Ok(()) => match take_back(rt, alloc, shared, parts) {
            Ok(closed) => Ok((closed.into_device(), None)),
            Err((error, device)) => Ok((device, Some(error))),
        },
        Err(error) => {
            forget(parts);
            forget(shared);
            Err((error, None))
        }
    }
}

// The same in the store.
fn play_in<B: Group, D: Device + Drop, A: Memory, R: Wait>(
    rt: &R,
    alloc: A,
    store: OpenStore<D, A>,
    solo: &mut Solo<'_>,
) -> Result<(D, Option<Error>), (Error, Option<D>)>
    requires names { store.site ≡ B.site }
{
    match start::<B, D, A>(store) {
        Ok((shared, parts)) => play_with(rt, alloc, shared, parts, solo),
        Err((error, device)) => Err((error, Some(device))),
    }
}

// Opens the store on the device for one seat, lets it play there, takes all back, and writes out what was made. The
// device, and why not all is written out, if so; or a refusal, with the device, if no seat was handed out.
fn play_alone<D: Device + Drop, A: Memory, R: Wait>(
    rt: &R,
    alloc: A,
    device: D,
    solo: &mut Solo<'_>,
) -> Result<(D, Option<Error>), (Error, Option<D>)> {
    match open(alloc, device, 1) {
        Ok(store) => play_in::<Brand, D, A, R>(rt, alloc, store, solo),
        Err((error, device)) => Err((error, Some(device))),
    }
}

// The same, once more where an allocation was refused before a seat was handed out.
fn play_again<D: Device + Drop, A: Memory, R: Wait>(
    rt: &R,
    alloc: A,
    device: D,
    solo: &mut Solo<'_>,
) -> Result<(D, Option<Error>), (Error, Option<D>)> {
    match play_alone(rt, alloc, device, solo) {
        Err((Error::NoMemory, Some(device))) if solo.memory.refused() != solo.refused => {
            play_alone(rt, alloc, device, solo)
        }
        played => played,
    }
}

/// Whether the seat's answers and the end were right, and whether all was written out.
#[derive(Clone, Copy)]
pub(crate) struct Played {
    pub(crate) right: bool,
    pub(crate) finished: bool,
}

/// Lets one do that at the seat of the store on the device, whose memory this is, to the end.
pub(crate) fn play<D: Device + Drop, A: Memory, R: Wait>(
    rt: &R,
    alloc: A,
    device: D,
    memory: &Refusing<Global>,
    turn: Turn<'_>,
) -> Result<Played, Error> {
    let mut solo = Solo {
        memory,
        turn,
        right: false,
        refused: memory.refused(),
    };
    match play_again(rt, alloc, device, &mut solo) {
        Ok((device, end)) => {
            drop(device);
            Ok(Played {
                right: solo.right && solo.may_end_so(end),
                finished: end.is_none(),
            })
        }
        Err((error, device)) => {
            drop(device);
            Err(error)
        }
    }
}
