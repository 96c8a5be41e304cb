//! The loops of a store, each called by itself, where no other runs beside; and a build whose index is dropped within
//! it.
ghost use Rattle.std.specs.Prelude.{◌≡◌};
ghost use Rattle.shared.specs.Seats.{AreNewSeats};

use crate::at_seat::{Numbered, let_play};
use crate::calls::{Calls, remove};
use crate::chairs::Player;
use crate::keyed::set_up;
use crate::soloist::take_last;
use crate::store::{open, start};
use crate::waits::ByFlusher;
use nsf_core::Ticket;
use records::{Error, Rid};
use sector_device::Device;
use shared::{BuildPart, CleanPart, Group, Kept, Shared};
use std::alloc::Global;
use std::cell::Cell;
use std::marker::Brand;
use std::mem::forget;
use std::sync::Wait;
use threads_flusher::FlushPart;
use threads_lifetime::{OpenStore, Parts};
use threads_loops::{Gate, NoGate, Point, build_loop, clean_loop, flush_loop};

/// Which loops are called.
#[derive(Clone, Copy)]
pub(crate) enum Course {
    /// The builder, to the end of the index, and the cleaner then, until it has taken an entry out.
    BuildAndClean,
    /// The builder, until the index is dropped.
    BuildDropped,
    /// The flusher, until all is safe.
    Flush,
}

// What a seat does, before a loop is called or at a point of it.
#[derive(Clone, Copy)]
enum Act {
    /// Creates an index over a hundred rows.
    Create,
    /// Drops it.
    Drop,
    /// Deletes the first row, whose entry is marked then.
    Delete,
    /// Asks all to stop, once no entry is marked.
    StopOnceClean,
    /// Asks all to stop, once the record of the ticket is safe.
    StopOnceSafe(Ticket),
}

// A seat that does so: whether it was done, and the ticket of the creation.
#[derive(Drop)]
struct Acting {
    act: Act,
    done: bool,
    ticket: Option<Ticket>,
}

// Asks all to stop.
fn stop<C: Calls>(seat: &mut C) -> Result<bool, Error> {
    let txn = seat.begin()?;
    Ok(seat.ask_to_stop(txn))
}

// Deletes the first row. Whether one entry is marked then.
fn delete_first<C: Calls>(seat: &mut C) -> Result<bool, Error> {
    let txn = seat.begin()?;
    remove(seat, txn, Rid { page: 0, slot: 0 })?;
    seat.commit(txn)?;
    Ok(seat.marked() == 1)
}

impl Acting {
    // Does it. Whether it was done.
    fn do_act<C: Calls>(&mut self, seat: &mut C) -> Result<bool, Error> {
        match self.act {
            Act::Create => {
                self.ticket = Some(set_up(seat)?);
                Ok(true)
            }
            Act::Drop => {
                seat.drop_index()?;
                Ok(true)
            }
            Act::Delete => delete_first(seat),
            Act::StopOnceClean if seat.marked() == 0 => stop(seat),
            Act::StopOnceSafe(ticket) if seat.is_acked(ticket) => stop(seat),
            _ => Ok(false),
        }
    }
}

impl Player for Acting {
    fn play<C: Calls>(&mut self, seat: &mut C) {
        self.done = matches!(self.do_act(seat), Ok(true));
    }
}

// Lets the seat do so. Whether it was done, and the ticket of the creation.
fn let_act<B: Group, R: Wait>(
    rt: &R,
    shared: &Shared<B>,
    at: &mut Numbered<B, Global>,
    act: Act,
) -> (bool, Option<Ticket>) {
    let mut acting = Acting {
        act,
        done: false,
        ticket: None,
    };
    let_play(rt, shared, &ByFlusher, at, &mut acting);
    (acting.done, acting.ticket)
}

// A seat that does something as a loop comes to a point, until it was done.
#[derive(Drop)]
struct Meeting<'a, B: Group, R> {
    rt: &'a R,
    shared: &'a Shared<B>,
    seat: Cell<Option<Numbered<B, Global>>>,
    point: Point,
    act: Act,
    done: Cell<bool>,
}

impl<'a, B: Group, R> Meeting<'a, B, R> {
    fn new(
        rt: &'a R,
        shared: &'a Shared<B>,
        at: Numbered<B, Global>,
        (point, act): (Point, Act),
    ) -> Meeting<'a, B, R> {
        Meeting {
            rt,
            shared,
            seat: Cell::new(Some(at)),
            point,
            act,
            done: Cell::new(false),
        }
    }
}

impl<B: Group, R: Wait> Gate for Meeting<'_, B, R> {
    fn at(&self, point: Point) {
        if point != self.point || self.done.get() {
            return;
        }
        if let Some(mut at) = self.seat.replace(None) {
            let (done, _) = let_act(self.rt, self.shared, &mut at, self.act);
            self.done.set(done);
            forget(self.seat.replace(Some(at)));
        }
    }
}

// The number of the record by which an index over a hundred rows is complete: they are put in two commits, it is
// created, they are placed, with one checkpoint, and that is the end.
const COMPLETE: u64 = 205;

// Builds the index to its end, deletes a row, and lets the cleaner take its entry out. Whether all went so.
fn build_and_clean<B: Group, R: Wait>(
    rt: &R,
    shared: &Shared<B>,
    mut at: Numbered<B, Global>,
    build: &mut BuildPart<B>,
    clean: &mut CleanPart<B>,
) -> bool {
    let (created, _) = let_act(rt, shared, &mut at, Act::Create);
    let built = build_loop(rt, shared, build, &NoGate);
    let (deleted, _) = let_act(rt, shared, &mut at, Act::Delete);
    let meeting = (Point::CleanStep, Act::StopOnceClean);
    let gate = Meeting::new(rt, shared, at, meeting);
    clean_loop(rt, shared, clean, &gate);
    let cleaned = gate.done.get();
    forget(gate);
    let is_complete = match built {
        Ok(ticket) => ticket.record.get() == COMPLETE,
        Err(_) => false,
    };
    created && is_complete && deleted && cleaned
}

// Builds the index, which the seat drops as the builder first has scanned a page. Whether the builder ends for want of
// it.
fn build_dropped<B: Group, R: Wait>(
    rt: &R,
    shared: &Shared<B>,
    mut at: Numbered<B, Global>,
    build: &mut BuildPart<B>,
) -> bool {
    let (created, _) = let_act(rt, shared, &mut at, Act::Create);
    let gate = Meeting::new(rt, shared, at, (Point::BuildScanned, Act::Drop));
    let refused = build_loop(rt, shared, build, &gate).err();
    let dropped = gate.done.get();
    forget(gate);
    created && dropped && refused == Some(Error::NoIndex)
}

// Lets the flusher write until the creation is safe. Whether it ends well then.
fn flush_all<B: Group, D: Device, R: Wait>(
    rt: &R,
    shared: &Shared<B>,
    mut at: Numbered<B, Global>,
    flush: &mut FlushPart<B, D>,
) -> bool {
    let (_, ticket) = let_act(rt, shared, &mut at, Act::Create);
    let Some(ticket) = ticket else {
        forget(at);
        return false;
    };
    let gate = Meeting::new(
        rt,
        shared,
        at,
        (Point::FlushGate, Act::StopOnceSafe(ticket)),
    );
    let flushed = flush_loop(rt, shared, flush, &gate);
    let stopped = gate.done.get();
    forget(gate);
    flushed == Ok(()) && stopped
}

// Calls the loops, beside the last of new seats, if there is one. Whether all went so.
fn call_loops<B: Group, D: Device, R: Wait>(
    rt: &R,
    shared: &Shared<B>,
    parts: &mut Parts<B, D, Global, Kept>,
    course: Course,
) -> bool
    requires { AreNewSeats B.site.board B.site.seats parts.old.seats.items }
{
    let Some(at) = take_last(&mut parts.seats) else {
        return false;
    };
    match course {
        Course::BuildAndClean => {
            build_and_clean(rt, shared, at, &mut parts.build, &mut parts.clean)
        }
        Course::BuildDropped => build_dropped(rt, shared, at, &mut parts.build),
        Course::Flush => flush_all(rt, shared, at, &mut parts.flush),
    }
}

// The same in the store.
fn play_in<B: Group, D: Device + Drop, R: Wait>(
    rt: &R,
    store: OpenStore<D>,
    course: Course,
) -> Result<bool, Error>
    requires names { store.site ≡ B.site }
{
    match start::<B, D, Global>(store) {
        Ok((shared, mut parts)) => {
            let went = call_loops(rt, &shared, &mut parts, course);
            forget(parts);
            forget(shared);
            Ok(went)
        }
        Err((error, device)) => {
            forget(device);
            Err(error)
        }
    }
}

/// Opens the store on the device for one seat, and calls the loops. Whether all went so. What was made is lost.
pub(crate) fn play_loops<D: Device + Drop, R: Wait>(
    rt: &R,
    alloc: Global,
    device: D,
    course: Course,
) -> Result<bool, Error> {
    match open(alloc, device, 1) {
        Ok(store) => play_in::<Brand, D, R>(rt, store, course),
        Err((error, device)) => {
            forget(device);
            Err(error)
        }
    }
}
