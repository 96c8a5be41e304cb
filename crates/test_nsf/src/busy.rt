//! An index is created and dropped beside seats that have a transaction nearly all the time.
ghost use Rattle.std.specs.Prelude.{◌≡◌};

use crate::many_threads::serve_on;
use crate::one_thread::formatted;
use nsf::{
    Body, BuilderEnd, Change, Client, Error, Geometry, Group, Key, Life, OpenError, Rid, Seat,
    Served, Shared,
};
use std::alloc::Global;
use std::sync::Wait;
use std::thread::{Parker, Threads};
use std::time::Duration;

// So many writers, and so many turns of each at the most.
const WRITERS: usize = 8;

const TURNS: u32 = 10_000;

// How long each transaction of a writer is open, in microseconds; and how many milliseconds the creator waits.
const OPEN: u64 = 1_000;

const PATIENCE: u32 = 500;

/// One that creates the index and drops it again, or one that writes until it has seen both, and how often it did.
#[derive(Drop)]
struct Busy {
    creates: bool,
    done: Result<u32, Error>,
}

// The place of a change, all of whose steps were made, or why one wasn't.
fn whole(change: Change) -> Result<Rid, Error> {
    match change.rest {
        None => Ok(change.rid),
        Some(error) => Err(error),
    }
}

// Puts a row, takes it out again a while later, and commits.
fn turn<B: Group, R: Wait>(
    rt: &R,
    shared: &Shared<B>,
    seat: &mut Seat<B>,
    parker: &Parker,
) -> Result<(), Error>
    ensures { seat.new.number ≡ seat.old.number }
{
    let txn = shared.begin(rt, seat)?;
    let key = Key::new(b"busy")?;
    let rid = whole(shared.insert_if_ready(rt, seat, txn, key, Body::new(b"")?)?)?;
    parker.park_timeout(rt, Duration::from_micros(OPEN));
    whole(shared.delete_if_ready(rt, seat, txn, rid)?)?;
    shared.commit_if_ready(rt, seat, txn)?;
    Ok(())
}

// Writes until the index was there and is gone.
fn write<B: Group, R: Wait>(rt: &R, shared: &Shared<B>, seat: &mut Seat<B>) -> Result<u32, Error>
    ensures { seat.new.number ≡ seat.old.number }
{
    let parker = Parker::new();
    let mut was_there = false;
    for turns in 0..TURNS {
        turn(rt, shared, seat, &parker)?;
        match shared.life(rt, seat) {
            Life::Absent if was_there => return Ok(turns),
            Life::Absent => {}
            _ => was_there = true,
        }
    }
    Err(Error::TxnsActive)
}

// Creates the index, and drops it again a while later.
fn create<B: Group, R: Wait>(rt: &R, shared: &Shared<B>, seat: &mut Seat<B>) -> Result<u32, Error>
    ensures { seat.new.number ≡ seat.old.number }
{
    let parker = Parker::new();
    parker.park_timeout(rt, Duration::from_micros(4 * OPEN));
    shared.create_index_when_quiet(rt, seat, PATIENCE)?;
    parker.park_timeout(rt, Duration::from_micros(200 * OPEN));
    shared.drop_index_when_quiet(rt, seat, PATIENCE)?;
    Ok(0)
}

impl Client for Busy {
    fn work<B: Group, R: Wait>(
        &mut self,
        rt: &R,
        shared: &Shared<B>,
        seat: &mut Seat<B>,
        _builder: &BuilderEnd<B>,
    ) {
        self.done = if self.creates {
            create(rt, shared, seat)
        } else {
            write(rt, shared, seat)
        };
    }
}

// The writers, and one that creates the index.
fn all_clients(alloc: Global) -> Result<Vec<Busy>, Error> {
    let mut clients = Vec::new(alloc);
    for number in 0..=WRITERS {
        clients.push(Busy {
            creates: number == WRITERS,
            done: Ok(0),
        })?;
    }
    Ok(clients)
}

// The fewest turns that a writer made before it had seen both, if all went well.
fn fewest<D>(served: &Served<Busy, D>) -> Result<u32, Error> {
    served.written?;
    let mut fewest = TURNS;
    for client in &served.clients {
        let turns = client.done?;
        if !client.creates {
            fewest = fewest.min(turns);
        }
    }
    Ok(fewest)
}

/// How many turns each writer made at least, while the index was created and dropped.
pub fn serve_the_busy<R: Threads + Wait + Sync>(rt: &R, alloc: Global) -> Result<u32, OpenError> {
    let disk = formatted(alloc, Geometry::new(2, 1_024, 64)?)?;
    let clients = all_clients(alloc)?;
    let served = serve_on(rt, alloc, disk, clients)?;
    Ok(fewest(&served)?)
}
