//! An index that has too few places, under a client that waits for it.
ghost use Rattle.std.specs.Prelude.{◌≡◌};

use crate::many_threads::{Put, serve_on};
use crate::one_thread::formatted;
use nsf::{BuilderEnd, Client, Error, Geometry, Group, Key, OpenError, Seat, Served, Shared};
use std::alloc::Global;
use std::sync::Wait;
use std::thread::{Parker, Threads};
use std::time::Duration;

// One row more than the index has places.
const PLACES: u8 = 64;

// So often the client looks whether the builder has ended.
const LOOKS: u32 = 100_000;

/// Puts more rows than the index has places, creates it, and waits until the builder has ended.
#[derive(Drop)]
struct Crowd {
    told: Result<Option<Error>, Error>,
}

// Puts the rows, and creates the index.
fn fill<B: Group, R: Wait>(rt: &R, shared: &Shared<B>, seat: &mut Seat<B>) -> Result<(), Error>
    ensures { seat.new.number ≡ seat.old.number }
{
    for key in 0..=PLACES {
        let put = Put {
            key: Key::new(&[key])?,
            done: Ok(()),
        };
        put.put(rt, shared, seat)?;
    }
    shared.create_index(rt, seat)?;
    Ok(())
}

// Why the builder has ended, as the client is told.
fn wait_for_end<B: Group, R: Wait>(rt: &R, builder: &BuilderEnd<B>) -> Option<Error> {
    let parker = Parker::new();
    for _ in 0..LOOKS {
        if let Some(told) = builder.reason() {
            return Some(told.error);
        }
        parker.park_timeout(rt, Duration::from_micros(100));
    }
    None
}

impl Client for Crowd {
    fn work<B: Group, R: Wait>(
        &mut self,
        rt: &R,
        shared: &Shared<B>,
        seat: &mut Seat<B>,
        builder: &BuilderEnd<B>,
    ) {
        self.told = match fill(rt, shared, seat) {
            Ok(()) => Ok(wait_for_end(rt, builder)),
            Err(error) => Err(error),
        };
    }
}

// One client, in a list.
fn one_client(alloc: Global) -> Result<Vec<Crowd>, Error> {
    let mut clients = Vec::new(alloc);
    clients.push(Crowd { told: Ok(None) })?;
    Ok(clients)
}

// What the client was told, if all was written out.
fn told_to<D>(served: &Served<Crowd, D>) -> Result<Option<Error>, Error> {
    served.written?;
    let mut told = None;
    for client in &served.clients {
        told = client.told?;
    }
    Ok(told)
}

/// Why the builder has ended, as the client was told, and as the run tells it behind that, if it does.
pub fn serve_a_crowd<R: Threads + Wait + Sync>(
    rt: &R,
    alloc: Global,
) -> Result<(Option<Error>, Option<Error>), OpenError> {
    let disk = formatted(alloc, Geometry::new(2, u32::from(PLACES), 16)?)?;
    let clients = one_client(alloc)?;
    let served = serve_on(rt, alloc, disk, clients)?;
    Ok((told_to(&served)?, served.built.err()))
}
