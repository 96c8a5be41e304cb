//! Players at the seats of a store, beside its loops, to the end of all threads.
ghost use Rattle.std.specs.Prelude.{◌≡◌, Some};
ghost use Rattle.shared.specs.Seats.{AreNewSeats};

use crate::at_seat::let_play;
use crate::chairs::{Chair, Player, THREADS_MAX, chairs_of, parted};
use crate::runs::{Ran, run, run_by_leaders};
use crate::store::{Finished, start, take_back};
use crate::waits::{ByFlusher, Waits};
use records::Error;
use sector_device::Device;
use shared::{Group, Kept, LoopParts, Shared};
use std::alloc::Global;
use std::marker::Brand;
use std::mem::forget;
use std::sync::Wait;
use std::thread::{Threads, for_each_mut};
use threads_leader::{Course, Desk};
use threads_lifetime::{OpenStore, Parts};
use threads_loops::Gate;

/// What is left: the players, in their order; how the flusher ended; and the end of all threads.
#[derive(Drop)]
pub struct Left<P, D> {
    pub players: Vec<P>,
    pub flusher: Option<Error>,
    pub end: Finished<D>,
}

/// Who writes what the seats wait for: the flusher alone, or a seat too.
#[derive(Clone, Copy, PartialEq)]
pub enum Writes {
    Flusher,
    Leaders,
}

// Lets each play, each in a thread.
fn play_each<
    B: Group + Send + Sync,
    P: Player + Send,
    R: Threads + Wait + Sync,
    W: Waits<B, Global> + Sync,
>(rt: &R, shared: &Shared<B>, waits: &W, mut chairs: Vec<Chair<B, P>>) -> Vec<Chair<B, P>> {
    for_each_mut(
        rt,
        &mut chairs,
        THREADS_MAX,
        &|_: usize, chair: &mut Chair<B, P>| {
            let_play(rt, shared, waits, &mut chair.at, &mut chair.player)
        },
    );
    chairs
}

// Lets all play beside the loops. Where there is no thread for one, their parts come back.
fn run_chairs<
    B: Group + Send + Sync,
    P: Player + Send + Drop,
    D: Device + Send + Drop,
    R: Threads + Wait + Sync,
    G: Gate + Sync,
>(
    rt: &R,
    shared: &Shared<B>,
    chairs: Vec<Chair<B, P>>,
    loops: LoopParts<B, D>,
    gate: &G,
) -> Result<Ran<B, D, Vec<Chair<B, P>>>, LoopParts<B, D>> {
    let clients = move || play_each(rt, shared, &ByFlusher, chairs);
    run(rt, shared, loops, gate, clients)
}

// The same, where the flusher's part lies on a desk. Nothing lies there in the end, so nothing is lost with it.
fn lead_chairs<
    C: Course<D, Global> + Send + Sync,
    B: Group + Send + Sync,
    P: Player + Send + Drop,
    D: Device + Send + Drop,
    R: Threads + Wait + Sync,
    G: Gate + Sync,
>(
    rt: &R,
    shared: &Shared<B>,
    chairs: Vec<Chair<B, P>>,
    loops: LoopParts<B, D>,
    gate: &G,
) -> Result<Ran<B, D, Vec<Chair<B, P>>>, LoopParts<B, D>>
    requires { C.begun ≡ Some loops.flush }
{
    let desk: Desk<C, B, D> = Desk::new();
    let lent = &desk;
    let clients = move || play_each(rt, shared, lent, chairs);
    let ran = run_by_leaders(rt, shared, loops, lent, gate, clients);
    forget(desk);
    ran
}

// Lets them play so.
fn play_chairs<
    B: Group + Send + Sync,
    P: Player + Send + Drop,
    D: Device + Send + Drop,
    R: Threads + Wait + Sync,
    G: Gate + Sync,
>(
    rt: &R,
    shared: &Shared<B>,
    chairs: Vec<Chair<B, P>>,
    loops: LoopParts<B, D>,
    gate: &G,
    writes: Writes,
) -> Result<Ran<B, D, Vec<Chair<B, P>>>, LoopParts<B, D>> {
    match writes {
        Writes::Flusher => run_chairs(rt, shared, chairs, loops, gate),
        Writes::Leaders => lead_chairs::<Brand, B, P, D, R, G>(rt, shared, chairs, loops, gate),
    }
}

// Lets them play with a seat for each.
fn play_parts<
    B: Group + Send + Sync,
    P: Player + Send + Drop,
    D: Device + Send + Drop,
    R: Threads + Wait + Sync,
    G: Gate + Sync,
>(
    rt: &R,
    alloc: Global,
    shared: &Shared<B>,
    parts: Parts<B, D, Global, Kept>,
    players: Vec<P>,
    gate: &G,
    writes: Writes,
) -> Result<Ran<B, D, Vec<Chair<B, P>>>, LoopParts<B, D>>
    requires { AreNewSeats B.site.board B.site.seats parts.seats.items }
{
    let (seats, loops) = parts.split();
    match chairs_of(alloc, seats, players) {
        Ok(chairs) => play_chairs(rt, shared, chairs, loops, gate, writes),
        Err(_) => Err(loops),
    }
}

// Takes all back, and writes out what was made.
fn end<B: Group, P: Drop, D: Device + Drop, R: Wait>(
    rt: &R,
    alloc: Global,
    shared: Shared<B>,
    ran: Ran<B, D, Vec<Chair<B, P>>>,
    count: usize,
) -> Result<Left<P, D>, Error>
    requires { count ≡ B.site.seats }
{
    let Ran {
        clients,
        loops,
        flushed,
    } = ran;
    match parted(alloc, clients, count) {
        Ok((seats, players)) => Ok(Left {
            players,
            flusher: flushed.err(),
            end: take_back(rt, alloc, shared, loops.with_seats(seats)),
        }),
        Err(_) => {
            forget(shared);
            forget(loops);
            Err(Error::NoMemory)
        }
    }
}

// Lets them play, and takes all back.
fn play_with<
    B: Group + Send + Sync,
    P: Player + Send + Drop,
    D: Device + Send + Drop,
    R: Threads + Wait + Sync,
    G: Gate + Sync,
>(
    rt: &R,
    alloc: Global,
    shared: Shared<B>,
    parts: Parts<B, D, Global, Kept>,
    players: Vec<P>,
    gate: &G,
    writes: Writes,
) -> Result<Left<P, D>, Error>
    requires { AreNewSeats B.site.board B.site.seats parts.seats.items }
{
    let count = parts.seats.len();
    match play_parts(rt, alloc, &shared, parts, players, gate, writes) {
        Ok(ran) => end(rt, alloc, shared, ran, count),
        Err(loops) => {
            forget(shared);
            forget(loops);
            Err(Error::NoMemory)
        }
    }
}

// The same in the store.
fn play_in<
    B: Group + Send + Sync,
    P: Player + Send + Drop,
    D: Device + Send + Drop,
    R: Threads + Wait + Sync,
    G: Gate + Sync,
>(
    rt: &R,
    alloc: Global,
    store: OpenStore<D>,
    players: Vec<P>,
    gate: &G,
    writes: Writes,
) -> Result<Left<P, D>, Error>
    requires { store.site ≡ B.site }
{
    match start::<B, D, Global>(store) {
        Ok((shared, parts)) => play_with(rt, alloc, shared, parts, players, gate, writes),
        Err((error, device)) => {
            forget(device);
            forget(players);
            Err(error)
        }
    }
}

/// Lets players play at the seats of the store, each in a thread, beside the loops, whose gate is this, until all have
/// ended. Then all is taken back, and what was made is written out.
///
/// `NoMemory` where there are fewer players than seats, or no thread for a loop; what was given is lost then.
pub fn play_beside<
    P: Player + Send + Drop,
    D: Device + Send + Drop,
    R: Threads + Wait + Sync,
    G: Gate + Sync,
>(
    rt: &R,
    alloc: Global,
    store: OpenStore<D>,
    players: Vec<P>,
    gate: &G,
    writes: Writes,
) -> Result<Left<P, D>, Error> {
    play_in::<Brand, P, D, R, G>(rt, alloc, store, players, gate, writes)
}
