//! Clients that write what they wait for themselves, each in a thread of its own.
ghost use Rattle.std.specs.Prelude.{◌≡◌, ◌<◌, ◌≤◌, Err, IfErr, IfOk, OnOk, Some, ℕ, map, slice_index_or, vec_len};
ghost use Rattle.record_values.specs.declared.error.Error.TheVariants.{NoMemory, TooManyTxns};
ghost use Rattle.core_model.specs.Histories.{Opened};
ghost use Rattle.store_writer.specs.Parts.{device_of};
ghost use Rattle.threads_flusher.specs.Going.{GoesOn};
ghost use Rattle.shared.specs.Seats.{AreNewSeats, SeatValue};
ghost use Rattle.restart.specs.Reopening.{IsTurned};
ghost use Rattle.threads_lifetime.specs.Openings.{IsNewFlusher, Opens};
ghost use Rattle.threads_lifetime.specs.declared.refusal.OpenError.TheVariants.{Refused};
ghost use Rattle.nsf.specs.Serving.{IsNotServed, IsUnserved, KeepsSeat, LeavesWork, TellsBuild, WhyUnwritten};

use crate::clients::{Chair, Served, end, seated};
use crate::connection::{Connection, Waiting};
use records::Error;
use sector_device::Device;
use shared::{BuildPart, CleanPart, Group, Seat, Shared, Told};
use std::alloc::{AllocError, Global};
use std::marker::Brand;
use std::sync::Wait;
use std::thread::{Threads, for_each_mut};
use threads_flusher::FlushPart;
use threads_leader::{BuilderEnd, Course, Desk, Ended, NoGate, NotRun, run_led};
use threads_lifetime::{OpenError, OpenStore, Parts, let_go, open_store};

/// Something that uses a store beside others, as a `Client` does, and waits for its commits by its connection. It never
/// waits by `Shared::await_ack`, which wakes nobody here: that would take some milliseconds.
pub trait LedClient {
    /// What its work may make of it: of a client as it was, and as it is then, where it finds its seat so, and leaves
    /// it so. One that promises nothing leaves it out.
    ghost works: { Self → Self → SeatValue → SeatValue → Type 0 } = { λ before after first last. Unit {0} };

    /// What it does, once. It has the seat that it was given until it returns: so it is behind each call that takes the
    /// seat. Where it waits for an index, it asks why the builder has ended, if it has (`BuilderEnd::reason`): then the
    /// index is not completed meanwhile (no clause says so, nor that the end is this run's).
    fn work<B: Group, R: Wait, W: Waiting<B>>(
        &mut self,
        connection: &Connection<'_, B, R, W>,
        seat: &mut Seat<B>,
    )
        ensures seat { seat.new.number ≡ seat.old.number }
        ensures worked { works self.old self.new seat.old seat.new };
}

/// Opens the store on the device and runs the clients, as `serve` does, of which each clause stands here too, word for
/// word. But a client that waits for its commit writes it itself, while nobody else writes (no clause says so). So it
/// is the one to take where clients commit and wait, which is the usual case; few of them are some times as quick.
/// `serve` is the one for clients that seldom wait: there a thread of its own writes as soon as there is something.
pub fn serve_led<C: LedClient + Send + Drop, D: Device + Send + Drop, R: Threads + Wait + Sync>(
    rt: &R,
    alloc: Global,
    device: D,
    clients: Vec<C>,
) -> Result<Served<C, D>, (OpenError, D)>
    ensures leaves { IfOk result (λ s. (o : Opened) × Opens (D.past_of device).disk.content o
        × (opened : D) × IsTurned D.past_of device opened
        × (work : LeavesWork D.past_of D.marks C.works o clients.items s.clients.items opened s.device s.written)
        × (s.marks.items ≡ map (λ (seat : SeatValue). seat.sight.mark) work.seats) × TellsBuild o s.built) }
    ensures why { IfOk result (λ s. IfErr s.written (WhyUnwritten (D.failures device) (D.failures s.device))) }
    ensures quiet { IfOk result (λ s. OnOk s.written (D.failures s.device ≡ D.failures device)) }
    ensures later { IfOk result (λ s. D.failures device ≤ D.failures s.device) }
    ensures clients { IfOk result (λ s. vec_len s.clients ≡ vec_len clients) }
    ensures refused { IfErr result (λ r. IsNotServed D.past_of D.failures device (vec_len clients) r.1 r.0) }
    ensures many { 16 < vec_len clients → result ≡ Err (Refused TooManyTxns, device) }
{
    match open_store(alloc, device, clients.len()) {
        Ok(store) => begin::<Brand, C, D, R>(rt, alloc, store, clients),
        Err(refused) => Err(refused),
    }
}

// Gives the store its names, and lets the clients work.
fn begin<
    B: Group + Send + Sync,
    C: LedClient + Send + Drop,
    D: Device + Send + Drop,
    R: Threads + Wait + Sync,
>(
    rt: &R,
    alloc: Global,
    store: OpenStore<D>,
    clients: Vec<C>,
) -> Result<Served<C, D>, (OpenError, D)>
    requires names { store.site ≡ B.site }
    ensures leaves { IfOk result (λ s. (work : LeavesWork D.past_of D.marks C.works B.site.opened clients.items
        s.clients.items store.device s.device s.written)
        × (s.marks.items ≡ map (λ (seat : SeatValue). seat.sight.mark) work.seats)) }
    ensures told { IfOk result (λ s. TellsBuild B.site.opened s.built) }
    ensures why { IfOk result (λ s. IfErr s.written (WhyUnwritten (D.failures store.device) (D.failures s.device))) }
    ensures quiet { IfOk result (λ s. OnOk s.written (D.failures s.device ≡ D.failures store.device)) }
    ensures later { IfOk result (λ s. D.failures store.device ≤ D.failures s.device) }
    ensures clients { IfOk result (λ s. vec_len s.clients ≡ vec_len clients) }
    ensures refused { IfErr result (λ r. IsUnserved r.0 × (r.1 ≡ store.device)) }
{
    match store.start::<B, Told>() {
        Ok((shared, parts)) => match seat_all(rt, alloc, shared, parts, clients) {
            Ok(served) => Ok(served),
            Err(refused) => Err(refused),
        },
        Err((error, device)) => Err((OpenError::Refused(error), device)),
    }
}

// Lets each client work, each in a thread.
fn work_all<
    B: Group + Send + Sync,
    C: LedClient + Send,
    R: Threads + Wait + Sync,
    W: Waiting<B> + Sync,
>(
    rt: &R,
    shared: &Shared<B>,
    desk: &W,
    mut chairs: Vec<Chair<B, C>>,
    builder: &BuilderEnd<B>,
) -> Vec<Chair<B, C>>
    ensures len { vec_len result ≡ vec_len chairs }
    ensures seats { (k : ℕ) (d : _) → k < vec_len chairs
        → KeepsSeat (slice_index_or chairs.items k d).seat (slice_index_or result.items k d).seat }
    ensures worked { (k : ℕ) (d : _) → k < vec_len chairs
        → C.works (slice_index_or chairs.items k d).client (slice_index_or result.items k d).client
        (slice_index_or chairs.items k d).seat (slice_index_or result.items k d).seat }
{
    let threads = chairs.len().max(1);
    for_each_mut(
        rt,
        &mut chairs,
        threads,
        &|_: usize, chair: &mut Chair<B, C>| work_at(rt, shared, desk, chair, builder),
    );
    chairs
}

fn work_at<B: Group, C: LedClient, R: Wait, W: Waiting<B>>(
    rt: &R,
    shared: &Shared<B>,
    desk: &W,
    chair: &mut Chair<B, C>,
    builder: &BuilderEnd<B>,
)
    ensures seat { KeepsSeat chair.old.seat chair.new.seat }
    ensures worked { C.works chair.old.client chair.new.client chair.old.seat chair.new.seat }
{
    let connection = Connection {
        rt,
        shared,
        desk,
        builder,
    };
    chair.client.work(&connection, &mut chair.seat);
}

// Runs the clients and the three loops, each in a thread, with a desk for the flusher's part. Where a thread is
// wanting, that part comes back as it was.
fn run_all<
    K: Course<D, Global> + Send + Sync,
    B: Group + Send + Sync,
    C: LedClient + Send + Drop,
    D: Device + Send + Drop,
    R: Threads + Wait + Sync,
>(
    rt: &R,
    shared: &Shared<B>,
    chairs: Vec<Chair<B, C>>,
    flush: FlushPart<B, D>,
    build: BuildPart<B>,
    clean: CleanPart<B>,
) -> Result<Ended<B, D, Vec<Chair<B, C>>>, FlushPart<B, D>>
    requires begun { K.begun ≡ Some flush }
    ensures len { IfOk result (λ e. vec_len e.clients ≡ vec_len chairs) }
    ensures seats { IfOk result (λ e. (k : ℕ) (d : _) → k < vec_len chairs
        → KeepsSeat (slice_index_or chairs.items k d).seat (slice_index_or e.clients.items k d).seat) }
    ensures worked { IfOk result (λ e. (k : ℕ) (d : _) → k < vec_len chairs
        → C.works (slice_index_or chairs.items k d).client (slice_index_or e.clients.items k d).client
        (slice_index_or chairs.items k d).seat (slice_index_or e.clients.items k d).seat) }
    ensures going { IfOk result (λ e. GoesOn D.past_of D.failures B.site.opened flush e.flush) }
    ensures told { IfOk result (λ e. TellsBuild B.site.opened e.built) }
    ensures back { IfErr result (λ part. part ≡ flush) }
{
    let told = BuilderEnd::new();
    let builder = &told;
    let desk: Desk<K, B, D> = Desk::new();
    let lent = &desk;
    let ran = run_led(
        rt,
        shared,
        flush,
        build,
        clean,
        builder,
        lent,
        &NoGate,
        move || -> Vec<Chair<B, C>>
            ensures len { vec_len result ≡ vec_len chairs }
            ensures seats { (k : ℕ) (d : _) → k < vec_len chairs
                → KeepsSeat (slice_index_or chairs.items k d).seat (slice_index_or result.items k d).seat }
            ensures worked { (k : ℕ) (d : _) → k < vec_len chairs
                → C.works (slice_index_or chairs.items k d).client (slice_index_or result.items k d).client
                (slice_index_or chairs.items k d).seat (slice_index_or result.items k d).seat }
        { work_all(rt, shared, lent, chairs, builder) },
    );
    match ran {
        Ok((ended, _)) => Ok(ended),
        Err(not_run) => {
            let NotRun { flush, .. } = not_run;
            Err(flush)
        }
    }
}

// Seats the clients, and lets them work.
fn seat_all<
    B: Group + Send + Sync,
    C: LedClient + Send + Drop,
    D: Device + Send + Drop,
    R: Threads + Wait + Sync,
>(
    rt: &R,
    alloc: Global,
    shared: Shared<B>,
    parts: Parts<B, D>,
    clients: Vec<C>,
) -> Result<Served<C, D>, (OpenError, D)>
    requires seats { AreNewSeats B.site.board B.site.seats parts.seats.items }
    requires flush { IsNewFlusher D.past_of D.marks B.site.board B.site.opened parts.flush }
    ensures leaves { IfOk result (λ s. (work : LeavesWork D.past_of D.marks C.works B.site.opened clients.items
        s.clients.items (device_of parts.flush.writer) s.device s.written)
        × (s.marks.items ≡ map (λ (seat : SeatValue). seat.sight.mark) work.seats)) }
    ensures told { IfOk result (λ s. TellsBuild B.site.opened s.built) }
    ensures why { IfOk result (λ s. IfErr s.written (WhyUnwritten (D.failures (device_of parts.flush.writer))
        (D.failures s.device))) }
    ensures quiet { IfOk result (λ s. OnOk s.written (D.failures s.device
        ≡ D.failures (device_of parts.flush.writer))) }
    ensures later { IfOk result (λ s. D.failures (device_of parts.flush.writer) ≤ D.failures s.device) }
    ensures clients { IfOk result (λ s. vec_len s.clients ≡ vec_len clients) }
    ensures refused { IfErr result (λ r. IsUnserved r.0 × (r.1 ≡ device_of parts.flush.writer)) }
{
    let Parts {
        seats,
        flush,
        build,
        clean,
    } = parts;
    match seated(alloc, seats, clients) {
        Ok((chairs, room)) => {
            match run_all::<Brand, B, C, D, R>(rt, &shared, chairs, flush, build, clean) {
                Ok(ended) => Ok(end(rt, alloc, shared, ended, room)),
                Err(flush) => Err((OpenError::NoThread, let_go(shared, flush))),
            }
        }
        Err(AllocError) => Err((OpenError::Refused(Error::NoMemory), let_go(shared, flush))),
    }
}
