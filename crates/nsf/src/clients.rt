//! Clients of a store, each in a thread of its own.
ghost use Rattle.std.specs.Prelude.{◌≡◌, ◌<◌, ◌≤◌, Err, IfErr, IfOk, List, OnOk, Some, ℕ, map, vec_len};
ghost use Rattle.std.specs.Prelude.{false, slice_get, slice_index_or};
ghost use Rattle.std.specs.Fn.{FnOnceReturnsAt};
ghost use Rattle.std.specs.List.{All};
ghost use Rattle.record_values.specs.declared.error.Error.TheVariants.{NoMemory, TooManyTxns};
ghost use Rattle.core_model.specs.Histories.{Opened};
ghost use Rattle.store_writer.specs.Parts.{device_of, has_failed};
ghost use Rattle.threads_flusher.specs.Going.{GoesOn};
ghost use Rattle.threads_flusher.specs.Part.{IsSafeSince};
ghost use Rattle.shared.specs.Seats.{AreNewSeats, SeatValue};
ghost use Rattle.threads_lifetime.specs.Gathered.{AreAllSeats};
ghost use Rattle.restart.specs.Reopening.{IsTurned};
ghost use Rattle.threads_lifetime.specs.Openings.{IsNewFlusher, Opens};
ghost use Rattle.threads_lifetime.specs.declared.refusal.OpenError.TheVariants.{Refused};
ghost use Rattle.nsf.specs.Serving.{HadEnded, HasRoom, IsLaterPast, IsNotServed, IsUnserved, KeepsSeat, LeavesCommits};
ghost use Rattle.nsf.specs.Serving.{LeavesWork, TellsBuild, WhyRestUnwritten, WhyUnwritten, unnamed};

use nsf_core::Ticket;
use records::Error;
use sector_device::Device;
use shared::{BuildPart, CleanPart, Group, Seat, Shared, Told};
use std::alloc::{AllocError, Global};
use std::marker::Brand;
use std::sync::Wait;
use std::thread::{Threads, for_each_mut};
use threads_flusher::FlushPart;
use threads_leader::{BuilderEnd, Ended, NoGate, NotRun, run_beside};
use threads_lifetime::{OpenError, OpenStore, Parts, finish, let_go, open_store};

/// Something that uses a store beside others, in a thread of its own with a seat of its own.
pub trait Client {
    /// What its work may make of it: of a client as it was, and as it is then, where it finds its seat so, and leaves
    /// it so. One that promises nothing leaves it out.
    ghost works: { Self → Self → SeatValue → SeatValue → Type 0 } = { λ before after first last. Unit {0} };

    /// What it does, once. It has the seat that it was given until it returns: so it is behind each call that takes the
    /// seat. Where it waits for an index, it asks why the builder has ended, if it has (`BuilderEnd::reason`): then the
    /// index is not completed meanwhile (no clause says so, nor that the end is this run's).
    fn work<B: Group, R: Wait>(
        &mut self,
        rt: &R,
        shared: &Shared<B>,
        seat: &mut Seat<B>,
        builder: &BuilderEnd<B>,
    )
        ensures seat { seat.new.number ≡ seat.old.number }
        ensures worked { works self.old self.new seat.old seat.new };
}

/// What clients leave.
#[derive(Drop)]
pub struct Served<C, D> {
    /// The clients, in their order, each as its work has left it.
    pub clients: Vec<C>,
    /// Of each client's seat, the mark that it has read last (`Shared::mark`), or 0 where it has read none.
    pub marks: Vec<u64>,
    pub device: D,
    /// What `run_beside` told of the builder: the ticket of an index that was completed meanwhile, or why none is told.
    /// (That one which was completed is told, no clause says.)
    pub built: Result<Ticket, Error>,
    /// Why not all was written to the device, if so: what `finish` tells.
    pub written: Result<(), Error>,
}

/// Opens the store on the device, as `open_store` does, and runs the clients, each in a thread of its own. Meanwhile
/// others build the index, clean it and write to the device. When all clients have ended, all that they did is written
/// out.
///
/// Each client has worked, with a new seat of its own. Then a crash leaves what was opened with the commits of all
/// seats set over it; where `written` tells a refusal, with those up to some record. No horizon that a seat has read
/// is above that record: so nothing is lost that a client knows by its seat to be safe. Where a client has read a mark
/// of the device's clock (`Shared::mark`), that was so at any moment since the one that it marks, of the horizon that
/// the seat had seen then. Since the store was opened, a crash at any moment leaves the commits up to some record; and
/// before that what one could leave before the call, or what gives the same (`leaves`).
///
/// A refusal is `NoMemory` where the device's count of failures is as it was, or `DeviceFailed` where it has risen
/// (`why`). Where all was written, no call of the device has failed (`quiet`). The count never falls (`later`). A
/// transaction that a client left active is taken back when the store is opened again.
///
/// The errors are those of `open_store`, as `TooManyTxns` where there are more than 16 clients (`many`), and
/// `NoMemory`; and `NoThread` where no thread can be made for what runs beside the clients; no client is called then.
/// (No clause says the last.) The device is given back; a crash at any moment of the call leaves what one before
/// could, or what gives the same (`refused`).
pub fn serve<C: Client + Send + Drop, D: Device + Send + Drop, R: Threads + Wait + Sync>(
    rt: &R,
    alloc: Global,
    device: D,
    clients: Vec<C>,
) -> Result<Served<C, D>, (OpenError, D)>
    ensures leaves { IfOk result (λ s. (o : Opened) × Opens (D.past_of device).disk.content o
        × (opened : D) × IsTurned D.past_of device opened
        × (work : LeavesWork D.past_of D.marks C.works o clients.items s.clients.items opened s.device s.written)
        × (s.marks.items ≡ map (λ (seat : SeatValue). seat.sight.mark) work.seats) × TellsBuild o s.built) }
    ensures why { IfOk result (λ s. IfErr s.written (WhyUnwritten (D.failures device) (D.failures s.device))) }
    ensures quiet { IfOk result (λ s. OnOk s.written (D.failures s.device ≡ D.failures device)) }
    ensures later { IfOk result (λ s. D.failures device ≤ D.failures s.device) }
    ensures clients { IfOk result (λ s. vec_len s.clients ≡ vec_len clients) }
    ensures refused { IfErr result (λ r. IsNotServed D.past_of D.failures device (vec_len clients) r.1 r.0) }
    ensures many { 16 < vec_len clients → result ≡ Err (Refused TooManyTxns, device) }
{
    match serve_and_see(rt, alloc, device, clients, |_: &D| {}) {
        Ok((served, ())) => Ok(served),
        Err(refused) => Err(refused),
    }
}

/// As `serve`. Once all clients and the loops beside them have ended, before the rest is written out, `see` is called
/// with the device, and what it answers comes back. That it is called so early no clause says. A crash at any moment
/// since then leaves all up to each horizon that a seat has read (`leaves`).
pub fn serve_and_see<
    C: Client + Send + Drop,
    D: Device + Send + Drop,
    R: Threads + Wait + Sync,
    T: Drop,
    F: FnOnce(&D) -> T,
>(
    rt: &R,
    alloc: Global,
    device: D,
    clients: Vec<C>,
    see: F,
) -> Result<(Served<C, D>, T), (OpenError, D)>
    requires see { F.IsAlwaysCallable see }
    ensures leaves { IfOk result (λ r. (o : Opened) × Opens (D.past_of device).disk.content o
        × (opened : D) × IsTurned D.past_of device opened
        × (work : LeavesWork D.past_of D.marks C.works o clients.items r.0.clients.items opened r.0.device r.0.written)
        × (r.0.marks.items ≡ map (λ (seat : SeatValue). seat.sight.mark) work.seats) × TellsBuild o r.0.built
        × HadEnded D.past_of (λ d. FnOnceReturnsAt F.FnOnce see d r.1) o work.leaves.geometry work.seats
        work.leaves.popped work.floor opened r.0.device) }
    ensures why { IfOk result (λ r. IfErr r.0.written (WhyUnwritten (D.failures device) (D.failures r.0.device))) }
    ensures quiet { IfOk result (λ r. OnOk r.0.written (D.failures r.0.device ≡ D.failures device)) }
    ensures later { IfOk result (λ r. D.failures device ≤ D.failures r.0.device) }
    ensures clients { IfOk result (λ r. vec_len r.0.clients ≡ vec_len clients) }
    ensures refused { IfErr result (λ r. IsNotServed D.past_of D.failures device (vec_len clients) r.1 r.0) }
    ensures many { 16 < vec_len clients → result ≡ Err (Refused TooManyTxns, device) }
{
    match open_store(alloc, device, clients.len()) {
        Ok(store) => begin::<Brand, C, D, R, T, F>(rt, alloc, store, clients, see),
        Err(refused) => Err(refused),
    }
}

// Gives the store its names, and lets the clients work.
fn begin<
    B: Group + Send + Sync,
    C: Client + Send + Drop,
    D: Device + Send + Drop,
    R: Threads + Wait + Sync,
    T: Drop,
    F: FnOnce(&D) -> T,
>(
    rt: &R,
    alloc: Global,
    store: OpenStore<D>,
    clients: Vec<C>,
    see: F,
) -> Result<(Served<C, D>, T), (OpenError, D)>
    requires names { store.site ≡ B.site }
    requires see { F.IsAlwaysCallable see }
    ensures leaves { IfOk result (λ r. (work : LeavesWork D.past_of D.marks C.works B.site.opened clients.items
        r.0.clients.items store.device r.0.device r.0.written)
        × (r.0.marks.items ≡ map (λ (seat : SeatValue). seat.sight.mark) work.seats)
        × HadEnded D.past_of (λ d. FnOnceReturnsAt F.FnOnce see d r.1) B.site.opened work.leaves.geometry work.seats
        work.leaves.popped work.floor store.device r.0.device) }
    ensures told { IfOk result (λ r. TellsBuild B.site.opened r.0.built) }
    ensures why { IfOk result (λ r. IfErr r.0.written (WhyUnwritten (D.failures store.device)
        (D.failures r.0.device))) }
    ensures quiet { IfOk result (λ r. OnOk r.0.written (D.failures r.0.device ≡ D.failures store.device)) }
    ensures later { IfOk result (λ r. D.failures store.device ≤ D.failures r.0.device) }
    ensures clients { IfOk result (λ r. vec_len r.0.clients ≡ vec_len clients) }
    ensures refused { IfErr result (λ r. IsUnserved r.0 × (r.1 ≡ store.device)) }
{
    match store.start::<B, Told>() {
        Ok((shared, parts)) => match seat_all(rt, alloc, shared, parts, clients, see) {
            Ok(served) => Ok(served),
            Err(refused) => Err(refused),
        },
        Err((error, device)) => Err((OpenError::Refused(error), device)),
    }
}

/// A client with its seat.
#[derive(Drop)]
pub(crate) struct Chair<B: Group, C> {
    pub(crate) client: C,
    pub(crate) seat: Seat<B>,
}

// Each client with a seat, both in their order.
fn chairs_of<B: Group, C: Drop>(
    alloc: Global,
    seats: Vec<Seat<B>>,
    clients: Vec<C>,
) -> Result<Vec<Chair<B, C>>, AllocError>
    ensures seats { IfOk result (λ chairs. map (λ d. d.seat) chairs.items ≡ seats.items) }
    ensures clients { IfOk result (λ chairs. map (λ d. d.client) chairs.items ≡ clients.items) }
{
    if seats.len() != clients.len() {
        return Err(AllocError);
    }
    let mut chairs = Vec::with_capacity(alloc, seats.len())?;
    let mut waiting = clients.into_iter();
    for seat in seats {
        let Some(client) = waiting.next() else {
            unreachable!()
        };
        chairs.push_reserved(Chair { client, seat });
    }
    Ok(chairs)
}

/// Where clients and seats are put when the work is done, so that no memory is wanted then.
#[derive(Drop)]
pub(crate) struct Room<B: Group, C> {
    clients: Vec<C>,
    seats: Vec<Seat<B>>,
    marks: Vec<u64>,
}

fn room_for<B: Group, C: Drop>(alloc: Global, count: usize) -> Result<Room<B, C>, AllocError>
    ensures clients { IfOk result (λ room. HasRoom room.clients count) }
    ensures seats { IfOk result (λ room. HasRoom room.seats count) }
    ensures marks { IfOk result (λ room. HasRoom room.marks count) }
{
    let clients = Vec::with_capacity(alloc, count)?;
    let seats = Vec::with_capacity(alloc, count)?;
    let marks = Vec::with_capacity(alloc, count)?;
    Ok(Room {
        clients,
        seats,
        marks,
    })
}

// The clients of these chairs, their seats, and the marks that these have read.
fn parted<B: Group, C: Drop>(chairs: Vec<Chair<B, C>>, room: Room<B, C>) -> Room<B, C>
    requires clients { HasRoom room.clients (vec_len chairs) }
    requires seats { HasRoom room.seats (vec_len chairs) }
    requires marks { HasRoom room.marks (vec_len chairs) }
    ensures clients { result.clients.items ≡ map (λ d. d.client) chairs.items }
    ensures seats { result.seats.items ≡ map (λ d. d.seat) chairs.items }
    ensures marks { result.marks.items ≡ map (λ d. d.seat.sight.mark) chairs.items }
{
    let Room {
        mut clients,
        mut seats,
        mut marks,
    } = room;
    for chair in chairs {
        let Chair { client, seat } = chair;
        marks.push_reserved(seat.last_mark());
        clients.push_reserved(client);
        seats.push_reserved(seat);
    }
    Room {
        clients,
        seats,
        marks,
    }
}

// Lets each client work, each in a thread.
fn work_all<B: Group + Send + Sync, C: Client + Send, R: Threads + Wait + Sync>(
    rt: &R,
    shared: &Shared<B>,
    mut chairs: Vec<Chair<B, C>>,
    builder: &BuilderEnd<B>,
) -> Vec<Chair<B, C>>
    ensures len { vec_len result ≡ vec_len chairs }
    ensures seats { (k : ℕ) (d : _) → k < vec_len chairs
        → KeepsSeat (slice_index_or chairs.items k d).seat (slice_index_or result.items k d).seat }
    ensures worked { (k : ℕ) (d : _) → k < vec_len chairs
        → C.works (slice_index_or chairs.items k d).client (slice_index_or result.items k d).client
        (slice_index_or chairs.items k d).seat (slice_index_or result.items k d).seat }
{
    let threads = chairs.len().max(1);
    for_each_mut(
        rt,
        &mut chairs,
        threads,
        &|_: usize, chair: &mut Chair<B, C>| work_at(rt, shared, chair, builder),
    );
    chairs
}

fn work_at<B: Group, C: Client, R: Wait>(
    rt: &R,
    shared: &Shared<B>,
    chair: &mut Chair<B, C>,
    builder: &BuilderEnd<B>,
)
    ensures seat { KeepsSeat chair.old.seat chair.new.seat }
    ensures worked { C.works chair.old.client chair.new.client chair.old.seat chair.new.seat }
{
    chair.client.work(rt, shared, &mut chair.seat, builder);
}

// Runs the clients and the three loops, each in a thread. Where a thread is wanting, the flusher's part comes back as
// it was.
fn run_all<
    B: Group + Send + Sync,
    C: Client + Send + Drop,
    D: Device + Send + Drop,
    R: Threads + Wait + Sync,
>(
    rt: &R,
    shared: &Shared<B>,
    chairs: Vec<Chair<B, C>>,
    flush: FlushPart<B, D>,
    build: BuildPart<B>,
    clean: CleanPart<B>,
) -> Result<Ended<B, D, Vec<Chair<B, C>>>, FlushPart<B, D>>
    ensures len { IfOk result (λ e. vec_len e.clients ≡ vec_len chairs) }
    ensures seats { IfOk result (λ e. (k : ℕ) (d : _) → k < vec_len chairs
        → KeepsSeat (slice_index_or chairs.items k d).seat (slice_index_or e.clients.items k d).seat) }
    ensures worked { IfOk result (λ e. (k : ℕ) (d : _) → k < vec_len chairs
        → C.works (slice_index_or chairs.items k d).client (slice_index_or e.clients.items k d).client
        (slice_index_or chairs.items k d).seat (slice_index_or e.clients.items k d).seat) }
    ensures going { IfOk result (λ e. GoesOn D.past_of D.failures B.site.opened flush e.flush) }
    ensures told { IfOk result (λ e. TellsBuild B.site.opened e.built) }
    ensures back { IfErr result (λ part. part ≡ flush) }
{
    let told = BuilderEnd::new();
    let builder = &told;
    let ran = run_beside(
        rt,
        shared,
        flush,
        build,
        clean,
        builder,
        &NoGate,
        move || -> Vec<Chair<B, C>>
            ensures len { vec_len result ≡ vec_len chairs }
            ensures seats { (k : ℕ) (d : _) → k < vec_len chairs
                → KeepsSeat (slice_index_or chairs.items k d).seat (slice_index_or result.items k d).seat }
            ensures worked { (k : ℕ) (d : _) → k < vec_len chairs
                → C.works (slice_index_or chairs.items k d).client (slice_index_or result.items k d).client
                (slice_index_or chairs.items k d).seat (slice_index_or result.items k d).seat }
        { work_all(rt, shared, chairs, builder) },
    );
    match ran {
        Ok((ended, _)) => Ok(ended),
        Err(not_run) => {
            let NotRun { flush, .. } = not_run;
            Err(flush)
        }
    }
}

// The device, once all that was made is written out, and why it isn't, if so.
fn close<B: Group, D: Device, R: Wait>(
    rt: &R,
    alloc: Global,
    shared: Shared<B>,
    parts: Parts<B, D>,
) -> (D, Result<(), Error>)
    requires seats { AreAllSeats B.site.seats parts.seats.items }
    ensures leaves { LeavesCommits D.past_of B.site.opened parts.seats.items parts.flush.publications
        parts.flush.published.horizon result.0 result.1 }
    ensures goes { IsLaterPast (D.past_of (device_of parts.flush.writer)) (D.past_of result.0) }
    ensures why { IfErr result.1 (WhyRestUnwritten (has_failed parts.flush.writer)
        (D.failures (device_of parts.flush.writer)) (D.failures result.0)) }
    ensures sound { OnOk result.1 (has_failed parts.flush.writer ≡ false) }
    ensures quiet { OnOk result.1 (D.failures result.0 ≡ D.failures (device_of parts.flush.writer)) }
    ensures later { D.failures (device_of parts.flush.writer) ≤ D.failures result.0 }
{
    parts.flush.stands();
    match finish(rt, alloc, shared, parts, Vec::new(alloc)) {
        Ok(closed) => (closed.into_device(), Ok(())),
        Err((error, device)) => (device, Err(error)),
    }
}

// No horizon that a seat has read is above the last that was published, and the mark that it has read is of a moment at
// which the horizon was published that it had seen. Nothing changes but the names of the seats' views.
fn settle_chair<B: Group, C, D: Device>(
    shared: &Shared<B>,
    chair: &mut Chair<B, C>,
    flush: &mut FlushPart<B, D>,
)
    ensures same { flush.new ≡ flush.old }
    ensures client { chair.new.client ≡ chair.old.client }
    ensures number { chair.new.seat.number ≡ chair.old.seat.number }
    ensures seat { unnamed chair.new.seat ≡ unnamed chair.old.seat }
    ensures seen { chair.old.seat.sight.horizon ≤ flush.old.published.horizon }
    ensures marked { IsSafeSince D.marks flush.old.publications chair.old.seat.sight.safe chair.old.seat.sight.mark }
{
    let mut view = shared.another_view(&mut chair.seat);
    view.settle(shared, flush);
}

// So it is of each seat.
fn settle_chairs<B: Group, C, D: Device>(
    shared: &Shared<B>,
    chairs: &mut Vec<Chair<B, C>>,
    flush: &mut FlushPart<B, D>,
)
    ensures same { flush.new ≡ flush.old }
    ensures len { vec_len chairs.new ≡ vec_len chairs.old }
    ensures clients { map (λ d. d.client) chairs.new.items ≡ map (λ d. d.client) chairs.old.items }
    ensures seats { map (λ d. unnamed d.seat) chairs.new.items ≡ map (λ d. unnamed d.seat) chairs.old.items }
    ensures all { (count : ℕ) → AreAllSeats count (map (λ d. d.seat) chairs.old.items)
        → AreAllSeats count (map (λ d. d.seat) chairs.new.items) }
    ensures seen { (k : ℕ) (d : _) → slice_get chairs.old.items k ≡ Some d
        → d.seat.sight.horizon ≤ flush.old.published.horizon }
    ensures marked { (k : ℕ) (d : _) → slice_get chairs.old.items k ≡ Some d
        → IsSafeSince D.marks flush.old.publications d.seat.sight.safe d.seat.sight.mark }
{
    for k in 0..chairs.len() {
        let chair = &mut chairs[k];
        settle_chair(shared, chair, flush);
    }
}

/// What is left once clients and loops have ended.
pub(crate) fn end<B: Group, C: Drop, D: Device, R: Wait>(
    rt: &R,
    alloc: Global,
    shared: Shared<B>,
    ended: Ended<B, D, Vec<Chair<B, C>>>,
    room: Room<B, C>,
) -> Served<C, D>
    requires seats { AreAllSeats B.site.seats (map (λ d. d.seat) ended.clients.items) }
    requires room { HasRoom room.clients (vec_len ended.clients) }
    requires places { HasRoom room.seats (vec_len ended.clients) }
    requires marks { HasRoom room.marks (vec_len ended.clients) }
    ensures leaves { (seats : List SeatValue)
        × (map unnamed seats ≡ map (λ d. unnamed d.seat) ended.clients.items)
        × LeavesCommits D.past_of B.site.opened seats ended.flush.publications ended.flush.published.horizon
        result.device result.written
        × (result.marks.items ≡ map (λ (seat : SeatValue). seat.sight.mark) seats) }
    ensures goes { IsLaterPast (D.past_of (device_of ended.flush.writer)) (D.past_of result.device) }
    ensures seen { (k : ℕ) (d : _) → slice_get ended.clients.items k ≡ Some d
        → d.seat.sight.horizon ≤ ended.flush.published.horizon }
    ensures marked { (k : ℕ) (d : _) → slice_get ended.clients.items k ≡ Some d
        → IsSafeSince D.marks ended.flush.publications d.seat.sight.safe d.seat.sight.mark }
    ensures why { IfErr result.written (WhyRestUnwritten (has_failed ended.flush.writer)
        (D.failures (device_of ended.flush.writer)) (D.failures result.device)) }
    ensures sound { OnOk result.written (has_failed ended.flush.writer ≡ false) }
    ensures quiet { OnOk result.written (D.failures result.device ≡ D.failures (device_of ended.flush.writer)) }
    ensures later { D.failures (device_of ended.flush.writer) ≤ D.failures result.device }
    ensures built { result.built ≡ ended.built }
    ensures clients { vec_len result.clients ≡ vec_len ended.clients }
    ensures order { result.clients.items ≡ map (λ d. d.client) ended.clients.items }
{
    let Ended {
        clients: mut chairs,
        mut flush,
        build,
        clean,
        built,
        ..
    } = ended;
    settle_chairs(&shared, &mut chairs, &mut flush);
    let room = parted(chairs, room);
    let Room {
        clients,
        seats,
        marks,
    } = room;
    let parts = Parts {
        seats,
        flush,
        build,
        clean,
    };
    let (device, written) = close(rt, alloc, shared, parts);
    Served {
        clients,
        marks,
        device,
        built,
        written,
    }
}

/// Gives each client a seat, and makes room for both, if there is memory.
pub(crate) fn seated<B: Group, C: Drop>(
    alloc: Global,
    seats: Vec<Seat<B>>,
    clients: Vec<C>,
) -> Result<(Vec<Chair<B, C>>, Room<B, C>), AllocError>
    ensures seats { IfOk result (λ r. map (λ d. d.seat) r.0.items ≡ seats.items) }
    ensures clients { IfOk result (λ r. vec_len r.0 ≡ vec_len clients) }
    ensures order { IfOk result (λ r. map (λ d. d.client) r.0.items ≡ clients.items) }
    ensures room { IfOk result (λ r. HasRoom r.1.clients (vec_len r.0)) }
    ensures places { IfOk result (λ r. HasRoom r.1.seats (vec_len r.0)) }
    ensures marks { IfOk result (λ r. HasRoom r.1.marks (vec_len r.0)) }
{
    let chairs = chairs_of(alloc, seats, clients)?;
    let room = room_for(alloc, chairs.len())?;
    Ok((chairs, room))
}

// Seats the clients, and lets them work.
fn seat_all<
    B: Group + Send + Sync,
    C: Client + Send + Drop,
    D: Device + Send + Drop,
    R: Threads + Wait + Sync,
    T: Drop,
    F: FnOnce(&D) -> T,
>(
    rt: &R,
    alloc: Global,
    shared: Shared<B>,
    parts: Parts<B, D>,
    clients: Vec<C>,
    see: F,
) -> Result<(Served<C, D>, T), (OpenError, D)>
    requires seats { AreNewSeats B.site.board B.site.seats parts.seats.items }
    requires see { F.IsAlwaysCallable see }
    requires flush { IsNewFlusher D.past_of D.marks B.site.board B.site.opened parts.flush }
    ensures leaves { IfOk result (λ r. (work : LeavesWork D.past_of D.marks C.works B.site.opened clients.items
        r.0.clients.items (device_of parts.flush.writer) r.0.device r.0.written)
        × (r.0.marks.items ≡ map (λ (seat : SeatValue). seat.sight.mark) work.seats)
        × HadEnded D.past_of (λ d. FnOnceReturnsAt F.FnOnce see d r.1) B.site.opened work.leaves.geometry work.seats
        work.leaves.popped work.floor (device_of parts.flush.writer) r.0.device) }
    ensures told { IfOk result (λ r. TellsBuild B.site.opened r.0.built) }
    ensures why { IfOk result (λ r. IfErr r.0.written (WhyUnwritten (D.failures (device_of parts.flush.writer))
        (D.failures r.0.device))) }
    ensures quiet { IfOk result (λ r. OnOk r.0.written (D.failures r.0.device
        ≡ D.failures (device_of parts.flush.writer))) }
    ensures later { IfOk result (λ r. D.failures (device_of parts.flush.writer) ≤ D.failures r.0.device) }
    ensures clients { IfOk result (λ r. vec_len r.0.clients ≡ vec_len clients) }
    ensures refused { IfErr result (λ r. IsUnserved r.0 × (r.1 ≡ device_of parts.flush.writer)) }
{
    let Parts {
        seats,
        flush,
        build,
        clean,
    } = parts;
    match seated(alloc, seats, clients) {
        Ok((chairs, room)) => match run_all(rt, &shared, chairs, flush, build, clean) {
            Ok(ended) => {
                ended.flush.stands();
                let seen = see(ended.flush.device());
                Ok((end(rt, alloc, shared, ended, room), seen))
            }
            Err(flush) => Err((OpenError::NoThread, let_go(shared, flush))),
        },
        Err(AllocError) => Err((OpenError::Refused(Error::NoMemory), let_go(shared, flush))),
    }
}
