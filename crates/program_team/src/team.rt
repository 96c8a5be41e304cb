//! The threads of the program.
ghost use Rattle.std.specs.Prelude.{◌≡◌, ◌≤◌, ◌<◌, ◌+◌, ◌++◌, ◌∷◌, [], ℕ, All, IfErr, IfOk, OnOk, Some, flat_map, map};
ghost use Rattle.std.specs.Prelude.{slice_get, slice_index_or, vec_len};
ghost use Rattle.store_writer.specs.Parts.{halves_of, synced_of};
ghost use Rattle.threads_flusher.specs.Part.{popped_by};
ghost use Rattle.threads_lifetime.specs.Closing.{GivesSome};
ghost use Rattle.threads_lifetime.specs.Gathered.{AreAllSeats};
ghost use Rattle.sector_device.specs.Disk.{CrashState, IsCrashState};
ghost use Rattle.shared.specs.Seats.{AreNewSeats};
ghost use Rattle.core_model.specs.Histories.{Opened};
ghost use Rattle.threads_lifetime.specs.Openings.{IsNotShared, Opens};
ghost use Rattle.threads_lifetime.specs.declared.refusal.OpenError.{OpenError};
ghost use Rattle.program_team.specs.Kept.{KeepsAll, LeavesOpened};
ghost use Rattle.program_team.specs.Private.{AllTell, GoesOn};
ghost use Rattle.program_team.specs.Refusals.{told_as};

use crate::beginning::{Beginning, prepare};
use crate::listener::Listener;
use crate::progress::{Progress, watch};
use crate::refusal::{NotOpened, not_opened};
use crate::waiting::Waiting;
use crate::writer::{Acknowledged, Writer, write};
use records::Error;
use sector_device::Device;
use shared::{Ack, Group, GroupView, Kept, LoopParts, Seat, Shared};
use std::alloc::{AllocError, Global};
use std::io::Write;
use std::marker::Brand;
use std::mem::forget;
use std::rt::Clock;
use std::sync::Wait;
use std::thread::{Threads, for_each_mut, join};
use threads_flusher::FlushPart;
use threads_leader::{BuilderEnd, Course, Desk, Ended, NoGate, NotRun, run_led};
use threads_lifetime::{OpenStore, Parts, finish, open_store};

// No more writers than this run side by side.
const THREADS_MAX: usize = 64;

/// The threads: a writer for each seat but the last, and the three loops. Each writer makes so many transactions. The
/// listener hears of each commit that is safe. The builder's progress is shown where there is something to show it on.
#[derive(Drop)]
pub struct Team<'a, R, L, E> {
    pub rt: &'a R,
    pub alloc: Global,
    pub beginning: Beginning,
    pub listener: &'a L,
    pub changes: u16,
    pub progress: Option<Progress<E>>,
}

/// What was refused: to a writer, which is the first of those that were refused something; to the flusher, to the
/// builder; and before the threads began, also where one can't be made (`NoThread`), or at the end.
#[derive(Clone, Copy, PartialEq)]
pub struct Refusals {
    pub writer: Option<Error>,
    pub flusher: Option<Error>,
    pub builder: Option<Error>,
    pub end: Option<NotOpened>,
}

impl Refusals {
    fn none() -> Refusals {
        Refusals {
            writer: None,
            flusher: None,
            builder: None,
            end: None,
        }
    }

    /// The first of them that there is.
    pub fn any(&self) -> Option<NotOpened> {
        match self.writer.or(self.flusher).or(self.builder) {
            Some(error) => Some(NotOpened::Refused(error)),
            None => self.end,
        }
    }
}

/// What the threads leave.
#[derive(Drop)]
pub struct Worked<D> {
    pub device: D,
    /// The rows that writers were told to be safe; none where there was no memory for what they left.
    pub acknowledged: Vec<Acknowledged>,
    pub refusals: Refusals,
}

// What the writers leave, in one hand.
#[derive(Drop)]
struct Gathered<B: Group> {
    seats: Vec<Seat<B, Global, Kept>>,
    acks: Vec<Ack<B>>,
    acknowledged: Vec<Acknowledged>,
}

// Puts a writer for each of the seats into a list that is empty.
fn add_writers<B: Group>(
    alloc: Global,
    writers: &mut Vec<Writer<B>>,
    seats: Vec<Seat<B, Global, Kept>>,
) -> Result<(), AllocError>
    requires { writers.old.items ≡ [] }
    ensures seats { OnOk result (map (λ w. w.seat) writers.new.items ≡ seats.items) }
    ensures none { OnOk result ((k : ℕ) (w : _) → slice_get writers.new.items k ≡ Some w
        → w.acknowledged.items ≡ []) }
{
    let mut number: u16 = 0;
    for seat in seats {
        writers.push(Writer {
            seat,
            number,
            acks: Vec::new(alloc),
            acknowledged: Vec::new(alloc),
            refused: None,
        })?;
        number = number.saturating_add(1);
    }
    Ok(())
}

// A writer for each of the seats.
fn writers_of<B: Group>(
    alloc: Global,
    seats: Vec<Seat<B, Global, Kept>>,
) -> Result<Vec<Writer<B>>, AllocError>
    ensures seats { IfOk result (λ writers. map (λ w. w.seat) writers.items ≡ seats.items) }
    ensures none { IfOk result (λ writers. (k : ℕ) (w : _) → slice_get writers.items k ≡ Some w
        → w.acknowledged.items ≡ []) }
{
    let mut writers = Vec::new(alloc);
    match add_writers(alloc, &mut writers, seats) {
        Ok(()) => Ok(writers),
        Err(error) => {
            drop(writers);
            Err(error)
        }
    }
}

// Runs all writers, each in a thread.
fn write_all<
    B: Group + Send + Sync,
    R: Threads + Wait + Sync,
    W: Waiting<B> + Sync,
    L: Listener + Sync,
>(
    rt: &R,
    shared: &Shared<B>,
    desk: &W,
    mut writers: Vec<Writer<B>>,
    changes: u16,
    listener: &L,
) -> Vec<Writer<B>>
    ensures len { vec_len result ≡ vec_len writers }
    ensures wrote { (k : ℕ) (w : _) → k < vec_len writers
        → GoesOn (slice_index_or writers.items k w).seat (slice_index_or writers.items k w).acks.items
        (slice_index_or writers.items k w).acknowledged.items (slice_index_or result.items k w).seat
        (slice_index_or result.items k w).acks.items (slice_index_or result.items k w).acknowledged.items }
{
    for_each_mut(
        rt,
        &mut writers,
        THREADS_MAX,
        &|_: usize, writer: &mut Writer<B>| write(rt, shared, desk, writer, changes, listener),
    );
    writers
}

// Shows the builder's progress, as long as it can be written, and the builder has not ended.
fn show_progress<B: Group, R: Wait + Clock, E: Write + Drop>(
    rt: &R,
    shared: &Shared<B>,
    mut view: GroupView<B>,
    builder: &BuilderEnd<B>,
    mut progress: Progress<E>,
) {
    let shown = watch(rt, shared, &mut view, builder, &mut progress);
    drop(shown);
    drop(view);
    drop(progress);
}

// Runs all writers, and shows the builder's progress beside them, if it is to be shown.
fn write_and_watch<
    B: Group + Send + Sync,
    R: Threads + Wait + Clock + Sync,
    W: Waiting<B> + Sync,
    L: Listener + Sync,
    E: Write + Send + Drop,
>(
    team: Team<'_, R, L, E>,
    shared: &Shared<B>,
    desk: &W,
    writers: Vec<Writer<B>>,
    view: GroupView<B>,
    builder: &BuilderEnd<B>,
) -> Vec<Writer<B>>
    ensures len { vec_len result ≡ vec_len writers }
    ensures wrote { (k : ℕ) (w : _) → k < vec_len writers
        → GoesOn (slice_index_or writers.items k w).seat (slice_index_or writers.items k w).acks.items
        (slice_index_or writers.items k w).acknowledged.items (slice_index_or result.items k w).seat
        (slice_index_or result.items k w).acks.items (slice_index_or result.items k w).acknowledged.items }
{
    let Team {
        rt,
        listener,
        changes,
        progress,
        ..
    } = team;
    match progress {
        None => write_all(rt, shared, desk, writers, changes, listener),
        Some(progress) => {
            let ((), written) = join(
                rt,
                move || show_progress(rt, shared, view, builder, progress),
                move || write_all(rt, shared, desk, writers, changes, listener),
            );
            written
        }
    }
}

// The first refusal that a writer had.
fn first_refused<B: Group>(writers: &[Writer<B>]) -> Option<Error> {
    for writer in writers {
        if writer.refused.is_some() {
            return writer.refused;
        }
    }
    None
}

// Adds what a writer leaves.
fn add_writer<B: Group>(gathered: &mut Gathered<B>, writer: Writer<B>) -> Result<(), AllocError>
    ensures seats { OnOk result (gathered.new.seats.items ≡ gathered.old.seats.items ++ writer.seat ∷ []) }
    ensures acks { OnOk result (gathered.new.acks.items ≡ gathered.old.acks.items ++ writer.acks.items) }
    ensures acknowledged { OnOk result (gathered.new.acknowledged.items
        ≡ gathered.old.acknowledged.items ++ writer.acknowledged.items) }
{
    let Writer {
        seat,
        mut acks,
        mut acknowledged,
        ..
    } = writer;
    let seat_added = gathered.seats.push(seat);
    let acks_added = gathered.acks.append(&mut acks);
    let rows_added = gathered.acknowledged.append(&mut acknowledged);
    drop(acks);
    drop(acknowledged);
    seat_added?;
    acks_added?;
    rows_added
}

// Adds what the writers leave, in order.
fn add_all<B: Group>(gathered: &mut Gathered<B>, writers: Vec<Writer<B>>) -> Result<(), AllocError>
    ensures seats { OnOk result (gathered.new.seats.items
        ≡ gathered.old.seats.items ++ map (λ w. w.seat) writers.items) }
    ensures acks { OnOk result (gathered.new.acks.items
        ≡ gathered.old.acks.items ++ flat_map (λ w. w.acks.items) writers.items) }
    ensures acknowledged { OnOk result (gathered.new.acknowledged.items
        ≡ gathered.old.acknowledged.items ++ flat_map (λ w. w.acknowledged.items) writers.items) }
{
    for writer in writers {
        add_writer(gathered, writer)?;
    }
    Ok(())
}

// The seats of all writers in order, with the last one behind them, and what the writers were told.
fn gather<B: Group>(
    alloc: Global,
    writers: Vec<Writer<B>>,
    last: Seat<B, Global, Kept>,
) -> Result<Gathered<B>, AllocError>
    ensures seats { IfOk result (λ g. g.seats.items ≡ map (λ w. w.seat) writers.items ++ last ∷ []) }
    ensures acks { IfOk result (λ g. g.acks.items ≡ flat_map (λ w. w.acks.items) writers.items) }
    ensures acknowledged { IfOk result (λ g. g.acknowledged.items
        ≡ flat_map (λ w. w.acknowledged.items) writers.items) }
{
    let mut gathered = Gathered {
        seats: Vec::new(alloc),
        acks: Vec::new(alloc),
        acknowledged: Vec::new(alloc),
    };
    let added = add_all(&mut gathered, writers);
    let ended = gathered.seats.push(last);
    match (added, ended) {
        (Ok(()), Ok(())) => Ok(gathered),
        _ => {
            drop(gathered);
            Err(AllocError)
        }
    }
}

// The device, where nothing more is written to it. What was popped of the queue is compared with what was pushed to it:
// then it is known whose records a crash leaves.
fn give_back<B: Group, D: Device, R: Wait>(rt: &R, shared: Shared<B>, flush: FlushPart<B, D>) -> D
    ensures { (image : CrashState) → IsCrashState (D.past_of result).disk image
        → ∥ LeavesOpened B.site.opened image ∥₁ }
{
    let (mut locked, queue, registry, board) = shared.into_parts();
    let (device, mut ends) = flush.into_parts();
    locked.compare(rt, &queue, &mut ends);
    drop((ends, locked, queue, registry, board));
    device
}

// What is left where the threads could not begin, or where there was no memory for what they left, with what was
// refused before.
fn given_up<B: Group, D: Device, R: Wait>(
    rt: &R,
    alloc: Global,
    shared: Shared<B>,
    loops: LoopParts<B, D>,
    before: Refusals,
    end: NotOpened,
) -> Worked<D>
    ensures { KeepsAll D.past_of B.site.opened result.device result.acknowledged.items }
{
    let LoopParts {
        flush,
        build,
        clean,
    } = loops;
    drop(build);
    drop(clean);
    let device = give_back(rt, shared, flush);
    let mut refusals = before;
    refusals.end = Some(end);
    Worked {
        device,
        acknowledged: Vec::new(alloc),
        refusals,
    }
}

// The device, once all that was made is written out, or why it isn't.
fn close<B: Group, D: Device, R: Wait>(
    rt: &R,
    alloc: Global,
    shared: Shared<B>,
    parts: Parts<B, D, Global, Kept>,
    acks: Vec<Ack<B>>,
) -> (D, Option<NotOpened>)
    requires seats { AreAllSeats B.site.seats parts.seats.items }
    ensures some { (image : CrashState) → IsCrashState (D.past_of result.0).disk image
        → ∥ GivesSome B.site.opened (halves_of parts.flush.writer).geometry parts.seats.items (popped_by parts.flush)
        (synced_of parts.flush.writer) image ∥₁ }
    ensures acked { All (λ a. a.ticket.«record» ≤ synced_of parts.flush.writer) acks.items }
{
    match finish(rt, alloc, shared, parts, acks) {
        Ok(closed) => (closed.into_device(), None),
        Err((error, device)) => (device, Some(NotOpened::Refused(error))),
    }
}

// Takes back what the writers leave, where these refusals came before.
fn take_back<B: Group, D: Device + Drop, R: Wait>(
    rt: &R,
    alloc: Global,
    shared: Shared<B>,
    writers: Vec<Writer<B>>,
    last: Seat<B, Global, Kept>,
    loops: LoopParts<B, D>,
    before: Refusals,
) -> Worked<D>
    requires seats { AreAllSeats B.site.seats (map (λ w. w.seat) writers.items ++ last ∷ []) }
    requires told { AllTell (λ w. w.seat) (λ w. w.acks.items) (λ w. w.acknowledged.items) writers.items }
    ensures { KeepsAll D.past_of B.site.opened result.device result.acknowledged.items }
{
    let Ok(gathered) = gather(alloc, writers, last) else {
        return given_up(
            rt,
            alloc,
            shared,
            loops,
            before,
            NotOpened::Refused(Error::NoMemory),
        );
    };
    let Gathered {
        seats,
        acks,
        acknowledged,
    } = gathered;
    let parts = loops.with_seats(seats);
    let (device, end) = close(rt, alloc, shared, parts, acks);
    let mut refusals = before;
    refusals.end = end;
    Worked {
        device,
        acknowledged,
        refusals,
    }
}

// What is done once writers and loops have ended.
fn end<B: Group, D: Device + Drop, R: Wait>(
    rt: &R,
    alloc: Global,
    shared: Shared<B>,
    ended: Ended<B, D, Vec<Writer<B>>>,
    last: Seat<B, Global, Kept>,
) -> Worked<D>
    requires seats { AreAllSeats B.site.seats (map (λ w. w.seat) ended.clients.items ++ last ∷ []) }
    requires told { AllTell (λ w. w.seat) (λ w. w.acks.items) (λ w. w.acknowledged.items) ended.clients.items }
    ensures { KeepsAll D.past_of B.site.opened result.device result.acknowledged.items }
{
    let Ended {
        clients,
        flush,
        build,
        clean,
        flushed,
        built,
    } = ended;
    let refusals = Refusals {
        writer: first_refused(&clients),
        flusher: flushed.err(),
        builder: match built {
            Err(Error::Stopped) | Ok(_) => None,
            Err(error) => Some(error),
        },
        end: None,
    };
    let loops = LoopParts {
        flush,
        build,
        clean,
    };
    take_back(rt, alloc, shared, clients, last, loops, refusals)
}

// The parts of the loops, as they come back where a thread was wanting.
fn parts_back<B: Group, D: Device, F: Drop>(not_run: NotRun<B, D, F>) -> LoopParts<B, D> {
    let NotRun {
        flush,
        build,
        clean,
        clients,
        want,
    } = not_run;
    drop((clients, want));
    LoopParts {
        flush,
        build,
        clean,
    }
}

// Runs the writers and the three loops, each in a thread. The flusher's part lies on a desk, where a writer writes what
// it waits for. Where a thread is wanting, the parts of the loops come back. Nothing lies on the desk in the end, so
// nothing is lost with it.
fn run_all<
    K: Course<D, Global> + Send + Sync,
    B: Group + Send + Sync,
    D: Device + Send + Drop,
    R: Threads + Wait + Clock + Sync,
    L: Listener + Sync,
    E: Write + Send + Drop,
>(
    team: Team<'_, R, L, E>,
    shared: &Shared<B>,
    builder: &BuilderEnd<B>,
    writers: Vec<Writer<B>>,
    last: &mut Seat<B, Global, Kept>,
    loops: LoopParts<B, D>,
) -> Result<Ended<B, D, Vec<Writer<B>>>, LoopParts<B, D>>
    requires begun { K.begun ≡ Some loops.flush }
    ensures len { IfOk result (λ e. vec_len e.clients ≡ vec_len writers) }
    ensures wrote { IfOk result (λ e. (k : ℕ) (w : _) → k < vec_len writers
        → GoesOn (slice_index_or writers.items k w).seat (slice_index_or writers.items k w).acks.items
        (slice_index_or writers.items k w).acknowledged.items (slice_index_or e.clients.items k w).seat
        (slice_index_or e.clients.items k w).acks.items (slice_index_or e.clients.items k w).acknowledged.items) }
    ensures last { last.new.number ≡ last.old.number }
{
    let rt = team.rt;
    let LoopParts {
        flush,
        build,
        clean,
    } = loops;
    let view = shared.another_view(last);
    let desk: Desk<K, B, D> = Desk::new();
    let lent = &desk;
    let write = move || write_and_watch(team, shared, lent, writers, view, builder);
    match run_led(
        rt, shared, flush, build, clean, builder, lent, &NoGate, write,
    ) {
        Ok((ended, reason)) => {
            drop(reason);
            forget(desk);
            Ok(ended)
        }
        Err(not_run) => {
            let loops = parts_back(not_run);
            forget(desk);
            Err(loops)
        }
    }
}

// The writers, and the seat behind theirs.
#[derive(Drop)]
struct Staff<B: Group> {
    writers: Vec<Writer<B>>,
    last: Seat<B, Global, Kept>,
}

// Prepares the store by the last of the seats, and gives the others to writers.
fn staff_of<B: Group, R: Wait>(
    rt: &R,
    alloc: Global,
    shared: &Shared<B>,
    mut seats: Vec<Seat<B, Global, Kept>>,
    beginning: Beginning,
) -> Result<Staff<B>, Error>
    requires { AreNewSeats B.site.board B.site.seats seats.items }
    ensures seats { IfOk result (λ s.
        AreAllSeats B.site.seats (map (λ w. w.seat) s.writers.items ++ s.last ∷ [])) }
    ensures none { IfOk result (λ s. (k : ℕ) (w : _) → slice_get s.writers.items k ≡ Some w
        → w.acknowledged.items ≡ []) }
{
    let Some(mut last) = seats.pop() else {
        drop(seats);
        return Err(Error::NoMemory);
    };
    if let Err(error) = prepare(rt, shared, &mut last, beginning) {
        drop(seats);
        drop(last);
        return Err(error);
    }
    match writers_of(alloc, seats) {
        Ok(writers) => Ok(Staff { writers, last }),
        Err(_) => {
            drop(last);
            Err(Error::NoMemory)
        }
    }
}

// Lets the threads work, and takes all back that they leave.
fn work_staffed<
    B: Group + Send + Sync,
    D: Device + Send + Drop,
    R: Threads + Wait + Clock + Sync,
    L: Listener + Sync,
    E: Write + Send + Drop,
>(team: Team<'_, R, L, E>, shared: Shared<B>, staff: Staff<B>, loops: LoopParts<B, D>) -> Worked<D>
    requires seats { AreAllSeats B.site.seats (map (λ w. w.seat) staff.writers.items ++ staff.last ∷ []) }
    requires none { (k : ℕ) (w : _) → slice_get staff.writers.items k ≡ Some w → w.acknowledged.items ≡ [] }
    ensures { KeepsAll D.past_of B.site.opened result.device result.acknowledged.items }
{
    let rt = team.rt;
    let alloc = team.alloc;
    let Staff { writers, mut last } = staff;
    let told = BuilderEnd::new();
    let ran = run_all::<Brand, B, D, R, L, E>(team, &shared, &told, writers, &mut last, loops);
    drop(told);
    match ran {
        Ok(ended) => end(rt, alloc, shared, ended, last),
        Err(loops) => {
            drop(last);
            given_up(
                rt,
                alloc,
                shared,
                loops,
                Refusals::none(),
                NotOpened::NoThread,
            )
        }
    }
}

// Prepares the store, lets the threads work, and takes all back that they leave.
fn work_together<
    B: Group + Send + Sync,
    D: Device + Send + Drop,
    R: Threads + Wait + Clock + Sync,
    L: Listener + Sync,
    E: Write + Send + Drop,
>(team: Team<'_, R, L, E>, shared: Shared<B>, parts: Parts<B, D, Global, Kept>) -> Worked<D>
    requires seats { AreNewSeats B.site.board B.site.seats parts.seats.items }
    ensures { KeepsAll D.past_of B.site.opened result.device result.acknowledged.items }
{
    let rt = team.rt;
    let alloc = team.alloc;
    let (seats, loops) = parts.split();
    match staff_of(rt, alloc, &shared, seats, team.beginning) {
        Ok(staff) => work_staffed(team, shared, staff, loops),
        Err(error) => {
            drop(team);
            given_up(
                rt,
                alloc,
                shared,
                loops,
                Refusals::none(),
                NotOpened::Refused(error),
            )
        }
    }
}

// Gives the store its names, and lets the threads work.
fn begin<
    B: Group + Send + Sync,
    D: Device + Send + Drop,
    R: Threads + Wait + Clock + Sync,
    L: Listener + Sync,
    E: Write + Send + Drop,
>(store: OpenStore<D>, team: Team<'_, R, L, E>) -> Result<Worked<D>, (NotOpened, D)>
    requires names { store.site ≡ B.site }
    ensures kept { IfOk result (λ worked. KeepsAll D.past_of B.site.opened worked.device worked.acknowledged.items) }
    ensures refused { IfErr result (λ r. (r.0 ≡ NotOpened.Refused Error.NoMemory) × (r.1 ≡ store.device)) }
{
    match store.start::<B, Kept>() {
        Ok((shared, parts)) => Ok(work_together(team, shared, parts)),
        Err((error, device)) => {
            drop(team);
            Err((NotOpened::Refused(error), device))
        }
    }
}

/// Opens the store on the device, with a seat for each writer and one more, lets the threads work, and takes back what
/// they leave.
///
/// Whatever was refused, a crash of the device leaves the opened table with the commits of some seats set over it. The
/// commit of each row that is told as acknowledged is among them (`kept`). Why nothing was opened is told as
/// `open_store` tells it, of the device that is given back (`refused`).
pub fn work_on<
    D: Device + Send + Drop,
    R: Threads + Wait + Clock + Sync,
    L: Listener + Sync,
    E: Write + Send + Drop,
>(device: D, writers: u8, team: Team<'_, R, L, E>) -> Result<Worked<D>, (NotOpened, D)>
    ensures kept { IfOk result (λ worked. (o : Opened) × Opens (D.past_of device).disk.content o
        × KeepsAll D.past_of o worked.device worked.acknowledged.items) }
    ensures refused { IfErr result (λ r. (e : OpenError) × (r.0 ≡ told_as e)
        × IsNotShared D.past_of D.failures device (writers + 1) r.1 e) }
{
    let seats = usize::from(writers) + 1;
    match open_store(team.alloc, device, seats) {
        Ok(store) => begin::<Brand, D, R, L, E>(store, team),
        Err((error, device)) => {
            drop(team);
            Err((not_opened(error), device))
        }
    }
}
