//! Taking all that was shared back into one hand.
ghost use Rattle.std.specs.Prelude.{◌≡◌, ◌⊎◌, ◌≤◌, ℕ, [], All, IfErr, IfOk, IfSome, OnOk, false, is_some, length, map};
ghost use Rattle.std.specs.Prelude.{take, true};
ghost use Rattle.sector_device.specs.Disk.{CrashState, IsCrashState};
ghost use Rattle.sector_device.specs.DevicePast.{LeavesOnly, Rises};
ghost use Rattle.record_values.specs.declared.error.Error.TheVariants.{DeviceFailed, NoMemory};
ghost use Rattle.nsf_core.specs.Value.{value_of};
ghost use Rattle.store_writer.specs.Parts.{device_of, halves_of, has_failed, synced_of};
ghost use Rattle.threads_lifetime.specs.Closing.{GivesSome, IsClosed, KeepsPublished};
ghost use Rattle.locked_core.specs.Locked.{locked_of};
ghost use Rattle.threads_register.specs.Register.{AreAllCommits};
ghost use Rattle.threads_flusher.specs.Part.{FlushLeaves, last_handed, popped_by};
ghost use Rattle.threads_lifetime.specs.Gathered.{AreAllSeats, sessions_of};
ghost use Rattle.threads_lifetime.specs.Written.{WritesOn};

use crate::gather::{compare_all, gather_commits};
use crate::writing::write_out;
use board::Board;
use locked_core::Locked;
use nsf_core::Core;
use records::Error;
use sector_device::Device;
use shared::{Ack, Group, Keeping, Memory, Parts, Seat, Shared};
use std::alloc::Global;
use std::sync::Wait;
use threads_flusher::FlushPart;
use threads_queue::RecordQueue;
use threads_sessions::Commit;

/// What is left at the end: the device, to which every record was written; the core; the number of the last record; and
/// the commits of all seats, in the order of their numbers, where they were kept.
#[derive(Drop)]
pub struct Closed<D, A: Memory = Global> {
    pub device: D,
    pub core: Core<A>,
    pub horizon: u64,
    pub commits: Option<Vec<Commit<A>, A>>,
}

impl<D, A: Memory> Closed<D, A> {
    /// The device alone. The core and the commits are let go of.
    pub fn into_device(self) -> D
        ensures { result ≡ self.device }
    {
        let Closed {
            device,
            core,
            horizon: _,
            commits,
        } = self;
        drop(core);
        drop(commits);
        device
    }
}

/// The device as it is, where nothing more is to be written to it. What the threads shared is let go of, and with it
/// each record that isn't synced, though the device may have it. A crash of the device leaves what some of the records
/// that the writer had got make of what was opened, the first ones, with all that were synced (`images`). No horizon
/// that was published is above those (`kept`): what was acknowledged is not lost.
pub fn let_go<B: Group, D: Device, A: Memory>(shared: Shared<B, A>, flush: FlushPart<B, D, A>) -> D
    ensures device { result ≡ device_of flush.writer }
    ensures images { (image : CrashState) → IsCrashState (D.past_of result).disk image
        → FlushLeaves B.site.opened flush image }
    ensures kept { flush.published.horizon ≤ synced_of flush.writer }
{
    flush.stands();
    drop(shared);
    let (device, ends) = flush.into_parts();
    drop(ends);
    device
}

// No acknowledgement names a record that isn't synced.
fn settle_all<B: Group, D: Device, A: Memory>(
    board: &Board<A>,
    flush: &mut FlushPart<B, D, A>,
    acks: Vec<Ack<B>, A>,
)
    requires board { board.now ≡ B.site.board }
    ensures same { flush.new ≡ flush.old }
    ensures horizon { All (λ a. a.ticket.«record» ≤ flush.old.published.horizon) acks.items }
    ensures reached { All (λ a. a.ticket.«record» ≤ synced_of flush.old.writer) acks.items }
{
    for ack in acks {
        flush.settle(board, &mut ack.into_view());
    }
}

// Writes every record out, and gathers the commits of the seats by number, where they were kept.
fn close<B: Group, D: Device, R: Wait, A: Memory, K: Keeping>(
    rt: &R,
    alloc: A,
    queue: &RecordQueue<A>,
    board: &Board<A>,
    locked: &mut Locked<B, A>,
    seats: Vec<Seat<B, A, K>, A>,
    flush: &mut FlushPart<B, D, A>,
) -> Result<Option<Vec<Commit<A>, A>>, Error>
    requires queue { queue.now ≡ B.site.queue }
    requires board { board.now ≡ B.site.board }
    ensures writes { WritesOn D.past_of D.failures B.site.opened flush.old flush.new }
    ensures beginning { flush.new.handed ≡ take (length flush.new.handed) (locked_of locked.new).pushed }
    ensures popped { popped_by flush.old ≡ take (length (popped_by flush.old)) (locked_of locked.new).pushed }
    ensures all { OnOk result (flush.new.handed ≡ (locked_of locked.new).pushed) }
    ensures none_waits { OnOk result ((locked_of locked.new).core.outbox ≡ []) }
    ensures synced { OnOk result (synced_of flush.new.writer ≡ last_handed B.site.opened flush.new) }
    ensures given { IfOk result (λ r. is_some r ≡ K.kept) }
    ensures gathered { IfOk result (λ r. IfSome r (λ v. (count : ℕ)
        (all : AreAllCommits (sessions_of seats.items) count) → v.items ≡ map (λ c. c.1) all.commits)) }
    ensures book { (locked_of locked.new).book ≡ (locked_of locked.old).book }
    ensures sound { OnOk result (has_failed flush.new.writer ≡ false) }
    ensures err { IfErr result (λ e. (e ≡ NoMemory) ⊎ ((e ≡ DeviceFailed) × (has_failed flush.new.writer ≡ true))) }
{
    write_out(rt, alloc, queue, board, locked, flush)?;
    gather_commits(rt, alloc, seats)
}

// The refusal, or that the device failed where it did.
fn told<B: Group, D: Device, A: Memory>(flush: &FlushPart<B, D, A>, error: Error) -> Error
    ensures failed { has_failed flush.now.writer ≡ true → result ≡ DeviceFailed }
    ensures sound { has_failed flush.now.writer ≡ false → result ≡ error }
{
    if flush.has_failed() {
        Error::DeviceFailed
    } else {
        error
    }
}

/// Takes every seat and every part back, and writes every record out that was made: those that wait in the core and in
/// the queue too, in groups or, once the log is full, in an image. Then the device holds what the core does, and each
/// acknowledgement is of a record on it.
///
/// The commits of all seats are numbered from 1 on, each seat's in order. The core has them, and whatever a crash
/// leaves of the device gives what was opened with all of them set over it (`closed`). Where they were kept, just these
/// are given (`given`).
///
/// A crash at any moment of the call, and of the device that is given back, whatever the answer is, leaves what some of
/// the records that were made make of what was opened, the first ones, with all that were synced before; and each
/// acknowledgement is of one of those.
///
/// And so it was before, at every moment: a crash at any moment since the flusher published a horizon leaves all up to
/// that horizon (`published`, `still`). Each acknowledgement is of a record that a horizon had reached (`reached`).
///
/// `DeviceFailed` where the device failed, now or earlier, and else `NoMemory`. With `Ok` no call of it has failed
/// (`sound`, `quiet`).
pub fn finish<B: Group, D: Device, R: Wait, A: Memory, K: Keeping>(
    rt: &R,
    alloc: A,
    shared: Shared<B, A>,
    parts: Parts<B, D, A, K>,
    acks: Vec<Ack<B>, A>,
) -> Result<Closed<D, A>, (Error, D)>
    requires seats { AreAllSeats B.site.seats parts.seats.items }
    ensures closed { IfOk result (λ c. ∥ IsClosed D.past_of B.site.opened (halves_of parts.flush.writer).geometry
        parts.seats.items (popped_by parts.flush) (value_of c.core) c.device c.commits ∥₁) }
    ensures given { IfOk result (λ c. is_some c.commits ≡ K.kept) }
    ensures horizon { IfOk result (λ c. c.horizon ≡ (value_of c.core).last) }
    ensures acks { IfOk result (λ c. All (λ a. a.ticket.«record» ≤ c.horizon) acks.items) }
    ensures acked { All (λ a. a.ticket.«record» ≤ synced_of parts.flush.writer) acks.items }
    ensures images { IfOk result (λ c. LeavesOnly (D.past_of (device_of parts.flush.writer)) (D.past_of c.device)
        (λ image. ∥ GivesSome B.site.opened (halves_of parts.flush.writer).geometry parts.seats.items
        (popped_by parts.flush) (synced_of parts.flush.writer) image ∥₁)) }
    ensures left { IfErr result (λ r. LeavesOnly (D.past_of (device_of parts.flush.writer)) (D.past_of r.1) (λ image.
        ∥ GivesSome B.site.opened (halves_of parts.flush.writer).geometry parts.seats.items (popped_by parts.flush)
        (synced_of parts.flush.writer) image ∥₁)) }
    ensures published { IfOk result (λ c. KeepsPublished B.site.opened parts.flush parts.seats.items
        (D.past_of c.device)) }
    ensures still { IfErr result (λ r. KeepsPublished B.site.opened parts.flush parts.seats.items
        (D.past_of r.1)) }
    ensures reached { All (λ a. a.ticket.«record» ≤ parts.flush.published.horizon) acks.items }
    ensures sound { OnOk result (has_failed parts.flush.writer ≡ false) }
    ensures quiet { IfOk result (λ c. D.failures c.device ≡ D.failures (device_of parts.flush.writer)) }
    ensures err { IfErr result (λ r. ((r.0 ≡ NoMemory) × (has_failed parts.flush.writer ≡ false)
        × (D.failures r.1 ≡ D.failures (device_of parts.flush.writer)))
        ⊎ ((r.0 ≡ DeviceFailed) × (has_failed parts.flush.writer ≡ false
        → Rises (D.failures (device_of parts.flush.writer)) (D.failures r.1)))) }
    ensures later { IfErr result (λ r. D.failures (device_of parts.flush.writer) ≤ D.failures r.1) }
{
    let Parts {
        mut seats,
        mut flush,
        build,
        clean,
    } = parts;
    drop(build);
    drop(clean);
    let (mut locked, queue, registry, board) = shared.into_parts();
    flush.stands();
    settle_all(&board, &mut flush, acks);
    compare_all(&registry, &mut locked, &mut seats);
    match close(rt, alloc, &queue, &board, &mut locked, seats, &mut flush) {
        Ok(commits) => {
            locked.each_hold();
            let horizon = flush.synced();
            let (core, pusher, book) = locked.into_parts();
            let (device, ends) = flush.into_parts();
            drop((pusher, book, ends, queue, registry, board));
            Ok(Closed {
                device,
                core,
                horizon,
                commits,
            })
        }
        Err(error) => {
            let why = told(&flush, error);
            let (rest, ends) = flush.into_parts();
            drop((ends, locked, queue, registry, board));
            Err((why, rest))
        }
    }
}
