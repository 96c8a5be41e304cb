//! The loop that writes the records and takes images.
ghost use Rattle.std.specs.Prelude.{◌≡◌, ◌≢◌, ◌↔◌, ◌<◌, ◌≤◌, ◌-◌, ◌*◌, ◌/◌, true, false, None, Some, IsSome};
ghost use Rattle.std.specs.Prelude.{IfErr, IfOk, IsFalse, IsTrue, OnOk};
ghost use Rattle.record_values.specs.declared.error.Error.TheVariants.{DeviceFailed};
ghost use Rattle.store_image_model.specs.Places.{place_behind};
ghost use Rattle.store_writer.specs.Copying.{next_place, steps_of_image};
ghost use Rattle.store_writer.specs.Parts.{copying_of, device_of, halves_of, has_failed, synced_of};
ghost use Rattle.store_writer.specs.Writer.{IsChunk, IsLogFull, MayPass, MustStartAgain};
ghost use Rattle.threads_flusher.specs.Going.{GoesOn, TakesIn};
ghost use Rattle.store_writer.specs.declared.copying.Copying.TheVariants.{GivenUp, Idle, Steps};
ghost use Rattle.threads_flusher.specs.Part.{last_handed, run_of};
ghost use Rattle.threads_loops.specs.Copying.{HasImage, IsCopied, IsDue, IsWanted, StandsBy, WritesNone};
ghost use Rattle.threads_loops.specs.Through.{HasPassedPages, IsNextPiece, PassesThrough, RunsThrough, taken_up};

use crate::gate::{Gate, Point};
use crate::rest::{Found, has_ended, rest_flusher};
use records::{Error, Geometry};
use sector_device::Device;
use shared::{Group, Memory, Shared};
use std::sync::atomic::AtomicU64;
use std::sync::{MutexGuard, Wait};
use store_image_model::{CHUNK_ENTRIES, Chunk, CopyPlace};
use store_writer::{Copying, FlipReply, FlushReply};
use threads_flusher::{FlushPart, Looked};

// After so many rounds the lock is taken though no record was popped: one that the queue refused may wait in the core,
// and nobody else may call again.
const LOOK_EVERY: u32 = 32;

/// Pops the records that wait, hands them in under the lock, writes them in groups, and publishes behind each group how
/// far they are synced. Now and then it looks under the lock for records that the queue refused. As half the slots of
/// the log are open it begins an image (`wants_image`), copies each chunk of it under the lock anew, some of them
/// behind each group, and makes it current. It passes over pages that the image's half has, many at once. Where nothing
/// waits it sleeps until records are made, or for a short while. After want of memory it tries again.
///
/// It ends where the stop flag is read, or with `DeviceFailed` where the device failed, now or earlier, stop flag or
/// not. What is held or waits then is not written. A crash at any moment leaves all records that were synced as the
/// loop began (`goes_on`), and those that were synced before the call of the writer that it falls into (`through`).
pub fn flush_loop<B: Group, D: Device, R: Wait, G: Gate, A: Memory>(
    rt: &R,
    shared: &Shared<B, A>,
    part: &mut FlushPart<B, D, A>,
    gate: &G,
) -> Result<(), Error>
    ensures goes_on { GoesOn D.past_of D.failures B.site.opened part.old part.new }
    ensures through { RunsThrough D.past_of D.marks D.failures B.site.opened part.old part.new }
    ensures stopped { OnOk result (IsTrue part.new.published.stopped × (has_failed part.new.writer ≡ false)) }
    ensures failed { IfErr result (λ e. (e ≡ DeviceFailed) × (has_failed part.new.writer ≡ true)) }
{
    flush_until(rt, shared, part, gate, false, &AtomicU64::new(0))
}

/// The same, until the run ends, if it is in one.
pub(crate) fn flush_until<B: Group, D: Device, R: Wait, G: Gate, A: Memory>(
    rt: &R,
    shared: &Shared<B, A>,
    part: &mut FlushPart<B, D, A>,
    gate: &G,
    in_run: bool,
    ended: &AtomicU64,
) -> Result<(), Error>
    ensures goes_on { GoesOn D.past_of D.failures B.site.opened part.old part.new }
    ensures through { RunsThrough D.past_of D.marks D.failures B.site.opened part.old part.new }
    ensures stopped { OnOk result ((in_run ≡ false → IsTrue part.new.published.stopped)
        × (has_failed part.new.writer ≡ false)) }
    ensures failed { IfErr result (λ e. (e ≡ DeviceFailed) × (has_failed part.new.writer ≡ true)) }
{
    part.stands();
    let bell = &shared.board().waits().pushed;
    take_up(part);
    let mut rounds = RoundsMade::new();
    let mut quiet = 0;
    for _ in rt.forever() {
        if part.has_failed() {
            return Err(Error::DeviceFailed);
        }
        let rings = bell.rings();
        if has_ended(in_run, ended) {
            return Ok(());
        }
        if part.stopped(shared.board()) {
            return Ok(());
        }
        let seen = flush_round(rt, shared, part, &mut rounds, rings, gate);
        quiet = rest_flusher(rt, shared.board().waits(), rings, seen, quiet);
    }
    unreachable!()
}

/// Goes on with an image that an earlier loop left under way, where half the slots of the log are open. (They are since
/// it was begun; an image that is under way though they are not is forgotten.)
pub fn take_up<B: Group, D: Device, A: Memory>(part: &mut FlushPart<B, D, A>)
    ensures up { part.new ≡ taken_up part.old }
    ensures copying { StandsBy part.new }
{
    if part.wants_image() {
        return;
    }
    part.forget_image();
}

/// How many rounds were made, and how often the bell had rung as records were taken last. A loop has one, and no
/// contract rests on it.
#[derive(Clone, Copy)]
pub struct RoundsMade {
    made: u32,
    taken: u64,
}

impl RoundsMade {
    /// None was made.
    pub fn new() -> RoundsMade {
        RoundsMade { made: 0, taken: 0 }
    }

    // One more is made, for which the bell has rung so often: whether it looks under the lock.
    fn next(&mut self) -> bool {
        self.made = self.made.wrapping_add(1);
        self.made % LOOK_EVERY == 0
    }
}

/// One round of `flush_loop`, for which the bell `pushed` of the board has rung so often: the records that wait are
/// taken, a group of them is written and published, and some steps of an image are made where they are due. What memory
/// or the device refuses ends the round early; of the device the part tells it (`has_failed`). Answers what there is to
/// do next.
///
/// An image is copied only where half the log's slots are open, before the round and behind it (`copying`). (No clause
/// says that a round takes or writes anything, or what it answers.)
pub fn flush_round<B: Group, D: Device, R: Wait, G: Gate, A: Memory>(
    rt: &R,
    shared: &Shared<B, A>,
    part: &mut FlushPart<B, D, A>,
    rounds: &mut RoundsMade,
    rings: u64,
    gate: &G,
) -> Found
    requires copying { StandsBy part.old }
    ensures through { PassesThrough D.past_of D.marks D.failures B.site.opened part.old part.new }
    ensures copying { StandsBy part.new }
{
    let looks = rounds.next();
    let synced = part.synced();
    let handed = part.last_handed();
    let takes = looks || rings != rounds.taken || is_idle(part.copying());
    if synced == handed && takes {
        rounds.taken = rings;
    }
    let went = round(rt, shared, part, takes, looks, gate).is_ok();
    found(part, synced, handed, went)
}

// What was found in a round, before which so much was synced, and so much had been handed in, and which went well or
// was cut short for want of memory. Where memory is wanting for the records that wait, there is nothing to do for a
// while. A round that began with records that wait takes none from the queue, so there may be more at once.
fn found<B: Group, D: Device, A: Memory>(
    part: &FlushPart<B, D, A>,
    synced: u64,
    handed: u64,
    went: bool,
) -> Found {
    let waits = part.synced() != part.last_handed();
    let has_written = part.synced() != synced;
    let took_none = synced != handed;
    match part.copying() {
        _ if went && (waits || (has_written && took_none)) => Found::More,
        Copying::Idle if has_written => Found::Records,
        Copying::Idle => Found::Nothing,
        Copying::Steps(_) | Copying::GivenUp if has_written => Found::More,
        Copying::Steps(_) | Copying::GivenUp => Found::Image,
    }
}

// One round: the records that wait are taken, where they are to be, a group of them is written, and some steps of an
// image are made where they are due. Beside an image records are taken where the bell has rung, so that a few of the
// builder's take no group of their own. Where half the slots are open as it begins and no image is copied, it begins
// one (`image`).
fn round<B: Group, D: Device, R: Wait, G: Gate, A: Memory>(
    rt: &R,
    shared: &Shared<B, A>,
    part: &mut FlushPart<B, D, A>,
    takes: bool,
    looks: bool,
    gate: &G,
) -> Result<(), Error>
    requires copying { StandsBy part.old }
    ensures through { PassesThrough D.past_of D.marks D.failures B.site.opened part.old part.new }
    ensures copying { StandsBy part.new }
    ensures image { OnOk result (IsWanted part.old → HasImage part.old part.new) }
{
    let _looked = take_records(rt, shared, part, takes, looks);
    write(shared, part, gate)?;
    copy_some(rt, shared, part, gate)
}

// How many steps of an image are made a round: so many that an image, also of a full index, is whole before a quarter
// of the log's slots are written behind its beginning; and no more.
fn steps_a_round(geometry: Geometry) -> u32
    ensures in_time { steps_of_image geometry < geometry.slots / 4 * result }
    ensures no_more { geometry.slots / 4 * (result - 1) ≤ steps_of_image geometry }
{
    let steps = geometry.pages + geometry.entries / CHUNK_ENTRIES as u32 + 3;
    steps / (geometry.slots / 4) + 1
}

// Whether no image is copied.
fn is_idle(copying: Copying) -> bool
    ensures { IsTrue result ↔ (copying ≡ Idle) }
{
    match copying {
        Copying::Idle => true,
        Copying::Steps(_) | Copying::GivenUp => false,
    }
}

// Makes some steps of an image, where as many are due.
fn copy_some<B: Group, D: Device, R: Wait, G: Gate, A: Memory>(
    rt: &R,
    shared: &Shared<B, A>,
    part: &mut FlushPart<B, D, A>,
    gate: &G,
) -> Result<(), Error>
    requires copying { StandsBy part.old }
    ensures through { PassesThrough D.past_of D.marks D.failures B.site.opened part.old part.new }
    ensures copying { StandsBy part.new }
    ensures image { OnOk result (IsWanted part.old → HasImage part.old part.new) }
{
    let steps = steps_a_round(part.geometry());
    copy(rt, shared, part, gate)?;
    for _ in 1..steps {
        if is_idle(part.copying()) {
            return Ok(());
        }
        copy(rt, shared, part, gate)?;
    }
    Ok(())
}

// Pops the records that wait, and hands them in. Takes none while records wait for the writer, which are to be written
// first; and takes the lock only where some were popped, or where it is to look. What memory is wanting for waits for a
// later round.
fn take_records<B: Group, D: Device, R: Wait, A: Memory>(
    rt: &R,
    shared: &Shared<B, A>,
    part: &mut FlushPart<B, D, A>,
    takes: bool,
    looks: bool,
) -> Result<Option<Looked>, Error>
    ensures takes { TakesIn part.old part.new }
    ensures looks { synced_of part.old.writer ≡ last_handed B.site.opened part.old → IsTrue takes → IsTrue looks
        → IfOk result (λ looked. IsSome looked) }
{
    let waits = part.synced() != part.last_handed();
    let passes = waits || !takes;
    if passes {
        return Ok(None);
    }
    part.take(rt, shared.queue())?;
    let wanted = looks || part.holds_some();
    if !wanted {
        return Ok(None);
    }
    let mut locked = shared.hold_to_flush(rt, part);
    let looked = part.look(rt, shared.queue(), &mut *locked);
    MutexGuard::unlock(locked);
    Ok(Some(looked?))
}

// Writes a group, where records wait.
fn write<B: Group, D: Device, G: Gate, A: Memory>(
    shared: &Shared<B, A>,
    part: &mut FlushPart<B, D, A>,
    gate: &G,
) -> Result<FlushReply, Error>
    ensures through { PassesThrough D.past_of D.marks D.failures B.site.opened part.old part.new }
    ensures copying { StandsBy part.old → StandsBy part.new }
    ensures half { halves_of part.new.writer ≡ halves_of part.old.writer }
    ensures place { copying_of part.new.writer ≡ copying_of part.old.writer }
    ensures image { OnOk result (IsWanted part.old → IsWanted part.new) }
    ensures none { IfOk result (λ reply. reply ≡ FlushReply.Nothing → WritesNone part.old part.new
        × (synced_of part.old.writer ≡ last_handed B.site.opened part.old)) }
    ensures full { IfOk result (λ reply. reply ≡ FlushReply.LogFull → WritesNone part.old part.new
        × IsLogFull part.old.writer) }
{
    if part.synced() == part.last_handed() {
        return Ok(FlushReply::Nothing);
    }
    gate.at(Point::FlushSync);
    let flushed = part.flush(shared.board());
    gate.at(Point::FlushGate);
    flushed
}

// Takes the next chunk of an image, or makes it current; or begins one, where half the slots are open.
fn copy<B: Group, D: Device, R: Wait, G: Gate, A: Memory>(
    rt: &R,
    shared: &Shared<B, A>,
    part: &mut FlushPart<B, D, A>,
    gate: &G,
) -> Result<(), Error>
    requires copying { StandsBy part.old }
    ensures through { PassesThrough D.past_of D.marks D.failures B.site.opened part.old part.new }
    ensures copying { StandsBy part.new }
    ensures image { OnOk result (IsWanted part.old → HasImage part.old part.new) }
{
    match part.copying() {
        Copying::Idle => {
            if !part.wants_image() {
                return Ok(());
            }
            copy_piece(rt, shared, part, CopyPlace::Start, gate)
        }
        Copying::Steps(Some(place)) => pass_or_copy(rt, shared, part, place, gate),
        Copying::Steps(None) => flip(shared, part, gate),
        Copying::GivenUp => {
            copy_all(rt, shared, part, gate)?;
            flip(shared, part, gate)
        }
    }
}

// Passes over the next pages that the image's half has, and writes nothing. Where the piece of this place isn't such a
// page, it is copied, and taken.
fn pass_or_copy<B: Group, D: Device, R: Wait, G: Gate, A: Memory>(
    rt: &R,
    shared: &Shared<B, A>,
    part: &mut FlushPart<B, D, A>,
    place: CopyPlace,
    gate: &G,
) -> Result<(), Error>
    requires due { next_place (copying_of part.old.writer) ≡ Some place }
    requires late { IsDue part.old }
    ensures through { PassesThrough D.past_of D.marks D.failures B.site.opened part.old part.new }
    ensures copying { StandsBy part.new }
    ensures image { OnOk result (IsCopied part.old part.new) }
    ensures spares { MayPass part.old.writer → device_of part.new.writer ≡ device_of part.old.writer }
{
    if pass_pages(shared, part) {
        return Ok(());
    }
    copy_piece(rt, shared, part, place, gate)
}

// Passes over the next pages of the image that its half has, as many as stand together: whether there is one.
fn pass_pages<B: Group, D: Device, A: Memory>(
    shared: &Shared<B, A>,
    part: &mut FlushPart<B, D, A>,
) -> bool
    requires late { IsDue part.old }
    ensures passed { IsTrue result → HasPassedPages D.past_of D.marks D.failures B.site.opened part.old part.new }
    ensures still { IsFalse result → part.new ≡ part.old }
    ensures some { MayPass part.old.writer → IsTrue result }
{
    if !pass_one(shared, part) {
        return false;
    }
    for _ in 1..part.geometry().pages {
        if !pass_one(shared, part) {
            return true;
        }
    }
    true
}

// Passes over the next page of the image, if its half has it.
fn pass_one<B: Group, D: Device, A: Memory>(
    shared: &Shared<B, A>,
    part: &mut FlushPart<B, D, A>,
) -> bool
    requires late { IsDue part.old }
    ensures passed { IsTrue result → HasPassedPages D.past_of D.marks D.failures B.site.opened part.old part.new }
    ensures still { IsFalse result → part.new ≡ part.old }
    ensures some { MayPass part.old.writer → IsTrue result }
{
    part.pass_page(shared.board())
}

// Copies the piece of this place under the lock, and takes it.
fn copy_piece<B: Group, D: Device, R: Wait, G: Gate, A: Memory>(
    rt: &R,
    shared: &Shared<B, A>,
    part: &mut FlushPart<B, D, A>,
    place: CopyPlace,
    gate: &G,
) -> Result<(), Error>
    requires due { next_place (copying_of part.old.writer) ≡ Some place }
    requires late { IsDue part.old }
    ensures through { PassesThrough D.past_of D.marks D.failures B.site.opened part.old part.new }
    ensures copying { StandsBy part.new }
    ensures image { OnOk result (IsCopied part.old part.new) }
{
    gate.at(Point::CopyStep);
    if part.has_failed() {
        return Err(Error::DeviceFailed);
    }
    let mut locked = shared.hold_to_flush(rt, part);
    let copied = part.copy_step(rt, shared.queue(), &mut *locked, place);
    MutexGuard::unlock(locked);
    let chunk = copied?;
    take_chunk(shared, part, chunk)
}

// Copies all cells under the lock, and takes them.
fn copy_all<B: Group, D: Device, R: Wait, G: Gate, A: Memory>(
    rt: &R,
    shared: &Shared<B, A>,
    part: &mut FlushPart<B, D, A>,
    gate: &G,
) -> Result<(), Error>
    requires given_up { copying_of part.old.writer ≡ GivenUp }
    requires late { IsDue part.old }
    ensures through { PassesThrough D.past_of D.marks D.failures B.site.opened part.old part.new }
    ensures copying { StandsBy part.new }
    ensures image { OnOk result (IsCopied part.old part.new) }
    ensures late { IsDue part.new }
    ensures whole { OnOk result (copying_of part.new.writer ≡ Steps None) }
{
    gate.at(Point::CopyStep);
    let mut locked = shared.hold_to_flush(rt, part);
    let copied = part.copy_whole(rt, shared.queue(), &mut *locked);
    MutexGuard::unlock(locked);
    let chunk = copied?;
    take_chunk(shared, part, chunk)
}

// Takes a chunk that was copied, or gives the image up.
fn take_chunk<B: Group, D: Device, A: Memory>(
    shared: &Shared<B, A>,
    part: &mut FlushPart<B, D, A>,
    chunk: Chunk<A>,
) -> Result<(), Error>
    requires chunk { IsChunk (run_of B.site.opened part.old) part.old.writer chunk.number chunk.piece }
    requires next { IsNextPiece chunk.piece (copying_of part.old.writer) }
    requires late { IsDue part.old }
    ensures through { PassesThrough D.past_of D.marks D.failures B.site.opened part.old part.new }
    ensures copying { StandsBy part.new }
    ensures image { OnOk result (IsCopied part.old part.new) }
    ensures late { IsDue part.new }
    ensures behind { OnOk result (¬ MustStartAgain chunk.piece part.old.writer → copying_of part.new.writer
        ≡ Steps (place_behind (halves_of part.old.writer).geometry.pages chunk.piece)) }
{
    part.take_piece(shared.board(), chunk)?;
    Ok(())
}

// Makes the image current; or, where it can't be yet, writes a group. Where no group more can be written, it is given
// up, and a whole one is to be taken.
fn flip<B: Group, D: Device, G: Gate, A: Memory>(
    shared: &Shared<B, A>,
    part: &mut FlushPart<B, D, A>,
    gate: &G,
) -> Result<(), Error>
    requires whole { copying_of part.old.writer ≡ Steps None }
    requires late { IsDue part.old }
    ensures through { PassesThrough D.past_of D.marks D.failures B.site.opened part.old part.new }
    ensures copying { StandsBy part.new }
    ensures image { OnOk result (copying_of part.old.writer ≢ Idle → HasImage part.old part.new) }
{
    match part.flip(shared.board())? {
        FlipReply::Flipped(_) => return Ok(()),
        FlipReply::Behind => {}
    }
    part.stands();
    match write(shared, part, gate)? {
        FlushReply::Flushed(_) => Ok(()),
        FlushReply::Nothing => {
            part.give_up();
            Ok(())
        }
        FlushReply::LogFull => {
            part.give_up();
            Ok(())
        }
    }
}
