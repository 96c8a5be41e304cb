//! Writing every record out.
ghost use Rattle.std.specs.Prelude.{◌≡◌, ◌⊎◌, [], length, take, false, true, OnOk, IfErr};
ghost use Rattle.record_values.specs.declared.error.Error.TheVariants.{DeviceFailed, NoMemory};
ghost use Rattle.locked_core.specs.Locked.{locked_of};
ghost use Rattle.store_writer.specs.Parts.{has_failed, synced_of};
ghost use Rattle.threads_flusher.specs.Part.{last_handed, popped_by};
ghost use Rattle.threads_lifetime.specs.Written.{HasTaken, WritesOn};

use board::Board;
use locked_core::{Group, Locked, Memory};
use records::Error;
use sector_device::Device;
use std::sync::Wait;
use store_image_model::CopyPlace;
use store_writer::FlushReply;
use threads_flusher::FlushPart;
use threads_queue::RecordQueue;

// Hands in what was popped, pushes the records that wait in the core, and pops and hands in those that wait in the
// queue, until the writer has got every record that was made.
fn hand_in_all<B: Group, D: Device, R: Wait, A: Memory>(
    rt: &R,
    alloc: A,
    queue: &RecordQueue<A>,
    locked: &mut Locked<B, A>,
    flush: &mut FlushPart<B, D, A>,
) -> Result<(), Error>
    requires { queue.now ≡ B.site.queue }
    ensures taken { HasTaken flush.old flush.new }
    ensures beginning { flush.new.handed ≡ take (length flush.new.handed) (locked_of locked.new).pushed }
    ensures popped { popped_by flush.old ≡ take (length (popped_by flush.old)) (locked_of locked.new).pushed }
    ensures all { OnOk result (flush.new.handed ≡ (locked_of locked.new).pushed) }
    ensures none_waits { OnOk result ((locked_of locked.new).core.outbox ≡ []) }
    ensures book { (locked_of locked.new).book ≡ (locked_of locked.old).book }
    ensures no_memory { IfErr result (λ e. e ≡ NoMemory) }
{
    flush.hand_in(rt, queue, locked)?;
    if !locked.push_outbox(rt, queue) {
        return Err(Error::NoMemory);
    }
    locked.each_hold();
    let chunk = locked.copy_step(alloc, CopyPlace::Start)?;
    let last = chunk.number;
    drop(chunk);
    for _ in rt.forever() {
        let all = flush.last_handed() == last;
        if all {
            return Ok(());
        }
        flush.take(rt, queue)?;
        flush.hand_in(rt, queue, locked)?;
    }
    unreachable!()
}

// Takes an image of all cells, and makes it current.
fn write_image<B: Group, D: Device, A: Memory>(
    alloc: A,
    board: &Board<A>,
    locked: &Locked<B, A>,
    flush: &mut FlushPart<B, D, A>,
) -> Result<(), Error>
    requires board { board.now ≡ B.site.board }
    requires all { flush.old.handed ≡ (locked_of locked.now).pushed }
    requires none_waits { (locked_of locked.now).core.outbox ≡ [] }
    ensures writes { WritesOn D.past_of D.failures B.site.opened flush.old flush.new }
    ensures handed { flush.new.handed ≡ flush.old.handed }
    ensures synced { OnOk result (synced_of flush.new.writer ≡ last_handed B.site.opened flush.new) }
    ensures sound { OnOk result (has_failed flush.new.writer ≡ false) }
    ensures err { IfErr result (λ e. (e ≡ NoMemory) ⊎ ((e ≡ DeviceFailed) × (has_failed flush.new.writer ≡ true))) }
{
    flush.stands();
    locked.each_hold();
    let chunk = locked.copy_whole(alloc)?;
    flush.take_piece(board, chunk)?;
    flush.flip(board)?;
    Ok(())
}

// Writes groups until every record that the writer has got is synced; or, once the log is full, an image.
fn write_groups<B: Group, D: Device, A: Memory>(
    alloc: A,
    board: &Board<A>,
    locked: &Locked<B, A>,
    flush: &mut FlushPart<B, D, A>,
) -> Result<(), Error>
    requires board { board.now ≡ B.site.board }
    requires all { flush.old.handed ≡ (locked_of locked.now).pushed }
    requires none_waits { (locked_of locked.now).core.outbox ≡ [] }
    ensures writes { WritesOn D.past_of D.failures B.site.opened flush.old flush.new }
    ensures handed { flush.new.handed ≡ flush.old.handed }
    ensures synced { OnOk result (synced_of flush.new.writer ≡ last_handed B.site.opened flush.new) }
    ensures sound { OnOk result (has_failed flush.new.writer ≡ false) }
    ensures err { IfErr result (λ e. (e ≡ NoMemory) ⊎ ((e ≡ DeviceFailed) × (has_failed flush.new.writer ≡ true))) }
{
    flush.stands();
    loop {
        match flush.flush(board)? {
            FlushReply::Flushed(_) => flush.stands(),
            FlushReply::Nothing => return Ok(()),
            FlushReply::LogFull => return write_image(alloc, board, locked, flush),
        }
    }
}

// Writes every record out that was made.
pub(crate) fn write_out<B: Group, D: Device, R: Wait, A: Memory>(
    rt: &R,
    alloc: A,
    queue: &RecordQueue<A>,
    board: &Board<A>,
    locked: &mut Locked<B, A>,
    flush: &mut FlushPart<B, D, A>,
) -> Result<(), Error>
    requires queue { queue.now ≡ B.site.queue }
    requires board { board.now ≡ B.site.board }
    ensures writes { WritesOn D.past_of D.failures B.site.opened flush.old flush.new }
    ensures beginning { flush.new.handed ≡ take (length flush.new.handed) (locked_of locked.new).pushed }
    ensures popped { popped_by flush.old ≡ take (length (popped_by flush.old)) (locked_of locked.new).pushed }
    ensures all { OnOk result (flush.new.handed ≡ (locked_of locked.new).pushed) }
    ensures none_waits { OnOk result ((locked_of locked.new).core.outbox ≡ []) }
    ensures synced { OnOk result (synced_of flush.new.writer ≡ last_handed B.site.opened flush.new) }
    ensures book { (locked_of locked.new).book ≡ (locked_of locked.old).book }
    ensures sound { OnOk result (has_failed flush.new.writer ≡ false) }
    ensures err { IfErr result (λ e. (e ≡ NoMemory) ⊎ ((e ≡ DeviceFailed) × (has_failed flush.new.writer ≡ true))) }
{
    let taken = hand_in_all(rt, alloc, queue, locked, flush);
    flush.stands();
    taken?;
    write_groups(alloc, board, locked, flush)
}
