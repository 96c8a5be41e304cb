//! What seats do beside the loops.
use crate::calls::{Calls, remove};
use crate::chairs::Player;
use crate::keyed::{ROWS, insert, make_anew, reads, set_up};
use crate::stage::Stage;
use model::Life;
use nsf_core::Ticket;
use program_demonstration::key_of;
use records::{Error, Rid};
use std::alloc::{AllocError, Global};
use std::rt::Clock;
use threads_loops::Point;

/// How many seats write.
pub const WRITERS: u16 = 4;

// How many transactions a writer makes.
const CHANGES: u16 = 15;

// The most rows that the first writer puts before both loops are held.
const ROWS_MAX: u16 = 60;

// Within so many steps the cleaner has come to a marked entry: it passes over the live ones before it.
const STEPS_OF_CLEANER: u64 = 16;

// The first halves of the keys of other rows than the writers'.
const FILLING: u16 = 101;

const LEADING: u16 = 102;

const ENDING: u16 = 103;

// The places of the first two rows that are put before the writers' rows, on the page that the builder scans first. An
// engine has put one before them.
const FIRST_ROW: Rid = Rid { page: 0, slot: 1 };

const SECOND_ROW: Rid = Rid { page: 0, slot: 2 };

/// A row that a writer put.
#[derive(Clone, Copy)]
pub struct Put {
    pub rid: Rid,
    pub first: u16,
    pub second: u16,
}

/// What writers were told: the rows that are safe; those that are gone, or that they took back themselves; how many
/// tickets were acknowledged, and the greatest record number of those; how many were refused for the device's failure;
/// what else was refused; and whether what the first of them saw of the index is right.
#[derive(Drop)]
pub struct Told {
    pub kept: Vec<Put>,
    pub gone: Vec<Put>,
    pub acknowledged: u32,
    pub safe: u64,
    pub failed: u32,
    pub refused: Option<Error>,
    pub seen: bool,
}

impl Told {
    // Nothing yet.
    fn nothing(alloc: Global) -> Told {
        Told {
            kept: Vec::new(alloc),
            gone: Vec::new(alloc),
            acknowledged: 0,
            safe: 0,
            failed: 0,
            refused: None,
            seen: false,
        }
    }
}

/// A writer, its number, and what it was told.
#[derive(Drop)]
pub struct Writer<'a, R> {
    stage: &'a Stage<'a, R>,
    number: u16,
    told: Told,
}

// ---- before the writers' rows

// Waits until a ticket is acknowledged, or both loops are held.
fn wait_unless_held<C: Calls, R: Clock>(seat: &mut C, stage: &Stage<'_, R>, ticket: &Ticket) {
    for _ in stage.looks() {
        if stage.holds() || seat.is_acked(*ticket) {
            return;
        }
        stage.rest();
    }
    stage.is_too_late();
}

// One transaction: a row is put, and another one is deleted, if there is another one.
fn change<C: Calls>(
    seat: &mut C,
    numbers: (u16, u16),
    gone: Option<Rid>,
) -> Result<(Rid, Ticket), Error> {
    let (first, second) = numbers;
    let txn = seat.begin()?;
    let rid = insert(seat, txn, first, second)?;
    if let Some(gone) = gone {
        remove(seat, txn, gone)?;
    }
    let ticket = seat.commit(txn)?;
    Ok((rid, ticket))
}

// One transaction that is taken back: a row is put. Its place.
fn take_back<C: Calls>(seat: &mut C, numbers: (u16, u16)) -> Result<Rid, Error> {
    let (first, second) = numbers;
    let txn = seat.begin()?;
    let rid = insert(seat, txn, first, second)?;
    seat.abort(txn)?;
    Ok(rid)
}

// Commits rows until both loops are held, each in a group of its own.
fn fill<C: Calls, R: Clock>(seat: &mut C, stage: &Stage<'_, R>) -> Result<(), Error> {
    for row in 0..ROWS_MAX {
        if stage.holds() {
            return Ok(());
        }
        let (_, ticket) = change(seat, (FILLING, row), None)?;
        wait_unless_held(seat, stage, &ticket);
    }
    stage.await_held();
    Ok(())
}

// While both loops are held, a row is inserted, read back, and committed.
fn put_and_read<C: Calls>(seat: &mut C) -> Result<Put, Error> {
    let (first, second) = (LEADING, 0);
    let txn = seat.begin()?;
    let rid = insert(seat, txn, first, second)?;
    let is_read = reads(seat, rid, first, second)?;
    seat.commit(txn)?;
    if is_read {
        Ok(Put { rid, first, second })
    } else {
        Err(Error::NoSuchRow)
    }
}

// While the builder is held a row that it has scanned is deleted, the commit is acknowledged, or refused for the
// device's failure, and the cleaner goes on twice.
fn delete_scanned<C: Calls, R: Clock>(
    seat: &mut C,
    writer: &mut Writer<'_, R>,
    put: Put,
) -> Result<(), Error> {
    let txn = seat.begin()?;
    remove(seat, txn, FIRST_ROW)?;
    let ticket = seat.commit(txn)?;
    let waited = seat.await_ack(ticket);
    writer.stage.await_cleaner(2);
    let deleted = Put {
        rid: FIRST_ROW,
        first: ROWS,
        second: 0,
    };
    match waited {
        Ok(()) => note_rows(&mut writer.told, put, Some(deleted)),
        Err(Error::DeviceFailed) => Ok(()),
        Err(error) => Err(error),
    }
}

// Does so, and lets the flusher go between. A builder that is held after an attempt has told of it.
fn lead<C: Calls, R: Clock>(seat: &mut C, writer: &mut Writer<'_, R>) -> Result<(), Error> {
    let stage = writer.stage;
    fill(seat, stage)?;
    if stage.builder.is_at(Point::BuildAttempt) && seat.progress() == 0 {
        return Err(Error::NoIndex);
    }
    let put = put_and_read(seat)?;
    stage.flusher.let_go();
    delete_scanned(seat, writer, put)
}

// ---- the writers

// Notes a row that is safe, and the one that is gone with it, if there is one.
fn note_rows(told: &mut Told, put: Put, deleted: Option<Put>) -> Result<(), Error> {
    told.kept.push(put)?;
    if let Some(row) = deleted {
        told.gone.push(row)?;
    }
    Ok(())
}

// Notes what a writer was told of its commit. Nothing is acknowledged after a failure.
fn note(
    told: &mut Told,
    (put, deleted): (&Put, Option<Put>),
    (record, waited): (u64, Result<(), Error>),
) -> Result<(), Error> {
    match waited {
        Ok(()) if told.failed == 0 => {
            told.acknowledged = told.acknowledged.saturating_add(1);
            told.safe = record;
            note_rows(told, *put, deleted)
        }
        Ok(()) => Err(Error::DeviceFailed),
        Err(Error::DeviceFailed) => {
            told.failed = told.failed.saturating_add(1);
            Ok(())
        }
        Err(error) => Err(error),
    }
}

// Takes a row off those that are safe, if there is one and it is the last of them: it is to be deleted. Its place.
fn take_off(kept: &mut Vec<Put>, row: &Option<Put>) -> Option<Rid> {
    let row = row.as_ref()?;
    let is_last = match kept.last() {
        Some(last) => last.second == row.second,
        None => false,
    };
    if is_last {
        kept.pop();
    }
    Some(row.rid)
}

// Commits a row that is put, and the deletion of another, and waits for the commit: the row, the number of its record,
// and what the wait was answered.
fn commit_row<C: Calls>(
    seat: &mut C,
    numbers: (u16, u16),
    gone: Option<Rid>,
) -> Result<(Put, (u64, Result<(), Error>)), Error> {
    let (rid, ticket) = change(seat, numbers, gone)?;
    let record = ticket.record.get();
    let waited = seat.await_ack(ticket);
    let (first, second) = numbers;
    let put = Put { rid, first, second };
    Ok((put, (record, waited)))
}

// A transaction that is kept: a row is put, and the one before is deleted, if it is to be; it is no longer among those
// that are safe. It waits for the commit.
fn keep_row<C: Calls, R>(
    seat: &mut C,
    writer: &mut Writer<'_, R>,
    second: u16,
    deleted: Option<Put>,
) -> Result<Put, Error> {
    let first = writer.number;
    let gone = take_off(&mut writer.told.kept, &deleted);
    let (put, answer) = commit_row(seat, (first, second), gone)?;
    note(&mut writer.told, (&put, deleted), answer)?;
    Ok(put)
}

// A writer puts a row in each transaction. In each third of four it deletes the row before, and each fourth it takes
// back. It waits for each commit, and goes on where the device has failed.
fn write_rows<C: Calls, R>(seat: &mut C, writer: &mut Writer<'_, R>) -> Result<(), Error> {
    let first = writer.number;
    let mut before = None;
    for second in 0..CHANGES {
        if second % 4 == 3 {
            let rid = take_back(seat, (first, second))?;
            writer.told.gone.push(Put { rid, first, second })?;
        } else {
            let deleted = if second % 4 == 2 { before.take() } else { None };
            before = Some(keep_row(seat, writer, second, deleted)?);
        }
    }
    Ok(())
}

// What the first writer does before its rows: it puts others, and creates the index, which lets all write. Then it
// leads where the loops are held. In any case they are let go.
fn begin_all<C: Calls, R: Clock>(seat: &mut C, writer: &mut Writer<'_, R>) -> Result<(), Error> {
    let stage = writer.stage;
    stage.arm();
    let prepared = set_up(seat);
    stage.begins_writing();
    prepared?;
    let led = lead(seat, writer);
    stage.flusher.let_go();
    stage.builder.let_go();
    led
}

// All that a seat does before and for its rows.
fn write<C: Calls, R: Clock>(seat: &mut C, writer: &mut Writer<'_, R>) -> Result<(), Error> {
    if writer.number == 0 {
        begin_all(seat, writer)?;
    }
    writer.stage.await_writing();
    write_rows(seat, writer)
}

/// A writer writes its rows. Once all have, the first one looks at what is there, unless the device has failed.
impl<R: Clock> Player for Writer<'_, R> {
    fn play<C: Calls>(&mut self, seat: &mut C) {
        let written = write(seat, self);
        self.told.refused = written.err();
        let stage = self.stage;
        stage.ends_writing();
        if self.number == 0 {
            stage.await_writers(u64::from(WRITERS));
            if !seat.has_failed() {
                let seen = end(seat, stage);
                self.told.seen = matches!(seen, Ok(true));
            }
        }
    }
}

/// A writer for each seat.
pub fn writers_on<'a, R>(
    alloc: Global,
    stage: &'a Stage<'a, R>,
) -> Result<Vec<Writer<'a, R>>, AllocError> {
    let mut writers = Vec::new(alloc);
    for number in 0..WRITERS {
        writers.push(Writer {
            stage,
            number,
            told: Told::nothing(alloc),
        })?;
    }
    Ok(writers)
}

/// What they were told.
pub fn gather<R>(alloc: Global, writers: &[Writer<'_, R>]) -> Result<Told, AllocError> {
    let mut all = Told::nothing(alloc);
    for writer in writers {
        let told = &writer.told;
        all.kept.extend_from_slice(&told.kept)?;
        all.gone.extend_from_slice(&told.gone)?;
        all.acknowledged = all.acknowledged.saturating_add(told.acknowledged);
        all.safe = all.safe.max(told.safe);
        all.failed = all.failed.saturating_add(told.failed);
        all.refused = all.refused.or(told.refused);
        all.seen = all.seen || told.seen;
    }
    Ok(all)
}

// ---- after the writers

// Waits until the index is complete.
fn await_index<C: Calls, R: Clock>(seat: &mut C, stage: &Stage<'_, R>) {
    for _ in stage.looks() {
        if let Life::Complete = seat.life() {
            return;
        }
        stage.rest();
    }
    stage.is_too_late();
}

// Puts a row and deletes it, waits until the cleaner has looked at each entry, and until all that is on the device.
fn leave_mark<C: Calls, R: Clock>(seat: &mut C, stage: &Stage<'_, R>) -> Result<(), Error> {
    let (rid, _) = change(seat, (ENDING, 0), None)?;
    change(seat, (ENDING, 1), Some(rid))?;
    stage.await_cleaner(STEPS_OF_CLEANER);
    let (_, ticket) = change(seat, (ENDING, 2), None)?;
    seat.await_ack(ticket)
}

// Waits until the index is complete, and until one that is made in its place is; a row is deleted, and the cleaner
// takes its entry away. Whether the index finds the second row at its place alone then, and attempts were told.
fn end<C: Calls, R: Clock>(seat: &mut C, stage: &Stage<'_, R>) -> Result<bool, Error> {
    await_index(seat, stage);
    make_anew(seat)?;
    await_index(seat, stage);
    leave_mark(seat, stage)?;
    let found = seat.find_one(key_of(ROWS, 1)?)?;
    Ok(found == Some(SECOND_ROW) && seat.progress() > 0)
}
