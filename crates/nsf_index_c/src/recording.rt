//! Records: the notes as bytes, for the log of the host and for its checkpoints.
ghost use Rattle.std.specs.Prelude.{◌≡◌, ◌⊎◌, ◌*◌, ◌+◌, ◌++◌, ◌∷◌, ◌≤◌, [], drop, false, length};
ghost use Rattle.std.specs.Prelude.{IfErr, IfNone, IfOk, IfSome};
ghost use Rattle.record_values.specs.declared.error.Error.{Error};
ghost use Rattle.nsf_index_c.specs.Handles.{IsNotServed, IsServed, Serves};
ghost use Rattle.nsf_index_c.specs.Reading.{flag_of};
ghost use Rattle.nsf_index_c.specs.Recording.{IsNotSaved, IsPieceSpelled, IsSpelled, SavesLife, SavesPiece};
ghost use Rattle.nsf_index_c.specs.Recording.{TakesRecords};

use crate::handle::Handle;
use crate::held::Held;
use crate::numbers::{BAD_PAIR, NO_ROOM, NOT_OPEN, NOT_REOPENED, OK, RECORDS_WAIT, number_of};
use crate::pair::Cursor;
use online_index::Saved;
use online_model::Note;
use online_notes::{NOTE_MAX, encode};
use record_values::{Error, Pair};
use std::alloc::Global;

/// The most bytes of a record, with the byte before it that is its length.
pub const FRAME_MAX: usize = 64;

// Puts one record in front, with its length before it.
fn put_frame(bytes: &mut [u8], record: &[u8])
    requires room { length record.now + 1 ≤ length bytes.old }
    requires few { length record.now ≤ NOTE_MAX }
    ensures { bytes.new ≡ (length record.now ∷ record.now) ++ drop (length record.now + 1) bytes.old }
{
    bytes[0] = record.len() as u8;
    bytes[1..record.len() + 1].copy_from_slice(record);
}

// Puts the records of these notes one after another, each with its length before it. Returns how many bytes they have.
fn spell(record: &mut Vec<u8, Global>, notes: &[Note], bytes: &mut [u8]) -> Result<usize, Error>
    requires { length notes.now * FRAME_MAX ≤ length bytes.old }
    ensures ok { IfOk result (λ used. IsSpelled notes.now used bytes.old bytes.new) }
    ensures no_memory { IfErr result (λ e. e ≡ Error.NoMemory) }
{
    let mut used = 0;
    for note in notes {
        record.clear();
        encode(note, record)?;
        put_frame(&mut bytes[used..], record);
        used += record.len() + 1;
    }
    Ok(used)
}

/// What is told of a call that puts records: its refusal or 0, how many bytes they have, and whether it was the last
/// piece.
#[derive(Clone, Copy)]
pub struct Spelled {
    pub status: u32,
    pub used: usize,
    pub is_last: u32,
}

fn refused(status: u32) -> Spelled
    ensures { result ≡ record { status = status; used = 0; is_last = 0 } }
{
    Spelled {
        status,
        used: 0,
        is_last: 0,
    }
}

fn done(used: usize, is_last: bool) -> Spelled
    ensures { result ≡ record { status = 0; used = used; is_last = flag_of is_last } }
{
    Spelled {
        status: OK,
        used,
        is_last: u32::from(is_last),
    }
}

impl Held {
    // Makes room for so many notes beside those that wait.
    fn reserve(&mut self, count: u32) -> u32
        ensures { (self.new ≡ self.old) × ((result ≡ 0) ⊎ (result ≡ 1)) }
    {
        match self.notes.reserve(count as usize) {
            Ok(()) => OK,
            Err(_) => number_of(Error::NoMemory),
        }
    }

    // Takes as many notes as there is room for.
    fn take_records(&mut self, bytes: &mut [u8]) -> Spelled
        ensures { TakesRecords result.status result.used bytes.old bytes.new self.old self.new }
    {
        if bytes.len() < FRAME_MAX {
            return refused(NO_ROOM);
        }
        let count = self.notes.len().min(bytes.len() / FRAME_MAX);
        match spell(&mut self.record, &self.notes[..count], bytes) {
            Ok(used) => {
                self.notes.rotate_left(count);
                let rest = self.notes.len() - count;
                self.notes.truncate(rest);
                done(used, false)
            }
            Err(error) => refused(number_of(error)),
        }
    }

    // Why nothing can be saved, if so.
    fn why_not_saved(&self, bytes: &[u8]) -> Option<u32>
        ensures some { IfSome result (λ n. IsNotSaved n bytes.now self.now) }
        ensures room { IfNone result (FRAME_MAX ≤ length bytes.now) }
        ensures reopened { IfNone result (self.now.is_redone ≡ false) }
        ensures empty { IfNone result (self.now.waiting ≡ []) }
    {
        if bytes.len() < FRAME_MAX {
            return Some(NO_ROOM);
        }
        if self.is_redone {
            return Some(NOT_REOPENED);
        }
        if !self.notes.is_empty() {
            return Some(RECORDS_WAIT);
        }
        None
    }

    fn save_life(&mut self, bytes: &mut [u8]) -> Spelled
        ensures { SavesLife result.status result.used bytes.old bytes.new self.old self.new }
    {
        if let Some(number) = self.why_not_saved(bytes) {
            return refused(number);
        }
        match spell(&mut self.record, &[Note::LifeIs(self.index.life())], bytes) {
            Ok(used) => done(used, false),
            Err(error) => refused(number_of(error)),
        }
    }

    // The records of the next entries above a pair, as many as there is room for.
    fn spell_piece(
        &mut self,
        above: Option<Pair>,
        bytes: &mut [u8],
    ) -> Result<(Saved, usize), Error>
        requires { self.old.waiting ≡ [] }
        ensures ok { IfOk result (λ piece. IsPieceSpelled above piece.0 piece.1 bytes.old bytes.new
            self.old.index.entries) }
        ensures no_memory { IfErr result (λ e. e ≡ Error.NoMemory) }
        ensures unchanged { self.new ≡ self.old }
    {
        let most = (bytes.len() / FRAME_MAX).min(u32::MAX as usize) as u32;
        let saved = self.index.save(above, most, &mut self.notes)?;
        let spelled = spell(&mut self.record, &self.notes, bytes);
        self.notes.clear();
        Ok((saved, spelled?))
    }

    fn save_piece(&mut self, cursor: &mut Cursor, bytes: &mut [u8]) -> Spelled
        ensures { SavesPiece result.status result.used result.is_last cursor.old cursor.new bytes.old bytes.new self.old
            self.new }
    {
        if let Some(number) = self.why_not_saved(bytes) {
            return refused(number);
        }
        let Ok(above) = cursor.above() else {
            return refused(BAD_PAIR);
        };
        match self.spell_piece(above, bytes) {
            Ok((Saved::All, used)) => done(used, true),
            Ok((Saved::GoOn(pair), used)) => {
                cursor.go_after(pair.as_ref());
                done(used, false)
            }
            Err(error) => refused(number_of(error)),
        }
    }
}

/// Makes room for so many records beside those that wait.
#[unsafe(no_mangle)]
pub extern "C" fn nsf_index_reserve(alloc: Global, handle: &mut Handle, count: u32) -> u32
    ensures { Serves (λ v w. (w ≡ v) × ((result ≡ 0) ⊎ (result ≡ 1))) result handle.old handle.new }
{
    let Some(mut held) = handle.take(alloc) else {
        return NOT_OPEN;
    };
    let status = held.reserve(count);
    handle.put(held);
    status
}

/// Takes records that wait, in the order of the calls, as many as there is room for at 64 bytes each: a byte with the
/// length of the record, and then so many bytes. Where it is refused they stay.
#[unsafe(no_mangle)]
pub extern "C" fn nsf_index_records(
    alloc: Global,
    handle: &mut Handle,
    bytes: &mut [u8],
    used: &mut usize,
) -> u32
    ensures { (IsNotServed result handle.old handle.new × (used.new ≡ 0))
        ⊎ IsServed (TakesRecords result used.new bytes.old bytes.new) handle.old handle.new }
{
    let Some(mut held) = handle.take(alloc) else {
        *used = 0;
        return NOT_OPEN;
    };
    let spelled = held.take_records(bytes);
    handle.put(held);
    *used = spelled.used;
    spelled.status
}

/// A piece of a checkpoint: the records of the next entries after the cursor, as many as there is room for at 64 bytes
/// each. Tells whether it was the last piece; if not, the cursor is where the next one begins.
#[unsafe(no_mangle)]
pub extern "C" fn nsf_index_save(
    alloc: Global,
    handle: &mut Handle,
    cursor: &mut Cursor,
    bytes: &mut [u8],
    used: &mut usize,
    is_last: &mut u32,
) -> u32
    ensures { (IsNotServed result handle.old handle.new × (used.new ≡ 0))
        ⊎ IsServed (SavesPiece result used.new is_last.new cursor.old cursor.new bytes.old bytes.new) handle.old
        handle.new }
{
    *is_last = 0;
    let Some(mut held) = handle.take(alloc) else {
        *used = 0;
        return NOT_OPEN;
    };
    let spelled = held.save_piece(cursor, bytes);
    handle.put(held);
    *used = spelled.used;
    *is_last = spelled.is_last;
    spelled.status
}

/// The record of how far the index is built, with which a checkpoint begins.
#[unsafe(no_mangle)]
pub extern "C" fn nsf_index_save_life(
    alloc: Global,
    handle: &mut Handle,
    bytes: &mut [u8],
    used: &mut usize,
) -> u32
    ensures { (IsNotServed result handle.old handle.new × (used.new ≡ 0))
        ⊎ IsServed (SavesLife result used.new bytes.old bytes.new) handle.old handle.new }
{
    let Some(mut held) = handle.take(alloc) else {
        *used = 0;
        return NOT_OPEN;
    };
    let spelled = held.save_life(bytes);
    handle.put(held);
    *used = spelled.used;
    spelled.status
}
