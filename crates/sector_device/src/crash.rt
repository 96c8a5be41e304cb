// What a crash makes of the unsynced sectors of a disk in memory.
ghost use Rattle.std.specs.Prelude.{◌≡◌, length, slice_set, true};
ghost use Rattle.sector_device.specs.Disk.{IsCrashState, IsDiskWhole, IsSector};
ghost use Rattle.sector_device.specs.Memory.{disk_of, initial_state, marked_state, state_after, step, unsynced_since};
ghost use Rattle.sector_device.specs.Crash.{IsJunk, IsFilled, HasFate, IsCrashed, fate_at};

use crate::call::Call;
use crate::{Fate, MARK, SECTOR_SIZE};

fn filled(byte: u8) -> [u8; SECTOR_SIZE]
    ensures { IsFilled byte result }
{
    [byte; SECTOR_SIZE]
}

fn junk() -> [u8; SECTOR_SIZE]
    ensures { IsJunk result }
{
    let mut bytes = [0; SECTOR_SIZE];
    for i in 0..SECTOR_SIZE {
        bytes[i] = ((7 * i + 13) % 256) as u8;
    }
    bytes
}

fn fate(fates: &[Fate], i: usize) -> Fate
    ensures { result ≡ fate_at fates.now i }
{
    if fates.is_empty() {
        return Fate::Old;
    }
    fates[i % fates.len()]
}

// An unsynced sector after the crash, with what it held at the last sync, and what it held last.
fn torn(fate: Fate, before: &[u8; SECTOR_SIZE], content: &[u8; SECTOR_SIZE]) -> [u8; SECTOR_SIZE]
    ensures { HasFate fate before.now content.now result }
{
    match fate {
        Fate::Old => *before,
        Fate::New => *content,
        Fate::Zero => filled(0),
        Fate::Gate => filled(MARK),
        Fate::Junk => junk(),
    }
}

/// Gives the unsynced sectors, those written after the last sync, the fates in turn.
pub(crate) fn tear(
    content: &mut [[u8; SECTOR_SIZE]],
    before: &[[u8; SECTOR_SIZE]],
    written_at: &[usize],
    synced_at: usize,
    fates: &[Fate],
)
    requires before { length before.now ≡ length content.old }
    requires written { length written_at.now ≡ length content.old }
    ensures { IsCrashed fates.now
        record { content = content.old; synced = before.now; unsynced = unsynced_since synced_at written_at.now }
        content.new }
{
    let mut next = 0;
    for k in 0..content.len() {
        if synced_at < written_at[k] {
            content[k] = torn(fate(fates, next), &before[k], &content[k]);
            next += 1;
        }
    }
}

// A sector of these bytes.
fn sector_of(bytes: &[u8; SECTOR_SIZE]) -> [u8; SECTOR_SIZE]
    ensures value { result ≡ bytes.now }
    ensures whole { IsSector result }
{
    let mut sector = [0; SECTOR_SIZE];
    sector.copy_from_slice(bytes);
    sector
}

// Writes a sector again, and marks it; nothing where there is no such sector.
fn write_again(
    content: &mut [[u8; SECTOR_SIZE]],
    marks: &mut [usize],
    at: usize,
    bytes: &[u8; SECTOR_SIZE],
)
    requires { length marks.old ≡ length content.old }
    ensures content { content.new ≡ slice_set content.old at bytes.now }
    ensures marks { unsynced_since 0 marks.new ≡ slice_set (unsynced_since 0 marks.old) at true }
    ensures whole { IsDiskWhole content.old → IsDiskWhole content.new }
    ensures sectors { length content.new ≡ length content.old }
    ensures size { length marks.new ≡ length marks.old }
{
    if content.len() <= at {
        return;
    }
    content[at] = sector_of(bytes);
    marks[at] = 1;
}

// Makes a call again. A sector is unsynced where it is marked.
fn make_again(
    call: &Call,
    content: &mut [[u8; SECTOR_SIZE]],
    synced: &mut [[u8; SECTOR_SIZE]],
    marks: &mut [usize],
)
    requires synced { length synced.old ≡ length content.old }
    requires marks { length marks.old ≡ length content.old }
    ensures state { marked_state content.new synced.new marks.new
        ≡ step (marked_state content.old synced.old marks.old) call.now }
    ensures whole { IsDiskWhole content.old → IsDiskWhole content.new }
    ensures synced_whole { IsDiskWhole content.old → IsDiskWhole synced.old → IsDiskWhole synced.new }
    ensures sectors { length content.new ≡ length content.old }
    ensures synced_sectors { length synced.new ≡ length synced.old }
    ensures size { length marks.new ≡ length marks.old }
{
    match call {
        Call::Write { sector, bytes } => write_again(content, marks, *sector as usize, bytes),
        Call::Sync => {
            synced.copy_from_slice(content);
            marks.fill(0);
        }
    }
}

/// Leaves in `content` what a crash leaves of a disk that held the first sectors, all of them synced, and made these
/// calls.
pub(crate) fn crash_behind(
    first: &[[u8; SECTOR_SIZE]],
    calls: &[Call],
    content: &mut [[u8; SECTOR_SIZE]],
    synced: &mut [[u8; SECTOR_SIZE]],
    marks: &mut [usize],
    fates: &[Fate],
)
    requires whole { IsDiskWhole first.now }
    requires content { length content.old ≡ length first.now }
    requires synced { length synced.old ≡ length first.now }
    requires marks { length marks.old ≡ length first.now }
    ensures fates { IsCrashed fates.now (state_after (initial_state first.now) calls.now) content.new }
    ensures crash { IsCrashState (disk_of (state_after (initial_state first.now) calls.now)) content.new }
    ensures whole { IsDiskWhole content.new }
    ensures sectors { length content.new ≡ length content.old }
    ensures synced_sectors { length synced.new ≡ length synced.old }
    ensures size { length marks.new ≡ length marks.old }
{
    content.copy_from_slice(first);
    synced.copy_from_slice(first);
    marks.fill(0);
    for call in calls {
        make_again(call, content, synced, marks);
    }
    tear(content, synced, marks, 0, fates);
}
