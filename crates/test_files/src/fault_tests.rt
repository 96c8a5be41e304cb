// Each write and sync of a process fails in turn, and each of the next one, the power is lost, and the disk is opened
// again.
use crate::backing::{Host, Loss, Sector, Used};
use crate::claims::{claim, claim_at};
use sector_device::{Device, SECTOR_SIZE};
use std::alloc::{AllocError, Global};
use std::process::Abort;
use store_file::FileDisk;

// More sectors than are read at once, and no multiple of those.
const SECTORS: usize = 300;

// The sectors that a process writes: the first and the last, and those at which what is read at once ends and begins.
static WRITTEN: [u64; 4] = [0, 127, 128, 299];

// The bytes of a sector that are looked at: the first and the last of each half.
static PLACES: [usize; 4] = [0, 255, 256, 511];

static LOSSES: [Loss; 3] = [Loss::Dropped, Loss::Kept, Loss::Torn];

// Calls of a process: three runs of sectors are written back and synced, and twice four sectors are written and synced.
const CALLS: u64 = 14;

// Of the sectors that are written: the version that all have that a sync covered, and the last one that was written.
#[derive(Clone, Copy)]
struct Told {
    safe: u8,
    written: u8,
}

// A sector of this version, of at most 7. Its neighbours, and those of the same place in what is read at once, have
// other bytes in each version.
fn byte_of(n: u64, version: u8) -> u8 {
    ((n % 31) as u8).wrapping_mul(8).wrapping_add(version)
}

fn sector_of(n: u64, version: u8) -> Sector {
    [byte_of(n, version); SECTOR_SIZE]
}

// Of each sector the device holds version 0, and the cache shows version 1: a sync failed, and no later one writes it.
fn spoiled(alloc: Global) -> Result<Host, AllocError> {
    let mut host = Host::new(alloc);
    for n in 0..SECTORS as u64 {
        if let Err(error) = host.add(sector_of(n, 0), sector_of(n, 1)) {
            drop(host);
            return Err(error);
        }
    }
    Ok(host)
}

fn is_put<D: Device>(disk: &mut D, n: u64, version: u8) -> bool {
    n < disk.sectors() && disk.write(n, &sector_of(n, version)).is_ok()
}

// Whether each of these sectors is written, and synced.
fn are_put<D: Device>(disk: &mut D, version: u8) -> bool {
    for n in &WRITTEN {
        if !is_put(disk, *n, version) {
            return false;
        }
    }
    disk.sync().is_ok()
}

// Writes two versions more, until a call fails.
fn play<D: Device>(disk: &mut D, before: Told) -> Told {
    let mut told = before;
    for _ in 0..2u8 {
        told.written = told.written.saturating_add(1);
        if !are_put(disk, told.written) {
            return told;
        }
        told.safe = told.written;
    }
    told
}

// The version of a byte of this sector.
fn version_of(n: u64, byte: u8) -> u8 {
    byte.wrapping_sub(byte_of(n, 0))
}

// The least version of those sectors.
fn least_in(sectors: &[Sector]) -> u8 {
    let mut least = u8::MAX;
    for n in &WRITTEN {
        if let Some(sector) = sectors.get(*n as usize) {
            least = least.min(version_of(*n, sector[0]));
        }
    }
    least
}

// A process opens the file, and writes, until a call fails. What the opening reads is safe.
fn live(alloc: Global, host: &mut Host, told: Told) -> Told {
    match FileDisk::over(alloc, Used { host }, SECTORS) {
        Ok(mut disk) => {
            let read = Told {
                safe: least_in(disk.content()).max(told.safe),
                written: told.written,
            };
            let told = play(&mut disk, read);
            drop(disk);
            told
        }
        Err(_) => told,
    }
}

// Whether a byte of the sector is one of these versions.
fn is_among(n: u64, byte: u8, told: Told) -> bool {
    let version = version_of(n, byte);
    told.safe <= version && version <= told.written
}

// Whether the sector is as it was told: of a version that is safe, or was written since.
fn is_left(n: u64, sector: &Sector, told: Told) -> bool {
    let told = if WRITTEN.contains(&n) {
        told
    } else {
        Told {
            safe: told.safe.min(1),
            written: 1,
        }
    };
    for place in &PLACES {
        if !is_among(n, sector[*place % SECTOR_SIZE], told) {
            return false;
        }
    }
    true
}

fn are_left(sectors: &[Sector], told: Told) -> bool {
    let mut number: u64 = 0;
    for sector in sectors {
        if !is_left(number, sector, told) {
            return false;
        }
        number = number.saturating_add(1);
    }
    number == SECTORS as u64
}

// Opens the file once more, where no call fails: each sector is as it was told.
fn look(rt: &impl Abort, alloc: Global, host: &mut Host, told: Told) {
    match FileDisk::over(alloc, Used { host }, SECTORS) {
        Ok(disk) => {
            let are_left = are_left(disk.content(), told);
            drop(disk);
            claim(rt, are_left, "what was safe, or was written since");
        }
        Err(_) => rt.panic("the file can't be opened again"),
    }
}

// The power is lost, and what is left is looked at.
fn lose_each(rt: &impl Abort, alloc: Global, host: &Host, told: Told) -> Result<(), AllocError> {
    for loss in &LOSSES {
        let mut left = host.copied()?;
        left.lose_power(*loss);
        look(rt, alloc, &mut left, told);
        drop(left);
    }
    Ok(())
}

// This call of a process fails, if it makes so many. What is told then, and whether it made them.
fn fail_at(alloc: Global, host: &mut Host, told: Told, call: u64) -> (Told, bool) {
    host.fail_at(call);
    let told = live(alloc, host, told);
    (told, call <= host.calls())
}

// The next process goes on over the cache, each of its calls fails in turn, and then the power.
fn fail_next(rt: &impl Abort, alloc: Global, host: &Host, told: Told) -> Result<(), AllocError> {
    for call in 0..CALLS + 1 {
        let mut next = host.copied()?;
        let (told, is_made) = fail_at(alloc, &mut next, told, call);
        let lost = lose_each(rt, alloc, &next, told);
        drop(next);
        lost?;
        claim_at(rt, is_made, "a next process's call", call, "none");
    }
    Ok(())
}

// The same of a first process. At 0 no call fails, and all that it wrote is safe.
fn fail_each(rt: &impl Abort, alloc: Global, spoiled: &Host) -> Result<(), AllocError> {
    for call in 0..CALLS + 1 {
        let mut host = spoiled.copied()?;
        let nothing = Told {
            safe: 0,
            written: 1,
        };
        let (told, is_made) = fail_at(alloc, &mut host, nothing, call);
        let failed = fail_next(rt, alloc, &host, told);
        drop(host);
        failed?;
        claim_at(rt, is_made, "a process's call", call, "none");
        claim(rt, call > 0 || told.safe == 3, "all is safe");
    }
    Ok(())
}

// The same over what a failed sync left.
fn fail_over_spoiled(rt: &impl Abort, alloc: Global) -> Result<(), AllocError> {
    let spoiled = spoiled(alloc)?;
    let failed = fail_each(rt, alloc, &spoiled);
    drop(spoiled);
    failed
}

#[test]
fn what_a_sync_covered_is_kept_whichever_calls_fail(rt: HostRuntime) {
    let failed = fail_over_spoiled(&rt, rt.alloc());
    claim(&rt, failed.is_ok(), "that there is memory");
}
