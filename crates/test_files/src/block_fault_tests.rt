// A device in a file of blocks: each write and sync of a process fails in turn, and each of the next one, the power is
// lost, and the file is opened again.
use crate::backing::{Host, Loss, Used};
use crate::claims::claim;
use block_file::Plan;
use block_host::FileBlocks;
use sector_device::{Device, SECTOR_SIZE};
use std::alloc::{AllocError, Global};
use std::process::Abort;

// Two headers, two areas of five blocks, a block of digests, two of data.
const BLOCKS: usize = 15;

const SECTORS: u64 = 16;

// A version takes three blocks of a batch, which has four: no write commits.
const AREA: u64 = 5;

// The sector that each version is written to, and the one, of another block, to which the odd ones are written too.
const EACH: u64 = 0;

const ODD: u64 = 8;

// More than the writes and syncs of a process.
const CALLS: u64 = 24;

static LOSSES: [Loss; 4] = [Loss::Dropped, Loss::Kept, Loss::Torn, Loss::TornDirty];

// The version that a sync covered, or an opening showed, and the last one that was written since.
#[derive(Clone, Copy)]
struct Told {
    safe: u8,
    written: u8,
}

// A device of zeros, all of them safe.
static NOTHING: Told = Told {
    safe: 0,
    written: 0,
};

fn add_all(host: &mut Host) -> Result<(), AllocError> {
    for _ in 0..8 * BLOCKS {
        host.add([0; SECTOR_SIZE], [0; SECTOR_SIZE])?;
    }
    Ok(())
}

// Makes the device. Whether it was made.
fn make(alloc: Global, host: &mut Host) -> bool {
    let Some(plan) = Plan::new(SECTORS, 0, AREA) else {
        return false;
    };
    let Ok(below) = FileBlocks::new(alloc, Used { host }, BLOCKS) else {
        return false;
    };
    match block_file::create(alloc, below, plan) {
        Ok(disk) => {
            drop(disk);
            true
        }
        Err(refused) => {
            drop(refused);
            false
        }
    }
}

fn is_put<D: Device>(disk: &mut D, n: u64, version: u8) -> bool {
    n < disk.sectors() && disk.write(n, &[version; SECTOR_SIZE]).is_ok()
}

// Whether this version is written, and synced.
fn is_committed<D: Device>(disk: &mut D, version: u8) -> bool {
    if !is_put(disk, EACH, version) {
        return false;
    }
    if version % 2 == 1 && !is_put(disk, ODD, version) {
        return false;
    }
    disk.sync().is_ok()
}

// Writes so many versions more, each behind a sync, until a call fails.
fn play<D: Device>(disk: &mut D, before: Told, more: u8) -> Told {
    let mut told = before;
    for _ in 0..more {
        told.written = told.written.saturating_add(1);
        if !is_committed(disk, told.written) {
            return told;
        }
        told.safe = told.written;
    }
    told
}

// The byte of which the sector is full.
fn byte_in<D: Device>(disk: &mut D, n: u64) -> Option<u8> {
    let mut bytes = [0; SECTOR_SIZE];
    if n >= disk.sectors() || disk.read(n, &mut bytes).is_err() {
        return None;
    }
    let first = bytes[0];
    if bytes.iter().all(|byte| *byte == first) {
        Some(first)
    } else {
        None
    }
}

// The last odd version.
fn odd_of(version: u8) -> u8 {
    if version == 0 {
        0
    } else {
        version.saturating_sub(1) | 1
    }
}

// The version of the device, if it holds all of it.
fn version_of<D: Device>(disk: &mut D) -> Option<u8> {
    let version = byte_in(disk, EACH)?;
    let odd = byte_in(disk, ODD)?;
    if odd == odd_of(version) {
        Some(version)
    } else {
        None
    }
}

// Whether a version may be shown: no older one than what was safe.
fn is_left(shown: u8, told: Told) -> bool {
    told.safe <= shown && shown <= told.written
}

// What the opening shows is safe from now on. So many versions more are written.
fn serve<D: Device>(rt: &impl Abort, disk: &mut D, before: Told, more: u8) -> Told {
    match version_of(disk) {
        Some(shown) => {
            claim(
                rt,
                is_left(shown, before),
                "what was safe, or was written since",
            );
            let now = Told {
                safe: shown,
                written: shown,
            };
            play(disk, now, more)
        }
        None => rt.panic("a version is there in part"),
    }
}

// A process opens the file, and writes, until a call fails. Nothing where the file is refused.
fn live(rt: &impl Abort, alloc: Global, host: &mut Host, told: Told, more: u8) -> Option<Told> {
    let Ok(below) = FileBlocks::over(alloc, Used { host }, BLOCKS) else {
        return None;
    };
    match block_file::open(alloc, below) {
        Ok(mut disk) => {
            let told = serve(rt, &mut disk, told, more);
            drop(disk);
            Some(told)
        }
        Err(refused) => {
            drop(refused);
            None
        }
    }
}

// This call of a process fails, from 1, or none at 0. What is told then.
fn fail_at(rt: &impl Abort, alloc: Global, host: &mut Host, before: Told, call: u64) -> Told {
    host.fail_at(call);
    match live(rt, alloc, host, before, 2) {
        Some(told) => told,
        None => before,
    }
}

// The power is lost, and the file is opened once more, where no call fails.
fn lose_each(rt: &impl Abort, alloc: Global, host: &Host, told: Told) -> Result<(), AllocError> {
    for loss in &LOSSES {
        let mut left = host.copied()?;
        left.lose_power(*loss);
        let last = live(rt, alloc, &mut left, told, 0);
        drop(left);
        claim(rt, last.is_some(), "that the file can be opened again");
    }
    Ok(())
}

// The next process goes on over the cache, each of its calls fails in turn, and then the power. At 0 no call fails.
fn fail_next(rt: &impl Abort, alloc: Global, host: &Host, before: Told) -> Result<(), AllocError> {
    for call in 0..CALLS {
        let mut next = host.copied()?;
        let told = fail_at(rt, alloc, &mut next, before, call);
        let lost = lose_each(rt, alloc, &next, told);
        let calls = next.calls();
        drop(next);
        lost?;
        if calls < call {
            return Ok(());
        }
    }
    rt.panic("a next process has more calls")
}

// The same of a first process.
fn fail_each(rt: &impl Abort, alloc: Global, made: &Host) -> Result<(), AllocError> {
    for call in 0..CALLS {
        let mut host = made.copied()?;
        let told = fail_at(rt, alloc, &mut host, NOTHING, call);
        let calls = host.calls();
        let failed = fail_next(rt, alloc, &host, told);
        drop(host);
        failed?;
        claim(rt, call > 0 || told.safe == 2, "all is safe");
        if calls < call {
            return Ok(());
        }
    }
    rt.panic("a first process has more calls")
}

fn fail_in_turn(rt: &impl Abort, alloc: Global) -> Result<(), AllocError> {
    let mut host = Host::new(alloc);
    let done = add_all(&mut host);
    claim(
        rt,
        done.is_ok() && make(alloc, &mut host),
        "that the device is made",
    );
    let failed = fail_each(rt, alloc, &host);
    drop(host);
    failed
}

#[test]
fn what_a_commit_covered_is_kept_whichever_calls_fail(rt: HostRuntime) {
    let failed = fail_in_turn(&rt, rt.alloc());
    claim(&rt, failed.is_ok(), "that there is memory");
}
