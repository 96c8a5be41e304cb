//! A file that another process has open is tried again.
ghost use Rattle.std.specs.Prelude.{◌+◌, ◌<◌, IfOk};
ghost use Rattle.store_file.specs.declared.draft.TheConstants.{SECTORS_MAX};

use std::alloc::Allocator;
use std::rt::{Clock, Files};
use std::thread;
use std::time::Duration;
use store_file::{HostFile, OpenError, StoreFile, Taken, take};

// How long it waits between two tries, in milliseconds.
const PAUSE: u64 = 50;

// How often it tries in a second.
const TRIES: u32 = 20;

/// Takes the file at the path, as [`store_file::take`] does. Where another process has it open, it is tried again,
/// twenty times a second, for so many seconds: then it is `Busy`. Its other refusals come at once. (No clause says when
/// it tries.)
pub fn take_within<R: Files + Clock, A: Allocator>(
    rt: &R,
    alloc: &A,
    path: &str,
    seconds: u32,
) -> Result<Taken<HostFile<R::File>>, OpenError>
where
    R::File: StoreFile,
    ensures sectors { IfOk result (λ t. (0 < t.sectors) × (t.sectors < SECTORS_MAX + 1)) }
{
    for _ in 0..seconds.saturating_mul(TRIES) {
        match take(rt, alloc, path) {
            Err(OpenError::Busy) => thread::sleep(rt, Duration::from_millis(PAUSE)),
            taken => return taken,
        }
    }
    take(rt, alloc, path)
}
