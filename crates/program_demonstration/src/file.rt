//! The threads over the store in a file.
use crate::found::{Found, look};
use crate::program::work_through;
use block_host::are_blocks;
use program_files::{Refused, refuse_longer};
use program_team::{Listener, NotOpened, Team};
use sector_device::Device;
use std::alloc::Global;
use std::fs::File;
use std::io::Write;
use std::rt::{Clock, Files};
use std::sync::Wait;
use std::thread::Threads;
use store_file::{FileDisk, HostFile, Troubled};

// A disk in a plain file of the system.
type HostDisk = FileDisk<HostFile<File>, Global>;

// Why the threads were refused, with the reason that the disk tells.
fn refused_over<D: Troubled>(error: NotOpened, disk: &D) -> Refused {
    match error {
        NotOpened::Refused(error) => Refused::Store(error).because(disk),
        NotOpened::Unsound => Refused::Unsound,
        NotOpened::NoThread => Refused::NoThread,
    }
}

// Lets the threads work on the store on the disk, and looks at what they left.
fn work_and_look<
    D: Device + Troubled + Send + Drop,
    R: Threads + Wait + Clock + Sync,
    L: Listener + Sync,
    E: Write + Send + Drop,
>(disk: D, writers: u8, team: Team<'_, R, L, E>) -> Result<Found, Refused> {
    let alloc = team.alloc;
    match work_through(disk, writers, team) {
        Ok(disk) => Ok(look(alloc, disk)?),
        Err((error, disk)) => {
            let refused = refused_over(error, &disk);
            drop(disk);
            Err(refused)
        }
    }
}

// Why the threads don't work on what the disk of a file holds.
fn refuse_other(disk: &mut HostDisk) -> Result<(), Refused> {
    if are_blocks(disk.content()) {
        return Err(Refused::InBlocks);
    }
    refuse_longer(disk)
}

// The disk in a plain file.
fn open_plain<R: Files<File = File>>(
    rt: &R,
    alloc: Global,
    path: &str,
) -> Result<HostDisk, Refused> {
    let mut disk = store_file::open(rt, alloc, path)?;
    match refuse_other(&mut disk) {
        Ok(()) => Ok(disk),
        Err(refused) => {
            drop(disk);
            Err(refused)
        }
    }
}

/// Lets the threads work on the store in the file at the path, carries its build to the end, and looks at what is
/// there. The file is locked meanwhile.
pub(crate) fn work_on_file<
    R: Threads + Wait + Clock + Files<File = File> + Sync,
    L: Listener + Sync,
    E: Write + Send + Drop,
>(path: &str, writers: u8, team: Team<'_, R, L, E>) -> Result<Found, Refused> {
    match open_plain(team.rt, team.alloc, path) {
        Ok(disk) => work_and_look(disk, writers, team),
        Err(refused) => {
            drop(team);
            Err(refused)
        }
    }
}
