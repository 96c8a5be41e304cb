//! Stores that are opened, and what is asked of them by name.
use crate::claims::claim;
use crate::contents::Contents;
use crate::disk::Disk;
use crate::store::{OpenStore, StoreMemory};
use records::Error;
use std::process::Abort;

/// The store on the disk, opened, if need be a second time. Without a refusal of memory there is no want of it.
pub fn open<M: StoreMemory>(rt: &impl Abort, memory: M, disk: Disk) -> Result<M::Store, Error> {
    let before = memory.refused();
    match memory.open(disk) {
        Ok(store) => Ok(store),
        Err((error, disk)) => {
            let is_refused = before < memory.refused();
            claim(
                rt,
                error == Error::NoMemory && is_refused,
                "a want of memory",
            );
            open_now(memory, disk)
        }
    }
}

// The store on the disk, opened.
fn open_now<M: StoreMemory>(memory: M, disk: Disk) -> Result<M::Store, Error> {
    match memory.open(disk) {
        Ok(store) => Ok(store),
        Err((error, disk)) => {
            drop(disk);
            Err(error)
        }
    }
}

/// What the store on the disk holds.
pub fn held_on<M: StoreMemory>(rt: &impl Abort, memory: M, disk: Disk) -> Result<Contents, Error> {
    let store = open(rt, memory, disk)?;
    let held = store.contents();
    drop(store.close());
    Ok(held)
}
