//! A store, as a handle holds it.
use crate::below::Below;
use program_commands::GuardedStore;
use std::alloc::Global;
use store_file::FileDisk;

/// A store on a disk of C's.
#[derive(Drop)]
pub struct Held {
    pub store: GuardedStore<FileDisk<Below, Global>>,
}
