//! Files of the system as files of blocks, and the devices in them.
//!
//! Proved of a `FileBlocks`, for whatever is below: the clauses of `Blocks`, over a mirror in memory; and that once a
//! write, a sync or a `keep` of one has failed, each later one fails (`sound`, `failed`). Proved of a device
//! that is made in a file: it has the sectors that were asked for, of zeros, all of them synced (`create_disk`). Proved
//! of one that is opened: it is the one that the file told as it was read, and each block of it fitted its digest. Both
//! areas of its journal were written back before anything else was, and none is needed (`device_in`). Proved of a
//! device in a file of either kind (`FileDevice`): it is that device (the clauses of `Device`); a plain file doesn't
//! show a file of blocks (`told`), and one of blocks shows one (`shown`) and told the device (`opened`), which holds
//! what the file stood for, also where it is only read (`read`). Of a file of blocks the first damaged sector is told,
//! and only such a one (`check`); its use is ended as the device's (`end`). One that is opened or read is synced.
//!
//! Trusted: that a file holds what was written and synced; that writing a block harms no other one, and writing one
//! back harms it only where the file has other bytes. No clause says that the mirror holds what is below, that a write,
//! a sync or a `keep` is passed on to that, or that nothing reaches it behind a failure. Nor that a file of blocks is
//! synced before it is read, that a new file's name was free, or that a refused one is removed. Nor that what is read
//! alone is not written, why an opening is refused and what that leaves of the file (`block_file::open` has it), which
//! file is opened, taken or made (that it has the path's name), or when a file that is in use is tried again. Only
//! tested (`test_files`): the verbs of `nsf-store` on such files, whole and harmed; that what was committed is kept,
//! whichever calls of what is below fail.
#![tactic(auto)]

mod device;
mod error;
mod held;
mod kinds;
mod making;
mod mirror;
mod opening;
mod passing;
mod waiting;

pub use device::{FileDevice, InFile};
pub use error::DiskError;
pub use kinds::{
    HeldDevice, OpenDevice, ReadDevice, are_blocks, device_in, hold_device, hold_whole_device,
    open_device, read_device,
};
pub use making::plan_with;
pub use mirror::FileBlocks;
pub use opening::{HostDisk, create, create_disk};
pub use waiting::take_within;
