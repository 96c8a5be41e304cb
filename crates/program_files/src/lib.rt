//! Stores in files: opened and read, made, built, copied, moved to a new file, and salvaged from a damaged one.
//!
//! Proved: that it is safe, and meets what the calls below ask. `copy_disk` leaves the first sectors of one disk on
//! another, all of them safe, and changes nothing else. What a move of a store of version 1 leaves on both disks,
//! `store_moving` promises.
//!
//! `read_disk` tells what a disk's content says of its store: its size, the slots and records behind its last image,
//! the number of its last record. Else it tells what a reader refuses (`refused`). `Refused` says why a file or a store
//! was refused, to `nsf-store` and to `nsf-threads`: a refused file comes to what `refusal_of` says, and a failed
//! device to a reason, or none (`IsBecause`; which one, no clause says). Where `refuse_damaged` is content, each sector
//! fits (`whole`). Where `refuse_longer` is, and the device has not failed, a store of version 2 or 3 is as long as its
//! disk (`fits`). `open_store` opens such a disk alone, as `Store::open` of `program_commands` does (`opened`,
//! `refused`).
//!
//! Only tested: what is said of a file that is no store, or is damaged; that a store of version 2 or 3 is copied as a
//! whole, also one that is open (`copy_beside`), and that the use of a device is ended. The steps below have the
//! promises of `program_commands`, `store_file`, `block_host` and `store_salvage`.
#![tactic(auto)]

mod beside;
mod building;
mod copying;
mod damage;
mod length;
mod making;
mod migration;
mod opening;
mod refused;
mod salvaging;
mod taking;

pub use beside::copy_beside;
pub use building::build_file;
pub use copying::{NotCopied, copy_disk};
pub use damage::{refuse_damaged, write_damaged};
pub use length::refuse_longer;
pub use making::{close, make};
pub use migration::NotMoved;
pub use opening::{Stored, open_numbered, open_store, open_within, read_disk};
pub use refused::{Refused, refuse_disk, refuse_words};
pub use taking::{Taking, take_over};
