//! A device of sectors over a file of blocks that tear: eight sectors in a block, each block with a digest, kept by a
//! journal.
//!
//! Proved of a `BlockDisk`, over any `Blocks`: it is a `Device`, with each of its clauses. From each of its moments to
//! the next, whatever a crash leaves of the file stands, under the premise `IsHonest`, for a crash state of the device
//! at that moment, and tells where the device is, as it did at the opening (`stands`). An opening finds the header,
//! compares each block with its digest, and then puts all blocks in their places (`open`); a header is read as it was
//! spelled (`read_header`, `spell_header`). The file of a new device has zeros, whose digests fit, and two headers that
//! tell where (`lay_out`, `create`). Of the sectors whose block doesn't fit its digest the first is told, and only such
//! a one (`check`). Behind an end the file stands for the device whatever batches are lost (`close`). An opening writes
//! both areas of the journal back before it writes anything else, and no other block (`written_back`,
//! `written_back_refused`). No other call writes any back (`back`). A file that tells no device stays as it is
//! (`left_alone`, `back_alone`). Why a call of a device failed is told by `failed`. Once a commit has failed, each
//! read, write and sync fails, and the file is left alone (`sound`, `left_alone`). Each block of an opened device fits,
//! and goes on fitting (`good`). So, under the premise, what a crash leaves can be opened (`opens`, `again`), and is
//! refused for want of memory or as the file failed, alone (`only`). A law: bytes that changed while a file wasn't open
//! don't fit, unless they have the digest that they had (`changes_are_told`). A file with damaged blocks can be opened
//! too, to tell which (`open_uncompared`).
//!
//! Neither: the premise; that a file is opened where there is memory; that a call which may fail ever succeeds.
#![tactic(auto)]

mod creating;
mod disk;
mod eighths;
mod header;
mod laws;
mod making;
mod opening;
mod parts;
mod plan;
mod sectors;
mod settling;
mod uncompared;

pub use creating::create;
pub use disk::BlockDisk;
pub use header::{read_header, spell_header};
pub use laws::changes_are_told;
pub use making::lay_out;
pub use opening::{FileError, Refused, has_room, open, read_plan};
pub use parts::{DiskParts, Held};
pub use plan::Plan;
pub use uncompared::open_uncompared;
