//! What tests of stores begin with: requests, read from the lines of a script, and bytes of sectors, as the format
//! document has them. No call promises anything before it runs.
#![tactic(auto)]

mod bytes;
mod scripts;

pub use bytes::{BUILDING_1, Edit, GROUP, SUPERBLOCK_1, sector_with, write_at};
pub use scripts::{Script, requests, requests_of};
