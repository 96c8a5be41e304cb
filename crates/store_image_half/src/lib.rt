//! The image of a store in the sectors of a half: life, lists of changes, rows and entries, each in its place. It is
//! read part by part, and refused at the first sector that says nothing; and written part by part, or as a whole.
//!
//! Proved: `read_image` answers just the image that lies there (`read`). But for want of memory and a device that
//! fails, it refuses by `Damaged` with the first sector that is (`refused`). `header_in` answers just the header that a
//! sector says (`found`, `again`). Each write of a part leaves it (`written`), changes its own sectors alone
//! (`outside`), and says what a crash leaves (`within`). By the law `image_in_parts` the parts make an image. Only
//! tested, through a store: parts byte by byte, that none of them syncs, and which calls the device gets. Neither:
//! time.
//!
//! Lemmas about its public words that crates above may cite, in `proofs`: `Bytes`, `PartByPart`, `Readings`, `Told` and
//! `Written`.
#![tactic(auto)]

mod laws;
mod page;
mod parts;
mod pieces;
mod read;
mod sink;
mod source;
mod whole;
mod write;

pub use laws::{fitting_cells, image_in_parts, one_damage, one_image, told_by_its_sectors};
pub use parts::header_in;
pub use read::read_image;
pub use sink::CellSink;
pub use source::{CellSource, SECTOR_ENTRIES};
pub use store_image_parts::{Head, Header};
pub use whole::{write_image, write_rows, write_start};
pub use write::{write_entries, write_header, write_heads, write_list, write_page};
