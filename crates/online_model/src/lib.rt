//! One index beside the rows of a host: an abstract machine on plain data, the steps that the host and the index may
//! make, and what every order of these steps keeps.
//!
//! A host is any program that keeps the rows of a table: a database engine, or a program over a store. It has its own
//! transactions, locks and log, and none of them is in the machine. `IsEnabled` is all that a host owes: it marks the
//! pair that a row has before it changes the row, it puts only a pair that a row has, and each row of a page that it
//! reads for the builder is as it was at some moment since the build began or went on.
//!
//! Proved, for every order of such steps: each visible entry is the pair of a row; as far as the index is built, each
//! row with no unfinished change has its pair visible; a complete index with no unfinished change shows exactly the
//! rows (`each_step`, `every_order`). Wherever the host's log ends, the notes in it give the entries and the life that
//! the index had then, also over a checkpoint whose entries were copied one after another, and the builder may go on
//! (`any_stop`). A worked run shows that the duties can be met (`worked_run`). Nothing here runs: that code makes these
//! steps is the contract of `online_index`.
#![tactic(auto)]

mod laws;
mod life;
mod note;

pub use laws::{any_stop, each_step, every_order, worked_run};
pub use life::Life;
pub use note::Note;
