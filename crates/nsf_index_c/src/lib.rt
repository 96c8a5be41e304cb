//! One index of a host's table, for C: the calls of `online_index` under a handle.
//!
//! Each call that changes the index appends the notes of what it did to a list under the handle, from which the host
//! takes them as bytes (`nsf_index_records`) for its log. Room for them is made before anything is done, so that none
//! is lost.
#![tactic(auto)]

mod building;
mod change;
mod changing;
mod cleaning;
mod handle;
mod held;
mod loose;
mod numbers;
mod opening;
mod pair;
mod pointer;
mod reading;
mod recording;

pub use building::{Built, nsf_index_build, nsf_index_take_page, nsf_index_wants_page};
pub use change::Change;
pub use changing::{nsf_index_apply, nsf_index_mark, nsf_index_prepare, nsf_index_put};
pub use cleaning::{Cleaned, nsf_index_clean, nsf_index_next_marked};
pub use handle::Handle;
pub use held::Held;
pub use opening::{
    nsf_index_close, nsf_index_create, nsf_index_empty, nsf_index_redo, nsf_index_reopen,
    nsf_index_version,
};
pub use pair::{ChangeOfC, Cursor, PairOfC};
pub use pointer::Pointer;
pub use reading::{
    Stat, nsf_index_find, nsf_index_get, nsf_index_life, nsf_index_page, nsf_index_stat,
};
pub use recording::{
    FRAME_MAX, Spelled, nsf_index_records, nsf_index_reserve, nsf_index_save, nsf_index_save_life,
};
