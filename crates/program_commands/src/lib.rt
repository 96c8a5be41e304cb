//! A store that is open under a script: whatever device it is on, it serves events one by one, flushes and takes images
//! as one request, and prints what it holds.
//!
//! Proved: each request is one of the engine's own calls, with just the reply that it had (`Serves`, `Flushes`,
//! `TakesImage`), and a dump prints just the rows, the entries and the life that are there. A `GuardedStore` refuses
//! each commit behind a known failure of its device (`ServesGuarded`). `answer_key` changes the one row that has a key,
//! and prints the answer to that (`AnswersKey`). `print_page` prints just the pairs of the page that is asked for, and
//! `print_count` how many there are, or why there is none (`PrintsPage`, `PrintsCount`). A line that asks for one event
//! and is refused changes no row or entry, nor how far the index is (`each_change_is_whole`). Neither: when memory is
//! lacking.
#![tactic(auto)]

mod answer;
mod guarded;
mod keyed;
mod laws;
mod outcome;
mod pages;
mod reply;
mod request;
mod store;

pub use guarded::GuardedStore;
pub use keyed::{KeyChange, KeyRequest};
pub use laws::each_change_is_whole;
pub use outcome::Outcome;
pub use pages::PageRequest;
pub use reply::answer_of;
pub use request::Request;
pub use restart::Event;
pub use store::Store;
