//! The rows of the table, in pages of slots.
//!
//! Proved: a heap is a map from place to row. `get` and `set` are exact. `least_free` answers the least place that is
//! empty and not held (`free`, `least`), and `HeapFull` just where there is none (`full`). `page_pairs` answers the
//! pair of each row of a page once, in slot order (`pairs`, `each`, `in_slot_order`). `page_slots` answers a page's
//! rows by slot, and `len` how many rows there are. Only tested (`test_tables`): that `page_pairs` and `page_slots`
//! take no memory, and that calls succeed where there is memory.
#![tactic(auto)]

mod heap;
mod page;
mod slot_set;

pub use heap::Heap;
pub use page::HeapPage;
