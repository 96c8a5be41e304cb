//! Tests of a store under many threads, of one seat to which memory is refused, and of the program `nsf-threads`.
//!
//! Writers, flusher, builder and cleaner share a store and are held at gates, where the flusher alone writes, and where
//! the seats lead; and so over devices that fail. What they leave is compared with their commits, and with what is
//! found after a crash. Those of the program meet devices that fail too. Each loop is called by itself, and an index is
//! dropped while it is built. To a seat whose commits are kept each allocation is refused in turn, call by call, and in
//! one hold of the lock. After a record that the queue refused it looks up; and calls that make no step of the core
//! take no memory. Proved of them is safety.
//!
//! The calls of a seat are a trait that promises nothing (`calls`), which what plays is generic over; each heavy call
//! is made once (`at_seat`). A seat stays beside its number, which is looked at again in the end (`Numbered`). What a
//! test ends with is mostly left (`forget`): to prove that it is let go costs more than the test.
#![tactic(auto)]

#[cfg(test)]
mod at_seat;
#[cfg(test)]
mod calls;
#[cfg(test)]
mod chairs;
#[cfg(test)]
mod claims;
#[cfg(test)]
mod ends;
#[cfg(test)]
mod found;
#[cfg(test)]
mod help;
#[cfg(test)]
mod keyed;
#[cfg(test)]
mod looks;
#[cfg(test)]
mod loop_tests;
#[cfg(test)]
mod loops;
#[cfg(test)]
mod play;
#[cfg(test)]
mod players;
#[cfg(test)]
mod program_tests;
#[cfg(test)]
mod refusal_tests;
#[cfg(test)]
mod requests;
#[cfg(test)]
mod runs;
#[cfg(test)]
mod scene;
#[cfg(test)]
mod scene_tests;
#[cfg(test)]
mod seats;
#[cfg(test)]
mod soloist;
#[cfg(test)]
mod stage;
#[cfg(test)]
mod store;
#[cfg(test)]
mod waits;
