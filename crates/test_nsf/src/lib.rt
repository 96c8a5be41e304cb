//! Examples of README and of `nsf`, run: one thread makes a store, and many go on with it. Some write what they
//! wait for, and look at both ends of the index. And tests of the crate `headline`, over disks in memory.
//!
//! Four days and a build; and a day that is stopped at each moment of each of its requests, and of its opening, over a
//! disk that loses what was done later. That is done once more where a call of the device fails, and where an
//! allocation is refused. What is found is what a plain program makes of the replies. And a day of clients that is
//! stopped at each moment since its opening began, or while the rest is written out.
//!
//! Stores in files: one that is made and opened again, and files that are refused. What is committed of a store while a
//! transaction changes it, and what one seat sees of what another does. A store that is opened again after its threads,
//! and one of version 1 that lives on.
//!
//! Proved: the clauses of `Device` and `Mortal` for that disk; of the tests safety, and that the contracts suffice for
//! such a caller.
#![tactic(auto)]

#[cfg(test)]
mod busy;
#[cfg(test)]
mod claims;
#[cfg(test)]
mod committed_tests;
#[cfg(test)]
mod days_tests;
#[cfg(test)]
mod ended;
#[cfg(test)]
mod files_tests;
#[cfg(test)]
mod found;
#[cfg(test)]
mod full_index;
#[cfg(test)]
mod led;
#[cfg(test)]
mod many_threads;
#[cfg(test)]
mod moments_tests;
#[cfg(test)]
mod one_thread;
#[cfg(test)]
mod recorded;
#[cfg(test)]
mod seen;
#[cfg(test)]
mod shared_day;
#[cfg(test)]
mod tests;
#[cfg(test)]
mod told;
