//! Where in a text of comma-separated fields a byte stands, and a source that is watched for a quote which nothing
//! closes.
//!
//! Proved: a `Watched` source gives the bytes of the one below (`remaining`), and fails once that ends inside a quote,
//! each time. Of what was read of it `is_cut_off` says whether the text ended so, and `passed` counts the bytes. Where
//! a byte stands is read off the bytes before it, as `place_after` says. Once a record has more than `RECORD_MAX` bytes
//! (`is_too_long`), it fails too, and no more of it is read: so what reads records needs room for one that long, and
//! for a read, at the most.
//!
//! Only tested (`test_files`): that a reader of fields quotes by the same rule.
#![tactic(auto)]

mod source;

pub use source::{RECORD_MAX, Watched};
