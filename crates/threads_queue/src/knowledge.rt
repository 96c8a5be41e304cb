//! What the holder of one end knows and may do.
use records::Record;
use std::collections::LinkedList;

/// What the holder of one end of the queue knows, and what it may do there. It is for proofs alone: no value of it is
/// ever made.
pub struct Knowledge {
    /// It may push.
    pub pushes: bool,
    /// It may pop.
    pub pops: bool,
    /// All that was pushed, if it may push.
    pub pushed: LinkedList<Record>,
    /// All that was popped, if it may pop.
    pub popped: LinkedList<Record>,
}
