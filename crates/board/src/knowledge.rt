//! What the holder of one view knows and may do. It is for proofs alone: no value of these types is ever made.
use std::collections::LinkedList;

/// A horizon that the flusher has published, and the mark that it gave to it.
pub struct Note {
    pub horizon: u64,
    pub mark: u64,
}

/// What the holder of one view knows of the board, and what it may do there.
pub struct Knowledge {
    /// It is the flusher's.
    pub flushes: bool,
    /// The flusher's own count: the horizon that it has published.
    pub published: u64,
    /// Each horizon that it has published, with its mark, the newest first.
    pub notes: LinkedList<Note>,
    /// The flusher has said that its device failed.
    pub device_failed: bool,
    /// It is the builder's.
    pub builds: bool,
    /// The builder's own count: the number of attempts that it has published.
    pub attempts: u64,
    /// It may set the stop flag.
    pub may_stop: bool,
    /// Its name among those that may set the stop flag.
    pub name: LinkedList<bool>,
    /// It has set the stop flag.
    pub stops: bool,
    /// The last horizon that it has seen.
    pub horizon: u64,
    /// The last count of attempts that it has seen.
    pub progress: u64,
    /// The last mark that it has read.
    pub mark: u64,
    /// The horizon that it had seen then.
    pub safe: u64,
    /// It has read the failed flag since it last read the horizon.
    pub checked: bool,
    /// It has seen the failed flag set.
    pub failed: bool,
    /// It has seen the stop flag set.
    pub stopped: bool,
}
