//! What a seat did to the index.

use records::RecordNumber;

/// What a seat did to the index, with the number of the record that tells of it.
#[derive(Clone, Copy, Debug, PartialEq, Eq)]
pub enum Turn {
    /// It created the index.
    Created(RecordNumber),
    /// It dropped the index.
    Dropped(RecordNumber),
}
