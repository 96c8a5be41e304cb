//! How far a transaction is.

/// How far a transaction is with its newest change, and whether it is rolling back.
#[derive(Clone, Copy, Debug, PartialEq, Eq)]
pub enum Progress {
    /// Nothing is owed.
    Ready,
    /// The old entry is marked, and the row is owed.
    OwesRow,
    /// The row is set, and the new entry is owed.
    OwesEntry,
    /// Rolling back, with nothing of the newest change undone.
    Rolling,
    /// Rolling back: the new entry is marked, and the old row is owed.
    UndoesRow,
    /// Rolling back: the old row is set, and the old entry is owed.
    UndoesEntry,
}
