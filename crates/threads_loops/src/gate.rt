//! Where a loop can be held.

/// A point that a loop passes.
#[derive(Clone, Copy, Debug, PartialEq, Eq)]
pub enum Point {
    /// Before a group is flushed.
    FlushSync,
    /// After it.
    FlushGate,
    /// Before a chunk of an image is copied.
    CopyStep,
    /// After a page was scanned by the builder.
    BuildScanned,
    /// After the builder placed a pair, or found that it has an entry.
    BuildAttempt,
    /// Before a step of the cleaner.
    CleanStep,
}

/// What is called at each point of a loop, with no lock held. (That it is called, and that no lock is held then, no
/// clause says.)
pub trait Gate {
    fn at(&self, point: Point);
}

/// Holds no loop.
#[derive(Clone, Copy, Debug)]
pub struct NoGate;

impl Gate for NoGate {
    fn at(&self, _point: Point) {}
}
