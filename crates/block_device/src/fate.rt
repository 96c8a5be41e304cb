// How a crash treats a loose block.

/// What a crash leaves in a loose block.
#[derive(Clone, Copy, Debug, PartialEq, Eq)]
pub enum Fate {
    /// What it held at the last sync.
    Old,
    /// What it held last.
    New,
    /// The first half of what it held last, and the second half of what it held at the last sync.
    Front,
    /// The first half of what it held at the last sync, and the second half of what it held last.
    Back,
    /// Byte i is `(7 * i + 13) mod 256`.
    Junk,
}
