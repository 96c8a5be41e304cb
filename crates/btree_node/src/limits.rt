//! How large a tree can be, and how high it is then.

/// The most entries that a tree can have.
pub const ENTRIES_MAX: usize = 268_435_456;

/// The most levels of a tree.
pub const LEVELS_MAX: usize = 7;

/// How many entries take six levels at the most: as many as a large store has room for.
pub const LARGE_ENTRIES_MAX: usize = record_values::LARGE_ENTRIES_MAX as usize;

/// The most levels of a tree of so many entries.
pub const LARGE_LEVELS_MAX: usize = 6;

/// How many entries take four levels at the most: as many as a small store has room for.
pub const SMALL_ENTRIES_MAX: usize = record_values::ENTRIES_MAX as usize;

/// The most levels of a tree of so few entries.
pub const SMALL_LEVELS_MAX: usize = 4;
