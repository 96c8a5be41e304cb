//! Limits of what the builder and the changes do.

/// How many attempts the builder makes between two checkpoints.
pub const ATTEMPTS_PER_CHECKPOINT: u32 = 64;

/// How many places of the index a change reserves, where there is an index:
/// no step or undo step of it then lacks room.
pub const PLACES_PER_CHANGE: u32 = 4;
