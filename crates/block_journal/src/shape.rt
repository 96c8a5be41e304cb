// Where a journal has its parts.

/// Where the parts of a journal are in its file: two areas, and behind them the blocks that it keeps.
#[derive(Clone, Copy, Debug, PartialEq, Eq)]
pub struct Shape {
    /// The first block of the first area.
    pub first: u64,
    /// How many blocks an area has.
    pub area: u64,
    /// How many blocks are kept.
    pub kept: u64,
}
