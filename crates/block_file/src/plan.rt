// Where a file has the sectors of a device.
use block_journal::Shape;

/// Where a file has the sectors of a device: eight in a block of data, which a journal keeps behind a table of digests.
#[derive(Clone, Copy, Debug, PartialEq, Eq)]
pub struct Plan {
    /// Where the journal has its parts.
    pub shape: Shape,
    /// How many blocks of data there are.
    pub blocks: u64,
    /// How many sectors the first block has before the first one of the device.
    pub lead: u64,
    /// How many sectors the device has.
    pub sectors: u64,
}
