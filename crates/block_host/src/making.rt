//! Where a new file has the sectors of a device.
ghost use Rattle.std.specs.Prelude.{◌≡◌, ◌+◌, ◌%◌, ◌^◌, ◌≤◌, IfNone, IfSome};
ghost use Rattle.block_file.specs.Header.{CanBeTold};

use block_file::Plan;

// How many blocks an area of the journal has: room for 31 blocks of data in a batch.
const AREA: u64 = 64;

/// Where a new file has a device of so many sectors, in which the sector of this number is the first one of a block.
/// `None` where the sectors are 2^60 or more alone. (How large an area is, no clause says.)
pub fn plan_with(sectors: u64, first: u64) -> Option<Plan>
    ensures told { IfSome result CanBeTold }
    ensures none { IfNone result (2 ^ 60 ≤ sectors) }
    ensures sectors { IfSome result (λ p. p.sectors ≡ sectors) }
    ensures first { IfSome result (λ p. (p.lead + first) % 8 ≡ 0) }
{
    let lead = (8 - first % 8) % 8;
    Plan::new(sectors, lead, AREA)
}
