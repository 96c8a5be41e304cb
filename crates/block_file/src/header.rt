// The header of a file of blocks.
ghost use Rattle.std.specs.Prelude.{◌≡◌, ◌+◌, ◌-◌, ◌*◌, ◌^◌, ◌<◌, ℕ, true, Some, None, if◌then◌else◌, slice_index};
ghost use Rattle.std.specs.Prelude.{IfSome};
ghost use Rattle.block_device.specs.Words.{word};
ghost use Rattle.block_journal.specs.Layout.{kept_start};
ghost use Rattle.block_file.specs.Header.{CanBeTold, can_be, plan_for, told_by};
ghost use Rattle.block_file.specs.Plans.{IsPlan};

use crate::Plan;
use block_device::{BLOCK_SIZE, WORDS, spell_words, words_of};
use block_digest::digest;
use block_journal::Shape;
use block_table::table_count;

// The text `NSFBLOCK` as a number.
pub(crate) const TEXT: u64 = 0x4E53_4642_4C4F_434B;

pub(crate) const VERSION: u64 = 2;

// How many bytes the digest of a header is of.
const DIGESTED: usize = BLOCK_SIZE - 8;

// The most sectors of a device.
const SECTORS_MAX: u64 = (1 << 60) - 1;

// What an area can have of blocks, and the first block of sectors that aren't the device's.
const AREA_MIN: u64 = 3;

pub(crate) const AREA_MAX: u64 = 255;

const LEAD_MAX: u64 = 7;

impl Plan {
    /// Where a device of so many sectors is, behind two headers and two areas of so many blocks. Its first block begins
    /// with `lead` sectors that the device doesn't have. `None` where there can't be such a device.
    pub fn new(sectors: u64, lead: u64, area: u64) -> Option<Plan>
        ensures plan { result ≡ (if can_be sectors lead area then Some (plan_for sectors lead area) else None) }
        ensures is { IfSome result IsPlan }
        ensures told { IfSome result CanBeTold }
    {
        if sectors > SECTORS_MAX || lead > LEAD_MAX || area < AREA_MIN || area > AREA_MAX {
            return None;
        }
        let blocks = (lead + sectors + 7) / 8;
        Some(Plan {
            shape: Shape {
                first: 2,
                area,
                kept: table_count(blocks) + blocks,
            },
            blocks,
            lead,
            sectors,
        })
    }

    /// The first sector of the device in a block of data.
    pub fn first_sector(self, n: u64) -> u64
        requires { n < 2 ^ 61 }
        ensures { result ≡ 8 * n - self.lead }
    {
        (8 * n).saturating_sub(self.lead)
    }

    /// How many blocks a file has for it.
    pub fn file_blocks(self) -> u64
        requires { CanBeTold self }
        ensures { result ≡ kept_start self.shape + self.shape.kept }
    {
        self.shape.first + 2 * self.shape.area + self.shape.kept
    }
}

/// The plan that a block tells, if it is a header.
pub fn read_header(block: &[u8; BLOCK_SIZE]) -> Option<Plan>
    ensures told { result ≡ told_by block.now }
    ensures plan { IfSome result IsPlan }
{
    let words = words_of(block);
    if words[0] != TEXT {
        return None;
    }
    if words[1] != VERSION {
        return None;
    }
    let fitting = digest(&block[..DIGESTED]);
    if words[WORDS - 1] != fitting {
        return None;
    }
    Plan::new(words[2], words[3], words[4])
}

// The numbers of the header that tells a plan, but for its digest.
fn numbers_of(plan: Plan) -> [u64; WORDS]
    ensures text { slice_index result 0 ≡ TEXT }
    ensures version { slice_index result 1 ≡ VERSION }
    ensures sectors { slice_index result 2 ≡ plan.sectors }
    ensures lead { slice_index result 3 ≡ plan.lead }
    ensures area { slice_index result 4 ≡ plan.shape.area }
    ensures rest { (i : ℕ) → 4 < i → slice_index result i ≡ 0 }
{
    let mut words = [0; WORDS];
    words[0] = TEXT;
    words[1] = VERSION;
    words[2] = plan.sectors;
    words[3] = plan.lead;
    words[4] = plan.shape.area;
    words
}

/// The header that tells a plan. The numbers that it doesn't need are zero (`rest`).
pub fn spell_header(plan: Plan) -> [u8; BLOCK_SIZE]
    requires { can_be plan.sectors plan.lead plan.shape.area ≡ true }
    ensures told { told_by result ≡ Some (plan_for plan.sectors plan.lead plan.shape.area) }
    ensures rest { (i : ℕ) → 4 < i → i < 511 → word result i ≡ 0 }
{
    let mut words = numbers_of(plan);
    let spelled = spell_words(&words);
    words[WORDS - 1] = digest(&spelled[..DIGESTED]);
    spell_words(&words)
}
