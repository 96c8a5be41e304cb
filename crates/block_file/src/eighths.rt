// The eight sectors of a block.
ghost use Rattle.std.specs.Prelude.{◌≡◌, ◌≢◌, ◌<◌, ℕ};
ghost use Rattle.block_file.specs.Sectors.{part};

use block_device::BLOCK_SIZE;
use sector_device::SECTOR_SIZE;

/// The k-th sector of a block.
pub(crate) fn sector_of(block: &[u8; BLOCK_SIZE], k: usize) -> [u8; SECTOR_SIZE]
    requires { k < 8 }
    ensures { result ≡ part block.now k }
{
    let at = SECTOR_SIZE * k;
    let mut sector = [0; SECTOR_SIZE];
    sector.copy_from_slice(&block[at..at + SECTOR_SIZE]);
    sector
}

/// Puts the k-th sector of a block.
pub(crate) fn put_sector(block: &mut [u8; BLOCK_SIZE], k: usize, bytes: &[u8; SECTOR_SIZE])
    requires { k < 8 }
    ensures here { part block.new k ≡ bytes.now }
    ensures others { (j : ℕ) → j ≢ k → part block.new j ≡ part block.old j }
{
    let at = SECTOR_SIZE * k;
    block[at..at + SECTOR_SIZE].copy_from_slice(bytes);
}
