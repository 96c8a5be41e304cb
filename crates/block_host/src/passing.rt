// Blocks go to what is below as sectors, and come from there.
ghost use Rattle.std.specs.Prelude.{◌≡◌, length};

use block_device::BLOCK_SIZE;
use sector_device::SECTOR_SIZE;
use std::io;
use store_file::Stored;

/// The sectors of a block.
pub(crate) const SECTORS: u64 = 8;

/// Reads as many blocks as there is room for, from the first one's number on.
pub(crate) fn get_blocks<F: Stored>(
    below: &mut F,
    first: u64,
    run: &mut [[u8; BLOCK_SIZE]],
) -> io::Result<()>
    ensures { length run.new ≡ length run.old }
{
    let (sectors, _) = run.as_flattened_mut().as_chunks_mut::<SECTOR_SIZE>();
    below.get_run(first.saturating_mul(SECTORS), sectors)
}

/// Writes these blocks, from the first one's number on.
pub(crate) fn put_blocks<F: Stored>(
    below: &mut F,
    first: u64,
    run: &[[u8; BLOCK_SIZE]],
) -> io::Result<()> {
    let (sectors, _) = run.as_flattened().as_chunks::<SECTOR_SIZE>();
    below.put_run(first.saturating_mul(SECTORS), sectors)
}
