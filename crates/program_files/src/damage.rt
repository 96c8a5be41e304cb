//! Sectors of a file whose bytes have changed.
ghost use Rattle.std.specs.Prelude.{◌≤◌, ℕ, IfErr, IfNone, IfOk, OnOk};
ghost use Rattle.program_files.specs.Refusals.{IsFailure, IsHarmed};

use crate::refused::Refused;
use block_host::InFile;
use records::Error;
use std::io::Write;
use store_file::Troubled;

// The first damaged sector, from a number on.
fn damaged_from<D: InFile + Troubled>(disk: &mut D, from: u64) -> Result<Option<u64>, Refused>
    ensures whole { IfOk result (λ found. IfNone found ((n : ℕ) → from ≤ n → D.fits disk.old n)) }
    ensures failed { IfErr result IsFailure }
{
    match disk.check(from) {
        Ok(found) => Ok(found),
        Err(_) => Err(Refused::Store(Error::DeviceFailed).because(disk)),
    }
}

/// Refused where a sector is damaged, of which the first is told, or where the device failed (`refused`). Else each
/// sector fits what the file keeps of it (`whole`).
pub fn refuse_damaged<D: InFile + Troubled>(disk: &mut D) -> Result<(), Refused>
    ensures whole { OnOk result ((n : ℕ) → D.fits disk.old n) }
    ensures refused { IfErr result IsHarmed }
{
    match damaged_from(disk, 0)? {
        Some(sector) => Err(Refused::Store(Error::Damaged { sector })),
        None => Ok(()),
    }
}

/// Prints each damaged sector, a line each. Refused where there is one, as [`refuse_damaged`] does.
pub fn write_damaged<D: InFile + Troubled, W: Write>(
    disk: &mut D,
    output: &mut W,
) -> Result<(), Refused> {
    let mut from = 0;
    for _ in 0..u64::MAX {
        let Some(sector) = damaged_from(disk, from)? else {
            break;
        };
        writeln!(output, "damaged sector {sector}")?;
        from = sector.saturating_add(1);
    }
    refuse_damaged(disk)
}
