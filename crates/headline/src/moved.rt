//! A store of version 1 is moved to a device, and lives through days of requests.
ghost use Rattle.std.specs.Prelude.{◌≡◌, ◌≢◌, IfErr, IfOk, OnOk};
ghost use Rattle.sector_device.specs.DevicePast.{OnlyReads};
ghost use Rattle.restart.specs.Migrating.{IsSmallAnswer, IsTooSmall};
ghost use Rattle.headline.specs.Moved.{HoldsMoved, IsToldLater, IsNotLived};

use crate::lives::{Lived, NotLived, live_behind, unopened};
use crate::{Day, Mortal};
use records::Error;
use restart::{MigrateError, migrate};
use sector_device::Device;
use std::alloc::Allocator;

// What a refusal behind the move is told as.
fn later(error: Error) -> MigrateError
    ensures { IsToldLater error result }
{
    match error {
        Error::NoMemory => MigrateError::NoMemory,
        _ => MigrateError::New(error),
    }
}

/// Moves the store of version 1 on the old device to the new one, and lives through the days there, as [`live_through`]
/// does behind the formatting: what the store then holds is what the old device gave, with the days' kept commits
/// behind it, where a core may begin with that (`holds`). The old device is only read (`kept`).
///
/// A refusal gives the new device back, and the answers of the days that there were. `Old` where the old device failed
/// in the move, or gives nothing by version 1; `New` with `DeviceTooSmall` where the new device has too few sectors.
/// With either of them, and with `NoMemory` in the move, the new one is as it was. Else a core may or may not begin
/// with what the old one gave. Where it may, `New` comes with `DeviceFailed` alone, where the new device's count of
/// failures has risen, in the move or in the last opening; and `NoMemory` in the last opening, where it hasn't
/// (`refused`). Where the old device gives something and the new one has too few sectors for it, that is told, unless
/// the old one failed or memory was wanting (`too_small`, `room`). With any answer but `Old` with `DeviceFailed` the
/// old device has not failed (`told`, `quiet`).
///
/// [`live_through`]: crate::live_through
pub fn live_on<O: Device, D: Mortal, A: Allocator + Copy>(
    alloc: A,
    old: &mut O,
    device: D,
    days: &[Day<A>],
    build: bool,
) -> Result<Lived<D, A>, NotLived<MigrateError, D, A>>
    ensures holds { IfOk result (λ lived. HoldsMoved D.failures (O.past_of old.old).disk.content (D.failures device)
        days.now lived.answers.items build lived.unbuilt lived.engine) }
    ensures kept { OnlyReads (O.past_of old.old) (O.past_of old.new) }
    ensures refused { IfErr result (λ r. IsNotLived D.failures (O.past_of old.old).disk.content
        (D.past_of device).disk.content (O.failures old.old) (O.failures old.new) device days.now r.answers.items
        r.error r.device) }
    ensures room { OnOk result (IsTooSmall (O.past_of old.old).disk.content (D.past_of device).disk.content → ⊥) }
    ensures too_small { IsTooSmall (O.past_of old.old).disk.content (D.past_of device).disk.content
        → IfErr result (λ r. IsSmallAnswer r.error) }
    ensures quiet { OnOk result (O.failures old.new ≡ O.failures old.old) }
    ensures told { IfErr result (λ r. r.error ≢ MigrateError.Old Error.DeviceFailed
        → O.failures old.new ≡ O.failures old.old) }
{
    let engine = match migrate(alloc, old, device) {
        Ok(engine) => engine,
        Err((error, device)) => return Err(unopened(alloc, error, device)),
    };
    let mut device = engine.into_device();
    device.stop_now();
    match live_behind(alloc, device, days, build) {
        Ok(lived) => Ok(lived),
        Err(refusal) => Err(NotLived {
            answers: refusal.answers,
            error: later(refusal.error),
            device: refusal.device,
        }),
    }
}
