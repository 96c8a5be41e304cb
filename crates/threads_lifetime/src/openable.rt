//! Devices whose store may be opened.
ghost use Rattle.std.specs.Prelude.{◌≡◌, ◌↔◌, ◌⊎◌, ◌<◌, ◌≤◌, ℕ, List, length, Err, IfErr, OnOk};
ghost use Rattle.sector_device.specs.Disk.{Disk, CrashState, IsSynced};
ghost use Rattle.sector_device.specs.DevicePast.{LeavesOnly};
ghost use Rattle.record_values.specs.GeometryValue.{GeometryValue, sectors_of};
ghost use Rattle.records.specs.RecordValue.{RecordValue};
ghost use Rattle.core_model.specs.Histories.{CanOpen, Opened};
ghost use Rattle.flip_image.specs.Store.{AreGatesClosed, IsDeviceFailure, IsFormatted};
ghost use Rattle.flip_image.specs.declared.half.Half.{Half};
ghost use Rattle.restart.specs.Reopening.{IsTurned};
ghost use Rattle.restart.specs.Store.{Past, Survives};
ghost use Rattle.threads_flusher.specs.Part.{GivesBeginning};
ghost use Rattle.shared.specs.Seats.{SeatValue};
ghost use Rattle.threads_lifetime.specs.Closing.{GivesSome};
ghost use Rattle.threads_lifetime.specs.Openings.{IsOpenable, Opens, StaysOpenable};

use flip_image::Halves;
use records::{Error, Geometry};
use restart::nothing_opens;
use sector_device::Device;
use std::alloc::Allocator;
use store_reader::{format_gives_nothing, one_answer};

/// Makes the device a store of this geometry, with no row, no index and no record, which may be opened; all of it is
/// synced.
///
/// `DeviceTooSmall` means that nothing was written. After `DeviceFailed`, and after a crash within the call, the device
/// must be formatted again.
pub fn format_store<D: Device>(device: &mut D, geometry: Geometry) -> Result<(), Error>
    ensures openable { OnOk result (IsOpenable (D.past_of device.new).disk.content) }
    ensures formatted { OnOk result (IsFormatted geometry (D.past_of device.new).disk.content) }
    ensures closed { OnOk result (AreGatesClosed geometry Half.A (D.past_of device.new).disk.content) }
    ensures synced { OnOk result (IsSynced (D.past_of device.new).disk) }
    ensures too_small { (result ≡ Err Error.DeviceTooSmall)
        ↔ (length (D.past_of device.old).disk.content < sectors_of geometry) }
    ensures unchanged { result ≡ Err Error.DeviceTooSmall → device.new ≡ device.old }
    ensures refused { IfErr result (λ e. (e ≡ Error.DeviceTooSmall)
        ⊎ IsDeviceFailure (D.failures device.old) (D.failures device.new) e) }
    ensures quiet { OnOk result (D.failures device.new ≡ D.failures device.old) }
    ensures later { D.failures device.old ≤ D.failures device.new }
{
    format_gives_nothing();
    nothing_opens();
    match Halves::format(device, geometry) {
        Ok(()) => Ok(()),
        Err(error) => Err(error),
    }
}

/// A law: of a device that may be opened, whatever the store opens with is sound: so `open_store` doesn't answer
/// `Unsound`. And one that opens with something sound may be opened.
pub fn sound_or_not()
    ensures sound { (image : CrashState) (o : Opened) → IsOpenable image → Opens image o → CanOpen o }
    ensures openable { (image : CrashState) (o : Opened) → Opens image o → CanOpen o → IsOpenable image }
{
    one_answer();
}

/// A law: what a crash left of a run may be opened.
pub fn left_by_a_run<A: Allocator>()
    ensures { (past : Past A) (floor : ℕ) (image : CrashState) → Survives past floor image → IsOpenable image }
{}

/// A law: what a crash left of a store that threads write may be opened again, while the flusher writes (`flushed`, of
/// what `threads_flusher` and `threads_loops` leave) and at the end (`ended`, of what `finish` leaves, whatever it
/// answers).
pub fn left_by_threads()
    ensures flushed { (o : Opened) (g : GeometryValue) (handed : List RecordValue) (floor : ℕ) (image : CrashState)
        → CanOpen o → g.pages ≡ o.pages → g.entries ≡ o.places → GivesBeginning o g handed floor image
        → IsOpenable image }
    ensures ended { (o : Opened) (g : GeometryValue) (seats : List SeatValue) (popped : List RecordValue) (floor : ℕ)
        (image : CrashState) → g.pages ≡ o.pages → g.entries ≡ o.places → ∥ GivesSome o g seats popped floor image ∥₁
        → IsOpenable image }
{}

/// A law: where whatever a crash leaves of a device may be opened, so may whatever one leaves at any moment of an
/// `open_store` of it (`crashes`), and of the device behind the call (`behind`), whatever that answers: the device is
/// what `opened` and `refused` of `open_store` tell of. One that comes back may be opened at once, if it could be
/// before (`back`). Where all of a device is synced, a crash leaves what it holds (`synced`).
pub fn left_by_an_opening<D: Device>()
    ensures crashes { (before after : _) → StaysOpenable (D.past_of before).disk → IsTurned D.past_of before after
        → LeavesOnly (D.past_of before) (D.past_of after) IsOpenable }
    ensures behind { (before after : _) → StaysOpenable (D.past_of before).disk → IsTurned D.past_of before after
        → StaysOpenable (D.past_of after).disk }
    ensures back { (before after : _) → IsOpenable (D.past_of before).disk.content → IsTurned D.past_of before after
        → IsOpenable (D.past_of after).disk.content }
    ensures synced { (disk : Disk) → IsSynced disk → IsOpenable disk.content → StaysOpenable disk }
{
    one_answer();
}
