//! A store is opened, after `format` or after a crash.
ghost use Rattle.std.specs.Prelude.{◌≡◌, ◌≢◌, OnOk, IfOk, IfErr};
ghost use Rattle.record_values.specs.GeometryValue.{GeometryValue};
ghost use Rattle.model.specs.Given.{Given};
ghost use Rattle.gate_log.specs.Area.{Refuses};
ghost use Rattle.store_reader.specs.Contents.{Gives, HasHeader};
ghost use Rattle.nsf_core.specs.Value.{value_of};
ghost use Rattle.restart.specs.Parts.{device_of};
ghost use Rattle.flip_image.specs.Layout.{other};
ghost use Rattle.flip_image.specs.Store.{IsStore};
ghost use Rattle.restart.specs.Reopening.{IsCoreOf, IsTurned, IsOpened, IsEmptied, IsNotOpened, IsUnwritten};
ghost use Rattle.restart.specs.Reopening.{RecoversAnyRun, RefusesNoRun, StaysOfAnyRun};

use crate::Engine;
use crate::parts::EngineParts;
use core_copies::{each_list, load};
use core_model::each_half;
use flip_image::Halves;
use gate_log::LogArea;
use nsf_core::Core;
use records::Error;
use sector_device::{Device, Failed};
use std::alloc::Allocator;
use store_opener::{sync_and_read, write_back, written_back};

/// Opens the store on the device: syncs it, reads it, and takes back what the transactions did that neither committed
/// nor ended. What is left is loaded into a core. Then it is written into the half that wasn't current, with an empty
/// log, and that half is made current (`emptied`); the half that is read is never written. The device is given back
/// with a refusal, and may be opened again.
///
/// At any moment of the call a crash leaves what one before it could, or what gives the same as the device did
/// (`IsTurned`). So a crash within a restart loses nothing that a run had left synced (`stays`).
///
/// `DeviceTooSmall`, `NotFormatted`, `OldVersion` and `Damaged` where the device holds no store, one of version 1, or
/// one that was harmed; none of them comes after a crash of a device that was formatted and then written by this engine
/// alone (`readable`). `NoMemory` comes only where the device holds a store, whose current half begins with a header
/// (`memory`). With each of these the device is synced, and nothing was written (`unwritten`). `DeviceFailed` comes
/// where the device failed in the call, and only then.
pub fn restart<D: Device, A: Allocator + Copy>(
    alloc: A,
    mut device: D,
) -> Result<Engine<D, A>, (Error, D)>
    ensures opened { IfOk result (λ engine. IsOpened D.past_of device engine) }
    ensures emptied { IfOk result (λ engine. IsEmptied D.past_of device engine) }
    ensures refused { IfErr result (λ r. IsNotOpened D.past_of D.failures device r.1 r.0) }
    ensures recovers { IfOk result (λ engine. RecoversAnyRun D.past_of device engine) }
    ensures readable { IfErr result (λ r. RefusesNoRun A D.past_of D.failures device r.1 r.0) }
    ensures stays { IfOk result (λ engine. StaysOfAnyRun A D.past_of device (device_of engine)) }
    ensures stays_refused { IfErr result (λ r. StaysOfAnyRun A D.past_of device r.1) }
    ensures memory { IfErr result (λ r. r.0 ≡ Error.NoMemory → HasHeader (D.past_of device).disk.content) }
    ensures unwritten { IfErr result (λ r. r.0 ≢ Error.DeviceFailed → IsUnwritten D.past_of device r.1) }
    ensures quiet { IfOk result (λ engine. D.failures (device_of engine) ≡ D.failures device) }
{
    each_half();
    each_list();
    written_back();
    match open_core(alloc, &mut device) {
        Ok((core, halves, log)) => {
            let parts = EngineParts::over(alloc, device, core, halves, log);
            Ok(Engine { parts })
        }
        Err(error) => Err((error, device)),
    }
}

// Reads the store, and loads what it gives into a core; and then writes it back.
fn open_core<D: Device, A: Allocator + Copy>(
    alloc: A,
    device: &mut D,
) -> Result<(Core<A>, Halves, LogArea), Error>
    ensures found { IfOk result (λ r. IsCoreOf (D.past_of device.old).disk.content (D.past_of device.new) r.1 r.2
        (value_of r.0)) }
    ensures turned { IsTurned D.past_of device.old device.new }
    ensures flipped { IfOk result (λ r. IsStore r.1.geometry (other r.1.current) (D.past_of device.old).disk.content) }
    ensures empty { IfOk result (λ r. r.2.open_slots ≡ 0) }
    ensures quiet { OnOk result (D.failures device.new ≡ D.failures device.old) }
    ensures refused { IfErr result (IsNotOpened D.past_of D.failures device.old device.new) }
    ensures accepted { (geometry : GeometryValue) (given : Given)
        → Gives (D.past_of device.old).disk.content geometry given
        → IfErr result (Refuses (D.failures device.old) (D.failures device.new)) }
    ensures memory { IfErr result (λ e. e ≡ Error.NoMemory → HasHeader (D.past_of device.old).disk.content) }
{
    let found = sync_and_read(alloc, device)?;
    let core = match load(alloc, &found.restored) {
        Ok(core) => core,
        Err(error) => {
            drop(found);
            return Err(error);
        }
    };
    match write_back(alloc, device, found.halves, found.restored) {
        Ok(made) => Ok((core, made.halves, made.log)),
        Err(Failed) => {
            drop(core);
            Err(Error::DeviceFailed)
        }
    }
}
