//! What can still be read of a store is left alone, and the rest blanked.
ghost use Rattle.std.specs.Prelude.{◌≡◌, ◌⊎◌, ℕ, ◌+◌, ◌<◌, IfErr, IfNone, IfOk, IfSome, OnOk};
ghost use Rattle.sector_device.specs.DevicePast.{OnlyReads};
ghost use Rattle.model.specs.Given.{Given};
ghost use Rattle.gate_log.specs.Area.{Refuses};
ghost use Rattle.flip_image.specs.Store.{IsStore};
ghost use Rattle.store_reader.specs.Contents.{Gives, IsUnreadable};
ghost use Rattle.store_salvage.specs.Salvage.{AreBlanked, IsGivenUp, IsNamedBy, IsNotSalvaged, IsPartOf, IsSalvaged};
ghost use Rattle.store_salvage.specs.Salvage.{NamesNone};

use crate::blank::blank;
use crate::entries::leave_entries;
use crate::part::{Part, part_at};
use flip_image::Halves;
use records::{Error, Geometry};
use sector_device::Device;
use std::alloc::Allocator;
use store_reader::read_store;

/// What was salvaged of a store.
#[derive(Drop)]
pub struct Salvaged<A: Allocator> {
    /// Its halves. Of the current one it is.
    pub halves: Halves,
    /// The parts that are lost, in the order in which they were met.
    pub lost: Vec<Part, A>,
}

// The part that a reader of the store names in its refusal, or none where it gives something.
fn next_damage<D: Device, A: Allocator + Copy>(
    alloc: A,
    device: &mut D,
    halves: &Halves,
) -> Result<Option<Part>, Error>
    requires store { IsStore halves.now.geometry halves.now.current (D.past_of device.old).disk.content }
    ensures whole { IfOk result (λ found. IfNone found ((given : Given)
        × Gives (D.past_of device.old).disk.content halves.now.geometry given)) }
    ensures fits { IfOk result (λ found. IfSome found (IsPartOf halves.now.geometry)) }
    ensures damaged { IfOk result (λ found. IfSome found (λ part. (n : ℕ)
        × IsNamedBy halves.now.geometry halves.now.current part n
        × IsUnreadable (D.past_of device.old).disk.content (Error.Damaged n))) }
    ensures refused { IfErr result (λ e. Refuses (D.failures device.old) (D.failures device.new) e
        ⊎ ((n : ℕ) × (e ≡ Error.Damaged n) × IsUnreadable (D.past_of device.old).disk.content (Error.Damaged n)
        × NamesNone halves.now.geometry halves.now.current n)) }
    ensures reads { OnlyReads (D.past_of device.old) (D.past_of device.new) }
    ensures quiet { OnOk result (D.failures device.new ≡ D.failures device.old) }
{
    let error = match read_store(alloc, device) {
        Ok(_) => return Ok(None),
        Err(error) => error,
    };
    let Error::Damaged { sector } = error else {
        return Err(error);
    };
    let Some(part) = part_at(halves, sector) else {
        return Err(error);
    };
    Ok(Some(part))
}

// More looks than it takes to lose each page, and the log from each slot on, one after the other.
fn looks_at(geometry: Geometry) -> u32
    ensures { geometry.pages + geometry.slots < result }
{
    geometry
        .pages
        .saturating_add(geometry.slots)
        .saturating_add(1)
}

// Blanks parts until what is left gives something.
fn blank_all<D: Device, A: Allocator + Copy>(
    alloc: A,
    device: &mut D,
    halves: &Halves,
) -> Result<Vec<Part, A>, Error>
    requires store { IsStore halves.now.geometry halves.now.current (D.past_of device.old).disk.content }
    ensures blanked { IfOk result (λ lost. AreBlanked halves.now.geometry halves.now.current lost.items
        (D.past_of device.old).disk.content (D.past_of device.new).disk.content) }
    ensures gives { OnOk result ((given : Given)
        × Gives (D.past_of device.new).disk.content halves.now.geometry given) }
    ensures refused { IfErr result (λ e. Refuses (D.failures device.old) (D.failures device.new) e
        ⊎ ((n : ℕ) × (e ≡ Error.Damaged n)
        × IsGivenUp halves.now.geometry halves.now.current (D.past_of device.old).disk.content n)) }
    ensures quiet { OnOk result (D.failures device.new ≡ D.failures device.old) }
{
    let mut lost = Vec::new(alloc);
    for _look in 0..looks_at(halves.geometry()) {
        let Some(part) = next_damage(alloc, device, halves)? else {
            return Ok(lost);
        };
        if blank(device, halves, part).is_err() {
            return Err(Error::DeviceFailed);
        }
        lost.push(part)?;
    }
    Err(Error::Damaged {
        sector: halves.header_sector(),
    })
}

/// Makes what can still be read of the current half of the store on the device a store again. The entries of its index
/// are left out; and as long as a reader refuses what is left with a sector of a page, or with a gate of the log, that
/// page is blanked, or the log from there on (`salvaged`). (That nothing is synced, no clause says, nor what is left
/// where it is refused.)
///
/// The refusals (`refused`): those of `Halves::open`; `Damaged` with the header's sector where that says nothing, or
/// with another sector of the half by which a reader refuses what is left; `NoMemory`; `DeviceFailed`, where the device
/// failed in the call.
pub fn salvage<D: Device, A: Allocator + Copy>(
    alloc: A,
    device: &mut D,
) -> Result<Salvaged<A>, Error>
    ensures salvaged { IfOk result (λ s. IsSalvaged s.halves.geometry s.halves.current s.lost.items
        (D.past_of device.old).disk.content (D.past_of device.new).disk.content) }
    ensures refused { IfErr result (IsNotSalvaged (D.past_of device.old).disk.content (D.failures device.old)
        (D.failures device.new)) }
    ensures quiet { OnOk result (D.failures device.new ≡ D.failures device.old) }
{
    let halves = Halves::open(device)?;
    leave_entries(device, &halves)?;
    let lost = blank_all(alloc, device, &halves)?;
    Ok(Salvaged { halves, lost })
}
