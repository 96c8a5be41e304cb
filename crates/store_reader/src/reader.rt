//! A store is read.
ghost use Rattle.std.specs.Prelude.{◌≡◌, ◌≢◌, ◌⊎◌, ◌↔◌, ◌<◌, ◌≤◌, ℕ, List, [], length, IsTrue, OnOk, IfOk, IfErr};
ghost use Rattle.sector_device.specs.DevicePast.{OnlyReads};
ghost use Rattle.records.specs.RecordValue.{RecordValue};
ghost use Rattle.record_values.specs.GeometryValue.{GeometryValue};
ghost use Rattle.record_values.specs.declared.number.TheConstants.{LAST_NUMBER};
ghost use Rattle.model.specs.Following.{AreFollowing, IsFirstUnfit};
ghost use Rattle.model.specs.Given.{Given};
ghost use Rattle.store_reader.specs.Restored.{given_in};
ghost use Rattle.gate_log.specs.Area.{IsAreaInside, StandsIn, records_of, IsGateOf, Refuses};
ghost use Rattle.store_image_half.specs.Image.{no_cells};
ghost use Rattle.store_image_half.specs.Damage.{SaysSomethingIn, TheHeader, IsUnreadIn};
ghost use Rattle.flip_image.specs.Layout.{header_sector_in};
ghost use Rattle.flip_image.specs.Store.{IsStore, IsStoreIn, HoldsImageIn};
ghost use Rattle.store_reader.specs.Contents.{Gives, GivesIn, HasHeader, HasHeaderIn, IsFound, IsFoundIn, IsUnreadable};
ghost use Rattle.store_reader.specs.Contents.{IsUnreadableIn, IsUntouched, IsUntouchedIn, given_over};

use crate::{ImageCells, Refusal, Restored, Stopped, StoreCells};
use flip_image::Halves;
use gate_log::LogArea;
use records::{Error, Record, Version};
use sector_device::Device;
use std::alloc::Allocator;

/// What a store holds.
#[derive(Drop)]
pub struct Found<A: Allocator> {
    /// Its halves.
    pub halves: Halves,
    /// The log of its current half, with as many open slots as there are groups in it.
    pub log: LogArea,
    /// What the log's records make of the cells of its current half's image, with every unfinished transaction taken
    /// back.
    pub restored: Restored<A>,
    /// Whether it holds nothing: no record, and an image of no cells whose base is 0, as `format` leaves it.
    pub untouched: bool,
}

// The cells of the image of the current half, and whether there are none, with base 0.
fn read_cells<D: Device, A: Allocator + Copy>(
    alloc: A,
    version: Version,
    device: &mut D,
    halves: &Halves,
) -> Result<(StoreCells<A>, bool), Error>
    requires { IsStoreIn version halves.now.geometry halves.now.current (D.past_of device.old).disk.content }
    ensures geometry { IfOk result (λ r. r.0.geometry ≡ halves.now.geometry) }
    ensures imaged { IfOk result (λ r. HoldsImageIn version halves.now.geometry halves.now.current
        (D.past_of device.old).disk.content r.0.last r.0.cells) }
    ensures bare { IfOk result (λ r. IsTrue r.1 ↔ (r.0.last ≡ 0) × (r.0.cells ≡ no_cells)) }
    ensures refused { IfErr result (IsUnreadIn version halves.now.geometry
        (header_sector_in version halves.now.geometry halves.now.current) (D.past_of device.old).disk.content
        (D.failures device.old) (D.failures device.new)) }
    ensures reads { OnlyReads (D.past_of device.old) (D.past_of device.new) }
    ensures quiet { OnOk result (D.failures device.new ≡ D.failures device.old) }
    ensures told { IfErr result (λ e. e ≢ Error.DeviceFailed → D.failures device.new ≡ D.failures device.old) }
    ensures memory { IfErr result (λ e. e ≡ Error.NoMemory
        → SaysSomethingIn version halves.now.geometry (header_sector_in version halves.now.geometry halves.now.current)
        (D.past_of device.old).disk.content TheHeader) }
    ensures later { D.failures device.old ≤ D.failures device.new }
{
    let mut image = ImageCells::new(alloc);
    let base = halves.read_image(alloc, version, device, &mut image)?;
    let bare = base == 0 && image.is_empty();
    Ok((StoreCells::over(image, halves.geometry(), base), bare))
}

// The halves of the store, the cells of the current one's image, and whether there are none, with base 0.
fn open_store<D: Device, A: Allocator + Copy>(
    alloc: A,
    version: Version,
    device: &mut D,
) -> Result<(Halves, StoreCells<A>, bool), Error>
    ensures opened { IfOk result (λ r. IsStoreIn version r.0.geometry r.0.current (D.past_of device.old).disk.content) }
    ensures geometry { IfOk result (λ r. r.1.geometry ≡ r.0.geometry) }
    ensures imaged { IfOk result (λ r. HoldsImageIn version r.0.geometry r.0.current
        (D.past_of device.old).disk.content r.1.last r.1.cells) }
    ensures bare { IfOk result (λ r. IsTrue r.2 ↔ (r.1.last ≡ 0) × (r.1.cells ≡ no_cells)) }
    ensures refused { IfErr result (λ e. Refuses (D.failures device.old) (D.failures device.new) e
        ⊎ IsUnreadableIn version (D.past_of device.old).disk.content e) }
    ensures memory { IfErr result (λ e. e ≡ Error.NoMemory → HasHeaderIn version (D.past_of device.old).disk.content) }
    ensures reads { OnlyReads (D.past_of device.old) (D.past_of device.new) }
    ensures quiet { OnOk result (D.failures device.new ≡ D.failures device.old) }
    ensures told { IfErr result (λ e. e ≢ Error.DeviceFailed → D.failures device.new ≡ D.failures device.old) }
    ensures later { D.failures device.old ≤ D.failures device.new }
{
    let halves = Halves::open_in(version, device)?;
    let (cells, bare) = read_cells(alloc, version, device, &halves)?;
    Ok((halves, cells, bare))
}

// Whether there are no cells, with base 0, and no records behind them.
fn is_untouched(bare: bool, records: &[Record]) -> bool
    ensures { IsTrue result ↔ IsTrue bare × (records.now ≡ []) }
{
    bare && records.is_empty()
}

// What is restored of the cells, once the records are redone over them. Where one is not redone, it is named by its
// index; the index behind them all stands for the taking back, which only no memory stops.
fn redone<A: Allocator + Copy>(
    mut cells: StoreCells<A>,
    records: &[Record],
) -> Result<Restored<A>, Stopped>
    ensures following { OnOk result (AreFollowing cells.geometry.pages cells.last cells.cells records.now) }
    ensures given { IfOk result (λ found. given_in found ≡ given_over cells.last cells.cells records.now) }
    ensures geometry { IfOk result (λ found. found.geometry ≡ cells.geometry) }
    ensures unfit { IfErr result (λ s. s.why ≡ Refusal.Unfit → (s.index < length records.now)
        × IsFirstUnfit cells.geometry.pages cells.last cells.cells records.now s.index) }
{
    if let Err(stopped) = cells.redo_all(records) {
        drop(cells);
        return Err(stopped);
    }
    match cells.restore() {
        Ok(restored) => Ok(restored),
        Err(_) => Err(Stopped {
            index: records.len(),
            why: Refusal::NoMemory,
        }),
    }
}

// Names the gate of the group of a record that is misplaced.
fn misplaced<D: Device, A: Allocator + Copy>(
    alloc: A,
    version: Version,
    device: &mut D,
    log: &LogArea,
    index: usize,
) -> Error
    requires inside { IsAreaInside log.now.area (D.past_of device.old).disk.content }
    requires stands { (groups : List (List RecordValue))
        × StandsIn version log.now (D.past_of device.old).disk.content groups × (index < length (records_of groups)) }
    ensures told { Refuses (D.failures device.old) (D.failures device.new) result
        ⊎ ((sector : ℕ) × (result ≡ Error.Damaged sector) × ((groups : List (List RecordValue))
        → StandsIn version log.now (D.past_of device.old).disk.content groups
        → IsGateOf log.now.area groups index sector)) }
    ensures reads { OnlyReads (D.past_of device.old) (D.past_of device.new) }
    ensures quiet { result ≢ Error.DeviceFailed → D.failures device.new ≡ D.failures device.old }
    ensures later { D.failures device.old ≤ D.failures device.new }
{
    match log.gate_of(alloc, version, device, index) {
        Ok(Some(sector)) => Error::Damaged { sector },
        Ok(None) => unreachable!(),
        Err(error) => error,
    }
}

/// Reads the store of a version on the device, as it is: its superblock, its flip sector, and the current half. The
/// records of that half's log are redone over its image, and what is unfinished then is taken back. Nothing is written,
/// and the caller has synced. Each sector is read once at most, but for those of the log's groups where a record can't
/// follow, whose gate is then looked for.
///
/// The refusals, the first that fits: `DeviceTooSmall`, `NotFormatted`, `OldVersion` and `Damaged` with the
/// superblock's sector, as `Halves::open_in` answers them; `Damaged` with the first sector of the image that says
/// nothing, as `Halves::read_image` names it; `Damaged` with the gate of the log's first slot that can't be; `Damaged`
/// with the gate of the group of the first record that can't follow the ones before it; `Damaged` with the header's
/// sector where there are more entries in the end than the geometry has places. `DeviceFailed` comes at any of these,
/// where the device failed in the call and only then (`told`). `NoMemory` comes behind those of `Halves::open_in`, and
/// behind the header of the image: of a device that holds no store, or a damaged header in its current half, it is
/// never answered (`memory`).
pub fn read_store_in<D: Device, A: Allocator + Copy>(
    alloc: A,
    version: Version,
    device: &mut D,
) -> Result<Found<A>, Error>
    ensures found { IfOk result (λ found. IsFoundIn version
        (D.past_of device.old).disk.content found.restored.geometry found.log (given_in found.restored)) }
    ensures halves { IfOk result (λ found. IsStoreIn version found.halves.geometry found.halves.current
        (D.past_of device.old).disk.content) }
    ensures untouched { IfOk result (λ found. IsTrue found.untouched
        ↔ IsUntouchedIn version (D.past_of device.old).disk.content found.restored.geometry) }
    ensures area { IfOk result (λ found. IsAreaInside found.log.area (D.past_of device.old).disk.content) }
    ensures numbered { IfOk result (λ found. found.restored.last ≤ LAST_NUMBER) }
    ensures accepted { (geometry : GeometryValue) (given : Given)
        → GivesIn version (D.past_of device.old).disk.content geometry given
        → IfErr result (Refuses (D.failures device.old) (D.failures device.new)) }
    ensures refused { IfErr result (λ e. Refuses (D.failures device.old) (D.failures device.new) e
        ⊎ IsUnreadableIn version (D.past_of device.old).disk.content e) }
    ensures memory { IfErr result (λ e. e ≡ Error.NoMemory → HasHeaderIn version (D.past_of device.old).disk.content) }
    ensures reads { OnlyReads (D.past_of device.old) (D.past_of device.new) }
    ensures quiet { OnOk result (D.failures device.new ≡ D.failures device.old) }
    ensures told { IfErr result (λ e. e ≢ Error.DeviceFailed → D.failures device.new ≡ D.failures device.old) }
    ensures later { D.failures device.old ≤ D.failures device.new }
{
    let (halves, cells, bare) = open_store(alloc, version, device)?;
    let geometry = halves.geometry();
    let mut log = LogArea::new(halves.log_first_in(version), u64::from(geometry.slots));
    let records = match log.read_all(alloc, version, device) {
        Ok(records) => records,
        Err(error) => {
            // by a call, which proves how cells are let go once for all exits
            drop(cells);
            return Err(error);
        }
    };
    match redone(cells, &records) {
        Ok(restored) => {
            if restored.entries.len() > geometry.entries as usize {
                drop(restored);
                return Err(Error::Damaged {
                    sector: halves.header_sector_in(version),
                });
            }
            Ok(Found {
                halves,
                log,
                restored,
                untouched: is_untouched(bare, &records),
            })
        }
        Err(stopped) => match stopped.why {
            Refusal::Unfit => Err(misplaced(alloc, version, device, &log, stopped.index)),
            Refusal::NoMemory => Err(Error::NoMemory),
        },
    }
}

/// Reads the store of version 2 on the device, as `read_store_in` does.
pub fn read_store<D: Device, A: Allocator + Copy>(
    alloc: A,
    device: &mut D,
) -> Result<Found<A>, Error>
    ensures found { IfOk result (λ found. IsFound (D.past_of device.old).disk.content found.restored.geometry found.log
        (given_in found.restored)) }
    ensures halves { IfOk result (λ found. IsStore found.halves.geometry found.halves.current
        (D.past_of device.old).disk.content) }
    ensures untouched { IfOk result (λ found. IsTrue found.untouched
        ↔ IsUntouched (D.past_of device.old).disk.content found.restored.geometry) }
    ensures area { IfOk result (λ found. IsAreaInside found.log.area (D.past_of device.old).disk.content) }
    ensures numbered { IfOk result (λ found. found.restored.last ≤ LAST_NUMBER) }
    ensures accepted { (geometry : GeometryValue) (given : Given)
        → Gives (D.past_of device.old).disk.content geometry given
        → IfErr result (Refuses (D.failures device.old) (D.failures device.new)) }
    ensures refused { IfErr result (λ e. Refuses (D.failures device.old) (D.failures device.new) e
        ⊎ IsUnreadable (D.past_of device.old).disk.content e) }
    ensures memory { IfErr result (λ e. e ≡ Error.NoMemory → HasHeader (D.past_of device.old).disk.content) }
    ensures reads { OnlyReads (D.past_of device.old) (D.past_of device.new) }
    ensures quiet { OnOk result (D.failures device.new ≡ D.failures device.old) }
    ensures told { IfErr result (λ e. e ≢ Error.DeviceFailed → D.failures device.new ≡ D.failures device.old) }
    ensures later { D.failures device.old ≤ D.failures device.new }
{
    read_store_in(alloc, Version::Two, device)
}
