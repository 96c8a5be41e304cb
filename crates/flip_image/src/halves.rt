//! A store on a device: formatted and opened.
ghost use Rattle.std.specs.Prelude.{◌≡◌, ◌≢◌, ◌⊎◌, ◌↔◌, ◌+◌, ◌*◌, ◌^◌, ◌≤◌, ◌<◌, length, OnOk, OnErr, IfOk, IfErr};
ghost use Rattle.sector_device.specs.Disk.{sector, IsSynced, SameOutside};
ghost use Rattle.sector_device.specs.DevicePast.{OnlyReads, LeavesOnly, CountsFailure};
ghost use Rattle.sector_device.specs.Values.{zero_sector};
ghost use Rattle.record_values.specs.GeometryValue.{GeometryValue, IsGeometry, sectors_in, sectors_of};
ghost use Rattle.store_image_half.specs.Image.{no_cells};
ghost use Rattle.store_image_half.specs.Layout.{image_end, image_end_in};
ghost use Rattle.store_image_half.specs.Damage.{SaysSomethingIn, TheHeader, IsUnreadIn};
ghost use Rattle.flip_image.specs.Layout.{other, header_sector_in, header_sector, log_first_in, log_first};
ghost use Rattle.flip_image.specs.Store.{Names, flip_sector, IsFlipping, IsSuperblockIn, IsStore, IsStoreIn};
ghost use Rattle.flip_image.specs.Store.{HoldsImageIn, IsFormatted, AreGatesClosed, AreLogGatesZero, IsFormatSector};
ghost use Rattle.flip_image.specs.Store.{IsRefused, IsRefusedIn, IsSuperblockRefused};
ghost use Rattle.flip_image.specs.Store.{IsDeviceFailure};

use crate::flip::write_flip_sector;
use crate::half::{FLIP_SECTOR, Half};
use crate::superblock::{SUPERBLOCK_SECTOR, geometry_of, superblock};
use records::{
    Error, FRONT_SECTORS, Geometry, HEADER_SECTORS, HEADS_SECTORS, PAGE_SECTORS, SLOT_SECTORS,
    Version,
};
use sector_device::{Device, Failed, SECTOR_SIZE, is_marked, write_zeros, zero_sector};
use std::alloc::Allocator;
use std::marker::Model;
use store_image_half::{CellSink, read_image};

/// The two halves of a store, as its superblock and its flip sector say: how large they are, and which one is current.
#[derive(Clone, Copy, Debug, PartialEq, Eq)]
pub struct Halves {
    geometry: Geometry,
    current: Half,
}

impl Model for Halves {
    ghost use Rattle.flip_image.specs.Layout.{HalvesValue};

    ghost Value = { HalvesValue };

    ghost view = { λ h. record { geometry = h.geometry; current = h.current } };

    ghost inverse = { λ h. record { geometry = h.geometry; current = h.current } };
}

impl Halves {
    /// Makes the device a store of this geometry with no row, no index and no record: half A is current, its image is
    /// fresh, its log is empty, and all of it is synced. The flip sector and the gates of half A are zeros. Half B
    /// stays as it is.
    ///
    /// `DeviceTooSmall` means that nothing was written. After `DeviceFailed`, and after a crash within the call, the
    /// device must be formatted again.
    pub fn format<D: Device>(device: &mut D, geometry: Geometry) -> Result<(), Error>
        ensures formatted { OnOk result (IsFormatted geometry (D.past_of device.new).disk.content) }
        ensures closed { OnOk result (AreGatesClosed geometry Half.A (D.past_of device.new).disk.content) }
        ensures flip { OnOk result (sector (D.past_of device.new).disk.content FLIP_SECTOR ≡ zero_sector) }
        ensures gates { OnOk result (AreLogGatesZero geometry Half.A (D.past_of device.new).disk.content) }
        ensures synced { OnOk result (IsSynced (D.past_of device.new).disk) }
        ensures outside { SameOutside (IsFormatSector geometry) (D.past_of device.old).disk.content
            (D.past_of device.new).disk.content }
        ensures too_small { (result ≡ Err Error.DeviceTooSmall)
            ↔ (length (D.past_of device.old).disk.content < sectors_of geometry) }
        ensures unchanged { result ≡ Err Error.DeviceTooSmall → device.new ≡ device.old }
        ensures refused { IfErr result (λ e. (e ≡ Error.DeviceTooSmall)
            ⊎ IsDeviceFailure (D.failures device.old) (D.failures device.new) e) }
        ensures quiet { OnOk result (D.failures device.new ≡ D.failures device.old) }
        ensures later { D.failures device.old ≤ D.failures device.new }
    {
        let needed = geometry.sectors();
        if device.sectors() < needed {
            return Err(Error::DeviceTooSmall);
        }
        if write_store(device, geometry).is_err() {
            return Err(Error::DeviceFailed);
        }
        Ok(())
    }

    /// The halves of the store of a version on the device, by its superblock and its flip sector. Nothing is written.
    ///
    /// `DeviceTooSmall` where the device has fewer sectors than a superblock and a flip sector take; else
    /// `NotFormatted` where the title is another; else `OldVersion` where an older version stands behind it, whatever
    /// follows; else `Damaged` with the superblock's sector where that is none; else `DeviceTooSmall` where the device
    /// has fewer sectors than the geometry needs. `DeviceFailed` where the device failed in the call, and only then.
    pub fn open_in<D: Device>(version: Version, device: &mut D) -> Result<Self, Error>
        ensures opened { IfOk result (λ halves. IsStoreIn version halves.geometry halves.current
            (D.past_of device.old).disk.content) }
        ensures store { (g : GeometryValue) (half : Half) → IsStoreIn version g half (D.past_of device.old).disk.content
            → IfOk result (λ halves. halves ≡ record { geometry = g; current = half }) }
        ensures accepted { (g : GeometryValue) (half : Half)
            → IsStoreIn version g half (D.past_of device.old).disk.content
            → IfErr result (IsDeviceFailure (D.failures device.old) (D.failures device.new)) }
        ensures refused { IfErr result (λ e. IsRefusedIn version (D.past_of device.old).disk.content e
            ⊎ IsDeviceFailure (D.failures device.old) (D.failures device.new) e) }
        ensures reads { OnlyReads (D.past_of device.old) (D.past_of device.new) }
        ensures quiet { OnOk result (D.failures device.new ≡ D.failures device.old) }
        ensures told { IfErr result (λ e. e ≢ Error.DeviceFailed → D.failures device.new ≡ D.failures device.old) }
        ensures later { D.failures device.old ≤ D.failures device.new }
    {
        if device.sectors() < FRONT_SECTORS {
            return Err(Error::DeviceTooSmall);
        }
        let geometry = read_superblock(version, device)?;
        if device.sectors() < geometry.sectors_in(version) {
            return Err(Error::DeviceTooSmall);
        }
        let current = read_flip_sector(device)?;
        Ok(Halves { geometry, current })
    }

    /// The halves of the store of version 2 on the device, as `open_in` answers them.
    pub fn open<D: Device>(device: &mut D) -> Result<Self, Error>
        ensures opened { IfOk result (λ halves. IsStore halves.geometry halves.current
            (D.past_of device.old).disk.content) }
        ensures store { (g : GeometryValue) (half : Half) → IsStore g half (D.past_of device.old).disk.content
            → IfOk result (λ halves. halves ≡ record { geometry = g; current = half }) }
        ensures accepted { (g : GeometryValue) (half : Half) → IsStore g half (D.past_of device.old).disk.content
            → IfErr result (IsDeviceFailure (D.failures device.old) (D.failures device.new)) }
        ensures refused { IfErr result (λ e. IsRefused (D.past_of device.old).disk.content e
            ⊎ IsDeviceFailure (D.failures device.old) (D.failures device.new) e) }
        ensures reads { OnlyReads (D.past_of device.old) (D.past_of device.new) }
        ensures quiet { OnOk result (D.failures device.new ≡ D.failures device.old) }
        ensures told { IfErr result (λ e. e ≢ Error.DeviceFailed → D.failures device.new ≡ D.failures device.old) }
        ensures later { D.failures device.old ≤ D.failures device.new }
    {
        Halves::open_in(Version::Two, device)
    }

    /// Reads the image of the current half of a store of a version into an empty sink. The answer is the image's base,
    /// the number of the last record made as it began. Nothing is written.
    ///
    /// `Damaged` names the first sector with a part that says nothing: the header, the transaction heads, an undo item,
    /// the first sector of a page, or an entry. `DeviceFailed` where the device failed in the call, and only then.
    /// `NoMemory` where there is no memory for the cells; a damaged header is told before any is wanted (`memory`).
    pub fn read_image<D: Device, S: CellSink, A: Allocator + Copy>(
        &self,
        alloc: A,
        version: Version,
        device: &mut D,
        sink: &mut S,
    ) -> Result<u64, Error>
        requires empty { S.cells sink.old ≡ no_cells }
        requires inside { sectors_in version self.now.geometry ≤ length (D.past_of device.old).disk.content }
        ensures read { IfOk result (λ base. HoldsImageIn version self.now.geometry self.now.current
            (D.past_of device.old).disk.content base (S.cells sink.new)) }
        ensures refused { IfErr result (IsUnreadIn version self.now.geometry
            (header_sector_in version self.now.geometry self.now.current) (D.past_of device.old).disk.content
            (D.failures device.old) (D.failures device.new)) }
        ensures reads { OnlyReads (D.past_of device.old) (D.past_of device.new) }
        ensures quiet { OnOk result (D.failures device.new ≡ D.failures device.old) }
        ensures told { IfErr result (λ e. e ≢ Error.DeviceFailed → D.failures device.new ≡ D.failures device.old) }
        ensures memory { IfErr result (λ e. e ≡ Error.NoMemory
            → SaysSomethingIn version self.now.geometry (header_sector_in version self.now.geometry self.now.current)
            (D.past_of device.old).disk.content TheHeader) }
        ensures later { D.failures device.old ≤ D.failures device.new }
    {
        let first = self.header_sector_in(version);
        read_image(alloc, version, device, self.geometry, first, sink)
    }

    /// Makes the other half current, whose image and log must be whole: syncs, writes the flip sector, and syncs. The
    /// flip sector is then 512 zeros for half A, and for half B `a5` and 511 zeros (`sector`).
    ///
    /// A crash leaves what it might leave before, until all is synced, and from then on that with any bytes in the flip
    /// sector, so with one of the halves current. After `DeviceFailed` either may be, and may change at a crash until
    /// the device is synced and opened again.
    pub fn flip<D: Device>(&mut self, device: &mut D) -> Result<(), Error>
        requires inside { FRONT_SECTORS ≤ length (D.past_of device.old).disk.content }
        ensures flipped { OnOk result (self.new ≡ record {
          geometry = self.old.geometry;
          current = other self.old.current;
        }) }
        ensures sector { OnOk result (sector (D.past_of device.new).disk.content FLIP_SECTOR
            ≡ flip_sector self.new.current) }
        ensures named { OnOk result (Names (sector (D.past_of device.new).disk.content FLIP_SECTOR) self.new.current) }
        ensures synced { OnOk result (IsSynced (D.past_of device.new).disk) }
        ensures outside { SameOutside (λ n. n ≡ FLIP_SECTOR) (D.past_of device.old).disk.content
            (D.past_of device.new).disk.content }
        ensures any_moment { LeavesOnly (D.past_of device.old) (D.past_of device.new)
            (IsFlipping (D.past_of device.old).disk) }
        ensures err { OnErr result (self.new ≡ self.old) }
        ensures refused { IfErr result (IsDeviceFailure (D.failures device.old) (D.failures device.new)) }
        ensures quiet { OnOk result (D.failures device.new ≡ D.failures device.old) }
        ensures later { D.failures device.old ≤ D.failures device.new }
    {
        let next = self.current.other();
        if write_flip_sector(device, next).is_err() {
            return Err(Error::DeviceFailed);
        }
        self.current = next;
        Ok(())
    }

    /// How large the store is.
    pub fn geometry(&self) -> Geometry
        ensures { result ≡ self.now.geometry }
    {
        self.geometry
    }

    /// The half that is current.
    pub fn current(&self) -> Half
        ensures { result ≡ self.now.current }
    {
        self.current
    }

    /// The sector of the header of the current half's image in a version, which ends within the store.
    pub fn header_sector_in(&self, version: Version) -> u64
        ensures value { result ≡ header_sector_in version self.now.geometry self.now.current }
        ensures inside { image_end_in version self.now.geometry result ≤ sectors_in version self.now.geometry }
        ensures number { image_end_in version self.now.geometry result < 2 ^ 64 }
    {
        self.current.header_sector_in(version, self.geometry())
    }

    /// The sector of the header of the current half's image in version 2.
    pub fn header_sector(&self) -> u64
        ensures { result ≡ header_sector self.now.geometry self.now.current }
    {
        self.current.header_sector(self.geometry)
    }

    /// The sector of the header of the other half's image, which ends within the store.
    pub(crate) fn idle_first(&self) -> u64
        ensures value { result ≡ header_sector self.now.geometry (other self.now.current) }
        ensures inside { image_end self.now.geometry result ≤ sectors_of self.now.geometry }
        ensures number { image_end self.now.geometry result < 2 ^ 64 }
    {
        self.current.other().header_sector(self.geometry())
    }

    /// The first sector of the current half's log in a version, which has the geometry's slots and ends within the
    /// store.
    pub fn log_first_in(&self, version: Version) -> u64
        ensures value { result ≡ log_first_in version self.now.geometry self.now.current }
        ensures inside { result + SLOT_SECTORS * self.now.geometry.slots ≤ sectors_in version self.now.geometry }
    {
        self.current.log_first_in(version, self.geometry)
    }

    /// The first sector of the current half's log in version 2.
    pub fn log_first(&self) -> u64
        ensures value { result ≡ log_first self.now.geometry self.now.current }
        ensures inside { result + SLOT_SECTORS * self.now.geometry.slots ≤ sectors_of self.now.geometry }
    {
        self.current.log_first(self.geometry)
    }
}

// Writes what `format` writes, and syncs.
fn write_store<D: Device>(device: &mut D, geometry: Geometry) -> Result<(), Failed>
    requires { sectors_of geometry ≤ length (D.past_of device.old).disk.content }
    ensures formatted { OnOk result (IsFormatted geometry (D.past_of device.new).disk.content) }
    ensures closed { OnOk result (AreGatesClosed geometry Half.A (D.past_of device.new).disk.content) }
    ensures flip { OnOk result (sector (D.past_of device.new).disk.content FLIP_SECTOR ≡ zero_sector) }
    ensures gates { OnOk result (AreLogGatesZero geometry Half.A (D.past_of device.new).disk.content) }
    ensures synced { OnOk result (IsSynced (D.past_of device.new).disk) }
    ensures outside { SameOutside (IsFormatSector geometry) (D.past_of device.old).disk.content
        (D.past_of device.new).disk.content }
    ensures counts { CountsFailure (D.failures device.old) (D.failures device.new) result }
{
    let zeros = zero_sector();
    device.write(SUPERBLOCK_SECTOR, &superblock(geometry))?;
    device.write(FLIP_SECTOR, &zeros)?;
    let header = Half::A.header_sector(geometry);
    write_zeros(device, header, 1, HEADER_SECTORS + HEADS_SECTORS)?;
    let pages = Half::A.pages_first(geometry);
    write_zeros(device, pages, 1, PAGE_SECTORS * u64::from(geometry.pages))?;
    let log = Half::A.log_first(geometry);
    write_zeros(device, log, SLOT_SECTORS, u64::from(geometry.slots))?;
    device.sync()
}

// The geometry in the superblock.
fn read_superblock<D: Device>(version: Version, device: &mut D) -> Result<Geometry, Error>
    requires { FRONT_SECTORS ≤ length (D.past_of device.old).disk.content }
    ensures limits { IfOk result IsGeometry }
    ensures found { IfOk result (λ geometry. IsSuperblockIn version geometry
        (sector (D.past_of device.old).disk.content SUPERBLOCK_SECTOR)) }
    ensures refused { IfErr result (λ e. IsDeviceFailure (D.failures device.old) (D.failures device.new) e
        ⊎ IsSuperblockRefused version (D.past_of device.old).disk.content e) }
    ensures reads { OnlyReads (D.past_of device.old) (D.past_of device.new) }
    ensures quiet { OnOk result (D.failures device.new ≡ D.failures device.old) }
    ensures told { IfErr result (λ e. e ≢ Error.DeviceFailed → D.failures device.new ≡ D.failures device.old) }
    ensures later { D.failures device.old ≤ D.failures device.new }
{
    let mut bytes = [0; SECTOR_SIZE];
    if device.read(SUPERBLOCK_SECTOR, &mut bytes).is_err() {
        return Err(Error::DeviceFailed);
    }
    geometry_of(version, &bytes)
}

// The half that the flip sector names.
fn read_flip_sector<D: Device>(device: &mut D) -> Result<Half, Error>
    requires { FRONT_SECTORS ≤ length (D.past_of device.old).disk.content }
    ensures found { IfOk result (Names (sector (D.past_of device.old).disk.content FLIP_SECTOR)) }
    ensures refused { IfErr result (IsDeviceFailure (D.failures device.old) (D.failures device.new)) }
    ensures reads { OnlyReads (D.past_of device.old) (D.past_of device.new) }
    ensures quiet { OnOk result (D.failures device.new ≡ D.failures device.old) }
    ensures told { IfErr result (λ e. e ≢ Error.DeviceFailed → D.failures device.new ≡ D.failures device.old) }
    ensures later { D.failures device.old ≤ D.failures device.new }
{
    let mut bytes = [0; SECTOR_SIZE];
    if device.read(FLIP_SECTOR, &mut bytes).is_err() {
        return Err(Error::DeviceFailed);
    }
    if is_marked(&bytes) {
        Ok(Half::B)
    } else {
        Ok(Half::A)
    }
}
