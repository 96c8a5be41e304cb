//! The area of a log.
ghost use Rattle.std.specs.Prelude.{◌≡◌, ◌≢◌, ◌⊎◌, ◌↔◌, ◌+◌, ◌*◌, ◌^◌, ◌≤◌, ◌<◌, ◌++◌, ◌∷◌, [], ℕ, List, false, true};
ghost use Rattle.std.specs.Prelude.{length, OnOk, OnErr, IfOk, IfErr, MatchOption};
ghost use Rattle.sector_device.specs.Disk.{CrashState, sector, IsSynced, IsCrashState, SameOutside};
ghost use Rattle.sector_device.specs.DevicePast.{RunsWithin, OnlyReads, LeavesOnly, CountsFailure, Rises};
ghost use Rattle.sector_device.specs.Values.{marked_sector};
ghost use Rattle.records.specs.RecordValue.{RecordValue};
ghost use Rattle.gate_log.specs.Group.{FitsGroup, IsGroup, IsSpelledGroup};
ghost use Rattle.gate_log.specs.Area.{gate, InArea, InSlot, IsGate, IsOpen, IsAreaInside, AreGatesZero, HoldsGroups};
ghost use Rattle.gate_log.specs.Area.{HoldsGroupsIn, Stands, StandsIn, records_of, IsGateOf, IsAppended};
ghost use Rattle.gate_log.specs.Area.{IsFirstDamagedSlotIn, Refuses};

use crate::group::spell;
use crate::slot::{is_open, read_group, write_group};
use records::{Error, Record, SLOT_SECTORS, Version};
use sector_device::{Device, Failed, write_zeros};
use std::alloc::Allocator;
use std::marker::Model;

/// What became of a group that was to be added.
#[derive(Clone, Copy, Debug, PartialEq, Eq)]
pub enum Appended {
    /// It is in the log and synced: each crash from now on leaves it there.
    Done,
    /// Every slot is open. Nothing was written.
    Full,
}

/// An area of a device for a log: slots of eight sectors each, one for each group of records. A slot is a gate and a
/// body of seven sectors (the format document, "Log"), and the open slots come first.
///
/// The value knows where the area is, and how many of its slots `read_all` or `clear` found open, with those that
/// `append` opened since. It holds no records.
#[derive(Clone, Copy, Debug, PartialEq, Eq)]
pub struct LogArea {
    first: u64,
    slots: u64,
    open_slots: u64,
}

impl Model for LogArea {
    ghost use Rattle.std.specs.Prelude.{◌≤◌, ◌+◌, ◌*◌, ◌<◌, ◌^◌};
    ghost use Rattle.record_values.specs.declared.geometry.TheConstants.{SLOT_SECTORS};
    ghost use Rattle.gate_log.specs.Area.{Log};

    ghost Value = { Log };

    ghost view = { λ l. record { area = record { first = l.first; slots = l.slots }; open_slots = l.open_slots } };

    ghost invariant = { λ l. (l.first + SLOT_SECTORS * l.slots < 2 ^ 64) × (l.open_slots ≤ l.slots) };

    ghost inverse = { λ l. record { first = l.area.first; slots = l.area.slots; open_slots = l.open_slots } };
}

impl LogArea {
    /// The area of this many slots whose first gate is in sector `first`. No slot is known to be open until `read_all`
    /// or `clear` has looked.
    pub fn new(first: u64, slots: u64) -> Self
        requires { first + SLOT_SECTORS * slots < 2 ^ 64 }
        ensures area { result.area ≡ record { first = first; slots = slots } }
        ensures none_known { result.open_slots ≡ 0 }
    {
        LogArea {
            first,
            slots,
            open_slots: 0,
        }
    }

    /// Adds a group in the first closed slot, if there is one, by seven writes of its body, a sync, a write of its
    /// gate, and a sync. That it makes just these calls is only tested. `fits` tells whether the records can be a
    /// group.
    ///
    /// A crash at any moment of the call leaves the groups as they were, or with the whole new group behind them, and
    /// from the moment it answers `Done` the latter. `NoMemory` means that nothing was written. After `DeviceFailed`
    /// the new group may be there or not, and may come and go at a crash until the area is synced and read again.
    pub fn append<D: Device, A: Allocator + Copy>(
        &mut self,
        alloc: A,
        device: &mut D,
        records: &[Record],
    ) -> Result<Appended, Error>
        requires fits { FitsGroup records.now }
        requires inside { IsAreaInside self.old.area (D.past_of device.old).disk.content }
        requires synced { (n : ℕ) → InArea self.old.area n → (D.past_of device.old).disk.unsynced n ≡ false }
        requires stands { (groups : List (List RecordValue))
            × Stands self.old (D.past_of device.old).disk.content groups }

        // The groups are those that the log stands for at the call.
        ensures done { result ≡ Ok Appended.Done → (groups : List (List RecordValue))
            → Stands self.old (D.past_of device.old).disk.content groups
            → Stands self.new (D.past_of device.new).disk.content (groups ++ records.now ∷ []) }
        ensures marked { result ≡ Ok Appended.Done
            → sector (D.past_of device.new).disk.content (gate self.old.area self.old.open_slots) ≡ marked_sector }
        ensures synced { result ≡ Ok Appended.Done → IsSynced (D.past_of device.new).disk }
        ensures survives { result ≡ Ok Appended.Done → (groups : List (List RecordValue)) (image : CrashState)
            → Stands self.old (D.past_of device.old).disk.content groups
            → IsCrashState (D.past_of device.new).disk image
            → HoldsGroups self.new.area image (groups ++ records.now ∷ []) }
        ensures full { (result ≡ Ok Appended.Full) ↔ (self.old.open_slots ≡ self.old.area.slots) }

        // A crash at any moment of the call, whatever it answers.
        ensures any_moment { LeavesOnly (D.past_of device.old) (D.past_of device.new)
            (IsAppended self.old (D.past_of device.old).disk records.now) }

        ensures outside { SameOutside (InSlot self.old.area self.old.open_slots) (D.past_of device.old).disk.content
            (D.past_of device.new).disk.content }
        ensures area { self.new.area ≡ self.old.area }
        ensures err { OnErr result (self.new ≡ self.old) }
        ensures unchanged { (result ≡ Ok Appended.Full) ⊎ (result ≡ Err Error.NoMemory) → (self.new ≡ self.old)
            × (device.new ≡ device.old) }
        ensures refused { IfErr result (Refuses (D.failures device.old) (D.failures device.new)) }
        ensures quiet { OnOk result (D.failures device.new ≡ D.failures device.old) }
        ensures later { D.failures device.old ≤ D.failures device.new }
    {
        if self.open_slots < self.slots {
            let body = spell(alloc, records)?;
            self.append_spelled(device, &body)
        } else {
            Ok(Appended::Full)
        }
    }

    /// Adds a group whose body `spell` has made, as `append` does, and takes no memory.
    pub fn append_spelled<D: Device>(
        &mut self,
        device: &mut D,
        body: &[u8],
    ) -> Result<Appended, Error>
        requires spelled { IsSpelledGroup body.now }
        requires inside { IsAreaInside self.old.area (D.past_of device.old).disk.content }
        requires synced { (n : ℕ) → InArea self.old.area n → (D.past_of device.old).disk.unsynced n ≡ false }
        requires stands { (groups : List (List RecordValue))
            × Stands self.old (D.past_of device.old).disk.content groups }

        // The records are those that the body spells.
        ensures done { result ≡ Ok Appended.Done → (records : List RecordValue) (groups : List (List RecordValue))
            → IsGroup records body.now
            → Stands self.old (D.past_of device.old).disk.content groups
            → Stands self.new (D.past_of device.new).disk.content (groups ++ records ∷ []) }
        ensures marked { result ≡ Ok Appended.Done
            → sector (D.past_of device.new).disk.content (gate self.old.area self.old.open_slots) ≡ marked_sector }
        ensures synced { result ≡ Ok Appended.Done → IsSynced (D.past_of device.new).disk }
        ensures survives { result ≡ Ok Appended.Done
            → (records : List RecordValue) (groups : List (List RecordValue)) (image : CrashState)
            → IsGroup records body.now
            → Stands self.old (D.past_of device.old).disk.content groups
            → IsCrashState (D.past_of device.new).disk image
            → HoldsGroups self.new.area image (groups ++ records ∷ []) }
        ensures full { (result ≡ Ok Appended.Full) ↔ (self.old.open_slots ≡ self.old.area.slots) }

        // A crash at any moment of the call, whatever it answers.
        ensures any_moment { (records : List RecordValue) → IsGroup records body.now
            → LeavesOnly (D.past_of device.old) (D.past_of device.new)
            (IsAppended self.old (D.past_of device.old).disk records) }

        ensures outside { SameOutside (InSlot self.old.area self.old.open_slots) (D.past_of device.old).disk.content
            (D.past_of device.new).disk.content }
        ensures area { self.new.area ≡ self.old.area }
        ensures err { OnErr result (self.new ≡ self.old) }
        ensures unchanged { result ≡ Ok Appended.Full → (self.new ≡ self.old) × (device.new ≡ device.old) }
        ensures refused { IfErr result (λ e. (e ≡ Error.DeviceFailed)
            × Rises (D.failures device.old) (D.failures device.new)) }
        ensures quiet { OnOk result (D.failures device.new ≡ D.failures device.old) }
        ensures later { D.failures device.old ≤ D.failures device.new }
    {
        if self.open_slots == self.slots {
            return Ok(Appended::Full);
        }
        let gate = self.first + SLOT_SECTORS * self.open_slots;
        if write_group(device, gate, body).is_err() {
            return Err(Error::DeviceFailed);
        }
        self.open_slots += 1;
        Ok(Appended::Done)
    }

    /// The records of all groups of a version of the format, in order. From then on the log knows how many slots are
    /// open.
    ///
    /// `Damaged` names the gate of the first slot that can't be: an open one after a closed one, or an open one whose
    /// body is no group. `DeviceFailed` where the device failed in the call, and only then. No memory is wanted where
    /// the first gate is closed (`memory`). Nothing is written.
    pub fn read_all<D: Device, A: Allocator + Copy>(
        &mut self,
        alloc: A,
        version: Version,
        device: &mut D,
    ) -> Result<Vec<Record, A>, Error>
        requires inside { IsAreaInside self.old.area (D.past_of device.old).disk.content }

        // These are the only groups, by the law `one_reading`, and where there are such no sector is damaged.
        ensures read { IfOk result (λ records. (groups : List (List RecordValue))
            × StandsIn version self.new (D.past_of device.old).disk.content groups
            × (records.items ≡ records_of groups)) }
        ensures refused { IfErr result (λ e. Refuses (D.failures device.old) (D.failures device.new) e
            ⊎ ((sector : ℕ) × (e ≡ Error.Damaged sector)
            × IsFirstDamagedSlotIn version self.old.area (D.past_of device.old).disk.content sector)) }
        ensures area { self.new.area ≡ self.old.area }
        ensures err { OnErr result (self.new ≡ self.old) }
        ensures reads { OnlyReads (D.past_of device.old) (D.past_of device.new) }
        ensures quiet { OnOk result (D.failures device.new ≡ D.failures device.old) }
        ensures told { IfErr result (λ e. e ≢ Error.DeviceFailed → D.failures device.new ≡ D.failures device.old) }
        ensures memory { IfErr result (λ e. e ≡ Error.NoMemory → (0 < self.old.area.slots)
            × IsOpen (D.past_of device.old).disk.content self.old.area.first) }
        ensures later { D.failures device.old ≤ D.failures device.new }
    {
        let (records, open_slots) = read_slots(alloc, version, device, self.first, self.slots)?;
        self.open_slots = open_slots;
        Ok(records)
    }

    /// The gate of the group that a record is in, by the record's index in what `read_all` gave, or `None` where there
    /// is no such record. So a caller can say where a record lies that can't follow the one before it. The groups are
    /// read again, and nothing is written. `DeviceFailed` where the device failed in the call, and only then. No memory
    /// is wanted of a log that knows of no open slot (`memory`).
    pub fn gate_of<D: Device, A: Allocator + Copy>(
        &self,
        alloc: A,
        version: Version,
        device: &mut D,
        index: usize,
    ) -> Result<Option<u64>, Error>
        requires inside { IsAreaInside self.now.area (D.past_of device.old).disk.content }
        ensures found { IfOk result (λ found. (groups : List (List RecordValue))
            → StandsIn version self.now (D.past_of device.old).disk.content groups
            → MatchOption found (length (records_of groups) ≤ index) (IsGateOf self.now.area groups index)) }
        ensures refused { IfErr result (Refuses (D.failures device.old) (D.failures device.new)) }
        ensures reads { OnlyReads (D.past_of device.old) (D.past_of device.new) }
        ensures quiet { OnOk result (D.failures device.new ≡ D.failures device.old) }
        ensures told { IfErr result (λ e. e ≢ Error.DeviceFailed → D.failures device.new ≡ D.failures device.old) }
        ensures memory { IfErr result (λ e. e ≡ Error.NoMemory → 0 < self.now.open_slots) }
        ensures later { D.failures device.old ≤ D.failures device.new }
    {
        gate_of_record(alloc, version, device, self.first, self.open_slots, index)
    }

    /// Closes every gate, by a sector of zeros, and syncs. Until then the area may hold anything, and after
    /// `DeviceFailed` it may too.
    pub fn clear<D: Device>(&mut self, device: &mut D) -> Result<(), Error>
        requires inside { IsAreaInside self.old.area (D.past_of device.old).disk.content }
        ensures cleared { OnOk result (Stands self.new (D.past_of device.new).disk.content []) }
        ensures zeros { OnOk result (AreGatesZero self.old.area (D.past_of device.new).disk.content) }
        ensures synced { OnOk result (IsSynced (D.past_of device.new).disk) }
        ensures outside { SameOutside (IsGate self.old.area) (D.past_of device.old).disk.content
            (D.past_of device.new).disk.content }
        ensures any_moment { LeavesOnly (D.past_of device.old) (D.past_of device.new)
            (SameOutside (λ n. IsGate self.old.area n ⊎ ((D.past_of device.old).disk.unsynced n ≡ true))
            (D.past_of device.old).disk.content) }
        ensures area { self.new.area ≡ self.old.area }
        ensures err { OnErr result (self.new ≡ self.old) }
        ensures refused { IfErr result (λ e. (e ≡ Error.DeviceFailed)
            × Rises (D.failures device.old) (D.failures device.new)) }
        ensures quiet { OnOk result (D.failures device.new ≡ D.failures device.old) }
        ensures later { D.failures device.old ≤ D.failures device.new }
    {
        if close_gates(device, self.first, self.slots).is_err() {
            return Err(Error::DeviceFailed);
        }
        self.open_slots = 0;
        Ok(())
    }

    /// How many slots are known to be open: as many as there are groups, once `read_all` or `clear` has succeeded.
    pub fn open_slots(&self) -> u64
        ensures value { result ≡ self.now.open_slots }
        ensures room { result ≤ self.now.area.slots }
    {
        self.open_slots
    }
}

// The records of all groups, and how many slots are open.
fn read_slots<D: Device, A: Allocator + Copy>(
    alloc: A,
    version: Version,
    device: &mut D,
    first: u64,
    slots: u64,
) -> Result<(Vec<Record, A>, u64), Error>
    requires inside { first + SLOT_SECTORS * slots ≤ length (D.past_of device.old).disk.content }
    requires number { first + SLOT_SECTORS * slots < 2 ^ 64 }
    ensures read { IfOk result (λ found. (groups : List (List RecordValue))
        × HoldsGroupsIn version (record { first = first; slots = slots }) (D.past_of device.old).disk.content groups
        × (found.1 ≡ length groups) × (found.0.items ≡ records_of groups)) }
    ensures refused { IfErr result (λ e. Refuses (D.failures device.old) (D.failures device.new) e
        ⊎ ((sector : ℕ) × (e ≡ Error.Damaged sector)
        × IsFirstDamagedSlotIn version (record { first = first; slots = slots })
        (D.past_of device.old).disk.content sector)) }
    ensures reads { OnlyReads (D.past_of device.old) (D.past_of device.new) }
    ensures quiet { OnOk result (D.failures device.new ≡ D.failures device.old) }
    ensures told { IfErr result (λ e. e ≢ Error.DeviceFailed → D.failures device.new ≡ D.failures device.old) }
    ensures memory { IfErr result (λ e. e ≡ Error.NoMemory → (0 < slots)
        × IsOpen (D.past_of device.old).disk.content first) }
    ensures later { D.failures device.old ≤ D.failures device.new }
{
    let mut count = 0;
    let mut records = Vec::new(alloc);
    for slot in 0..slots {
        let gate = first + SLOT_SECTORS * slot;
        if !is_open(device, gate)? {
            continue;
        }
        let damaged = Error::Damaged { sector: gate };
        if count < slot {
            return Err(damaged);
        }
        let Some(mut group) = read_group(alloc, version, device, gate)? else {
            return Err(damaged);
        };
        records.append(&mut group)?;
        count += 1;
    }
    Ok((records, count))
}

// The gate of the group that a record is in, of the groups in these slots, which are all open.
fn gate_of_record<D: Device, A: Allocator + Copy>(
    alloc: A,
    version: Version,
    device: &mut D,
    first: u64,
    slots: u64,
    index: usize,
) -> Result<Option<u64>, Error>
    requires inside { first + SLOT_SECTORS * slots ≤ length (D.past_of device.old).disk.content }
    requires number { first + SLOT_SECTORS * slots < 2 ^ 64 }
    ensures found { IfOk result (λ found. (groups : List (List RecordValue))
        → HoldsGroupsIn version (record { first = first; slots = slots }) (D.past_of device.old).disk.content groups
        → length groups ≡ slots
        → MatchOption found (length (records_of groups) ≤ index)
        (IsGateOf (record { first = first; slots = slots }) groups index)) }
    ensures refused { IfErr result (Refuses (D.failures device.old) (D.failures device.new)) }
    ensures reads { OnlyReads (D.past_of device.old) (D.past_of device.new) }
    ensures quiet { OnOk result (D.failures device.new ≡ D.failures device.old) }
    ensures told { IfErr result (λ e. e ≢ Error.DeviceFailed → D.failures device.new ≡ D.failures device.old) }
    ensures memory { IfErr result (λ e. e ≡ Error.NoMemory → 0 < slots) }
    ensures later { D.failures device.old ≤ D.failures device.new }
{
    let mut left = index;
    for slot in 0..slots {
        let gate = first + SLOT_SECTORS * slot;
        let Some(group) = read_group(alloc, version, device, gate)? else {
            return Ok(None);
        };
        if left < group.len() {
            return Ok(Some(gate));
        }
        left -= group.len();
    }
    Ok(None)
}

// Closes these gates, by sectors of zeros, and syncs.
fn close_gates<D: Device>(device: &mut D, first: u64, slots: u64) -> Result<(), Failed>
    requires inside { first + SLOT_SECTORS * slots ≤ length (D.past_of device.old).disk.content }
    requires number { first + SLOT_SECTORS * slots < 2 ^ 64 }
    ensures zeros { OnOk result (AreGatesZero (record { first = first; slots = slots })
        (D.past_of device.new).disk.content) }
    ensures outside { SameOutside (IsGate (record { first = first; slots = slots })) (D.past_of device.old).disk.content
        (D.past_of device.new).disk.content }
    ensures synced { OnOk result (IsSynced (D.past_of device.new).disk) }
    ensures within { RunsWithin (λ n. IsGate (record { first = first; slots = slots }) n
        ⊎ ((D.past_of device.old).disk.unsynced n ≡ true)) (D.past_of device.old).disk.content (D.past_of device.old)
        (D.past_of device.new) }
    ensures counts { CountsFailure (D.failures device.old) (D.failures device.new) result }
{
    write_zeros(device, first, SLOT_SECTORS, slots)?;
    device.sync()
}
