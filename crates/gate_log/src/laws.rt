// Laws of what an area holds.
ghost use Rattle.std.specs.Prelude.{◌≡◌, ◌⊎◌, ◌++◌, ◌∷◌, [], ℕ, List, length};
ghost use Rattle.sector_device.specs.Disk.{CrashState, sector, IsDiskWhole};
ghost use Rattle.records.specs.RecordValue.{RecordValue};
ghost use Rattle.record_values.specs.declared.version.Version.{Version};
ghost use Rattle.gate_log.specs.Area.{Area, InArea, IsAreaInside, HoldsGroups, HoldsGroupsIn, IsFirstDamagedSlot};
ghost use Rattle.gate_log.specs.Area.{IsFirstDamagedSlotIn, records_of};

/// A law: an image has one reading by a version of the format. It holds one list of groups at most, it is damaged first
/// at one sector at most, and never both; and where it has the whole area, and 512 bytes in each sector, one of the two
/// is so in version 2 (`some`).
pub fn one_reading()
    ensures groups { (v : Version) (area : Area) (image : CrashState) (a b : List (List RecordValue))
        → HoldsGroupsIn v area image a → HoldsGroupsIn v area image b → a ≡ b }
    ensures sector { (v : Version) (area : Area) (image : CrashState) (a b : ℕ) → IsFirstDamagedSlotIn v area image a
        → IsFirstDamagedSlotIn v area image b → a ≡ b }
    ensures either { (v : Version) (area : Area) (image : CrashState) (sector : ℕ) (groups : List (List RecordValue))
        → IsFirstDamagedSlotIn v area image sector → ¬ HoldsGroupsIn v area image groups }
    ensures some { (area : Area) (image : CrashState) → IsDiskWhole image → IsAreaInside area image
        → ((groups : List (List RecordValue)) × HoldsGroups area image groups)
        ⊎ ((sector : ℕ) × IsFirstDamagedSlot area image sector) }
{}

/// A law: which groups an image holds, its sectors in the area tell.
pub fn told_by_its_sectors()
    ensures { (area : Area) (image other : CrashState) (groups : List (List RecordValue)) → length other ≡ length image
        → ((n : ℕ) → InArea area n → sector other n ≡ sector image n)
        → HoldsGroups area image groups → HoldsGroups area other groups }
{}

/// A law: the records of groups are those of the first of them, and behind them those of the others.
pub fn records_of_groups()
    ensures more { (groups later : List (List RecordValue))
        → records_of (groups ++ later) ≡ records_of groups ++ records_of later }
    ensures one_more { (groups : List (List RecordValue)) (group : List RecordValue)
        → records_of (groups ++ group ∷ []) ≡ records_of groups ++ group }
{}
