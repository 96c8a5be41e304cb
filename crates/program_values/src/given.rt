//! What the arguments of the program ask for.
ghost use Rattle.std.specs.Prelude.{◌≡◌, ℕ, List, [], ◌∷◌, map, Some, IsSome, Contains};
ghost use Rattle.program_values.specs.Arguments.{fate_of_name};

use records::{ENTRIES_MIN, LOG_SLOTS_MIN};
use sector_device::Fate;

/// The names of the fates, as arguments.
pub const FATES: [&str; 5] = ["old", "new", "zero", "a5", "junk"];

/// What the arguments ask for.
#[derive(Clone, Copy)]
pub struct Arguments {
    /// The pages of the store.
    pub pages: u32,
    /// The entries that its index has room for.
    pub entries: u32,
    /// The slots of its log.
    pub slots: u32,
    /// The sectors of the disk, as many as the store needs where none are given.
    pub sectors: Option<u32>,
    /// Which write or sync of the script's commands is cut short, from 1.
    pub stop: Option<u32>,
    /// What becomes then of what was not yet synced.
    pub fate: Fate,
}

/// The arguments as they are given, each of which may be left out.
#[derive(Clone, Copy)]
pub struct Options {
    /// The pages of the store.
    pub pages: Option<u32>,
    /// The entries that its index has room for.
    pub entries: Option<u32>,
    /// The slots of its log.
    pub slots: Option<u32>,
    /// The sectors of the disk.
    pub sectors: Option<u32>,
    /// Which write or sync of the script's commands is cut short.
    pub stop: Option<u32>,
    /// What becomes then of what was not yet synced.
    pub fate: Option<Fate>,
}

impl Options {
    ghost use Rattle.program_values.specs.Arguments.{with_defaults};

    /// What is asked for: one page, the fewest entries, the fewest slots and the fate `old` where they are left out.
    pub fn with_defaults(self) -> Arguments
        ensures { result ≡ with_defaults self }
    {
        Arguments {
            pages: self.pages.unwrap_or(1),
            entries: self.entries.unwrap_or(ENTRIES_MIN),
            slots: self.slots.unwrap_or(LOG_SLOTS_MIN),
            sectors: self.sectors,
            stop: self.stop,
            fate: self.fate.unwrap_or(Fate::Old),
        }
    }
}

/// The fate of this name, where it is one.
pub fn fate_named(name: &str) -> Option<Fate>
    ensures { result ≡ fate_of_name name.now }
{
    match name {
        "old" => Some(Fate::Old),
        "new" => Some(Fate::New),
        "zero" => Some(Fate::Zero),
        "a5" => Some(Fate::Gate),
        "junk" => Some(Fate::Junk),
        _ => None,
    }
}

/// A law: the names in `FATES` are those of the five fates, in this order, and no other text names a fate.
pub fn each_fate_has_a_name()
    ensures names { map (λ name. fate_of_name name.now) FATES
        ≡ Some Fate.Old ∷ Some Fate.New ∷ Some Fate.Zero ∷ Some Fate.Gate ∷ Some Fate.Junk ∷ [] }
    ensures no_other { (name : List ℕ) → IsSome (fate_of_name name)
        → Contains (map (λ name. name.now) FATES) name }
{}
