//! Whether what an engine holds is sound.
ghost use Rattle.std.specs.Prelude.{◌↔◌, IsTrue};
ghost use Rattle.core_model.specs.Histories.{CanOpen};
ghost use Rattle.core_parts.specs.Opening.{opened_of};

use crate::Engine;
use sector_device::Device;
use std::alloc::Allocator;

impl<D: Device, A: Allocator + Copy> Engine<D, A> {
    ghost use Rattle.restart.specs.Parts.{core_of};

    /// Whether a core may begin with the rows, the entries and the index's life that the engine holds: each visible
    /// entry is the pair of a row; the pair of each row is visible, as far as the index is built, and nowhere marked;
    /// and without an index there is no entry. It tells of what is held now, so ask it while no transaction is active.
    ///
    /// Behind a restart it tells whether all that is promised of what a run left is promised of this engine too
    /// (`begins` and `come` of `IsOpened`): `restart` opens what the format allows, be it sound or not. It goes over
    /// every entry and every row.
    pub fn can_open(&self) -> bool
        ensures { IsTrue result ↔ CanOpen (opened_of (core_of self.now)) }
    {
        self.parts.core.can_open()
    }
}
