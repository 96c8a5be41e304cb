//! An engine with no transaction active is left as a restart would leave it. (That its device isn't read, no clause
//! says.)
ghost use Rattle.std.specs.Prelude.{◌≡◌, None, OnOk, IfErr, IfOk};
ghost use Rattle.nsf_core.specs.Loading.{IsQuiet};
ghost use Rattle.nsf_core.specs.Value.{value_of};
ghost use Rattle.restart.specs.Parts.{core_of};
ghost use Rattle.restart.specs.Settling.{CopiesAnew, IsFresh, IsNotWritten, WritesWhole};
ghost use Rattle.restart.specs.Store.{CanRun};

use crate::parts::EngineParts;
use crate::{Engine, Reply};
use core_copies::{Copies, each_list, load, one_copy};
use model::CellMaps;
use nsf_core::Core;
use records::Error;
use sector_device::Device;
use std::alloc::Allocator;
use store_image_model::{Chunk, Piece};
use store_reader::Restored;
use store_writer::StoreWriter;

impl<D: Device, A: Allocator + Copy> EngineParts<D, A> {
    // Gives an image under way up, and takes a whole one at once.
    fn copy_anew(&mut self) -> Reply<A>
        requires { CanRun D.past_of self.old }
        ensures copies { CopiesAnew D.past_of D.failures result self.old self.new }
        ensures can_run { CanRun D.past_of self.new }
    {
        self.writer.give_up();
        self.copy()
    }
}

impl<D: Device, A: Allocator + Copy> Engine<D, A> {
    /// A core over the rows, the entries and the index's life that the engine holds while no transaction is active, as
    /// a restart makes one. A build goes on in it above the pair checkpointed last.
    ///
    /// The one error is `NoMemory`.
    pub fn fresh_core(&self) -> Result<Core<A>, Error>
        requires { IsQuiet (core_of self.now) }
        ensures fresh { IfOk result (λ core. IsFresh (core_of self.now) (value_of core)) }
        ensures no_memory { IfErr result (λ e. e ≡ Error.NoMemory) }
    {
        let Chunk { number, piece } = self.parts.core.copy_whole(self.parts.alloc)?;
        let Piece::Whole { cells } = piece else {
            unreachable!()
        };
        let CellMaps {
            rows,
            entries,
            lists,
            life,
        } = cells;
        drop(lists);
        let found = Restored {
            geometry: self.parts.geometry,
            rows,
            entries,
            life,
            last: number,
        };
        let loaded = load(self.parts.alloc, &found);
        drop(found);
        loaded
    }

    /// The writer that owns the device, once all that the engine holds was written to it as a whole image, while no
    /// transaction is active. Every record made is in the image, those too that weren't flushed: they are synced with
    /// it. An image under way is given up. No sector is written but those that a copy writes (`written`).
    ///
    /// `NoMemory`, and `DeviceFailed` as of a copy, give the engine back, and its run goes on: no record is lost. After
    /// `NoMemory` the next copy takes a whole image, and after `DeviceFailed` each is refused so (`refused`).
    pub fn into_writer(self) -> Result<StoreWriter<D, A>, (Error, Self)>
        requires { IsQuiet (core_of self) }
        ensures written { IfOk result (WritesWhole D.past_of D.failures self) }
        ensures refused { IfErr result (λ r. IsNotWritten D.past_of D.failures self r.1 r.0) }
    {
        each_list();
        one_copy();
        let Engine { mut parts } = self;
        parts.core.stands();
        match parts.copy_anew() {
            Reply::Flipped(_) => Ok(parts.into_writer()),
            Reply::Refused(error) => Err((error, Engine { parts })),
            _ => unreachable!(),
        }
    }
}
