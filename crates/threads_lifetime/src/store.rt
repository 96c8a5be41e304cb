//! A store before its threads have it.
use sector_device::Device;
use shared::{Memory, Opening};
use std::alloc::Global;
use std::marker::Model;
use store_writer::StoreWriter;

/// A store that is open for so many threads with a seat each, before they have it. To a contract it is a `StoreValue`.
///
/// Its type keeps that the core was just opened, with what the writer stands for, all of which is synced.
#[derive(Drop)]
pub struct OpenStore<D: Device, A: Memory = Global> {
    pub(crate) alloc: A,
    pub(crate) opening: Opening<A>,
    pub(crate) writer: StoreWriter<D, A>,
}

impl<D: Device, A: Memory> Model for OpenStore<D, A> {
    ghost use Rattle.std.specs.Prelude.{length};
    ghost use Rattle.std.specs.Coded.{codes};
    ghost use Rattle.std.specs.FinMap as map;
    ghost use Rattle.threads_queue.specs.Ends.{coded_stored};
    ghost use Rattle.nsf_core.specs.Value.{value_of};
    ghost use Rattle.shared.specs.Openings.{IsJustOpened, IsOpening, names_of, opened_of};
    ghost use Rattle.store_writer.specs.Parts.{device_of};
    ghost use Rattle.threads_lifetime.specs.Openings.{IsNewWriter, StoreValue};

    ghost Value = { StoreValue D };

    ghost coded = { Prim.hlevel (codes, map.code, coded_stored) };

    ghost view = { λ s. record { site = names_of s.opening; device = device_of s.writer } };

    ghost invariant = { λ s. IsOpening (length s.opening.book.items) s.opening × IsJustOpened (value_of s.opening.core)
        × IsNewWriter D.past_of (opened_of (value_of s.opening.core)) s.writer };
}
