//! What an engine consists of, and the steps by which it serves a request. That it can is the invariant of the engine.
ghost use Rattle.std.specs.Prelude.{◌≡◌, ◌↔◌, [], IsTrue};

use crate::Reply;
use flip_image::Halves;
use gate_log::LogArea;
use nsf_core::Core;
use records::{Error, Geometry, Record};
use sector_device::Device;
use std::alloc::Allocator;
use std::mem;
use store_writer::{FlushReply, StoreWriter};

/// A core, and the writer that owns the device.
#[derive(Drop)]
pub(crate) struct EngineParts<D: Device, A: Allocator> {
    pub(crate) core: Core<A>,
    pub(crate) writer: StoreWriter<D, A>,
    // The records that were taken from the core, and that the writer doesn't have yet.
    pub(crate) outgoing: Vec<Record, A>,
    pub(crate) alloc: A,
    pub(crate) geometry: Geometry,
}

impl<D: Device, A: Allocator + Copy> EngineParts<D, A> {
    ghost use Rattle.model.specs.Cells.{Cells};
    ghost use Rattle.nsf_core.specs.Value.{value_of};
    ghost use Rattle.store_writer.specs.Writer.{IsOpenedAt};
    ghost use Rattle.restart.specs.declared.event.Event.TheVariants.{Flush};
    ghost use Rattle.restart.specs.Parts.{core_of, unhanded};
    ghost use Rattle.restart.specs.Reopening.{BeginsOver};
    ghost use Rattle.restart.specs.Lawful.{IsFlushAnswer};
    ghost use Rattle.restart.specs.Store.{CanRun, ServesOn, KeepsAround, OpensSlotsAlone};
    ghost use Rattle.restart.specs.Handing.{HandsOver};

    // The parts of an engine over what was opened on the device: it has made no record.
    pub(crate) fn over(alloc: A, device: D, core: Core<A>, halves: Halves, log: LogArea) -> Self
        requires { (cells : Cells) × IsOpenedAt (D.past_of device) halves log (value_of core).last cells }
        ensures core { core_of result ≡ value_of core }
        ensures begins { BeginsOver D.past_of device halves log result }
    {
        let synced = core.last();
        let geometry = halves.geometry();
        let writer = StoreWriter::new(alloc, device, halves, log, synced);
        let outgoing = Vec::new(alloc);
        EngineParts {
            core,
            writer,
            outgoing,
            alloc,
            geometry,
        }
    }

    // Whether the writer has every record that was made.
    fn is_handed_over(&self) -> bool
        ensures { IsTrue result ↔ (unhanded self.now ≡ []) }
    {
        self.outgoing.is_empty() && self.core.waiting() == 0
    }

    // Hands the records made to the writer, as far as there is memory: whether it has all of them.
    pub(crate) fn hand_over(&mut self) -> bool
        requires { CanRun D.past_of self.old }
        ensures hands { HandsOver D.past_of self.old self.new }
        ensures all { IsTrue result ↔ (unhanded self.new ≡ []) }
    {
        self.core.take_outbox(&mut self.outgoing);
        let outgoing = mem::replace(&mut self.outgoing, Vec::new(self.alloc));
        match self.writer.hand_in(outgoing) {
            Ok(()) => self.is_handed_over(),
            Err(back) => {
                self.outgoing = back;
                self.is_handed_over()
            }
        }
    }

    // Hands the records over, and writes one group.
    pub(crate) fn flush(&mut self) -> Reply<A>
        requires { CanRun D.past_of self.old }
        ensures serves { ServesOn D.past_of Flush result self.old self.new }
        ensures answer { IsFlushAnswer D.failures result self.old self.new }
        ensures around { KeepsAround D.past_of self.old self.new }
        ensures slot { OpensSlotsAlone D.past_of self.old self.new }
        ensures can_run { CanRun D.past_of self.new }
    {
        if self.writer.has_failed() {
            return Reply::Refused(Error::DeviceFailed);
        }
        if !self.hand_over() {
            return Reply::Refused(Error::NoMemory);
        }
        match self.writer.flush_group(self.alloc) {
            Ok(FlushReply::Flushed(number)) => Reply::Horizon(number),
            Ok(FlushReply::Nothing) => Reply::Horizon(self.writer.synced()),
            Ok(FlushReply::LogFull) => Reply::LogFull,
            Err(error) => Reply::Refused(error),
        }
    }

    // The writer alone. The core, and the records that the writer doesn't have, are let go.
    pub(crate) fn into_writer(self) -> StoreWriter<D, A>
        ensures { result ≡ self.writer }
    {
        let EngineParts {
            core,
            writer,
            outgoing,
            ..
        } = self;
        drop(core);
        drop(outgoing);
        writer
    }
}
