//! The engine: a store that serves requests, whatever was asked of it before.
ghost use Rattle.std.specs.Prelude.{◌≡◌, ◌≢◌, ◌⊎◌, ◌≤◌, [], OnErr, OnOk, IfOk, IfErr};

use crate::build::{end_of, in_a_row, ticket_of};
use crate::parts::EngineParts;
use crate::{Event, Reply};
use core_copies::each_list;
use core_model::each_half;
use model::Life;
use nsf_core::{Core, Ticket};
use records::{Error, Record};
use sector_device::Device;
use std::alloc::Allocator;
use std::marker::Model;
use store_writer::StoreWriter;

/// A store that serves requests in order. `restart` opens one.
///
/// Between calls every engine's device gives what a prefix of its records made, whatever its store gave as it was
/// opened: its type keeps that, and no call asks it of its caller.
#[derive(Drop)]
pub struct Engine<D: Device, A: Allocator> {
    pub(crate) parts: EngineParts<D, A>,
}

impl<D: Device, A: Allocator> Model for Engine<D, A> {
    ghost use Rattle.std.specs.Coded.{codes};
    ghost use Rattle.restart.specs.declared.parts.EngineParts.{EngineParts};
    ghost use Rattle.std.specs.FinMap as map;
    ghost use Rattle.restart.specs.Store.{CanRun};

    ghost Value = { EngineParts D A };

    ghost coded = { Prim.hlevel (codes, map.code) };

    ghost view = { λ engine. engine.parts };

    ghost invariant = { λ engine. CanRun D.past_of engine.parts };
}

impl<D: Device, A: Allocator + Copy> Engine<D, A> {
    ghost use Rattle.model.specs.declared.life.Life.TheVariants.{Absent};
    ghost use Rattle.nsf_core.specs.Value.{value_of};
    ghost use Rattle.record_values.specs.declared.number.TheConstants.{LAST_NUMBER};
    ghost use Rattle.restart.specs.Parts.{core_of, device_of, horizon_of};
    ghost use Rattle.restart.specs.Groups.{CopiesByGroups};
    ghost use Rattle.restart.specs.Lawful.{IsLawful, AreLawful};
    ghost use Rattle.restart.specs.Store.{ServesOn, RunsOn, RunsLawfully, KeepsRun, KeepsAround, KeepsSectors};
    ghost use Rattle.restart.specs.Store.{OpensSlotsAlone, CopiesAround, HaveNoCopy};
    ghost use Rattle.restart.specs.Parted.{ArePartsOf, LeavesPartsOf};
    ghost use Rattle.restart.specs.Ran.{KeepsWholeRun};
    ghost use Rattle.restart.specs.Building.{IsBuiltToEnd, IsIndexFull, BuildsWhole, HasCome};

    /// Serves one request. Of an engine that a run left, or that was opened over what a core may begin with: a crash at
    /// any moment of the call leaves a store that `restart` takes back to what was told by a prefix of the requests,
    /// and no record up to the horizon is lost (`serves`). But by a copy no sector is written but those of the store's
    /// log and, where an image is under way, of the log of its half (`around`), and by a flush none but those of the
    /// slot that it opens there (`slot`). By a copy none is written but those of the half that isn't current, the one
    /// that tells which half is, and, while a whole image waits, those of the log (`copied`). A copy that finds a whole
    /// image waiting writes filled groups, and none where the image could be made current at once; it gives the image
    /// up only where it can't be made current and no group more can be written (`groups`). The device has as many
    /// sectors as before (`sectors`).
    pub fn serve(&mut self, event: Event) -> Reply<A>
        ensures serves { ServesOn D.past_of event result self.old self.new }
        ensures lawful { IsLawful D.failures event result self.old self.new }
        ensures around { event ≢ Event.Copy → KeepsAround D.past_of self.old self.new }
        ensures slot { event ≡ Event.Flush → OpensSlotsAlone D.past_of self.old self.new }
        ensures copied { event ≡ Event.Copy → CopiesAround D.past_of self.old self.new }
        ensures groups { event ≡ Event.Copy → CopiesByGroups result self.old self.new }
        ensures sectors { KeepsSectors D.past_of self.old self.new }
    {
        each_half();
        each_list();
        self.parts.writer.goes_on();
        if let Event::Copy = event {
            return self.parts.copy();
        }
        match self.parts.ask_core(event) {
            Some(reply) => reply,
            None => self.parts.flush(),
        }
    }

    /// Serves requests in order, one reply for each. The one error is
    /// `NoMemory`, where there is a request and was no room for the replies,
    /// and then nothing was served.
    ///
    /// Of an engine that a run left, or that was opened over what a core may begin with: a crash at any moment, between
    /// the replies or within a request, leaves a store that `restart` takes back to what was told by a prefix of the
    /// requests, and no record is lost that the horizon before the call, or a reply, has told to be safe (`ran`);
    /// within a request none up to the horizon as that request began (`served`), and behind the last one none up to the
    /// horizon then (`at_end`). The device has as many sectors as before (`sectors`).
    pub fn run(&mut self, events: &[Event]) -> Result<Vec<Reply<A>, A>, Error>
        ensures at_end { IfOk result (λ replies. KeepsWholeRun D.past_of events.now replies.items self.old self.new) }
        ensures ran { IfOk result (λ replies. RunsOn D.past_of events.now replies.items self.old self.new) }
        ensures served { IfOk result (λ replies.
            RunsLawfully D.past_of D.failures events.now replies.items self.old self.new) }
        ensures lawful { IfOk result (λ replies. AreLawful D.failures events.now replies.items self.old self.new) }
        ensures around { OnOk result (HaveNoCopy events.now → KeepsAround D.past_of self.old self.new) }
        ensures sectors { OnOk result (KeepsSectors D.past_of self.old self.new) }
        ensures refused { OnErr result (self.new ≡ self.old) }
        ensures no_memory { IfErr result (λ e. e ≡ Error.NoMemory) }
        ensures some { OnErr result (events.now ≢ []) }
    {
        let mut replies = Vec::with_capacity(self.parts.alloc, events.len())?;
        for event in events {
            let reply = self.serve(*event);
            let Ok(()) = replies.push(reply) else {
                unreachable!()
            };
        }
        Ok(replies)
    }

    /// Makes steps of the builder until the index is complete, and answers the ticket of its end. Where it is complete
    /// already, the answer is a ticket of the last record made, if there is one, and nothing changes.
    ///
    /// A refusal is that of the step that met it, and ends the steps; what was built before it stays (`built`).
    /// `NoIndex` comes only where there is none (`no_index`); `IndexFull` where a pair that has no entry meets no free
    /// place: each is taken or reserved (`full`); `Exhausted` where a record is to be made and no number is left
    /// (`exhausted`); and else it is `NoMemory` (`why`).
    ///
    /// With no transaction active and the answer `Ok`, the rows are as they were, and the visible entries are just
    /// their pairs (`whole`). This is promised of an engine that a run left, and of one that was opened over what a run
    /// left; of one that was opened over any other store it is where, in what the store gave, each visible entry named
    /// a row, the pair of each row was visible as far as the index was built and nowhere marked, and without an index
    /// there was no entry (`CanOpen`): a builder leaves a marked entry as it is. It stays so whatever the answer is
    /// (`come`), so that a build may be gone on with; and no row changes (`rows`).
    pub fn build_to_end(&mut self) -> Result<Option<Ticket>, Error>
        ensures built { IsBuiltToEnd D.past_of result self.old self.new }
        ensures whole { OnOk result (BuildsWhole (core_of self.old) (core_of self.new)) }
        ensures why { IfErr result (λ e. (e ≡ Error.NoIndex) ⊎ (e ≡ Error.IndexFull) ⊎ (e ≡ Error.Exhausted)
            ⊎ (e ≡ Error.NoMemory)) }
        ensures no_index { IfErr result (λ e. e ≡ Error.NoIndex → (core_of self.old).life ≡ Absent) }
        ensures full { IfErr result (λ e. e ≡ Error.IndexFull → IsIndexFull (core_of self.new)) }
        ensures exhausted { IfErr result (λ e. e ≡ Error.Exhausted → LAST_NUMBER ≤ (core_of self.new).last) }
        ensures come { HasCome (core_of self.old) → HasCome (core_of self.new) }
        ensures rows { HasCome (core_of self.old) → (core_of self.new).heap.rows ≡ (core_of self.old).heap.rows }
    {
        each_half();
        each_list();
        self.parts.writer.goes_on();
        if let Life::Complete = self.parts.core.life() {
            return Ok(ticket_of(self.parts.core.last()));
        }
        let mut scanned = 0;
        'steps: loop {
            let reply = self.parts.core.build_step()?;
            match end_of(&reply) {
                Some(ticket) => return Ok(Some(ticket)),
                None => scanned = in_a_row(scanned, &reply),
            }
        }
    }

    /// The core: rows, transactions and index as they are now.
    pub fn core(&self) -> &Core<A>
        ensures { value_of result.now ≡ core_of self.now }
    {
        &self.parts.core
    }

    /// How far the records are synced. Of an engine that a run left, a crash leaves each one up to this number, between
    /// calls (`survives` of [`Engine::device`]) and at any moment of the next one (`serves`, `ran`, `built`,
    /// `written`).
    pub fn horizon(&self) -> u64
        ensures { result ≡ horizon_of self.now }
    {
        self.parts.writer.synced()
    }

    /// The device as it is now. Of an engine that a run left, a crash of it leaves what `restart` takes back to a
    /// prefix of the history, with every record up to the horizon, and so with everything that was acknowledged.
    pub fn device(&self) -> &D
        ensures device { result.now ≡ device_of self.now }
        ensures survives { KeepsRun D.past_of self.now result.now }
    {
        self.parts.writer.device()
    }

    /// The core, with the records that wait in it; those that were taken from it, and that the writer doesn't have for
    /// want of memory, in order; and the writer that owns the device. Nothing is written, and no memory is taken. An
    /// image under way is forgotten, so that the next one is copied from its start. The core goes on counting its
    /// transactions and commits; one that served nothing is as `restart` loaded it.
    ///
    /// Who goes on with them hands the records in first, and then those of the core: then the writer has all that were
    /// made, and they make what the core has (`left`).
    pub fn into_parts(self) -> (Core<A>, Vec<Record, A>, StoreWriter<D, A>)
        ensures parts { ArePartsOf self (value_of result.0) result.1.items result.2 }
        ensures left { LeavesPartsOf D.past_of self (value_of result.0) result.1.items result.2 }
    {
        let Engine { parts } = self;
        let EngineParts {
            core,
            mut writer,
            outgoing,
            ..
        } = parts;
        writer.forget_image();
        (core, outgoing, writer)
    }

    /// The device as it is now. What was not written to it is lost, and nothing of it was acknowledged: a crash of the
    /// device leaves what `restart` takes back to a prefix of the history, with every record up to the horizon, and so
    /// with everything that was.
    pub fn into_device(self) -> D
        ensures device { result ≡ device_of self }
        ensures survives { KeepsRun D.past_of self result }
    {
        let Engine { parts } = self;
        parts.into_writer().into_device()
    }
}
