//! The store and its calls.
ghost use Rattle.std.specs.Prelude.{◌≡◌, OnOk, MatchResult};
ghost use Rattle.std.specs.Io.KnownBytes.{Appends};
ghost use Rattle.btree_node.specs.Above.{IsLeastAbove};
ghost use Rattle.program_values.specs.Texts.{line_of};
ghost use Rattle.program_commands.specs.Dump.{row_line, slot_lines, entry_lines, dump_text};

use model::Life;
use nsf_core::Core;
use program_values::Answer;
use records::{Error, Mark, Pair, Rid, SLOTS_PER_PAGE};
use restart::{Engine, Event, Reply, restart};
use sector_device::Device;
use std::alloc::Global;
use std::io;
use std::io::Write;

/// A store that is open on a device.
#[derive(Drop)]
pub struct Store<D: Device> {
    engine: Engine<D, Global>,
}

// Prints an entry.
fn dump_entry<W: Write>(pair: Pair, mark: Mark, output: &mut W) -> io::Result<()>
    ensures { OnOk result (Appends (W.contents output.old) (W.contents output.new) (line_of (Answer.Entry pair mark))) }
{
    let answer = Answer::Entry { pair, mark };
    writeln!(output, "{answer}")
}

impl<D: Device> Store<D> {
    ghost use Rattle.nsf_core.specs.Value.{value_of};
    ghost use Rattle.restart.specs.Parts.{core_of};
    ghost use Rattle.program_commands.specs.Store.{OpensOn, IsRefusedOn, LeavesItsRun, device_of, last_made, Serves};
    ghost use Rattle.program_commands.specs.Store.{TakesImage};
    ghost use Rattle.program_commands.specs.Store.{Flushes, engine_of, horizon_of, rows_of, entries_of, life_of};

    /// Opens the store on the device. Where the restart is refused, the device comes back.
    pub fn open(alloc: Global, device: D) -> Result<Self, (Error, D)>
        ensures { MatchResult result
            (OpensOn D.past_of device)
            (λ r. IsRefusedOn D.past_of D.failures device r.1 r.0) }
    {
        let engine = restart(alloc, device)?;
        Ok(Store { engine })
    }

    /// The core: rows, transactions and index as they are now.
    pub fn core(&self) -> &Core<Global>
        ensures { value_of result.now ≡ core_of (engine_of self.now) }
    {
        self.engine.core()
    }

    /// How far the index is.
    pub fn life(&self) -> Life
        ensures { result ≡ life_of self.now }
    {
        self.engine.core().life()
    }

    /// How far the records are synced.
    pub fn horizon(&self) -> u64
        ensures { result ≡ horizon_of self.now }
    {
        self.engine.horizon()
    }

    /// The device, with what was written to it so far. A crash of it leaves what [`Store::into_device`] says.
    pub fn device(&self) -> &D
        ensures device { result.now ≡ device_of self.now }
        ensures survives { LeavesItsRun D.past_of self.now result.now }
    {
        self.engine.device()
    }

    /// The device, with what was written to it. A crash of it leaves what a restart takes back to a prefix of what was
    /// served, with every record up to the horizon, and so with everything that a reply has told to be safe.
    pub fn into_device(self) -> D
        ensures device { result ≡ device_of self }
        ensures survives { LeavesItsRun D.past_of self result }
    {
        self.engine.into_device()
    }

    /// Serves one event.
    pub fn serve(&mut self, event: Event) -> Reply<Global>
        ensures { Serves D.past_of D.failures event result self.old self.new }
    {
        self.engine.serve(event)
    }

    /// Takes an image of the store, piece by piece, and makes it current, unless that is refused.
    pub fn take_image(&mut self) -> Reply<Global>
        ensures { TakesImage D.past_of D.failures result self.old self.new }
    {
        self.engine.take_image()
    }

    /// Flushes until every record made is synced, or a flush or a copy is refused. Where the log is full, an image is
    /// taken and made current, and it goes on.
    pub fn flush(&mut self) -> Reply<Global>
        ensures { Flushes D.past_of D.failures (last_made self.old) result self.old self.new }
    {
        self.engine.flush_all()
    }

    // Prints the row at the place, if there is one.
    fn dump_row<W: Write>(&self, rid: Rid, output: &mut W) -> io::Result<()>
        ensures { OnOk result (Appends (W.contents output.old) (W.contents output.new)
            (row_line (rows_of self.now) rid)) }
    {
        match self.engine.core().get(rid) {
            Some(row) => {
                let answer = Answer::RowAt { rid, row };
                writeln!(output, "{answer}")
            }
            None => Ok(()),
        }
    }

    // Prints the rows of a page, in the order of their slots.
    fn dump_page<W: Write>(&self, page: u32, output: &mut W) -> io::Result<()>
        ensures { OnOk result (Appends (W.contents output.old) (W.contents output.new)
            (slot_lines (rows_of self.now) page SLOTS_PER_PAGE)) }
    {
        for slot in 0..SLOTS_PER_PAGE {
            self.dump_row(Rid { page, slot }, output)?;
        }
        Ok(())
    }

    // The entry of the least pair above this one, or the least of all.
    fn entry_above(&self, last: Option<Pair>) -> Option<(Pair, Mark)>
        ensures { IsLeastAbove (entries_of self.now) last result }
    {
        self.engine.core().above(last.as_ref())
    }

    // Prints the entries of the index, in the order of their pairs.
    fn dump_entries<W: Write>(&self, output: &mut W) -> io::Result<()>
        ensures { OnOk result (Appends (W.contents output.old) (W.contents output.new)
            (entry_lines (entries_of self.now))) }
    {
        let mut last = None;
        while let Some(entry) = self.entry_above(last) {
            dump_entry(entry.0, entry.1, output)?;
            last = Some(entry.0);
        }
        Ok(())
    }

    /// Prints each row, in the order of their places, then each entry of the index, in the order of their pairs, and
    /// how far the index is.
    pub fn dump<W: Write>(&self, output: &mut W) -> io::Result<()>
        ensures { OnOk result (Appends (W.contents output.old) (W.contents output.new) (dump_text self.now)) }
    {
        for page in 0..self.engine.core().pages() {
            self.dump_page(page, output)?;
        }
        self.dump_entries(output)?;
        let answer = Answer::Life(self.life());
        writeln!(output, "{answer}")
    }
}
