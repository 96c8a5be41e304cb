//! A store under a script.
ghost use Rattle.std.specs.Prelude.{◌≡◌, OnOk, MatchResult};
ghost use Rattle.std.specs.Io.KnownBytes.{Appends};
ghost use Rattle.std.specs.declared.alloc.Global.{Global};
ghost use Rattle.sector_device.specs.declared.fault.FaultDisk.{FaultDisk};
ghost use Rattle.sector_device.specs.declared.memory.MemDisk.{MemDisk};
ghost use Rattle.program_commands.specs.Dump.{dump_text};
ghost use Rattle.program_player.specs.Disk.{LosesPower};
ghost use Rattle.program_player.specs.Session.{tells_stop};

use model::Life;
use program_commands::{Store, answer_of};
use program_values::Answer;
use records::Error;
use restart::{Event, Reply};
use sector_device::{Fate, FaultDisk, MemDisk, Which};
use std::alloc::Global;
use std::io;
use std::io::Write;

/// The program's disk: it is in memory, and one write or sync of it may be cut short.
pub type Disk = FaultDisk<MemDisk<Global>>;

/// The write or sync that was to be cut short was made.
#[derive(Clone, Copy)]
pub struct Stopped;

/// Why a script ended before its last command.
#[derive(Drop)]
pub enum End {
    /// The store could not be opened after a crash.
    Refused(Error),
    /// The write or sync that was to be cut short was made.
    Stopped(Disk),
}

/// A store, and what its script has done to it so far. It is let go of by its disk (`into_disk`).
pub struct Session {
    alloc: Global,
    store: Store<Disk>,
    // the number of the write or sync that is cut short, or 0
    fails_at: u64,
}

// The disk after a loss of power with this fate for every unsynced sector. The write or sync of
// this number is then cut short, or none at 0.
fn crashed(disk: Disk, fate: Fate, fails_at: u64) -> Disk
    ensures { LosesPower fate fails_at disk result }
{
    let mut memory = disk.into_inner();
    memory.crash(&[fate]);
    FaultDisk::new(memory, Which::WritesAndSyncs, fails_at)
}

// Whether the error tells that the write or sync of this number was made, which was to be cut short.
// The disk in memory fails by itself only where there is no memory to record its calls, and it has room for many.
fn tells_stop(fails_at: u64, error: Error) -> bool
    ensures { result ≡ tells_stop fails_at error }
{
    match error {
        Error::DeviceFailed => fails_at > 0,
        _ => false,
    }
}

impl Session {
    ghost use Rattle.restart.specs.declared.event.Reply.{Reply};
    ghost use Rattle.program_player.specs.Session.{OpensOn, IsRefusedOn, LeavesItsRun, disk_of, last_made, is_stop};
    ghost use Rattle.program_player.specs.Session.{outcome_of, ServesEvent, TakesImage, Flushes, calls_to_stop};
    ghost use Rattle.program_player.specs.Session.{Reopens};
    ghost use Rattle.program_player.specs.Session.{life_of};

    /// Opens the store on the disk, whose write or sync of this number is cut short, or none at 0.
    /// Where the restart is refused, the disk comes back.
    pub fn open(alloc: Global, disk: Disk, fails_at: u64) -> Result<Self, (Error, Disk)>
        ensures { MatchResult result
            (OpensOn disk fails_at)
            (λ r. IsRefusedOn disk r.1 r.0) }
    {
        match Store::open(alloc, disk) {
            Ok(store) => Ok(Session {
                alloc,
                store,
                fails_at,
            }),
            Err(refused) => Err(refused),
        }
    }

    /// Opens the store on the disk after a loss of power. No call is cut short any more.
    pub fn reopen(alloc: Global, disk: Disk, fate: Fate) -> Result<Self, (Error, Disk)>
        ensures { (after : FaultDisk (MemDisk Global)) × LosesPower fate 0 disk after × MatchResult result
            (OpensOn after 0)
            (λ r. IsRefusedOn after r.1 r.0) }
    {
        let disk = crashed(disk, fate, 0);
        Session::open(alloc, disk, 0)
    }

    /// How far the index is.
    pub fn life(&self) -> Life
        ensures { result ≡ life_of self.now }
    {
        self.store.life()
    }

    /// The disk, with what was written to it. A crash of it leaves what a restart takes back to a prefix of what was
    /// served, with everything that a reply has told to be safe.
    pub fn into_disk(self) -> Disk
        ensures disk { result ≡ disk_of self }
        ensures survives { LeavesItsRun self }
    {
        let Session {
            alloc: _,
            store,
            fails_at: _,
        } = self;
        store.into_device()
    }

    // Whether this reply tells that the write or sync that was to be cut short was made.
    fn is_stop(&self, reply: &Reply<Global>) -> bool
        ensures { result ≡ is_stop self.now reply.now }
    {
        match reply {
            Reply::Refused(error) => tells_stop(self.fails_at, *error),
            _ => false,
        }
    }

    // What is answered for the reply.
    fn outcome_of(&self, reply: Reply<Global>) -> Result<Answer, Stopped>
        ensures { result ≡ outcome_of self.now reply }
    {
        if self.is_stop(&reply) {
            return Err(Stopped);
        }
        Ok(answer_of(reply, self.store.horizon()))
    }

    /// Serves one event.
    pub fn serve(&mut self, event: Event) -> Result<Answer, Stopped>
        ensures { (reply : Reply Global) × ServesEvent event reply self.old self.new
            × (result ≡ outcome_of self.new reply) }
    {
        let reply = self.store.serve(event);
        self.outcome_of(reply)
    }

    /// Takes an image of the store and makes it current, unless that is refused.
    pub fn image(&mut self) -> Result<Answer, Stopped>
        ensures { (reply : Reply Global) × TakesImage reply self.old self.new × (result ≡ outcome_of self.new reply) }
    {
        let reply = self.store.take_image();
        self.outcome_of(reply)
    }

    /// Flushes until every record made is synced, or a flush or a copy is refused. Where the log is full, an image is
    /// taken and made current, and it goes on.
    pub fn flush(&mut self) -> Result<Answer, Stopped>
        ensures { (reply : Reply Global) × Flushes (last_made self.old) reply self.old self.new
            × (result ≡ outcome_of self.new reply) }
    {
        let reply = self.store.flush();
        self.outcome_of(reply)
    }

    /// Crashes the device with this fate for every unsynced sector, and opens the store again, which then serves as any
    /// other.
    pub fn crash(self, fate: Fate) -> Result<Self, End>
        ensures survives { LeavesItsRun self }
        ensures crashed { (disk : FaultDisk (MemDisk Global)) × LosesPower fate (calls_to_stop self) (disk_of self) disk
            × Reopens disk (calls_to_stop self) result }
    {
        let Session {
            alloc,
            store,
            fails_at,
        } = self;
        let disk = store.into_device();
        let left = fails_at.saturating_sub(disk.made());
        let disk = crashed(disk, fate, left);
        match Session::open(alloc, disk, left) {
            Ok(session) => Ok(session),
            Err((error, disk)) => {
                if tells_stop(left, error) {
                    Err(End::Stopped(disk))
                } else {
                    Err(End::Refused(error))
                }
            }
        }
    }

    /// Prints each row, in the order of their places, then each entry of the index, in the order of their pairs, and
    /// how far the index is.
    pub fn dump<W: Write>(&self, output: &mut W) -> io::Result<()>
        ensures { OnOk result (Appends (W.contents output.old) (W.contents output.new) (dump_text self.now.store)) }
    {
        self.store.dump(output)
    }
}
