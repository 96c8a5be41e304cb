//! A store, and its calls.
use crate::answer::{Answer, answer_of};
use crate::contents::{Contents, contents_of};
use crate::disk::Disk;
use nsf_core::Core;
use records::Error;
use restart::{Engine, Event, MigrateError, Reply, migrate, restart};
use sector_device::{Device, FaultDisk, MemDisk};
use std::alloc::{Allocator, Global};
use std::marker::Model;
use test_memory::Refusing;

// The calls of an engine, on any device.

fn opened<D: Device, A: Allocator + Copy>(alloc: A, device: D) -> Result<Engine<D, A>, (Error, D)> {
    restart(alloc, device)
}

fn moved<O: Device, N: Device, A: Allocator + Copy>(
    alloc: A,
    old: &mut O,
    new: N,
) -> Result<Engine<N, A>, (MigrateError, N)> {
    migrate(alloc, old, new)
}

fn replies_to<D: Device, A: Allocator + Copy>(
    engine: &mut Engine<D, A>,
    events: &[Event],
) -> Result<Vec<Reply<A>, A>, Error> {
    engine.run(events)
}

// The number of the record that ended the build, or 0 where the index was complete and there was none.
fn completed<D: Device, A: Allocator + Copy>(engine: &mut Engine<D, A>) -> Result<u64, Error> {
    match engine.build_to_end() {
        Ok(Some(ticket)) => Ok(ticket.record.get()),
        Ok(None) => Ok(0),
        Err(error) => Err(error),
    }
}

// The number of the core's last record, that of the last that is safe, how many records the writer has not got, and the
// device.
fn parted<D: Device, A: Allocator + Copy>(engine: Engine<D, A>) -> (u64, u64, usize, D) {
    let (core, outgoing, writer) = engine.into_parts();
    let last = core.last();
    let missing = outgoing.len();
    drop(core);
    drop(outgoing);
    (last, writer.synced(), missing, writer.into_device())
}

fn core_of<D: Device, A: Allocator + Copy>(engine: &Engine<D, A>) -> &Core<A> {
    engine.core()
}

fn device_of<D: Device, A: Allocator + Copy>(engine: Engine<D, A>) -> D {
    engine.into_device()
}

fn answers_of<A: Allocator>(alloc: Global, replies: &[Reply<A>]) -> Result<Vec<Answer>, Error> {
    let mut answers = Vec::new(alloc);
    for reply in replies {
        answers.push(answer_of(reply))?;
    }
    Ok(answers)
}

/// A store that is open. It is closed, and never let go.
///
/// Tests are generic over it, so that their proofs read nothing of what a store is made of.
pub trait OpenStore {
    /// Runs the requests, and tells the answers.
    fn run(&mut self, events: &[Event]) -> Result<Vec<Answer>, Error>;

    /// Runs one request.
    fn ask(&mut self, event: &Event) -> Answer {
        match self.run(&[*event]) {
            Ok(answers) => {
                let answer = answers.first().copied().unwrap_or(Answer::Skipped);
                drop(answers);
                answer
            }
            Err(error) => Answer::Refused(error),
        }
    }

    /// What it holds now.
    fn contents(&self) -> Contents;

    /// Builds its index to the end: the number of the record that ended it.
    fn build_to_end(&mut self) -> Result<u64, Error>;

    /// Takes it apart: the number of its core's last record, up to which number all is safe, how many records its
    /// writer has not got, and the disk.
    fn into_parts(self) -> (u64, u64, usize, Disk);

    /// Gives up all but the disk.
    fn close(self) -> Disk;
}

/// Memory in which a store is opened.
pub trait StoreMemory: Copy {
    type Store: OpenStore;

    /// Opens the store on the disk, or gives it back.
    fn open(self, disk: Disk) -> Result<Self::Store, (Error, Disk)>;

    /// Moves the store of version 1 on the old disk to the new one, and opens it there; or gives the new one back.
    fn moved(self, old: &mut Disk, new: Disk) -> Result<Self::Store, (MigrateError, Disk)>;

    /// From now on refuses the allocation that so many come before.
    fn refuse_after(self, before: u64);

    /// How many allocations were refused.
    fn refused(self) -> u64;
}

/// A store that is open, over memory of this kind.
pub struct Store<A: Allocator> {
    engine: Engine<FaultDisk<MemDisk<Global>>, A>,
    alloc: Global,
}

impl<A: Allocator> Model for Store<A> {
    ghost use Rattle.std.specs.Prelude.{⊤};

    ghost Value = { ⊤ };

    ghost view = { λ _. tt };
}

impl<A: Allocator + Copy> OpenStore for Store<A> {
    fn run(&mut self, events: &[Event]) -> Result<Vec<Answer>, Error> {
        let replies = replies_to(&mut self.engine, events)?;
        let answers = answers_of(self.alloc, &replies);
        drop(replies);
        answers
    }

    fn contents(&self) -> Contents {
        contents_of(core_of(&self.engine))
    }

    fn build_to_end(&mut self) -> Result<u64, Error> {
        completed(&mut self.engine)
    }

    fn into_parts(self) -> (u64, u64, usize, Disk) {
        let Store { engine, alloc } = self;
        let (last, synced, missing, device) = parted(engine);
        (last, synced, missing, Disk { device, alloc })
    }

    fn close(self) -> Disk {
        let Store { engine, alloc } = self;
        Disk {
            device: device_of(engine),
            alloc,
        }
    }
}

// A store is opened on the disk, or moved to it, in any memory.

fn open_in<A: Allocator + Copy>(memory: A, disk: Disk) -> Result<Store<A>, (Error, Disk)> {
    let Disk { device, alloc } = disk;
    match opened(memory, device) {
        Ok(engine) => Ok(Store { engine, alloc }),
        Err((error, device)) => Err((error, Disk { device, alloc })),
    }
}

fn move_in<A: Allocator + Copy>(
    memory: A,
    old: &mut Disk,
    new: Disk,
) -> Result<Store<A>, (MigrateError, Disk)> {
    let Disk { device, alloc } = new;
    match moved(memory, &mut old.device, device) {
        Ok(engine) => Ok(Store { engine, alloc }),
        Err((error, device)) => Err((error, Disk { device, alloc })),
    }
}

impl<'a> StoreMemory for &'a Refusing<Global> {
    type Store = Store<&'a Refusing<Global>>;

    fn open(self, disk: Disk) -> Result<Store<&'a Refusing<Global>>, (Error, Disk)> {
        open_in(self, disk)
    }

    fn moved(
        self,
        old: &mut Disk,
        new: Disk,
    ) -> Result<Store<&'a Refusing<Global>>, (MigrateError, Disk)> {
        move_in(self, old, new)
    }

    fn refuse_after(self, before: u64) {
        Refusing::refuse_after(self, before);
    }

    fn refused(self) -> u64 {
        Refusing::refused(self)
    }
}
