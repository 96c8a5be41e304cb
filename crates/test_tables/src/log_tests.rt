// The calls of a device by which a group of records is added to a log.
ghost use Rattle.std.specs.Prelude.{◌≡◌};

use crate::values::{claim, claim_at};
use gate_log::{Appended, LogArea, fits};
use records::{Error, Record};
use sector_device::{Device, Failed, MemDisk, SECTOR_SIZE};
use std::alloc::{Allocator, Global};
use std::mem::forget;
use std::process::Abort;

// A log of two slots.
const FIRST: u64 = 2;

const SLOTS: u64 = 2;

const SECTORS: u64 = 18;

// The calls of the device that adding a group takes: seven writes of its body, a sync, a write of its gate, and a sync.
const GROUP: &[u8] = b"bbbbbbbsgs";

// A device that notes its writes and syncs.
#[derive(Drop)]
struct Noting<D> {
    device: D,
    calls: [u8; 32],
    made: usize,
}

impl<D> Noting<D> {
    fn new(device: D) -> Noting<D> {
        let calls = [0; 32];
        Noting {
            device,
            calls,
            made: 0,
        }
    }

    fn note(&mut self, call: u8)
        ensures { self.new.device ≡ self.old.device }
    {
        if self.made < 32 {
            self.calls[self.made] = call;
            self.made += 1;
        }
    }

    // The calls since so many were made.
    fn since(&self, made: usize) -> &[u8] {
        if made <= self.made && self.made <= 32 {
            &self.calls[made..self.made]
        } else {
            &[]
        }
    }
}

impl<D: Device> Device for Noting<D> {
    ghost past_of = { λ d. D.past_of d.device };

    ghost failures = { λ d. D.failures d.device };

    fn sectors(&self) -> u64 {
        self.device.sectors()
    }

    fn read(&mut self, n: u64, buffer: &mut [u8; SECTOR_SIZE]) -> Result<(), Failed> {
        self.device.read(n, buffer)
    }

    fn write(&mut self, n: u64, bytes: &[u8; SECTOR_SIZE]) -> Result<(), Failed> {
        self.note(if n % 8 == FIRST { b'g' } else { b'b' });
        self.device.write(n, bytes)
    }

    fn sync(&mut self) -> Result<(), Failed> {
        self.note(b's');
        self.device.sync()
    }
}

// How many calls were made before each of three groups.
#[derive(Clone, Copy)]
struct Made {
    cleared: usize,
    added: usize,
    both: usize,
}

// Clears the log and adds two groups of the records, and then one more, for which there is no room. How many calls were
// made before each, if all went so.
fn add_groups<D: Device, A: Allocator + Copy>(
    rt: &impl Abort,
    alloc: A,
    disk: &mut Noting<D>,
    records: &[Record],
) -> Result<Option<Made>, Error> {
    assert!(rt; disk.sectors() == SECTORS && fits(records));
    let mut log = LogArea::new(FIRST, SLOTS);
    log.clear(disk)?;
    let cleared = disk.made;
    let Appended::Done = log.append(alloc, disk, records)? else {
        return Ok(None);
    };
    let added = disk.made;
    let Appended::Done = log.append(alloc, disk, records)? else {
        return Ok(None);
    };
    let both = disk.made;
    let Appended::Full = log.append(alloc, disk, records)? else {
        return Ok(None);
    };
    Ok(Some(Made {
        cleared,
        added,
        both,
    }))
}

// Whether each group takes just those calls, and one that has no room none.
fn takes_these<D: Device>(disk: &Noting<D>, made: Made) -> bool {
    disk.since(made.both).is_empty()
        && disk.since(made.added) == GROUP
        && disk.since(made.cleared).starts_with(GROUP)
        && disk.since(made.cleared).len() == 2 * GROUP.len()
}

// Adds a group of so many of the records to a log.
fn count_calls<A: Allocator + Copy>(
    rt: &impl Abort,
    alloc: A,
    records: &[Record],
) -> Result<bool, Error> {
    let mut disk = Noting::new(MemDisk::new(alloc, SECTORS, 64)?);
    let counted = match add_groups(rt, alloc, &mut disk, records) {
        Ok(Some(made)) => takes_these(&disk, made),
        _ => false,
    };
    forget(disk);
    Ok(counted)
}

// A commit of transaction 1, and its spelling: a group has room for 210 of them.
const COMMIT: &[u8] = b"\0\0\0\0\0\0\0\x02\0\0\0\0\0\0\0\x01\x07";

const MANY: usize = 210;

fn count_for_each(rt: &impl Abort, alloc: Global, record: Record) {
    for records in [1usize, MANY] {
        let group = [record; MANY];
        let counted = count_calls(rt, alloc, &group[..records]);
        let is_so = matches!(counted, Ok(true));
        claim_at(rt, is_so, "calls of a group of", records as u32);
    }
    claim(rt, !fits(&[record; MANY + 1]), "one record more");
}

// A group of one record, and one that is full.
#[test]
fn a_group_takes_ten_calls(rt: HostRuntime) {
    match Record::decode(COMMIT) {
        Some((record, _)) => count_for_each(&rt, rt.alloc(), record),
        None => claim(&rt, false, "a record"),
    }
}
