// What can still be read of a damaged store is put into a new file.
use crate::claims::claim_at;
use crate::program::{Deed, take_all};
use crate::steps::Act;
use records::Error;
use sector_device::{Device, FaultDisk, SECTOR_SIZE, Which};
use std::alloc::{AllocError, Global};
use store_file::{Detached, FileDisk};
use store_salvage::copy_readable;
use test_store::{Edit, GROUP};

// How many sectors a store of two pages, 64 entries and 4 slots has.
const SECTORS: u64 = 2_198;

const SUPERBLOCK: Edit<'_> = (0, 0, b"NSFINDEX\0\0\0\x02\0\0\0\x02\0\0\0\x40\0\0\0\x04");

// A row in slot 1 of page 0 of half A.
const BEE: Edit<'_> = (1_028, 192, b"\x01\x03bee");

const BEE_BODY: Edit<'_> = (1_028, 250, b"\x01y");

// The second page of half A has a byte that can't be. Its log has a row that is committed, and an open slot behind it
// that has no group.
const HARMED: &[Edit<'_>] = &[
    SUPERBLOCK,
    BEE,
    BEE_BODY,
    (1_044, 0, b"\x01"),
    (1_068, 0, b"\xa5"),
    (1_069, 0, GROUP),
    (1_076, 0, b"\xa5"),
];

// The same under a first sector that says nothing.
const NAMELESS: &[Edit<'_>] = &[
    BEE,
    BEE_BODY,
    (1_044, 0, b"\x01"),
    (1_068, 0, b"\xa5"),
    (1_069, 0, GROUP),
    (1_076, 0, b"\xa5"),
];

const LOST: &str = "lost page 1
lost log from slot 1
format 2
pages 2
entries 64
slots 4
slots in use 0
records behind image 0
last record 2
life none
rows 2
live 0
marked 0
reserved 0
free 64
rows free 124
";

// The header of half A says nothing. Half B has a row in page 0.
const TURNED: &[Edit<'_>] = &[
    SUPERBLOCK,
    (2, 0, b"\x09"),
    (2_126, 64, b"\x01\x03cow"),
    (2_126, 122, b"\x01z"),
];

// The file ends within the log of half B.
const LOST_HALF: &str = "unread sector 2197
lost half A
format 2
pages 2
entries 64
slots 4
slots in use 0
records behind image 0
last record 0
life none
rows 1
live 0
marked 0
reserved 0
free 64
rows free 125
";

const SALVAGE: &[&str] = &["nsf-store", "salvage", "harmed", "new"];

const SALVAGE_SIZED: &[&str] = &[
    "nsf-store",
    "salvage",
    "harmed",
    "new",
    "--pages",
    "2",
    "--entries",
    "64",
    "--slots",
    "4",
];

const EXPORT: &[&str] = &["nsf-store", "export", "new"];

const SOUND: Deed = Deed::Call(&["nsf-store", "check", "new"], 0, "sound\n", "");

// A disk in memory.
type Memory = FileDisk<Detached, Global>;

const REMOVE_NEW: Deed = Deed::Act("new", Act::Remove);

// The harmed file is as before then. One whose first sector says nothing gives nothing.
static SALVAGED: [Deed; 16] = [
    Deed::Lay("harmed", (SECTORS, HARMED)),
    Deed::Call(
        &["nsf-store", "check", "harmed"],
        1,
        "",
        "nsf-store: harmed: it is damaged at sector 1044\n",
    ),
    Deed::Call(SALVAGE, 0, LOST, ""),
    Deed::Call(EXPORT, 0, "key,body\nant,x\nbee,y\n", ""),
    SOUND,
    Deed::Keep("harmed", (SECTORS, HARMED)),
    REMOVE_NEW,
    Deed::Lay("harmed", (SECTORS - 1, TURNED)),
    Deed::Call(SALVAGE, 0, LOST_HALF, ""),
    Deed::Call(EXPORT, 0, "key,body\ncow,z\n", ""),
    SOUND,
    REMOVE_NEW,
    Deed::Lay("harmed", (SECTORS, &[SUPERBLOCK, (0, 11, b"\x04")])),
    Deed::Call(
        SALVAGE,
        1,
        "",
        "nsf-store: harmed: it is damaged at sector 0\n",
    ),
    Deed::Act("new", Act::Miss),
    Deed::Act("harmed", Act::Remove),
];

// A file that ends within a sector gives what its whole sectors do, and is no store else. One that is longer than its
// store is salvaged too, and so is one whose first sector says nothing, where its size is given.
static SIZED: [Deed; 12] = [
    Deed::Lay("harmed", (SECTORS + 1, &[SUPERBLOCK])),
    Deed::Call(
        &["nsf-store", "check", "harmed"],
        1,
        "",
        "nsf-store: harmed: it has 2199 sectors, and the store that it begins with 2198: a number in its first sector may be damaged. `nsf-store salvage` takes the right ones by --pages, --entries and --slots\n",
    ),
    Deed::Lay("harmed", (SECTORS + 1, HARMED)),
    Deed::Call(SALVAGE, 0, LOST, ""),
    REMOVE_NEW,
    Deed::Lay("harmed", (SECTORS, NAMELESS)),
    Deed::Call(
        SALVAGE,
        1,
        "",
        "nsf-store: harmed: it holds no store of this format\n",
    ),
    Deed::Call(SALVAGE_SIZED, 0, LOST, ""),
    Deed::Call(EXPORT, 0, "key,body\nant,x\nbee,y\n", ""),
    REMOVE_NEW,
    Deed::Act("harmed", Act::Put(1, 1_000)),
    Deed::Call(
        SALVAGE,
        1,
        "",
        "nsf-store: harmed: it holds no store of this format\n",
    ),
];

// So many sectors has a disk, each of its number, and one more than that is copied.
const COUNT: u64 = 4;

// A disk whose call of this number fails.
fn faulty(alloc: Global, fails_at: u64) -> Result<FaultDisk<Memory>, AllocError> {
    let content = [
        [0; SECTOR_SIZE],
        [1; SECTOR_SIZE],
        [2; SECTOR_SIZE],
        [3; SECTOR_SIZE],
    ];
    let disk = FileDisk::holding(alloc, Detached, &content)?;
    Ok(FaultDisk::new(disk, Which::All, fails_at))
}

// Whether these are the sectors but the one of this number, which isn't read.
fn are_others(content: &[[u8; SECTOR_SIZE]], missing: u64) -> bool {
    let mut number: u64 = 0;
    for sector in content {
        let byte = if number == missing || number == COUNT {
            0xff
        } else {
            (number & 0xff) as u8
        };
        if *sector != [byte; SECTOR_SIZE] {
            return false;
        }
        number = number.saturating_add(1);
    }
    true
}

// Whether a copy tells just the sector of this number, whose read fails, and the one behind the disk's end.
fn tells_alone(alloc: Global, missing: u64) -> Result<bool, Error> {
    let mut from = faulty(alloc, missing.saturating_add(1))?;
    let mut to = FileDisk::new(alloc, Detached, COUNT as usize + 1)?;
    if to.sectors() != COUNT + 1 {
        return Ok(false);
    }
    let unread = copy_readable(alloc, &mut from, &mut to, COUNT + 1)?;
    let told = [missing, COUNT];
    Ok(unread.as_slice() == told.as_slice() && are_others(to.content(), missing))
}

#[test]
fn what_can_be_read_is_salvaged(rt: HostRuntime) {
    take_all(&rt, &SALVAGED);
    take_all(&rt, &SIZED);
    for missing in 0..COUNT {
        let is_so = tells_alone(rt.alloc(), missing).unwrap_or(false);
        claim_at(
            &rt,
            is_so,
            "the failing read of sector",
            missing,
            "more is told",
        );
    }
}
