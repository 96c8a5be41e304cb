// The verbs of `nsf-store` on a file of blocks, whole and harmed.
use crate::answers::Look;
use crate::claims::claim;
use crate::program::{Deed, ProgramRun, take_all};
use crate::steps::Act;
use std::fs::File;
use std::process::Abort;
use std::rt::{Clock, Files};
use std::{fs, io};

const NEW: &[&str] = &[
    "nsf-store",
    "new",
    "b",
    "--blocks",
    "--pages",
    "1",
    "--entries",
    "64",
    "--slots",
    "4",
];

const STAT: &str = "format 2
pages 1
entries 64
slots 4
slots in use 1
records behind image 4
last record 4
life building -
rows 2
live 0
marked 0
reserved 0
free 64
rows free 61
";

const DUMP: &str = "row 0.0 :61 :
row 0.1 :62 :
live :61 0.0
live :62 0.1
life complete
";

const SOUND: Deed = Deed::Call(&["nsf-store", "check", "b"], 0, "sound\n", "");

static SHOWN: [Deed; 10] = [
    Deed::Call(NEW, 0, "", ""),
    Deed::Call(NEW, 1, "", "nsf-store: b: it is there already\n"),
    Deed::Act("b.nsf-draft", Act::Miss),
    SOUND,
    Deed::Serve(ProgramRun {
        words: &["nsf-store", "run", "b"],
        input: "begin\ninsert 1 =a =\ninsert 1 =b =\ncommit 1\ncreate\nbuild\nflush\n",
        status: 0,
        look: Look::Whole,
        printed: "txn 1\nrid 0.0\nrid 0.1\nticket 3\nticket 4\nscanned 0\nhorizon 4\n",
        said: "",
    }),
    Deed::Call(&["nsf-store", "stat", "b"], 0, STAT, ""),
    Deed::Call(
        &["nsf-store", "build", "b"],
        0,
        "complete, 2 pairs attempted\n",
        "",
    ),
    Deed::Call(&["nsf-store", "dump", "b"], 0, DUMP, ""),
    Deed::Call(
        &["nsf-store", "scan", "b"],
        0,
        ":61 0.0\n:62 0.1\nend\n",
        "",
    ),
    SOUND,
];

const MOVED_STAT: &str = "format 2
pages 1
entries 64
slots 4
slots in use 1
records behind image 3
last record 7
life complete
rows 2
live 2
marked 0
reserved 0
free 62
rows free 61
";

// From either kind of file to the other. One of the same kind needs no move.
static MOVED: [Deed; 8] = [
    Deed::Call(&["nsf-store", "migrate", "b", "plain"], 0, MOVED_STAT, ""),
    Deed::Call(&["nsf-store", "dump", "plain"], 0, DUMP, ""),
    Deed::Call(
        &["nsf-store", "migrate", "--blocks", "plain", "again"],
        0,
        MOVED_STAT,
        "",
    ),
    Deed::Call(&["nsf-store", "dump", "again"], 0, DUMP, ""),
    Deed::Call(
        &["nsf-store", "migrate", "--blocks", "again", "more"],
        1,
        "",
        "nsf-store: again: it holds a store of version 2 or 3, which needs no move\n",
    ),
    Deed::Act("more", Act::Miss),
    Deed::Act("again", Act::Remove),
    Deed::Act("plain", Act::Remove),
];

static REMOVED: [Deed; 1] = [Deed::Act("b", Act::Remove)];

// A store is made in a file of blocks, served, built and shown.
fn show<R: Abort + Files<File = File> + Clock + AllocGlobal>(rt: &R) {
    take_all(rt, &SHOWN);
}

// The same, and it is moved.
fn show_and_move<R: Abort + Files<File = File> + Clock + AllocGlobal>(rt: &R) {
    show(rt);
    take_all(rt, &MOVED);
    take_all(rt, &REMOVED);
}

#[test]
fn a_store_in_blocks_is_made_served_built_shown_and_moved(rt: HostRuntime) {
    show_and_move(&rt);
}

// Where the parts of the file begin: two headers, two areas of 64 blocks, a block of digests, and the data.
const SECOND_HEADER: usize = 4_096;

const AREA: usize = 2 * 4_096;

const SECOND_AREA: usize = 66 * 4_096;

const DATA: usize = 131 * 4_096;

// The last byte of a header is one of its digest.
const LAST: usize = 4_095;

// Flips a bit of each of these bytes of the file.
fn flip<R: Files<File = File> + AllocGlobal>(
    rt: &R,
    path: &str,
    places: &[usize],
) -> io::Result<()> {
    let mut bytes = fs::read(rt, path)?;
    for place in places {
        if let Some(byte) = bytes.get_mut(*place) {
            *byte ^= 1;
        }
    }
    let written = fs::write(rt, path, bytes.as_slice());
    drop(bytes);
    written
}

// While a bit of each of these bytes is flipped, this is so.
fn take_flipped<R: Abort + Files<File = File> + Clock + AllocGlobal>(
    rt: &R,
    places: &[usize],
    deeds: &[Deed],
) {
    claim(rt, flip(rt, "b", places).is_ok(), "the file is harmed");
    take_all(rt, deeds);
    claim(rt, flip(rt, "b", places).is_ok(), "the file is mended");
}

static STILL_SOUND: [Deed; 2] = [SOUND, Deed::Call(&["nsf-store", "dump", "b"], 0, DUMP, "")];

const AT_0: &str = "nsf-store: b: it is damaged at sector 0\n";

// The first block has the first four sectors.
static DAMAGED: [Deed; 5] = [
    Deed::Call(
        &["nsf-store", "check", "b"],
        1,
        "damaged sector 0\ndamaged sector 1\ndamaged sector 2\ndamaged sector 3\n",
        AT_0,
    ),
    Deed::Call(&["nsf-store", "dump", "b"], 1, "", AT_0),
    Deed::Call(&["nsf-store", "stat", "b"], 1, "", AT_0),
    Deed::Call(&["nsf-store", "run", "b"], 1, "", AT_0),
    Deed::Call(&["nsf-store", "migrate", "b", "plain"], 1, "", AT_0),
];

static NO_HEADER: [Deed; 2] = [
    Deed::Call(
        &["nsf-store", "check", "b"],
        1,
        "",
        "nsf-store: b: both of its headers are damaged\n",
    ),
    Deed::Call(
        &["nsf-store", "run", "b"],
        1,
        "",
        "nsf-store: b: both of its headers are damaged\n",
    ),
];

static NO_JOURNAL: [Deed; 1] = [Deed::Call(
    &["nsf-store", "dump", "b"],
    1,
    "",
    "nsf-store: b: both areas of its journal are damaged\n",
)];

// A bit of one of these bytes changes nothing: in the first header, in the second one, and in each area of the journal.
static MENDED: [usize; 4] = [0, SECOND_HEADER + LAST, AREA, SECOND_AREA];

// The store is harmed.
fn show_and_harm<R: Abort + Files<File = File> + Clock + AllocGlobal>(rt: &R) {
    show(rt);
    take_flipped(rt, &[DATA + 2_100], &DAMAGED);
    take_flipped(rt, &[9, SECOND_HEADER + LAST], &NO_HEADER);
    take_flipped(rt, &[AREA, SECOND_AREA], &NO_JOURNAL);
    for place in &MENDED {
        take_flipped(rt, &[*place], &STILL_SOUND);
    }
    take_all(rt, &STILL_SOUND);
    take_all(rt, &REMOVED);
}

#[test]
fn damage_of_a_file_of_blocks_is_told_or_changes_nothing(rt: HostRuntime) {
    show_and_harm(&rt);
}
