// The verbs of `nsf-store`, one behind the other on real files.
use crate::answers::Look;
use crate::claims::claim;
use crate::help::HELP;
use crate::program::{Deed, ProgramRun, take_each};
use crate::scripts::{FILLING, MANY};
use crate::steps::Act;
use program_shell::refuse_words;
use std::fs::File;
use std::io;
use std::io::ErrorKind;
use std::process::Abort;
use std::rt::{Clock, Files};
use test_store::{BUILDING_1, Edit, GROUP, SUPERBLOCK_1};

const NEW: &[&str] = &[
    "nsf-store",
    "new",
    "s",
    "--pages",
    "1",
    "--entries",
    "64",
    "--slots",
    "4",
];

const SCRIPT: &str = "begin
insert 1 =a =
insert 1 =b =
commit 1
create
build
flush
nonsense
crash zero
";

const ANSWERS: &str = "txn 1
rid 0.0
rid 0.1
ticket 3
ticket 4
scanned 0
horizon 4
refused 22 BadScript 8
skipped
";

const STAT: &str = "format 2
pages 1
entries 64
slots 4
slots in use 1
records behind image 4
last record 4
life building -
rows 2
live 0
marked 0
reserved 0
free 64
rows free 61
";

const DUMP: &str = "row 0.0 :61 :
row 0.1 :62 :
live :61 0.0
live :62 0.1
life complete
";

static SHOWN: [Deed; 5] = [
    Deed::Call(&["nsf-store", "--help"], 0, HELP, ""),
    Deed::Call(NEW, 0, "", ""),
    Deed::Call(NEW, 1, "", "nsf-store: s: it is there already\n"),
    Deed::Call(&["nsf-store", "check", "s"], 0, "sound\n", ""),
    Deed::Call(
        &["nsf-store", "build", "s"],
        1,
        "",
        "nsf-store: s: it has no index; `create` in `run` begins one\n",
    ),
];

static SERVED: [Deed; 6] = [
    Deed::Serve(ProgramRun {
        words: &["nsf-store", "run", "s"],
        input: SCRIPT,
        status: 1,
        look: Look::Whole,
        printed: ANSWERS,
        said: "nsf-store: line 8: `nonsense` is no command; `help` tells of all\n",
    }),
    Deed::Call(&["nsf-store", "stat", "s"], 0, STAT, ""),
    Deed::Call(
        &["nsf-store", "build", "s"],
        0,
        "complete, 2 pairs attempted\n",
        "",
    ),
    Deed::Call(&["nsf-store", "dump", "s"], 0, DUMP, ""),
    Deed::Call(&["nsf-store", "check", "s"], 0, "sound\n", ""),
    Deed::Act("s", Act::Remove),
];

// Words that can't be read for this.
fn refuse<R: Abort + AllocGlobal>(rt: &R, kind: ErrorKind) {
    let mut errors = Vec::new(rt.alloc());
    let status = refuse_words("nsf-store", io::Error::from(kind), &mut errors);
    let is_told = errors.as_slice() == b"nsf-store: a name that isn't text\n".as_slice();
    drop(errors);
    claim(rt, status == 2, "the status of bad words");
    claim(rt, is_told, "what of the words is wrong");
}

static OTHER_KINDS: [Deed; 5] = [
    Deed::Act("t", Act::Put(1, 1_024)),
    Deed::Call(
        &["nsf-store", "check", "t"],
        1,
        "",
        "nsf-store: t: it holds no store of this format\n",
    ),
    Deed::Act("t", Act::Put(1, 1_000)),
    Deed::Call(
        &["nsf-store", "stat", "t"],
        1,
        "",
        "nsf-store: t: its length of 1000 bytes is no number of sectors from 1 to 8388608\n",
    ),
    Deed::Act("t", Act::Remove),
];

// The first command that is refused is a step of the builder behind 31 updates, and the second one is the last line.
const FULL: &str =
    "nsf-store: the index is full. What open transactions reserve comes free at their end, and `clean` takes marked \
    entries out. Where neither helps, `drop` and then `create` make the index anew\n\
    nsf-store: commands refused: 2, the first in line 219\n";

const AGAIN: &str =
    "nsf-store: f: its index is full: `nsf-store build --again` drops it, creates it anew and builds it\n";

static WAY_OUT: [Deed; 6] = [
    Deed::Call(
        &["nsf-store", "new", "f", "--pages", "1", "--entries", "64"],
        0,
        "",
        "",
    ),
    Deed::Serve(ProgramRun {
        words: &["nsf-store", "run", "f"],
        input: FILLING,
        status: 0,
        look: Look::End,
        printed: "refused 13 IndexFull\n",
        said: FULL,
    }),
    Deed::Call(&["nsf-store", "build", "f"], 1, "", AGAIN),
    Deed::Call(
        &["nsf-store", "build", "--again", "f"],
        0,
        "complete, 60 pairs attempted\n",
        "",
    ),
    Deed::Call(&["nsf-store", "check", "f"], 0, "sound\n", ""),
    Deed::Act("f", Act::Remove),
];

static TOO_SMALL: [Deed; 4] = [
    Deed::Call(
        &["nsf-store", "new", "m", "--pages", "2", "--entries", "64"],
        0,
        "",
        "",
    ),
    Deed::Serve(ProgramRun {
        words: &["nsf-store", "run", "m"],
        input: MANY,
        status: 0,
        look: Look::End,
        printed: "rid 1.2\nticket 68\n",
        said: "",
    }),
    Deed::Call(
        &["nsf-store", "build", "--again", "m"],
        1,
        "",
        "nsf-store: m: its index has fewer places than the table has rows\n",
    ),
    Deed::Act("m", Act::Remove),
];

const CUT: &str = "nsf-store: the file's length was changed while it was open
nsf-store: commands refused: 2, the first in line 4
nsf-store: transactions open at the end, of which nothing is kept: 2
nsf-store: d: the file's length was changed while it was open
";

const CUT_DURABLY: &str = "nsf-store: the file's length was changed while it was open
nsf-store: commands refused: 2, the first in line 3
nsf-store: transactions open at the end, of which nothing is kept: 2
nsf-store: d: the file's length was changed while it was open
";

const NEW_D: Deed = Deed::Call(&["nsf-store", "new", "d", "--pages", "1"], 0, "", "");

static DURABLE: [Deed; 3] = [
    NEW_D,
    Deed::Serve(ProgramRun {
        words: &["nsf-store", "run", "--durable", "d"],
        input: "begin\ninsert 1 =a =\ncommit 1\nbegin\ncommit 2\ncommit 9\n",
        status: 0,
        look: Look::Durable("d"),
        printed: "txn 1\nrid 0.0\nticket 2\nhorizon 2\n\
            txn 2\nticket 3\nhorizon 3\nrefused 9 NoSuchTxn\n",
        said: "nsf-store: commands refused: 1, the first in line 6\n",
    }),
    Deed::Act("d", Act::Remove),
];

static CUT_OFF: [Deed; 6] = [
    NEW_D,
    Deed::Serve(ProgramRun {
        words: &["nsf-store", "run", "d"],
        input: "begin\ninsert 1 =a =\ncommit 1\nflush\nbegin\ncommit 2\n",
        status: 1,
        look: Look::Cut("d"),
        printed: "txn 1\nrid 0.0\nticket 2\nrefused 2 DeviceFailed\ntxn 2\nrefused 2 DeviceFailed\n",
        said: CUT,
    }),
    Deed::Act("d", Act::Remove),
    NEW_D,
    Deed::Serve(ProgramRun {
        words: &["nsf-store", "run", "--durable", "d"],
        input: "begin\ninsert 1 =a =\ncommit 1\nbegin\ncommit 2\n",
        status: 1,
        look: Look::Cut("d"),
        printed: "txn 1\nrid 0.0\nrefused 2 DeviceFailed\ntxn 2\nrefused 2 DeviceFailed\n",
        said: CUT_DURABLY,
    }),
    Deed::Act("d", Act::Remove),
];

const LOST: &str =
    "nsf-store: the file that is open no longer has its name. Where it is gone, a flush tells so
nsf-store: d: the file was removed while it was open, or another was put in its place
nsf-store: commands refused: 1, the first in line 7
";

// The file that is open gets another name, and has what is committed then. It isn't copied.
static RENAMED: [Deed; 6] = [
    NEW_D,
    Deed::Serve(ProgramRun {
        words: &["nsf-store", "run", "d"],
        input: "begin\ninsert 1 =a =\ncommit 1\nbegin\ninsert 2 =b =\ncommit 2\nbackup copy\n",
        status: 0,
        look: Look::Moved("d", "e"),
        printed: "txn 1\nrid 0.0\nticket 2\ntxn 2\nrid 0.1\nticket 4\nrefused backup\n",
        said: LOST,
    }),
    Deed::Call(
        &["nsf-store", "dump", "e"],
        0,
        "row 0.0 :61 :\nrow 0.1 :62 :\nlife none\n",
        "",
    ),
    Deed::Act("d", Act::Miss),
    Deed::Act("copy", Act::Miss),
    Deed::Act("e", Act::Remove),
];

// How many sectors the least store of version 1 has.
const SECTORS: u64 = 1_118;

// A row of a transaction that commits, in the log.
const LOGGED: &[Edit<'_>] = &[SUPERBLOCK_1, (528, 0, b"\xa5"), (529, 0, GROUP)];

const LOGGED_STAT: &str = "format 2
pages 1
entries 64
slots 4
slots in use 0
records behind image 0
last record 2
life none
rows 1
live 0
marked 0
reserved 0
free 64
rows free 62
";

const BUILDING_STAT: &str = "format 2
pages 1
entries 64
slots 4
slots in use 0
records behind image 0
last record 6
life building :616e74 0.0
rows 1
live 1
marked 1
reserved 0
free 62
rows free 62
";

const OLD: Deed = Deed::Call(
    &["nsf-store", "stat", "old"],
    1,
    "",
    "nsf-store: old: it holds a store of version 1, which `nsf-store migrate` moves to a new file\n",
);

const MOVE: &[&str] = &["nsf-store", "migrate", "old", "new"];

const SOUND: Deed = Deed::Call(&["nsf-store", "check", "new"], 0, "sound\n", "");

const THERE: Deed = Deed::Call(MOVE, 1, "", "nsf-store: new: it is there already\n");

const MOVE_NEW: Deed = Deed::Call(
    &["nsf-store", "migrate", "new", "other"],
    1,
    "",
    "nsf-store: new: it holds a store of version 2 or 3, which needs no move\n",
);

const REMOVE_OLD: Deed = Deed::Act("old", Act::Remove);

const REMOVE_NEW: Deed = Deed::Act("new", Act::Remove);

// A store of version 1 is moved, and is as before then.
static MOVED: [Deed; 9] = [
    Deed::Lay("old", (SECTORS, LOGGED)),
    OLD,
    Deed::Call(MOVE, 0, LOGGED_STAT, ""),
    SOUND,
    THERE,
    MOVE_NEW,
    Deed::Keep("old", (SECTORS, LOGGED)),
    REMOVE_OLD,
    REMOVE_NEW,
];

static MOVED_BUILDING: [Deed; 9] = [
    Deed::Lay("old", (SECTORS, BUILDING_1)),
    OLD,
    Deed::Call(MOVE, 0, BUILDING_STAT, ""),
    SOUND,
    THERE,
    MOVE_NEW,
    Deed::Keep("old", (SECTORS, BUILDING_1)),
    REMOVE_OLD,
    REMOVE_NEW,
];

const MIGRATE: &[&str] = &["nsf-store", "migrate", "harmed", "left"];

const NO_FILE: Deed = Deed::Act("left", Act::Miss);

const NO_DRAFT: Deed = Deed::Act("left.nsf-draft", Act::Miss);

// Such a file isn't moved, and this is said. No other file is left.
static HARMED: [Deed; 8] = [
    Deed::Lay("harmed", (SECTORS, &[SUPERBLOCK_1, (516, 0, b"\x01")])),
    Deed::Call(
        MIGRATE,
        1,
        "",
        "nsf-store: harmed: it is damaged at sector 516\n",
    ),
    NO_FILE,
    NO_DRAFT,
    Deed::Lay("harmed", (SECTORS, &[SUPERBLOCK_1, (0, 11, b"\x03")])),
    Deed::Call(
        MIGRATE,
        1,
        "",
        "nsf-store: harmed: it is damaged at sector 0\n",
    ),
    NO_FILE,
    NO_DRAFT,
];

static CUT_SHORT: [Deed; 9] = [
    Deed::Lay("harmed", (SECTORS - 1, &[SUPERBLOCK_1])),
    Deed::Call(
        MIGRATE,
        1,
        "",
        "nsf-store: harmed: it is shorter than the store that it begins with\n",
    ),
    NO_FILE,
    NO_DRAFT,
    Deed::Lay("harmed", (SECTORS, &[])),
    Deed::Call(
        MIGRATE,
        1,
        "",
        "nsf-store: harmed: it holds no store of this format\n",
    ),
    NO_FILE,
    NO_DRAFT,
    Deed::Act("harmed", Act::Remove),
];

fn shown() -> &'static [Deed] {
    &SHOWN
}

fn served() -> &'static [Deed] {
    &SERVED
}

fn other_kinds() -> &'static [Deed] {
    &OTHER_KINDS
}

fn way_out() -> &'static [Deed] {
    &WAY_OUT
}

fn too_small() -> &'static [Deed] {
    &TOO_SMALL
}

fn durable() -> &'static [Deed] {
    &DURABLE
}

fn cut_off() -> &'static [Deed] {
    &CUT_OFF
}

fn renamed() -> &'static [Deed] {
    &RENAMED
}

fn moved() -> &'static [Deed] {
    &MOVED
}

fn moved_building() -> &'static [Deed] {
    &MOVED_BUILDING
}

fn harmed() -> &'static [Deed] {
    &HARMED
}

fn cut_short() -> &'static [Deed] {
    &CUT_SHORT
}

// Each table is named by a function of its own: one that names all of them takes many times longer to prove.
fn all() -> [&'static [Deed]; 12] {
    [
        // a store is made, served, built and shown; another kind of file is told
        shown(),
        served(),
        other_kinds(),
        // the way out of a full index is told, and that one is too small
        way_out(),
        too_small(),
        // a durable commit is kept, and what a file with another name has
        durable(),
        cut_off(),
        renamed(),
        // stores of version 1 are moved, or not
        moved(),
        moved_building(),
        harmed(),
        cut_short(),
    ]
}

#[test]
fn the_verbs_behind_one_another(rt: HostRuntime) {
    take_each(&rt, &all());
    refuse(&rt, ErrorKind::InvalidData);
}
