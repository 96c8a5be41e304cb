// Files: names, locks and refusals; what is written, synced and named, and in which order; and calls that fail.
use crate::claims::claim_at;
use crate::scenes::{Opened, Other, Scene, play, play_noted};
use crate::steps::{Act, Call, Step, Use, told_of_act};
use crate::watched::{Log, System};
use std::fs::File;
use std::process::Abort;
use std::rt::Files;

// The shape of a scene.
use Opened::{Copy, Disk, Draft, Held, Nothing};
use System::{Calls, Fails, Plain};

const MAKE: Step = Step::Call(Call::Create(2));

const PUBLISH: Step = Step::Call(Call::Publish);

const DISCARD: Step = Step::Call(Call::Discard);

const OPEN: Step = Step::Call(Call::Open);

const READ: Step = Step::Call(Call::Read);

const REMOVE: Step = Step::Act(Act::Remove);

const MISS: Step = Step::Act(Act::Miss);

// Four bytes that no store has.
const PUT: Step = Step::Act(Act::Put(b'm', 4));

const HOLD: Step = Step::Act(Act::Hold(b'm', b'm', 4));

const HOLD_SEVENS: Step = Step::Use(Use::Hold(&[0, 7]));

// While a disk is a draft, another file takes its name and goes again. A publication that was cut off leaves both
// names: it is read, and an opening ends it. Where there is no memory for a file, no draft is left.
static DRAFT: [Scene; 5] = [
    (
        Draft("kept", 2),
        Plain,
        &[
            ("kept", MAKE, "DraftInUse"),
            ("kept", PUT, "done"),
            ("kept", PUBLISH, "Exists"),
            ("kept", MAKE, "Exists"),
            ("kept", HOLD, "done"),
            ("kept", REMOVE, "done"),
            ("kept", Step::Use(Use::Write(7)), "done"),
        ],
    ),
    (
        Nothing,
        Plain,
        &[("kept.nsf-draft", Step::Act(Act::NameToo("kept")), "done")],
    ),
    (Copy("kept"), Plain, &[("kept", HOLD_SEVENS, "done")]),
    (
        Disk("kept"),
        Plain,
        &[
            ("kept", HOLD_SEVENS, "done"),
            ("kept.nsf-draft", MISS, "done"),
        ],
    ),
    (
        Nothing,
        Plain,
        &[
            ("kept", REMOVE, "done"),
            ("other", Step::Call(Call::CreateInNone), "NoMemory"),
            ("other.nsf-draft", MISS, "done"),
        ],
    ),
];

static LOCKED: [Scene; 5] = [
    (
        Nothing,
        Plain,
        &[("locked", MAKE, "done"), ("locked", PUBLISH, "done")],
    ),
    (
        Disk("locked"),
        Plain,
        &[("locked", OPEN, "Busy"), ("locked", READ, "Busy")],
    ),
    (
        Held("locked"),
        Plain,
        &[("locked", READ, "done"), ("locked", OPEN, "Busy")],
    ),
    (Copy("locked"), Plain, &[("locked", OPEN, "done")]),
    (Nothing, Plain, &[("locked", REMOVE, "done")]),
];

// A file of no whole sector, an empty one, a folder, and a link. Then a file gets a second name, and another one the
// name of its draft.
static REFUSED: [Scene; 1] = [(
    Nothing,
    Plain,
    &[
        ("short", Step::Act(Act::Put(1, 1_000)), "done"),
        ("empty", Step::Act(Act::Put(0, 0)), "done"),
        ("folder", Step::Act(Act::MakeFolder), "done"),
        ("link", Step::Act(Act::LinkTo("short")), "done"),
        ("none", Step::Call(Call::Create(0)), "BadLength 0"),
        ("short", OPEN, "BadLength 1000"),
        ("empty", OPEN, "BadLength 0"),
        ("folder", OPEN, "NotAFile"),
        ("folder", READ, "NotAFile"),
        ("link", OPEN, "Linked"),
        ("missing", OPEN, "System 2"),
        ("short", Step::Act(Act::NameToo("other")), "done"),
        ("short.nsf-draft", PUT, "done"),
        ("short", OPEN, "Linked"),
        ("short.nsf-draft", HOLD, "done"),
        ("short", REMOVE, "done"),
        ("short.nsf-draft", REMOVE, "done"),
        ("empty", REMOVE, "done"),
        ("link", REMOVE, "done"),
        ("other", REMOVE, "done"),
        ("folder", Step::Act(Act::RemoveFolder), "done"),
    ],
)];

const ONE: Step = Step::Use(Use::Write(1));

const TWO: Step = Step::Use(Use::Write(2));

const MADE: &[(&str, Step, &str)] = &[("harmed", MAKE, "done"), ("harmed", PUBLISH, "done")];

// A disk is written, its file is removed, and it is written once more. To a disk of one sector nothing is written: it
// is only synced.
static HARMED: [Scene; 4] = [
    (Nothing, Plain, MADE),
    (
        Disk("harmed"),
        Plain,
        &[
            ("harmed", ONE, "done"),
            ("harmed", REMOVE, "done"),
            ("harmed", TWO, "Gone"),
        ],
    ),
    (
        Nothing,
        Plain,
        &[
            ("harmed", Step::Call(Call::Create(1)), "done"),
            ("harmed", PUBLISH, "done"),
        ],
    ),
    (
        Disk("harmed"),
        Plain,
        &[
            ("harmed", ONE, "done"),
            ("harmed", REMOVE, "done"),
            ("harmed", TWO, "Gone"),
        ],
    ),
];

// The same where another file is put in its place, or it gets another length.
static CHANGED: [Scene; 6] = [
    (Nothing, Plain, MADE),
    (
        Disk("harmed"),
        Plain,
        &[
            ("harmed", ONE, "done"),
            ("other", Step::Act(Act::Put(3, 1_024)), "done"),
            ("other", Step::Act(Act::Rename("harmed")), "done"),
            ("harmed", TWO, "Gone"),
            ("harmed", REMOVE, "done"),
        ],
    ),
    (Nothing, Plain, MADE),
    (
        Disk("harmed"),
        Plain,
        &[
            ("harmed", ONE, "done"),
            ("harmed", Step::Act(Act::Put(3, 512)), "done"),
            ("harmed", TWO, "Resized"),
            ("harmed", REMOVE, "done"),
        ],
    ),
    (Nothing, Plain, MADE),
    (
        Disk("harmed"),
        Plain,
        &[
            ("harmed", ONE, "done"),
            ("harmed", Step::Act(Act::Put(3, 1_536)), "done"),
            ("harmed", TWO, "Resized"),
            ("harmed", REMOVE, "done"),
        ],
    ),
];

// What a file holds is synced, and its name. A sector takes two writes, which take only a part. A publication that was
// cut off is ended by an opening, not by one to read alone. Each opening to write syncs the folder that the file stands
// in: its name is safe.
static SYNCED: [Scene; 5] = [
    (
        Nothing,
        Calls(b"kwwwwsflrf", 0),
        &[("synced", MAKE, "done"), ("synced", PUBLISH, "done")],
    ),
    (
        Disk("synced"),
        Calls(b"kfwwwwswws", 0),
        &[("synced", Step::Use(Use::Write(9)), "done")],
    ),
    (
        Nothing,
        Plain,
        &[
            ("synced", Step::Act(Act::Hold(0, 9, 1_024)), "done"),
            (
                "synced",
                Step::Act(Act::NameToo("synced.nsf-draft")),
                "done",
            ),
        ],
    ),
    (Nothing, Calls(b"h", 0), &[("synced", READ, "done")]),
    (
        Nothing,
        Calls(b"krfwwwws", 0),
        &[("synced", OPEN, "done"), ("synced", REMOVE, "done")],
    ),
];

// The same in another folder than the one of the process; and an opening in one that may not be read.
static DEEP: [Scene; 7] = [
    (
        Nothing,
        Plain,
        &[("deep", Step::Act(Act::MakeFolder), "done")],
    ),
    (
        Nothing,
        Calls(b"kwwwwsdkrd", 0),
        &[("deep/made", MAKE, "done"), ("deep/made", DISCARD, "done")],
    ),
    (
        Nothing,
        Calls(b"kwwwwsdlrd", 0),
        &[("deep/made", MAKE, "done"), ("deep/made", PUBLISH, "done")],
    ),
    (
        Nothing,
        Calls(b"kdwwwws", 0),
        &[("deep/made", OPEN, "done")],
    ),
    (
        Nothing,
        Plain,
        &[("deep", Step::Act(Act::Rename("closed")), "done")],
    ),
    (
        Nothing,
        Calls(b"kwwwws", 0),
        &[("closed/made", OPEN, "done")],
    ),
    (
        Nothing,
        Plain,
        &[("closed", Step::Act(Act::RemoveFolder), "done")],
    ),
];

// Somebody takes a draft before its maker has locked it: so it is not this one's to make. A draft that nobody has
// open gives way, whether it is whole, cut, or empty; what is no draft stays.
static LEFT: [Scene; 6] = [
    (Nothing, Calls(b"k", 1), &[("left", MAKE, "DraftInUse")]),
    (Nothing, Calls(b"krfkwwwwsf", 0), &[("left", MAKE, "done")]),
    (Nothing, Calls(b"k", 1), &[("left", DISCARD, "DraftInUse")]),
    (
        Nothing,
        Calls(b"krfkwwwwsfkrf", 0),
        &[
            ("left.nsf-draft", Step::Act(Act::Hold(0, 0, 1_024)), "done"),
            ("left.nsf-draft", Step::Act(Act::Put(0, 700)), "done"),
            ("left", MAKE, "done"),
            ("left", DISCARD, "done"),
        ],
    ),
    (
        Nothing,
        Calls(b"kk", 0),
        &[
            ("left.nsf-draft", PUT, "done"),
            ("left", MAKE, "DraftExists"),
            ("left", DISCARD, "DraftExists"),
            ("left.nsf-draft", HOLD, "done"),
            ("left.nsf-draft", REMOVE, "done"),
            ("left.nsf-draft", Step::Act(Act::LinkTo("left")), "done"),
            ("left", MAKE, "DraftExists"),
            ("left.nsf-draft", REMOVE, "done"),
        ],
    ),
    (
        Nothing,
        Plain,
        &[
            ("left.nsf-draft", Step::Act(Act::Put(0, 0)), "done"),
            ("left", MAKE, "done"),
            ("left", PUBLISH, "done"),
            ("left", REMOVE, "done"),
        ],
    ),
];

static MAKING: Scene = (
    Nothing,
    Plain,
    &[
        ("failed", MAKE, "done"),
        ("failed", Step::Call(Call::PublishOrDiscard), "done"),
    ],
);

static WRITING: Scene = (
    Disk("failed"),
    Plain,
    &[("failed", Step::Use(Use::Write(9)), "done")],
);

static REMAINS: [Scene; 1] = [(
    Nothing,
    Plain,
    &[("failed", OPEN, "done"), ("failed", REMOVE, "done")],
)];

// Makes a file, and writes to it, until a step fails.
fn make_and_write<R: Files<File = File> + AllocGlobal>(rt: &R, log: &Log) -> Other {
    match play_noted(rt, log, &MAKING) {
        None => play_noted(rt, log, &WRITING),
        other => other,
    }
}

// What is there after the call fails that so many come before: no draft, and the file itself or nothing.
fn fail_after<R: Files<File = File> + AllocGlobal + Abort>(
    rt: &R,
    before: u64,
    code: i32,
    trouble: &'static str,
) {
    let log = Log::of(Fails(before, code));
    let told = match make_and_write(rt, &log) {
        Some((_, told)) => told,
        None => "done",
    };
    drop(log);
    claim_at(rt, told == trouble, "the failing call", before, told);
    let draft = told_of_act(rt, "failed.nsf-draft", Act::Miss);
    claim_at(rt, draft == "done", "a draft after call", before, draft);
    if told_of_act(rt, "failed", Act::Miss) != "done" {
        play(rt, 0, &REMAINS);
    }
}

static TROUBLES: [(i32, &str); 4] = [
    (28, "NoRoom"),
    (27, "TooLarge"),
    (5, "InputOutput"),
    (13, "System 13"),
];

fn fail_each<R: Files<File = File> + AllocGlobal + Abort>(rt: &R) {
    for (code, trouble) in &TROUBLES {
        for before in 0..20 {
            fail_after(rt, before, *code, *trouble);
        }
    }
}

// A write or a sync of the disk fails. Nothing reaches the file behind it.
const SPOILED: &[(&str, Step, &str)] = &[
    ("spoiled", ONE, "InputOutput"),
    ("spoiled", Step::Use(Use::EndWithFailure), "done"),
    ("spoiled", TWO, "InputOutput"),
    ("spoiled", Step::Use(Use::Sync), "InputOutput"),
    ("spoiled", Step::Use(Use::EndWithFailure), "done"),
];

static SPOIL: [Scene; 4] = [
    (
        Nothing,
        Plain,
        &[("spoiled", MAKE, "done"), ("spoiled", PUBLISH, "done")],
    ),
    (Disk("spoiled"), Fails(7, 5), SPOILED),
    (Disk("spoiled"), Fails(9, 5), SPOILED),
    (Nothing, Plain, &[("spoiled", REMOVE, "done")]),
];

const SINGLE: &[(&str, Step, &str)] = &[
    ("single", MAKE, "done"),
    ("single", Step::Call(Call::PublishOrDiscard), "NoSecondName"),
    ("single.nsf-draft", MISS, "done"),
    ("single", MISS, "done"),
];

// The eighth call is to give a second name, which the file system doesn't.
static SINGLES: [Scene; 2] = [
    (Nothing, Fails(7, 1), SINGLE),
    (Nothing, Fails(7, 95), SINGLE),
];

fn draft() -> &'static [Scene] {
    &DRAFT
}

fn locked() -> &'static [Scene] {
    &LOCKED
}

fn refused() -> &'static [Scene] {
    &REFUSED
}

fn harmed() -> &'static [Scene] {
    &HARMED
}

fn changed() -> &'static [Scene] {
    &CHANGED
}

fn synced() -> &'static [Scene] {
    &SYNCED
}

fn deep() -> &'static [Scene] {
    &DEEP
}

fn left() -> &'static [Scene] {
    &LEFT
}

fn spoil() -> &'static [Scene] {
    &SPOIL
}

fn singles() -> &'static [Scene] {
    &SINGLES
}

// Each table is named by a function of its own: one that names all of them takes many times longer to prove.
fn all() -> [&'static [Scene]; 10] {
    [
        draft(),
        locked(),
        refused(),
        harmed(),
        changed(),
        synced(),
        deep(),
        left(),
        spoil(),
        singles(),
    ]
}

// A draft is its maker's until it has its name, and gives way once nobody has it open. A file is locked while it
// is open. What is no store is refused by name. A file that is harmed while it is open is told. Each write and name is
// synced. Nothing is written behind a failure. That no second name is given is told. A call that fails leaves no draft,
// and is told.
fn play_each<R: Files<File = File> + AllocGlobal + Abort>(rt: &R) {
    let all = all();
    let mut number: u64 = 0;
    for scenes in &all {
        number = number.saturating_add(10_000);
        play(rt, number, *scenes);
    }
    fail_each(rt);
}

#[test]
fn files_and_their_names(rt: HostRuntime) {
    play_each(&rt);
}
