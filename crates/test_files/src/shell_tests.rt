// What is served beside the commands of a script, and what the error stream says of an input.
use crate::answers::Look;
use crate::claims::claim;
use crate::program::{Deed, ProgramRun, take_all, take_each};
use crate::steps::Act;
use std::alloc::{AllocError, Global};
use std::fs::File;
use std::process::Abort;
use std::rt::{Clock, Files};

const NEW: Deed = Deed::Call(&["nsf-store", "new", "r", "--pages", "1"], 0, "", "");

const REMOVE: Deed = Deed::Act("r", Act::Remove);

const RUN: &[&str] = &["nsf-store", "run", "r"];

const STOPPING: &[&str] = &["nsf-store", "run", "r", "--stop-on-refusal"];

// In `scan = =:` the first key has no bytes, and the last one is the byte `:`.
const RANGES: &str = "scan
begin
insert 1 =ant =
insert 1 =bee =
insert 1 =cow =
insert 1 =bee =
commit 1
create
scan
build 9
scan
scan =b
scan =b =bee
scan =d
scan count 1
scan =bee =z count 2
scan =b =a
scan = =:
scan :62 count 3
scan =b count 4
scan back count 2
scan =b =bee back
begin
delete 2 0.1
scan =bee =bee
";

const RANGES_ANSWERED: &str = "refused 18 NoIndex
txn 1
rid 0.0
rid 0.1
rid 0.2
rid 0.3
ticket 5
ticket 6
refused 19 NotBuilt
scanned 0
placed :616e74 0.0
placed :626565 0.1
placed :626565 0.3
placed :636f77 0.2
done ticket 11
:616e74 0.0
:626565 0.1
:626565 0.3
:636f77 0.2
end
:626565 0.1
:626565 0.3
:636f77 0.2
end
:626565 0.1
:626565 0.3
end
end
:616e74 0.0
more :616e74 0.0
:626565 0.1
:626565 0.3
more :626565 0.3
end
end
:626565 0.1
:626565 0.3
:636f77 0.2
end
:626565 0.1
:626565 0.3
:636f77 0.2
end
:636f77 0.2
:626565 0.3
more :626565 0.3
:626565 0.3
:626565 0.1
end
txn 2
ok
:626565 0.3
end
";

const RANGES_SAID: &str = "nsf-store: commands refused: 2, the first in line 1
nsf-store: transactions open at the end, of which nothing is kept: 2
";

// The transaction that was open is taken back where the file is opened again.
static SCANNED: [Deed; 4] = [
    NEW,
    Deed::Feed(RUN, RANGES, 0, RANGES_ANSWERED, RANGES_SAID),
    Deed::Call(
        &["nsf-store", "scan", "r"],
        0,
        ":616e74 0.0\n:626565 0.1\n:626565 0.3\n:636f77 0.2\nend\n",
        "",
    ),
    Deed::Call(
        &["nsf-store", "scan", "r", "=b"],
        0,
        ":626565 0.1\n:626565 0.3\n:636f77 0.2\nend\n",
        "",
    ),
];

static LIMITED: [Deed; 6] = [
    Deed::Call(
        &["nsf-store", "scan", "r", "=b", ":626565", "--limit", "1"],
        0,
        ":626565 0.1\nmore :626565 0.1\n",
        "",
    ),
    Deed::Call(
        &["nsf-store", "scan", "r", "=b", "--back", "--limit", "2"],
        0,
        ":636f77 0.2\n:626565 0.3\nmore :626565 0.3\n",
        "",
    ),
    Deed::Call(
        &["nsf-store", "scan", "r", "--prefix", "=be"],
        0,
        ":626565 0.1\n:626565 0.3\nend\n",
        "",
    ),
    Deed::Call(&["nsf-store", "scan", "r", "--count"], 0, "4\n", ""),
    Deed::Call(
        &["nsf-store", "scan", "r", "=b", "--count", "--limit", "1"],
        0,
        "3\n",
        "",
    ),
    Deed::Call(
        &["nsf-store", "scan", "r", "bee"],
        2,
        "",
        "nsf-store: a key is `=` and graphic bytes, as `=ant`, or `:` and hexadecimal digits, as `:616e74`\n",
    ),
];

static NOT_BUILT: [Deed; 6] = [
    REMOVE,
    NEW,
    Deed::Call(
        &["nsf-store", "scan", "r"],
        1,
        "",
        "nsf-store: r: it has no index; `create` in `run` begins one\n",
    ),
    Deed::Feed(RUN, "create\n", 0, "ticket 1\n", ""),
    Deed::Call(
        &["nsf-store", "scan", "r", "--count"],
        1,
        "",
        "nsf-store: r: its index isn't complete; `nsf-store build` builds it to its end\n",
    ),
    REMOVE,
];

const KEYS: &str = "begin
insert 1 =ant =1
insert 1 =bee =1
insert 1 =bee =2
delete-key 1 =ant
commit! 1
create
build 9
begin
delete-key 2 =ant
delete-key 2 =ant
delete-key 2 =bee
update-key 2 =cow =c =
commit 2
begin
delete 3 0.1
update-key 3 =bee =c =
step 3
update-key 3 =bee =cow =x
commit! 3
delete-key 3 =cow
dump
";

// A deletion of a row with an entry makes two records, and an update of one three.
const KEYS_ANSWERED: &str = "txn 1
rid 0.0
rid 0.1
rid 0.2
refused 18 NoIndex
ticket 4
horizon 4
ticket 5
scanned 0
placed :616e74 0.0
placed :626565 0.1
placed :626565 0.2
done ticket 9
txn 2
ok
refused 10 NoSuchRow
refused several 0.1 0.2
refused 10 NoSuchRow
ticket 12
txn 3
ok
skipped
ok
ok
ticket 18
horizon 18
refused 9 NoSuchTxn
row 0.2 :636f77 :78
marked :616e74 0.0
marked :626565 0.1
marked :626565 0.2
live :636f77 0.2
life complete
";

static KEYED: [Deed; 3] = [
    NEW,
    Deed::Feed(
        RUN,
        KEYS,
        0,
        KEYS_ANSWERED,
        "nsf-store: commands refused: 5, the first in line 5\n",
    ),
    REMOVE,
];

static STOPPED: [Deed; 8] = [
    NEW,
    Deed::Feed(
        STOPPING,
        "crash old\nbegin\n",
        3,
        "skipped\n",
        "nsf-store: the command in line 1 was skipped, and the input ended with it\n",
    ),
    Deed::Feed(
        STOPPING,
        "begin\ninsert 1 =a =\nbegin\ncommit 9\nbegin\n",
        3,
        "txn 1\nrid 0.0\ntxn 2\nrefused 9 NoSuchTxn\n",
        "nsf-store: commands refused: 1, the first in line 4\n\
        nsf-store: transactions open at the end, of which nothing is kept: 1 2\n",
    ),
    Deed::Feed(
        STOPPING,
        "begin\nstep 1\nbegin 1\nbegin\n",
        1,
        "txn 1\nskipped\nrefused 22 BadScript 3\n",
        "nsf-store: line 3: it is written `begin`\n\
        nsf-store: transactions open at the end, of which nothing is kept: 1\n",
    ),
    Deed::Feed(
        STOPPING,
        "begin\ncommit! 1\n",
        0,
        "txn 1\nticket 2\nhorizon 2\n",
        "",
    ),
    Deed::Feed(
        RUN,
        "begin\ncommit 1\nquit\nbegin\n",
        0,
        "txn 1\nticket 3\n",
        "",
    ),
    Deed::Feed(
        &["nsf-store", "run", "r", "--prompt"],
        "begin\ncommit 1\n",
        0,
        "> txn 1\n> ticket 4\n> \n",
        "",
    ),
    REMOVE,
];

static IN_USE: [Deed; 2] = [
    Deed::Call(
        &["nsf-store", "run", "r", "--wait", "1"],
        1,
        "",
        "nsf-store: r: another process has it open\n",
    ),
    Deed::Call(
        &["nsf-store", "build", "r"],
        1,
        "",
        "nsf-store: r: another process has it open\n",
    ),
];

// While the file is open.
fn take_beside<R: Abort + Files<File = File> + Clock + AllocGlobal>(rt: &R, deeds: &[Deed]) {
    let held = store_file::open(rt, rt.alloc(), "r");
    claim(rt, held.is_ok(), "the file is open");
    take_all(rt, deeds);
    drop(held);
}

const FAULTS: &str = "instert 1 =a =
insert 1 ant =
insert 1
scan ant
commit!1
begin\r
begin\x20
find =\u{e9}
xyzzy
quit now
backup
";

const FAULTS_ANSWERED: &str = "refused 22 BadScript 1
refused 22 BadScript 2
refused 22 BadScript 3
refused 22 BadScript 4
refused 22 BadScript 5
refused 22 BadScript 6
refused 22 BadScript 7
refused 22 BadScript 8
refused 22 BadScript 9
refused 22 BadScript 10
refused 22 BadScript 11
";

const FAULTS_SAID: &str = "nsf-store: line 1: `instert` is no command; is `insert` meant?
nsf-store: line 2: `ant` begins with neither `=` nor `:`, as a key or body does
nsf-store: line 3: it is written `insert <t> <key> <body>`
nsf-store: line 4: `ant` begins with neither `=` nor `:`, as a key or body does
nsf-store: line 5: `commit!1` is no command; is `commit!` meant?
nsf-store: line 6: a carriage return is in it; a line ends with a line feed alone
nsf-store: line 7: its words aren't parted by single spaces
nsf-store: line 8: a byte in it is neither a space nor graphic ASCII
nsf-store: line 9: `xyzzy` is no command; `help` tells of all
nsf-store: line 10: it is written `quit`
nsf-store: line 11: it is written `backup <file>`
";

const HELPED: &str = "help: shows this
quit: ends the input
A key or body is `=` and graphic bytes, as `=ant`, or `:` and hexadecimal digits, as `:616e74`
";

static TOLD: [Deed; 4] = [
    NEW,
    Deed::Feed(RUN, FAULTS, 1, FAULTS_ANSWERED, FAULTS_SAID),
    Deed::Serve(ProgramRun {
        words: RUN,
        input: "help\n",
        status: 0,
        look: Look::End,
        printed: HELPED,
        said: "",
    }),
    REMOVE,
];

// One transaction was committed and flushed, one committed alone, one flushed alone, and one is open.
const COPYING: &str = "begin
insert 1 =ant =1
commit 1
begin
insert 2 =bee =2
flush
begin
insert 3 =cow =3
commit 3
begin
insert 4 =dog =4
backup copy
backup copy
backup r
backup none/copy
commit 4
commit 2
";

const COPYING_ANSWERED: &str = "txn 1
rid 0.0
ticket 2
txn 2
rid 0.1
horizon 3
txn 3
rid 0.2
ticket 5
txn 4
rid 0.3
horizon 6
refused backup
refused backup
refused backup
ticket 7
ticket 8
";

const COPYING_SAID: &str = "nsf-store: copy: it is there already
nsf-store: r: it is there already
nsf-store: none/copy: No such file or directory (os error 2)
nsf-store: commands refused: 3, the first in line 13
";

// The copy has what was committed before it, and the store what was committed in the end.
static COPIED: [Deed; 6] = [
    Deed::Feed(RUN, COPYING, 0, COPYING_ANSWERED, COPYING_SAID),
    Deed::Act("copy.nsf-draft", Act::Miss),
    Deed::Call(&["nsf-store", "check", "copy"], 0, "sound\n", ""),
    Deed::Call(
        &["nsf-store", "dump", "copy"],
        0,
        "row 0.0 :616e74 :31\nrow 0.2 :636f77 :33\nlife none\n",
        "",
    ),
    Deed::Call(
        &["nsf-store", "export", "r"],
        0,
        "key,body\nant,1\nbee,2\ncow,3\ndog,4\n",
        "",
    ),
    REMOVE,
];

const NEW_BLOCKS: Deed = Deed::Call(
    &["nsf-store", "new", "r", "--pages", "1", "--blocks"],
    0,
    "",
    "",
);

const NO_MOVE: &str = "nsf-store: copy: it holds a store of version 2 or 3, which needs no move\n";

const REMOVE_COPY: Deed = Deed::Act("copy", Act::Remove);

// The copy is of the same kind.
const IS_PLAIN: Deed = Deed::Call(&["nsf-store", "migrate", "copy", "r"], 1, "", NO_MOVE);

const IS_IN_BLOCKS: Deed = Deed::Call(
    &["nsf-store", "migrate", "copy", "r", "--blocks"],
    1,
    "",
    NO_MOVE,
);

static WAITED: [Deed; 2] = [
    Deed::Feed(
        &["nsf-store", "run", "r", "--wait", "1"],
        "begin\n",
        0,
        "txn 1\n",
        "nsf-store: transactions open at the end, of which nothing is kept: 1\n",
    ),
    REMOVE,
];

static BEFORE_COPIES: [Deed; 1] = [NEW];

static PLAIN: [Deed; 3] = [IS_PLAIN, REMOVE_COPY, NEW_BLOCKS];

static IN_BLOCKS: [Deed; 3] = [IS_IN_BLOCKS, REMOVE_COPY, NEW];

fn scanned() -> &'static [Deed] {
    &SCANNED
}

fn limited() -> &'static [Deed] {
    &LIMITED
}

fn not_built() -> &'static [Deed] {
    &NOT_BUILT
}

fn keyed() -> &'static [Deed] {
    &KEYED
}

fn stopped() -> &'static [Deed] {
    &STOPPED
}

fn told() -> &'static [Deed] {
    &TOLD
}

fn copied() -> &'static [Deed] {
    &COPIED
}

// Each table is named by a function of its own: one that names all of them takes many times longer to prove.
fn before() -> [&'static [Deed]; 11] {
    let copied = copied();
    [
        scanned(),
        limited(),
        not_built(),
        keyed(),
        stopped(),
        told(),
        // a store that is open is copied
        &BEFORE_COPIES,
        copied,
        &PLAIN,
        copied,
        &IN_BLOCKS,
    ]
}

// Lines with words of more bytes than are kept are answered as if they were whole.
const LONG: &[(&str, &str, &str)] = &[
    ("begin\ninsert 1 =", "=:", " =b\n"),
    ("insert 1 :", "61", " =b\n"),
    ("insert 1 :", "61", "6 =b\n"),
    ("#", "\u{e9}", "\n"),
    ("insert 1 =a =", "bb", "\n"),
    ("insert 1 =a =b ", "cc", "\n"),
];

const LONG_ANSWERED: &str = "txn 1
refused 14 KeyTooLong
refused 14 KeyTooLong
refused 22 BadScript 4
refused 15 BodyTooLong
refused 22 BadScript 7
";

// These lines, in each of which the middle part is repeated.
fn long_lines(alloc: Global) -> Result<Vec<u8>, AllocError> {
    let mut lines = Vec::new(alloc);
    for (first, middle, last) in LONG {
        lines.extend_from_slice(first.as_bytes())?;
        for _ in 0..5_000 {
            lines.extend_from_slice(middle.as_bytes())?;
        }
        lines.extend_from_slice(last.as_bytes())?;
    }
    Ok(lines)
}

// Whether these lines are answered so.
fn answers_long<R: Files<File = File> + Clock + AllocGlobal>(rt: &R) -> Result<bool, AllocError> {
    let lines = long_lines(rt.alloc())?;
    let (mut printed, mut said) = (Vec::new(rt.alloc()), Vec::new(rt.alloc()));
    let status = program_shell::run(rt, RUN, &mut lines.as_slice(), &mut printed, &mut said);
    let is_so = status == 1 && printed.as_slice() == LONG_ANSWERED.as_bytes();
    drop(lines);
    drop(printed);
    drop(said);
    Ok(is_so)
}

// Ranges are read in order, the one row with a key is changed, an input may end with a refusal, and it is told why a
// line is none. An open store is copied. A file in use is waited for.
fn feed_each<R: Abort + Files<File = File> + Clock + AllocGlobal>(rt: &R) {
    take_each(rt, &before());
    take_beside(rt, &IN_USE);
    take_all(rt, &WAITED);
    take_all(rt, &[NEW]);
    claim(rt, answers_long(rt).unwrap_or(false), "long lines");
    take_all(rt, &[REMOVE]);
}

#[test]
fn what_an_input_is_answered(rt: HostRuntime) {
    feed_each(&rt);
}
