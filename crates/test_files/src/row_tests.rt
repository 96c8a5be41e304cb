// Rows that are loaded, exported and loaded again, and backups, on files of either kind.
use crate::program::{Deed, take_each};
use crate::steps::Act;

const NEW: Deed = Deed::Call(&["nsf-store", "new", "l", "--pages", "1"], 0, "", "");

const NEW_BLOCKS: Deed = Deed::Call(
    &["nsf-store", "new", "l", "--pages", "1", "--blocks"],
    0,
    "",
    "",
);

const REMOVE: Deed = Deed::Act("l", Act::Remove);

const REMOVE_ROWS: Deed = Deed::Act("rows", Act::Remove);

const LOAD: &[&str] = &["nsf-store", "load", "l", "rows"];

const UNHEADED: &[&str] = &["nsf-store", "load", "l", "rows", "--no-header"];

const TAKEN: &str = "nsf-store: rows: the column `key` is taken as the key, `body` as the body\n";

const EXPORT: &[&str] = &["nsf-store", "export", "l"];

const BY_KEY: &[&str] = &["nsf-store", "export", "--order", "key", "l"];

const JSON: &[&str] = &["nsf-store", "export", "--json", "l"];

const JSON_BY_KEY: &[&str] = &["nsf-store", "export", "l", "--order", "key", "--json"];

const SOUND: Deed = Deed::Call(&["nsf-store", "check", "l"], 0, "sound\n", "");

// The third record has a line feed in its body, so that the one behind it begins in line 6. One key and one body are
// too long.
const ROWS: &str = "body,id,key
1,x,cow
,,
\"say
\"\"hi\"\"\",2,\"b,c\"
lonely
3,,kkkkkkkkkkkkkkkkkkkkkkkkkkkkkkkkkkkkkkkkkkkkkkkkkkkkkkkkk
bbbbbbbbbbbbbbbbbbbbbbbbbbbbbbbbbbbbbbbbbbbbbbbbbbbbbbbbbbbbbbbbbbbbbb,,bee
4,,ant
";

const REFUSED: &str = "nsf-store: rows: the column `key` is taken as the key, `body` as the body
nsf-store: line 6: fields: 1, where 3 are wanted
nsf-store: line 7: the key is longer than 56 bytes
nsf-store: line 8: the body is longer than 69 bytes
";

const EXPORTED: &str = "key,body
cow,1
,
\"b,c\",\"say
\"\"hi\"\"\"
ant,4
";

const IN_ORDER: &str = "key,body
,
ant,4
\"b,c\",\"say
\"\"hi\"\"\"
cow,1
";

const OBJECTS: &str = r#"{"key":"cow","body":"1"}
{"key":"","body":""}
{"key":"b,c","body":"say\n\"hi\""}
{"key":"ant","body":"4"}
"#;

const OBJECTS_IN_ORDER: &str = r#"{"key":"","body":""}
{"key":"ant","body":"4"}
{"key":"b,c","body":"say\n\"hi\""}
{"key":"cow","body":"1"}
"#;

static LOADED: [Deed; 5] = [
    Deed::Write("rows", ROWS),
    Deed::Call(LOAD, 3, "loaded 4\nrefused 3\n", REFUSED),
    Deed::Call(EXPORT, 0, EXPORTED, ""),
    Deed::Call(JSON, 0, OBJECTS, ""),
    Deed::Call(
        BY_KEY,
        1,
        "",
        "nsf-store: l: it has no index; `create` in `run` begins one\n",
    ),
];

// What is exported is loaded again, into a store with an index.
static LOADED_AGAIN: [Deed; 9] = [
    Deed::Feed(
        &["nsf-store", "run", "l"],
        "begin\ndelete 1 0.0\ndelete 1 0.1\ndelete 1 0.2\ndelete 1 0.3\ncommit 1\ncreate\nbuild\nbuild\n",
        0,
        "txn 1\nok\nok\nok\nok\nticket 10\nticket 11\nscanned 0\ndone ticket 12\n",
        "",
    ),
    Deed::Write("rows", EXPORTED),
    Deed::Call(LOAD, 0, "loaded 4\nrefused 0\n", TAKEN),
    Deed::Call(EXPORT, 0, EXPORTED, ""),
    Deed::Call(BY_KEY, 0, IN_ORDER, ""),
    Deed::Call(JSON_BY_KEY, 0, OBJECTS_IN_ORDER, ""),
    SOUND,
    REMOVE,
    REMOVE_ROWS,
];

// A key in Latin-1 and a body that is cut within a character are no UTF-8.
static NO_TEXT: [Deed; 3] = [
    Deed::Feed(
        &["nsf-store", "run", "l"],
        "begin\ninsert 1 :666fef =a\ninsert 1 :c3a9 :c3\ncommit 1\n",
        0,
        "txn 1\nrid 0.0\nrid 0.1\nticket 3\n",
        "",
    ),
    Deed::Call(
        JSON,
        0,
        "{\"key_hex\":\"666fef\",\"body\":\"a\"}\n{\"key\":\"\u{e9}\",\"body_hex\":\"c3\"}\n",
        "",
    ),
    REMOVE,
];

// What is wrong with the rows is told before what is wrong with the store. Lines may end with a carriage return too.
static HEADERS: [Deed; 5] = [
    Deed::Call(
        LOAD,
        1,
        "",
        "nsf-store: rows: No such file or directory (os error 2)\n",
    ),
    Deed::Write("rows", ""),
    Deed::Call(LOAD, 1, "", "nsf-store: rows: it has no header\n"),
    Deed::Write("rows", "key\r\nant\r\n"),
    Deed::Call(
        LOAD,
        1,
        "",
        "nsf-store: rows: its header has no column with the body's name\n",
    ),
];

static COLUMNS: [Deed; 12] = [
    Deed::Write("rows", "a,b\r\nant,1\r\nbee\r\n"),
    Deed::Call(
        &["nsf-store", "load", "l", "rows", "--key", "c"],
        1,
        "",
        "nsf-store: rows: its header has no column with the key's name\n",
    ),
    Deed::Call(
        &["nsf-store", "load", "l", "rows", "--key", "b"],
        1,
        "",
        "nsf-store: rows: its header has no column with the body's name\n",
    ),
    Deed::Call(
        LOAD,
        1,
        "",
        "nsf-store: rows: its first line has no column `key` and none `body`: --key and --body name others, and --no-header takes that line as a row too\n",
    ),
    Deed::Call(
        UNHEADED,
        1,
        "",
        "nsf-store: l: No such file or directory (os error 2)\n",
    ),
    NEW,
    Deed::Call(
        &[
            "nsf-store",
            "load",
            "l",
            "rows",
            "--key",
            "b",
            "--body",
            "a",
        ],
        3,
        "loaded 1\nrefused 1\n",
        "nsf-store: rows: the column `b` is taken as the key, `a` as the body\nnsf-store: line 3: fields: 1, where 2 are wanted\n",
    ),
    Deed::Call(
        UNHEADED,
        3,
        "loaded 2\nrefused 1\n",
        "nsf-store: rows: the first column is taken as the key, the second as the body\nnsf-store: line 3: fields: 1, where 2 are wanted\n",
    ),
    Deed::Feed(
        &["nsf-store", "load", "l", "-", "--no-header"],
        "\u{feff}\"cow\",2\n",
        0,
        "loaded 1\nrefused 0\n",
        "nsf-store: -: the first column is taken as the key, the second as the body\n",
    ),
    Deed::Call(EXPORT, 0, "key,body\n1,ant\na,b\nant,1\ncow,2\n", ""),
    REMOVE,
    REMOVE_ROWS,
];

// The last record begins in line 6, behind an empty line. Its quote isn't closed, and so it is no row.
const OPEN: &str = "key,body\nant,1\n\"b\"\"\",\"2\n\"\n\ncow,\"3\n";

static OPEN_QUOTES: [Deed; 9] = [
    NEW,
    Deed::Write("rows", "key,\"body"),
    Deed::Call(
        LOAD,
        1,
        "",
        "nsf-store: rows: a quote in its header isn't closed\n",
    ),
    Deed::Write("rows", OPEN),
    Deed::Call(
        LOAD,
        3,
        "loaded 2\nrefused 1\n",
        "nsf-store: rows: the column `key` is taken as the key, `body` as the body\nnsf-store: line 6: a quote isn't closed\n",
    ),
    Deed::Call(EXPORT, 0, "key,body\nant,1\n\"b\"\"\",\"2\n\"\n", ""),
    SOUND,
    REMOVE,
    REMOVE_ROWS,
];

// 66 rows. A page has room for 63.
const MANY: &str = "key,body\n\
    ,\n,\n,\n,\n,\n,\n,\n,\n,\n,\n,\n,\n,\n,\n,\n,\n,\n,\n,\n,\n\
    ,\n,\n,\n,\n,\n,\n,\n,\n,\n,\n,\n,\n,\n,\n,\n,\n,\n,\n,\n,\n\
    ,\n,\n,\n,\n,\n,\n,\n,\n,\n,\n,\n,\n,\n,\n,\n,\n,\n,\n,\n,\n\
    a,\nb,\nc,\nd,\ne,\nf,\n";

static FULL: [Deed; 9] = [
    Deed::Write("rows", MANY),
    Deed::Call(&["nsf-store", "new", "l", "--pages", "2"], 0, "", ""),
    Deed::Call(
        &["nsf-store", "load", "l", "rows", "--progress"],
        0,
        "loaded 66\nrefused 0\n",
        "nsf-store: rows: the column `key` is taken as the key, `body` as the body\nrows loaded: 64 (100 %)\rrows loaded: 66 (100 %)\r\n",
    ),
    REMOVE,
    NEW,
    Deed::Call(
        LOAD,
        1,
        "loaded 63\nrefused 0\n",
        "nsf-store: rows: the column `key` is taken as the key, `body` as the body\nnsf-store: no row behind line 64 is loaded\nnsf-store: l: its table is full\n",
    ),
    SOUND,
    REMOVE,
    REMOVE_ROWS,
];

const STAT: &str = "format 2
pages 1
entries 252
slots 16
slots in use 1
records behind image 2
last record 2
life none
rows 1
live 0
marked 0
reserved 0
free 252
rows free 62
";

const BACKUP: &[&str] = &["nsf-store", "backup", "l", "copy"];

// A backup is of the same kind, so that it is moved to the other one alone.
static BACKED_UP: [Deed; 8] = [
    Deed::Write("rows", "key,body\nant,1\n"),
    Deed::Call(LOAD, 0, "loaded 1\nrefused 0\n", TAKEN),
    Deed::Call(BACKUP, 0, STAT, ""),
    Deed::Call(BACKUP, 1, "", "nsf-store: copy: it is there already\n"),
    Deed::Call(&["nsf-store", "export", "copy"], 0, "key,body\nant,1\n", ""),
    REMOVE,
    Deed::Call(
        BACKUP,
        1,
        "",
        "nsf-store: l: No such file or directory (os error 2)\n",
    ),
    REMOVE_ROWS,
];

const NO_MOVE: &str = "nsf-store: copy: it holds a store of version 2 or 3, which needs no move\n";

const REMOVE_COPY: Deed = Deed::Act("copy", Act::Remove);

const IS_PLAIN: Deed = Deed::Call(&["nsf-store", "migrate", "copy", "l"], 1, "", NO_MOVE);

const IS_IN_BLOCKS: Deed = Deed::Call(
    &["nsf-store", "migrate", "copy", "l", "--blocks"],
    1,
    "",
    NO_MOVE,
);

static MADE: [Deed; 1] = [NEW];

static MADE_BLOCKS: [Deed; 1] = [NEW_BLOCKS];

static PLAIN: [Deed; 3] = [IS_PLAIN, REMOVE_COPY, NEW_BLOCKS];

static IN_BLOCKS: [Deed; 2] = [IS_IN_BLOCKS, REMOVE_COPY];

fn loaded() -> &'static [Deed] {
    &LOADED
}

fn loaded_again() -> &'static [Deed] {
    &LOADED_AGAIN
}

fn no_text() -> &'static [Deed] {
    &NO_TEXT
}

fn headers() -> &'static [Deed] {
    &HEADERS
}

fn columns() -> &'static [Deed] {
    &COLUMNS
}

fn open_quotes() -> &'static [Deed] {
    &OPEN_QUOTES
}

fn full() -> &'static [Deed] {
    &FULL
}

fn backed_up() -> &'static [Deed] {
    &BACKED_UP
}

// Each table is named by a function of its own: one that names all of them takes many times longer to prove.
fn tests() -> [&'static [Deed]; 17] {
    let loaded = loaded();
    let again = loaded_again();
    let backed_up = backed_up();
    [
        // rows are loaded, exported and loaded again
        &MADE,
        loaded,
        again,
        &MADE_BLOCKS,
        loaded,
        again,
        // bytes that are no text are digits
        &MADE,
        no_text(),
        // columns are named
        headers(),
        columns(),
        // a quote that nothing closes is told
        open_quotes(),
        // a full table ends a load
        full(),
        // a store is backed up
        &MADE,
        backed_up,
        &PLAIN,
        backed_up,
        &IN_BLOCKS,
    ]
}

#[test]
fn rows_are_loaded_exported_and_backed_up(rt: HostRuntime) {
    take_each(&rt, &tests());
}
