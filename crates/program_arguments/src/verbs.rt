//! The verbs of the program `nsf-store`, and what each of them is given.
use crate::args::{Form, Takes, program_named, with_forms};
use crate::size::ROWS_MAX;
use clap::Command;
use records::{
    ENTRIES_MIN, LARGE_ENTRIES_MAX, LARGE_LOG_SLOTS_MAX, LARGE_PAGES_MAX, LOG_SLOTS_MIN,
};
use std::alloc::{AllocError, Global};

const ABOUT: &str =
    "Keeps a table with an index in a file. The index is built while the table is written

Exit status: 0 where it was done, refused commands included; 1 where the file or the store was refused, told on the error stream, or a line was no command, told in its place; 2 for bad words; 3 where a command was refused or skipped, with --stop-on-refusal, or a row by `load`";

// The most seconds that a file is waited for: a day.
const WAIT_MAX: u32 = 86_400;

const FILE: Form = Form {
    name: "FILE",
    takes: Takes::Needed,
    apart_from: None,
    help: "The store's file",
};

const OLD: Form = Form {
    name: "OLD",
    takes: Takes::Needed,
    apart_from: None,
    help: "The store's file",
};

const NEW: Form = Form {
    name: "NEW",
    takes: Takes::Needed,
    apart_from: None,
    help: "The file that is made",
};

const BLOCKS: Form = Form {
    name: "blocks",
    takes: Takes::Nothing,
    apart_from: None,
    help: "Makes a file of blocks of 4096 bytes, each with a digest, which a journal keeps whole: torn blocks are mended, and damage is told",
};

const WAIT: Form = Form {
    name: "wait",
    takes: Takes::Number("N", 0, WAIT_MAX),
    apart_from: None,
    help: "Waits so many seconds for a file that another process has open, 0 to 86400 [default: 0]",
};

const ROWS: Form = Form {
    name: "rows",
    takes: Takes::Number("N", 1, ROWS_MAX),
    apart_from: Some("pages"),
    help: "Makes room for so many rows, 1 to 4128768, in place of a number of pages",
};

const PAGES: Form = Form {
    name: "pages",
    takes: Takes::Number("N", 1, LARGE_PAGES_MAX),
    apart_from: None,
    help: "Pages of the table, each with room for 63 rows, 1 to 65536 [default: 16]",
};

const ENTRIES: Form = Form {
    name: "entries",
    takes: Takes::Number("N", ENTRIES_MIN, LARGE_ENTRIES_MAX),
    apart_from: None,
    help: "Places for entries of the index, 64 to 8388608 [default: four for each row that the pages hold, if there can be so many]",
};

const SLOTS: Form = Form {
    name: "slots",
    takes: Takes::Number("N", LOG_SLOTS_MIN, LARGE_LOG_SLOTS_MAX),
    apart_from: None,
    help: "Slots of each log, 4 to 16384 [default: 16, and for more than 256 pages 16 for each 1000 rows that they hold]",
};

// The same of a store that is salvaged.
const OLD_ROWS: Form = Form {
    name: "rows",
    takes: Takes::Number("N", 1, ROWS_MAX),
    apart_from: Some("pages"),
    help: "Takes the store's size from here, and not from its first sector: the numbers that `new` was given, or has by itself beside these",
};

const OLD_PAGES: Form = Form {
    name: "pages",
    takes: Takes::Number("N", 1, LARGE_PAGES_MAX),
    apart_from: None,
    help: "Likewise",
};

const OLD_ENTRIES: Form = Form {
    name: "entries",
    takes: Takes::Number("N", ENTRIES_MIN, LARGE_ENTRIES_MAX),
    apart_from: None,
    help: "Likewise",
};

const OLD_SLOTS: Form = Form {
    name: "slots",
    takes: Takes::Number("N", LOG_SLOTS_MIN, LARGE_LOG_SLOTS_MAX),
    apart_from: None,
    help: "Likewise",
};

// A verb: its name, what help says of it, and its arguments.
type VerbForm = (&'static str, &'static str, &'static [Form]);

static VERBS: [VerbForm; 12] = [
    (
        "new",
        "Makes a store in a new file",
        &[FILE, ROWS, PAGES, ENTRIES, SLOTS, BLOCKS],
    ),
    (
        "run",
        "Serves the commands of the input, each of which is answered before the next is read",
        &[
            FILE,
            Form {
                name: "durable",
                takes: Takes::Nothing,
                apart_from: None,
                help: "Flushes each commit before its ticket is answered, and its horizon behind that: no kill loses a commit that was answered; so it is where the input is a terminal",
            },
            Form {
                name: "lazy",
                takes: Takes::Nothing,
                apart_from: Some("durable"),
                help: "Flushes no commit by itself, also where the input is a terminal: a kill may lose those that were answered since the last flush",
            },
            Form {
                name: "stop-on-refusal",
                takes: Takes::Nothing,
                apart_from: None,
                help: "Ends the input at the first command that is refused or skipped, but for a step that isn't owed, or line that is none",
            },
            Form {
                name: "prompt",
                takes: Takes::Nothing,
                apart_from: None,
                help: "Prints a prompt before each line; so it is where the input is a terminal",
            },
            WAIT,
        ],
    ),
    (
        "check",
        "Reads the file alone, and says `sound`, or what is wrong with it",
        &[FILE],
    ),
    (
        "dump",
        "Prints each row, each entry of the index, and how far that is",
        &[FILE],
    ),
    (
        "scan",
        "Prints the index's pairs from a key to a key in order, or back, and then `end` or `more`. The file is only read",
        &[
            FILE,
            Form {
                name: "FROM",
                takes: Takes::Wanted,
                apart_from: None,
                help: "The first key, `=` and graphic bytes or `:` and hexadecimal digits [default: the least]",
            },
            Form {
                name: "TO",
                takes: Takes::Wanted,
                apart_from: None,
                help: "The last key, which is shown too [default: the greatest]",
            },
            Form {
                name: "prefix",
                takes: Takes::Word("P"),
                apart_from: Some("FROM"),
                help: "Shows the keys that begin so, in place of those from key to key",
            },
            Form {
                name: "back",
                takes: Takes::Nothing,
                apart_from: None,
                help: "Shows the last pair first, and goes on to the first one",
            },
            Form {
                name: "limit",
                takes: Takes::Number("N", 1, u32::MAX),
                apart_from: None,
                help: "Shows so many pairs at most, 1 to 4294967295",
            },
            Form {
                name: "count",
                takes: Takes::Nothing,
                apart_from: None,
                help: "Prints only how many pairs there are, whatever the limit",
            },
        ],
    ),
    (
        "stat",
        "Prints what the store is and how far it has come",
        &[FILE],
    ),
    (
        "build",
        "Builds the index to its end",
        &[
            FILE,
            Form {
                name: "again",
                takes: Takes::Nothing,
                apart_from: None,
                help: "Drops the index before, if there is one, and creates it anew: the way out where it is full",
            },
            Form {
                name: "progress",
                takes: Takes::Nothing,
                apart_from: None,
                help: "Shows on the error stream how many pairs were attempted, also where that is no terminal",
            },
            WAIT,
        ],
    ),
    (
        "load",
        "Loads rows from a file of comma-separated fields under a header, 64 a transaction, and prints how many are safe and how many were refused; the error stream says which columns are taken, and what is refused, by line",
        &[
            FILE,
            Form {
                name: "ROWS",
                takes: Takes::Needed,
                apart_from: None,
                help: "The file that has the rows, or `-` for the standard input",
            },
            Form {
                name: "key",
                takes: Takes::Word("COLUMN"),
                apart_from: None,
                help: "The name of the column that has the keys [default: key]",
            },
            Form {
                name: "body",
                takes: Takes::Word("COLUMN"),
                apart_from: Some("no-header"),
                help: "The name of the column that has the bodies [default: body]",
            },
            Form {
                name: "no-header",
                takes: Takes::Nothing,
                apart_from: Some("key"),
                help: "Takes the first record as a row too: each has two fields, the key and the body",
            },
            Form {
                name: "progress",
                takes: Takes::Nothing,
                apart_from: None,
                help: "Shows on the error stream how many rows are safe, also where that is no terminal",
            },
        ],
    ),
    (
        "export",
        "Prints the rows as comma-separated fields under a header, as `load` reads them, or as objects of JSON. The file is only read",
        &[
            FILE,
            Form {
                name: "order",
                takes: Takes::Name("ORDER", &["place", "key"]),
                apart_from: None,
                help: "By `place`, or by `key`, which needs a complete index [default: place]",
            },
            Form {
                name: "json",
                takes: Takes::Nothing,
                apart_from: None,
                help: "Prints an object of JSON a row, a line each, with `key` and `body`. Bytes that are no UTF-8 it has as hexadecimal digits, under `key_hex` and `body_hex`. `load` doesn't read it",
            },
        ],
    ),
    (
        "backup",
        "Copies the store to a new file of the same kind, and prints what `stat` does of it. The old file is only read",
        &[OLD, NEW],
    ),
    (
        "migrate",
        "Moves a store of version 1, or of either kind of file to the other, to a new file, and prints what `stat` does of it. The old file is only read",
        &[OLD, NEW, BLOCKS],
    ),
    (
        "salvage",
        "Puts the rows that can still be read of a damaged store into a new file, without an index, and prints what is lost. The old file is only read",
        &[
            OLD,
            NEW,
            BLOCKS,
            OLD_ROWS,
            OLD_PAGES,
            OLD_ENTRIES,
            OLD_SLOTS,
        ],
    ),
];

fn program<'a>(alloc: Global) -> Result<Command<'a>, AllocError> {
    program_named(alloc, "nsf-store", ABOUT)
        .subcommand_required(true)
        .bin_name("nsf-store")
}

fn verb_of<'a>(alloc: Global, verb: &VerbForm) -> Result<Command<'a>, AllocError> {
    let (name, about, forms) = *verb;
    let bare = Command::new(alloc, name).about(about);
    with_forms(alloc, bare, forms)
}

// The command line with one verb more. What falls by the way is let go of by a call.
fn with_verb<'a>(
    alloc: Global,
    all: Command<'a>,
    verb: &VerbForm,
) -> Result<Command<'a>, AllocError> {
    match verb_of(alloc, verb) {
        Ok(made) => all.subcommand(made),
        Err(error) => {
            drop(all);
            Err(error)
        }
    }
}

// The command line with these verbs more, in their order.
fn with_verbs<'a>(
    alloc: Global,
    program: Command<'a>,
    verbs: &[VerbForm],
) -> Result<Command<'a>, AllocError> {
    let mut all = program;
    for verb in verbs {
        all = with_verb(alloc, all, verb)?;
    }
    Ok(all)
}

/// The command line.
pub(crate) fn command<'a>(alloc: Global) -> Result<Command<'a>, AllocError> {
    with_verbs(alloc, program(alloc)?, &VERBS)
}
