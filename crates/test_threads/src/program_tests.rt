//! The program `nsf-threads`: what it prints, and its status; and what it tells of a device that fails.
use crate::claims::{claim, claim_at};
use crate::found::{Disk, failing};
use crate::help::HELP;
use program_demonstration::{
    Beginning, Found, Listener, NotOpened, Progress, Refusals, Team, Turn, run, told, work_on,
};
use records::{Error, Geometry, Rid};
use sector_device::Device;
use std::alloc::{AllocError, Global};
use std::fs::File;
use std::io::{ErrorKind, Write};
use std::mem::forget;
use std::process::Abort;
use std::rt::{Clock, Files};
use std::sync::Wait;
use std::sync::atomic::{AtomicU64, Ordering};
use std::thread::Threads;
use std::{fs, io};
use threads_lifetime::format_store;

// So many writes and syncs are made where a new store is opened.
const OPENING: u64 = 151;

// So far behind it a write or sync fails, or none at 0.
static BEHIND: [u64; 5] = [0, 1, 30, 60, 100];

// An output, which has room for all or for nothing.
#[derive(Drop)]
struct Output {
    bytes: Vec<u8>,
    has_room: bool,
}

impl Write for Output {
    fn write(&mut self, bytes: &[u8]) -> io::Result<usize> {
        if self.has_room {
            self.bytes.write(bytes)
        } else {
            Err(io::Error::from(ErrorKind::StorageFull))
        }
    }

    fn flush(&mut self) -> io::Result<()> {
        Ok(())
    }
}

// What a run printed; what it said on the error stream, on which progress and bad words stand apart here; and its
// status.
#[derive(Drop)]
struct Said {
    output: Vec<u8>,
    errors: Vec<u8>,
    progress: Vec<u8>,
    status: u8,
}

// A run of these words.
fn run_on<R: Threads + Wait + Clock + Files<File = File> + Print + Sync>(
    rt: &R,
    alloc: Global,
    words: &[&str],
    is_terminal: bool,
    has_room: bool,
) -> Said {
    let mut output = Output {
        bytes: Vec::new(alloc),
        has_room,
    };
    let mut errors = Vec::new(alloc);
    let mut shown = Vec::new(alloc);
    let progress = Progress {
        errors: &mut shown,
        is_terminal,
    };
    let status = run(rt, alloc, words, &mut output, progress, &mut errors);
    Said {
        output: output.bytes,
        errors,
        progress: shown,
        status,
    }
}

// A run: its words; what it prints; its status; and how the error stream begins with progress or bad words. Progress
// that begins with a return is that on a terminal.
type Case = (&'static [&'static str], &'static str, u8, &'static [u8]);

static CASES: [Case; 11] = [
    (&["nsf-threads"], "rows 116 shown 116 same yes\n", 0, b""),
    (
        &["nsf-threads", "--writers", "1", "--changes", "1", "--watch"],
        "rows 101 shown 101 same yes\n",
        0,
        b"nsf: ",
    ),
    (
        &["nsf-threads", "--writers", "1", "--changes", "2", "--watch"],
        "rows 102 shown 102 same yes\n",
        0,
        b"\rnsf: ",
    ),
    (
        &["nsf-threads", "--writers", "3", "--changes", "7"],
        "rows 112 shown 112 same yes\n",
        0,
        b"",
    ),
    (
        &["nsf-threads", "--writers", "8", "--changes", "60"],
        "rows 340 shown 340 same yes\n",
        0,
        b"",
    ),
    (&["nsf-threads", "--version"], "nsf-threads 0.2.0\n", 0, b""),
    (&["nsf-threads", "--help"], HELP, 0, b""),
    (&["nsf-threads", "--writers", "0"], "", 2, b"error: "),
    (&["nsf-threads", "--writers", "9"], "", 2, b"error: "),
    (&["nsf-threads", "--changes", "0"], "", 2, b"error: "),
    (&["nsf-threads", "--changes", "61"], "", 2, b"error: "),
];

// Whether a run of these words ends as it is to.
fn ends_so<R: Threads + Wait + Clock + Files<File = File> + Print + Sync>(
    rt: &R,
    alloc: Global,
    case: &Case,
) -> bool {
    let (words, wanted, status, shown) = *case;
    let said = run_on(rt, alloc, words, shown.starts_with(b"\r"), true);
    said.output.as_slice() == wanted.as_bytes()
        && said.status == status
        && said.progress.starts_with(shown)
        && said.progress.is_empty() == shown.is_empty()
        && said.errors.is_empty()
}

// Whether these are the errors that are wanted, or begin so, where those end with a blank.
fn are_errors(errors: &[u8], wanted: &[u8]) -> bool {
    if wanted.ends_with(b" ") {
        errors.starts_with(wanted)
    } else {
        errors == wanted
    }
}

// Whether a run of these words, whose output has room for nothing, is refused, and says so.
fn tells_so<R: Threads + Wait + Clock + Files<File = File> + Print + Sync>(
    rt: &R,
    alloc: Global,
    words: &[&str],
    wanted: &[u8],
) -> bool {
    let said = run_on(rt, alloc, words, false, false);
    said.status == 1 && are_errors(&said.errors, wanted)
}

// Runs whose output has room for nothing: their words, and what the error stream tells, which begins so where that ends
// with a blank.
static UNWRITTEN: [(&[&str], &[u8]); 3] = [
    (&["nsf-threads", "--help"], b""),
    (
        &["nsf-threads", "--writers", "1", "--changes", "1"],
        b"nsf: cannot write to standard output\n",
    ),
    (
        &["nsf-threads", "--file", "missing"],
        b"nsf-threads: missing: ",
    ),
];

// Runs the program with each of these words.
fn run_each<R: Threads + Wait + Clock + Files<File = File> + Print + Abort + Sync>(
    rt: &R,
    alloc: Global,
) {
    for case in &CASES {
        claim(rt, ends_so(rt, alloc, case), case.1);
    }
    for (words, wanted) in &UNWRITTEN {
        let holds = tells_so(rt, alloc, *words, *wanted);
        claim(rt, holds, "what the error stream tells");
    }
}

#[test]
fn each_row_has_its_entry(rt: HostRuntime) {
    run_each(&rt, rt.alloc());
}

// Makes a store on the device of a new file, and gives the file its name. Whether that was done.
fn fill<R: Files<File = File> + AllocGlobal, D: Device>(
    rt: &R,
    path: &str,
    device: &mut D,
    geometry: Geometry,
) -> bool {
    format_store(device, geometry).is_ok() && store_file::publish(rt, path).is_ok()
}

// Makes a store in a new file. Whether that was done.
fn makes<R: Files<File = File> + AllocGlobal>(rt: &R, path: &str) -> bool {
    let Ok(geometry) = Geometry::new(1, 64, 4) else {
        return false;
    };
    match store_file::create(rt, rt.alloc(), path, geometry.sectors()) {
        Ok(mut disk) => {
            let made = fill(rt, path, &mut disk, geometry);
            drop(disk);
            made
        }
        Err(_) => false,
    }
}

// Runs on the store in a file. Of four transactions of a writer one deletes the row of another, and one is taken back.
static ON_FILE: [Case; 2] = [
    (IN_FILE, "rows 4 shown 4 same yes\n", 0, b""),
    (IN_FILE, "rows 8 shown 8 same yes\n", 0, b""),
];

const IN_FILE: &[&str] = &[
    "nsf-threads",
    "--file",
    "u",
    "--writers",
    "2",
    "--changes",
    "4",
];

// Whether what isn't a store is refused.
fn refuses<R: Threads + Wait + Clock + Files<File = File> + Print + AllocGlobal + Sync>(
    rt: &R,
) -> bool {
    let written = fs::write(rt, "u", [1; 1024].as_slice());
    let refused = tells_so(rt, rt.alloc(), IN_FILE, b"nsf-threads: u: ");
    let removed = fs::remove_file(rt, "u");
    refused && written.is_ok() && removed.is_ok()
}

// The store of an earlier run is gone on with. What isn't a store is refused.
fn go_on<R: Threads + Wait + Clock + Files<File = File> + Print + AllocGlobal + Abort + Sync>(
    rt: &R,
) {
    claim(rt, makes(rt, "u"), "a store in a file");
    for case in &ON_FILE {
        claim(rt, ends_so(rt, rt.alloc(), case), case.1);
    }
    claim(rt, refuses(rt), "what isn't a store");
}

#[test]
fn the_store_of_a_file_is_gone_on_with(rt: HostRuntime) {
    go_on(&rt);
}

// How many commits were heard of.
#[derive(Drop)]
struct Heard {
    commits: AtomicU64,
}

impl Listener for Heard {
    fn hear(&self, _number: u64, _turn: &Turn) {
        self.commits.fetch_add(1, Ordering::SeqCst);
    }
}

// Four writers of 20 commits each on the device. What was refused, and how many commits were acknowledged.
fn worked<R: Threads + Wait + Clock + Sync>(
    rt: &R,
    alloc: Global,
    device: Disk,
    listener: &Heard,
) -> Option<(Refusals, usize)> {
    let team: Team<'_, R, Heard, Vec<u8>> = Team {
        rt,
        alloc,
        beginning: Beginning::New,
        listener,
        changes: 26,
        progress: None,
    };
    match work_on(device, 4, team) {
        Ok(worked) => {
            let told = (worked.refusals, worked.acknowledged.len());
            forget(worked);
            Some(told)
        }
        Err((_, device)) => {
            forget(device);
            None
        }
    }
}

// The refusals where the device fails, or where nothing does.
fn refusals(failed: Option<Error>) -> Refusals {
    Refusals {
        writer: failed,
        flusher: failed,
        builder: None,
        end: failed.map(NotOpened::Refused),
    }
}

// Whether a failure so far behind the opening is told, or all is acknowledged, and heard of, where there is none.
fn fails_so<R: Threads + Wait + Clock + Sync>(rt: &R, alloc: Global, behind: u64) -> bool {
    let fails = behind > 0;
    let fails_at = if fails {
        OPENING.saturating_add(behind)
    } else {
        0
    };
    let Ok(device) = failing(alloc, fails_at) else {
        return false;
    };
    let listener = Heard {
        commits: AtomicU64::new(0),
    };
    let told = worked(rt, alloc, device, &listener);
    let heard = listener.commits.load(Ordering::SeqCst);
    let failed = if fails {
        Some(Error::DeviceFailed)
    } else {
        None
    };
    match told {
        Some((refused, acknowledged)) => {
            refused == refusals(failed) && (fails || (acknowledged == 80 && heard == 80))
        }
        None => false,
    }
}

// Whether no store is opened where the last write or sync of the opening fails.
fn opens_nothing<R: Threads + Wait + Clock + Sync>(rt: &R, alloc: Global) -> bool {
    let Ok(device) = failing(alloc, OPENING) else {
        return false;
    };
    let listener = Heard {
        commits: AtomicU64::new(0),
    };
    worked(rt, alloc, device, &listener).is_none()
}

// Where nothing fails, all 80 commits are acknowledged; else a writer, the flusher and the end are told that the device
// has failed.
#[test]
fn a_failure_is_told(rt: HostRuntime) {
    let refused = opens_nothing(&rt, rt.alloc());
    claim(&rt, refused, "nothing is opened");
    for behind in &BEHIND {
        let told = fails_so(&rt, rt.alloc(), *behind);
        claim_at(&rt, told, "a failure", *behind);
    }
}

// Whether a transaction that put a row, and deleted this one, if there is one, is told so.
fn reads_so(alloc: Global, deleted: Option<Rid>, wanted: &str) -> Result<bool, AllocError> {
    let turn = Turn {
        writer: 1,
        change: 0x203,
        rid: Rid { page: 2, slot: 7 },
        deleted,
    };
    let text = format!(in alloc; "{turn}")?;
    Ok(text.as_str() == wanted)
}

// Whether that is told so, with the status of a refusal.
fn is_refusal(alloc: Global, found: Result<Found, NotOpened>, wanted: &str) -> bool {
    let mut output = Vec::new(alloc);
    let status = told(&mut output, found);
    let is_same = output.as_slice() == wanted.as_bytes();
    drop(output);
    is_same && matches!(status, Ok(1))
}

// A commit that is safe is told with what its transaction did; and what is refused or not so is told with the status 1.
#[test]
fn what_is_told(rt: HostRuntime) {
    let one = reads_so(rt.alloc(), None, "row 2.7 :00010203 :");
    let gone = Some(Rid { page: 0, slot: 1 });
    let two = reads_so(rt.alloc(), gone, "row 2.7 :00010203 : deleted 0.1");
    let are_so = matches!(one, Ok(true)) && matches!(two, Ok(true));
    claim(&rt, are_so, "what a transaction did");
    let unlike = Found {
        rows: 3,
        shown: 2,
        same: false,
    };
    let unlike = is_refusal(rt.alloc(), Ok(unlike), "rows 3 shown 2 same no\n");
    let failed = Err(NotOpened::Refused(Error::DeviceFailed));
    let failed = is_refusal(rt.alloc(), failed, "refused 2 DeviceFailed\n");
    claim(&rt, unlike && failed, "what is refused or not so");
}
