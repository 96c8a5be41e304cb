//! The program over what it reads and writes.
ghost use Rattle.std.specs.Prelude.{◌≡◌, ◌⊎◌, map, Ok, IfOk, IfErr, OnOk};
ghost use Rattle.program_script.specs.Grammar.{lines, IsScript};
ghost use Rattle.program_player.specs.Runs.{Prints, GoesOn, Restarts, MakesSteps, Runs, RunsCommand, RunsCommands};
ghost use Rattle.program_player.specs.Plays.{geometry_of, sectors_asked, Starts, IsNoStart, IsCutAt, StartsFor};
ghost use Rattle.program_player.specs.Plays.{IsFault};
ghost use Rattle.program_player.specs.Plays.{IsRefused, IsStopped, Shows, Ends, Plays, PlaysInput};
ghost use Rattle.program_player.specs.Plays.{RunsWords};

use crate::input::read_script;
use crate::session::{Disk, End, Session, Stopped};
use flip_image::Halves;
use program_arguments::NoArguments;
use program_commands::Request;
use program_script::Command;
use program_values::{Answer, Arguments};
use records::{Error, Geometry};
use restart::Event;
use sector_device::{Fate, FaultDisk, MemDisk, Which};
use std::alloc::Global;
use std::convert::AsStr;
use std::io;
use std::io::{Read, Write};
use store_reader::{format_gives_nothing, one_answer};

/// How many writes and syncs the disk has room to record: more than are made from one loss of power to the next, by a
/// restart of the largest store and a flush into each slot of the longest log.
const CALLS: usize = 16_384;

fn print<W: Write>(output: &mut W, answer: &Answer) -> io::Result<()>
    ensures { OnOk result (Prints W.contents answer.now output.old output.new) }
{
    writeln!(output, "{answer}")
}

// The session is kept where the output took what was printed, and let go of where it didn't.
fn keep(printed: io::Result<()>, session: Session) -> io::Result<Session>
    ensures { IfOk result (λ kept. (kept ≡ session) × (printed ≡ Ok tt)) }
{
    match printed {
        Ok(()) => Ok(session),
        Err(error) => {
            drop(session.into_disk());
            Err(error)
        }
    }
}

// So is a disk.
fn keep_disk(printed: io::Result<()>, disk: Disk) -> io::Result<Disk>
    ensures { IfOk result (λ kept. (kept ≡ disk) × (printed ≡ Ok tt)) }
{
    match printed {
        Ok(()) => Ok(disk),
        Err(error) => {
            drop(disk);
            Err(error)
        }
    }
}

// Prints the answer, and goes on with the session unless it was stopped.
fn go_on<W: Write>(
    session: Session,
    answer: Result<Answer, Stopped>,
    output: &mut W,
) -> io::Result<Result<Session, End>>
    ensures { IfOk result (λ next. GoesOn W.contents answer session next output.old output.new) }
{
    match answer {
        Ok(answer) => {
            let session = keep(print(output, &answer), session)?;
            Ok(Ok(session))
        }
        Err(Stopped) => Ok(Err(End::Stopped(session.into_disk()))),
    }
}

// Crashes the device, and prints that the store was opened again.
fn crash<W: Write>(session: Session, fate: Fate, output: &mut W) -> io::Result<Result<Session, End>>
    ensures { IfOk result (λ next. Restarts W.contents fate session next output.old output.new) }
{
    match session.crash(fate) {
        Ok(session) => {
            let printed = print(output, &Answer::Restart(session.life()));
            let session = keep(printed, session)?;
            Ok(Ok(session))
        }
        Err(end) => Ok(Err(end)),
    }
}

// Makes up to so many steps of the builder or the cleaner, and prints each answer.
fn make_steps<W: Write>(
    mut session: Session,
    event: &Event,
    count: u32,
    output: &mut W,
) -> io::Result<Result<Session, End>>
    ensures { IfOk result (λ next. MakesSteps W.contents event.now count session next output.old output.new) }
{
    for _ in 0..count {
        match session.serve(*event) {
            Ok(answer) => {
                let kept = keep(print(output, &answer), session)?;
                session = kept;
                if answer.is_last_step() {
                    return Ok(Ok(session));
                }
            }
            Err(Stopped) => return Ok(Err(End::Stopped(session.into_disk()))),
        }
    }
    Ok(Ok(session))
}

// Serves a request, and prints the answer.
fn serve<W: Write>(
    mut session: Session,
    request: Request,
    output: &mut W,
) -> io::Result<Result<Session, End>>
    ensures { IfOk result (λ next. Runs W.contents request session next output.old output.new) }
{
    match request {
        Request::Event(event) => {
            let answer = session.serve(event);
            go_on(session, answer, output)
        }
        Request::Build(count) => make_steps(session, &Event::Build, count, output),
        Request::Clean(count) => make_steps(session, &Event::Clean, count, output),
        Request::Flush => {
            let answer = session.flush();
            go_on(session, answer, output)
        }
        Request::Image => {
            let answer = session.image();
            go_on(session, answer, output)
        }
        Request::Crash(fate) => crash(session, fate, output),
        Request::Dump => {
            let session = keep(session.dump(output), session)?;
            Ok(Ok(session))
        }
    }
}

// Runs a command, and prints the answer.
fn run_command<W: Write>(
    session: Session,
    command: &Command,
    output: &mut W,
) -> io::Result<Result<Session, End>>
    ensures { IfOk result (λ next. RunsCommand W.contents command.now session next output.old output.new) }
{
    match Request::of(command) {
        Ok(request) => serve(session, request, output),
        Err(error) => go_on(session, Ok(Answer::Refused(error)), output),
    }
}

// Runs the commands in turn.
fn run_commands<W: Write>(
    session: Session,
    commands: &[Command],
    output: &mut W,
) -> io::Result<Result<(), End>>
    ensures { IfOk result (λ last. RunsCommands W.contents commands.now session last output.old output.new) }
{
    let mut session = session;
    for command in commands {
        match run_command(session, command, output)? {
            Ok(next) => session = next,
            Err(end) => return Ok(Err(end)),
        }
    }
    drop(session.into_disk());
    Ok(Ok(()))
}

// A store of this geometry on a new disk, opened. The write or sync of this number is cut short,
// or none at 0.
fn start(alloc: Global, sectors: u64, geometry: Geometry, fails_at: u64) -> Result<Session, Error>
    ensures starts { IfOk result (Starts sectors geometry fails_at) }
    ensures refused { IfErr result (IsNoStart sectors geometry) }
{
    format_gives_nothing();
    one_answer();
    let mut memory = MemDisk::new(alloc, sectors, CALLS)?;
    Halves::format(&mut memory, geometry)?;
    let disk = FaultDisk::new(memory, Which::WritesAndSyncs, fails_at);
    match Session::open(alloc, disk, fails_at) {
        Ok(session) => Ok(session),
        Err((error, disk)) => {
            drop(disk);
            Err(error)
        }
    }
}

// The number of the write or sync that is cut short, or 0: so many more than a start makes.
fn stop_number(
    alloc: Global,
    sectors: u64,
    geometry: Geometry,
    stop: Option<u32>,
) -> Result<u64, Error>
    ensures cut { IfOk result (IsCutAt sectors geometry stop) }
    ensures refused { IfErr result (IsNoStart sectors geometry) }
{
    match stop {
        Some(stop) => {
            let made = start(alloc, sectors, geometry, 0)?.into_disk().made();
            Ok(made.saturating_add(u64::from(stop)))
        }
        None => Ok(0),
    }
}

// How many sectors the disk has.
fn sectors_for(arguments: &Arguments, geometry: Geometry) -> u64
    ensures { result ≡ sectors_asked arguments.now.sectors geometry }
{
    match arguments.sectors {
        Some(sectors) => u64::from(sectors),
        None => geometry.sectors(),
    }
}

// The store that the arguments ask for, opened.
fn start_for(alloc: Global, arguments: &Arguments, geometry: Geometry) -> Result<Session, Error>
    requires { geometry ≡ geometry_of arguments.now }
    ensures starts { IfOk result (StartsFor arguments.now) }
    ensures refused { IfErr result (IsNoStart (sectors_asked arguments.now.sectors geometry) geometry) }
{
    let sectors = sectors_for(arguments, geometry);
    let fails_at = stop_number(alloc, sectors, geometry, arguments.stop)?;
    start(alloc, sectors, geometry, fails_at)
}

// Prints how far the index of the store that was opened again is, and what it holds.
fn show<W: Write>(session: &Session, output: &mut W) -> io::Result<()>
    ensures { OnOk result (Shows W.contents session.now output.old output.new) }
{
    print(output, &Answer::Restart(session.life()))?;
    session.dump(output)
}

// What is printed after a stop: the device crashes, and the store is opened again.
fn after_stop<W: Write>(alloc: Global, disk: Disk, fate: Fate, output: &mut W) -> io::Result<u8>
    ensures { IfOk result (λ status. IsStopped W.contents fate disk status output.old output.new) }
{
    let disk = keep_disk(print(output, &Answer::Stopped), disk)?;
    match Session::reopen(alloc, disk, fate) {
        Ok(session) => {
            let shown = show(&session, output);
            drop(session.into_disk());
            shown?;
            Ok(0)
        }
        Err((error, disk)) => {
            drop(disk);
            refused(output, error)
        }
    }
}

fn refused<W: Write>(output: &mut W, error: Error) -> io::Result<u8>
    ensures { IfOk result (λ status. IsRefused W.contents error status output.old output.new) }
{
    print(output, &Answer::Refused(error))?;
    Ok(1)
}

// Prints what is printed once the commands have ended.
fn end<W: Write>(
    alloc: Global,
    arguments: &Arguments,
    last: Result<(), End>,
    output: &mut W,
) -> io::Result<u8>
    ensures { IfOk result (λ status. Ends W.contents arguments.now last status output.old output.new) }
{
    match last {
        Ok(()) => Ok(0),
        Err(End::Refused(error)) => refused(output, error),
        Err(End::Stopped(disk)) => after_stop(alloc, disk, arguments.fate, output),
    }
}

// Reads the commands, and makes and opens a new store for them; or the first fault.
fn commands_and_store(
    alloc: Global,
    arguments: &Arguments,
    text: &[u8],
) -> Result<(Vec<Command>, Session), Error>
    ensures script { IfOk result (λ made. IsScript (lines text.now) made.0.items) }
    ensures starts { IfOk result (λ made. StartsFor arguments.now made.1) }
    ensures fault { IfErr result (IsFault arguments.now text.now) }
{
    let commands = program_script::read(alloc, text)?;
    let geometry = Geometry::new(arguments.pages, arguments.entries, arguments.slots)?;
    let session = start_for(alloc, arguments, geometry)?;
    Ok((commands, session))
}

/// Runs the script over a new store, as the arguments ask, and prints the answers and how it ended. Answers the exit
/// status. The error is the output's, and then some of it is printed.
pub fn run_script<W: Write>(
    alloc: Global,
    arguments: &Arguments,
    text: &[u8],
    output: &mut W,
) -> io::Result<u8>
    ensures { IfOk result (λ status. Plays W.contents arguments.now text.now status output.old output.new) }
{
    match commands_and_store(alloc, arguments, text) {
        Ok((commands, session)) => {
            let last = run_commands(session, &commands, output)?;
            end(alloc, arguments, last, output)
        }
        Err(error) => refused(output, error),
    }
}

// Whether a line that is no comment holds a carriage return, which makes it a bad one.
fn has_carriage_return(text: &[u8]) -> bool {
    text.split(|byte| *byte == b'\n')
        .any(|line| !line.starts_with(b"#") && line.contains(&b'\r'))
}

// Says on the error stream what a user can't see in the refusal of the script.
fn note_carriage_return(text: &[u8], errors: &mut impl Write) {
    if has_carriage_return(text) {
        let _ = writeln!(
            errors,
            "nsf: the script has a carriage return at the end of a line, or in it"
        );
    }
}

// The number of the first line that is no comment and holds a byte above 7e, which makes it a bad one.
fn line_that_is_no_text(text: &[u8]) -> Option<usize> {
    text.split(|byte| *byte == b'\n')
        .position(|line| !line.starts_with(b"#") && line.iter().any(|byte| *byte > 0x7e))
        .map(|before| before.saturating_add(1))
}

// Says on the error stream which line of the script isn't text.
fn note_no_text(text: &[u8], errors: &mut impl Write) {
    if let Some(number) = line_that_is_no_text(text) {
        let _ = writeln!(
            errors,
            "nsf: line {number} of the script isn't text: it has a byte above 7e"
        );
    }
}

// Says on the error stream which bytes of the script make it a bad one.
fn note_bytes(text: &[u8], errors: &mut impl Write) {
    note_carriage_return(text, errors);
    note_no_text(text, errors);
}

// Says on the error stream that the output couldn't be written, if so.
fn note_unwritten(ran: &io::Result<u8>, errors: &mut impl Write) {
    if ran.is_err() {
        let _ = writeln!(errors, "nsf: cannot write to standard output");
    }
}

/// Runs the script that the input holds, as the arguments ask, and answers the exit status: that of `run_script`, or 1
/// where there is no memory for the input. The error is the input's or the output's, and then the error stream says so;
/// an input of which a line is too long is one that can't be read.
pub fn run_input<R: Read, W: Write>(
    alloc: Global,
    arguments: &Arguments,
    input: &mut R,
    output: &mut W,
    errors: &mut impl Write,
) -> io::Result<u8>
    ensures { IfOk result (λ status.
        PlaysInput W.contents arguments.now (R.remaining input.old) status output.old output.new) }
{
    match read_script(alloc, input) {
        Ok(text) => {
            note_bytes(&text, errors);
            let ran = run_script(alloc, arguments, &text, output);
            note_unwritten(&ran, errors);
            ran
        }
        Err(unread) if unread.is_want_of_memory() => refused(output, Error::NoMemory),
        Err(unread) => {
            unread.tell(errors);
            Err(unread.into_error())
        }
    }
}

/// Runs the program on these words, the first of them its own name, and answers its exit status: 0 where the script ran
/// or help was asked for, 1 where script or device failed or was refused, 2 for bad arguments. The error is that of the
/// input or of the output.
pub fn run_words<S: AsStr, R: Read, W: Write>(
    alloc: Global,
    words: &[S],
    input: &mut R,
    output: &mut W,
    errors: &mut impl Write,
) -> io::Result<u8>
    ensures { IfOk result (λ status. RunsWords W.contents R.remaining (map S.text words.now)
        input.old input.new status output.old output.new) }
{
    match program_arguments::read(alloc, words, output, errors) {
        Ok(arguments) => run_input(alloc, &arguments, input, output, errors),
        Err(NoArguments::NoMemory) => refused(output, Error::NoMemory),
        Err(NoArguments::Told(status)) => Ok(status),
    }
}

/// Runs the program on these words as `run_words` does, and answers its exit status, which is 1 where the input can't
/// be read or the output can't be written.
pub fn run_without_map<S: AsStr, R: Read, W: Write>(
    alloc: Global,
    words: &[S],
    input: &mut R,
    output: &mut W,
    errors: &mut impl Write,
) -> u8
    ensures { (result ≡ 1) ⊎ RunsWords W.contents R.remaining (map S.text words.now)
        input.old input.new result output.old output.new }
{
    run_words(alloc, words, input, output, errors).unwrap_or(1)
}
