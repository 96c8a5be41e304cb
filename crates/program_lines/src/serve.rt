//! The commands of the input, served line by line.
use crate::backup::back_up;
use crate::forms::{print_help, tell_why};
use crate::input::read_line;
use crate::name::OpenName;
use crate::tally::{Came, Ended, Tally};
use program_arguments::Serving;
use program_commands::{GuardedStore, KeyRequest, Outcome, PageRequest, Request, Store};
use program_files::Refused;
use program_script::{ByteText, Command, Scan, ShellLine};
use program_values::Answer;
use records::{Error, Txn};
use restart::{Event, Reply};
use sector_device::Device;
use std::alloc::Global;
use std::fs::File;
use std::io;
use std::io::{BufRead, Write};
use std::rt::Files;
use store_file::Troubled;

const FULL_INDEX: &str =
    "the index is full. What open transactions reserve comes free at their end, and `clean` takes marked entries out. Where neither helps, `drop` and then `create` make the index anew";

// The answer to a copy that is refused, of which the error stream says why.
const NO_BACKUP: &[u8] = b"refused backup\n";

const LOST_NAME: &str =
    "the file that is open no longer has its name. Where it is gone, a flush tells so";

// Answers that something is refused.
fn refuse<W: Write>(error: Error, output: &mut W) -> io::Result<Outcome> {
    let answer = Answer::Refused(error);
    writeln!(output, "{answer}")?;
    Ok(Outcome::Refused(error))
}

// Answers a line that isn't read. The refusal of a text of one line is that of this line.
fn refuse_line<W: Write>(error: Error, line: u64, output: &mut W) -> io::Result<Came> {
    match error {
        Error::BadScript { .. } => {
            refuse(Error::BadScript { line }, output)?;
            Ok(Came::NoCommand)
        }
        error => {
            refuse(error, output)?;
            Ok(Came::Unread)
        }
    }
}

// The refusal that a reply tells, if it is one.
fn refusal_in(reply: Reply<Global>) -> Option<Error> {
    match reply {
        Reply::Refused(error) => Some(error),
        _ => None,
    }
}

/// A store that serves an input, and what it has met.
#[derive(Drop)]
pub(crate) struct Service<D: Device> {
    guarded: GuardedStore<D>,
    serving: Serving,
    /// What came of the lines.
    tally: Tally,
    /// That the index is full.
    full: Notice,
    /// That the device failed.
    failure: Notice,
    /// That the file no longer has its name.
    lost_name: Notice,
}

/// What is told once, as soon as a command meets it.
#[derive(Clone, Copy)]
enum Notice {
    Unmet,
    Due,
    Told,
}

impl Notice {
    fn meet(&mut self) {
        if matches!(self, Notice::Unmet) {
            *self = Notice::Due;
        }
    }

    // Whether it is to be told now, and then it is told.
    fn take(&mut self) -> bool {
        let is_due = matches!(self, Notice::Due);
        if is_due {
            *self = Notice::Told;
        }
        is_due
    }
}

impl<D: Device + Troubled> Service<D> {
    pub(crate) fn new(store: Store<D>, serving: Serving) -> Self {
        Service {
            guarded: GuardedStore::new(store),
            serving,
            tally: Tally::default(),
            full: Notice::Unmet,
            failure: Notice::Unmet,
            lost_name: Notice::Unmet,
        }
    }

    // Notes what came of a request.
    fn note(&mut self, outcome: Outcome) {
        match outcome {
            Outcome::Refused(Error::IndexFull) => self.full.meet(),
            Outcome::Refused(Error::DeviceFailed) => self.failure.meet(),
            _ => {}
        }
    }

    /// Tells what helps where the index is full, why the device failed, and that the file has lost its name, each once.
    pub(crate) fn tell<E: Write>(&mut self, is_name_lost: bool, errors: &mut E) {
        if is_name_lost {
            self.lost_name.meet();
        }
        if self.full.take() {
            let _ = writeln!(errors, "nsf-store: {FULL_INDEX}");
        }
        if self.failure.take() {
            let refused = Refused::Store(Error::DeviceFailed).because(
                self.guarded.store().device(),
            );
            let _ = writeln!(errors, "nsf-store: {refused}");
        }
        if self.lost_name.take() {
            let _ = writeln!(errors, "nsf-store: {LOST_NAME}");
        }
    }

    // Serves a request, and prints its answers.
    fn answer<W: Write>(&mut self, request: Request, output: &mut W) -> io::Result<Outcome> {
        let outcome = self.guarded.answer(request, output)?;
        self.note(outcome);
        Ok(outcome)
    }

    // Flushes, and adds the answer to those before; where the flush is refused, it takes their place.
    fn flush_behind(&mut self, alloc: Global, answers: &mut Vec<u8>) -> io::Result<Outcome> {
        let mut flushed = Vec::new(alloc);
        let outcome = self.answer(Request::Flush, &mut flushed)?;
        if outcome.is_refusal() {
            answers.clear();
        }
        answers.extend_from_slice(flushed.as_slice())?;
        Ok(outcome)
    }

    // Serves a commit. Its ticket is held until all is flushed, so that nothing is answered that isn't safe; where the
    // flush is refused, that is the commit's answer.
    fn serve_durably<W: Write>(
        &mut self,
        alloc: Global,
        request: Request,
        output: &mut W,
    ) -> io::Result<Outcome> {
        let mut answers = Vec::new(alloc);
        let mut outcome = self.answer(request, &mut answers)?;
        if let Outcome::Ticket = outcome {
            outcome = self.flush_behind(alloc, &mut answers)?;
        }
        output.write_all(answers.as_slice())?;
        Ok(outcome)
    }

    // Serves a command, and prints its answers.
    fn serve_command<W: Write>(
        &mut self,
        alloc: Global,
        command: &Command,
        output: &mut W,
    ) -> io::Result<Outcome> {
        let request = match Request::of(command) {
            Ok(request) => request,
            Err(error) => return refuse(error, output),
        };
        if self.serving.is_durable && matches!(command, Command::Commit { .. }) {
            return self.serve_durably(alloc, request, output);
        }
        let outcome = self.answer(request, output)?;
        // A step that isn't owed is none that was left out.
        match (command, outcome) {
            (Command::Step { .. }, Outcome::Skipped) => Ok(Outcome::Other),
            (_, outcome) => Ok(outcome),
        }
    }

    // Prints the pairs that a scan asks for.
    fn serve_scan<W: Write>(
        &self,
        alloc: Global,
        scan: &Scan,
        output: &mut W,
    ) -> io::Result<Outcome> {
        match PageRequest::of(scan) {
            Ok(asked) => self.guarded.store().print_page(alloc, &asked, output),
            Err(error) => refuse(error, output),
        }
    }

    // Changes the one row with a key, if what is asked for fits.
    fn serve_key<W: Write>(
        &mut self,
        asked: Result<KeyRequest, Error>,
        output: &mut W,
    ) -> io::Result<Outcome> {
        match asked {
            Ok(asked) => {
                let outcome = self.guarded.answer_key(&asked, output)?;
                self.note(outcome);
                Ok(outcome)
            }
            Err(error) => refuse(error, output),
        }
    }

    // Commits, and flushes behind it.
    fn commit_now<W: Write>(
        &mut self,
        alloc: Global,
        txn: Txn,
        output: &mut W,
    ) -> io::Result<Outcome> {
        self.serve_durably(alloc, Request::Event(Event::Commit { txn }), output)
    }

    // Flushes, and copies the store to a new file. The answer is the flush's, unless the copy is refused.
    fn serve_backup<R: Files<File = File> + AllocGlobal, W: Write, E: Write>(
        &mut self,
        alloc: Global,
        name: &OpenName<'_, R>,
        file: &ByteText,
        output: &mut W,
        errors: &mut E,
    ) -> io::Result<Came> {
        let mut answer = Vec::new(alloc);
        let outcome = self.answer(Request::Flush, &mut answer)?;
        if !outcome.is_refusal() && !back_up(name, file, errors) {
            output.write_all(NO_BACKUP)?;
            return Ok(Came::Refused);
        }
        output.write_all(answer.as_slice())?;
        Ok(Came::of(outcome))
    }

    // Prints how each line is written.
    fn serve_help<W: Write>(&self, output: &mut W) -> io::Result<Outcome> {
        match print_help(output) {
            Ok(()) => Ok(Outcome::Other),
            Err(error) => Err(error),
        }
    }

    // Serves a line that is no command of a script.
    fn serve_shell_line<R: Files<File = File> + AllocGlobal, W: Write, E: Write>(
        &mut self,
        alloc: Global,
        name: &OpenName<'_, R>,
        line: &ShellLine,
        output: &mut W,
        errors: &mut E,
    ) -> io::Result<Came> {
        let served = match line {
            ShellLine::Scan(scan) => self.serve_scan(alloc, scan, output),
            ShellLine::DeleteKey { txn, key } => {
                self.serve_key(KeyRequest::delete(*txn, key), output)
            }
            ShellLine::UpdateKey {
                txn,
                old,
                key,
                body,
            } => self.serve_key(KeyRequest::update(*txn, old, key, body), output),
            ShellLine::CommitNow { txn } => self.commit_now(alloc, *txn, output),
            ShellLine::Backup { file } => {
                return self.serve_backup(alloc, name, file, output, errors);
            }
            ShellLine::Help => self.serve_help(output),
            ShellLine::Quit => return Ok(Came::Quit),
        };
        match served {
            Ok(outcome) => Ok(Came::of(outcome)),
            Err(error) => Err(error),
        }
    }

    // Serves the command of a line of a script, if there is one.
    fn serve_script_line<W: Write>(
        &mut self,
        alloc: Global,
        line: &[u8],
        number: u64,
        output: &mut W,
    ) -> io::Result<Came> {
        match program_script::read(alloc, line) {
            Ok(commands) => {
                let mut came = Came::Served;
                for command in &commands {
                    came = Came::of(self.serve_command(alloc, command, output)?);
                }
                Ok(came)
            }
            Err(error) => refuse_line(error, number, output),
        }
    }

    // Serves a line.
    fn serve_line<R: Files<File = File> + AllocGlobal, W: Write, E: Write>(
        &mut self,
        alloc: Global,
        name: &OpenName<'_, R>,
        (number, line): (u64, &[u8]),
        output: &mut W,
        errors: &mut E,
    ) -> io::Result<Came> {
        match program_script::read_shell_line(alloc, line) {
            Ok(Some(line)) => self.serve_shell_line(alloc, name, &line, output, errors),
            Ok(None) => self.serve_script_line(alloc, line, number, output),
            Err(error) => refuse_line(error, number, output),
        }
    }

    // Notes what came of a line. Whether the input ends behind it.
    fn count(&mut self, came: Came, number: u64) -> bool {
        self.tally.add(came, number);
        matches!(came, Came::Quit)
            || (self.serving.stops_on_refusal && !matches!(came, Came::Served))
    }

    // Prints the prompt, or what ends its line, where there is one.
    fn prompt<W: Write>(&self, text: &str, output: &mut W) -> io::Result<()> {
        if !self.serving.prompts {
            return Ok(());
        }
        output.write_all(text.as_bytes())?;
        output.flush()
    }

    // Reads a line, and tells whether there was one.
    fn read_line<I: BufRead, W: Write>(
        &self,
        input: &mut I,
        line: &mut Vec<u8>,
        output: &mut W,
    ) -> io::Result<bool> {
        self.prompt("> ", output)?;
        if read_line(input, line)? {
            return Ok(true);
        }
        self.prompt("\n", output)?;
        Ok(false)
    }

    // Serves a line that was read, and tells why, where it is none of those that are served.
    fn serve_read<R: Files<File = File> + AllocGlobal, W: Write, E: Write>(
        &mut self,
        alloc: Global,
        name: &OpenName<'_, R>,
        (number, line): (u64, &[u8]),
        output: &mut W,
        errors: &mut E,
    ) -> io::Result<Came> {
        let came = self.serve_line(alloc, name, (number, line), output, errors)?;
        output.flush()?;
        if matches!(came, Came::NoCommand) {
            tell_why(alloc, line, number, errors);
        }
        Ok(came)
    }

    /// Serves the lines of the input until its end, each of which is answered before the next is read. A line that is
    /// none of those that are served is answered with its number, and the error stream says why.
    ///
    /// Where the index is full, the error stream tells once what helps; where the device failed, why; and once that the
    /// file no longer has its name. Why a copy was refused it tells each time.
    pub(crate) fn serve_lines<R: Files<File = File> + AllocGlobal, I: BufRead, W: Write, E: Write>(
        &mut self,
        alloc: Global,
        name: &OpenName<'_, R>,
        input: &mut I,
        output: &mut W,
        errors: &mut E,
    ) -> io::Result<()> {
        let mut line = Vec::new(alloc);
        for number in 1..u64::MAX {
            if !self.read_line(input, &mut line, output)? {
                break;
            }
            let came = self.serve_read(alloc, name, (number, line.as_slice()), output, errors)?;
            self.tell(name.is_lost(), errors);
            if self.count(came, number) {
                break;
            }
        }
        Ok(())
    }

    // Tells which transactions are open still.
    fn tell_open<E: Write>(&self, errors: &mut E) {
        let core = self.guarded.store().core();
        if core.active_txns() == 0 {
            return;
        }
        let _ = write!(
            errors,
            "nsf-store: transactions open at the end, of which nothing is kept:"
        );
        for index in 0..core.active_txns() {
            if let Some(txn) = core.txn_at(index) {
                let _ = write!(errors, " {}", txn.number());
            }
        }
        let _ = writeln!(errors);
    }

    /// Tells how many commands were refused, and which transactions are open still. How the input ended.
    pub(crate) fn sum_up<E: Write>(&self, errors: &mut E) -> Ended {
        self.tally.tell(self.serving.stops_on_refusal, errors);
        self.tell_open(errors);
        self.tally.ended(self.serving.stops_on_refusal)
    }

    /// The device of the store.
    pub(crate) fn into_device(self) -> D {
        self.guarded.into_store().into_device()
    }

    /// Flushes what is not flushed yet.
    pub(crate) fn flush(&mut self) -> Result<(), Refused> {
        match refusal_in(self.guarded.flush()) {
            Some(error) => Err(Refused::Store(error).because(self.guarded.store().device())),
            None => Ok(()),
        }
    }
}
