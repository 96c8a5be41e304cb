// The steps of a test of files: what is done, and what it comes to.
use crate::watched::Log;
use sector_device::{Device, Failed, SECTOR_SIZE};
use std::alloc::Allocator;
use std::fs::File;
use std::os::unix::fs::symlink;
use std::rt::Files;
use std::{fs, io};
use store_file::{OpenError, StoreFile, Trouble, Troubled, create, discard, open, publish, read};
use test_memory::Refusing;

/// A call of `store_file` for a file. What is opened is let go.
#[derive(Clone, Copy)]
pub(crate) enum Call {
    /// Of a file of so many sectors.
    Create(u64),
    /// Where there is no memory for its sectors.
    CreateInNone,
    Publish,
    /// Where the file doesn't get its name, its draft is removed.
    PublishOrDiscard,
    Discard,
    Open,
    Read,
}

/// What is done to a file, or looked at.
#[derive(Clone, Copy)]
pub(crate) enum Act {
    /// It has so many of this byte.
    Put(u8, usize),
    /// It has just this byte in its first half and that in its second one, so many in all.
    Hold(u8, u8, usize),
    /// It is made as a folder, or as a link to the file of this name.
    MakeFolder,
    LinkTo(&'static str),
    /// It gets this name, besides its own or in its place.
    NameToo(&'static str),
    Rename(&'static str),
    Remove,
    RemoveFolder,
    /// It isn't there.
    Miss,
}

/// What is done with the disk that is open meanwhile.
#[derive(Clone, Copy)]
pub(crate) enum Use {
    /// Sector 1, where there is one, gets this byte, and all is synced.
    Write(u8),
    Sync,
    /// Its sectors have just these bytes.
    Hold(&'static [u8]),
    /// The call that failed is the last that came.
    EndWithFailure,
}

#[derive(Clone, Copy)]
pub(crate) enum Step {
    Call(Call),
    Act(Act),
    Use(Use),
}

/// The file of this name, what is done, and what that comes to.
pub(crate) type Row = (&'static str, Step, &'static str);

// What is wrong.
fn name_of_trouble(trouble: Option<Trouble>) -> &'static str {
    match trouble {
        Some(Trouble::NoRoom) => "NoRoom",
        Some(Trouble::TooLarge) => "TooLarge",
        Some(Trouble::InputOutput) => "InputOutput",
        Some(Trouble::Gone) => "Gone",
        Some(Trouble::Resized) => "Resized",
        Some(Trouble::System(2)) => "System 2",
        Some(Trouble::System(13)) => "System 13",
        _ => "another trouble",
    }
}

// Why there is no disk.
fn name_of_error(error: &OpenError) -> &'static str {
    match error {
        OpenError::Io(trouble) => name_of_trouble(Some(*trouble)),
        OpenError::NoMemory => "NoMemory",
        OpenError::Busy => "Busy",
        OpenError::Exists => "Exists",
        OpenError::DraftExists => "DraftExists",
        OpenError::DraftInUse => "DraftInUse",
        OpenError::Made(trouble) => name_of_trouble(Some(*trouble)),
        OpenError::NoSecondName => "NoSecondName",
        OpenError::NotAFile => "NotAFile",
        OpenError::Linked => "Linked",
        OpenError::BadLength(0) => "BadLength 0",
        OpenError::BadLength(1000) => "BadLength 1000",
        OpenError::BadLength(_) => "BadLength",
    }
}

/// What a call comes to.
pub(crate) fn name_of(done: Result<(), OpenError>) -> &'static str {
    match done {
        Ok(()) => "done",
        Err(error) => name_of_error(&error),
    }
}

fn creates<F: Files + AllocGlobal, A: Allocator>(
    files: &F,
    alloc: A,
    path: &str,
    sectors: u64,
) -> Result<(), OpenError>
where
    F::File: StoreFile,
{
    drop(create(files, alloc, path, sectors)?);
    Ok(())
}

fn creates_in_none<F: Files + AllocGlobal>(files: &F, path: &str) -> Result<(), OpenError>
where
    F::File: StoreFile,
{
    creates(files, Refusing::new(files.alloc(), 0), path, 2)
}

fn publishes_or_discards<F: Files + AllocGlobal>(files: &F, path: &str) -> Result<(), OpenError>
where
    F::File: StoreFile,
{
    let published = publish(files, path);
    if published.is_err() {
        let _ = discard(files, path);
    }
    published
}

fn opens<F: Files + AllocGlobal>(files: &F, path: &str) -> Result<(), OpenError>
where
    F::File: StoreFile,
{
    drop(open(files, files.alloc(), path)?);
    Ok(())
}

fn reads<F: Files + AllocGlobal>(files: &F, path: &str) -> Result<(), OpenError>
where
    F::File: StoreFile,
{
    drop(read(files, files.alloc(), path)?);
    Ok(())
}

// Makes a call.
fn make<F: Files + AllocGlobal>(files: &F, path: &str, call: Call) -> Result<(), OpenError>
where
    F::File: StoreFile,
{
    match call {
        Call::Create(sectors) => creates(files, files.alloc(), path, sectors),
        Call::CreateInNone => creates_in_none(files, path),
        Call::Publish => publish(files, path),
        Call::PublishOrDiscard => publishes_or_discards(files, path),
        Call::Discard => discard(files, path),
        Call::Open => opens(files, path),
        Call::Read => reads(files, path),
    }
}

fn put<R: Files<File = File> + AllocGlobal>(
    rt: &R,
    path: &str,
    byte: u8,
    length: usize,
) -> io::Result<()> {
    let bytes = vec![in rt.alloc(); byte; length]?;
    let written = fs::write(rt, path, bytes.as_slice());
    drop(bytes);
    written
}

/// Whether the file of that name holds these bytes.
pub(crate) fn holds<R: Files<File = File> + AllocGlobal>(
    rt: &R,
    path: &str,
    wanted: &[u8],
) -> io::Result<bool> {
    let bytes = fs::read(rt, path)?;
    let is_same = bytes.as_slice() == wanted;
    drop(bytes);
    Ok(is_same)
}

fn holds_halves<R: Files<File = File> + AllocGlobal>(
    rt: &R,
    path: &str,
    halves: (u8, u8),
    length: usize,
) -> io::Result<bool> {
    let mut wanted = [halves.0; 2_048];
    let length = length.min(2_048);
    for n in length / 2..length {
        wanted[n] = halves.1;
    }
    holds(rt, path, &wanted[..length])
}

// It is so, unless what was to make it so failed.
fn is_done(made: io::Result<()>) -> io::Result<bool> {
    match made {
        Ok(()) => Ok(true),
        Err(error) => Err(error),
    }
}

fn misses<R: Files<File = File>>(rt: &R, path: &str) -> io::Result<bool> {
    match fs::exists(rt, path) {
        Ok(is_there) => Ok(!is_there),
        Err(error) => Err(error),
    }
}

fn act_on<R: Files<File = File> + AllocGlobal>(rt: &R, path: &str, act: Act) -> io::Result<bool> {
    match act {
        Act::Put(byte, length) => is_done(put(rt, path, byte, length)),
        Act::Hold(first, second, length) => holds_halves(rt, path, (first, second), length),
        Act::MakeFolder => is_done(fs::create_dir(rt, path)),
        Act::LinkTo(name) => is_done(symlink(rt, name, path)),
        Act::NameToo(name) => is_done(fs::hard_link(rt, path, name)),
        Act::Rename(name) => is_done(fs::rename(rt, path, name)),
        Act::Remove => is_done(fs::remove_file(rt, path)),
        Act::RemoveFolder => is_done(fs::remove_dir_all(rt, path)),
        Act::Miss => misses(rt, path),
    }
}

/// What came of something that can fail.
pub(crate) fn name_of_done(done: io::Result<bool>) -> &'static str {
    match done {
        Ok(true) => "done",
        Ok(false) => "otherwise",
        Err(_) => "an error",
    }
}

/// What is done to a file comes to this.
pub(crate) fn told_of_act<R: Files<File = File> + AllocGlobal>(
    rt: &R,
    path: &str,
    act: Act,
) -> &'static str {
    name_of_done(act_on(rt, path, act))
}

fn is_of<D: Device>(disk: &mut D, n: u64, byte: u8) -> bool {
    let mut sector = [0; SECTOR_SIZE];
    n < disk.sectors() && disk.read(n, &mut sector).is_ok() && sector == [byte; SECTOR_SIZE]
}

// Whether its sectors have just these bytes.
fn is_all_of<D: Device>(disk: &mut D, bytes: &[u8]) -> bool {
    let mut number: u64 = 0;
    for byte in bytes {
        if !is_of(disk, number, *byte) {
            return false;
        }
        number = number.saturating_add(1);
    }
    number == disk.sectors()
}

fn write<D: Device>(disk: &mut D, byte: u8) -> Result<(), Failed> {
    if disk.sectors() > 1 {
        disk.write(1, &[byte; SECTOR_SIZE])?;
    }
    disk.sync()
}

// What a call of the disk comes to.
fn told_by<D: Device + Troubled>(disk: &D, done: Result<(), Failed>) -> &'static str {
    match done {
        Ok(()) => "done",
        Err(Failed) => name_of_trouble(disk.trouble()),
    }
}

// What a use of the disk comes to.
fn told_of_use<D: Device + Troubled>(log: &Log, disk: &mut D, used: Use) -> &'static str {
    match used {
        Use::Write(byte) => {
            let done = write(disk, byte);
            told_by(disk, done)
        }
        Use::Sync => {
            let done = disk.sync();
            told_by(disk, done)
        }
        Use::Hold(bytes) => name_of_done(Ok(is_all_of(disk, bytes))),
        Use::EndWithFailure => name_of_done(Ok(log.ends_with_failure())),
    }
}

/// What a step comes to.
pub(crate) fn take<
    R: Files<File = File> + AllocGlobal,
    F: Files + AllocGlobal,
    D: Device + Troubled,
>((rt, files, log): (&R, &F, &Log), disk: &mut D, path: &str, step: Step) -> &'static str
where
    F::File: StoreFile,
{
    match step {
        Step::Call(call) => name_of(make(files, path, call)),
        Step::Act(act) => told_of_act(rt, path, act),
        Step::Use(used) => told_of_use(log, disk, used),
    }
}
