// The system's files, whose writes, syncs, locks and names are noted. A call of these can fail; each write is
// interrupted first, and takes only a part.
use std::alloc::{Alloc, Allocator};
use std::cell::Cell;
use std::fs::{File, Metadata, OpenFile, OpenOptions, Permissions, TryLockError};
use std::io;
use std::io::{Error, ErrorKind, PipeReader, PipeWriter, Read, Seek, SeekFrom, Write};
use std::os::fd::BorrowedFd;
use std::os::unix::fs::FileExt;
use std::os::unix::net::SocketAddr;
use std::path::PathBuf;
use std::rt::Files;
use store_file::StoreFile;

// How many bytes a write takes at most.
const PART: usize = 300;

// The folder of this name may not be read.
const CLOSED: &str = "closed";

/// What becomes of the calls of the system.
#[derive(Clone, Copy)]
pub enum System {
    /// Each is made.
    Plain,
    /// Just these come. At first so many locks find the file locked. Calls are letters: `k` locks a file, `h` locks it
    /// against those that would lock it alone, `w` writes, `s` syncs it, `f` syncs the folder of the process, `d`
    /// another one, `l` gives a second name, `r` removes one.
    Calls(&'static [u8], u64),
    /// The one that so many come before fails with this number.
    Fails(u64, i32),
}

/// The calls that came.
#[derive(Drop)]
pub struct Log {
    // Which are to come, if that is said.
    expected: Option<&'static [u8]>,
    // How many of them came so far, or more than there are where another one came.
    met: Cell<usize>,
    // How many calls come before the one that fails.
    before: Cell<u64>,
    // The system's number of that failure.
    code: i32,
    is_interrupted: Cell<bool>,
    // How many locks find the file locked.
    busy: Cell<u64>,
}

impl Log {
    fn new(expected: Option<&'static [u8]>, busy: u64, before: u64, code: i32) -> Log {
        Log {
            expected,
            met: Cell::new(0),
            before: Cell::new(before),
            code,
            is_interrupted: Cell::new(false),
            busy: Cell::new(busy),
        }
    }

    /// No call yet.
    pub fn of(system: System) -> Log {
        match system {
            System::Plain => Log::new(None, 0, u64::MAX, 0),
            System::Calls(expected, busy) => Log::new(Some(expected), busy, u64::MAX, 0),
            System::Fails(before, code) => Log::new(None, 0, before, code),
        }
    }

    /// Whether just the calls came that are to come, if that is said.
    pub fn is_met(&self) -> bool {
        match self.expected {
            Some(expected) => self.met.get() == expected.len(),
            None => true,
        }
    }

    /// Whether the call that failed is the last that came.
    pub fn ends_with_failure(&self) -> bool {
        self.before.get() == u64::MAX
    }

    // Whether this call is to come next.
    fn is_next(&self, call: u8) -> bool {
        match self.expected {
            Some(expected) => expected.get(self.met.get()).copied() == Some(call),
            None => true,
        }
    }

    fn note_lock(&self, call: u8) -> Result<(), TryLockError> {
        if let Err(error) = self.note(call) {
            return Err(TryLockError::Error(error));
        }
        let busy = self.busy.get();
        self.busy.set(busy.saturating_sub(1));
        if busy != 0 {
            return Err(TryLockError::WouldBlock);
        }
        Ok(())
    }

    fn note(&self, call: u8) -> io::Result<()> {
        let met = self.met.get();
        self.met.set(if self.is_next(call) {
            met.saturating_add(1)
        } else {
            usize::MAX
        });
        let before = self.before.get();
        self.before.set(before.wrapping_sub(1));
        if before == 0 {
            return Err(Error::from_raw_os_error(self.code));
        }
        Ok(())
    }
}

/// A file of these.
#[derive(Drop)]
pub struct WatchedFile<'a> {
    file: File,
    log: &'a Log,
    // its letter, where it is a folder
    folder: u8,
}

impl WatchedFile<'_> {
    fn note_sync(&self) -> io::Result<()> {
        if self.file.metadata()?.is_dir() {
            return self.log.note(self.folder);
        }
        self.log.note(b's')
    }
}

impl FileExt for WatchedFile<'_> {
    fn read_at(&self, buf: &mut [u8], offset: u64) -> io::Result<usize> {
        self.file.read_at(buf, offset)
    }

    fn write_at(&self, buf: &[u8], offset: u64) -> io::Result<usize> {
        let was_interrupted = self.log.is_interrupted.get();
        self.log.is_interrupted.set(!was_interrupted);
        if !was_interrupted {
            return Err(Error::from(ErrorKind::Interrupted));
        }
        self.log.note(b'w')?;
        self.file.write_at(&buf[..buf.len().min(PART)], offset)
    }
}

impl OpenFile for WatchedFile<'_> {
    fn metadata(&self) -> io::Result<Metadata> {
        self.file.metadata()
    }

    fn set_len(&self, size: u64) -> io::Result<()> {
        self.file.set_len(size)
    }

    fn sync_all(&self) -> io::Result<()> {
        self.note_sync()
    }

    fn sync_data(&self) -> io::Result<()> {
        self.note_sync()
    }
}

impl StoreFile for WatchedFile<'_> {
    fn try_lock(&self) -> Result<(), TryLockError> {
        self.log.note_lock(b'k')?;
        self.file.try_lock()
    }

    fn try_lock_shared(&self) -> Result<(), TryLockError> {
        self.log.note_lock(b'h')?;
        self.file.try_lock_shared()
    }

    fn apart(self) -> io::Result<Self> {
        Ok(self)
    }
}

impl Read for WatchedFile<'_> {
    fn read(&mut self, _buf: &mut [u8]) -> io::Result<usize> {
        Err(Error::from(ErrorKind::Unsupported))
    }
}

impl Write for WatchedFile<'_> {
    fn write(&mut self, _buf: &[u8]) -> io::Result<usize> {
        Err(Error::from(ErrorKind::Unsupported))
    }

    fn flush(&mut self) -> io::Result<()> {
        Ok(())
    }
}

impl Seek for WatchedFile<'_> {
    fn seek(&mut self, _to: SeekFrom) -> io::Result<u64> {
        Err(Error::from(ErrorKind::Unsupported))
    }
}

/// The system with these files.
#[derive(Drop)]
pub struct Watched<'a, R> {
    pub rt: &'a R,
    pub log: &'a Log,
}

impl<R: Alloc> Alloc for Watched<'_, R> {
    type A = R::A;

    fn alloc(&self) -> R::A {
        self.rt.alloc()
    }
}

impl<'a, R: Files<File = File>> Files for Watched<'a, R> {
    type File = WatchedFile<'a>;

    type Dir = R::Dir;

    fn open_file(&self, how: &OpenOptions, path: &str) -> io::Result<WatchedFile<'a>> {
        if path == CLOSED {
            return Err(Error::from(ErrorKind::PermissionDenied));
        }
        Ok(WatchedFile {
            file: self.rt.open_file(how, path)?,
            log: self.log,
            folder: if path == "." { b'f' } else { b'd' },
        })
    }

    fn open_dir(&self, path: &str) -> io::Result<R::Dir> {
        self.rt.open_dir(path)
    }

    fn metadata(&self, path: &str) -> io::Result<Metadata> {
        self.rt.metadata(path)
    }

    fn symlink_metadata(&self, path: &str) -> io::Result<Metadata> {
        self.rt.symlink_metadata(path)
    }

    fn copy(&self, from: &str, to: &str) -> io::Result<u64> {
        self.rt.copy(from, to)
    }

    fn rename(&self, from: &str, to: &str) -> io::Result<()> {
        self.rt.rename(from, to)
    }

    fn remove_file(&self, path: &str) -> io::Result<()> {
        self.log.note(b'r')?;
        self.rt.remove_file(path)
    }

    fn create_dir(&self, path: &str) -> io::Result<()> {
        self.rt.create_dir(path)
    }

    fn remove_dir(&self, path: &str) -> io::Result<()> {
        self.rt.remove_dir(path)
    }

    fn remove_dir_all<B: Allocator>(&self, alloc: B, path: &str) -> io::Result<()> {
        self.rt.remove_dir_all(alloc, path)
    }

    fn hard_link(&self, original: &str, link: &str) -> io::Result<()> {
        self.log.note(b'l')?;
        self.rt.hard_link(original, link)
    }

    fn canonicalize<B: Allocator>(&self, alloc: B, path: &str) -> io::Result<PathBuf<B>> {
        self.rt.canonicalize(alloc, path)
    }

    fn read_link<B: Allocator>(&self, alloc: B, path: &str) -> io::Result<PathBuf<B>> {
        self.rt.read_link(alloc, path)
    }

    fn set_permissions(&self, path: &str, perm: Permissions) -> io::Result<()> {
        self.rt.set_permissions(path, perm)
    }

    fn symlink(&self, original: &str, link: &str) -> io::Result<()> {
        self.rt.symlink(original, link)
    }

    fn pipe(&self) -> io::Result<(PipeReader, PipeWriter)> {
        self.rt.pipe()
    }

    fn chown(&self, path: &str, uid: Option<u32>, gid: Option<u32>) -> io::Result<()> {
        self.rt.chown(path, uid, gid)
    }

    fn lchown(&self, path: &str, uid: Option<u32>, gid: Option<u32>) -> io::Result<()> {
        self.rt.lchown(path, uid, gid)
    }

    fn create_dir_with_mode(&self, path: &str, mode: u32) -> io::Result<()> {
        self.rt.create_dir_with_mode(path, mode)
    }

    fn bind_unix(&self, socket: BorrowedFd<'_>, addr: &SocketAddr) -> io::Result<()> {
        self.rt.bind_unix(socket, addr)
    }
}
