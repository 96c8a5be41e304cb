//! Inputs and outputs that may fail.
use std::io;
use std::io::{ErrorKind, Read, Write};

/// An input that gives these bytes, or fails.
#[derive(Drop)]
pub struct Input<'a> {
    pub bytes: &'a [u8],
    pub is_broken: bool,
}

impl Read for Input<'_> {
    fn read(&mut self, buffer: &mut [u8]) -> io::Result<usize> {
        if self.is_broken {
            return Err(io::Error::from(ErrorKind::BrokenPipe));
        }
        self.bytes.read(buffer)
    }
}

/// An output that keeps what is written, and fails once it has no room.
#[derive(Drop)]
pub struct Output {
    pub bytes: Vec<u8>,
    pub room: usize,
}

impl Write for Output {
    fn write(&mut self, bytes: &[u8]) -> io::Result<usize> {
        if self.room < bytes.len() {
            return Err(io::Error::from(ErrorKind::BrokenPipe));
        }
        self.bytes.extend_from_slice(bytes)?;
        self.room -= bytes.len();
        Ok(bytes.len())
    }

    fn flush(&mut self) -> io::Result<()> {
        Ok(())
    }
}
