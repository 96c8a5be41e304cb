// An output that looks at the store's file as it is written.
use std::fs::File;
use std::io::Write;
use std::rt::Files;
use std::{fs, io};

/// What of a run is looked at besides its status and what it says.
#[derive(Clone, Copy)]
pub(crate) enum Look {
    /// What it prints.
    Whole,
    /// How what it prints ends.
    End,
    /// What it prints, and each line is answered before the next one is read. As the last ticket is answered, the file
    /// of this name holds all that it does in the end.
    Durable(&'static str),
    /// What it prints, and each line is answered before the next one is read. The file of this name is cut once a row
    /// has its place.
    Cut(&'static str),
    /// What it prints. As the first row has its place, the file of the first name gets the second one in its place.
    Moved(&'static str, &'static str),
}

/// What was answered, and what a file held meanwhile.
#[derive(Drop)]
pub struct Answers<'a, R> {
    rt: &'a R,
    look: Look,
    pub text: Vec<u8>,
    /// What the file held as the last ticket was answered.
    pub held: Vec<u8>,
    /// How often it was flushed.
    pub flushes: usize,
}

impl<'a, R: Files<File = File> + AllocGlobal> Answers<'a, R> {
    pub fn new(rt: &'a R, look: Look) -> Self {
        Answers {
            rt,
            look,
            text: Vec::new(rt.alloc()),
            held: Vec::new(rt.alloc()),
            flushes: 0,
        }
    }

    fn keep(&mut self, path: &str) -> io::Result<()> {
        self.held.clear();
        let bytes = fs::read(self.rt, path)?;
        let kept = self.held.extend_from_slice(&bytes);
        drop(bytes);
        Ok(kept?)
    }

    // Keeps what the file holds, or cuts it.
    fn look_at(&mut self, answer: &[u8]) -> io::Result<()> {
        match self.look {
            Look::Durable(path) if answer.starts_with(b"ticket") => self.keep(path),
            Look::Cut(path) if answer.starts_with(b"rid") => {
                fs::write(self.rt, path, [0; 512].as_slice())
            }
            Look::Moved(path, other) if answer.starts_with(b"rid") => {
                let _ = fs::rename(self.rt, path, other);
                Ok(())
            }
            _ => Ok(()),
        }
    }
}

impl<R: Files<File = File> + AllocGlobal> Write for Answers<'_, R> {
    fn write(&mut self, buf: &[u8]) -> io::Result<usize> {
        self.look_at(buf)?;
        self.text.extend_from_slice(buf)?;
        Ok(buf.len())
    }

    fn flush(&mut self) -> io::Result<()> {
        self.flushes = self.flushes.saturating_add(1);
        Ok(())
    }
}
