//! What each stop leaves.
use crate::program::run_script;
use program_values::Arguments;
use sector_device::Fate;
use std::alloc::{AllocError, Global};
use std::io;

/// The fates, in the order of the columns.
pub(crate) const FATES: [Fate; 5] = [Fate::Old, Fate::New, Fate::Zero, Fate::Gate, Fate::Junk];

/// What a stop leaves by each fate: the numbers of what was left.
pub(crate) type Left = [usize; 5];

/// Writes and syncs in a row that leave the same.
#[derive(Clone, Copy)]
pub(crate) struct Calls {
    /// The number of the first one, from 1.
    pub(crate) first: u32,
    /// The number of the last one.
    pub(crate) last: u32,
    /// What they leave.
    pub(crate) left: Left,
}

/// What a stop at each write and sync of a script's commands leaves, by what becomes of the unsynced sectors.
#[derive(Drop)]
pub(crate) struct CrashMap {
    // What was left, each once: the lines that are printed behind the stop. They come as the stops first met them,
    // which is in the order of the history's prefixes.
    pub(crate) prefixes: Vec<Vec<u8>>,
    pub(crate) calls: Vec<Calls>,
}

// The lines behind the one that says that the run was stopped, if it was.
fn behind_stop(alloc: Global, output: &[u8]) -> Result<Option<Vec<u8>>, AllocError> {
    let mut is_behind = false;
    let mut left = Vec::new(alloc);
    for line in output.split(|byte| *byte == b'\n') {
        if is_behind && !line.is_empty() {
            left.extend_from_slice(line)?;
            left.push(b'\n')?;
        }
        is_behind = is_behind || line == b"stopped".as_slice();
    }
    Ok(is_behind.then_some(left))
}

impl CrashMap {
    /// The map of this script over a new store, as the arguments ask for it; their own stop and fate are left out of
    /// account. The error is want of memory.
    pub(crate) fn new(alloc: Global, arguments: &Arguments, text: &[u8]) -> io::Result<CrashMap> {
        let mut map = CrashMap {
            prefixes: Vec::new(alloc),
            calls: Vec::new(alloc),
        };
        for stop in 1..=u32::MAX {
            match map.left_at(alloc, arguments, text, stop)? {
                Some(left) => map.add(stop, left)?,
                None => return Ok(map),
            }
        }
        Ok(map)
    }

    // What is left by each fate where the write or sync of this number is cut short, or `None` where the script makes
    // fewer.
    fn left_at(
        &mut self,
        alloc: Global,
        arguments: &Arguments,
        text: &[u8],
        stop: u32,
    ) -> io::Result<Option<Left>> {
        let mut left = [0; 5];
        for (number, fate) in left.iter_mut().zip(FATES) {
            let cut = Arguments {
                stop: Some(stop),
                fate,
                ..*arguments
            };
            let mut output = Vec::new(alloc);
            run_script(alloc, &cut, text, &mut output)?;
            match behind_stop(alloc, &output)? {
                Some(lines) => *number = self.number_of(lines)?,
                None => return Ok(None),
            }
        }
        Ok(Some(left))
    }

    // The number of what was left, which is a new one where nothing left that before.
    fn number_of(&mut self, lines: Vec<u8>) -> Result<usize, AllocError> {
        let found = self
            .prefixes
            .iter()
            .position(|known| known.as_slice() == lines.as_slice());
        if let Some(number) = found {
            return Ok(number);
        }
        self.prefixes.push(lines)?;
        Ok(self.prefixes.len() - 1)
    }

    // Adds what the next write or sync leaves.
    fn add(&mut self, call: u32, left: Left) -> Result<(), AllocError> {
        if let Some(calls) = self.calls.last_mut() {
            if calls.left == left {
                calls.last = call;
                return Ok(());
            }
        }
        self.calls.push(Calls {
            first: call,
            last: call,
            left,
        })?;
        Ok(())
    }
}
