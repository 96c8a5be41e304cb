//! A line that says how far the builder is.
use model::Life;
use shared::{Group, GroupView, Shared};
use std::io::Write;
use std::rt::Clock;
use std::sync::Wait;
use std::time::Duration;
use std::{io, thread};
use threads_leader::BuilderEnd;

// How many milliseconds it is from one look at the builder to the next.
const BETWEEN_LOOKS: u64 = 1;

/// Where the builder's progress is shown, and whether that is a terminal, on which each count stands in place of the
/// one before.
#[derive(Drop)]
pub struct Progress<E> {
    pub errors: E,
    pub is_terminal: bool,
}

impl<E: Write> Progress<E> {
    // Shows a count.
    fn show(&mut self, tried: u64) -> io::Result<()> {
        if self.is_terminal {
            write!(self.errors, "\rnsf: {tried} pairs tried")
        } else {
            writeln!(self.errors, "nsf: {tried} pairs tried")
        }
    }

    // Ends the last line.
    fn end(&mut self, shown: u64) -> io::Result<()> {
        if self.is_terminal && shown > 0 {
            writeln!(self.errors)?;
        }
        Ok(())
    }
}

/// Shows how many pairs the builder has tried, each time that it has tried more, while it builds. Where it has ended
/// and the index is not complete, it builds no more.
pub(crate) fn watch<B: Group, R: Wait + Clock, E: Write>(
    rt: &R,
    shared: &Shared<B>,
    view: &mut GroupView<B>,
    builder: &BuilderEnd<B>,
    progress: &mut Progress<E>,
) -> io::Result<()> {
    let mut shown = 0;
    for _ in rt.forever() {
        let life = shared.life_without_seat(rt);
        let tried = view.progress(shared);
        if tried > shown {
            progress.show(tried)?;
            shown = tried;
        }
        match life {
            Life::Building { .. } if builder.reason().is_none() => {
                thread::sleep(rt, Duration::from_millis(BETWEEN_LOOKS))
            }
            _ => return progress.end(shown),
        }
    }
    unreachable!()
}
