//! What the program does with what it hears.
use program_team::{Listener, Turn};

/// It passes over what it hears.
pub(crate) struct Nobody;

impl Listener for Nobody {
    fn hear(&self, _number: u64, _turn: &Turn) {}
}

/// It prints a line for each commit, as far as that can be written.
#[derive(Clone, Copy)]
pub(crate) struct Printer<'a, R> {
    pub(crate) rt: &'a R,
}

impl<R: Print> Listener for Printer<'_, R> {
    fn hear(&self, number: u64, turn: &Turn) {
        let turn = *turn;
        let _ = println!(self.rt; "safe {number} {turn}");
    }
}
