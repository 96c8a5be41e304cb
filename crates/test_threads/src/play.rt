//! What the seat of a store does to which memory is refused.
use crate::calls::Calls;
use crate::looks::{QueueEnd, look_all};
use crate::requests::{Answer, Last, Request, ask_again};
use records::Error;
use std::alloc::Global;
use test_memory::Refusing;

/// What a seat does: it makes requests, and gives the answers beside them; or it looks where the queue had refused a
/// record.
#[derive(Clone, Copy)]
pub(crate) enum Turn<'a> {
    Asks(&'a [(Request, Answer)]),
    Looks,
}

/// One that does that: whether its answers were right, and how many allocations were refused as it ended.
#[derive(Drop)]
pub(crate) struct Solo<'a> {
    pub(crate) memory: &'a Refusing<Global>,
    pub(crate) turn: Turn<'a>,
    pub(crate) right: bool,
    pub(crate) refused: u64,
}

// Makes each request, up to one whose answer isn't the one beside it. Whether there is none.
fn answer_all<C: Calls>(
    seat: &mut C,
    memory: &Refusing<Global>,
    steps: &[(Request, Answer)],
) -> Result<bool, Error> {
    let mut last = Last::none();
    for (request, wanted) in steps {
        if ask_again(seat, memory, &mut last, *request)? != *wanted {
            return Ok(false);
        }
    }
    Ok(true)
}

// What a seat does, up to an answer that isn't right. Whether there is none.
fn take_turn<C: Calls, Q: QueueEnd>(
    seat: &mut C,
    queue: &mut Q,
    memory: &Refusing<Global>,
    turn: Turn<'_>,
) -> Result<bool, Error> {
    match turn {
        Turn::Asks(steps) => answer_all(seat, memory, steps),
        Turn::Looks => look_all(seat, queue, memory),
    }
}

impl Solo<'_> {
    /// Whether all is written out at the end, or that was refused for want of memory, as an allocation was since.
    pub(crate) fn may_end_so(&self, end: Option<Error>) -> bool {
        match end {
            None => true,
            Some(Error::NoMemory) => self.memory.refused() != self.refused,
            Some(_) => false,
        }
    }

    /// Plays at the seat, with the end of the queue.
    pub(crate) fn play_alone<C: Calls, Q: QueueEnd>(&mut self, seat: &mut C, queue: &mut Q) {
        let right = take_turn(seat, queue, self.memory, self.turn);
        self.right = matches!(right, Ok(true));
        self.refused = self.memory.refused();
    }
}
