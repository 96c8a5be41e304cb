//! The flusher's part, as it lies on a desk.
ghost use Rattle.std.specs.Prelude.{◌≡◌, Some};
ghost use Rattle.threads_leader.specs.Led.{IsLed};

use crate::course::Course;
use sector_device::Device;
use std::alloc::Global;
use std::marker::{Model, PhantomData};
use std::sync::Wait;
use threads_loops::{
    FlushPart, Found, Gate, Group, Memory, RoundsMade, Shared, flush_round, take_up,
};

/// What came of it that a thread was to make a round.
#[derive(Clone, Copy)]
pub(crate) enum Led {
    /// One was made, and this was found in it.
    Round(Found),
    /// Another thread makes one.
    Busy,
    /// None is to be made: the stop flag was read, the device has failed, or no part lies there.
    Over,
}

impl Led {
    /// Whether none is to be made.
    pub(crate) fn is_over(self) -> bool {
        match self {
            Led::Over => true,
            Led::Round(_) | Led::Busy => false,
        }
    }
}

/// The flusher's part between two rounds, which any thread may make. To a contract it has no value. Its type keeps that
/// the part has gone on from the one that began, as `flush_loop` goes on.
#[derive(Drop)]
pub(crate) struct Turn<C: Course<D, A>, B: Group, D: Device, A: Memory = Global> {
    part: FlushPart<B, D, A>,
    rounds: RoundsMade,
    course: PhantomData<C>,
}

impl<C: Course<D, A>, B: Group, D: Device, A: Memory> Model for Turn<C, B, D, A> {
    ghost use Rattle.std.specs.Prelude.{⊤};
    ghost use Rattle.threads_leader.specs.Led.{IsLed};

    ghost Value = { ⊤ };

    ghost view = { λ _. tt };

    ghost invariant = { λ t. IsLed D.past_of D.marks D.failures B.site.opened C.begun t.part };
}

impl<C: Course<D, A>, B: Group, D: Device, A: Memory> Turn<C, B, D, A> {
    /// The part as it begins. It goes on with an image of an earlier run.
    pub(crate) fn new(mut part: FlushPart<B, D, A>) -> Turn<C, B, D, A>
        requires { C.begun ≡ Some part }
    {
        take_up(&mut part);
        Turn {
            part,
            rounds: RoundsMade::new(),
            course: PhantomData,
        }
    }

    /// Makes a round, if one is to be made.
    pub(crate) fn lead<R: Wait, G: Gate>(
        &mut self,
        rt: &R,
        shared: &Shared<B, A>,
        gate: &G,
    ) -> Led {
        if self.part.stopped(shared.board()) || self.part.has_failed() {
            return Led::Over;
        }
        let rings = shared.board().waits().pushed.rings();
        Led::Round(flush_round(rt, shared, &mut self.part, &mut self.rounds, rings, gate))
    }

    /// The part as it is now.
    pub(crate) fn into_part(self) -> FlushPart<B, D, A>
        ensures { IsLed D.past_of D.marks D.failures B.site.opened C.begun result }
    {
        let Turn {
            part,
            rounds: _,
            course: _,
        } = self;
        part
    }
}
