//! What a flusher's part is made of.
ghost use Rattle.std.specs.Prelude.{◌≡◌};

use board::NewFlushView;
use locked_core::Memory;
use std::alloc::Global;
use std::marker::Model;
use threads_queue::Popper;

/// The end of the queue that pops, and the flusher's view as the board gave it, for a part that is to be made. Who has
/// them alone can neither pop a record nor publish a horizon. To a contract they are an `EndsValue`.
#[derive(Drop)]
pub struct FlushEnds<A: Memory = Global> {
    pub(crate) popper: Popper<A>,
    pub(crate) view: NewFlushView,
}

impl<A: Memory> Model for FlushEnds<A> {
    ghost use Rattle.std.specs.Coded.{codes};
    ghost use Rattle.threads_queue.specs.Ends.{coded_stored};
    ghost use Rattle.threads_flusher.specs.Part.{EndsValue};

    ghost Value = { EndsValue };

    ghost coded = { Prim.hlevel (codes, coded_stored) };

    ghost view = { λ e. record { popper = e.popper; published = e.view } };
}

impl<A: Memory> FlushEnds<A> {
    /// Both, for whoever makes what the threads share.
    pub fn new(popper: Popper<A>, view: NewFlushView) -> FlushEnds<A>
        ensures { result ≡ record { popper = popper; published = view } }
    {
        FlushEnds { popper, view }
    }
}
