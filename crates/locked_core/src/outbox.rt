//! The sink that pushes to the queue.
ghost use Rattle.std.specs.Prelude.{◌≡◌};
ghost use Rattle.threads_queue.specs.Ends.{name_prop};

use crate::group::Group;
use records::{Record, Sink};
use std::marker::PhantomData;
use std::sync::Wait;
use threads_queue::{Memory, Pusher, RecordQueue};

// Pushes what it takes to the queue of the seats.
#[derive(Drop)]
pub(crate) struct QueueSink<'a, B: Group, R: Wait, A: Memory> {
    pub(crate) rt: &'a R,
    pub(crate) queue: &'a RecordQueue<A>,
    pub(crate) pusher: &'a mut Pusher<A>,
    pub(crate) site: PhantomData<B>,
    ghost queue_is: { queue.now ≡ B.site.queue } by { name_prop queue.now B.site.queue },
    ghost pusher_is: { pusher.now.queue ≡ B.site.queue } by { name_prop pusher.now.queue B.site.queue },
}

impl<B: Group, R: Wait, A: Memory> Sink for QueueSink<'_, B, R, A> {
    ghost taken = { λ s. s.pusher.now.records };

    ghost room = { λ s. 0 };

    ghost place = { λ s. s.pusher.ghost_name };

    fn take(&mut self, item: Record) -> Result<(), Record> {
        self.pusher.push(self.rt, self.queue, item)
    }
}
