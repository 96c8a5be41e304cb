//! The queue, and the two ends of it.
ghost use Rattle.std.specs.Prelude.{◌≡◌, [], ◌∷◌, ◌++◌, IfOk, IfErr, OnOk, OnErr, MatchOption, length, take};
ghost use Rattle.threads_queue.specs.Ends.{Handed, name_of};

use crate::memory::Memory;
use crate::rule::{Ends, Lent, Pass, Popped, Pushed, Queue};
use records::Record;
use std::alloc::{AllocError, Global};
use std::marker::Model;
use std::sync::Wait;

/// The queue, which both threads share by a `&`. To a contract it is its identity, which each of its ends names.
pub struct RecordQueue<A: Memory = Global> {
    queue: Queue<A>,
}

impl<A: Memory> Model for RecordQueue<A> {
    ghost use Rattle.std.specs.Coded.{codes};
    ghost use Rattle.threads_queue.specs.Ends.{QueueName, coded_stored, name_of};

    ghost Value = { QueueName };

    ghost coded = { Prim.hlevel (codes, coded_stored) };

    ghost view = { λ q. name_of A.stored q.queue };
}

impl<A: Memory> Drop for RecordQueue<A> {
    fn drop(self) {
        let RecordQueue { queue } = self;
        queue.destroy();
    }
}

/// The end that pushes. To a contract it is its queue, and all that was pushed.
#[derive(Drop)]
pub struct Pusher<A: Memory = Global> {
    pub(crate) pass: Pass<A>,
}

impl<A: Memory> Model for Pusher<A> {
    ghost use Rattle.std.specs.Prelude.{◌≡◌};
    ghost use Rattle.crossbeam_queue.specs.SegTies.{IsSegPassOf};
    ghost use Rattle.std.specs.Coded.{codes};
    ghost use Rattle.threads_queue.specs.Ends.{Handed, coded_stored, name_of, queue_of};
    ghost use Rattle.threads_queue.specs.Rule.{push_end};

    ghost Value = { Handed };

    ghost coded = { Prim.hlevel (codes, coded_stored) };

    ghost view = { λ s. record { queue = name_of A.stored (queue_of s.pass); records = s.pass.me.view.client.pushed } };

    ghost invariant = { λ s. IsSegPassOf (queue_of s.pass) s.pass
        × (s.pass.me.view.client ≡ push_end s.pass.me.view.client.pushed) };
}

/// The end that pops. To a contract it is its queue, and all that was popped.
#[derive(Drop)]
pub struct Popper<A: Memory = Global> {
    pub(crate) pass: Pass<A>,
}

impl<A: Memory> Model for Popper<A> {
    ghost use Rattle.std.specs.Prelude.{◌≡◌};
    ghost use Rattle.crossbeam_queue.specs.SegTies.{IsSegPassOf};
    ghost use Rattle.std.specs.Coded.{codes};
    ghost use Rattle.threads_queue.specs.Ends.{Handed, coded_stored, name_of, queue_of};
    ghost use Rattle.threads_queue.specs.Rule.{pop_end};

    ghost Value = { Handed };

    ghost coded = { Prim.hlevel (codes, coded_stored) };

    ghost view = { λ s. record { queue = name_of A.stored (queue_of s.pass); records = s.pass.me.view.client.popped } };

    ghost invariant = { λ s. IsSegPassOf (queue_of s.pass) s.pass
        × (s.pass.me.view.client ≡ pop_end s.pass.me.view.client.popped) };
}

impl<A: Memory> RecordQueue<A> {
    /// An empty queue with its two ends.
    ///
    /// The error is that the memory for its first records was refused.
    pub fn new(alloc: A) -> Result<(RecordQueue<A>, Pusher<A>, Popper<A>), AllocError>
        ensures pusher { IfOk result (λ r. r.1 ≡ record { queue = r.0; records = [] }) }
        ensures popper { IfOk result (λ r. r.2 ≡ record { queue = r.0; records = [] }) }
    {
        let (queue, mut pass) = Queue::<A>::with_rule(alloc)?;
        let other = queue.another::<Ends>(&mut pass);
        Ok((
            RecordQueue { queue },
            Pusher { pass },
            Popper { pass: other },
        ))
    }

    /// Compares the two ends, where one thread holds both, as under a lock: what was popped is the first of what was
    /// pushed, in order. Neither end changes.
    pub fn compare<R: Wait>(&self, rt: &R, pusher: &mut Pusher<A>, popper: &mut Popper<A>)
        requires pusher { pusher.old.queue ≡ self.now }
        requires popper { popper.old.queue ≡ self.now }
        ensures beginning { popper.old.records ≡ take (length popper.old.records) pusher.old.records }
        ensures pusher { pusher.new ≡ pusher.old }
        ensures popper { popper.new ≡ popper.old }
    {
        let lent = self.queue.another::<Lent>(&mut popper.pass);
        self.queue.absorb::<Ends>(&mut pusher.pass, lent);
        self.queue.len_as::<Popped, R>(rt, &mut pusher.pass);
        let back = self.queue.another::<Ends>(&mut pusher.pass);
        self.queue.absorb::<Lent>(&mut popper.pass, back);
    }
}

impl<A: Memory> Pusher<A> {
    /// Pushes a record behind those that were pushed before. Where there is no memory for it, or nearly 2^62 were
    /// pushed, it comes back, and nothing was pushed.
    pub fn push<R: Wait>(
        &mut self,
        rt: &R,
        queue: &RecordQueue<A>,
        item: Record,
    ) -> Result<(), Record>
        requires { self.old.queue ≡ queue.now }
        ensures ok { OnOk result (self.new ≡ record self.old { records = self.old.records ++ item ∷ [] }) }
        ensures back { IfErr result (λ back. back ≡ item) }
        ensures unchanged { OnErr result (self.new ≡ self.old) }
    {
        queue.queue.push_as::<Pushed, R>(rt, &mut self.pass, item)
    }
}

impl<A: Memory> Popper<A> {
    /// Pops the oldest record that waits, or finds none.
    pub fn pop<R: Wait>(&mut self, rt: &R, queue: &RecordQueue<A>) -> Option<Record>
        requires { self.old.queue ≡ queue.now }
        ensures { MatchOption result (self.new ≡ self.old) (λ item.
            self.new ≡ record self.old { records = self.old.records ++ item ∷ [] }) }
    {
        queue.queue.pop_as::<Popped, R>(rt, &mut self.pass)
    }
}
