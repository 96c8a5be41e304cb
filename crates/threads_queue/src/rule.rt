//! The rule of the queue, what each step tells, and how the ends are cut and joined.
use crate::knowledge::Knowledge;
use crossbeam_queue::protocol::{Join, Lesson, Outcome, Protocol, Split};
use crossbeam_queue::{RuledSegQueue, SegPass};
use records::Record;

/// What the records in the queue say of what each end knows, at every moment.
pub struct QueueRule;

impl Protocol<Record, Knowledge> for QueueRule {
    ghost use Rattle.std.specs.Prelude.{[]};
    ghost use Rattle.threads_queue.specs.Rule.{IsQueueKept, both_ends};

    ghost holds = { IsQueueKept };

    ghost first = { both_ends [] [] };
}

/// The two ends are cut apart, or joined.
pub struct Ends;

impl Split<Knowledge> for Ends {
    ghost use Rattle.threads_queue.specs.Rule.{push_end, pop_end};

    ghost left = { λ v. push_end v.pushed };

    ghost right = { λ v. pop_end v.popped };
}

impl Join<Knowledge> for Ends {
    ghost use Rattle.threads_queue.specs.Rule.{both_ends, no_end};

    ghost both = { λ v w. both_ends v.pushed w.popped };

    ghost spent = { no_end };
}

/// The end that pops is lent, or comes back.
pub struct Lent;

impl Split<Knowledge> for Lent {
    ghost use Rattle.threads_queue.specs.Rule.{no_end, pop_end};

    ghost left = { λ v. no_end };

    ghost right = { λ v. pop_end v.popped };
}

impl Join<Knowledge> for Lent {
    ghost use Rattle.threads_queue.specs.Rule.{no_end, pop_end};

    ghost both = { λ v w. pop_end w.popped };

    ghost spent = { no_end };
}

/// A record is pushed.
pub struct Pushed;

impl Outcome<Record, Knowledge> for Pushed {
    ghost use Rattle.threads_queue.specs.Rule.{Pushes};

    ghost then = { Pushes };
}

/// A record is popped.
pub struct Popped;

impl Outcome<Record, Knowledge> for Popped {
    ghost use Rattle.threads_queue.specs.Rule.{Pops};

    ghost then = { Pops };
}

impl Lesson<Record, Knowledge> for Popped {
    ghost use Rattle.threads_queue.specs.Rule.{Waits};

    ghost fact = { Waits };
}

pub type Queue<A> = RuledSegQueue<Record, Knowledge, QueueRule, A>;

pub type Pass<A> = SegPass<Record, Knowledge, A>;
