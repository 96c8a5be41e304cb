//! The rule of the sessions in halves, what each step tells, and how halves are cut and joined.
use crate::Session;
use crate::knowledge::Knowledge;
use atomic_table::{Join, Play, Split, TableRule};
use std::alloc::Allocator;
use std::marker::{Brand, PhantomData};

/// What each half knows of its session, at every moment.
pub struct RegistryRule;

impl<A: Allocator> TableRule<Session<A>, Knowledge, ()> for RegistryRule {
    ghost use Rattle.threads_sessions.specs.Rule.{AreHalvesKept, first_maker};

    ghost holds = { λ _. AreHalvesKept };

    ghost first = { λ _. first_maker };
}

/// Names a session for the proofs alone, so that a change needs no exchange to announce it.
pub(crate) trait Said {
    ghost use Rattle.threads_sessions.specs.Values.{SessionValue};

    ghost session: { SessionValue };
}

impl Said for Brand {
    ghost use Rattle.threads_sessions.specs.Values.{empty_session};

    ghost session = { empty_session };
}

/// The halves that were joined showed one session, and show the one that is said from now on.
pub(crate) struct Change<N: Said> {
    said: PhantomData<N>,
}

impl<A: Allocator, N: Said> Play<Session<A>, Knowledge> for Change<N> {
    ghost use Rattle.threads_sessions.specs.Rule.{Changes};

    ghost then = { Changes N.session };
}

/// The halves that were joined show one session, and go on showing it.
pub(crate) struct Compare;

impl<A: Allocator> Play<Session<A>, Knowledge> for Compare {
    ghost use Rattle.threads_sessions.specs.Rule.{Agrees};

    ghost then = { Agrees };
}

/// Both halves of a new session, under the next number.
pub(crate) struct Make;

impl Split<Knowledge> for Make {
    ghost use Rattle.threads_sessions.specs.Rule.{next_maker, new_session};

    ghost left = { next_maker };

    ghost right = { new_session };
}

/// The two halves of a session.
pub(crate) struct Halve;

impl Split<Knowledge> for Halve {
    ghost use Rattle.threads_sessions.specs.Rule.{half_of};

    ghost left = { half_of };

    ghost right = { half_of };
}

/// What a half knows goes to a token of its own, and it knows nothing.
pub(crate) struct HandOver;

impl Split<Knowledge> for HandOver {
    ghost use Rattle.threads_sessions.specs.Rule.{nobody};

    ghost left = { λ v. nobody };

    ghost right = { λ v. v };
}

/// A half takes in the other.
pub(crate) struct TakeIn;

impl Join<Knowledge> for TakeIn {
    ghost use Rattle.threads_sessions.specs.Rule.{nobody, joined};

    ghost both = { joined };

    ghost spent = { nobody };
}
