//! Where the clients of a run are told why its builder has ended.
ghost use Rattle.std.specs.Prelude.{◌≡◌, IfSome};
ghost use Rattle.threads_loops.specs.Building.{EndsBuilder};
ghost use Rattle.threads_loops.specs.Telling.{IsToldBy};

use crate::reason::{Reason, Told};
use records::Error;
use shared::Group;
use std::marker::PhantomData;
use std::sync::{OnceLock, OnceToken, Wait};

/// What a run tells of its builder while it goes on. The caller of `run_beside` makes one for each run, and the clients
/// look at it: where the builder has ended, an index that they wait for is not built in this run. One that served a run
/// tells how that one ended, and nothing of the next.
#[derive(Drop)]
pub struct BuilderEnd<B: Group> {
    reason: OnceLock<Reason<B>>,
}

impl<B: Group> BuilderEnd<B> {
    /// Nothing is told yet.
    pub fn new() -> BuilderEnd<B> {
        BuilderEnd {
            reason: OnceLock::new(),
        }
    }

    // What this shows to be told here.
    fn read<'t>(&'t self, token: OnceToken<'t, Reason<B>>) -> Told<'t, B>
        requires { token.of ≡ self.now.reason.id }
        ensures here { IsToldBy self.now result }
        ensures ends { EndsBuilder B.site.opened result.error }
    {
        let error = self.reason.value(&token).error;
        Told { error, token }
    }

    /// Why the builder has ended, once it has, and that was told here: to all that ask the same, and what the run ends
    /// with (`told` of `run_beside`). (That a look which comes later finds it, no clause says.)
    pub fn reason(&self) -> Option<Told<'_, B>>
        ensures here { IfSome result (λ told. IsToldBy self.now told) }
        ensures ends { IfSome result (λ told. EndsBuilder B.site.opened told.error) }
    {
        match self.reason.witness() {
            Some(token) => Some(self.read(token)),
            None => None,
        }
    }

    /// The builder has ended so, if nothing else was told before. What was told first is answered.
    pub(crate) fn tell<R: Wait>(&self, rt: &R, error: Error) -> Told<'_, B>
        requires { EndsBuilder B.site.opened error }
        ensures here { IsToldBy self.now result }
        ensures ends { EndsBuilder B.site.opened result.error }
    {
        let reason: Reason<B> = Reason {
            error,
            site: PhantomData,
        };
        match self.reason.try_insert(rt, reason) {
            Ok(token) | Err((token, _)) => self.read(token),
        }
    }

    /// A law: what two are told here is the same.
    pub fn one_reason<'t>(&self, first: &Told<'t, B>, second: &Told<'t, B>)
        requires first { IsToldBy self.now first.now }
        requires second { IsToldBy self.now second.now }
        ensures { first.now.error ≡ second.now.error }
    {
        first.token.agrees(&second.token);
    }
}
