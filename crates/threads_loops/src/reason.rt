//! Why the builder of a run has ended.
ghost use Rattle.std.specs.Prelude.{◌≡◌};
ghost use Rattle.threads_loops.specs.Building.{EndsBuilder};

use records::Error;
use shared::Group;
use std::marker::PhantomData;
use std::sync::OnceToken;

/// Why a builder has ended.
#[derive(Drop)]
pub(crate) struct Reason<B: Group> {
    pub(crate) error: Error,
    pub(crate) site: PhantomData<B>,
    ghost met: { EndsBuilder B.site.opened error },
}

/// Why the builder of a run has ended, as all in the run are told: `Stopped` where the stop flag or the end of the run
/// ended it (that it comes for nothing else, no clause says); else the refusal of a step, as some core that may lie
/// under the lock refuses it.
#[derive(Drop)]
pub struct Told<'t, B: Group> {
    pub error: Error,
    pub(crate) token: OnceToken<'t, Reason<B>>,
    ghost same: { token.value.error ≡ error },
}
