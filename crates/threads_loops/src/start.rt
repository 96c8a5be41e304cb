//! How the threads of a run are told to begin, and to end.
ghost use Rattle.std.specs.Prelude.{◌≡◌, Err, Ok};

use std::sync::Wait;
use std::sync::atomic::{AtomicU64, Ordering};

// What the threads of a run are told: nothing yet, to begin, or to leave.
const WAIT: u32 = 0;

const BEGIN: u64 = 1;

const LEAVE: u64 = 2;

/// What the threads of a run are told.
#[derive(Drop)]
pub(crate) struct Run {
    order: AtomicU64,
    /// Positive once the run has ended.
    pub(crate) ended: AtomicU64,
}

impl Run {
    /// They are to wait.
    pub(crate) fn new() -> Run {
        Run {
            order: AtomicU64::new(u64::from(WAIT)),
            ended: AtomicU64::new(0),
        }
    }

    /// They are to begin.
    pub(crate) fn begin(&self) {
        self.order.store(BEGIN, Ordering::SeqCst);
        self.order.wake_all();
    }

    /// They are to leave, for one of them is wanting.
    pub(crate) fn call_off(&self) {
        self.order.store(LEAVE, Ordering::SeqCst);
        self.order.wake_all();
    }

    /// They are to end. Who sleeps at a bell is to be woken too.
    pub(crate) fn end(&self) {
        self.ended.store(1, Ordering::SeqCst);
    }

    /// Waits until the run begins, or is called off: then the answer is no.
    pub(crate) fn begins<R: Wait>(&self, rt: &R) -> bool {
        for _ in rt.forever() {
            match self.order.load(Ordering::SeqCst) {
                BEGIN => return true,
                LEAVE => return false,
                _ => self.order.park(rt, WAIT),
            }
        }
        unreachable!()
    }
}

/// What a thread gives back that was told to begin. One that left gives back something else, and then this waits for
/// ever; no thread leaves that was not told so.
pub(crate) fn ran<R: Wait, T, E: Drop>(rt: &R, given: Result<T, E>) -> T
    ensures { given ≡ Ok result }
{
    let Ok(done) = given else {
        for _ in rt.forever() {}
        unreachable!()
    };
    done
}

/// What a thread gives back that was told to leave. One that ran gives back something else, and then this waits for
/// ever; no thread runs that was not told so.
pub(crate) fn called_off<R: Wait, T: Drop, E>(rt: &R, given: Result<T, E>) -> E
    ensures { given ≡ Err result }
{
    let Err(part) = given else {
        for _ in rt.forever() {}
        unreachable!()
    };
    part
}
