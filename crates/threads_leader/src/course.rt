//! How the proofs name the part that a desk begins with.
use std::marker::Brand;

/// Names the flusher's part that lies on a desk as its run begins, where there is one.
pub trait Course<D, A> {
    ghost use Rattle.std.specs.Prelude.{Option};
    ghost use Rattle.threads_loops.specs.Part.{FlushValue};

    ghost begun: { Option (FlushValue D A) };
}

impl<D, A> Course<D, A> for Brand {
    ghost use Rattle.std.specs.Prelude.{None};

    ghost begun = { None };
}
