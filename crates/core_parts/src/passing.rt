//! Live entries that the cleaner passes over at once.
ghost use Rattle.std.specs.Prelude.{◌≡◌, IsTrue, false, true};
ghost use Rattle.model.specs.Pairs as pairs;
ghost use Rattle.marked_index.specs.Passing.{IsLiveNext};
ghost use Rattle.core_parts.specs.Parts.{parts_of};
ghost use Rattle.core_parts.specs.Passing.{HasPassedRun, PassesLive};

use crate::parts::CoreParts;
use std::alloc::Allocator;

impl<A: Allocator + Copy> CoreParts<A> {
    // Moves the cleaner's place behind some live entries that come next, and says whether there are any.
    fn pass_run(&mut self) -> bool
        ensures passed { IsTrue result → HasPassedRun (parts_of self.old) (parts_of self.new) }
        ensures none { result ≡ false → IsLiveNext (parts_of self.old).index.entries (parts_of self.old).cleaned → ⊥ }
        ensures unchanged { result ≡ false → parts_of self.new ≡ parts_of self.old }
    {
        let Some(last) = self.index.last_live_above(self.cleaned.as_ref()) else {
            return false;
        };
        self.cleaned = Some(last);
        true
    }

    /// Moves the cleaner's place over live entries: over so many at least, or over all up to the first that isn't live.
    ///
    /// It goes no further than over so many runs of them (no clause says so).
    pub fn pass_live(&mut self, runs: u32)
        requires { pairs.is_indexed (parts_of self.old).life ≡ true }
        ensures { PassesLive (parts_of self.old) runs (parts_of self.new) }
    {
        for _ in 0..runs {
            if !self.pass_run() {
                return;
            }
        }
    }
}
