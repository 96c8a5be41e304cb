// Which runs of blocks were written back, as a list that only clauses read.
ghost use Rattle.std.specs.Prelude.{◌≡◌, [], length};
ghost use Rattle.block_device.specs.BlocksPast.{and_back};
ghost use Rattle.block_device.specs.BackRuns.{runs_in};

use ghost_list::GhostList;

/// So many blocks that were written back, from the first one's number on, and each state until then, the last of which
/// is the one in which they were.
#[derive(Drop)]
struct BackRun<H> {
    first: u64,
    count: u64,
    until: GhostList<H>,
}

/// Which runs of blocks were written back, in order, of a file whose past is kept as a list. It has no bytes.
#[derive(Drop)]
pub struct BackRuns<H> {
    runs: GhostList<BackRun<H>>,
}

impl<H> BackRuns<H> {
    /// None.
    pub fn new() -> BackRuns<H>
        ensures { runs_in result ≡ [] }
    {
        BackRuns {
            runs: GhostList::new(),
        }
    }

    /// These, and behind them so many blocks, from the first one's number on, at the moment behind this past.
    pub fn and(&self, first: u64, count: u64, past: &GhostList<H>, now: &H) -> BackRuns<H>
        ensures { runs_in result ≡ and_back (runs_in self.now) first count (length past.now.items) }
    {
        let until = past.and(now);
        let run = BackRun {
            first,
            count,
            until,
        };
        let runs = self.runs.and(&run);
        BackRuns { runs }
    }
}
