//! Changes, as C asks for them.
ghost use Rattle.std.specs.Prelude.{◌≡◌, ◌⊎◌, ℕ, IfErr, IfOk};
ghost use Rattle.nsf_index_c.specs.Changing.{AsksPrepared, IsNotPrepared};
ghost use Rattle.nsf_index_c.specs.Pairs.{Asks, IsNoChange, IsNoPair, IsPair};

use crate::numbers::{BAD_CHANGE, BAD_PAIR};
use crate::pair::{ChangeOfC, PairOfC};
use record_values::Pair;

const INSERTION: u32 = 1;

const DELETION: u32 = 2;

const UPDATE: u32 = 3;

const PUT: u32 = 4;

const MARK: u32 = 5;

/// What is asked for: to prepare the change of a row from one pair to another, to put a pair, or to mark one.
#[derive(Clone, Copy)]
pub enum Change {
    Prepare(Option<Pair>, Option<Pair>),
    Put(Pair),
    Mark(Pair),
}

fn pair_of(pair: &PairOfC) -> Result<Pair, u32>
    ensures ok { IfOk result (IsPair pair.now) }
    ensures bad { IfErr result (λ n. (n ≡ 24) × IsNoPair pair.now) }
{
    match pair.pair() {
        Some(pair) => Ok(pair),
        None => Err(BAD_PAIR),
    }
}

impl ChangeOfC {
    /// The change that is asked for. The error is the number of the refusal: that no change has the kind, or that a
    /// pair which it names is none.
    pub(crate) fn change(&self) -> Result<Change, u32>
        ensures ok { IfOk result (Asks self.now) }
        ensures bad { IfErr result (IsNoChange self.now) }
    {
        match self.kind {
            INSERTION => Ok(Change::Prepare(None, Some(pair_of(&self.new_pair)?))),
            DELETION => Ok(Change::Prepare(Some(pair_of(&self.old_pair)?), None)),
            UPDATE => Ok(Change::Prepare(
                Some(pair_of(&self.old_pair)?),
                Some(pair_of(&self.new_pair)?),
            )),
            PUT => Ok(Change::Put(pair_of(&self.new_pair)?)),
            MARK => Ok(Change::Mark(pair_of(&self.old_pair)?)),
            _ => Err(BAD_CHANGE),
        }
    }

    /// The change that is asked for, where it is to be prepared.
    pub(crate) fn prepared(&self) -> Result<Change, u32>
        ensures ok { IfOk result (AsksPrepared self.now) }
        ensures bad { IfErr result (IsNotPrepared self.now) }
    {
        let change = self.change()?;
        match change {
            Change::Prepare(_, _) => Ok(change),
            Change::Put(_) | Change::Mark(_) => Err(BAD_CHANGE),
        }
    }
}
