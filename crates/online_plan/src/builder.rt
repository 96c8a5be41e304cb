//! A builder that has no entries.
ghost use Rattle.std.specs.Prelude.{◌≡◌, ◌≢◌, ◌⊎◌, ◌≤◌, ◌+◌, ◌++◌, ◌∷◌, [], None, Some, List, IfErr, IfOk};
ghost use Rattle.std.specs.Prelude.{OnErr, OnOk, false, length, min, true};
ghost use Rattle.online_index.specs.Pages.{IsPage};
ghost use Rattle.online_model.specs.Keeping.{IsCreated};
ghost use Rattle.online_model.specs.Logs.{notes_of};
ghost use Rattle.online_model.specs.World as step;
ghost use Rattle.online_model.specs.World.{IsBuilding, IsEnabled, World, after};
ghost use Rattle.online_model.specs.declared.life.Life.{Life};
ghost use Rattle.online_plan.specs.declared.builder.Due.{Due};
ghost use Rattle.online_model.specs.declared.life.Life.TheVariants as life;
ghost use Rattle.online_model.specs.declared.note.Note.TheVariants.{LifeIs};
ghost use Rattle.online_plan.specs.Building.{CanAttemptAll, Follows, attempted_all, attempts_after, checkpoint_due};
ghost use Rattle.online_plan.specs.Building.{due_of, opened, pairs_due, step_of};
ghost use Rattle.sorted_scan.specs.Runs.{IsAtEnd, ScanRun};
ghost use Rattle.sorted_scan.specs.Scans.{HasRun, next_of, page_from};

use online_index::Walk;
use online_model::Life;
use record_values::{ATTEMPTS_PER_CHECKPOINT, Error, Pair};
use std::alloc::{Allocator, Global};
use std::marker::Model;

/// What the builder waits for.
#[derive(Clone, Copy, Debug, PartialEq, Eq)]
pub enum Due {
    /// The pairs of this page are to be read (`take_page`).
    Page(u32),
    /// The next pairs are to be gathered (`gather`).
    Gather,
    /// The pairs of the batch are to be attempted, in order (`batch`, `attempted`).
    Batch,
    /// The host is to record this life of the index (`recorded`): a checkpoint, or the end.
    Life(Life),
    /// The index is complete.
    Nothing,
}

/// The builder of an index whose entries the host keeps. It keeps the pairs that were read and wait, and the batch.
#[derive(Drop)]
pub struct Builder<W: Walk, A: Allocator = Global> {
    life: Life,
    walk: W,
    // handed out by the walk, and not attempted yet
    batch: Vec<Pair, A>,
    // the attempts since the last checkpoint
    attempts: u32,
}

impl<W: Walk, A: Allocator> Model for Builder<W, A> {
    ghost use Rattle.online_plan.specs.Building.{BuilderValue, coded_builder};

    ghost Value = { BuilderValue };

    ghost coded = { coded_builder };

    ghost view = { λ x. record {
      life = x.life;
      scan = W.scan x.walk;
      batch = x.batch.items;
      attempts = x.attempts;
    } };
}

// The pair of the last checkpoint, while the index is built.
fn highest_of(life: &Life) -> Option<Pair>
    ensures { result ≡ step.highest_of life.now }
{
    match life {
        Life::Building { highest } => *highest,
        Life::Complete => None,
    }
}

// The life of an index that is being built and whose last checkpoint is this pair.
fn building_from(pair: &Pair) -> Life
    ensures { result ≡ life.Building (Some pair.now) }
{
    Life::Building {
        highest: Some(*pair),
    }
}

// So many attempts more, as far as they are counted.
fn more_attempts(attempts: u32, more: usize) -> u32
    ensures { result ≡ min (attempts + more) ATTEMPTS_PER_CHECKPOINT }
{
    let most = ATTEMPTS_PER_CHECKPOINT - attempts.min(ATTEMPTS_PER_CHECKPOINT);
    if more < most as usize {
        attempts + more as u32
    } else {
        ATTEMPTS_PER_CHECKPOINT
    }
}

impl<W: Walk, A: Allocator> Builder<W, A> {
    /// A builder of an index that is so far as the host has recorded: begun, so far as the last checkpoint says, or
    /// complete. It reads these pages of the table, 0 to `pages` - 1, as many whenever it is opened.
    pub fn open(alloc: A, mut walk: W, recorded: Life, pages: u32) -> Self
        ensures begun { (w : World) → IsCreated w → w.pages ≡ pages → recorded ≡ life.Building None
            → Follows result w }
        ensures goes_on { (w : World) → w.life ≡ recorded → w.pages ≡ pages → Follows result (after w step.Reopen) }
        ensures new { result ≡ opened recorded pages }
    {
        walk.begin(highest_of(&recorded), pages);
        Builder {
            life: recorded,
            walk,
            batch: Vec::new(alloc),
            attempts: 0,
        }
    }
}

impl<W: Walk, A: Allocator> Builder<W, A> {
    /// How far the index is built, as the host has recorded.
    pub fn life(&self) -> Life
        ensures { result ≡ self.now.life }
    {
        self.life
    }

    /// The pairs that the host is to attempt, in this order.
    pub fn batch(&self) -> &[Pair]
        ensures { result.now ≡ self.now.batch }
    {
        &self.batch
    }

    // The pair of the checkpoint that is due, if one is.
    fn checkpoint_due(&self) -> Option<Pair>
        ensures { result ≡ checkpoint_due self.now }
    {
        if self.attempts < ATTEMPTS_PER_CHECKPOINT {
            None
        } else {
            self.walk.last()
        }
    }

    // What comes once no page is wanted.
    fn due_of_pairs(&self) -> Due
        requires read { self.now.scan.wanted ≡ None }
        ensures due { result ≡ pairs_due (next_of self.now.scan) }
        ensures end { result ≡ Due.Life life.Complete → (r : ScanRun) → HasRun self.now.scan r → IsAtEnd r }
    {
        match self.walk.next() {
            Some(_) => Due::Gather,
            None => Due::Life(Life::Complete),
        }
    }

    // What is due; and if it is the end, every pair was handed out.
    fn due_now(&self) -> Due
        ensures due { result ≡ due_of self.now self.now.life }
        ensures end { result ≡ Due.Life life.Complete → (r : ScanRun) → HasRun self.now.scan r → IsAtEnd r }
    {
        let Life::Building { .. } = self.life else {
            return Due::Nothing;
        };
        if !self.batch.is_empty() {
            return Due::Batch;
        }
        if let Some(pair) = self.checkpoint_due() {
            return Due::Life(building_from(&pair));
        }
        if let Some(page) = self.walk.wants_page() {
            return Due::Page(page);
        }
        self.due_of_pairs()
    }

    /// What the builder waits for.
    pub fn due(&self) -> Due
        ensures { result ≡ due_of self.now self.now.life }
    {
        self.due_now()
    }

    /// The builder takes the page that it wants. These are the pairs of the rows of the page, each row as it was at
    /// some moment since the index was created or the builder was opened. The memory for the pairs that wait is taken
    /// here.
    pub fn take_page(&mut self, page: u32, pairs: &[Pair]) -> Result<(), Error>
        requires wanted { self.old.scan.wanted ≡ Some page }
        requires page { IsPage page pairs.now }
        ensures follows { OnOk result ((w : World) → Follows self.old w
            → Follows self.new (after w (step.TakePage page pairs.now))) }
        ensures wanted { OnOk result (self.new.scan.wanted ≡ page_from self.old.scan.pages (page + 1)) }
        ensures ok { OnOk result (self.new ≡ record self.old {
          scan = record self.old.scan { wanted = self.new.scan.wanted; waiting = self.new.scan.waiting };
        }) }
        ensures no_memory { IfErr result (λ e. e ≡ Error.NoMemory) }
        ensures unchanged { OnErr result (self.new ≡ self.old) }
    {
        self.walk.take_page(page, pairs)
    }

    // Gathers the next pair, if there is one, and returns whether it did.
    fn gather_one(&mut self) -> Result<bool, Error>
        requires building { IsBuilding self.old.life }
        ensures follows { (w : World) → Follows self.old w → Follows self.new w }
        ensures one { IfOk result (λ is_one. is_one ≡ true → (p : Pair) × (self.new.batch ≡ self.old.batch ++ p ∷ [])) }
        ensures none { IfOk result (λ is_one. is_one ≡ false → (self.new ≡ self.old)
            × (next_of self.old.scan ≡ None)) }
        ensures life { self.new.life ≡ self.old.life }
        ensures attempts { self.new.attempts ≡ self.old.attempts }
        ensures pages { self.new.scan.pages ≡ self.old.scan.pages }
        ensures no_memory { IfErr result (λ e. e ≡ Error.NoMemory) }
        ensures unchanged { OnErr result (self.new ≡ self.old) }
    {
        let Some(pair) = self.walk.next() else {
            return Ok(false);
        };
        self.batch.reserve(1)?;
        self.walk.hand_out();
        self.batch.push_reserved(pair);
        Ok(true)
    }

    /// Gathers the next pairs into the batch, until it has this many or no pair comes next. Where memory is refused,
    /// what was gathered before stays in the batch.
    pub fn gather(&mut self, most: usize) -> Result<(), Error>
        ensures follows { (w : World) → Follows self.old w → Follows self.new w }
        ensures gathered { (more : List Pair) × (self.new.batch ≡ self.old.batch ++ more) }
        ensures few { (length self.new.batch ≤ most) ⊎ (self.new ≡ self.old) }
        ensures full { OnOk result ((most ≤ length self.new.batch) ⊎ (next_of self.new.scan ≡ None)
            ⊎ (self.new.life ≡ life.Complete)) }
        ensures life { self.new.life ≡ self.old.life }
        ensures attempts { self.new.attempts ≡ self.old.attempts }
        ensures pages { self.new.scan.pages ≡ self.old.scan.pages }
        ensures no_memory { IfErr result (λ e. e ≡ Error.NoMemory) }
    {
        let Life::Building { .. } = self.life else {
            return Ok(());
        };
        for gathered in self.batch.len()..most {
            if !self.gather_one()? {
                return Ok(());
            }
        }
        Ok(())
    }

    /// The host has attempted the pairs of the batch, in their order: it has set what `plan_attempt` says of each, and
    /// its transaction is committed. The batch is empty then.
    pub fn attempted(&mut self)
        ensures made { (w : World) → Follows self.old w → CanAttemptAll w self.old.batch
            × Follows self.new (attempted_all w self.old.batch) }
        ensures new { self.new ≡ record self.old { batch = []; attempts = attempts_after self.old } }
    {
        self.attempts = more_attempts(self.attempts, self.batch.len());
        self.batch.clear();
    }

    /// The host has recorded the life that is due, and its transaction is committed. Where none is due, nothing
    /// changes.
    pub fn recorded(&mut self)
        ensures made { (life : Life) → due_of self.old self.old.life ≡ Due.Life life → (w : World)
            → Follows self.old w → IsEnabled w (step_of life) × (notes_of w (step_of life) ≡ LifeIs life ∷ [])
            × Follows self.new (after w (step_of life)) }
        ensures new { (life : Life) → due_of self.old self.old.life ≡ Due.Life life
            → self.new ≡ record self.old { life = life; attempts = 0 } }
        ensures unchanged { ((life : Life) → due_of self.old self.old.life ≢ Due.Life life) → self.new ≡ self.old }
    {
        if let Due::Life(life) = self.due_now() {
            self.life = life;
            self.attempts = 0;
        }
    }
}
