//! The builder's calls.
ghost use Rattle.std.specs.Prelude.{◌≡◌, ◌⊎◌, ◌+◌, ◌≤◌, ◌++◌, None, Some, if◌then◌else◌, List, IfErr, IfOk};
ghost use Rattle.std.specs.Prelude.{IfSome, OnErr, OnOk, length, min, ℕ};
ghost use Rattle.std.specs.FinMap as map;
ghost use Rattle.record_values.specs.Maps.{set_at};
ghost use Rattle.online_model.specs.World as step;
ghost use Rattle.online_model.specs.World.{IsBuilding, World, after, built};
ghost use Rattle.online_model.specs.declared.life.Life.TheVariants as life;
ghost use Rattle.online_model.specs.declared.note.Note.{Note};
ghost use Rattle.online_index.specs.Builds.{AreStepsDue, HasMade, HasMadeRun, IsCount, IsPlacing, IsStop};
ghost use Rattle.online_index.specs.Builds.{attempt_of, attempts_after, due_of, listed, note_of, notes_of_all};
ghost use Rattle.online_index.specs.Builds.{reply_due, step_of, stop_of};
ghost use Rattle.online_index.specs.declared.build.BuildStep.{BuildStep};
ghost use Rattle.online_index.specs.Pages.{IsPage};
ghost use Rattle.online_index.specs.Standing.{StandsFor};
ghost use Rattle.online_index.specs.Value.{IsRefusal};
ghost use Rattle.sorted_scan.specs.Runs.{HandedOut, IsAtEnd, MayHandOut, ScanRun, with_step};
ghost use Rattle.sorted_scan.specs.Scans.{HasRun, next_of, page_from};

use crate::entries::Entries;
use crate::index::OnlineIndex;
use crate::walk::Walk;
use online_model::{Life, Note};
use record_values::{ATTEMPTS_PER_CHECKPOINT, Error, Mark, Pair};
use std::alloc::Allocator;

/// What a step of the builder was.
#[derive(Clone, Copy, Debug, PartialEq, Eq)]
pub enum BuildStep {
    /// The pair had no entry, and has a live one now.
    Placed(Pair),
    /// The pair had an entry, live or marked, which stays as it was.
    Rejected(Pair),
    /// A checkpoint: every pair up to this one was attempted.
    Noted(Pair),
    /// The index is complete.
    Done,
    /// Nothing was done: the pairs of this page are wanted (`take_page`).
    WantsPage(u32),
    /// Nothing was done: the index was complete before.
    Idle,
}

/// Why a run of steps ended.
#[derive(Clone, Copy, Debug, PartialEq, Eq)]
pub enum Stop {
    /// As many steps were made as were to be made at most.
    Most,
    /// The pairs of this page are wanted.
    WantsPage(u32),
    /// The index is complete.
    Complete,
}

impl BuildStep {
    /// The note that the host is to log for this step, if there is one.
    pub fn note(&self) -> Option<Note>
        ensures { result ≡ note_of self.now }
    {
        match self {
            BuildStep::Placed(pair) => Some(Note::EntryIs(*pair, Some(Mark::Live))),
            BuildStep::Noted(pair) => Some(Note::LifeIs(building_from(pair))),
            BuildStep::Done => Some(Note::LifeIs(Life::Complete)),
            BuildStep::Rejected(_) | BuildStep::WantsPage(_) | BuildStep::Idle => None,
        }
    }
}

// Why a run of steps ends with this reply, if it does.
fn stop_of(step: &BuildStep) -> Option<Stop>
    ensures { result ≡ stop_of step.now }
{
    match step {
        BuildStep::WantsPage(page) => Some(Stop::WantsPage(*page)),
        BuildStep::Idle => Some(Stop::Complete),
        BuildStep::Placed(_) | BuildStep::Rejected(_) | BuildStep::Noted(_) | BuildStep::Done =>
            None,
    }
}

// The life of an index that is being built and whose last checkpoint is this pair.
fn building_from(pair: &Pair) -> Life
    ensures { result ≡ life.Building (Some pair.now) }
{
    Life::Building {
        highest: Some(*pair),
    }
}

// What became of the pair that was attempted.
fn attempted(is_placed: bool, pair: Pair) -> BuildStep
    ensures { result ≡ (if is_placed then BuildStep.Placed pair else BuildStep.Rejected pair) }
{
    if is_placed {
        BuildStep::Placed(pair)
    } else {
        BuildStep::Rejected(pair)
    }
}

// One attempt more, as far as it is counted.
fn one_more(attempts: u32) -> u32
    ensures { result ≡ min (attempts + 1) ATTEMPTS_PER_CHECKPOINT }
{
    if attempts < ATTEMPTS_PER_CHECKPOINT {
        attempts + 1
    } else {
        ATTEMPTS_PER_CHECKPOINT
    }
}

impl<E: Entries, W: Walk> OnlineIndex<E, W> {
    /// The page whose pairs the builder wants; none where it has read every page.
    pub fn wants_page(&self) -> Option<u32>
        ensures { result ≡ self.now.scan.wanted }
    {
        self.walk.wants_page()
    }

    /// The builder takes the page that it wants. These are the pairs of the rows of the page, each row as it was at
    /// some moment since the index was created or reopened. All memory of a build but that of the entries is taken
    /// here.
    pub fn take_page(&mut self, page: u32, pairs: &[Pair]) -> Result<(), Error>
        requires wanted { self.old.scan.wanted ≡ Some page }
        requires page { IsPage page pairs.now }
        ensures stands { OnOk result ((w : World) → StandsFor self.old w
            → StandsFor self.new (after w (step.TakePage page pairs.now))) }
        ensures wanted { OnOk result (self.new.scan.wanted ≡ page_from self.old.scan.pages (page + 1)) }
        ensures ok { OnOk result (self.new ≡ record self.old {
          scan = record self.old.scan { wanted = self.new.scan.wanted; waiting = self.new.scan.waiting };
        }) }
        ensures no_memory { IfErr result (λ e. e ≡ Error.NoMemory) }
        ensures unchanged { OnErr result (self.new ≡ self.old) }
    {
        self.walk.take_page(page, pairs)
    }

    // The pair of the checkpoint that is due, if one is.
    fn due(&self) -> Option<Pair>
        ensures { result ≡ due_of self.now }
    {
        if self.attempts < ATTEMPTS_PER_CHECKPOINT {
            None
        } else {
            self.walk.last()
        }
    }

    fn checkpoint(&mut self, pair: Pair) -> BuildStep
        requires building { IsBuilding self.old.life }
        requires last { self.old.scan.last ≡ Some pair }
        ensures made { (w : World) → StandsFor self.old w
            → HasMade w (step_of result) (listed (note_of result)) self.new }
        ensures reply { result ≡ BuildStep.Noted pair }
        ensures new { self.new ≡ record self.old { life = life.Building (Some pair); attempts = 0 } }
    {
        self.life = building_from(&pair);
        self.attempts = 0;
        BuildStep::Noted(pair)
    }

    // Gives the pair a live entry, unless it has one, and returns whether it did.
    fn build_put(&mut self, pair: &Pair) -> Result<bool, Error>
        ensures ok { OnOk result (self.new ≡ record self.old {
          entries = set_at self.old.entries pair.now (built (map.get self.old.entries pair.now));
        }) }
        ensures placed { IfOk result (λ is_placed. attempt_of pair.now (map.get self.old.entries pair.now)
            ≡ (if is_placed then BuildStep.Placed pair.now else BuildStep.Rejected pair.now)) }
        ensures refused { IfErr result (λ e. (map.get self.old.entries pair.now ≡ None)
            × IsRefusal self.old e) }
        ensures unchanged { OnErr result (self.new ≡ self.old) }
    {
        let is_there = self.get(pair).is_some();
        if is_there {
            return Ok(false);
        }
        self.entries.set(pair, Some(Mark::Live))?;
        Ok(true)
    }

    // The walk hands the pair out that comes next, and the attempt is counted.
    fn advance(&mut self)
        ensures entries { self.new.entries ≡ self.old.entries }
        ensures life { self.new.life ≡ self.old.life }
        ensures same_capacity { self.new.capacity ≡ self.old.capacity }
        ensures attempts { self.new.attempts ≡ min (self.old.attempts + 1) ATTEMPTS_PER_CHECKPOINT }
        ensures run { (p : Pair) → next_of self.old.scan ≡ Some p → (r : ScanRun) → HasRun self.old.scan r
            → HasRun self.new.scan (with_step r (HandedOut p)) }
        ensures place { (p : Pair) → next_of self.old.scan ≡ Some p
            → self.new.scan ≡ record self.old.scan { last = Some p; waiting = self.new.scan.waiting } }
    {
        self.walk.hand_out();
        self.attempts = one_more(self.attempts);
    }

    // Attempts the pair that comes next.
    fn attempt(&mut self, pair: Pair) -> Result<BuildStep, Error>
        requires building { IsBuilding self.old.life }
        requires next { next_of self.old.scan ≡ Some pair }
        requires may { (r : ScanRun) → HasRun self.old.scan r → MayHandOut r pair }
        ensures made { IfOk result (λ reply. (w : World) → StandsFor self.old w
            → HasMade w (step_of reply) (listed (note_of reply)) self.new) }
        ensures reply { IfOk result (λ reply. reply ≡ attempt_of pair (map.get self.old.entries pair)) }
        ensures attempts { OnOk result (self.new.attempts ≡ min (self.old.attempts + 1) ATTEMPTS_PER_CHECKPOINT) }
        ensures same_capacity { self.new.capacity ≡ self.old.capacity }
        ensures refused { IfErr result (λ e. (map.get self.old.entries pair ≡ None)
            × IsRefusal self.old e) }
        ensures unchanged { OnErr result (self.new ≡ self.old) }
    {
        let is_placed = self.build_put(&pair)?;
        self.advance();
        Ok(attempted(is_placed, pair))
    }

    // The index is complete from now on.
    fn finish(&mut self) -> BuildStep
        requires building { IsBuilding self.old.life }
        requires end { (r : ScanRun) → HasRun self.old.scan r → IsAtEnd r }
        ensures made { (w : World) → StandsFor self.old w
            → HasMade w (step_of result) (listed (note_of result)) self.new }
        ensures reply { result ≡ BuildStep.Done }
        ensures new { self.new ≡ record self.old { life = life.Complete } }
    {
        self.life = Life::Complete;
        BuildStep::Done
    }

    /// A step of the builder: an attempt of one pair, a checkpoint, the end, or none. Its note is to be logged. It is
    /// refused only where it would add an entry, and may then be tried again.
    pub fn build_step(&mut self) -> Result<BuildStep, Error>
        ensures made { IfOk result (λ reply. (w : World) → StandsFor self.old w
            → HasMade w (step_of reply) (listed (note_of reply)) self.new) }
        ensures reply { IfOk result (λ reply. reply ≡ reply_due self.old self.old.life) }
        ensures attempts { IfOk result (λ reply. self.new.attempts ≡ attempts_after reply self.old.attempts) }
        ensures idle { IfOk result (λ reply. step_of reply ≡ None → self.new ≡ self.old) }
        ensures same_capacity { self.new.capacity ≡ self.old.capacity }
        ensures refused { IfErr result (λ e. IsPlacing (reply_due self.old self.old.life)
            × IsRefusal self.old e) }
        ensures unchanged { OnErr result (self.new ≡ self.old) }
    {
        let Life::Building { .. } = self.life else {
            return Ok(BuildStep::Idle);
        };
        if let Some(pair) = self.due() {
            return Ok(self.checkpoint(pair));
        }
        if let Some(page) = self.walk.wants_page() {
            return Ok(BuildStep::WantsPage(page));
        }
        if let Some(pair) = self.walk.next() {
            return self.attempt(pair);
        }
        Ok(self.finish())
    }

    // A step of the builder, and its note appended. Memory for the note may be refused too.
    fn build_noted<B: Allocator>(&mut self, notes: &mut Vec<Note, B>) -> Result<BuildStep, Error>
        ensures made { IfOk result (λ reply. (w : World) → StandsFor self.old w
            → HasMade w (step_of reply) (listed (note_of reply)) self.new) }
        ensures notes { IfOk result (λ reply. notes.new.items ≡ notes.old.items ++ listed (note_of reply)) }
        ensures reply { IfOk result (λ reply. reply ≡ reply_due self.old self.old.life) }
        ensures attempts { IfOk result (λ reply. self.new.attempts ≡ attempts_after reply self.old.attempts) }
        ensures idle { IfOk result (λ reply. step_of reply ≡ None → self.new ≡ self.old) }
        ensures same_capacity { self.new.capacity ≡ self.old.capacity }
        ensures refused { IfErr result (λ e. IsRefusal self.old e) }
        ensures same_notes { OnErr result (notes.new.items ≡ notes.old.items) }
        ensures unchanged { OnErr result (self.new ≡ self.old) }
    {
        notes.reserve(1)?;
        let step = self.build_step()?;
        if let Some(note) = step.note() {
            notes.push_reserved(note);
        }
        Ok(step)
    }

    /// Steps of the builder, at most this many, one after another as long as no page is wanted and the index is not
    /// complete; each is the one that is due, as `build_step` makes it. Their notes are appended in their order, also
    /// where a later step is refused: the steps before it stay made, and their notes are to be logged then too.
    pub fn build_many<B: Allocator>(
        &mut self,
        most: u32,
        notes: &mut Vec<Note, B>,
    ) -> Result<Stop, Error>
        ensures made { (w : World) → StandsFor self.old w → ((n : ℕ) × IsCount result most n
            × HasMadeRun w n notes.old.items notes.new.items self.new) }
        ensures due { (replies : List BuildStep) × AreStepsDue self.old replies self.new
            × IsCount result most (length replies)
            × (notes.new.items ≡ notes.old.items ++ notes_of_all replies) }
        ensures stop { IfOk result (λ stop. IsStop stop self.new) }
        ensures same_capacity { self.new.capacity ≡ self.old.capacity }
        ensures refused { IfErr result (λ e. IsRefusal self.new e) }
    {
        for made in 0..most {
            let step = self.build_noted(notes)?;
            if let Some(stop) = stop_of(&step) {
                return Ok(stop);
            }
        }
        Ok(Stop::Most)
    }
}
