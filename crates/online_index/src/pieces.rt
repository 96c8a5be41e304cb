//! Calls that go over the entries, some at a time, so that the host's lock is not held for long.
ghost use Rattle.std.specs.Prelude.{◌≡◌, ◌++◌, Some, List, IfErr, IfOk, OnErr};
ghost use Rattle.online_model.specs.declared.note.Note.{Note};
ghost use Rattle.online_index.specs.Pieces.{IsNextMarked, IsSaved};

use crate::entries::Entries;
use crate::index::OnlineIndex;
use crate::walk::Walk;
use online_model::Note;
use record_values::{Error, Mark, Pair};
use std::alloc::Allocator;

/// Where the next marked entry is.
#[derive(Clone, Copy, Debug, PartialEq, Eq)]
pub enum NextMarked {
    Found(Pair),
    /// As many entries were looked at as were to be looked at at most. The next call may go on above this pair.
    GoOn(Option<Pair>),
    /// No entry above the given pair is marked.
    End,
}

/// How far a checkpoint has come.
#[derive(Clone, Copy, Debug, PartialEq, Eq)]
pub enum Saved {
    /// The next piece is to go on above this pair.
    GoOn(Option<Pair>),
    /// Every entry is saved.
    All,
}

// The note that sets this entry.
fn note_of_entry(pair: &Pair, mark: Mark) -> Note
    ensures { result ≡ Note.EntryIs pair.now (Some mark) }
{
    Note::EntryIs(*pair, Some(mark))
}

impl<E: Entries, W: Walk> OnlineIndex<E, W> {
    /// The next marked entry above a pair, or of all, among the next ones, as many at most as the call says: for
    /// `clean`.
    pub fn next_marked(&self, above: Option<Pair>, most: u32) -> NextMarked
        ensures { IsNextMarked self.now.entries above most result }
    {
        let mut passed = above;
        for seen in 0..most {
            match self.above(passed.as_ref()) {
                None => return NextMarked::End,
                Some((pair, Mark::Marked)) => return NextMarked::Found(pair),
                Some((pair, Mark::Live)) => passed = Some(pair),
            }
        }
        NextMarked::GoOn(passed)
    }

    /// A piece of a checkpoint: the notes of the next entries above a pair, or of all, as many at most as the call
    /// says, are appended. Other calls may come between two pieces. Where memory is refused nothing is appended.
    pub fn save<B: Allocator>(
        &self,
        above: Option<Pair>,
        most: u32,
        notes: &mut Vec<Note, B>,
    ) -> Result<Saved, Error>
        ensures saved { IfOk result (λ saved. (piece : List Note) × (notes.new.items ≡ notes.old.items ++ piece)
            × IsSaved self.now.entries above most piece saved) }
        ensures no_memory { IfErr result (λ e. e ≡ Error.NoMemory) }
        ensures unchanged { OnErr result (notes.new.items ≡ notes.old.items) }
    {
        notes.reserve(most as usize)?;
        let mut passed = above;
        for count in 0..most {
            let Some((pair, mark)) = self.above(passed.as_ref()) else {
                return Ok(Saved::All);
            };
            notes.push_reserved(note_of_entry(&pair, mark));
            passed = Some(pair);
        }
        Ok(Saved::GoOn(passed))
    }
}
