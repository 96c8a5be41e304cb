//! The steps in which an image is copied.
ghost use Rattle.std.specs.Prelude.{◌≡◌};
ghost use Rattle.store_image_model.specs.Places.{place_behind};

use crate::page_rows::PageRows;
use model::{CellMaps, Life, ListMap};
use records::{Geometry, Mark, Pair};
use std::alloc::Allocator;

/// The most entries of a chunk. A chunk of fewer entries is the last one of its image.
pub const CHUNK_ENTRIES: usize = 128;

/// How far the copying of an image has come: what its next chunk is to hold.
#[derive(Clone, Copy, Debug, PartialEq, Eq)]
pub enum CopyPlace {
    /// The index's life and the lists of changes, as the image's base has them.
    Start,
    /// The rows of this page.
    Page(u32),
    /// The next entries above this pair, or the first ones where there is none.
    Entries(Option<Pair>),
}

/// What a chunk holds.
#[derive(Drop)]
pub enum Piece<A: Allocator> {
    /// All cells: an image copied in one step.
    Whole { cells: CellMaps<A> },
    /// The index's life and the lists of changes.
    Start { life: Life, lists: ListMap<A> },
    /// The rows of a page.
    Page { page: u32, rows: PageRows<A> },
    /// Entries in the order of their pairs, `CHUNK_ENTRIES` at most.
    Entries { entries: Vec<(Pair, Mark), A> },
}

/// What is copied into an image at one step, as the cells are after the record of this number.
#[derive(Drop)]
pub struct Chunk<A: Allocator> {
    /// The number of the last record made as it was copied.
    pub number: u64,
    /// What was copied.
    pub piece: Piece<A>,
}

impl<A: Allocator> Chunk<A> {
    /// Where the copying of the image goes on behind this chunk, or `None` where the image is whole with it: the pages
    /// in order, behind the last one the first entries, and behind `CHUNK_ENTRIES` entries those above the last of
    /// them.
    pub fn place_behind(&self, geometry: Geometry) -> Option<CopyPlace>
        ensures { result ≡ place_behind geometry.pages self.now.piece }
    {
        match &self.piece {
            Piece::Whole { .. } => None,
            Piece::Start { .. } => Some(CopyPlace::Page(0)),
            Piece::Page { page, .. } => Some(if *page < geometry.pages - 1 {
                CopyPlace::Page(*page + 1)
            } else {
                CopyPlace::Entries(None)
            }),
            Piece::Entries { entries } => {
                let last = entries.get(CHUNK_ENTRIES - 1)?;
                Some(CopyPlace::Entries(Some(last.0)))
            }
        }
    }
}
