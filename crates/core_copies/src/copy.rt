//! A core is copied for an image of its store.
ghost use Rattle.std.specs.Prelude.{◌≡◌, IfOk, IfErr};
ghost use Rattle.model.specs.Cells.{Cells};
ghost use Rattle.txn_table.specs.Sound.{IsSoundTable};
ghost use Rattle.nsf_core.specs.Value.{value_of};
ghost use Rattle.core_copies.specs.Pieces.{IsPieceOf, IsWholeOf};
ghost use Rattle.core_copies.specs.Shown.{IsCellsOf};

use crate::parts::{all_entries, all_lists, all_rows, next_entries, page_rows};
use model::CellMaps;
use nsf_core::Core;
use records::Error;
use std::alloc::Allocator;
use store_image_model::{Chunk, CopyPlace, Piece};

/// Copies of a core, for images of its store.
pub trait Copies<A: Allocator> {
    /// All cells of the core, as a chunk with the number of the last record made.
    ///
    /// The one error is `NoMemory`.
    fn copy_whole(&self, alloc: A) -> Result<Chunk<A>, Error>;

    /// The next chunk of an image whose copying has come to this place, with the number of the last record made: first
    /// the index's life and the lists of changes, then the rows of a page, and behind the last page `CHUNK_ENTRIES`
    /// entries at most, fewer where no more are left.
    ///
    /// The one error is `NoMemory`.
    fn copy_step(&self, alloc: A, place: CopyPlace) -> Result<Chunk<A>, Error>;
}

impl<A: Allocator + Copy> Copies<A> for Core<A> {
    fn copy_whole(&self, alloc: A) -> Result<Chunk<A>, Error>
        ensures number { IfOk result (λ chunk. chunk.number ≡ (value_of self.now).last) }
        ensures whole { IfOk result (λ chunk. IsWholeOf (value_of self.now) chunk.piece) }
        ensures sound { IsSoundTable (value_of self.now).txns }
        ensures no_memory { IfErr result (λ e. e ≡ Error.NoMemory) }
    {
        self.stands();
        let cells = CellMaps {
            rows: all_rows(alloc, self)?,
            entries: all_entries(alloc, self)?,
            lists: all_lists(alloc, self)?,
            life: self.life(),
        };
        Ok(Chunk {
            number: self.last(),
            piece: Piece::Whole { cells },
        })
    }

    fn copy_step(&self, alloc: A, place: CopyPlace) -> Result<Chunk<A>, Error>
        ensures number { IfOk result (λ chunk. chunk.number ≡ (value_of self.now).last) }
        ensures piece { IfOk result (λ chunk. (cells : Cells) → IsCellsOf (value_of self.now) cells
            → IsPieceOf (value_of self.now) cells place chunk.piece) }
        ensures sound { IsSoundTable (value_of self.now).txns }
        ensures no_memory { IfErr result (λ e. e ≡ Error.NoMemory) }
    {
        self.stands();
        let number = self.last();
        match place {
            CopyPlace::Start => {
                let life = self.life();
                let lists = all_lists(alloc, self)?;
                let piece = Piece::Start { life, lists };
                Ok(Chunk { number, piece })
            }
            CopyPlace::Page(page) => {
                let rows = page_rows(alloc, self, page)?;
                let piece = Piece::Page { page, rows };
                Ok(Chunk { number, piece })
            }
            CopyPlace::Entries(above) => {
                let entries = next_entries(alloc, self, above)?;
                let piece = Piece::Entries { entries };
                Ok(Chunk { number, piece })
            }
        }
    }
}
