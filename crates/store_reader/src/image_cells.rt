//! The cells of an image, as it is read.
ghost use Rattle.std.specs.Prelude.{◌≡◌, ◌↔◌, IsTrue};
ghost use Rattle.model.specs.Redo.{cells_of};
ghost use Rattle.store_image_half.specs.Image.{no_cells};

use model::{CellMaps, Life};
use records::{Change, Mark, Pair, Rid, Row, Txn};
use std::alloc::{AllocError, Allocator};
use std::marker::Model;
use store_image_half::CellSink;

/// The cells of an image: rows, entries of the index, the changes of unfinished transactions, and how far the index is.
/// An image is read into it.
#[derive(Drop)]
pub struct ImageCells<A: Allocator> {
    alloc: A,
    maps: CellMaps<A>,
    // whether there is a row, an entry or a list
    some: bool,
}

impl<A: Allocator> Model for ImageCells<A> {
    ghost use Rattle.std.specs.Prelude.{◌≡◌, ◌↔◌, false};
    ghost use Rattle.model.specs.Cells.{Cells};
    ghost use Rattle.model.specs.Redo.{cells_of};
    ghost use Rattle.store_reader.specs.Store.{IsBare, coded_cells};

    ghost Value = { Cells };

    ghost coded = { coded_cells };

    ghost view = { λ s. cells_of s.maps };

    ghost invariant = { λ s. (s.some ≡ false) ↔ IsBare (cells_of s.maps) };
}

impl<A: Allocator + Copy> ImageCells<A> {
    /// No row, no entry, no transaction and no index.
    pub fn new(alloc: A) -> Self
        ensures { result ≡ no_cells }
    {
        ImageCells {
            alloc,
            maps: CellMaps::new(alloc),
            some: false,
        }
    }

    /// Whether there is no row, no entry, no transaction and no index.
    pub fn is_empty(&self) -> bool
        ensures { IsTrue result ↔ self.now ≡ no_cells }
    {
        !self.some && self.maps.life == Life::Absent
    }

    /// Its maps, with the allocator that they grow by.
    pub(crate) fn into_maps(self) -> (A, CellMaps<A>)
        ensures { cells_of result.1 ≡ self }
    {
        (self.alloc, self.maps)
    }
}

impl<A: Allocator + Copy> CellSink for ImageCells<A> {
    ghost cells = { λ image. image };

    fn set_life(&mut self, life: Life) {
        self.maps.life = life;
    }

    fn set_list(&mut self, txn: Txn, changes: &[Change]) -> Result<(), AllocError> {
        let mut list = Vec::with_capacity(self.alloc, changes.len())?;
        list.extend_from_slice(changes)?;
        self.maps.lists.set(txn, list)?;
        self.some = true;
        Ok(())
    }

    fn set_rows(&mut self, rows: &[(Rid, Row)]) -> Result<(), AllocError> {
        let Ok(()) = self.maps.rows.extend(self.alloc, rows) else {
            self.maps = CellMaps::new(self.alloc);
            self.some = false;
            return Err(AllocError);
        };
        if !rows.is_empty() {
            self.some = true;
        }
        Ok(())
    }

    fn set_entries(&mut self, entries: &[(Pair, Mark)]) -> Result<(), AllocError> {
        let Ok(()) = self.maps.entries.extend(self.alloc, entries) else {
            self.maps = CellMaps::new(self.alloc);
            self.some = false;
            return Err(AllocError);
        };
        if !entries.is_empty() {
            self.some = true;
        }
        Ok(())
    }
}
