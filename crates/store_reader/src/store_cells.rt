//! The cells of a store.
ghost use Rattle.std.specs.Prelude.{◌≡◌, ◌<◌, ◌≤◌, ◌↔◌, ◌+◌, Err, length, take, OnOk, OnErr, IfOk, IfErr};
ghost use Rattle.record_values.specs.declared.number.TheConstants.{LAST_NUMBER};
ghost use Rattle.model.specs.Following.{AreFollowing, IsFirstUnfit};
ghost use Rattle.model.specs.Given.{recovered};
ghost use Rattle.model.specs.Inside.{AreInside};
ghost use Rattle.store_reader.specs.Store.{CanRedo, after_record, after_records, store_of};
ghost use Rattle.store_reader.specs.Restored.{given_in};

use crate::image_cells::ImageCells;
use crate::refusal::{Refusal, Stopped};
use crate::restored::Restored;
use model::CellMaps;
use records::{Geometry, Record};
use std::alloc::{AllocError, Allocator};
use std::marker::Model;

/// The cells of a store, as an image and the records behind it have left them: rows, entries of the index, the changes
/// of unfinished transactions, and how far the index is. All of it is in the store's pages.
#[derive(Drop)]
pub struct StoreCells<A: Allocator> {
    alloc: A,
    geometry: Geometry,
    maps: CellMaps<A>,
    // the number of the last record
    last: u64,
}

impl<A: Allocator> Model for StoreCells<A> {
    ghost use Rattle.std.specs.Prelude.{◌≤◌};
    ghost use Rattle.record_values.specs.declared.number.TheConstants.{LAST_NUMBER};
    ghost use Rattle.model.specs.Redo.{cells_of};
    ghost use Rattle.model.specs.Inside.{AreInside};
    ghost use Rattle.store_reader.specs.Store.{StoreValue, coded_store};

    ghost Value = { StoreValue };

    ghost coded = { coded_store };

    ghost view = { λ s. record { geometry = s.geometry; cells = cells_of s.maps; last = s.last } };

    ghost invariant = { λ s. AreInside s.geometry.pages (cells_of s.maps) × (s.last ≤ LAST_NUMBER) };
}

impl<A: Allocator + Copy> StoreCells<A> {
    /// The cells of an image of a store of this geometry, which record `base` left.
    pub fn over(image: ImageCells<A>, geometry: Geometry, base: u64) -> Self
        requires inside { AreInside geometry.pages image }
        requires numbered { base ≤ LAST_NUMBER }
        ensures { result ≡ store_of geometry base image }
    {
        let (alloc, maps) = image.into_maps();
        StoreCells {
            alloc,
            geometry,
            maps,
            last: base,
        }
    }

    // How many pages of rows there are.
    fn pages(&self) -> u32
        ensures { result ≡ self.now.geometry.pages }
    {
        self.geometry.pages
    }

    /// Sets what the record says. `Unfit` where it can't follow the records before it: its number is not the next one,
    /// its place is in none of the store's pages, its change is not the one that can come next or be taken back next on
    /// its transaction's list, it would be of one more unfinished transaction than there may be, or the index is not so
    /// far; else `NoMemory`. After a refusal the cells are as before.
    pub fn redo(&mut self, next: &Record) -> Result<(), Refusal>
        ensures fit { OnOk result (CanRedo self.old next.now) }
        ensures ok { OnOk result (self.new ≡ after_record self.old next.now) }
        ensures unfit { (result ≡ Err Refusal.Unfit) ↔ ¬ CanRedo self.old next.now }
        ensures no_memory { result ≡ Err Refusal.NoMemory → CanRedo self.old next.now }
        ensures err { OnErr result (self.new ≡ self.old) }
    {
        let pages = self.pages();
        if !self.maps.can_follow(pages, self.last, next) {
            return Err(Refusal::Unfit);
        }
        self.maps.redo_one(self.alloc, &next.action)?;
        self.last = next.number.get();
        Ok(())
    }

    /// Redoes these records, the first of them first, up to one that is refused, which is named by its index.
    pub fn redo_all(&mut self, records: &[Record]) -> Result<(), Stopped>
        ensures following { OnOk result
            (AreFollowing self.old.geometry.pages self.old.last self.old.cells records.now) }
        ensures ok { OnOk result (self.new ≡ after_records self.old records.now) }
        ensures inside { IfErr result (λ s. s.index < length records.now) }
        ensures unfit { IfErr result (λ s. s.why ≡ Refusal.Unfit
            → IsFirstUnfit self.old.geometry.pages self.old.last self.old.cells records.now s.index) }
        ensures no_memory { IfErr result (λ s. s.why ≡ Refusal.NoMemory
            → AreFollowing self.old.geometry.pages self.old.last self.old.cells (take (s.index + 1) records.now)) }
        ensures before { IfErr result (λ s. self.new ≡ after_records self.old (take s.index records.now)) }
    {
        for (index, record) in records.iter().enumerate() {
            if let Err(why) = self.redo(record) {
                return Err(Stopped { index, why });
            }
        }
        Ok(())
    }

    /// What is restored: every unfinished transaction is taken back, in the order of their numbers, each from its last
    /// change.
    pub fn restore(self) -> Result<Restored<A>, AllocError>
        ensures given { IfOk result (λ found. given_in found ≡ recovered self.cells self.last) }
        ensures geometry { IfOk result (λ found. found.geometry ≡ self.geometry) }
    {
        let StoreCells {
            geometry,
            maps,
            last,
            ..
        } = self;
        let found = maps.recover(last)?;
        Ok(Restored {
            geometry,
            rows: found.rows,
            entries: found.entries,
            life: found.life,
            last: found.last,
        })
    }
}
