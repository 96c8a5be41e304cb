// A host: rows by their place, the index, and the log.
use marked_index::MarkedIndex;
use online_index::{NextMarked, OnlineIndex, PageScan, Stop, is_page};
use online_model::Note;
use record_values::{Error, Geometry, Key, Mark, Pair, Rid, SLOTS_PER_PAGE};
use std::alloc::Allocator;

/// How many pages the table has.
pub(crate) const PAGES: u32 = 2;

/// How many places they have.
pub(crate) const PLACES: u32 = 126;

type Index<A> = OnlineIndex<MarkedIndex<A>, PageScan<A>>;

#[derive(Drop)]
pub(crate) struct Host<A: Allocator + Copy> {
    alloc: A,
    rows: Vec<Option<Pair>, A>,
    pub(crate) index: Index<A>,
    pub(crate) log: Vec<Note, A>,
}

fn index_in<A: Allocator + Copy>(alloc: A) -> Result<Index<A>, Error> {
    let geometry = Geometry::new(PAGES, 2048, 4)?;
    Ok(OnlineIndex::create(
        MarkedIndex::new(alloc, geometry),
        PageScan::new(alloc),
        PAGES,
    ))
}

/// The pair of a row with this number as its key.
pub(crate) fn pair_of(place: u32, key: u32) -> Result<Pair, Error> {
    let slots = SLOTS_PER_PAGE as u32;
    Ok(Pair {
        key: Key::new(&key.to_be_bytes())?,
        rid: Rid {
            page: place / slots,
            slot: (place % slots) as u16,
        },
    })
}

impl<A: Allocator + Copy> Host<A> {
    pub(crate) fn new(alloc: A) -> Result<Self, Error> {
        let mut rows = Vec::new(alloc);
        for place in 0..PLACES {
            rows.push(Some(pair_of(place, place % 40)?))?;
        }
        Ok(Host {
            alloc,
            rows,
            index: index_in(alloc)?,
            log: Vec::new(alloc),
        })
    }

    pub(crate) fn row(&self, place: u32) -> Option<Pair> {
        self.rows.get(place as usize).copied().flatten()
    }

    fn note(&mut self, pair: Option<&Pair>, mark: Option<Mark>) -> Result<(), Error> {
        if let Some(pair) = pair {
            self.log.push(Note::EntryIs(*pair, mark))?;
        }
        Ok(())
    }

    /// A row becomes another, or none, or there is one where none was. What can be refused is refused before anything
    /// changes: room in the log, and the entries of both pairs.
    pub(crate) fn change(&mut self, place: u32, new: Option<&Pair>) -> Result<(), Error> {
        let old = self.row(place);
        self.log.reserve(3)?;
        self.index.prepare(old.as_ref(), new)?;
        self.note(old.as_ref(), Some(Mark::Marked))?;
        self.note(new, Some(Mark::Marked))?;
        if let Some(row) = self.rows.get_mut(place as usize) {
            *row = new.copied();
        }
        if let Some(pair) = new {
            self.index.put(pair)?;
            self.note(new, Some(Mark::Live))?;
        }
        Ok(())
    }

    /// The builder makes some steps, and reads the page that it wants.
    pub(crate) fn build(&mut self, most: u32) -> Result<Stop, Error> {
        let stop = self.index.build_many(most, &mut self.log)?;
        if let Stop::WantsPage(page) = stop {
            let mut pairs = Vec::new(self.alloc);
            for place in 0..PLACES {
                if let Some(pair) = self.row(place) {
                    if pair.rid.page == page {
                        pairs.push(pair)?;
                    }
                }
            }
            if is_page(page, &pairs) {
                self.index.take_page(page, &pairs)?;
            }
        }
        Ok(stop)
    }

    /// The cleaner takes one entry out, if it finds one.
    pub(crate) fn clean(&mut self) -> Result<(), Error> {
        self.log.reserve(1)?;
        if let NextMarked::Found(pair) = self.index.next_marked(None, 32) {
            if self.index.clean(&pair) {
                self.note(Some(&pair), None)?;
            }
        }
        Ok(())
    }

    /// The index is lost, and made again of these notes and of those logged since.
    pub(crate) fn stop(&mut self, saved: &[Note], since: usize) -> Result<(), Error> {
        let mut index = index_in(self.alloc)?;
        for note in saved.iter().chain(self.log.iter().skip(since)) {
            index.redo(note)?;
        }
        index.reopen(PAGES);
        self.index = index;
        Ok(())
    }

    /// How many entries are not as they should be, once the index is complete.
    pub(crate) fn differences(&self) -> usize {
        let mut rows = 0_usize;
        let mut hidden = 0_usize;
        for row in &self.rows {
            if let Some(pair) = row {
                rows = rows.wrapping_add(1);
                if self.index.get(pair) != Some(Mark::Live) {
                    hidden = hidden.wrapping_add(1);
                }
            }
        }
        let counts = self.index.counts();
        let expected = rows.wrapping_add(counts.marked);
        hidden.wrapping_add(counts.entries.abs_diff(expected))
    }
}
