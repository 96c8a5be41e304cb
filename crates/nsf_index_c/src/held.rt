//! An index, as a handle holds it.
ghost use Rattle.std.specs.Prelude.{◌≡◌, ◌⊎◌, [], IfErr, IfOk, OnErr, OnOk, false};
ghost use Rattle.record_values.specs.declared.error.Error.{Error};
ghost use Rattle.online_index.specs.Value.{created};
ghost use Rattle.nsf_index_c.specs.Opening.{IsMade, IsSize};

use marked_index::MarkedIndex;
use online_index::{OnlineIndex, PageScan};
use online_model::Note;
use online_notes::NOTE_MAX;
use record_values::{Error, Geometry, Mark, Pair};
use std::alloc::Global;
use std::marker::Model;

/// An index of a host in C.
#[derive(Drop)]
pub struct Held {
    pub(crate) index: OnlineIndex<MarkedIndex<Global>, PageScan<Global>>,
    // how many entries there may be
    pub(crate) most: u32,
    // the notes that the host has not taken
    pub(crate) notes: Vec<Note, Global>,
    // room for one record
    pub(crate) record: Vec<u8, Global>,
    // from its making to its reopening
    pub(crate) is_redone: bool,
}

impl Model for Held {
    ghost use Rattle.nsf_index_c.specs.Seen.{Seen, coded_seen};

    ghost Value = { Seen };

    ghost coded = { coded_seen };

    ghost view = { λ h. record {
      index = h.index;
      most = h.most;
      waiting = h.notes.items;
      is_redone = h.is_redone;
    } };
}

// The note that sets this entry.
pub(crate) fn note_of(pair: &Pair, mark: Option<Mark>) -> Note
    ensures { result ≡ Note.EntryIs pair.now mark }
{
    Note::EntryIs(*pair, mark)
}

impl Held {
    /// An index with no entry, for so many entries and pages. It is to be built, or to be redone.
    pub(crate) fn new(alloc: Global, most: u32, pages: u32, is_redone: bool) -> Result<Held, Error>
        ensures made { IfOk result (IsMade most pages is_redone) }
        ensures size { OnOk result (IsSize most) }
        ensures refused { IfErr result (λ e. ((e ≡ Error.BadGeometry) × (¬ IsSize most))
            ⊎ ((e ≡ Error.NoMemory) × IsSize most)) }
    {
        let geometry = Geometry::large(1, most, 4)?;
        let record = Vec::with_capacity(alloc, NOTE_MAX)?;
        let index = OnlineIndex::create(
            MarkedIndex::new(alloc, geometry),
            PageScan::new(alloc),
            pages,
        );
        Ok(Held {
            index,
            most,
            notes: Vec::new(alloc),
            record,
            is_redone,
        })
    }
}
