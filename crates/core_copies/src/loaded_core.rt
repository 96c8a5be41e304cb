//! A core is loaded.
ghost use Rattle.std.specs.Prelude.{◌≡◌, ◌⊎◌, ◌↔◌, ◌+◌, ◌<◌, ◌≤◌, Err, IfOk, IfErr, OnOk};
ghost use Rattle.std.specs.FinMap as map;
ghost use Rattle.model.specs.Following.{IsWithin};
ghost use Rattle.model.specs.Inside.{AreEntriesWithin};
ghost use Rattle.core_model.specs.Histories.{opened};
ghost use Rattle.core_model.specs.Events.{standing_at};
ghost use Rattle.nsf_core.specs.Loading.{IsQuiet};
ghost use Rattle.nsf_core.specs.Value.{value_of};
ghost use Rattle.core_parts.specs.View.{IsState};
ghost use Rattle.core_copies.specs.Loaded.{holding, store_of, with_entries, with_rows};
ghost use Rattle.store_reader.specs.Restored.{given_in};

use model::{EntryMap, RowMap};
use nsf_core::Core;
use records::Error;
use std::alloc::Allocator;
use store_reader::Restored;

// Loads these rows into a core that has none.
fn load_rows<A: Allocator + Copy>(
    alloc: A,
    core: &mut Core<A>,
    rows: &RowMap<A>,
) -> Result<(), Error>
    requires quiet { IsQuiet (value_of core.old) }
    requires none { (value_of core.old).heap.rows ≡ map.empty }
    requires within { IsWithin (value_of core.old).heap.pages rows.now }
    ensures ok { OnOk result (value_of core.new ≡ with_rows (value_of core.old) rows.now) }
    ensures no_memory { IfErr result (λ e. e ≡ Error.NoMemory) }
{
    let entries = rows.entries(alloc)?;
    for entry in &entries {
        core.load_row(entry.0, Some(entry.1));
    }
    Ok(())
}

// Loads these entries into a core that has none, but room for them.
fn load_entries<A: Allocator + Copy>(core: &mut Core<A>, entries: &EntryMap<A>) -> Result<(), Error>
    requires quiet { IsQuiet (value_of core.old) }
    requires none { (value_of core.old).index.entries ≡ map.empty }
    requires within { AreEntriesWithin (value_of core.old).heap.pages entries.now }
    requires room { map.len entries.now + (value_of core.old).index.pledged ≤ (value_of core.old).index.capacity }
    ensures ok { OnOk result (value_of core.new ≡ with_entries (value_of core.old) entries.now) }
    ensures no_memory { IfErr result (λ e. e ≡ Error.NoMemory) }
{
    let mut rest = entries.all_above(None);
    while let Some((pair, mark)) = rest.next() {
        core.load_entry(pair, Some(*mark))?;
    }
    Ok(())
}

/// A core that holds just what was restored, with no transaction: the rows, the entries, how far the index is, and the
/// number of the last record. An entry that is not there is not loaded.
///
/// `IndexFull` where there are more entries than the geometry has room for, which comes of no store that a crash left;
/// else `NoMemory`.
pub fn load<A: Allocator + Copy>(alloc: A, found: &Restored<A>) -> Result<Core<A>, Error>
    ensures made { IfOk result (λ core. value_of core ≡ holding found.now.geometry (given_in found.now)) }
    ensures opened { IfOk result (λ core. IsState (value_of core) (opened (store_of found.now))
        (standing_at found.now.last)) }
    ensures full { (result ≡ Err Error.IndexFull) ↔ (found.now.geometry.entries < map.len found.now.entries) }
    ensures refused { IfErr result (λ e. (e ≡ Error.IndexFull) ⊎ (e ≡ Error.NoMemory)) }
{
    let geometry = found.geometry;
    if found.entries.len() > geometry.entries as usize {
        return Err(Error::IndexFull);
    }
    let mut core = Core::new(alloc, geometry, found.last)?;
    load_rows(alloc, &mut core, &found.rows)?;
    load_entries(&mut core, &found.entries)?;
    core.load_life(found.life);
    Ok(core)
}
