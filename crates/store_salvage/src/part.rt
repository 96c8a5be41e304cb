//! The parts of a half that may be lost.
ghost use Rattle.std.specs.Prelude.{◌≡◌, ◌≢◌, ℕ, ◌+◌, ◌-◌, ◌*◌, ◌^◌, ◌<◌, ◌≤◌, IfNone, IfSome};
ghost use Rattle.record_values.specs.GeometryValue.{sectors_of};
ghost use Rattle.flip_image.specs.Layout.{gate_sector, page_sector, pages_first};
ghost use Rattle.store_salvage.specs.Salvage.{IsNamedBy, IsPartOf, NamesNone};

use flip_image::Halves;
use records::{HEADER_SECTORS, HEADS_SECTORS, PAGE_SECTORS, SLOT_SECTORS, UNDO_SECTORS, Version};

/// A part of the current half of a store.
#[derive(Clone, Copy, Debug, PartialEq, Eq)]
pub enum Part {
    /// This page of its rows.
    Page(u32),
    /// Its log, from this slot on.
    Log(u32),
}

/// The first sector of the pages.
pub(crate) fn pages_of(halves: &Halves) -> u64
    ensures value { result ≡ pages_first halves.now.geometry halves.now.current }
    ensures inside { result + PAGE_SECTORS * halves.now.geometry.pages ≤ sectors_of halves.now.geometry }
    ensures number { result + PAGE_SECTORS * halves.now.geometry.pages < 2 ^ 64 }
{
    halves.header_sector_in(Version::Two) + HEADER_SECTORS + HEADS_SECTORS + UNDO_SECTORS
}

/// The first sector of a page.
pub(crate) fn page_of(halves: &Halves, page: u32) -> u64
    requires { page < halves.now.geometry.pages }
    ensures value { result ≡ page_sector halves.now.geometry halves.now.current page }
    ensures inside { result + PAGE_SECTORS ≤ sectors_of halves.now.geometry }
    ensures number { result + PAGE_SECTORS < 2 ^ 64 }
{
    pages_of(halves) + PAGE_SECTORS * u64::from(page)
}

/// The gate of a slot of the log.
pub(crate) fn gate_of(halves: &Halves, slot: u32) -> u64
    requires { slot < halves.now.geometry.slots }
    ensures value { result ≡ gate_sector halves.now.geometry halves.now.current slot }
    ensures inside { result + SLOT_SECTORS * (halves.now.geometry.slots - slot) ≤ sectors_of halves.now.geometry }
    ensures number { result + SLOT_SECTORS * (halves.now.geometry.slots - slot) < 2 ^ 64 }
{
    // the size is looked at, so that its limits are at hand
    let _ = halves.geometry();
    halves.log_first() + SLOT_SECTORS * u64::from(slot)
}

// The page that has a sector.
fn page_at(halves: &Halves, sector: u64) -> Option<Part>
    ensures of { IfSome result (IsPartOf halves.now.geometry) }
    ensures named { IfSome result (λ part. IsNamedBy halves.now.geometry halves.now.current part sector) }
    ensures none { IfNone result ((page : ℕ) → page < halves.now.geometry.pages
        → ¬ IsNamedBy halves.now.geometry halves.now.current (Part.Page page) sector) }
{
    let first = pages_of(halves);
    if sector < first {
        return None;
    }
    let page = (sector - first) / PAGE_SECTORS;
    if page >= u64::from(halves.geometry().pages) {
        return None;
    }
    Some(Part::Page(page as u32))
}

// The log from the slot on whose gate is a sector.
fn log_at(halves: &Halves, sector: u64) -> Option<Part>
    ensures of { IfSome result (IsPartOf halves.now.geometry) }
    ensures named { IfSome result (λ part. IsNamedBy halves.now.geometry halves.now.current part sector) }
    ensures none { IfNone result ((slot : ℕ) → slot < halves.now.geometry.slots
        → sector ≢ gate_sector halves.now.geometry halves.now.current slot) }
{
    let first = halves.log_first();
    if sector < first || (sector - first) % SLOT_SECTORS != 0 {
        return None;
    }
    let slot = (sector - first) / SLOT_SECTORS;
    if slot >= u64::from(halves.geometry().slots) {
        return None;
    }
    Some(Part::Log(slot as u32))
}

/// The part that a reader names by this sector, if one of a page or a gate.
pub(crate) fn part_at(halves: &Halves, sector: u64) -> Option<Part>
    ensures of { IfSome result (IsPartOf halves.now.geometry) }
    ensures named { IfSome result (λ part. IsNamedBy halves.now.geometry halves.now.current part sector) }
    ensures none { IfNone result (NamesNone halves.now.geometry halves.now.current sector) }
{
    match page_at(halves, sector) {
        Some(part) => Some(part),
        None => log_at(halves, sector),
    }
}
