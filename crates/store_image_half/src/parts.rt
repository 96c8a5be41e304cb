//! What a part says, by its bytes.
ghost use Rattle.std.specs.Prelude.{◌≡◌, ◌↔◌, ◌*◌, ◌<◌, ◌≤◌, List, Option, Some, None, length, IsTrue, IfOk, IfSome};
ghost use Rattle.record_values.specs.declared.pair.Pair.{Pair};
ghost use Rattle.record_values.specs.declared.pair.Mark.{Mark};
ghost use Rattle.store_image_parts.specs.declared.head.Head.{Head};
ghost use Rattle.store_image_parts.specs.declared.header.Header.{Header};
ghost use Rattle.store_image_parts.specs.declared.item.UndoItem.{UndoItem};
ghost use Rattle.store_image_half.specs.Image.{IsHeaderIn, AreHeads, IsItemIn, HasEdges, IsRowIn, IsEntryIn};
ghost use Rattle.store_image_half.specs.Layout.{row_of, row_start};
ghost use Rattle.store_image_parts.specs.Spelling.{item_size, entry_size};
ghost use Rattle.record_values.specs.Version.{page_sectors};
ghost use Rattle.record_values.specs.declared.row.Row.{Row};
ghost use Rattle.std.specs.declared.cmp.Ordering.TheVariants.{Less};
ghost use Rattle.record_values.specs.Orders.{pair_cmp};
ghost use Rattle.store_image_half.specs.Steps.{IsNextHead};

use crate::pieces::piece_of;
use model::Life;
use records::{Geometry, Mark, Pair, Row, SLOTS_PER_PAGE, TXNS_MAX, Version};
use sector_device::{SECTOR_SIZE, are_zeros};
use std::alloc::{AllocError, Allocator};
use store_image_parts::{
    HEAD_SIZE, Head, Header, ROW_SIZE, UndoItem, read_entry_in, read_head, read_header_in,
    read_item_in, read_row_in,
};

/// The bytes of zeros in front of the rows of a page.
pub(crate) const EDGE_SIZE: usize = 64;

// The bytes of a row in version 1.
const OLD_ROW_SIZE: usize = 64;

// Whether a highest pair names a row of the store's pages, where there is one.
fn is_inside(geometry: Geometry, life: Life) -> bool
    ensures { IsTrue result ↔ ((p : Pair) → life ≡ Life.Building (Some p) → p.rid.page < geometry.pages) }
{
    match life {
        Life::Building {
            highest: Some(pair),
        } => pair.rid.page < geometry.pages,
        _ => true,
    }
}

/// What the sector of a header says. `None` where it says nothing.
pub fn header_in(version: Version, geometry: Geometry, bytes: &[u8; SECTOR_SIZE]) -> Option<Header>
    ensures found { IfSome result (IsHeaderIn version geometry bytes.now) }
    ensures again { (h : Header) → IsHeaderIn version geometry bytes.now h → result ≡ Some h }
{
    let header = read_header_in(version, bytes)?;
    if geometry.entries < header.entries {
        return None;
    }
    if is_inside(geometry, header.life) {
        Some(header)
    } else {
        None
    }
}

/// The heads that the sector of the heads has. `None` where it says nothing.
pub(crate) fn heads_in<A: Allocator + Copy>(
    alloc: A,
    bytes: &[u8; SECTOR_SIZE],
) -> Result<Option<Vec<Head, A>>, AllocError>
    ensures found { IfOk result (λ found. IfSome found (λ heads. AreHeads bytes.now heads.items)) }
    ensures none { IfOk result (λ found. found ≡ None → (heads : List Head) → ¬ AreHeads bytes.now heads) }
{
    let mut heads: Vec<Head, A> = Vec::with_capacity(alloc, TXNS_MAX)?;
    for k in 0..TXNS_MAX {
        let piece = piece_of::<HEAD_SIZE>(bytes, k);
        let Some(found) = read_head(&piece) else {
            return Ok(None);
        };
        if let Some(head) = found {
            if !is_next(&heads, k, &head) {
                return Ok(None);
            }
            heads.push(head)?;
        }
    }
    Ok(Some(heads))
}

// Whether this head may stand at index k behind those.
fn is_next(heads: &[Head], k: usize, head: &Head) -> bool
    ensures { IsTrue result ↔ IsNextHead heads.now k head.now }
{
    match heads {
        [] => k == 0,
        [.., last] => heads.len() == k && last.txn.number() < head.txn.number(),
    }
}

/// The change that an undo item says. `None` where it says nothing.
pub(crate) fn item_in(version: Version, geometry: Geometry, bytes: &[u8]) -> Option<UndoItem>
    requires { length bytes.now ≡ item_size version }
    ensures found { IfSome result (IsItemIn version geometry bytes.now) }
    ensures again { (i : UndoItem) → IsItemIn version geometry bytes.now i → result ≡ Some i }
{
    let item = read_item_in(version, bytes)?;
    if item.rid.page < geometry.pages {
        Some(item)
    } else {
        None
    }
}

// Where in a page the row of a slot begins. Slot 63 begins behind the last row.
fn row_start(version: Version, slot: u16) -> usize
    requires { slot ≤ SLOTS_PER_PAGE }
    ensures { result ≡ row_start version slot }
{
    match version {
        Version::One => EDGE_SIZE + OLD_ROW_SIZE * usize::from(slot),
        Version::Two => EDGE_SIZE + ROW_SIZE * usize::from(slot),
    }
}

/// Whether there are zeros in front of the rows of a page, and behind them.
pub(crate) fn has_edges(version: Version, page: &[u8]) -> bool
    requires { length page.now ≡ SECTOR_SIZE * page_sectors version }
    ensures { IsTrue result ↔ HasEdges version page.now }
{
    let end = row_start(version, SLOTS_PER_PAGE);
    are_zeros(&page[..EDGE_SIZE]) && are_zeros(&page[end..])
}

/// The row in a slot of a page, or none. `None` where its bytes are neither.
pub(crate) fn row_in(version: Version, page: &[u8], slot: u16) -> Option<Option<Row>>
    requires size { length page.now ≡ SECTOR_SIZE * page_sectors version }
    requires slot { slot < SLOTS_PER_PAGE }
    ensures found { IfSome result (IsRowIn version (row_of version page.now slot)) }
    ensures again { (o : Option Row) → IsRowIn version (row_of version page.now slot) o → result ≡ Some o }
{
    let start = row_start(version, slot);
    let end = row_start(version, slot + 1);
    read_row_in(version, &page[start..end])
}

/// The entry that these bytes say. `None` where they say nothing.
pub(crate) fn entry_in(version: Version, geometry: Geometry, bytes: &[u8]) -> Option<(Pair, Mark)>
    requires { length bytes.now ≡ entry_size version }
    ensures found { IfSome result (IsEntryIn version geometry bytes.now) }
    ensures again { (e : Pair × Mark) → IsEntryIn version geometry bytes.now e → result ≡ Some e }
{
    let entry = read_entry_in(version, bytes)?;
    if entry.0.rid.page < geometry.pages {
        Some(entry)
    } else {
        None
    }
}

/// Whether the pair is above the last one, where there is one.
pub(crate) fn is_above(pair: &Pair, last: &Option<Pair>) -> bool
    ensures { IsTrue result ↔ ((p : Pair) → last.now ≡ Some p → pair_cmp p pair.now ≡ Less) }
{
    match last {
        None => true,
        Some(last) => last < pair,
    }
}
