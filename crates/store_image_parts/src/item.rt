//! Undo items: the changes that transactions may still take back.
ghost use Rattle.std.specs.Prelude.{◌≡◌, Some, IfSome, length};
ghost use Rattle.std.specs.Option.{option_map};
ghost use Rattle.store_image_parts.specs.declared.item.UndoItem.{UndoItem};
ghost use Rattle.store_image_parts.specs.Reading.{item_at};
ghost use Rattle.store_image_parts.specs.Spelling.{item, item_in, item_size, ItemFits, ItemFitsIn};

use crate::buffer::Buffer;
use crate::fields::{put_rid, put_row};
use crate::row::row_size;
use crate::take::{are_zeros, row_of};
use records::front::{byte_of, rid_of};
use records::{Rid, Rows, Version};

/// The bytes of an undo item.
pub const ITEM_SIZE: usize = 512;

/// A change that a transaction may still take back. Its position is where it stands.
#[derive(Clone, Copy, Debug, PartialEq, Eq)]
pub struct UndoItem {
    /// The row's place.
    pub rid: Rid,
    /// The rows before and after the change.
    pub rows: Rows,
}

/// The bytes of an undo item.
pub fn spell_item(found: &UndoItem) -> [u8; ITEM_SIZE]
    ensures spelled { result ≡ item found.now }
    ensures fits { ItemFits found.now }
{
    let mut bytes = Buffer::<ITEM_SIZE>::new();
    bytes.push(&[1]);
    put_rid(&mut bytes, found.rid);
    put_row(&mut bytes, &found.rows.old());
    put_row(&mut bytes, &found.rows.new());
    bytes.into_bytes()
}

// The undo item at the front, whatever is behind it.
#[tactic(auto, unfolding(crate::specs::Reading::item_at))]
fn item_of(version: Version, bytes: &[u8]) -> Option<(UndoItem, &[u8])>
    ensures { option_map (λ x. (x.0, x.1.now)) result ≡ item_at version bytes.now }
{
    let (tag, rest) = byte_of(bytes)?;
    let Some((rid, rest)) = rid_of(rest) else {
        return None;
    };
    let Some((old, rest)) = row_of(version, rest) else {
        return None;
    };
    let Some((new, rest)) = row_of(version, rest) else {
        return None;
    };
    let rows = Rows::from_both(old, new)?;
    if tag == 1 {
        Some((UndoItem { rid, rows }, rest))
    } else {
        None
    }
}

/// The bytes of an undo item in a version of the format.
pub fn item_size(version: Version) -> usize
    ensures { result ≡ item_size version }
{
    4 * row_size(version)
}

/// The undo item with these bytes in a version of the format. `None` where they are none's.
pub fn read_item_in(version: Version, bytes: &[u8]) -> Option<UndoItem>
    requires { length bytes.now ≡ item_size version }
    ensures found { IfSome result (λ found. bytes.now ≡ item_in version found) }
    ensures fits { IfSome result (ItemFitsIn version) }
    ensures again { (value : UndoItem) → ItemFitsIn version value → bytes.now ≡ item_in version value
        → result ≡ Some value }
{
    let Some(found) = item_of(version, bytes) else {
        return None;
    };
    if are_zeros(found.1) {
        Some(found.0)
    } else {
        None
    }
}

/// The undo item with these bytes. `None` where they are none's.
pub fn read_item(bytes: &[u8; ITEM_SIZE]) -> Option<UndoItem>
    ensures found { IfSome result (λ found. bytes.now ≡ item found) }
    ensures fits { IfSome result ItemFits }
    ensures again { (value : UndoItem) → ItemFits value → bytes.now ≡ item value → result ≡ Some value }
{
    read_item_in(Version::Two, bytes)
}
