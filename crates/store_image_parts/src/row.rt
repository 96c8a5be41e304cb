//! Rows of a page.
ghost use Rattle.std.specs.Prelude.{◌≡◌, Option, Some, IfSome, length};
ghost use Rattle.record_values.specs.declared.row.Row.{Row};
ghost use Rattle.store_image_parts.specs.Spelling.{row, row_in, row_size, RowFitsIfSome, RowFitsInIfSome};

use crate::buffer::Buffer;
use crate::fields::put_row;
use crate::take::row_of;
use records::{Row, Version};

/// The bytes of a row of a page, or of none.
pub const ROW_SIZE: usize = 128;

/// The bytes of a row of a page, or zeros where there is none.
pub fn spell_row(found: &Option<Row>) -> [u8; ROW_SIZE]
    ensures spelled { result ≡ row found.now }
    ensures fits { RowFitsIfSome found.now }
{
    let mut bytes = Buffer::<ROW_SIZE>::new();
    put_row(&mut bytes, found);
    bytes.into_bytes()
}

/// The bytes of a row of a page in a version of the format.
pub fn row_size(version: Version) -> usize
    ensures { result ≡ row_size version }
{
    3 + version.key_max() + version.body_max()
}

/// The row with these bytes in a version of the format, or none where they are zeros. `None` where they are neither.
pub fn read_row_in(version: Version, bytes: &[u8]) -> Option<Option<Row>>
    requires { length bytes.now ≡ row_size version }
    ensures found { IfSome result (λ found. bytes.now ≡ row_in version found) }
    ensures fits { IfSome result (RowFitsInIfSome version) }
    ensures again { (value : Option Row) → RowFitsInIfSome version value → bytes.now ≡ row_in version value
        → result ≡ Some value }
{
    let Some(found) = row_of(version, bytes) else {
        return None;
    };
    Some(found.0)
}

/// The row with these bytes, or none where they are zeros. `None` where they are neither.
pub fn read_row(bytes: &[u8; ROW_SIZE]) -> Option<Option<Row>>
    ensures found { IfSome result (λ found. bytes.now ≡ row found) }
    ensures fits { IfSome result RowFitsIfSome }
    ensures again { (value : Option Row) → RowFitsIfSome value → bytes.now ≡ row value → result ≡ Some value }
{
    read_row_in(Version::Two, bytes)
}
