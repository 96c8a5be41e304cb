//! Tests of the crate `store_image_parts`.
use model::Life;
use records::{BODY_MAX, Body, Error, KEY_MAX, Key, Mark, Pair, Rid, Row, Rows, Txn};
use sector_device::SECTOR_SIZE;
use store_image_parts::{
    Head, Header, UndoItem, spell_entry, spell_head, spell_header, spell_item, spell_row,
};

// Puts bytes at this place.
fn put<const N: usize>(bytes: &mut [u8; N], at: usize, piece: &[u8]) {
    for n in 0..piece.len() {
        let place = at.saturating_add(n);
        if place < N {
            bytes[place] = piece[n];
        }
    }
}

// Zeros, but for these bytes at these places.
fn bytes_of<const N: usize>(pieces: &[(usize, &[u8])]) -> [u8; N] {
    let mut bytes = [0; N];
    for (at, piece) in pieces {
        put(&mut bytes, *at, piece);
    }
    bytes
}

// What stands in the bytes of each part.

static ENTRY: [(usize, &[u8]); 2] = [(0, b"\x01a"), (60, b"\x02\0\x3e\x02")];

static SLOT: [(usize, &[u8]); 2] = [(0, b"\x01\x03ant"), (58, b"\x01x")];

static HEAD: [(usize, &[u8]); 1] = [(6, b"\x01\x02\0\x40")];

static ITEM: [(usize, &[u8]); 3] = [
    (0, b"\x01\0\0\0\x02\0\x3e"),
    (135, b"\x01\x03ant"),
    (193, b"\x01x"),
];

static HEADER: [(usize, &[u8]); 3] = [
    (0, b"\x01\x01\x01a"),
    (62, b"\x02\0\x3e"),
    (72, b"\x07\0\0\0\xc8"),
];

// Whether each part is spelled so. That it is read so too, clauses say (`again` of each `read_`).

fn is_entry(entry: &(Pair, Mark)) -> bool {
    spell_entry(entry) == bytes_of::<64>(&ENTRY)
}

fn is_slot(row: &Option<Row>, pieces: &[(usize, &[u8])]) -> bool {
    spell_row(row) == bytes_of::<128>(pieces)
}

fn is_head(head: &Option<Head>) -> bool {
    spell_head(head) == bytes_of::<32>(&HEAD)
}

fn is_item(item: &UndoItem) -> bool {
    spell_item(item) == bytes_of::<512>(&ITEM)
}

fn is_header(header: &Header) -> bool {
    spell_header(header) == bytes_of::<SECTOR_SIZE>(&HEADER)
}

const RID: Rid = Rid { page: 2, slot: 62 };

fn pair() -> Result<Pair, Error> {
    let key = Key::new(b"a")?;
    Ok(Pair { key, rid: RID })
}

fn row() -> Result<Row, Error> {
    Ok(Row {
        key: Key::new(b"ant")?,
        body: Body::new(b"x")?,
    })
}

fn is_item_of(new: Row) -> bool {
    let rows = Rows::Inserted { new };
    is_item(&UndoItem { rid: RID, rows })
}

fn is_header_of(highest: Option<Pair>) -> bool {
    is_header(&Header {
        life: Life::Building { highest },
        base: 7,
        entries: 200,
    })
}

fn is_head_of(number: u64) -> bool {
    match Txn::new(number) {
        Some(txn) => is_head(&Some(Head { txn, changes: 64 })),
        None => false,
    }
}

const LETTERS: &[u8] = &[b'x'; 70];

// The row whose key and body have so many letters.
fn row_of(key: u8, body: u8) -> Result<Row, Error> {
    let key = LETTERS.get(..usize::from(key)).ok_or(Error::KeyTooLong)?;
    let body = LETTERS.get(..usize::from(body)).ok_or(Error::BodyTooLong)?;
    Ok(Row {
        key: Key::new(key)?,
        body: Body::new(body)?,
    })
}

// Whether the row is spelled so: a 1, the key and the body, each after its length, and zeros after each.
fn is_row_of(key: u8, body: u8) -> Result<bool, Error> {
    let row = row_of(key, body)?;
    let spelled = spell_row(&Some(row));
    let lengths = [1, key, body];
    let pieces: [(usize, &[u8]); 4] = [
        (0, &lengths[..2]),
        (2, row.key.as_slice()),
        (58, &lengths[2..]),
        (59, row.body.as_slice()),
    ];
    Ok(spelled == bytes_of::<128>(&pieces))
}

// Whether a row of each length is spelled so, and a longer key and a longer body are refused.
fn are_rows_of_each_length() -> Result<bool, Error> {
    for key in 0..=KEY_MAX as u8 {
        for body in 0..=BODY_MAX as u8 {
            if !is_row_of(key, body)? {
                return Ok(false);
            }
        }
    }
    let is_key = Key::new(&LETTERS[..KEY_MAX + 1]) == Err(Error::KeyTooLong);
    let is_body = Body::new(&LETTERS[..BODY_MAX + 1]) == Err(Error::BodyTooLong);
    Ok(is_key && is_body)
}

/// Whether an entry, a row, none, a transaction's head, one of its changes, and the header of an image are spelled so;
/// and rows of each length.
pub(crate) fn are_spelled() -> Result<bool, Error> {
    let (pair, row) = (pair()?, row()?);
    let are_rows = is_slot(&Some(row), &SLOT) && is_slot(&None, &[]) && is_item_of(row);
    let are_rows = are_rows && are_rows_of_each_length()?;
    Ok(are_rows && is_entry(&(pair, Mark::Marked)) && is_header_of(Some(pair)) && is_head_of(258))
}
