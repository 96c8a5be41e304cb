// The numbers of a table of digests, as they are kept in memory.
ghost use Rattle.std.specs.Prelude.{◌≡◌, ◌≢◌, ◌⊎◌, ◌/◌, ◌%◌, ◌≤◌, ◌<◌, ℕ, [], false, true, length, slice_index};
ghost use Rattle.std.specs.Prelude.{slice_index_or, IfErr, IfOk, IfSome, Some};
ghost use Rattle.sector_device.specs.DevicePast.{CountsFailure, Rises};
ghost use Rattle.block_device.specs.Blocks.{block};
ghost use Rattle.block_batch.specs.Batch.{block_digest};
ghost use Rattle.block_device.specs.Words.{word};
ghost use Rattle.block_journal.specs.Journal.{OnlyReads};
ghost use Rattle.block_journal.specs.Value.{content_of};
ghost use Rattle.block_table.specs.Rows.{AreNumbers, digest_in};
ghost use Rattle.block_table.specs.Table.{table_count};

use block_batch::block_digest;
use block_device::{BLOCK_SIZE, Blocks, WORDS, spell_words, words_of};
use block_journal::{Journal, OpenError};
use sector_device::Failed;
use std::alloc::Allocator;

/// How many blocks hold the digests of so many blocks of data.
pub fn table_count(blocks: u64) -> u64
    ensures { result ≡ table_count blocks }
{
    blocks.div_ceil(WORDS as u64)
}

// The digest that the rows have for a block of data.
fn digest_at(rows: &[[u64; WORDS]], n: u64) -> u64
    requires { n / 512 < length rows.now }
    ensures { result ≡ digest_in rows.now n }
{
    rows[(n / 512) as usize][(n % 512) as usize]
}

/// Whether a block of data, with these bytes in this place, fits its digest. One of the first, so many as are known to
/// fit, isn't compared.
pub(crate) fn is_fit(
    rows: &[[u64; WORDS]],
    known: u64,
    n: u64,
    place: u64,
    bytes: &[u8; BLOCK_SIZE],
) -> bool
    requires row { n / 512 < length rows.now }
    requires known { n < known → digest_in rows.now n ≡ block_digest place bytes.now }
    ensures fits { result ≡ true → digest_in rows.now n ≡ block_digest place bytes.now }
    ensures unfit { result ≡ false → digest_in rows.now n ≢ block_digest place bytes.now }
{
    n < known || digest_at(rows, n) == block_digest(place, bytes)
}

/// How many of the first blocks are known to fit, once this one is.
pub(crate) fn known_with(known: u64, n: u64) -> u64
    ensures each { (m : ℕ) → m < result → (m < known) ⊎ (m ≡ n) }
    ensures low { (limit : ℕ) → known ≤ limit → n < limit → result ≤ limit }
{
    if n == known {
        return known.saturating_add(1);
    }
    known
}

/// Whether it is this number.
pub(crate) fn is_at(seen: Option<u64>, n: u64) -> bool
    ensures { result ≡ true → seen ≡ Some n }
{
    match seen {
        Some(m) => m == n,
        None => false,
    }
}

/// The number, where it is this one.
pub(crate) fn kept_at(seen: Option<u64>, n: u64) -> Option<u64>
    ensures { IfSome result (λ m. (m ≡ n) × (seen ≡ Some n)) }
{
    if is_at(seen, n) {
        return seen;
    }
    None
}

/// Sets the digest of a block of data. The block of the table that has it.
pub(crate) fn set_digest(rows: &mut [[u64; WORDS]], n: u64, digest: u64) -> [u8; BLOCK_SIZE]
    requires { n / 512 < length rows.old }
    ensures digest { word result (n % 512) ≡ digest }
    ensures others { (i : ℕ) → i < 512 → i ≢ n % 512
        → word result i ≡ slice_index (slice_index_or rows.old (n / 512) []) i }
    ensures row { (i : ℕ) → i < 512 → slice_index (slice_index_or rows.new (n / 512) []) i ≡ word result i }
    ensures rest { (t : ℕ) → t ≢ n / 512 → slice_index_or rows.new t [] ≡ slice_index_or rows.old t [] }
    ensures size { length rows.new ≡ length rows.old }
{
    let (t, i) = ((n / 512) as usize, (n % 512) as usize);
    let mut row = rows[t];
    row[i] = digest;
    rows[t] = row;
    spell_words(&row)
}

// The numbers of a block that a journal keeps, which hasn't failed.
fn read_row<B: Blocks, A: Allocator + Copy>(
    journal: &mut Journal<B, A>,
    t: u64,
) -> Result<[u64; WORDS], Failed>
    requires kept { t < journal.old.shape.kept }
    requires good { journal.old.has_failed ≡ false }
    ensures row { IfOk result (λ row. (i : ℕ) → i < 512
        → slice_index row i ≡ word (block (content_of B.past_of journal.old) t) i) }
    ensures rest { journal.new ≡ record journal.old { below = journal.new.below } }
    ensures reads { OnlyReads (B.past_of journal.old.below) (B.past_of journal.new.below) }
    ensures back { B.written_back journal.new.below ≡ B.written_back journal.old.below }
    ensures counts { CountsFailure (B.failures journal.old.below) (B.failures journal.new.below) result }
{
    let mut block = [0; BLOCK_SIZE];
    journal.read(t, &mut block)?;
    Ok(words_of(&block))
}

/// The numbers of the first blocks that a journal keeps, which hasn't failed.
pub(crate) fn read_rows<B: Blocks, A: Allocator + Copy>(
    alloc: A,
    journal: &mut Journal<B, A>,
    count: u64,
) -> Result<Vec<[u64; WORDS], A>, OpenError>
    requires kept { count ≤ journal.old.shape.kept }
    requires good { journal.old.has_failed ≡ false }
    ensures numbers { IfOk result (λ rows. AreNumbers (content_of B.past_of journal.old) rows.items count) }
    ensures count { IfOk result (λ rows. length rows.items ≡ count) }
    ensures rest { journal.new ≡ record journal.old { below = journal.new.below } }
    ensures reads { OnlyReads (B.past_of journal.old.below) (B.past_of journal.new.below) }
    ensures back { B.written_back journal.new.below ≡ B.written_back journal.old.below }
    ensures quiet { IfOk result (λ _. B.failures journal.new.below ≡ B.failures journal.old.below) }
    ensures failed { IfErr result (λ e. e ≡ OpenError.FileFailed
        → Rises (B.failures journal.old.below) (B.failures journal.new.below)) }
    ensures no_batch { IfErr result (λ e. e ≢ OpenError.NoBatch) }
{
    let mut rows = Vec::new(alloc);
    for t in 0..count {
        let Ok(row) = read_row(journal, t) else {
            return Err(OpenError::FileFailed);
        };
        let Ok(()) = rows.push(row) else {
            return Err(OpenError::NoMemory);
        };
    }
    Ok(rows)
}
