// What is told of bytes that changed.
ghost use Rattle.std.specs.Prelude.{◌≡◌, ℕ, List, Some, take};
ghost use Rattle.block_digest.specs.Digest.{digest};
ghost use Rattle.block_device.specs.Blocks.{CrashFile, block};
ghost use Rattle.block_device.specs.Words.{word};
ghost use Rattle.block_batch.specs.Batch.{block_digest};
ghost use Rattle.block_table.specs.Table.{IsFit, digest_of, place_of};
ghost use Rattle.block_file.specs.declared.plan.Plan.{Plan};
ghost use Rattle.block_file.specs.Header.{told_by};

/// A law: what becomes of bytes that change while a file isn't open. A block of data fits afterwards only if its bytes
/// have the digest that they had (`content`). Where only its digest in the table changed, it doesn't fit (`table`). A
/// header tells a plan afterwards only if its bytes have the digest that they had (`header`), and if its own digest
/// changed alone, it tells none (`told`).
///
/// (An opening refuses a file with a block that doesn't fit: `fits` of [`open`](crate::open).)
pub fn changes_are_told()
    ensures content { (blocks n : ℕ) (kept other : CrashFile) → IsFit blocks kept n
        → digest_of other n ≡ digest_of kept n → IsFit blocks other n
        → block_digest (place_of blocks n) (block other (place_of blocks n))
        ≡ block_digest (place_of blocks n) (block kept (place_of blocks n)) }
    ensures table { (blocks n : ℕ) (kept other : CrashFile) → IsFit blocks kept n
        → block other (place_of blocks n) ≡ block kept (place_of blocks n) → IsFit blocks other n
        → digest_of other n ≡ digest_of kept n }
    ensures header { (bytes other : List ℕ) (p q : Plan) → told_by bytes ≡ Some p → told_by other ≡ Some q
        → word other 511 ≡ word bytes 511 → digest (take 4088 other) ≡ digest (take 4088 bytes) }
    ensures told { (bytes other : List ℕ) (p q : Plan) → told_by bytes ≡ Some p → told_by other ≡ Some q
        → take 4088 other ≡ take 4088 bytes → word other 511 ≡ word bytes 511 }
{}
