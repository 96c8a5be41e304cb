// The steps of the hash.
ghost use Rattle.std.specs.Prelude.{◌≡◌, ◌+◌, ◌*◌, ◌≤◌, length};
ghost use Rattle.block_digest.specs.Digest.{begun, half_at, joined, merged, mixed, of_stripes, round, with_byte};
ghost use Rattle.block_digest.specs.Digest.{with_bytes, with_half, with_word, with_words, word_at};

pub(crate) const PRIME_1: u64 = 0x9E37_79B1_85EB_CA87;

pub(crate) const PRIME_2: u64 = 0xC2B2_AE3D_27D4_EB4F;

pub(crate) const PRIME_3: u64 = 0x1656_67B1_9E37_79F9;

pub(crate) const PRIME_4: u64 = 0x85EB_CA77_C2B2_AE63;

pub(crate) const PRIME_5: u64 = 0x27D4_EB2F_1656_67C5;

// The eight bytes from a place on, as a number.
fn word_at(bytes: &[u8], at: usize) -> u64
    requires { at + 8 ≤ length bytes.now }
    ensures { result ≡ word_at bytes.now at }
{
    u64::from_le_bytes([
        bytes[at],
        bytes[at + 1],
        bytes[at + 2],
        bytes[at + 3],
        bytes[at + 4],
        bytes[at + 5],
        bytes[at + 6],
        bytes[at + 7],
    ])
}

// The four bytes from a place on, as a number.
fn half_at(bytes: &[u8], at: usize) -> u64
    requires { at + 4 ≤ length bytes.now }
    ensures { result ≡ half_at bytes.now at }
{
    u64::from(u32::from_le_bytes([bytes[at], bytes[at + 1], bytes[at + 2], bytes[at + 3]]))
}

// A lane with a word more.
fn round(lane: u64, word: u64) -> u64
    ensures { result ≡ round lane word }
{
    let sum = lane.wrapping_add(word.wrapping_mul(PRIME_2));
    sum.rotate_left(31).wrapping_mul(PRIME_1)
}

// A sum of lanes, with one of them merged into it.
fn merged(sum: u64, lane: u64) -> u64
    ensures { result ≡ merged sum lane }
{
    (sum ^ round(0, lane))
        .wrapping_mul(PRIME_1)
        .wrapping_add(PRIME_4)
}

// Four lanes as one number.
fn joined(a: u64, b: u64, c: u64, d: u64) -> u64
    ensures { result ≡ joined a b c d }
{
    let sum = a
        .rotate_left(1)
        .wrapping_add(b.rotate_left(7))
        .wrapping_add(c.rotate_left(12))
        .wrapping_add(d.rotate_left(18));
    merged(merged(merged(merged(sum, a), b), c), d)
}

// What the first `count` stripes of 32 bytes give.
fn of_stripes(seed: u64, bytes: &[u8], count: usize) -> u64
    requires { 32 * count ≤ length bytes.now }
    ensures { result ≡ of_stripes seed bytes.now count }
{
    let mut a = seed.wrapping_add(PRIME_1).wrapping_add(PRIME_2);
    let mut b = seed.wrapping_add(PRIME_2);
    let mut c = seed;
    let mut d = seed.wrapping_sub(PRIME_1);
    for n in 0..count {
        a = round(a, word_at(bytes, 32 * n));
        b = round(b, word_at(bytes, 32 * n + 8));
        c = round(c, word_at(bytes, 32 * n + 16));
        d = round(d, word_at(bytes, 32 * n + 24));
    }
    joined(a, b, c, d)
}

/// What the stripes give, or the seed where there is none.
pub(crate) fn begun(seed: u64, bytes: &[u8]) -> u64
    ensures { result ≡ begun seed bytes.now }
{
    if bytes.len() < 32 {
        seed.wrapping_add(PRIME_5)
    } else {
        of_stripes(seed, bytes, bytes.len() / 32)
    }
}

// A sum with a word more.
fn with_word(sum: u64, word: u64) -> u64
    ensures { result ≡ with_word sum word }
{
    let bits = sum ^ round(0, word);
    bits.rotate_left(27)
        .wrapping_mul(PRIME_1)
        .wrapping_add(PRIME_4)
}

/// A sum with so many words more, from a place on.
pub(crate) fn with_words(bytes: &[u8], place: usize, sum: u64, count: usize) -> u64
    requires { place + 8 * count ≤ length bytes.now }
    ensures { result ≡ with_words bytes.now place sum count }
{
    let mut so_far = sum;
    for n in 0..count {
        so_far = with_word(so_far, word_at(bytes, place + 8 * n));
    }
    so_far
}

/// A sum with half a word more, where the bytes have one behind their words.
pub(crate) fn with_half(bytes: &[u8], sum: u64) -> u64
    ensures { result ≡ with_half bytes.now sum }
{
    if bytes.len() % 8 < 4 {
        return sum;
    }
    let half = half_at(bytes, bytes.len() / 8 * 8);
    let bits = sum ^ half.wrapping_mul(PRIME_1);
    bits.rotate_left(23)
        .wrapping_mul(PRIME_2)
        .wrapping_add(PRIME_3)
}

// A sum with a byte more.
fn with_byte(sum: u64, byte: u8) -> u64
    ensures { result ≡ with_byte sum byte }
{
    let bits = sum ^ u64::from(byte).wrapping_mul(PRIME_5);
    bits.rotate_left(11).wrapping_mul(PRIME_1)
}

/// A sum with so many bytes more, from a place on.
pub(crate) fn with_bytes(bytes: &[u8], place: usize, sum: u64, count: usize) -> u64
    requires { place + count ≤ length bytes.now }
    ensures { result ≡ with_bytes bytes.now place sum count }
{
    let mut so_far = sum;
    for n in 0..count {
        so_far = with_byte(so_far, bytes[place + n]);
    }
    so_far
}

/// The bits of a sum in each other's places.
pub(crate) fn mixed(sum: u64) -> u64
    ensures { result ≡ mixed sum }
{
    let first = (sum ^ (sum >> 33)).wrapping_mul(PRIME_2);
    let last = (first ^ (first >> 29)).wrapping_mul(PRIME_3);
    last ^ (last >> 32)
}
