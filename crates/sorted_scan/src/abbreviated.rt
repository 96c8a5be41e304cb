//! Pairs brought near their order before they are sorted. What is sorted here are numbers that abbreviate keys, which
//! moves fewer bytes than pairs have; the pairs are swapped into the order of these.
ghost use Rattle.std.specs.Prelude.{◌≡◌, ◌<◌, ◌%◌, All, IfOk, OnErr, length};
ghost use Rattle.std.specs.List.Sorted.{IsPermutation};

use record_values::Pair;
use std::alloc::{AllocError, Allocator};

/// How many bytes a number has: the last two are those of a place.
const NUMBER_BYTES: usize = 8;

/// How many places a number can tell.
const PLACES: u64 = 65_536;

/// With how many bytes the keys of all pairs begin alike. (No clause says so: it saves time alone.)
fn shared_bytes(pairs: &[Pair]) -> usize {
    let Some((first, others)) = pairs.split_first() else {
        return 0;
    };
    let mut shared = first.key.as_slice();
    for pair in others {
        let alike = shared
            .iter()
            .zip(pair.key.as_slice())
            .take_while(|(byte, other)| byte == other)
            .count();
        shared = shared.get(..alike).unwrap_or(shared);
    }
    shared.len()
}

/// Six bytes of the pair's key behind those that all share, zeros where there are fewer, and then the pair's place.
fn number(pair: &Pair, shared: usize, place: u16) -> u64
    ensures { result % PLACES ≡ place }
{
    let mut bytes = pair.key.as_slice().iter().skip(shared);
    let mut number = 0;
    for _ in 0..NUMBER_BYTES {
        number = number << 8 | u64::from(bytes.next().copied().unwrap_or_default());
    }
    number - number % PLACES + u64::from(place)
}

/// The numbers of the pairs, each with its own place, sorted. (Of order no clause speaks: it saves time alone.)
fn numbers<A: Allocator>(alloc: A, pairs: &[Pair]) -> Result<Vec<u64, A>, AllocError>
    requires { length pairs.now < PLACES }
    ensures length { IfOk result (λ numbers. length numbers.items ≡ length pairs.now) }
    ensures places { IfOk result (λ numbers. All (λ n. n % PLACES < length pairs.now) numbers.items) }
{
    let shared = shared_bytes(pairs);
    let mut numbers = Vec::with_capacity(alloc, pairs.len())?;
    for (place, pair) in pairs.iter().enumerate() {
        numbers.push(number(pair, shared, place as u16))?;
    }
    numbers.sort_unstable();
    Ok(numbers)
}

/// The numbers below so many, rising. (No clause says that they rise.)
fn all_below<A: Allocator>(alloc: A, count: u16) -> Result<Vec<u16, A>, AllocError>
    ensures length { IfOk result (λ all. length all.items ≡ count) }
    ensures below { IfOk result (λ all. All (λ n. n < count) all.items) }
{
    let mut all = Vec::with_capacity(alloc, usize::from(count))?;
    for number in 0..count {
        all.push(number)?;
    }
    Ok(all)
}

/// Swaps the pairs until each stands where its number does. It is lent where each pair stands, and which stands where.
/// (No clause says where they come to stand.)
fn settle(pairs: &mut [Pair], numbers: &[u64], places: &mut [u16], standing: &mut [u16])
    requires numbers { length numbers.now ≡ length pairs.old }
    requires inside { All (λ n. n % PLACES < length pairs.old) numbers.now }
    requires places { (length places.old ≡ length pairs.old) × All (λ p. p < length pairs.old) places.old }
    requires standing { (length standing.old ≡ length pairs.old) × All (λ p. p < length pairs.old) standing.old }
    requires short { length pairs.old < PLACES }
    ensures { IsPermutation pairs.old pairs.new }
{
    for i in 0..pairs.len() {
        let at = places[(numbers[i] % PLACES) as usize];
        let moved = standing[i];
        pairs.swap(i, usize::from(at));
        standing[usize::from(at)] = moved;
        places[usize::from(moved)] = at;
    }
}

/// Brings the pairs near their order: into that of their numbers. They stay where there are more than a number can tell
/// apart, and where memory is refused. (No clause says in what order they are: it saves time alone.)
pub(crate) fn arrange<A: Allocator + Copy>(pairs: &mut Vec<Pair, A>) -> Result<(), AllocError>
    ensures permutation { IsPermutation pairs.old.items pairs.new.items }
    ensures unchanged { OnErr result (pairs.new.items ≡ pairs.old.items) }
{
    let alloc = *pairs.allocator();
    let Ok(count) = u16::try_from(pairs.len()) else {
        return Ok(());
    };
    let numbers = numbers(alloc, pairs)?;
    let mut places = all_below(alloc, count)?;
    let mut standing = all_below(alloc, count)?;
    settle(pairs, &numbers, &mut places, &mut standing);
    Ok(())
}
