// A buffer of an area: blocks that are gathered for a batch, with their places.
ghost use Rattle.std.specs.Prelude.{◌≡◌, ◌⊎◌, ◌↔◌, ◌+◌, ◌≤◌, ◌<◌, ℕ, true, length, slice_index, slice_set, IfOk};
ghost use Rattle.std.specs.Prelude.{IfSome, IfNone};
ghost use Rattle.block_device.specs.Blocks.{CrashFile, block};
ghost use Rattle.block_batch.specs.Batch.{IsPlace, block_digest, count_in, is_batch, number_in, place_in, replayed};
ghost use Rattle.block_batch.specs.Head.{count_of, number_of, place_of};
ghost use Rattle.block_journal.specs.Layout.{found_in};
ghost use Rattle.block_journal.specs.Entries.{AreDigests, HasNone, IsLastAt, IsSlot};
ghost use Rattle.block_journal.specs.Gathered.{IsEmptyBuffer};

use crate::Shape;
use block_batch::{Head, PLACES_MAX, block_digest, read, seal};
use block_device::BLOCK_SIZE;
use std::alloc::{AllocError, Allocator};

/// Blocks that are gathered for a batch, behind the place of its head.
#[derive(Drop)]
pub(crate) struct Gathered<A: Allocator> {
    // a block for the head, and the blocks
    pub(crate) area: Vec<[u8; BLOCK_SIZE], A>,
    // the place of each
    pub(crate) places: [u64; PLACES_MAX],
    pub(crate) count: usize,
}

// So many blocks of zeros.
fn zeros<A: Allocator>(alloc: A, size: usize) -> Result<Vec<[u8; BLOCK_SIZE], A>, AllocError>
    ensures { IfOk result (λ area. length area.items ≡ size) }
{
    let mut area = Vec::with_capacity(alloc, size)?;
    for _ in 0..size {
        area.push([0; BLOCK_SIZE])?;
    }
    Ok(area)
}

// Puts a block in an area.
fn put_block(area: &mut [[u8; BLOCK_SIZE]], n: usize, bytes: &[u8; BLOCK_SIZE])
    requires { n < length area.old }
    ensures { area.new ≡ slice_set area.old n bytes.now }
{
    area[n] = *bytes;
}

// The places that a head tells. How many they are.
fn take_places(head: &Head, places: &mut [u64; PLACES_MAX]) -> usize
    requires { count_of head.now ≤ PLACES_MAX }
    ensures count { result ≡ count_of head.now }
    ensures places { (i : ℕ) → i < result → slice_index places.new i ≡ place_of head.now i }
    ensures size { length places.new ≡ PLACES_MAX }
{
    let count = head.count() as usize;
    for i in 0..count {
        places[i] = head.place(i);
    }
    count
}

// The digests of so many blocks of an area, in their places.
fn digests_of(
    area: &[[u8; BLOCK_SIZE]],
    places: &[u64; PLACES_MAX],
    count: usize,
) -> [u64; PLACES_MAX]
    requires few { count ≤ PLACES_MAX }
    requires room { count < length area.now }
    ensures digests { AreDigests area.now places.now result count }
    ensures size { length result ≡ PLACES_MAX }
{
    let mut digests = [0; PLACES_MAX];
    for i in 0..count {
        digests[i] = block_digest(places[i], &area[1 + i]);
    }
    digests
}

/// Two empty buffers of areas of this shape.
pub(crate) fn buffers<A: Allocator + Copy>(
    alloc: A,
    shape: Shape,
) -> Result<(Gathered<A>, Gathered<A>), AllocError>
    requires some { 0 < shape.area }
    requires few { shape.area ≤ PLACES_MAX + 1 }
    ensures first { IfOk result (λ both. IsEmptyBuffer shape.area both.0) }
    ensures second { IfOk result (λ both. IsEmptyBuffer shape.area both.1) }
{
    let size = shape.area as usize;
    Ok((Gathered::new(alloc, size)?, Gathered::new(alloc, size)?))
}

impl<A: Allocator + Copy> Gathered<A> {
    ghost use Rattle.block_journal.specs.Gathered.{entries_of, IsBuffer, IsSealed};
    ghost use Rattle.block_journal.specs.Opening.{HasTaken};

    /// None yet, in an area of so many blocks.
    pub(crate) fn new(alloc: A, size: usize) -> Result<Self, AllocError>
        requires some { 0 < size }
        requires few { size ≤ PLACES_MAX + 1 }
        ensures { IfOk result (IsEmptyBuffer size) }
    {
        Ok(Gathered {
            area: zeros(alloc, size)?,
            places: [0; PLACES_MAX],
            count: 0,
        })
    }

    /// Which of them has this place: the last one that has it.
    pub(crate) fn find(&self, place: u64) -> Option<usize>
        requires { self.now.count ≤ PLACES_MAX }
        ensures found { IfSome result (IsLastAt self.now.places self.now.count place) }
        ensures none { IfNone result (HasNone self.now.places self.now.count place) }
    {
        for k in 0..self.count {
            let i = self.count - 1 - k;
            let here = self.places[i];
            if here == place {
                return Some(i);
            }
        }
        None
    }

    /// The i-th of them.
    pub(crate) fn block(&self, i: usize) -> [u8; BLOCK_SIZE]
        requires { 1 + i < length self.now.area.items }
        ensures { result ≡ block self.now.area.items (1 + i) }
    {
        self.area[1 + i]
    }

    // Where a block with this place goes: to the last one that has it, or behind them.
    fn slot(&self, place: u64) -> usize
        requires { self.now.count ≤ PLACES_MAX }
        ensures slot { IsSlot self.now.places self.now.count place result }
        ensures low { result ≤ self.now.count }
    {
        match self.find(place) {
            Some(i) => i,
            None => self.count,
        }
    }

    /// Gathers a block, in place of the one that has its place.
    pub(crate) fn put(&mut self, place: u64, bytes: &[u8; BLOCK_SIZE])
        requires buffer { IsBuffer self.old }
        requires room { self.old.count + 1 < length self.old.area.items }
        ensures put { (image : CrashFile) → replayed (entries_of self.new) image
            ≡ slice_set (replayed (entries_of self.old) image) place bytes.now }
        ensures count { self.new.count ≤ self.old.count + 1 }
        ensures in_place { IsPlace (entries_of self.old) place → self.new.count ≡ self.old.count }
        ensures places { (m : ℕ) → IsPlace (entries_of self.new) m ↔ ((m ≡ place) ⊎ IsPlace (entries_of self.old) m) }
        ensures buffer { IsBuffer self.new }
        ensures size { length self.new.area.items ≡ length self.old.area.items }
    {
        let i = self.slot(place);
        put_block(&mut self.area, i + 1, bytes);
        self.places[i] = place;
        self.count = self.count.max(i + 1);
    }

    /// Takes over what is gathered in another one, whose area is as long.
    pub(crate) fn copy_from(&mut self, other: &Self)
        requires other { IsBuffer other.now }
        requires size { length self.old.area.items ≡ length other.now.area.items }
        ensures entries { entries_of self.new ≡ entries_of other.now }
        ensures buffer { IsBuffer self.new }
        ensures size { length self.new.area.items ≡ length self.old.area.items }
    {
        self.area.copy_from_slice(&other.area);
        self.places = other.places;
        self.count = other.count;
    }

    /// Makes a batch of them, of this number: each is digested here, also one whose digest `put` told.
    pub(crate) fn seal(&mut self, number: u64)
        requires { IsBuffer self.old }
        ensures sealed { IsSealed number self.new }
        ensures entries { entries_of self.new ≡ entries_of self.old }
        ensures buffer { IsBuffer self.new }
        ensures size { length self.new.area.items ≡ length self.old.area.items }
        ensures count { self.new.count ≡ self.old.count }
    {
        let count = self.count;
        let digests = digests_of(&self.area, &self.places, count);
        seal(
            &mut self.area,
            number,
            &self.places[..count],
            &digests[..count],
        );
    }

    /// Takes the batch that its area has, if that has one whose number belongs to area `a`. Its number.
    pub(crate) fn load(&mut self, a: u64) -> Option<u64>
        requires buffer { IsBuffer self.old }
        requires none { self.old.count ≡ 0 }
        ensures taken { HasTaken (found_in self.old.area.items a) a self.new result }
        ensures buffer { IsBuffer self.new }
        ensures size { length self.new.area.items ≡ length self.old.area.items }
    {
        match read(&self.area) {
            None => None,
            Some(head) => self.take(&head, a),
        }
    }

    // Takes the batch of its area, whose head this is, if its number belongs to area `a`.
    fn take(&mut self, head: &Head, a: u64) -> Option<u64>
        requires buffer { IsBuffer self.old }
        requires none { self.old.count ≡ 0 }
        requires batch { is_batch self.old.area.items ≡ true }
        requires number { number_of head.now ≡ number_in self.old.area.items }
        requires count { count_of head.now ≡ count_in self.old.area.items }
        requires places { (i : ℕ) → i < PLACES_MAX → place_of head.now i ≡ place_in self.old.area.items i }
        ensures taken { HasTaken (found_in self.old.area.items a) a self.new result }
        ensures buffer { IsBuffer self.new }
        ensures size { length self.new.area.items ≡ length self.old.area.items }
    {
        let number = head.number();
        let parity = number % 2;
        if parity != a {
            return None;
        }
        self.count = take_places(head, &mut self.places);
        Some(number)
    }
}
