//! Sets of slots of a page.
ghost use Rattle.std.specs.Prelude.{◌≡◌, ◌≢◌, ◌<◌, ◌^◌, ◌↔◌, ℕ, Some, true, false, IsTrue, IfSome, IfNone};
ghost use Rattle.std.specs.Prelude.{slice_get, slice_set, replicate, if◌then◌else◌};
ghost use Rattle.std.specs.Int.{bit_at};

use records::SLOTS_PER_PAGE;
use std::marker::Model;

// The bits of all slots.
const ALL: u64 = (1 << SLOTS_PER_PAGE) - 1;

/// Some of a page's slots, or of a run of as many pages, a bit for each. To a contract it tells of each in turn whether
/// it is one of them.
#[derive(Drop)]
pub(crate) struct SlotSet {
    bits: u64,
}

impl Model for SlotSet {
    ghost use Rattle.std.specs.Prelude.{◌<◌, ◌^◌, List, Bool};
    ghost use Rattle.record_values.specs.declared.rid.TheConstants.{SLOTS_PER_PAGE};
    ghost use Rattle.heap_pages.specs.SlotSets.{flags_of};

    ghost Value = { List Bool };

    ghost view = { λ s. flags_of s.bits };

    ghost invariant = { λ s. s.bits < 2 ^ SLOTS_PER_PAGE };
}

// The bits with that of the slot as told.
fn with_bit(bits: u64, slot: u16, is_in: bool) -> u64
    requires few { bits < 2 ^ SLOTS_PER_PAGE }
    requires inside { slot < SLOTS_PER_PAGE }
    ensures few { result < 2 ^ SLOTS_PER_PAGE }
    ensures bit { bit_at result slot ≡ (if is_in then 1 else 0) }
    ensures others { (i : ℕ) → i < 64 → i ≢ slot → bit_at result i ≡ bit_at bits i }
{
    let bit = 1 << slot;
    if is_in { bits | bit } else { bits & !bit }
}

impl SlotSet {
    /// None of the slots.
    pub(crate) fn none() -> Self
        ensures { result ≡ replicate SLOTS_PER_PAGE false }
    {
        SlotSet { bits: 0 }
    }

    /// All slots.
    pub(crate) fn all() -> Self
        ensures { result ≡ replicate SLOTS_PER_PAGE true }
    {
        SlotSet { bits: ALL }
    }

    /// Puts the slot in, or takes it out.
    pub(crate) fn put(&mut self, slot: u16, is_in: bool)
        requires { slot < SLOTS_PER_PAGE }
        ensures { self.new ≡ slice_set self.old slot is_in }
    {
        self.bits = with_bit(self.bits, slot, is_in);
    }

    /// Whether it has the slot.
    pub(crate) fn has(&self, slot: u16) -> bool
        requires { slot < SLOTS_PER_PAGE }
        ensures { slice_get self.now slot ≡ Some result }
    {
        (self.bits >> slot) & 1 == 1
    }

    /// Whether it has no slot.
    pub(crate) fn is_empty(&self) -> bool
        ensures { IsTrue result ↔ ((s : ℕ) → s < SLOTS_PER_PAGE → slice_get self.now s ≡ Some false) }
    {
        self.bits == 0
    }

    /// Whether it has each slot.
    pub(crate) fn is_all(&self) -> bool
        ensures { IsTrue result → (s : ℕ) → s < SLOTS_PER_PAGE → slice_get self.now s ≡ Some true }
    {
        self.bits == ALL
    }

    /// The first of the slots that the other set has not.
    pub(crate) fn first_beside(&self, other: &SlotSet) -> Option<u16>
        ensures found { IfSome result (λ s.
            (slice_get self.now s ≡ Some true) × (slice_get other.now s ≡ Some false)) }
        ensures first { IfSome result (λ s. (t : ℕ) → t < s
            → slice_get self.now t ≡ Some true → slice_get other.now t ≡ Some true) }
        ensures none { IfNone result ((t : ℕ)
            → slice_get self.now t ≡ Some true → slice_get other.now t ≡ Some true) }
    {
        let bits = self.bits & !other.bits;
        if bits == 0 {
            return None;
        }
        Some(bits.trailing_zeros() as u16)
    }
}
