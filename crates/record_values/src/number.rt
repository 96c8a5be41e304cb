//! Numbers of records.
ghost use Rattle.std.specs.Prelude.{◌≡◌, ◌≤◌, ◌↔◌, IsSome, IfSome};

use std::marker::Model;

/// The greatest number of a record.
pub const LAST_NUMBER: u64 = 1 << 62;

/// The number of a record, from 1 to `LAST_NUMBER`. Records are numbered
/// consecutively for the life of a device.
#[derive(Clone, Copy, Debug, PartialEq, Eq, PartialOrd, Ord, Hash)]
pub struct RecordNumber {
    number: u64,
}

impl Model for RecordNumber {
    ghost use Rattle.std.specs.Prelude.{ℕ, ◌≤◌};
    ghost use Rattle.record_values.specs.declared.number.TheConstants.{LAST_NUMBER};

    ghost Value = { ℕ };

    ghost view = { λ n. n.number };

    ghost invariant = { λ n. (1 ≤ n.number) × (n.number ≤ LAST_NUMBER) };

    ghost inverse = { λ n. record { number = n } };
}

impl RecordNumber {
    /// This number, where a record may have it.
    pub fn new(number: u64) -> Option<Self>
        ensures within { IsSome result ↔ ((1 ≤ number) × (number ≤ LAST_NUMBER)) }
        ensures value { IfSome result (λ n. n ≡ number) }
    {
        if number == 0 || LAST_NUMBER < number {
            return None;
        }
        Some(RecordNumber { number })
    }

    /// The number.
    pub fn get(self) -> u64
        ensures value { result ≡ self }
        ensures first { 1 ≤ result }
        ensures last { result ≤ LAST_NUMBER }
    {
        self.number
    }
}
