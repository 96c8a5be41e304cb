//! Transactions.
use std::marker::Model;

/// How many transactions are active at most.
pub const TXNS_MAX: usize = 16;

/// The number of a transaction, from 1.
#[derive(Clone, Copy, Debug, PartialEq, Eq, PartialOrd, Ord, Hash)]
pub struct Txn {
    number: u64,
}

impl Model for Txn {
    ghost use Rattle.std.specs.Prelude.{ℕ, ◌≤◌};

    ghost Value = { ℕ };

    ghost view = { λ t. t.number };

    ghost invariant = { λ t. 1 ≤ t.number };

    ghost inverse = { λ n. record { number = n } };
}

impl Txn {
    ghost use Rattle.std.specs.Prelude.{◌≡◌, ◌≤◌, ◌↔◌, IsSome, IfSome};

    /// This number, where a transaction may have it.
    pub fn new(number: u64) -> Option<Self>
        ensures begun { IsSome result ↔ (1 ≤ number) }
        ensures value { IfSome result (λ t. t ≡ number) }
    {
        if number == 0 {
            None
        } else {
            Some(Txn { number })
        }
    }

    /// The number.
    pub fn number(self) -> u64
        ensures value { result ≡ self }
        ensures begun { 1 ≤ result }
    {
        self.number
    }
}
