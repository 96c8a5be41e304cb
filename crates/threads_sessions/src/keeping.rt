//! Whether the commits of seats are kept in memory, said by a type.

/// Says by a type whether the commits of seats are kept.
pub trait Keeping {
    ghost use Rattle.std.specs.Prelude.{◌≡◌, Bool};

    ghost kept: { Bool };

    /// Whether they are.
    fn keeps() -> bool
        ensures { result ≡ kept };
}

/// They are kept in memory, and the end gives them.
pub struct Kept;

impl Keeping for Kept {
    ghost use Rattle.std.specs.Prelude.{true};

    ghost kept = { true };

    fn keeps() -> bool {
        true
    }
}

/// They are told to contracts alone, in no bytes.
pub struct Told;

impl Keeping for Told {
    ghost use Rattle.std.specs.Prelude.{false};

    ghost kept = { false };

    fn keeps() -> bool {
        false
    }
}
