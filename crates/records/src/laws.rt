//! Laws of numbers as bytes, for the formats above that spell them.
ghost use Rattle.std.specs.Prelude.{◌≡◌, ◌<◌, ◌^◌, ◌++◌, List, ℕ};
ghost use Rattle.records.specs.Spelling.{u16, u32, u64};

/// Two, four or eight bytes are the spelling of one number.
pub fn one_number()
    ensures two { (m n : ℕ) (s t : List ℕ) → m < 2 ^ 16 → n < 2 ^ 16 → u16 m ++ s ≡ u16 n ++ t → (m ≡ n) × (s ≡ t) }
    ensures four { (m n : ℕ) (s t : List ℕ) → m < 2 ^ 32 → n < 2 ^ 32 → u32 m ++ s ≡ u32 n ++ t → (m ≡ n) × (s ≡ t) }
    ensures eight { (m n : ℕ) (s t : List ℕ) → m < 2 ^ 64 → n < 2 ^ 64 → u64 m ++ s ≡ u64 n ++ t → (m ≡ n) × (s ≡ t) }
{}
