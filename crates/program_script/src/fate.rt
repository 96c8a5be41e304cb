//! Fates of what was not yet synced.

/// What a crash does with each sector that was written and not yet synced.
#[derive(Clone, Copy)]
pub enum Fate {
    /// It is as before the write: `old`.
    Old,
    /// It is as written: `new`.
    New,
    /// It is all zeros: `zero`.
    Zero,
    /// It has the byte of a gate everywhere: `a5`.
    Gate,
    /// It has bytes that no one wrote: `junk`.
    Junk,
}

impl Fate {
    ghost use Rattle.std.specs.Prelude.{◌≡◌};
    ghost use Rattle.program_script.specs.Reading.{fate_at};

    /// The fate of this name, where it is one.
    pub(crate) fn named(word: &[u8]) -> Option<Self>
        ensures { result ≡ fate_at word.now }
    {
        if word == b"old".as_slice() {
            Some(Fate::Old)
        } else if word == b"new".as_slice() {
            Some(Fate::New)
        } else if word == b"zero".as_slice() {
            Some(Fate::Zero)
        } else if word == b"a5".as_slice() {
            Some(Fate::Gate)
        } else if word == b"junk".as_slice() {
            Some(Fate::Junk)
        } else {
            None
        }
    }
}
