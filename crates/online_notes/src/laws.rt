//! One spelling, one note.
ghost use Rattle.std.specs.Prelude.{◌≡◌};
ghost use Rattle.online_model.specs.declared.note.Note.{Note};
ghost use Rattle.online_notes.specs.Spelling.{IsWritable, bytes_of};

/// A law: two notes with one spelling are one. Each note that `encode` writes is one of these (its clause `writable`),
/// so `decode` reads of the bytes the note that was written.
pub fn one_note()
    ensures { (m n : Note) → IsWritable m → IsWritable n → bytes_of m ≡ bytes_of n → m ≡ n }
{}
