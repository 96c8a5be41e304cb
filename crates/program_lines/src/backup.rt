//! The store that is open is copied to a new file.
use crate::name::OpenName;
use program_files::{NotMoved, Refused};
use program_script::ByteText;
use std::fs::File;
use std::io::Write;
use std::rt::Files;

// Tells why the file of this name was refused.
fn tell<E: Write>(name: &str, why: &Refused, errors: &mut E) {
    let _ = writeln!(errors, "nsf-store: {name}: {why}");
}

// Tells why the store wasn't copied.
fn tell_why<E: Write>(old: &str, new: &str, refused: &NotMoved, errors: &mut E) {
    match refused {
        NotMoved::Old(why) => tell(old, why, errors),
        NotMoved::New(why) => tell(new, why, errors),
    }
}

/// Copies the store, which was flushed, to the new file of this name. Whether that was done; else the error stream says
/// why.
pub(crate) fn back_up<R: Files<File = File> + AllocGlobal, E: Write>(
    name: &OpenName<'_, R>,
    file: &ByteText,
    errors: &mut E,
) -> bool {
    // Graphic bytes are a text.
    let new = std::str::from_utf8(file.as_slice()).unwrap_or("");
    match name.copy_to(new) {
        Ok(()) => true,
        Err(refused) => {
            tell_why(name.path(), new, &refused, errors);
            false
        }
    }
}
