//! The name under which a file was opened.
use program_files::{NotMoved, copy_beside};
use std::fs::File;
use std::rt::Files;
use store_file::{FileNumber, number_at};

/// The name under which a file was opened, and which file that is, where the system has told.
#[derive(Drop)]
pub(crate) struct OpenName<'a, R> {
    rt: &'a R,
    path: &'a str,
    number: Option<FileNumber>,
}

impl<'a, R: Files> OpenName<'a, R> {
    /// That of the file of this number, which was opened.
    pub(crate) fn new(rt: &'a R, path: &'a str, number: Option<FileNumber>) -> Self {
        OpenName { rt, path, number }
    }

    /// Whether the file has this name no more. Where the system doesn't tell, it is taken to have it.
    pub(crate) fn is_lost(&self) -> bool {
        match number_at(self.rt, self.path) {
            Ok(found) => self.number.is_some() && found != self.number,
            Err(_) => false,
        }
    }

    /// The name.
    pub(crate) fn path(&self) -> &str {
        self.path
    }
}

impl<'a, R: Files<File = File> + AllocGlobal> OpenName<'a, R> {
    /// Copies the store in the file, which was flushed, to a new file. Refused where the file doesn't have this name.
    pub(crate) fn copy_to(&self, new: &str) -> Result<(), NotMoved> {
        copy_beside(self.rt, self.path, self.number, new)
    }
}
