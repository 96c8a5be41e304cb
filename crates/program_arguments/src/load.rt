//! What the words of the verb `load` ask for.
use crate::scan::word_in;
use clap::ArgMatches;
use std::alloc::{AllocError, Global};

/// The rows that are to be loaded.
#[derive(Drop)]
pub struct LoadArguments {
    /// The path of the file that has them.
    pub rows: String,
    /// The names of their columns, where they are given.
    pub key: Option<String>,
    pub body: Option<String>,
    /// Whether the first record is a row, and no header.
    pub has_no_header: bool,
    /// Whether the count of rows is shown.
    pub shows_progress: bool,
}

/// What is asked for of a load.
pub(crate) fn load_of(
    alloc: Global,
    matches: &ArgMatches<'_>,
) -> Result<LoadArguments, AllocError> {
    Ok(LoadArguments {
        rows: String::from_str(alloc, matches.get_str("ROWS").unwrap_or(""))?,
        key: word_in(alloc, matches, "key")?,
        body: word_in(alloc, matches, "body")?,
        has_no_header: matches.get_flag("no-header"),
        shows_progress: matches.get_flag("progress"),
    })
}
