//! What the words of the verb `scan` ask for.
use clap::ArgMatches;
use std::alloc::{AllocError, Global};

/// The range of the index that is to be shown, and what of it.
#[derive(Drop)]
pub struct ScanArguments {
    /// The first key and the last one, as words of a script.
    pub first: Option<String>,
    pub last: Option<String>,
    /// What each key begins with, likewise. It comes without a first key.
    pub prefix: Option<String>,
    /// Whether the last pair is to be shown first.
    pub is_back: bool,
    /// How many pairs are to be shown at most.
    pub limit: Option<u32>,
    /// Whether it is only to be told how many there are.
    pub counts: bool,
}

/// The word that was given under this name, if one was.
pub(crate) fn word_in(
    alloc: Global,
    matches: &ArgMatches<'_>,
    name: &str,
) -> Result<Option<String>, AllocError> {
    match matches.get_str(name) {
        Some(word) => Ok(Some(String::from_str(alloc, word)?)),
        None => Ok(None),
    }
}

/// What is asked for of a scan.
pub(crate) fn scan_of(
    alloc: Global,
    matches: &ArgMatches<'_>,
) -> Result<ScanArguments, AllocError> {
    Ok(ScanArguments {
        first: word_in(alloc, matches, "FROM")?,
        last: word_in(alloc, matches, "TO")?,
        prefix: word_in(alloc, matches, "prefix")?,
        is_back: matches.get_flag("back"),
        limit: matches.get_one::<u32>("limit"),
        counts: matches.get_flag("count"),
    })
}
