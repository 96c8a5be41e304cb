//! Runs the program `nsf-replay` on each case of a table, and prints whether it gives what the table says.
//!
//! The table is the standard input. The first byte of a line says what the line is:
//!
//! - `#` a comment;
//! - `=` the name of a case;
//! - `<` a line of its script, `+` the same without a line feed behind it, `*` a number and a line that stands so
//!   often;
//! - `~` the script cannot be read;
//! - `>` a line of its output;
//! - `!` a line with which its errors begin: with none there are no errors;
//! - `?` its exit status, 0 where this line is missing;
//! - `$` the words of a run, parted by spaces;
//! - `@` two numbers, and the words of runs: one with each stop from the first to the second, and with each fate;
//! - `%` the words of runs: one at each output that is too narrow, and at one that is just wide enough;
//! - an empty line ends the case.
//!
//! Behind the table it prints whether the program tells of words that can't be read as it should.
#![tactic(auto)]

mod case;
mod streams;
mod words;

use case::Case;
use std::io;
use std::io::Read;

fn main(rt: HostRuntime) -> io::Result<()> {
    let mut table = Vec::new(rt.alloc());
    rt.reader().read_to_end(&mut table)?;
    let mut case = Case::new(rt.alloc());
    let mut report = io::writer(&rt);
    let followed = case.follow_all(&rt, &table, &mut report);
    drop(case);
    drop(table);
    followed?;
    words::tell_each(rt.alloc(), &mut report)
}
