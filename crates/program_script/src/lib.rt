//! Scripts of commands: the values of commands, and their reader.
//!
//! Proved: `Ok` of `read` is just the commands of the script's lines (`ok`); `BadScript` names the first line that is
//! none (`err`). No line is two commands (the law `one_command`), none that is left out is one (`no_command_left_out`),
//! and each command within its limits has a line (`each_has_a_line`). Beside the commands stand lines for those who
//! work with a store: `read_shell_line` answers just what a line spells (`spelled`, `none`). No line is two of these
//! (`one_shell_line`), and none of them is a command (`no_command_of_the_shell`). `read_bytes` reads a single word.
//! Only tested (`scripts/refuse-memory`): that want of memory comes with a refused allocation alone.
#![tactic(auto)]

mod byte_text;
mod command;
mod fate;
mod laws;
mod line;
mod lines;
mod parts;
mod scan;
mod shell_line;
mod word;

pub use byte_text::ByteText;
pub use command::Command;
pub use fate::Fate;
pub use laws::{
    each_has_a_line, no_command_left_out, no_command_of_the_shell, one_command, one_shell_line,
};
pub use lines::{LINES_MAX, read};
pub use scan::{Scan, Span};
pub use shell_line::{ShellLine, read_shell_line};
pub use word::{STEPS_MAX, read_bytes};
