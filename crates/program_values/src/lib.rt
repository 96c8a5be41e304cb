//! The values of the program `nsf-replay`: what its arguments ask for, and the lines that it prints.
//!
//! Proved: the text of each answer, to the byte (`answer_text`); what is asked for where arguments are left out
//! (`Options::with_defaults`); which fate a name names (`fate_named`; the law `each_fate_has_a_name`).
#![tactic(auto)]

mod answer;
mod given;
mod step;
mod text;

pub use answer::Answer;
pub use given::{Arguments, FATES, Options, each_fate_has_a_name, fate_named};
pub use step::Step;
pub use text::PairText;
