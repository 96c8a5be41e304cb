//! What the command lines are made of.
ghost use Rattle.std.specs.Prelude.{◌≡◌, IfOk, Some, pos};
ghost use Rattle.clap.specs.Words.{NarrowsTo, app_of, with_rule};
ghost use Rattle.clap.specs.declared.builder.value_parser.ValueParser.TheVariants.{Signed};
ghost use Rattle.program_arguments.specs.CommandLine.{option_of, versioned_app};

use crate::{VERSION, option_named};
use clap::builder::ValueParser;
use clap::{Arg, ArgAction, Command, value_parser};
use std::alloc::{AllocError, Global};

/// How an argument is given.
#[derive(Clone, Copy)]
pub(crate) enum Takes {
    /// As `--name` alone.
    Nothing,
    /// As `--name` and a word, which help calls so.
    Word(&'static str),
    /// As `--name` and a number, which help calls so, not below the first of these and not above the second.
    Number(&'static str, u32, u32),
    /// As `--name` and one of these words, which help calls so.
    Name(&'static str, &'static [&'static str]),
    /// As a word in its place, which has to be there.
    Needed,
    /// As a word in its place, which may be left out.
    Wanted,
}

/// An argument of a command line.
pub(crate) struct Form {
    pub(crate) name: &'static str,
    pub(crate) takes: Takes,
    /// Another one, which isn't given beside it.
    pub(crate) apart_from: Option<&'static str>,
    /// What help says of it.
    pub(crate) help: &'static str,
}

/// A program of this name, with the version, and what help says of it.
pub(crate) fn program_named<'a>(alloc: Global, name: &'a str, about: &'a str) -> Command<'a>
    ensures { app_of result ≡ versioned_app name.entry.now }
{
    Command::new(alloc, name).version(VERSION).about(about)
}

fn flag_arg<'a>(alloc: Global, name: &'a str, help: &'a str) -> Arg<'a> {
    Arg::new(alloc, name)
        .long(name)
        .action(ArgAction::SetTrue)
        .help(help)
}

fn word_arg<'a>(alloc: Global, name: &'a str, value: &'a str, help: &'a str) -> Arg<'a> {
    Arg::new(alloc, name)
        .long(name)
        .value_name(value)
        .help(help)
}

fn place_arg<'a>(alloc: Global, name: &'a str, is_needed: bool, help: &'a str) -> Arg<'a> {
    Arg::new(alloc, name).required(is_needed).help(help)
}

/// What takes the numbers from the first to the second.
pub(crate) fn numbers<'a>(least: i64, most: i64) -> ValueParser<'a>
    ensures { NarrowsTo (Signed (pos 0) (pos 4294967295)) (Some least) (Some most) result }
{
    value_parser!(u32).range(least..=most)
}

// The argument of this form, whatever is given beside it.
fn arg_alone<'a>(alloc: Global, form: &'a Form) -> Arg<'a> {
    let name = form.name;
    let help = form.help;
    match form.takes {
        Takes::Nothing => flag_arg(alloc, name, help),
        Takes::Word(value) => word_arg(alloc, name, value, help),
        Takes::Number(value, least, most) => {
            option_named(
                alloc,
                name,
                value,
                numbers(i64::from(least), i64::from(most)),
                help,
            )
        }
        Takes::Name(value, names) => {
            option_named(alloc, name, value, ValueParser::from(names), help)
        }
        Takes::Needed => place_arg(alloc, name, true, help),
        Takes::Wanted => place_arg(alloc, name, false, help),
    }
}

fn arg_of<'a>(alloc: Global, form: &'a Form) -> Result<Arg<'a>, AllocError> {
    let arg = arg_alone(alloc, form);
    match form.apart_from {
        Some(other) => arg.conflicts_with(other),
        None => Ok(arg),
    }
}

// The command with one argument more. What falls by the way is let go of by a call.
fn with_form<'a>(
    alloc: Global,
    command: Command<'a>,
    form: &'a Form,
) -> Result<Command<'a>, AllocError> {
    match arg_of(alloc, form) {
        Ok(arg) => command.arg(arg),
        Err(error) => {
            drop(command);
            Err(error)
        }
    }
}

/// The command with these arguments more, in their order.
pub(crate) fn with_forms<'a>(
    alloc: Global,
    command: Command<'a>,
    forms: &'a [Form],
) -> Result<Command<'a>, AllocError> {
    let mut all = command;
    for form in forms {
        all = with_form(alloc, all, form)?;
    }
    Ok(all)
}
