//! A command's words as a table, and the parser of a table.

use clap::{Arg, ArgAction, ArgGroup, Command};
use std::alloc::{AllocError, Global};

/// How a command stands on the command line.
#[derive(Clone, Copy)]
pub struct Words {
    /// The word that names it.
    pub name: &'static str,
    /// What it does, in one line.
    pub about: &'static str,
    /// What its own help says in place of that line; nothing where it says no more.
    pub long_about: &'static str,
    /// What its help ends with: an example.
    pub example: &'static str,
    /// What follows its name, in the order of its help.
    pub arguments: &'static [Argument],
    /// The arguments of which just one has to be given, if there are such.
    pub one_of: &'static [&'static str],
}

/// Something that follows a command's name.
#[derive(Clone, Copy)]
pub struct Argument {
    /// The name by which its value is read.
    pub id: &'static str,
    /// The word of an option, after `--`; nothing for a word in its place.
    pub long: &'static str,
    /// A letter that stands for the option too, after `-`.
    pub short: Option<char>,
    pub takes: Takes,
    pub help: &'static str,
}

/// Which value an argument takes. Help shows a value by a word of its own.
#[derive(Clone, Copy)]
pub enum Takes {
    /// The word in its place, which has to be there.
    Place,
    /// The word in its place, which can be left out, and with which this option has to be given.
    PlaceWith(&'static str),
    /// None: a flag.
    Nothing,
    /// None: a flag that is given with the first of these alone, and never with the second.
    NothingWithout(&'static str, &'static str),
    /// One that has to be given.
    Required(&'static str),
    /// One that can be left out.
    Optional(&'static str),
    /// One that can be left out, and with which the second of these has to be given.
    OptionalWith(&'static str, &'static str),
    /// One, and where it isn't given the second of these.
    Default(&'static str, &'static str),
    /// One of these words, and where it isn't given the second of these.
    OneOf(&'static str, &'static str, &'static [&'static str]),
}

/// The parser of a command.
///
/// # Errors
///
/// Want of memory.
pub fn command<'a>(alloc: Global, words: &'static Words) -> Result<Command<'a>, AllocError> {
    let mut command = described(alloc, words);
    for argument in words.arguments {
        command = command.arg(parsed(alloc, argument)?)?;
    }
    if words.one_of.is_empty() {
        return Ok(command);
    }
    let group = ArgGroup::new(alloc, "one")
        .required(true)
        .args(words.one_of)?;
    command.group(group)
}

/// The parser of a command that has commands below it, of which one has to be named.
///
/// # Errors
///
/// Want of memory.
pub fn command_over<'a>(
    alloc: Global,
    words: &'static Words,
    below: &'static [Words],
) -> Result<Command<'a>, AllocError> {
    let mut over = described(alloc, words)
        .subcommand_required(true)
        .arg_required_else_help(true);
    for words in below {
        over = over.subcommand(command(alloc, words)?)?;
    }
    Ok(over)
}

/// A command with its texts alone.
fn described<'a>(alloc: Global, words: &'static Words) -> Command<'a> {
    let command = Command::new(alloc, words.name).about(words.about);
    let command = if words.long_about.is_empty() {
        command
    } else {
        command.long_about(words.long_about)
    };
    if words.example.is_empty() {
        command
    } else {
        command.after_help(words.example)
    }
}

/// The parser of an argument.
fn parsed<'a>(alloc: Global, argument: &'static Argument) -> Result<Arg<'a>, AllocError> {
    let parsed = Arg::new(alloc, argument.id).help(argument.help);
    Ok(match argument.takes {
        Takes::Place => parsed.required(true),
        Takes::PlaceWith(needed) => parsed.requires_arg(needed)?,
        Takes::Nothing => flag(parsed, argument),
        Takes::NothingWithout(needed, excluded) => flag(parsed, argument)
            .requires_arg(needed)?
            .conflicts_with(excluded)?,
        Takes::Required(value) => valued(parsed, argument, value).required(true),
        Takes::Optional(value) => valued(parsed, argument, value),
        Takes::OptionalWith(value, needed) => {
            valued(parsed, argument, value).requires_arg(needed)?
        }
        Takes::Default(value, default) => valued(parsed, argument, value).default_value(default),
        Takes::OneOf(value, default, words) => valued(parsed, argument, value)
            .default_value(default)
            .value_parser(words),
    })
}

/// The parser of a flag.
fn flag<'a>(parsed: Arg<'a>, argument: &'static Argument) -> Arg<'a> {
    parsed.long(argument.long).action(ArgAction::SetTrue)
}

/// The parser of an option with a value, which help shows by this word.
fn valued<'a>(parsed: Arg<'a>, argument: &'static Argument, value: &'static str) -> Arg<'a> {
    let parsed = parsed
        .long(argument.long)
        .value_name(value)
        .action(ArgAction::Set);
    match argument.short {
        Some(letter) => parsed.short(letter),
        None => parsed,
    }
}
