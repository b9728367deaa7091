//! Flags of a command line.

ghost use Rattle.std.specs.Prelude.{◌≡◌};
ghost use Rattle.command_programs.specs.Asked.{is_set};

use clap::ArgMatches;
use command_files::arguments::required;
use command_words::{Argument, Takes};

pub(crate) const JSON: &str = "json";

/// The flag that asks for one JSON object in place of lines.
pub(crate) const JSON_ARGUMENT: Argument = Argument {
    id: JSON,
    long: JSON,
    short: None,
    takes: Takes::Nothing,
    help: "Print one JSON object",
};

/// Is this flag set?
pub(crate) fn is_set(matches: &ArgMatches<'_>, flag: &str) -> bool
    ensures { result ≡ is_set matches.now flag.now }
{
    required(matches, flag) == "true"
}
