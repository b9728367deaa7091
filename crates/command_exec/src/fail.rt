//! Where `exec` fails for refused commands, or ends at the first.

ghost use Rattle.std.specs.Prelude.{◌≡◌, IfSome, IsSome, None, true, false};
ghost use Rattle.command_exec.specs.Executed.{commands_of};
ghost use Rattle.command_exec.specs.Refused.{TellsRefused, asks_fail, asks_stop};

use crate::exec;
use clap::ArgMatches;
use command_files::Failure;
use command_files::arguments::required;

pub(crate) const FAIL: &str = "fail";

pub(crate) const STOP: &str = "stop";

/// Commands of a command file that the device refused: one at least.
#[derive(Clone, Copy, Debug, PartialEq, Eq)]
pub struct Refused {
    /// How many they are.
    pub commands: u64,
    /// The line of the first, the first line of the file being 1.
    pub line: usize,
}

/// The failure of an `exec` that has done its work: that commands were refused, where the words ask for that to be one. The image
/// is saved all the same.
pub fn failure_of<'a>(matches: &ArgMatches<'a>, refused: Option<Refused>) -> Option<Failure<'a>>
    ensures told { IfSome result (TellsRefused (commands_of matches.now) refused) }
    ensures asked { asks_fail matches.now ≡ true → IsSome refused → IsSome result }
    ensures stopped { asks_stop matches.now ≡ true → IsSome refused → IsSome result }
    ensures unasked { asks_fail matches.now ≡ false → asks_stop matches.now ≡ false → result ≡ None }
{
    let Refused { commands, line } = refused?;
    if !asks_fail(matches) && !asks_stop(matches) {
        return None;
    }
    Some(Failure::CommandsRefused {
        path: required(matches, exec::COMMANDS),
        line,
        commands,
    })
}

/// Are refused commands to be a failure?
fn asks_fail<'a>(matches: &ArgMatches<'a>) -> bool
    ensures { result ≡ asks_fail matches.now }
{
    required(matches, FAIL) == "true"
}

/// Is the first refused command to end the work?
pub(crate) fn asks_stop<'a>(matches: &ArgMatches<'a>) -> bool
    ensures { result ≡ asks_stop matches.now }
{
    required(matches, STOP) == "true"
}
