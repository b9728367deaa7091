//! The profile that a program is judged by.

ghost use Rattle.std.specs.Prelude.{◌≡◌, codes, IfErr, IfOk, Some};
ghost use Rattle.command_files.specs.Arguments.{number_of};
ghost use Rattle.command_files.specs.Profile.{IsToldOfProfile, profile_number};

use crate::arguments::{not_in_range, required};
use crate::failure::Failure;
use clap::ArgMatches;
use text_lines::decimal;

/// The option that gives the number of a profile: 2 where it isn't given.
pub const PROFILE: &str = "profile";

/// A profile: by what is known of words it is judged which programs are accepted.
#[derive(Clone, Copy)]
pub enum Profile {
    /// Profile 2, by which a Load judges: words between bounds, and addresses near an area's.
    Two,
    /// Profile 3: the same, where addresses are words too.
    Three,
}

/// The profile whose number the option spells. Where it spells no other number than 2 and 3, the option, its word, and these two
/// are told.
///
/// # Errors
///
/// [`Failure::NotInRange`] where the word spells neither.
pub fn profile_asked<'a>(matches: &ArgMatches<'a>) -> Result<Profile, Failure<'a>>
    ensures asked { IfOk result (λ profile. number_of matches.now (codes "profile") ≡ Some (profile_number profile)) }
    ensures told { IfErr result (IsToldOfProfile matches.now) }
{
    match decimal(required(matches, PROFILE).as_bytes()) {
        Some(2) => Ok(Profile::Two),
        Some(3) => Ok(Profile::Three),
        _ => Err(not_in_range(matches, PROFILE, 2, 3)),
    }
}
