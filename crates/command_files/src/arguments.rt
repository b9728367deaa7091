//! The words that follow a command's name.

ghost use Rattle.std.specs.Prelude.{◌≡◌, ◌≤◌, IfErr, IfOk, None, OnErr, Some};
ghost use Rattle.program_interface.specs.BlockSize.{block_size as size_of_bytes};
ghost use Rattle.command_files.specs.Arguments.{number_of, number_or_hexadecimal_of, value_of};
ghost use Rattle.command_files.specs.UserTold.{IsNotInRange, SpellsNone, SpellsNoneOrHexadecimal};

use crate::failure::Failure;
use crate::numbers::decimal_or_hexadecimal;
use clap::error::ErrorKind;
use clap::{ArgMatches, Command};
use command_words::{Argument, Takes};
use image_store::GeometryRefusal;
use program_interface::BlockSize;
use text_lines::decimal;

/// The name of [`BLOCK_ARGUMENT`].
pub const BLOCK_OPTION: &str = "block";

/// The name of [`EMIT_ARGUMENT`].
pub const EMIT_OPTION: &str = "emit";

/// The name of [`RUN_ARGUMENT`].
pub const ARGUMENT_OPTION: &str = "argument";

/// The name of [`PROGRAM_ARGUMENT`].
pub const PROGRAM: &str = "PROGRAM";

/// The option that gives the bytes of a block, which is required.
pub const BLOCK_ARGUMENT: Argument = Argument {
    id: BLOCK_OPTION,
    long: BLOCK_OPTION,
    short: None,
    takes: Takes::Required("B"),
    help: "Bytes of a block: a power of 2 from 512 to 16384",
};

/// The option that gives the most bytes that may be emitted for a block, which is required.
pub const EMIT_ARGUMENT: Argument = Argument {
    id: EMIT_OPTION,
    long: EMIT_OPTION,
    short: None,
    takes: Takes::Required("E"),
    help: "The most bytes that may be emitted for a block, two for each record counted: at most a block's",
};

/// The option that gives a run's argument, 0 where it isn't given.
pub const RUN_ARGUMENT: Argument = Argument {
    id: ARGUMENT_OPTION,
    long: ARGUMENT_OPTION,
    short: None,
    takes: Takes::Default("A", "0"),
    help: "The argument of the run, a number that the program is told",
};

/// The argument that names the file of a program.
pub const PROGRAM_ARGUMENT: Argument = Argument {
    id: PROGRAM,
    long: "",
    short: None,
    takes: Takes::Place,
    help: "The program, as instruction bytes",
};

/// Why a command line that names no command is wrong.
pub fn no_command<'a>(line: &mut Command<'a>) -> Failure<'a> {
    match line.error(ErrorKind::MissingSubcommand, "a command is required") {
        Ok(error) => Failure::from(error),
        Err(error) => Failure::from(error),
    }
}

/// The value of an argument that is required or has a default: the first that the command line has for it, or no bytes
/// where it has none. A command line that leaves it without one is refused before this.
pub fn required<'a>(matches: &ArgMatches<'a>, id: &str) -> &'a str
    ensures { result.now ≡ value_of matches.now id.now }
{
    match matches.get_str(id) {
        Some(value) => value,
        None => "",
    }
}

/// The number that the word of an option spells, which is required or has a default, from 0 to what 32 bits hold: in
/// decimal digits alone. Where it spells none such, the option, its word, and the least and the most are told.
///
/// # Errors
///
/// [`Failure::NotInRange`] where the word spells no such number.
pub fn number<'a>(matches: &ArgMatches<'a>, option: &'a str) -> Result<u32, Failure<'a>>
    ensures value { IfOk result (λ number. number_of matches.now option.now ≡ Some number) }
    ensures unspelled { IfErr result (SpellsNone matches.now option.entry 0 4294967295) }
{
    match decimal(required(matches, option).as_bytes()) {
        Some(number) => Ok(number),
        None => Err(not_in_range(matches, option, 0, u64::from(u32::MAX))),
    }
}

/// The same in decimal digits, or in hexadecimal ones behind `0x`.
///
/// # Errors
///
/// [`Failure::NotInRange`] where the word spells no such number.
pub fn number_or_hexadecimal<'a>(
    matches: &ArgMatches<'a>,
    option: &'a str,
) -> Result<u32, Failure<'a>>
    ensures value { IfOk result (λ number. number_or_hexadecimal_of matches.now option.now ≡ Some number) }
    ensures unspelled { IfErr result (SpellsNoneOrHexadecimal matches.now option.entry 0 4294967295) }
{
    match number_or_hexadecimal_in_range(matches, option, 0, u64::from(u32::MAX)) {
        Ok(number) => Ok(number as u32),
        Err(failure) => Err(failure),
    }
}

/// The same, from `least` to `most`.
///
/// # Errors
///
/// [`Failure::NotInRange`] where the word spells no such number.
pub fn number_or_hexadecimal_in_range<'a>(
    matches: &ArgMatches<'a>,
    option: &'a str,
    least: u64,
    most: u64,
) -> Result<u64, Failure<'a>>
    ensures value { IfOk result (λ number. number_or_hexadecimal_of matches.now option.now ≡ Some number) }
    ensures low { IfOk result (λ number. least ≤ number) }
    ensures high { IfOk result (λ number. number ≤ most) }
    ensures unspelled { IfErr result (SpellsNoneOrHexadecimal matches.now option.entry least most) }
{
    match decimal_or_hexadecimal(required(matches, option)) {
        Some(number) if least <= number && number <= most => Ok(number),
        _ => Err(not_in_range(matches, option, least, most)),
    }
}

/// The failure that tells this option, its word, and the least and the most.
pub fn not_in_range<'a>(
    matches: &ArgMatches<'a>,
    option: &'a str,
    least: u64,
    most: u64,
) -> Failure<'a>
    ensures { IsNotInRange matches.now option.entry least most result }
{
    Failure::NotInRange {
        option,
        word: required(matches, option),
        least,
        most,
    }
}

/// The block size of so many bytes. Where no block has as many, this number is told.
///
/// # Errors
///
/// [`Failure::GeometryRefused`] where no block has as many, as `format` tells it.
pub fn block_size<'a>(bytes: u32) -> Result<BlockSize, Failure<'a>>
    ensures same { IfOk result (λ block. block ≡ bytes) }
    ensures told { IfErr result (λ failure. failure ≡ Failure.GeometryRefused (GeometryRefusal.BlockSize bytes)) }
    ensures refused { OnErr result (size_of_bytes bytes ≡ None) }
{
    match BlockSize::new(bytes) {
        Some(size) => Ok(size),
        None => Err(Failure::GeometryRefused(GeometryRefusal::BlockSize(bytes))),
    }
}
