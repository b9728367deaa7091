//! The sizes of a run that a user asks for.

ghost use Rattle.std.specs.Prelude.{◌≡◌, ◌<◌, codes, IfErr, IfOk, OnErr, Some};
ghost use Rattle.clap.specs.Matches.{found_of, first_value};
ghost use Rattle.program_interface.specs.RunSizes.{sizes_with};
ghost use Rattle.command_programs.specs.Asked.{IsLimit};
ghost use Rattle.command_programs.specs.steps.Sizes.{SpellsNoLimit};

use clap::ArgMatches;
use command_files::Failure;
use command_files::arguments::{EMIT_OPTION, number};
use program_interface::{BlockSize, RunSizes};

/// As many bytes as `--emit` says, or 0 where it says nothing. Where its word spells no number of 32 bits, this is
/// told, with the least and the most.
pub(crate) fn limit<'a>(matches: &ArgMatches<'a>) -> Result<u32, Failure<'a>>
    ensures asked { IfOk result (IsLimit matches.now (first_value (found_of matches.now) (codes "emit"))) }
    ensures told { IfErr result (SpellsNoLimit matches.now) }
{
    match matches.get_str(EMIT_OPTION) {
        Some(_) => number(matches, EMIT_OPTION),
        None => Ok(0),
    }
}

/// Blocks of this size, for each of which at most so many bytes may be emitted. Where a block has fewer, both numbers
/// are told.
///
/// # Errors
///
/// [`Failure::EmitExceedsBlock`] where a block has fewer.
pub(crate) fn run_sizes<'a>(block: BlockSize, limit: u32) -> Result<RunSizes, Failure<'a>>
    ensures sizes { IfOk result (λ sizes. sizes_with block limit ≡ Some sizes) }
    ensures told { IfErr result (λ failure. failure ≡ Failure.EmitExceedsBlock limit block) }
    ensures exceeds { OnErr result (block < limit) }
{
    match RunSizes::new(block, limit) {
        Some(sizes) => Ok(sizes),
        None => Err(Failure::EmitExceedsBlock {
            emit: limit,
            block: block.bytes(),
        }),
    }
}
