//! What the user is told of options of a command line.

ghost use Rattle.std.specs.Prelude.{◌≡◌, []};
ghost use Rattle.command_files.specs.Lines.{emit_text, no_block_size, no_number, range_line};
ghost use Rattle.command_files.specs.Pieces.{pieces_text, text_with};
ghost use Rattle.command_files.specs.Shown.{shown};

use crate::arguments::BLOCK_OPTION;
use crate::pieces::Piece::{Named, Nothing, Number, Plain};
use crate::pieces::Pieces;

/// The word of an option that is not what is wanted there.
pub(crate) fn of_word<'p>(option: &'p str, word: &'p str, least: u64, most: u64) -> Pieces<'p>
    ensures { pieces_text result ≡ range_line option.now (shown word.now) least most }
{
    if option == BLOCK_OPTION {
        of_block(option, word)
    } else {
        of_range(option, word, least, most)
    }
}

/// The word of an option that is no block size.
fn of_block<'p>(option: &'p str, word: &'p str) -> Pieces<'p>
    ensures { pieces_text result ≡ no_block_size option.now (shown word.now) }
{
    [
        Plain("--"),
        Plain(option),
        Plain(": '"),
        Named(word),
        Plain("' is not a block size (512, 1024, 2048, 4096, 8192 or 16384)\n"),
        Nothing,
        Nothing,
    ]
}

/// The word of an option that is no number from the least to the most.
fn of_range<'p>(option: &'p str, word: &'p str, least: u64, most: u64) -> Pieces<'p>
    ensures { pieces_text result ≡ no_number option.now (shown word.now) least most }
{
    [
        Plain("--"),
        Plain(option),
        Plain(": '"),
        Named(word),
        Number("' is not a number from ", least),
        Number(" to ", most),
        Plain("\n"),
    ]
}

/// More bytes to be emitted than a block has.
pub(crate) fn of_emit<'p>(emit: u32, block: u32) -> Pieces<'p>
    ensures { pieces_text result ≡ text_with [] (emit_text emit block) }
{
    [
        Number("--emit gives ", emit as u64),
        Number(" bytes, and a block has ", block as u64),
        Plain("\nemit exceeds block\n"),
        Nothing,
        Nothing,
        Nothing,
        Nothing,
    ]
}
