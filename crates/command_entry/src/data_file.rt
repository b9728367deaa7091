//! Files whose bytes stand beside an entry.

ghost use Rattle.std.specs.Prelude.{◌≡◌, ◌≤◌, OnOk, length};

use crate::kinds::Kind;
use crate::words::EntryWords;
use command_files::{DataFault, Failure, Files, MOST_OF_BLOCKS, object_refusal, read};
use std::alloc::Global;

/// All bytes of the file that words name, of any number; none where their kind has no file.
pub(crate) fn read_data<'a, F: Files>(
    alloc: Global,
    words: &EntryWords<'a>,
    files: &mut F,
) -> Result<Vec<u8>, Failure<'a>>
    ensures made { F.made files.new ≡ F.made files.old }
    ensures contents { F.contents files.new ≡ F.contents files.old }
{
    if words.kind.has_file() {
        read(words.path, MOST_OF_BLOCKS, files)
    } else {
        Ok(Vec::new(alloc))
    }
}

/// Checks the bytes of the file that words name: there are some, and no more than `most`; they are no object where they are to be
/// a program, and else whole blocks.
pub(crate) fn check_data<'a>(
    words: &EntryWords<'a>,
    input: &[u8],
    most: usize,
) -> Result<(), Failure<'a>>
    ensures { OnOk result (length input.now ≤ most) }
{
    let path = words.path;
    let bytes = input.len();
    let block = words.block.bytes();
    let fault = if bytes > most {
        DataFault::TooLong(bytes)
    } else if !words.kind.has_file() {
        return Ok(());
    } else if bytes == 0 {
        DataFault::Empty
    } else if let Kind::Load = words.kind {
        return match object_refusal(path, input) {
            Some(refusal) => Err(refusal),
            None => Ok(()),
        };
    } else if bytes % block as usize != 0 {
        DataFault::NotWholeBlocks { bytes, block }
    } else {
        return Ok(());
    };
    Err(Failure::DataRefused { path, fault })
}
