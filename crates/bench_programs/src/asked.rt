//! What is asked for: a program, a block and how often.

use program_interface::BlockSize;
use std::alloc::Global;
use std::env::Args;
use std::rt::Files;
use std::{fs, io};

/// What is timed: a program over a block, so often in each of some rounds.
#[derive(Drop)]
pub struct Asked {
    /// The bytes of the program.
    pub program: Vec<u8>,
    /// The block.
    pub block: Vec<u8>,
    /// The size that a block of its length has.
    pub size: BlockSize,
    /// The rounds, of which the least time counts.
    pub rounds: u32,
    /// How often a round does it.
    pub repeats: u32,
}

/// The number that a word spells in decimal.
///
/// # Errors
///
/// The word spells none of 32 bits, or memory is wanting.
fn number(alloc: Global, word: &str) -> io::Result<u32> {
    match word.parse::<u32>() {
        Ok(number) => Ok(number),
        Err(_) => {
            let words = format!(in alloc; "`{word}` is not a number of 32 bits")?;
            Err(io::Error::other(words.as_str()))
        }
    }
}

/// Reads what the words `PROGRAM BLOCK ROUNDS REPEATS` say, and the two files.
///
/// # Errors
///
/// A word lacks, or is no number where one is due; a file can't be read; no block has the second one's length; or memory is
/// wanting.
pub fn read_words<R: Files + AllocGlobal>(rt: &R, words: &mut Args) -> io::Result<Asked> {
    let program = words.next().ok_or(io::Error::other("no program"))?;
    let file = words.next().ok_or(io::Error::other("no block"))?;
    let rounds = words.next().ok_or(io::Error::other("no rounds"))?;
    let rounds = number(rt.alloc(), &rounds)?;
    let repeats = words.next().ok_or(io::Error::other("no repeats"))?;
    let repeats = number(rt.alloc(), &repeats)?;
    let program = fs::read(rt, &program)?;
    let block = fs::read(rt, &file)?;
    let size = size_as_block(rt.alloc(), &file, block.len())?;
    Ok(Asked {
        program,
        block,
        size,
        rounds,
        repeats,
    })
}

/// The size of the block that a file of so many bytes is.
fn size_as_block(alloc: Global, file: &str, bytes: usize) -> io::Result<BlockSize> {
    match u32::try_from(bytes).ok().and_then(BlockSize::new) {
        Some(size) => Ok(size),
        None => {
            let words = format!(in alloc;
                "`{file}` has {bytes} bytes, which is the size of no block"
            )?;
            Err(io::Error::other(words.as_str()))
        }
    }
}
