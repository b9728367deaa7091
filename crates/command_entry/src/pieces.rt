//! Transfers that are longer than one command's, as several of whole blocks.

ghost use Rattle.std.specs.Prelude.{◌≡◌, ◌≤◌, min};
ghost use Rattle.nvme_entry.specs.declared.command.TheConstants.{MOST_BLOCKS};

use crate::asked::{Asked, command_of};
use crate::command_text::CommandText;
use crate::data_file::check_data;
use crate::kinds::Kind;
use crate::words::EntryWords;
use crate::zone_room::check_zones;
use clap::Command;
use command_files::Failure;
use command_files::arguments::no_command;
use nvme_entry::{BlockCount, MOST_BLOCKS, MOST_TRANSFER};
use std::alloc::Global;

/// Adds what words ask for, with the bytes of the file that they name: a line, or of blocks a line for each piece.
pub(crate) fn add_entry<'a>(
    alloc: Global,
    command_line: &mut Command<'a>,
    words: &EntryWords<'a>,
    input: Vec<u8>,
    text: &mut CommandText,
) -> Result<(), Failure<'a>> {
    if words.kind.moves_blocks() {
        check_data(words, input.as_slice(), usize::MAX)?;
        return add_pieces(alloc, command_line, words, input.as_slice(), text);
    }
    let blocks = match words.numbers.blocks {
        Some(blocks) => blocks.get() as usize,
        None => 0,
    };
    check_zones(alloc, command_line, words, blocks, text.geometry)?;
    let asked = Asked::of(command_line, words, input)?;
    let identifiers = words.numbers.identifiers;
    text.add(
        alloc,
        command_line,
        identifiers,
        asked.command,
        asked.input.as_slice(),
    )
}

/// Adds a line for each piece of the blocks that words speak of. Those of an append name the same zone. Of a write and a read the
/// first begins at the address that the words name, and each other one where the one before it ended.
fn add_pieces<'a>(
    alloc: Global,
    command_line: &mut Command<'a>,
    words: &EntryWords<'a>,
    data: &[u8],
    text: &mut CommandText,
) -> Result<(), Failure<'a>> {
    let size = words.block.bytes();
    let most = (MOST_TRANSFER as u32 / size).min(MOST_BLOCKS);
    let mut left = match words.numbers.blocks {
        Some(blocks) => blocks.get() as usize,
        None => data.len() / size as usize,
    };
    check_zones(alloc, command_line, words, left, text.geometry)?;
    let mut rest = data;
    let mut lba = words.numbers.lba;
    let mut identifiers = words.numbers.identifiers;
    while left > 0 {
        let blocks = first_piece(left, most);
        let (piece, behind) = rest.split_at(rest.len().min(MOST_TRANSFER));
        let Some(command) = command_of(words, lba, Some(blocks), 0) else {
            return Err(no_command(command_line));
        };
        text.add(alloc, command_line, identifiers, command, piece)?;
        lba = match words.kind {
            Kind::Append => lba,
            _ => lba.saturating_add(u64::from(blocks.get())),
        };
        identifiers = identifiers.behind();
        rest = behind;
        left -= blocks.get() as usize;
    }
    Ok(())
}

/// The first of so many blocks, as many as one command moves.
fn first_piece(left: usize, most: u32) -> BlockCount
    requires some { 1 ≤ left }
    requires room { 1 ≤ most }
    requires within { most ≤ MOST_BLOCKS }
    ensures value { result ≡ min left most }
{
    BlockCount::new(left.min(most as usize) as u32).unwrap()
}
