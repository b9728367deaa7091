//! Blocks that look random.

use super::numbers::Numbers;
use instruction_set::{Instruction, Source};
use std::alloc::{AllocError, Global};

/// How many kinds of blocks there are.
pub(crate) const KINDS: usize = 8;

/// Of each kind the bytes of a number, and the least number that it doesn't have: zeros, any bytes, and small numbers of several widths.
const WIDTHS: [(usize, u64); KINDS] = [
    (8, 1),
    (1, 256),
    (1, 24),
    (4, 64),
    (2, 512),
    (8, 4096),
    (4, 0x1_0000_0000),
    (1, 8),
];

/// Puts a number of so many bytes at a place, as far as there is room: its lowest byte first, or last.
fn put(block: &mut [u8], at: usize, width: usize, number: u64, is_big: bool) {
    let mut rest = number;
    for place in 0..width {
        let index = if is_big { width - 1 - place } else { place };
        if let Some(byte) = block.get_mut(at.saturating_add(index)) {
            *byte = (rest % 256) as u8;
        }
        rest /= 256;
    }
}

/// Fills a block with numbers of a kind.
fn fill(block: &mut [u8], numbers: &mut Numbers, kind: usize) {
    let (width, end) = WIDTHS[kind % KINDS];
    let mut at: usize = 0;
    for _ in 0..block.len() {
        if at >= block.len() {
            break;
        }
        let number = numbers.draw() % end.max(1);
        put(block, at, width, number, false);
        at = at.saturating_add(width);
    }
}

/// Puts words at places, or what is one more or less.
fn scatter(block: &mut [u8], numbers: &mut Numbers, words: &[u64]) {
    let length = block.len() as u64;
    if length == 0 || words.is_empty() {
        return;
    }
    for _ in 0..numbers.draw() % (length / 4 + 1) {
        let index = (numbers.draw() % words.len() as u64) as usize;
        let width = 1usize << (numbers.draw() % 4);
        let place = (numbers.draw() % length) as usize / width * width;
        let (more, less) = (numbers.draw() % 5 / 4, numbers.draw() % 5 / 4);
        let word = words[index].wrapping_add(more).wrapping_sub(less);
        put(block, place, width, word, numbers.draw() % 3 == 0);
    }
}

/// The number that an instruction compares with, or loads.
fn told(instruction: &Instruction) -> Option<u64> {
    match *instruction {
        Instruction::Branch {
            source: Source::Immediate(number),
            ..
        } => Some(Instruction::immediate_word(number)),
        Instruction::LoadImmediate { value, .. } => Some(value),
        _ => None,
    }
}

/// The numbers that a program compares with, or loads.
pub(crate) fn words_of(
    alloc: Global,
    slots: &[Option<Instruction>],
) -> Result<Vec<u64>, AllocError> {
    let mut words = Vec::new(alloc);
    for slot in slots {
        if let Some(instruction) = slot {
            if let Some(word) = told(instruction) {
                words.extend_from_slice(&[word])?;
            }
        }
    }
    Ok(words)
}

/// Makes a block of a kind, with some of the words in it.
pub(crate) fn make_block(block: &mut [u8], numbers: &mut Numbers, kind: usize, words: &[u64]) {
    fill(block, numbers, kind);
    if kind >= 2 {
        scatter(block, numbers, words);
    }
}
