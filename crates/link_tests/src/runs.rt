//! A program beside the slots that `ebpf_link` made it of: both run, with every check, on blocks of several kinds that look random.

mod blocks;
mod numbers;
mod running;

use blocks::{KINDS, make_block, words_of};
use ebpf_decode::{decode, push_instruction};
use ebpf_link::{BLOCK_GUARD, EMIT_GUARD, MEMORY_GUARD, ROUNDS_GUARD};
use instruction_set::{Instruction, Program};
use numbers::Numbers;
use program_interface::{BlockSize, Context, SCRATCH_BYTES};
use program_meaning::End;
use running::{Left, group_room, run};
use std::alloc::Global;
use std::test::Fail;

/// How many block runs left the same, and how many a guard ended.
#[derive(Clone, Copy, Debug, PartialEq, Eq)]
pub struct Compared {
    /// They ended alike, emitted the same frames and left the same scratch.
    pub same: usize,
    /// The one of the program that was made ended by a guard, with frames that the other begins with.
    pub ended: usize,
}

/// What comparing two block runs came to.
enum Outcome {
    Same,
    Ended,
    Differs,
}

/// Is it the word of a guard?
fn is_guard(r0: u64) -> bool {
    let words = [MEMORY_GUARD, EMIT_GUARD, BLOCK_GUARD, ROUNDS_GUARD];
    words
        .iter()
        .any(|word| Instruction::immediate_word(*word) == r0)
}

/// Compares what a program left with what it has to leave.
fn compared_outcome(expected: &Left, left: &Left) -> Outcome {
    if left == expected {
        return match left.end {
            End::Exit { .. } => Outcome::Same,
            _ => Outcome::Differs,
        };
    }
    match left.end {
        End::Exit { r0 } if is_guard(r0) && expected.group.starts_with(&left.group) => {
            Outcome::Ended
        }
        _ => Outcome::Differs,
    }
}

/// Slots as a program, which may have loops.
fn program_of(alloc: Global, slots: &[Option<Instruction>]) -> Result<Program, Fail> {
    let mut bytes = Vec::new(alloc);
    for slot in slots {
        if let Some(instruction) = slot {
            push_instruction(&mut bytes, instruction)?;
        }
    }
    Ok(decode(alloc, &bytes)?)
}

/// The argument of a block run: a small number, one of the block's or any.
fn argument(numbers: &mut Numbers, block: &[u8]) -> u32 {
    let number = match numbers.draw() % 4 {
        0 => 0,
        1 => numbers.draw() % 128,
        2 => match block.get((numbers.draw() % 512) as usize) {
            Some(byte) => u64::from(*byte),
            None => 0,
        },
        _ => numbers.draw(),
    };
    (number % 0x1_0000_0000) as u32
}

/// Two programs, and what is needed to compare them.
#[derive(Drop)]
struct Pair {
    source: Program,
    made: Program,
    words: Vec<u64>,
    room: Vec<u8>,
}

impl Pair {
    /// Compares what both leave of a block, and of scratch, of a kind.
    fn outcome(
        &mut self,
        alloc: Global,
        size: BlockSize,
        numbers: &mut Numbers,
        kind: usize,
    ) -> Result<Outcome, Fail> {
        let mut block = Vec::new(alloc);
        block.resize(size.bytes() as usize, 0)?;
        make_block(&mut block, numbers, kind, &self.words);
        let mut scratch = [0; SCRATCH_BYTES];
        if numbers.draw() % 3 == 0 {
            make_block(&mut scratch, numbers, kind, &self.words);
        }
        let context = Context {
            lba: numbers.draw(),
            index: (numbers.draw() % 8) as u32,
            count: 20,
            block: size,
            argument: argument(numbers, &block),
        }
        .encode();
        let expected = run(
            alloc,
            &self.source,
            &block,
            &context,
            &scratch,
            &mut self.room,
        )?;
        let left = run(
            alloc,
            &self.made,
            &block,
            &context,
            &scratch,
            &mut self.room,
        )?;
        match (expected, left) {
            (Some(expected), Some(left)) => Ok(compared_outcome(&expected, &left)),
            _ => Err(Fail::from("no program")),
        }
    }
}

/// Compares what a program leaves of so many blocks of a size with what the slots leave that it was made of.
///
/// # Errors
///
/// Where it leaves something else, the number of the block; slots that are no program; want of memory.
pub fn compare(
    alloc: Global,
    source: &[Option<Instruction>],
    made: &[Option<Instruction>],
    size: BlockSize,
    blocks: usize,
) -> Result<Compared, Fail> {
    let mut pair = Pair {
        source: program_of(alloc, source)?,
        made: program_of(alloc, made)?,
        words: words_of(alloc, source)?,
        room: group_room(alloc)?,
    };
    let mut numbers = Numbers::behind(7919);
    let mut compared = Compared { same: 0, ended: 0 };
    for number in 0..blocks {
        match pair.outcome(alloc, size, &mut numbers, number % KINDS)? {
            Outcome::Same => compared.same = compared.same.saturating_add(1),
            Outcome::Ended => compared.ended = compared.ended.saturating_add(1),
            Outcome::Differs => {
                return Err(Fail::from("the program does something else"));
            }
        }
    }
    Ok(compared)
}
