//! The programs of a question, each over a part of the records of a block.

use crate::adding::add;
use crate::refused::refused;
use command_files::Failure;
use ebpf_decode::encode;
use nvme_entry::{MOST_TRANSFER, PROGRAM_SLOTS};
use program_interface::{BlockSize, FRAME_LENGTH_BYTES, MOST_SLOTS, RunSizes};
use question_compiler::{QuestionFault, compile};
use record_questions::{ByteRange, Question, emitted_bytes};
use std::alloc::Global;

/// A program over some neighbouring records of a block.
#[derive(Drop)]
pub(crate) struct Part {
    /// Its bytes.
    pub(crate) program: Vec<u8>,
    /// The number of its slots.
    pub(crate) slots: usize,
    /// The sizes that it is accepted for.
    pub(crate) sizes: RunSizes,
    /// How many records of each block it looks at.
    pub(crate) records: u16,
    /// The first group that it tallies.
    pub(crate) first_group: u16,
}

/// The programs of a question: as few as hold it. Several ranges are emitted where one program holds them, else this one range over all
/// of them, which takes fewer slots. The question is left with what they emit, and with the records of the last.
///
/// # Errors
///
/// More programs are needed than a device has slots for; the question has no program; or want of memory.
pub(crate) fn parts_of<'a>(
    alloc: Global,
    question: &mut Question,
    range: Vec<ByteRange>,
    block: BlockSize,
) -> Result<Vec<Part>, Failure<'a>> {
    let first = question.first;
    let count = question.count;
    if question.emitted.len() > 1 {
        if let Some(parts) = parts_in(alloc, question, first, count, 1, block)? {
            return Ok(parts);
        }
        question.emitted = range;
    }
    for number in 1..PROGRAM_SLOTS as u16 + 1 {
        if let Some(parts) = parts_in(alloc, question, first, count, number, block)? {
            return Ok(parts);
        }
    }
    let told = format!(in alloc;
        "the question needs more than {PROGRAM_SLOTS} programs of {MOST_SLOTS} slots, each for a part of a block's {count} records; compare fewer fields or select fewer bytes"
    );
    Err(refused(told))
}

/// So many programs of a question, each over as many of its records as the others, but the last; `None` where one has too many slots
/// or may emit too much.
fn parts_in<'a>(
    alloc: Global,
    question: &mut Question,
    first: u16,
    count: u16,
    number: u16,
    block: BlockSize,
) -> Result<Option<Vec<Part>>, Failure<'a>> {
    let each = count.div_ceil(number.max(1)).max(1);
    let mut parts = Vec::new(alloc);
    for index in 0..number {
        let before = index.saturating_mul(each);
        if before >= count {
            break;
        }
        let bytes = u32::from(before).saturating_mul(u32::from(question.size));
        question.first = u32::from(first).saturating_add(bytes).min(0xFFFF) as u16;
        question.count = each.min(count.saturating_sub(before));
        match part_of(alloc, question, block)? {
            Some(part) => add(&mut parts, part)?,
            None => return Ok(None),
        }
    }
    Ok(Some(parts))
}

/// The program of a question; `None` where it would have too many slots or may emit too much.
fn part_of<'a>(
    alloc: Global,
    question: &Question,
    block: BlockSize,
) -> Result<Option<Part>, Failure<'a>> {
    let Some(sizes) = RunSizes::new(block, most_emitted(question)) else {
        return Ok(None);
    };
    let verified = match compile(alloc, question, sizes) {
        Ok(verified) => verified,
        Err(QuestionFault::Memory) => return Err(Failure::NoMemory),
        Err(
            QuestionFault::OverLimit { .. }
            | QuestionFault::EmittedPassStack(_)
            | QuestionFault::TooLong(_),
        ) => return Ok(None),
        Err(fault) => return Err(refused(format!(in alloc; "no program asks this: {fault}"))),
    };
    let program = encode(alloc, verified.program())?;
    if program.len() > MOST_TRANSFER {
        return Ok(None);
    }
    Ok(Some(Part {
        program,
        slots: verified.program().slots(),
        sizes,
        records: question.count,
        first_group: match question.by {
            Some(by) => by.first,
            None => 0,
        },
    }))
}

/// The bytes that are emitted for a block whose records all match.
fn most_emitted(question: &Question) -> u32 {
    if question.emitted.is_empty() {
        return 0;
    }
    let frame = emitted_bytes(&question.emitted).saturating_add(FRAME_LENGTH_BYTES as u64);
    let most = u64::from(question.count).saturating_mul(frame);
    most.min(u64::from(u32::MAX)) as u32
}
