//! The question as it is understood.

use crate::columns::bytes_of;
use crate::layout::RecordLayout;
use crate::refused::refused;
use crate::wanted::Wanted;
use clap::ArgMatches;
use command_files::Failure;
use command_files::arguments::required;
use program_interface::BlockSize;
use question_words::{FaultKind, ReadFault, WordFault, read};
use record_questions::{ByteRange, Field, Operand, Predicate, Question};
use std::alloc::{AllocError, Global};
use std::str;

/// The option that has the condition.
pub(crate) const WHERE: &str = "where";

/// The question about blocks of this size that the words ask.
///
/// # Errors
///
/// The condition isn't one, the records pass the block, or a field passes its record.
pub(crate) fn question_asked<'a>(
    alloc: Global,
    matches: &ArgMatches<'a>,
    layout: &RecordLayout,
    wanted: &Wanted,
    emitted: Vec<ByteRange>,
    block: BlockSize,
) -> Result<Question, Failure<'a>> {
    let size = layout.shape.size;
    let count = records_of_block(alloc, layout, block)?;
    let names = layout.names(alloc)?;
    let text = required(matches, WHERE);
    let wanted_records = match read(alloc, &names, text.as_bytes()) {
        Ok(condition) => condition,
        Err(ReadFault::Memory) => return Err(Failure::NoMemory),
        Err(ReadFault::Word(fault)) => {
            return Err(refused(told_at(alloc, layout, text, fault)));
        }
    };
    check_condition(alloc, size, &wanted_records)?;
    Ok(Question {
        first: layout.shape.first,
        size,
        count,
        wanted: wanted_records,
        emitted,
        tallies: wanted.tallies(alloc)?,
        by: None,
    })
}

/// The most bytes of a condition that is shown with the place of what is wrong.
const MOST_SHOWN: usize = 120;

/// What is wrong with a word of the condition, and below it the condition with a mark at the word, where it is short and plain.
fn told_at(
    alloc: Global,
    layout: &RecordLayout,
    text: &str,
    fault: WordFault,
) -> Result<String, AllocError> {
    let mut told = told_of_word(alloc, layout, text, fault)?;
    let bytes = text.as_bytes();
    if bytes.len() > MOST_SHOWN || !bytes.iter().all(|byte| matches!(*byte, b' '..=b'~')) {
        return Ok(told);
    }
    write!(told, "\n  {text}\n  ")?;
    for _before in 1..fault.column {
        told.push_str(" ")?;
    }
    told.push_str("^")?;
    Ok(told)
}

/// What is wrong with a word of the condition. Of the name of text or bytes, which no condition compares by its name, it is how to
/// compare them.
fn told_of_word(
    alloc: Global,
    layout: &RecordLayout,
    text: &str,
    fault: WordFault,
) -> Result<String, AllocError> {
    let column = fault.column;
    let name = match fault.kind {
        FaultKind::Name => name_at(text, column.saturating_sub(1)),
        _ => "",
    };
    match layout.column(name) {
        Some(found) => {
            let offset = found.kind.offset();
            format!(in alloc;
                "--where, column {column}: `{name}` is no number; its bytes are compared as in bytes@{offset} == \"ab\""
            )
        }
        None => format!(in alloc; "--where, {fault}"),
    }
}

/// The name at a byte of a text.
fn name_at(text: &str, at: usize) -> &str {
    let rest = text.as_bytes().get(at..).unwrap_or(&[]);
    let end = rest
        .iter()
        .position(|byte| !byte.is_ascii_alphanumeric() && *byte != b'_');
    let name = rest.get(..end.unwrap_or(rest.len())).unwrap_or(&[]);
    str::from_utf8(name).unwrap_or("")
}

/// How many records of a block there are.
fn records_of_block<'a>(
    alloc: Global,
    layout: &RecordLayout,
    block: BlockSize,
) -> Result<u16, Failure<'a>> {
    let first = u32::from(layout.shape.first);
    let size = u32::from(layout.shape.size);
    let bytes = block.bytes();
    let fitting = bytes.saturating_sub(first) / size.max(1);
    let count = match layout.shape.count {
        Some(count) => u32::from(count),
        None => fitting,
    };
    if count == 0 || count > fitting {
        let end = first.saturating_add(count.max(1).saturating_mul(size));
        let told = format!(in alloc;
            "the layout's records end at byte {end} of a block, and a block has {bytes} bytes; at most {fitting} fit"
        );
        return Err(refused(told));
    }
    Ok(count.min(0xFFFF) as u16)
}

/// Refuses a condition of which a field or bytes pass the record.
fn check_condition<'a>(alloc: Global, size: u16, condition: &Predicate) -> Result<(), Failure<'a>> {
    match condition {
        Predicate::Compare {
            field,
            comparison: _,
            operand,
        } => {
            check_field(alloc, size, *field)?;
            match operand {
                Operand::Field(other) => check_field(alloc, size, *other),
                Operand::Number(_) | Operand::Argument => Ok(()),
            }
        }
        Predicate::Bytes { offset, bytes } => {
            check_end(alloc, size, *offset, bytes.len().min(0xFFFF) as u16)
        }
        Predicate::And(first, second) | Predicate::Or(first, second) => {
            check_condition(alloc, size, first)?;
            check_condition(alloc, size, second)
        }
        Predicate::Not(other) => check_condition(alloc, size, other),
    }
}

/// Refuses a field that ends after the record.
fn check_field<'a>(alloc: Global, size: u16, field: Field) -> Result<(), Failure<'a>> {
    check_end(alloc, size, field.offset, bytes_of(field.size))
}

/// Refuses bytes that end after the record.
fn check_end<'a>(alloc: Global, size: u16, offset: u16, bytes: u16) -> Result<(), Failure<'a>> {
    let end = u32::from(offset) + u32::from(bytes);
    if end > u32::from(size) {
        let told = format!(in alloc;
            "--where: what is at offset {offset} ends at byte {end}, and a record of the layout at {size}"
        );
        return Err(refused(told));
    }
    Ok(())
}
