//! How a question is understood, and what asking it takes.

use crate::answering::Plan;
use crate::columns::{Column, Kind, push_type};
use crate::compiled::CompiledQuestion;
use crate::wanted::Wanted;
use command_files::Counted;
use program_interface::MOST_SLOTS;
use question_words::text_of;
use std::alloc::{AllocError, Global};

/// The question in full, and the programs that ask it.
pub(crate) fn explained(alloc: Global, compiled: &CompiledQuestion) -> Result<String, AllocError> {
    let mut text = String::new(alloc);
    let condition = text_of(alloc, &compiled.question.wanted)?;
    writeln!(text, "where: {}", condition.as_str())?;
    let shape = compiled.layout.shape;
    let first = shape.first;
    let size = shape.size;
    let records = compiled.records;
    writeln!(
        text,
        "records: {records} of {size} bytes in each block, from byte {first} on"
    )?;
    push_wanted(&compiled.wanted, &mut text)?;
    push_groups(compiled, &mut text)?;
    for part in &compiled.parts {
        let slots = part.slots;
        let limit = part.sizes.limit();
        let records = Counted(u64::from(part.records), "record");
        writeln!(
            text,
            "program: {slots} of {MOST_SLOTS} slots, for {records} of each block; it emits at most {limit} bytes for a block (--emit {limit})"
        )?;
    }
    Ok(text)
}

/// Adds what is printed.
fn push_wanted(wanted: &Wanted, text: &mut String) -> Result<(), AllocError> {
    match wanted {
        Wanted::Rows(columns) => {
            text.push_str("select:")?;
            for (number, column) in columns.iter().enumerate() {
                text.push_str(if number > 0 { ", " } else { " " })?;
                push_column(column, text)?;
            }
        }
        Wanted::Tallies(tallies) => {
            text.push_str("tally:")?;
            for (number, named) in tallies.iter().enumerate() {
                text.push_str(if number > 0 { ", " } else { " " })?;
                text.push_str(named.name.as_str())?;
            }
        }
    }
    text.push_str("\n")
}

/// Adds by what records are grouped.
fn push_groups(compiled: &CompiledQuestion, text: &mut String) -> Result<(), AllocError> {
    let Some(groups) = &compiled.groups else {
        return Ok(());
    };
    let name = groups.name.as_str();
    let offset = groups.field.offset;
    let last = groups.count.saturating_sub(1);
    let each = Counted(u64::from(groups.of_program), "value");
    write!(text, "by: {name} ")?;
    push_type(Kind::Number(groups.field), text)?;
    writeln!(
        text,
        " @{offset}, of the values 0 to {last}, a program for {each}"
    )?;
    for part in &compiled.beyond {
        let slots = part.slots;
        let records = Counted(u64::from(part.records), "record");
        writeln!(
            text,
            "program: {slots} of {MOST_SLOTS} slots, for {records} of each block; it counts what matches and has a greater value"
        )?;
    }
    Ok(())
}

/// Adds a column, as a layout has it.
fn push_column(column: &Column, text: &mut String) -> Result<(), AllocError> {
    let name = column.name.as_str();
    let offset = column.kind.offset();
    write!(text, "{name} ")?;
    push_type(column.kind, text)?;
    write!(text, " @{offset}")
}

/// Adds the room and the runs that asking takes.
pub(crate) fn push_work(plan: &Plan, text: &mut String) -> Result<(), AllocError> {
    let blocks = Counted(u64::from(plan.source.blocks), "block");
    let zone = plan.source.zone;
    writeln!(text, "source: {blocks} of zone {zone}")?;
    let room = Counted(plan.room(), "block");
    let destination = plan.destination;
    writeln!(
        text,
        "room: {room} of zone {destination}, if all records match"
    )?;
    let runs = Counted(plan.runs(), "run");
    let each = Counted(
        u64::from(plan.blocks_of_run.min(plan.source.blocks)),
        "block",
    );
    writeln!(text, "runs: {runs}, each over at most {each}")
}
