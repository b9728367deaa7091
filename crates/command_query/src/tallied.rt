//! Tallies of all records that match.

ghost use Rattle.std.specs.Prelude.{◌≡◌};
ghost use Rattle.record_questions.specs.Question.{signed_by};
ghost use Rattle.record_questions.specs.Tallies.{value_at};

use crate::answering::{Plan, load, run, slot_of};
use crate::cells::Cell;
use crate::commands::AskedDevice;
use crate::grouped::{Groups, check_beyond};
use crate::parts::Part;
use crate::rows::Printed;
use crate::wanted::NamedTally;
use byteorder::{ByteOrder, LittleEndian};
use command_files::Failure;
use record_questions::{Sign, Tally};
use std::alloc::{AllocError, Global};

/// Asks for tallies, and adds the row that has them, or a row for each group of records.
pub(crate) fn answer_tallies<'a>(
    alloc: Global,
    asked: &mut AskedDevice,
    plan: &Plan,
    tallies: &[NamedTally],
    printing: &mut Printed,
) -> Result<(), Failure<'a>> {
    match &plan.compiled.groups {
        None => {
            let totals = totals_of(alloc, asked, plan, plan.compiled.parts.as_slice(), 1)?;
            push_names(0, tallies, printing)?;
            printing.begin_row()?;
            push_tallies(0, tallies, totals.as_slice(), printing)?;
        }
        Some(groups) => {
            let lacking = totals_of(alloc, asked, plan, plan.compiled.beyond.as_slice(), 1)?;
            check_beyond(alloc, groups, word_of(lacking.as_slice(), 0))?;
            let parts = plan.compiled.parts.as_slice();
            let totals = totals_of(alloc, asked, plan, parts, usize::from(groups.count))?;
            push_groups(plan, groups, tallies, totals.as_slice(), printing)?;
        }
    }
    Ok(())
}

/// The words of the tallies of so many groups, group by group, which these programs leave that run over all blocks.
fn totals_of<'a>(
    alloc: Global,
    asked: &mut AskedDevice,
    plan: &Plan,
    parts: &[Part],
    groups: usize,
) -> Result<Vec<u64>, Failure<'a>> {
    let tallies = plan.compiled.question.tallies.as_slice();
    let mut totals = vec![in alloc; 0u64; tallies.len().saturating_mul(groups)]?;
    for part in parts {
        load(alloc, asked, 0, part)?;
        let before = tallies.len().saturating_mul(usize::from(part.first_group));
        for time in 0..plan.times() {
            run(alloc, asked, plan, 0, plan.stretch(time))?;
            let length = asked.result(alloc, slot_of(0))?;
            let first = before.min(totals.len());
            let (_, words) = totals.as_mut_slice().split_at_mut(first);
            add_words(tallies, asked.data(length), words);
        }
    }
    Ok(totals)
}

/// Adds the names of the columns, and a row of each group that has records.
fn push_groups(
    plan: &Plan,
    groups: &Groups,
    tallies: &[NamedTally],
    totals: &[u64],
    printing: &mut Printed,
) -> Result<(), AllocError> {
    let words = plan.compiled.question.tallies.len();
    let name = groups.name.as_str();
    printing.push_name(0, name)?;
    push_names(1, tallies, printing)?;
    for (value, totals) in totals.chunks(words.max(1)).enumerate() {
        if word_of(totals, 0) > 0 {
            printing.begin_row()?;
            printing.push_cell(0, name, Cell::Number(value as i128))?;
            push_tallies(1, tallies, totals, printing)?;
        }
    }
    Ok(())
}

/// Adds the cells of tallies after so many others and the end of their row, by their words: that of the number of the records, and then
/// those of the others in order.
fn push_tallies(
    before: usize,
    tallies: &[NamedTally],
    totals: &[u64],
    printing: &mut Printed,
) -> Result<(), AllocError> {
    let count = word_of(totals, 0);
    let mut others: usize = 0;
    for (index, named) in tallies.iter().enumerate() {
        let word = if named.tally == Tally::Count {
            count
        } else {
            others = others.saturating_add(1);
            word_of(totals, others)
        };
        printing.push_cell(
            before.saturating_add(index),
            named.name.as_str(),
            tallied(named.tally, word, count),
        )?;
    }
    printing.end_row(&[])
}

/// Adds the names of tallies after so many others.
fn push_names(
    before: usize,
    tallies: &[NamedTally],
    printing: &mut Printed,
) -> Result<(), AllocError> {
    for (index, named) in tallies.iter().enumerate() {
        printing.push_name(before.saturating_add(index), named.name.as_str())?;
    }
    printing.end_names()
}

/// One of some words, and 0 after them.
fn word_of(words: &[u64], index: usize) -> u64 {
    match words.get(index) {
        Some(word) => *word,
        None => 0,
    }
}

/// Adds the words that a run left to those of the runs before: those of the tallies of each group, group by group.
fn add_words(tallies: &[Tally], scratch: &[u8], totals: &mut [u64]) {
    for (index, total) in totals.iter_mut().enumerate() {
        if let Some(tally) = tallies.get(index % tallies.len().max(1)) {
            *total = joined(*tally, *total, word_at(scratch, index));
        }
    }
}

/// What a tally's words of some records and of others come to.
fn joined(tally: Tally, word: u64, other: u64) -> u64 {
    match tally {
        Tally::Count | Tally::Sum(_) => word.wrapping_add(other),
        Tally::Least(_) | Tally::Greatest(_) => word.max(other),
    }
}

/// A word of scratch.
fn word_at(scratch: &[u8], index: usize) -> u64 {
    match scratch.get(index.saturating_mul(8)..) {
        Some(bytes) if bytes.len() >= 8 => LittleEndian::read_u64(bytes),
        _ => 0,
    }
}

/// What a tally's word says, of so many records.
fn tallied<'r>(tally: Tally, word: u64, count: u64) -> Cell<'r> {
    match tally {
        Tally::Count => Cell::Number(i128::from(word)),
        Tally::Sum(field) => Cell::Number(total_of(field.sign, word)),
        Tally::Least(_) | Tally::Greatest(_) if count == 0 => Cell::Nothing,
        Tally::Least(field) => Cell::Number(value_at(field.sign, u64::MAX - word)),
        Tally::Greatest(field) => Cell::Number(value_at(field.sign, word)),
    }
}

/// The sum that a word has, of fields of this sign.
fn total_of(sign: Sign, word: u64) -> i128
    ensures { result ≡ signed_by sign 8 word }
{
    match sign {
        Sign::Unsigned => i128::from(word),
        Sign::Signed => i128::from(word.cast_signed()),
    }
}

/// The value of this sign that has a rank.
fn value_at(sign: Sign, rank: u64) -> i128
    ensures { result ≡ value_at sign rank }
{
    match sign {
        Sign::Unsigned => i128::from(rank),
        Sign::Signed => i128::from(rank) - 0x8000_0000_0000_0000,
    }
}
