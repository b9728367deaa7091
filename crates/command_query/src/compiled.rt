//! A question about blocks of a size, with the programs that ask it.

use crate::grouped::{Groups, beyond_of, parts_of_groups};
use crate::layout::RecordLayout;
use crate::parts::{Part, parts_of};
use crate::rows::Form;
use crate::told::PROGRAM;
use crate::understood::question_asked;
use crate::wanted::Wanted;
use clap::ArgMatches;
use command_files::Failure;
use command_files::arguments::{BLOCK_OPTION, required};
use program_interface::BlockSize;
use record_questions::Question;
use std::alloc::Global;

/// What is asked.
#[derive(Drop)]
pub(crate) struct Request {
    /// The form in which the answer is printed.
    pub(crate) form: Form,
    /// The layout of the records.
    pub(crate) layout: RecordLayout,
    /// What is printed.
    pub(crate) wanted: Wanted,
    /// The groups of the records, if they are grouped.
    pub(crate) groups: Option<Groups>,
}

/// A question, and its programs.
#[derive(Drop)]
pub(crate) struct CompiledQuestion {
    /// The size of a block.
    pub(crate) block: BlockSize,
    /// The layout of the records.
    pub(crate) layout: RecordLayout,
    /// What is printed.
    pub(crate) wanted: Wanted,
    /// The question, over the records of the last program.
    pub(crate) question: Question,
    /// How many records of a block it is about.
    pub(crate) records: u16,
    /// The groups of the records, if they are grouped.
    pub(crate) groups: Option<Groups>,
    /// The programs.
    pub(crate) parts: Vec<Part>,
    /// The programs that count the records that match and are of no group.
    pub(crate) beyond: Vec<Part>,
}

impl CompiledQuestion {
    /// How many programs there are.
    pub(crate) fn programs(&self) -> u64 {
        (self.parts.len() as u64).saturating_add(self.beyond.len() as u64)
    }
}

/// Is one range emitted, from the first selected field to the end of the last? It is where bytes are printed, or a program is wanted: what
/// these emit doesn't depend on how many slots a program has.
fn emits_one_range(matches: &ArgMatches<'_>, form: Form) -> bool {
    matches!(form, Form::Raw)
        || !required(matches, PROGRAM).is_empty()
        || !required(matches, BLOCK_OPTION).is_empty()
}

/// The programs that count the records that match and are of no group: none where each value has one.
fn parts_beyond<'a>(
    alloc: Global,
    matches: &ArgMatches<'a>,
    layout: &RecordLayout,
    wanted: &Wanted,
    groups: &Groups,
    block: BlockSize,
) -> Result<Vec<Part>, Failure<'a>> {
    if !groups.may_lack() {
        return Ok(Vec::new(alloc));
    }
    let all = question_asked(alloc, matches, layout, wanted, Vec::new(alloc), block)?;
    let mut lacking = beyond_of(alloc, groups, all)?;
    parts_of(alloc, &mut lacking, Vec::new(alloc), block)
}

/// The question about blocks of this size that the words ask, and its programs.
///
/// # Errors
///
/// Those of [`question_asked`] and [`parts_of`].
pub(crate) fn compile_question<'a>(
    alloc: Global,
    matches: &ArgMatches<'a>,
    request: Request,
    block: BlockSize,
) -> Result<CompiledQuestion, Failure<'a>> {
    let Request {
        form,
        layout,
        wanted,
        groups,
    } = request;
    let range = wanted.range(alloc)?;
    let emitted = if emits_one_range(matches, form) {
        wanted.range(alloc)?
    } else {
        wanted.ranges(alloc)?
    };
    let mut question = question_asked(alloc, matches, &layout, &wanted, emitted, block)?;
    let records = question.count;
    let parts = parts_of_groups(alloc, groups.as_ref(), &mut question, range, block)?;
    let beyond = match &groups {
        Some(groups) => parts_beyond(alloc, matches, &layout, &wanted, groups, block)?,
        None => Vec::new(alloc),
    };
    Ok(CompiledQuestion {
        block,
        layout,
        wanted,
        question,
        records,
        groups,
        parts,
        beyond,
    })
}
