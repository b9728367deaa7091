//! Groups of the records that match, each with tallies of its own.

use crate::adding::add;
use crate::columns::Kind;
use crate::layout::RecordLayout;
use crate::parts::{Part, parts_of};
use crate::refused::refused;
use crate::wanted::{Wanted, named_column};
use clap::ArgMatches;
use command_files::Failure;
use command_files::arguments::required;
use instruction_set::Size;
use program_interface::{BlockSize, SCRATCH_BYTES};
use record_questions::{
    ByteRange, Comparison, Field, Grouping, Operand, Predicate, Question, Sign, Tally,
};
use std::alloc::{AllocError, Global};

/// The option that names the field by which records are grouped.
pub(crate) const BY: &str = "by";

/// The values of a byte.
const VALUES_OF_BYTE: u16 = 256;

/// The field by which records are grouped, and its groups: those of the values from 0 on.
#[derive(Drop)]
pub(crate) struct Groups {
    /// The name of the field.
    pub(crate) name: String,
    /// The field, an unsigned one.
    pub(crate) field: Field,
    /// How many groups there are.
    pub(crate) count: u16,
    /// How many of them a program tallies, at most.
    pub(crate) of_program: u16,
}

impl Groups {
    /// Can a record have a value of which there is no group?
    pub(crate) fn may_lack(&self) -> bool {
        self.field.size != Size::Byte
    }
}

/// The groups that the words ask for: of a byte all its values, and of a wider field as many as scratch has words for.
///
/// # Errors
///
/// A name that the layout lacks, a field that isn't an unsigned number, or no tally.
pub(crate) fn groups_asked<'a>(
    alloc: Global,
    matches: &ArgMatches<'a>,
    layout: &RecordLayout,
    wanted: &Wanted,
) -> Result<Option<Groups>, Failure<'a>> {
    let name = required(matches, BY);
    if name.is_empty() {
        return Ok(None);
    }
    let field = field_asked(alloc, name, layout)?;
    if let Wanted::Rows(_) = wanted {
        let told = format!(in alloc;
            "--by {name}: a group has tallies; ask for --count, --sum, --least or --greatest"
        );
        return Err(refused(told));
    }
    let words = wanted.tallies(alloc)?.len().max(1);
    let of_program = (SCRATCH_BYTES / 8 / words).min(usize::from(VALUES_OF_BYTE)) as u16;
    let count = match field.size {
        Size::Byte => VALUES_OF_BYTE,
        Size::HalfWord | Size::Word | Size::DoubleWord => of_program,
    };
    Ok(Some(Groups {
        name: String::from_str(alloc, name)?,
        field,
        count,
        of_program,
    }))
}

/// The field with a name, by which records can be grouped.
fn field_asked<'a>(alloc: Global, name: &str, layout: &RecordLayout) -> Result<Field, Failure<'a>> {
    let column = named_column(alloc, BY, name, layout)?;
    match column.kind {
        Kind::Number(field) if field.sign == Sign::Unsigned => Ok(field),
        _ => {
            let told = format!(in alloc;
                "--by {name}: records are grouped by an unsigned number, of the types u8, u16, u32 and u64"
            );
            Err(refused(told))
        }
    }
}

/// The programs of a question: those of all groups, where it has some, one group after another; range as of [`parts_of`]. It is left with the records
/// and the groups of the last.
///
/// # Errors
///
/// As of [`parts_of`].
pub(crate) fn parts_of_groups<'a>(
    alloc: Global,
    groups: Option<&Groups>,
    question: &mut Question,
    range: Vec<ByteRange>,
    block: BlockSize,
) -> Result<Vec<Part>, Failure<'a>> {
    let Some(groups) = groups else {
        return parts_of(alloc, question, range, block);
    };
    let first = question.first;
    let count = question.count;
    let mut parts = Vec::new(alloc);
    for time in 0..groups.count.div_ceil(groups.of_program.max(1)) {
        let before = time.saturating_mul(groups.of_program);
        question.first = first;
        question.count = count;
        question.by = Some(Grouping {
            field: groups.field,
            first: before,
            values: groups.of_program.min(groups.count.saturating_sub(before)),
        });
        for part in parts_of(alloc, question, Vec::new(alloc), block)? {
            add(&mut parts, part)?;
        }
    }
    Ok(parts)
}

/// The question how many of the records that match have a value of which there is no group.
pub(crate) fn beyond_of(
    alloc: Global,
    groups: &Groups,
    question: Question,
) -> Result<Question, AllocError> {
    let Question {
        first,
        size,
        count,
        wanted,
        ..
    } = question;
    let lacks = Predicate::Compare {
        field: groups.field,
        comparison: Comparison::GreaterOrEqual,
        operand: Operand::Number(i128::from(groups.count)),
    };
    let mut tallies = Vec::new(alloc);
    tallies.extend_from_slice(&[Tally::Count])?;
    Ok(Question {
        first,
        size,
        count,
        wanted: Predicate::And(Box::new(alloc, wanted)?, Box::new(alloc, lacks)?),
        emitted: Vec::new(alloc),
        tallies,
        by: None,
    })
}

/// Refuses to print where so many records have a value of which there is no group.
pub(crate) fn check_beyond<'a>(
    alloc: Global,
    groups: &Groups,
    records: u64,
) -> Result<(), Failure<'a>> {
    if records == 0 {
        return Ok(());
    }
    let name = groups.name.as_str();
    let count = groups.count;
    let told = format!(in alloc;
        "--by {name}: of the records that match {records} have a value of {count} or more, and there are groups for 0 to {last}; add `&& {name} < {count}` to the condition, or ask for fewer tallies",
        last = count.saturating_sub(1)
    );
    Err(refused(told))
}
