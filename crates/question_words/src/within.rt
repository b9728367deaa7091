//! Ranges and sets, of which a field has a value.

ghost use Rattle.std.specs.Prelude.{◌≡◌, IfOk};
ghost use Rattle.common_definitions.specs.Gives.{Gives};
ghost use Rattle.question_words.specs.Condition.{Compare, said};
ghost use Rattle.question_words.specs.Fault.{fault_of};
ghost use Rattle.question_words.specs.Layout.{entries};
ghost use Rattle.question_words.specs.Reading.{begun as begun_of, bounded as bounded_of, in_state, listed as listed_of, next_within as next_within_of, wanted_within as wanted_within_of};
ghost use Rattle.question_words.specs.Within.{bound_of, more_condition, one_condition, range_condition};
ghost use Rattle.question_words.specs.steps.Views.{opens, reading_view, within_view};

use crate::fault::{FaultKind, ReadFault, fault, located};
use crate::layout::Layout;
use crate::operand::operand;
use crate::stack::Open;
use crate::stage::{Reading, Stage, settle};
use record_questions::{Comparison, Field, Operand, Predicate};
use std::alloc::{AllocError, Global};

/// What comes next of a range or a set.
#[derive(Drop)]
pub(crate) enum Within {
    /// After `in`: a `{`, or the first bound of a range.
    Begun,
    /// After the first bound: `..` or `..=`.
    From(Operand),
    /// After these: the second bound, with which the field compares so.
    Until(Operand, Comparison),
    /// After `{`: the first element of a set.
    First,
    /// After an element: a `,` or a `}`. The condition is that the field is one of those so far.
    Listed(Predicate),
    /// After a `,`: one more element.
    More(Predicate),
}

/// What is read after one more word of a range or a set.
#[tactic(auto, unfolding(crate::specs::Reading::next_within))]
pub(crate) fn next_within(
    alloc: Global,
    layout: &Layout,
    column: usize,
    word: &[u8],
    field: Field,
    part: Within,
    before: Vec<Open>,
) -> Result<Reading, ReadFault>
    ensures { Gives fault_of reading_view result
        (next_within_of (entries layout.now) column word.now field (within_view part) (opens before.items)) }
{
    match part {
        Within::Begun => begun(layout, column, word, field, before),
        Within::From(least) => {
            let comparison = located(column, bound(word))?;
            Ok(wanted(field, Within::Until(least, comparison), before))
        }
        Within::Until(least, comparison) => {
            let second = located(column, operand(layout, field, word))?;
            let condition = range(alloc, field, least, comparison, second)?;
            Ok(settle(alloc, before, condition)?)
        }
        Within::First => {
            let element = located(column, operand(layout, field, word))?;
            Ok(wanted(field, Within::Listed(one(field, element)), before))
        }
        Within::Listed(condition) => listed(alloc, column, word, field, condition, before),
        Within::More(condition) => {
            let element = located(column, operand(layout, field, word))?;
            let condition = more(alloc, condition, field, element)?;
            Ok(wanted(field, Within::Listed(condition), before))
        }
    }
}

/// More is wanted of a range or a set.
fn wanted(field: Field, part: Within, before: Vec<Open>) -> Reading
    ensures { reading_view result ≡ in_state field (within_view part) (opens before.items) }
{
    Reading {
        stage: Stage::In(field, part),
        before,
    }
}

/// After `in`: a `{`, or the first bound of a range.
#[tactic(auto, unfolding(crate::specs::Reading::begun))]
fn begun(
    layout: &Layout,
    column: usize,
    word: &[u8],
    field: Field,
    before: Vec<Open>,
) -> Result<Reading, ReadFault>
    ensures { Gives fault_of reading_view result (begun_of (entries layout.now) column word.now field (opens before.items)) }
{
    match word {
        b"{" => Ok(wanted(field, Within::First, before)),
        _ => bounded(layout, column, word, field, before),
    }
}

/// The first bound of a range.
#[tactic(auto, unfolding(crate::specs::Reading::bounded))]
fn bounded(
    layout: &Layout,
    column: usize,
    word: &[u8],
    field: Field,
    before: Vec<Open>,
) -> Result<Reading, ReadFault>
    ensures { Gives fault_of reading_view result (bounded_of (entries layout.now) column word.now field (opens before.items)) }
{
    let least = located(column, operand(layout, field, word))?;
    Ok(wanted(field, Within::From(least), before))
}

/// How a field compares with the second bound of a range.
fn bound(word: &[u8]) -> Result<Comparison, FaultKind>
    ensures { result ≡ bound_of word.now }
{
    match word {
        b".." => Ok(Comparison::Less),
        b"..=" => Ok(Comparison::LessOrEqual),
        _ => Err(FaultKind::Bound),
    }
}

/// The condition that a field is in a range.
fn range(
    alloc: Global,
    field: Field,
    least: Operand,
    comparison: Comparison,
    bound: Operand,
) -> Result<Predicate, AllocError>
    ensures { IfOk result (λ condition. said condition ≡ range_condition field least comparison bound) }
{
    let first = compared(field, Comparison::GreaterOrEqual, least);
    let second = compared(field, comparison, bound);
    let first = Box::new(alloc, first)?;
    Ok(Predicate::And(first, Box::new(alloc, second)?))
}

/// The condition that a field compares so with an operand.
fn compared(field: Field, comparison: Comparison, operand: Operand) -> Predicate
    ensures { said result ≡ Compare field comparison operand }
{
    Predicate::Compare {
        field,
        comparison,
        operand,
    }
}

/// The condition that a field is in a set of one.
fn one(field: Field, element: Operand) -> Predicate
    ensures { said result ≡ one_condition field element }
{
    compared(field, Comparison::Equal, element)
}

/// The condition that a field is in a set with one element more.
fn more(
    alloc: Global,
    condition: Predicate,
    field: Field,
    element: Operand,
) -> Result<Predicate, AllocError>
    ensures { IfOk result (λ made. said made ≡ more_condition (said condition) field element) }
{
    let condition = Box::new(alloc, condition)?;
    Ok(Predicate::Or(condition, Box::new(alloc, one(field, element))?))
}

/// After an element of a set: a `,` or a `}`.
#[tactic(auto, unfolding(crate::specs::Reading::listed))]
fn listed(
    alloc: Global,
    column: usize,
    word: &[u8],
    field: Field,
    condition: Predicate,
    before: Vec<Open>,
) -> Result<Reading, ReadFault>
    ensures { Gives fault_of reading_view result (listed_of column word.now field (said condition) (opens before.items)) }
{
    match word {
        b"," => Ok(wanted(field, Within::More(condition), before)),
        b"}" => Ok(settle(alloc, before, condition)?),
        _ => Err(fault(column, FaultKind::Element)),
    }
}

/// What lacks of a range or a set where the text ends.
pub(crate) fn lacking(part: Within) -> FaultKind
    ensures { result ≡ wanted_within_of (within_view part) }
{
    match part {
        Within::Begun | Within::Until(..) | Within::First | Within::More(_) => FaultKind::Operand,
        Within::From(_) => FaultKind::Bound,
        Within::Listed(_) => FaultKind::Element,
    }
}
