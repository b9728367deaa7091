//! The code that tests whether a record matches.

ghost use Rattle.std.specs.Prelude.{◌≡◌, ◌<◌, ◌≤◌, ◌++◌, ◌+◌, ◌-◌, ◌^◌, OnOk};
ghost use Rattle.record_questions.specs.Asked.{IsPredicate};
ghost use Rattle.record_questions.specs.Code.{counted, over, test_code, test_slots};

use crate::chunks::{bytes_slots, push_bytes};
use crate::comparing::{comparison_slots, push_comparison};
use crate::question::Predicate;
use instruction_set::Instruction;
use std::alloc::AllocError;

/// How many slots a test takes, after which the program goes on where the predicate is met (`goes_on`), or where it isn't.
pub(crate) fn test_slots(goes_on: bool, predicate: &Predicate) -> u64
    ensures { result ≡ counted (test_slots goes_on predicate.now) }
{
    match predicate {
        Predicate::Compare {
            field,
            comparison: _,
            operand,
        } => comparison_slots(*field, *operand),
        Predicate::Bytes { offset: _, bytes } => bytes_slots(goes_on, bytes),
        Predicate::And(first, second) => {
            test_slots(true, first).saturating_add(test_slots(goes_on, second))
        }
        Predicate::Or(first, second) => {
            test_slots(false, first).saturating_add(test_slots(goes_on, second))
        }
        Predicate::Not(other) => test_slots(!goes_on, other),
    }
}

/// How far the first of two tests jumps: over the second, and on where the second would jump.
fn over(ahead: bool, goes_on: bool, second: &Predicate, skip: u64) -> u64
    requires { test_slots goes_on second.now + skip < 2 ^ 15 }
    ensures value { result ≡ over ahead (test_slots goes_on second.now) skip }
    ensures few { result ≤ test_slots goes_on second.now + skip }
{
    let slots = test_slots(goes_on, second);
    if ahead { slots + skip } else { slots }
}

/// Of the record at a byte of the block: after this code the program goes on where the predicate is met (`goes_on`), or where it isn't;
/// else it jumps so many slots further.
pub(crate) fn push_test(
    code: &mut Vec<Instruction>,
    byte: u32,
    goes_on: bool,
    predicate: &Predicate,
    skip: u64,
) -> Result<(), AllocError>
    requires near { IsPredicate (2 ^ 15 - byte) predicate.now }
    requires room { test_slots goes_on predicate.now + skip < 2 ^ 15 }
    ensures { OnOk result (code.new.items ≡ code.old.items ++ test_code byte goes_on predicate.now skip) }
{
    match predicate {
        Predicate::Compare {
            field,
            comparison,
            operand,
        } => push_comparison(code, byte, goes_on, *field, *comparison, *operand, skip),
        Predicate::Bytes { offset, bytes } => {
            push_bytes(code, byte, goes_on, *offset, bytes, skip)
        }
        Predicate::And(first, second) => {
            let further = over(goes_on, goes_on, second, skip);
            push_test(code, byte, true, first, further)?;
            push_test(code, byte, goes_on, second, skip)
        }
        Predicate::Or(first, second) => {
            let further = over(!goes_on, goes_on, second, skip);
            push_test(code, byte, false, first, further)?;
            push_test(code, byte, goes_on, second, skip)
        }
        Predicate::Not(other) => push_test(code, byte, !goes_on, other, skip),
    }
}
