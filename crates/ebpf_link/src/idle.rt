//! Arithmetic that changes nothing, by what is known of its operands: a sum with 0, a mask over all that a word can have, a move of a
//! register into itself.

ghost use Rattle.std.specs.Prelude.{true, ◌≡◌};
ghost use Rattle.ebpf_link.specs.Idle.{IsIdleByZero, IsWhole, LeavesAsIs};
ghost use Rattle.ebpf_link.specs.Masks.{IsMaskOver};

use crate::known::{Known, source_fact};
use crate::visiting::ONES;
use instruction_set::{Instruction, Operation, Source, Width};
use word_domain::Domain;

/// Gives an operation its first operand, where the second is 0?
fn is_idle_by_zero(operation: Operation) -> bool
    ensures { result ≡ true → IsIdleByZero operation }
{
    match operation {
        Operation::Add => true,
        Operation::Subtract => true,
        Operation::Or => true,
        Operation::Xor => true,
        Operation::LeftShift => true,
        Operation::RightShift => true,
        _ => false,
    }
}

/// Is a number ones alone, and no less than another one?
fn is_mask_over(mask: u64, most: u64) -> bool
    ensures { result ≡ true → IsMaskOver most mask }
{
    for cut in 0..20u32 {
        if u64::from(ONES >> cut) == mask {
            return most <= mask;
        }
    }
    false
}

/// Takes an instruction of a width all bits of a word that is at most so much?
fn is_whole(width: Width, most: u64) -> bool
    ensures { result ≡ true → IsWhole width most }
{
    match width {
        Width::Bits32 => most < 0x1_0000_0000,
        Width::Bits64 => true,
    }
}

/// Leaves arithmetic in its destination what that has?
pub(crate) fn leaves_as_is(known: &Known, instruction: &Instruction) -> bool
    ensures { result ≡ true → LeavesAsIs known.now.facts instruction.now }
{
    let Instruction::Arithmetic {
        width,
        operation,
        dst,
        source,
    } = *instruction
    else {
        return false;
    };
    let first = known.get(dst).bounds();
    let second = source_fact(known, source).bounds();
    match operation {
        Operation::Move => source == Source::Register(dst) && is_whole(width, first.high),
        Operation::And => second.low == second.high && is_mask_over(second.low, first.high),
        _ => second.high == 0 && is_whole(width, first.high) && is_idle_by_zero(operation),
    }
}
