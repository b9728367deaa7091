//! Remainders: clang makes a difference of a remainder by a constant, as r = n - n / c * c, of which less is known.

ghost use Rattle.ebpf_link.specs.Remainders.{RemaindersAreDifferences};

use crate::flow::ways_from;
use crate::lists::set_answer;
use crate::liveness::{bit, writes};
use instruction_set::{Instruction, Operation, Register, Source, Width};
use std::alloc::{AllocError, Global};

/// How far back what computed a register is looked for.
const FARTHEST: usize = 32;

/// Which slots are jumped to.
fn targets(alloc: Global, slots: &[Option<Instruction>]) -> Result<Vec<bool>, AllocError> {
    let mut targets = vec![in alloc; false; slots.len()]?;
    for slot in 0..slots.len() {
        if let Ok(ways) = ways_from(slots, slot) {
            if let Some(to) = ways.target {
                set_answer(&mut targets, to, true);
            }
        }
    }
    Ok(targets)
}

/// Does what stands at a slot write a register?
fn writes_at(slots: &[Option<Instruction>], slot: usize, register: Register) -> bool {
    match slots.get(slot) {
        Some(Some(instruction)) => (writes(instruction) & bit(register)) != 0,
        _ => false,
    }
}

/// Does the slot before lead here, and nothing else?
fn is_behind(slots: &[Option<Instruction>], targets: &[bool], slot: usize) -> bool {
    if slot == 0 || !matches!(targets.get(slot), Some(false)) {
        return false;
    }
    !matches!(
        slots.get(slot - 1),
        Some(Some(Instruction::Jump { .. } | Instruction::JumpLong { .. } | Instruction::Exit))
    )
}

/// The last slot before one that writes a register, where no other one leads between them.
fn written_before(
    slots: &[Option<Instruction>],
    targets: &[bool],
    slot: usize,
    register: Register,
) -> Option<usize> {
    let mut here = slot;
    for _ in 0..FARTHEST {
        if here == 0 || !is_behind(slots, targets, here) {
            return None;
        }
        here -= 1;
        if writes_at(slots, here, register) {
            return Some(here);
        }
    }
    None
}

/// Arithmetic at a slot on a register: by what.
fn operand_at(
    slots: &[Option<Instruction>],
    slot: usize,
    wanted: Operation,
    register: Register,
) -> Option<(Width, Source)> {
    match slots.get(slot) {
        Some(
            Some(
                Instruction::Arithmetic {
                    width,
                    operation,
                    dst,
                    source,
                },
            ),
        ) if *operation == wanted && *dst == register => Some((*width, *source)),
        _ => None,
    }
}

/// Is a register unwritten from a slot up to another one?
fn is_kept(slots: &[Option<Instruction>], from: usize, to: usize, register: Register) -> bool {
    for slot in from..to {
        if writes_at(slots, slot, register) {
            return false;
        }
    }
    true
}

/// Is an operand the same from a slot up to another one?
fn is_kept_source(slots: &[Option<Instruction>], from: usize, to: usize, source: Source) -> bool {
    match source {
        Source::Immediate(_) => true,
        Source::Register(register) => is_kept(slots, from, to, register),
    }
}

/// The difference that clang makes is the remainder.
pub(crate) fn remainders_are_differences()
    ensures { RemaindersAreDifferences }
{}

/// The remainder that a slot has the difference of.
fn remainder_at(
    slots: &[Option<Instruction>],
    targets: &[bool],
    slot: usize,
) -> Option<Instruction> {
    let Some(
        Some(
            Instruction::Arithmetic {
                width,
                operation: Operation::Subtract,
                dst,
                source: Source::Register(part),
            },
        ),
    ) = slots.get(slot)
    else {
        return None;
    };
    let (width, dst, part) = (*width, *dst, *part);
    let product = written_before(slots, targets, slot, part)?;
    let by = operand_at(slots, product, Operation::Multiply, part)?;
    let quotient = written_before(slots, targets, product, part)?;
    let again = operand_at(slots, quotient, Operation::Divide, part)?;
    let copy = written_before(slots, targets, quotient, part)?;
    let (copied, from) = operand_at(slots, copy, Operation::Move, part)?;
    let is_same = by == again && by.0 == width && (copied == width || copied == Width::Bits64);
    let is_kept = is_kept(slots, copy, slot, dst) && is_kept_source(slots, quotient, slot, by.1);
    if is_same && is_kept && from == Source::Register(dst) && by.1 != Source::Register(part) {
        return Some(Instruction::Arithmetic {
            width,
            operation: Operation::Modulo,
            dst,
            source: by.1,
        });
    }
    None
}

/// The same slots, with remainders in place of such differences.
pub(crate) fn with_remainders(
    alloc: Global,
    slots: &[Option<Instruction>],
) -> Result<Vec<Option<Instruction>>, AllocError> {
    let targets = targets(alloc, slots)?;
    let mut all = Vec::new(alloc);
    for slot in 0..slots.len() {
        let found = match remainder_at(slots, &targets, slot) {
            Some(remainder) => Some(remainder),
            None => slots[slot],
        };
        all.extend_from_slice(&[found])?;
    }
    Ok(all)
}
