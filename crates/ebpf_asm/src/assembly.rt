//! The assembler: labels in a first pass over the lines, bytes in a second.

ghost use Rattle.std.specs.Prelude.{◌≡◌, ◌≤◌, ◌<◌, ◌+◌, ◌-ℤ◌, ◌^◌, ℕ, pos, List, [], None, IfOk, OnOk, IfErr, IfSome, Some, option_copied};
ghost use Rattle.ebpf_asm.specs.Assembly.{assembled, first_fault, label_map, line_fault, jump_by as jumping_by, resolved, bytes_of_lines, slot_count, fault_in};
ghost use Rattle.common_definitions.specs.Gives.{Gives};
ghost use Rattle.ebpf_asm.specs.steps.Labels.{label_in};
ghost use Rattle.ebpf_asm.specs.steps.LineView.{line_views};

use crate::fault::{AssembleFault, Fault, FaultKind};
use crate::label::{Labels, define, is_defined, slot_of};
use crate::line::{Line, slots_of};
use crate::number::{long, short};
use crate::text::read_lines;
use ebpf_decode::push_instruction;
use instruction_set::Instruction;
use program_interface::MOST_SLOTS;
use std::alloc::Global;
use std::collections::BTreeMap;

/// The bytes of the instructions that a text spells, in order; none for a text without instructions. Else the fault is
/// told of the lowest line that has one by itself, or where none has, of the lowest that jumps amiss.
///
/// # Errors
///
/// That of the lowest line that can't be read, has the label of an earlier line, or ends behind slot 4095; else that of the
/// lowest line that jumps to an unknown label or too far. Or want of memory.
pub fn assemble(alloc: Global, text: &[u8]) -> Result<Vec<u8>, AssembleFault>
    ensures { Gives fault_in (λ bytes. bytes.items) result (assembled text.now) }
{
    let lines = read_lines(alloc, text)?;
    let labels = labels_of(alloc, &lines)?;
    bytes_of(alloc, &lines, &labels)
}

/// The first pass: the labels, unless a line has a fault of its own.
fn labels_of<'a>(alloc: Global, lines: &[Line<'a>]) -> Result<Labels<'a>, AssembleFault>
    ensures fault { IfErr result (λ error. IfSome (fault_in error) (λ fault. first_fault [] (line_views lines.now) ≡ Some fault)) }
    ensures none { OnOk result (first_fault [] (line_views lines.now) ≡ None) }
    ensures labels { IfOk result (λ labels. (name : List ℕ) → label_in labels name ≡ label_map (line_views lines.now) name) }
    ensures most { OnOk result (slot_count (line_views lines.now) ≤ MOST_SLOTS) }
{
    let mut labels = BTreeMap::new(alloc);
    let mut slots = 0;
    for (index, line) in lines.iter().enumerate() {
        let twice = is_defined(&labels, line.label);
        if let Some(kind) = fault_of(twice, slots, &line.instruction) {
            return Err(fault_at(index, kind));
        }
        define(&mut labels, line.label, slots)?;
        slots += slots_of(&line.instruction);
    }
    Ok(labels)
}

/// What is wrong with a line before which so many slots are taken.
fn fault_of(
    is_twice: bool,
    slots: usize,
    instruction: &Result<Option<Instruction>, FaultKind>,
) -> Option<FaultKind>
    requires { slots ≤ MOST_SLOTS }
    ensures { result ≡ line_fault is_twice slots instruction.now }
{
    if is_twice {
        return Some(FaultKind::LabelTwice);
    }
    if let Err(kind) = instruction {
        return Some(*kind);
    }
    if slots + slots_of(instruction) > MOST_SLOTS {
        return Some(FaultKind::TooLong);
    }
    None
}

/// The fault of the line at this index.
fn fault_at(index: usize, kind: FaultKind) -> AssembleFault
    requires { index < 2 ^ 63 }
    ensures { result ≡ AssembleFault.Fault (record { line = index + 1; kind = kind }) }
{
    AssembleFault::Fault(Fault {
        line: index + 1,
        kind,
    })
}

/// The second pass: the bytes of the lines, whose labels these are.
fn bytes_of(
    alloc: Global,
    lines: &[Line<'_>],
    labels: &Labels<'_>,
) -> Result<Vec<u8>, AssembleFault>
    requires { slot_count (line_views lines.now) ≤ MOST_SLOTS }
    ensures { Gives fault_in (λ bytes. bytes.items) result (bytes_of_lines (label_in labels.now) 1 0 (line_views lines.now)) }
{
    let mut bytes = Vec::new(alloc);
    let mut slot = 0;
    for (index, line) in lines.iter().enumerate() {
        let Ok(Some(instruction)) = line.instruction else {
            continue;
        };
        let instruction = match resolve(labels, slot, instruction, line.target) {
            Ok(instruction) => instruction,
            Err(kind) => return Err(fault_at(index, kind)),
        };
        push_instruction(&mut bytes, &instruction)?;
        slot += slots_of(&line.instruction);
    }
    Ok(bytes)
}

/// An instruction at a slot, its distance leading to the label that it names.
fn resolve(
    labels: &Labels<'_>,
    slot: usize,
    instruction: Instruction,
    target: Option<&[u8]>,
) -> Result<Instruction, FaultKind>
    ensures { result ≡ resolved (label_in labels.now) slot instruction (option_copied target.entry) }
{
    let Some(name) = target else {
        return Ok(instruction);
    };
    let Some(to) = slot_of(labels, name) else {
        return Err(FaultKind::UnknownLabel);
    };
    jump_by(instruction, distance(slot, to))
}

/// From the slot after one slot to another (RFC 9669, 4.3).
fn distance(slot: usize, to: usize) -> i128
    ensures { result ≡ pos to -ℤ pos (slot + 1) }
{
    to as i128 - (slot as i128 + 1)
}

/// The instruction with this distance, where its field takes it.
fn jump_by(instruction: Instruction, distance: i128) -> Result<Instruction, FaultKind>
    ensures { result ≡ jumping_by instruction distance }
{
    match instruction {
        Instruction::Jump { .. } => match short(distance) {
            Ok(distance) => Ok(Instruction::Jump { distance }),
            Err(_) => Err(FaultKind::LabelTooFar),
        },
        Instruction::JumpLong { .. } => match long(distance) {
            Ok(distance) => Ok(Instruction::JumpLong { distance }),
            Err(_) => Err(FaultKind::LabelTooFar),
        },
        Instruction::Branch {
            width,
            relation,
            dst,
            source,
            ..
        } => match short(distance) {
            Ok(distance) => Ok(Instruction::Branch {
                width,
                relation,
                dst,
                source,
                distance,
            }),
            Err(_) => Err(FaultKind::LabelTooFar),
        },
        _ => Ok(instruction),
    }
}
