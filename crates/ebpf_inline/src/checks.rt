//! What hinders a slot of a function from being a part of a program.

ghost use Rattle.std.specs.Prelude.{◌≡◌, ◌≤◌, ◌<◌, Some, length, map, slice_get};
ghost use Rattle.common_definitions.specs.Checks.{first_failed};
ghost use Rattle.ebpf_inline.specs.Checks.{address_checks, call_checks, fault_of, has_data, inside_checks, instruction_checks, is_below, is_inside, takes_frame_pointer, takes_two};
ghost use Rattle.instruction_set.specs.Instruction.{access_of};
ghost use Rattle.instruction_set.specs.Program.{is_wide};
ghost use Rattle.program_interface.specs.declared.TheConstants.{MOST_SLOTS};

use crate::frame::{moved_frame_pointer, reads_frame_pointer};
use crate::jumps::{begins, leaves};
use crate::unit::{FunctionSlot, TranslationUnit};
use crate::unit_fault::SlotFault;
use instruction_set::{Instruction, Register};

/// Is it the wide instruction (RFC 9669, 3.2)?
fn is_wide(instruction: &Instruction) -> bool
    ensures { result ≡ is_wide instruction.now }
{
    matches!(instruction, Instruction::LoadImmediate { .. })
}

/// Does a slot begin what takes two, a wide instruction or an address?
pub fn takes_two(slot: FunctionSlot) -> bool
    ensures { result ≡ takes_two (Some slot) }
{
    match slot {
        FunctionSlot::Begins(instruction) => is_wide(&instruction),
        FunctionSlot::Address { .. } => true,
        FunctionSlot::Inside | FunctionSlot::Calls(_) => false,
    }
}

/// Has a function a second slot here?
fn is_inside(slots: &[FunctionSlot], slot: usize) -> bool
    ensures { result ≡ is_inside (slice_get slots.now slot) }
{
    slot < slots.len() && matches!(slots[slot], FunctionSlot::Inside)
}

/// Does an instruction access bytes below its function's frame?
fn accesses_below(instruction: &Instruction, frame_bytes: usize) -> bool
    ensures { result ≡ is_below frame_bytes (access_of instruction.now) }
{
    match instruction.access() {
        Some(access) => {
            access.base == Register::FRAME_POINTER
                && access.offset < 0
                && usize::from(access.offset.unsigned_abs()) > frame_bytes
        }
        None => false,
    }
}

/// Does an instruction write R10, or take it otherwise than as an address, or to move it?
fn takes_frame_pointer(instruction: &Instruction) -> bool
    ensures { result ≡ takes_frame_pointer instruction.now }
{
    instruction.writes(Register::FRAME_POINTER)
        || reads_frame_pointer(instruction) && moved_frame_pointer(instruction).is_none()
}

/// What hinders an instruction at a slot of a function.
fn instruction_fault(
    slots: &[FunctionSlot],
    frame_bytes: usize,
    slot: usize,
    instruction: &Instruction,
) -> Option<SlotFault>
    requires { slot < MOST_SLOTS }
    ensures { result ≡ first_failed (instruction_checks slots.now frame_bytes slot instruction.now) }
{
    if is_wide(instruction) != is_inside(slots, slot + 1) {
        return Some(SlotFault::Half);
    }
    if takes_frame_pointer(instruction) {
        return Some(SlotFault::FramePointer);
    }
    if accesses_below(instruction, frame_bytes) {
        return Some(SlotFault::BelowFrame);
    }
    if leaves(slots, slot, instruction) {
        return Some(SlotFault::Leaves);
    }
    None
}

/// Is there this byte of data, or is it the one behind its section's last?
fn has_data(sections: &[Vec<u8>], section: usize, byte: usize) -> bool
    ensures { result ≡ has_data (slice_get (map (λ section. section.items) sections.now) section) byte }
{
    section < sections.len() && byte <= sections[section].len()
}

/// What hinders an address of data at a slot of a function.
fn address_fault(
    unit: &TranslationUnit,
    slots: &[FunctionSlot],
    slot: usize,
    dst: Register,
    section: usize,
    byte: usize,
) -> Option<SlotFault>
    requires { slot < MOST_SLOTS }
    ensures { result ≡ first_failed (address_checks unit.now slots.now slot dst section byte) }
{
    if !is_inside(slots, slot + 1) {
        return Some(SlotFault::Half);
    }
    if dst == Register::FRAME_POINTER {
        return Some(SlotFault::FramePointer);
    }
    if !has_data(&unit.sections, section, byte) {
        return Some(SlotFault::NoData);
    }
    if !begins(slots, (slot + 2) as i64) {
        return Some(SlotFault::Leaves);
    }
    None
}

/// What hinders a second slot of a function.
fn inside_fault(slots: &[FunctionSlot], slot: usize) -> Option<SlotFault>
    requires { slot < length slots.now }
    ensures { result ≡ first_failed (inside_checks slots.now slot) }
{
    if slot == 0 || !takes_two(slots[slot - 1]) {
        return Some(SlotFault::Half);
    }
    None
}

/// What hinders a call of a function, where there are so many.
fn call_fault(
    functions: usize,
    slots: &[FunctionSlot],
    slot: usize,
    callee: usize,
) -> Option<SlotFault>
    requires { slot < MOST_SLOTS }
    ensures { result ≡ first_failed (call_checks functions slots.now slot callee) }
{
    if callee >= functions {
        return Some(SlotFault::NoFunction);
    }
    if !begins(slots, (slot + 1) as i64) {
        return Some(SlotFault::Leaves);
    }
    None
}

/// What hinders a slot of a function.
pub fn slot_fault(
    unit: &TranslationUnit,
    slots: &[FunctionSlot],
    frame_bytes: usize,
    slot: usize,
) -> Option<SlotFault>
    requires there { slot < length slots.now }
    requires few { length slots.now ≤ MOST_SLOTS }
    ensures { result ≡ fault_of unit.now slots.now frame_bytes slot (slice_get slots.now slot) }
{
    match slots[slot] {
        FunctionSlot::Begins(instruction) => {
            instruction_fault(slots, frame_bytes, slot, &instruction)
        }
        FunctionSlot::Inside => inside_fault(slots, slot),
        FunctionSlot::Calls(callee) => call_fault(unit.functions.len(), slots, slot, callee),
        FunctionSlot::Address { dst, section, byte } => {
            address_fault(unit, slots, slot, dst, section, byte)
        }
    }
}
