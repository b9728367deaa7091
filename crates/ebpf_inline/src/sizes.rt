//! How many slots a function takes in a program, with all that it calls.

ghost use Rattle.std.specs.Prelude.{◌≡◌, ◌≤◌, ◌<◌, ◌+◌, ◌-◌, IfOk, None, Some, if◌then◌else◌, is_some, length, vec_len};
ghost use Rattle.common_definitions.specs.Checks.{first_failed};
ghost use Rattle.ebpf_inline.specs.Frames.{moved_frame_pointer};
ghost use Rattle.ebpf_inline.specs.Sizes.{HasFrame, body_slots, call_slots, called_frame, callee_slots, few_slots, frame_checks, inside_slots, kept_bytes, slots_at, tree_slots, within};
ghost use Rattle.ebpf_inline.specs.Units.{frame_bytes, slots_of};
ghost use Rattle.program_interface.specs.declared.area.TheConstants.{STACK_BYTES};

use crate::checks::slot_fault;
use crate::frame::{Frame, moved_frame_pointer};
use crate::unit::{FunctionSlot, TranslationUnit, frame_bytes, slots_of};
use crate::unit_fault::UnitFault;
use crate::written::kept_count;
use instruction_set::Instruction;
use program_interface::MOST_SLOTS;

/// So many slots, unless that is more than a program can have.
fn few_slots(slots: usize) -> Result<usize, UnitFault>
    ensures value { result ≡ few_slots slots }
    ensures few { IfOk result (λ slots. slots ≤ MOST_SLOTS) }
{
    if slots <= MOST_SLOTS {
        Ok(slots)
    } else {
        Err(UnitFault::TooLong)
    }
}

/// The bytes that so many registers take that are kept for a call: whole words of 16, so that frames stay aligned as clang takes them
/// to be.
fn kept_bytes(count: usize) -> usize
    requires { count ≤ 4 }
    ensures { result ≡ kept_bytes count }
{
    8 * (count + count % 2)
}

/// The frame of a function that is called by the one of a frame: it begins below that and what is kept for it.
pub fn called_frame(unit: &TranslationUnit, frame: Frame, callee: usize) -> Frame
    requires there { frame.function < vec_len unit.now.functions }
    requires called { callee < vec_len unit.now.functions }
    requires room { frame.below + frame_bytes unit.now frame.function ≤ STACK_BYTES }
    ensures { result ≡ called_frame unit.now frame callee }
{
    let kept = kept_count(slots_of(unit, callee));
    Frame {
        function: callee,
        depth: frame.depth,
        below: frame.below + frame_bytes(unit, frame.function) + kept_bytes(kept),
    }
}

/// How many slots take the place of an instruction: two, where it moves R10.
fn instruction_slots(instruction: &Instruction) -> usize
    ensures value { result ≡ (if is_some (moved_frame_pointer instruction.now) then 2 else 1) }
    ensures few { result ≤ 2 }
{
    if moved_frame_pointer(instruction).is_some() {
        2
    } else {
        1
    }
}

/// How many slots take the place of a second slot: none behind an address, which is two instructions.
fn inside_slots(before: FunctionSlot) -> usize
    ensures value { result ≡ inside_slots (Some before) }
    ensures few { result ≤ 1 }
{
    match before {
        FunctionSlot::Address { .. } => 0,
        _ => 1,
    }
}

/// How many slots take the place of a slot of a function with a frame, beside which the stack has so much room and behind which there may
/// be so many.
#[cycle(sizes)]
pub fn slots_at(
    unit: &TranslationUnit,
    room: usize,
    frame: Frame,
    slot: usize,
) -> Result<usize, UnitFault>
    requires frame { HasFrame unit.now frame }
    requires small { room ≤ STACK_BYTES }
    requires there { slot < length (slots_of unit.now frame.function) }
    ensures value { result ≡ slots_at (callee_slots unit.now room frame) unit.now frame.function slot }
    ensures few { IfOk result (λ slots. slots ≤ MOST_SLOTS + 8) }
{
    let slots = slots_of(unit, frame.function);
    let bytes = frame_bytes(unit, frame.function);
    if let Some(fault) = slot_fault(unit, slots, bytes, slot) {
        return Err(UnitFault::Slot(frame.function, slot, fault));
    }
    match slots[slot] {
        FunctionSlot::Begins(instruction) => Ok(instruction_slots(&instruction)),
        FunctionSlot::Inside => Ok(inside_slots(slots[slot - 1])),
        FunctionSlot::Address { .. } => Ok(2),
        FunctionSlot::Calls(callee) => call_slots(unit, room, frame, callee),
    }
}

/// How many slots take the place of a call.
#[cycle(sizes)]
fn call_slots(
    unit: &TranslationUnit,
    room: usize,
    frame: Frame,
    callee: usize,
) -> Result<usize, UnitFault>
    requires frame { HasFrame unit.now frame }
    requires small { room ≤ STACK_BYTES }
    requires called { callee < vec_len unit.now.functions }
    ensures value { result ≡ call_slots (callee_slots unit.now room frame) unit.now callee }
    ensures few { IfOk result (λ slots. slots ≤ MOST_SLOTS + 8) }
{
    let called = tree_slots(unit, room, called_frame(unit, frame, callee))?;
    Ok(2 * kept_count(slots_of(unit, callee)) + called)
}

/// How many slots the slots of a function take.
#[cycle(sizes)]
fn body_slots(unit: &TranslationUnit, room: usize, frame: Frame) -> Result<usize, UnitFault>
    requires frame { HasFrame unit.now frame }
    requires small { room ≤ STACK_BYTES }
    ensures value { result ≡ body_slots (callee_slots unit.now room frame) unit.now frame.function }
    ensures few { IfOk result (λ slots. slots ≤ MOST_SLOTS) }
{
    let mut slots = 0;
    for slot in 0..slots_of(unit, frame.function).len() {
        let here = slots_at(unit, room, frame, slot)?;
        slots = few_slots(slots + here)?;
    }
    Ok(slots)
}

/// Why a function can't have a frame, where the stack has so much room beside the data.
fn frame_fault(unit: &TranslationUnit, room: usize, frame: Frame) -> Option<UnitFault>
    requires there { frame.function < vec_len unit.now.functions }
    ensures { result ≡ first_failed (frame_checks unit.now room frame) }
{
    let slots = slots_of(unit, frame.function).len();
    let bytes = frame_bytes(unit, frame.function);
    if slots == 0 {
        return Some(UnitFault::Empty(frame.function));
    }
    if frame.below > room || bytes > room - frame.below || bytes % 8 != 0 {
        return Some(UnitFault::NoRoom(frame.function));
    }
    if slots > MOST_SLOTS {
        return Some(UnitFault::TooLong);
    }
    None
}

/// The same frame, behind which there is one less.
pub fn within(frame: Frame) -> Frame
    requires { 0 < frame.depth }
    ensures { result ≡ within frame (frame.depth - 1) }
{
    Frame {
        depth: frame.depth - 1,
        ..frame
    }
}

/// How many slots a function takes with a frame, with all that it calls.
#[cycle(sizes)]
pub fn tree_slots(unit: &TranslationUnit, room: usize, frame: Frame) -> Result<usize, UnitFault>
    requires there { frame.function < vec_len unit.now.functions }
    requires small { room ≤ STACK_BYTES }
    ensures value { result ≡ tree_slots unit.now room frame.depth frame }
    ensures few { IfOk result (λ slots. slots ≤ MOST_SLOTS) }
{
    if frame.depth == 0 {
        return Err(UnitFault::TooDeep(frame.function));
    }
    if let Some(fault) = frame_fault(unit, room, frame) {
        return Err(fault);
    }
    body_slots(unit, room, within(frame))
}
