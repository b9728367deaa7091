//! A function's slots in a program, with those of all that it calls.

ghost use Rattle.std.specs.Prelude.{ℕ, ◌≡◌, ◌≤◌, ◌<◌, ◌+◌, ◌-◌, ◌++◌, IfOk, IfSome, Ok, Some, false, length, slice_get, slice_index, true, vec_len};
ghost use Rattle.ebpf_inline.specs.Bodies.{address_part, body_of, call_part, callee_part, inside_part, instruction_part, leads_to, part_of, placed, places_of};
ghost use Rattle.ebpf_inline.specs.Data.{all_data, data_begin};
ghost use Rattle.ebpf_inline.specs.Needs.{IsCounted, IsTree, Stands, lands};
ghost use Rattle.ebpf_inline.specs.Checks.{is_below};
ghost use Rattle.ebpf_inline.specs.Frames.{distance, moved_frame_pointer};
ghost use Rattle.ebpf_inline.specs.Sizes.{HasFrame, called_frame, callee_slots, slots_at};
ghost use Rattle.ebpf_inline.specs.Units.{sections_of, slot_at, slots_of};
ghost use Rattle.instruction_set.specs.Instruction.{access_of, distance_of};
ghost use Rattle.program_interface.specs.declared.TheConstants.{MOST_SLOTS};
ghost use Rattle.program_interface.specs.declared.area.TheConstants.{STACK_BYTES};

use crate::data::data_begin;
use crate::frame::{Frame, frame_address, in_frame, moved_frame_pointer};
use crate::jumps::by_distance;
use crate::kept::{kept_registers, push_loads, push_stores};
use crate::sizes::{called_frame, slots_at, within};
use crate::unit::{FunctionSlot, TranslationUnit, frame_bytes, slots_of};
use instruction_set::{Instruction, Register};
use program_interface::STACK_BYTES;
use std::alloc::{AllocError, Global};

/// How many slots take the place of a slot of a function whose slots are counted.
fn counted_slots(unit: &TranslationUnit, room: usize, frame: Frame, slot: usize) -> usize
    requires frame { HasFrame unit.now frame }
    requires small { room ≤ STACK_BYTES }
    requires counted { IsCounted unit.now room frame }
    requires there { slot < length (slots_of unit.now frame.function) }
    ensures value { slots_at (callee_slots unit.now room frame) unit.now frame.function slot ≡ Ok result }
    ensures few { result ≤ MOST_SLOTS + 8 }
{
    slots_at(unit, room, frame, slot).unwrap()
}

/// How many slots stand before those of each slot of a function, and how many there are.
fn places(
    alloc: Global,
    unit: &TranslationUnit,
    room: usize,
    frame: Frame,
) -> Result<Vec<usize>, AllocError>
    requires frame { HasFrame unit.now frame }
    requires small { room ≤ STACK_BYTES }
    requires counted { IsCounted unit.now room frame }
    ensures value { IfOk result (λ places. places.items ≡ places_of unit.now room frame) }
    ensures each { IfOk result (λ places. length places.items ≡ length (slots_of unit.now frame.function) + 1) }
    ensures few { IfOk result (λ places. (k : ℕ) → slice_index places.items k ≤ MOST_SLOTS) }
{
    let mut places = Vec::new(alloc);
    let mut place = 0;
    for slot in 0..slots_of(unit, frame.function).len() {
        places.extend_from_slice(&[place])?;
        place += counted_slots(unit, room, frame, slot);
    }
    places.extend_from_slice(&[place])?;
    Ok(places)
}

/// The distance from a slot of a program to another one.
fn distance(from: usize, to: usize) -> i16
    requires from { from ≤ MOST_SLOTS }
    requires to { to ≤ MOST_SLOTS }
    ensures { result ≡ distance from to }
{
    (to as i32 - from as i32 - 1) as i16
}

/// The slot to which an instruction at a slot of so many leads by a jump: EXIT of a function that is called leads behind all of them.
fn leads_to(is_called: bool, count: usize, slot: usize, instruction: &Instruction) -> Option<usize>
    requires slot { slot < MOST_SLOTS }
    requires lands { lands count slot (distance_of instruction.now) ≡ true }
    ensures value { result ≡ leads_to is_called count slot instruction.now }
    ensures inside { IfSome result (λ to. to ≤ count) }
{
    if matches!(instruction, Instruction::Exit) {
        return if is_called { Some(count) } else { None };
    }
    match instruction.distance() {
        Some(slots) => Some(Instruction::target(slot, slots) as usize),
        None => None,
    }
}

/// An instruction at its place.
fn placed(
    places: &[usize],
    below: usize,
    slot: usize,
    instruction: Instruction,
    to: Option<usize>,
) -> Instruction
    requires small { below ≤ STACK_BYTES }
    requires above { is_below (STACK_BYTES - below) (access_of instruction) ≡ false }
    requires few { (k : ℕ) → slice_index places.now k ≤ MOST_SLOTS }
    requires slot { slot < length places.now }
    requires to { IfSome to (λ to. to < length places.now) }
    ensures { result ≡ placed places.now below slot instruction to }
{
    match to {
        Some(to) => by_distance(instruction, distance(places[slot], places[to])),
        None => in_frame(instruction, below),
    }
}

/// An instruction at a slot of so many.
fn push_instruction(
    into: &mut Vec<Option<Instruction>>,
    frame: Frame,
    places: &[usize],
    is_called: bool,
    count: usize,
    slot: usize,
    instruction: Instruction,
) -> Result<(), AllocError>
    requires below { frame.below ≤ STACK_BYTES }
    requires count { length places.now ≡ count + 1 }
    requires most { count ≤ MOST_SLOTS }
    requires few { (k : ℕ) → slice_index places.now k ≤ MOST_SLOTS }
    requires slot { slot < count }
    requires stands { Stands count (STACK_BYTES - frame.below) slot instruction }
    ensures { IfOk result (λ _. into.new.items
        ≡ into.old.items ++ instruction_part places.now frame is_called count slot instruction (moved_frame_pointer instruction)) }
{
    match moved_frame_pointer(&instruction) {
        Some(dst) => into.extend_from_slice(&frame_address(dst, frame.below)),
        None => {
            let to = leads_to(is_called, count, slot, &instruction);
            into.extend_from_slice(&[Some(placed(places, frame.below, slot, instruction, to))])
        }
    }
}

/// A second slot.
fn push_inside(into: &mut Vec<Option<Instruction>>, before: FunctionSlot) -> Result<(), AllocError>
    ensures { IfOk result (λ _. into.new.items ≡ into.old.items ++ inside_part (Some before)) }
{
    match before {
        FunctionSlot::Address { .. } => Ok(()),
        _ => into.extend_from_slice(&[None]),
    }
}

/// What stands before a slot that isn't the first.
fn before(slots: &[FunctionSlot], slot: usize) -> FunctionSlot
    requires second { 0 < slot }
    requires there { slot < length slots.now }
    ensures { slice_get slots.now (slot - 1) ≡ Some result }
{
    slots[slot - 1]
}

/// An address of data.
fn push_address(
    into: &mut Vec<Option<Instruction>>,
    unit: &TranslationUnit,
    dst: Register,
    section: usize,
    byte: usize,
) -> Result<(), AllocError>
    requires there { section < vec_len unit.now.sections }
    requires few { length (all_data (sections_of unit.now)) ≤ STACK_BYTES }
    requires inside { data_begin (sections_of unit.now) section + byte ≤ STACK_BYTES }
    ensures { IfOk result (λ _. into.new.items ≡ into.old.items ++ address_part unit.now dst section byte) }
{
    let begin = data_begin(&unit.sections, section);
    into.extend_from_slice(&frame_address(dst, STACK_BYTES - (begin + byte)))
}

/// A call: what is kept is stored, then come the slots of what is called, and what is kept is loaded again.
#[cycle(bodies)]
fn push_call(
    alloc: Global,
    into: &mut Vec<Option<Instruction>>,
    unit: &TranslationUnit,
    room: usize,
    frame: Frame,
    callee: usize,
) -> Result<(), AllocError>
    requires frame { HasFrame unit.now frame }
    requires small { room ≤ STACK_BYTES }
    requires data { length (all_data (sections_of unit.now)) ≤ STACK_BYTES }
    requires called { callee < vec_len unit.now.functions }
    requires tree { IsTree unit.now room frame.depth (called_frame unit.now frame callee) }
    requires below { (called_frame unit.now frame callee).below ≤ STACK_BYTES }
    ensures { IfOk result (λ _. into.new.items
        ≡ into.old.items ++ call_part unit.now frame callee (callee_part unit.now room frame callee)) }
{
    let kept = kept_registers(alloc, slots_of(unit, callee))?;
    let below = frame.below + frame_bytes(unit, frame.function);
    let called = called_frame(unit, frame, callee);
    push_stores(into, below, &kept)?;
    push_body(alloc, into, unit, room, called, true)?;
    push_loads(into, below, &kept)
}

/// What takes the place of a slot of a function, at which this stands.
#[cycle(bodies)]
fn push_slot(
    alloc: Global,
    into: &mut Vec<Option<Instruction>>,
    unit: &TranslationUnit,
    room: usize,
    frame: Frame,
    places: &[usize],
    is_called: bool,
    slot: usize,
    found: FunctionSlot,
) -> Result<(), AllocError>
    requires frame { HasFrame unit.now frame }
    requires small { room ≤ STACK_BYTES }
    requires data { length (all_data (sections_of unit.now)) ≤ STACK_BYTES }
    requires counted { IsCounted unit.now room frame }
    requires places { places.now ≡ places_of unit.now room frame }
    requires each { length places.now ≡ length (slots_of unit.now frame.function) + 1 }
    requires few { (k : ℕ) → slice_index places.now k ≤ MOST_SLOTS }
    requires there { slot < length (slots_of unit.now frame.function) }
    requires found { slot_at unit.now frame.function slot ≡ Some found }
    ensures { IfOk result (λ _. into.new.items
        ≡ into.old.items ++ part_of (callee_part unit.now room frame) unit.now places.now frame is_called slot (Some found)) }
{
    let slots = slots_of(unit, frame.function);
    match found {
        FunctionSlot::Begins(instruction) => push_instruction(
            into,
            frame,
            places,
            is_called,
            slots.len(),
            slot,
            instruction,
        ),
        FunctionSlot::Inside => push_inside(into, before(slots, slot)),
        FunctionSlot::Address { dst, section, byte } => push_address(
            into, unit, dst, section, byte,
        ),
        FunctionSlot::Calls(callee) => push_call(alloc, into, unit, room, frame, callee),
    }
}

/// The slots of a function, with those of all that it calls.
#[cycle(bodies)]
pub(crate) fn push_body(
    alloc: Global,
    into: &mut Vec<Option<Instruction>>,
    unit: &TranslationUnit,
    room: usize,
    frame: Frame,
    is_called: bool,
) -> Result<(), AllocError>
    requires there { frame.function < vec_len unit.now.functions }
    requires small { room ≤ STACK_BYTES }
    requires data { length (all_data (sections_of unit.now)) ≤ STACK_BYTES }
    requires tree { IsTree unit.now room frame.depth frame }
    ensures { IfOk result (λ _. into.new.items ≡ into.old.items ++ body_of unit.now room frame.depth frame is_called) }
{
    let here = within(frame);
    let places = places(alloc, unit, room, here)?;
    let slots = slots_of(unit, frame.function);
    for slot in 0..slots.len() {
        push_slot(
            alloc,
            into,
            unit,
            room,
            here,
            &places,
            is_called,
            slot,
            slots[slot],
        )?;
    }
    Ok(())
}
