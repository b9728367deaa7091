//! Where instructions of a function lead.

ghost use Rattle.std.specs.Prelude.{◌≡◌, ◌≤◌, ◌<◌, length};
ghost use Rattle.ebpf_inline.specs.Checks.{begins, goes_on, leaves};
ghost use Rattle.ebpf_inline.specs.Frames.{by_distance};
ghost use Rattle.program_interface.specs.declared.TheConstants.{MOST_SLOTS};

use crate::unit::FunctionSlot;
use instruction_set::Instruction;

/// Does an instruction, a call or an address begin at this slot of a function?
pub fn begins(slots: &[FunctionSlot], slot: i64) -> bool
    ensures { result ≡ begins slots.now slot }
{
    if slot < 0 || slot as u64 >= slots.len() as u64 {
        return false;
    }
    !matches!(slots[slot as usize], FunctionSlot::Inside)
}

/// May an instruction lead to what stands behind it, but by a distance?
fn goes_on(instruction: &Instruction) -> bool
    ensures { result ≡ goes_on instruction.now }
{
    !matches!(
        instruction,
        Instruction::Jump { .. } | Instruction::JumpLong { .. } | Instruction::Exit
    )
}

/// Does an instruction at a slot lead to a slot at which nothing begins?
pub fn leaves(slots: &[FunctionSlot], slot: usize, instruction: &Instruction) -> bool
    requires { slot < MOST_SLOTS }
    ensures { result ≡ leaves slots.now slot instruction.now }
{
    if goes_on(instruction) && !begins(slots, (slot + instruction.slots()) as i64) {
        return true;
    }
    match instruction.distance() {
        Some(distance) => !begins(slots, Instruction::target(slot, distance)),
        None => false,
    }
}

/// The same jump by another distance; EXIT becomes a jump.
pub fn by_distance(instruction: Instruction, slots: i16) -> Instruction
    ensures { result ≡ by_distance slots instruction }
{
    match instruction {
        Instruction::Jump { .. } | Instruction::JumpLong { .. } | Instruction::Exit => {
            Instruction::Jump { distance: slots }
        }
        Instruction::Branch {
            width,
            relation,
            dst,
            source,
            ..
        } => Instruction::Branch {
            width,
            relation,
            dst,
            source,
            distance: slots,
        },
        other => other,
    }
}
