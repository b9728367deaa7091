//! The registers that a call keeps.

ghost use Rattle.std.specs.Prelude.{◌≡◌, ◌≤◌, ◌<◌, if◌then◌else◌, length};
ghost use Rattle.ebpf_inline.specs.Units.{kept_by, slot_writes, slots_write};

use crate::unit::FunctionSlot;
use instruction_set::Register;

/// Does a slot write a register?
fn slot_writes(slot: FunctionSlot, register: Register) -> bool
    ensures { result ≡ slot_writes register slot }
{
    match slot {
        FunctionSlot::Begins(instruction) => instruction.writes(register),
        FunctionSlot::Address { dst, .. } => dst == register,
        FunctionSlot::Inside | FunctionSlot::Calls(_) => false,
    }
}

/// Do slots of a function write a register, but by what they call?
pub fn slots_write(slots: &[FunctionSlot], register: Register) -> bool
    ensures { result ≡ slots_write slots.now register }
{
    slots.iter().any(|slot| slot_writes(*slot, register))
}

/// One, where slots of a function write the register with this number.
fn write_count(slots: &[FunctionSlot], number: u8) -> usize
    requires { number < 11 }
    ensures { result ≡ (if slots_write slots.now number then 1 else 0) }
{
    if slots_write(slots, Register::from_number(number)) {
        1
    } else {
        0
    }
}

/// How many registers are kept for who calls a function with these slots.
pub fn kept_count(slots: &[FunctionSlot]) -> usize
    ensures value { result ≡ length (kept_by slots.now) }
    ensures few { result ≤ 4 }
{
    write_count(slots, 6) + write_count(slots, 7) + write_count(slots, 8) + write_count(slots, 9)
}
