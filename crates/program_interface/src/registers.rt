//! The registers, and what they have at the start of a block run.

ghost use Rattle.std.specs.Prelude.{◌≡◌};
ghost use Rattle.program_interface.specs.Registers.{registers_at_start};

use crate::area::{Area, STACK_BYTES};

/// The number of registers, R0 to R10 (BPF ABI 1.0, Registers and calling convention).
pub const REGISTERS: usize = 11;

/// The number of registers that a call leaves 0, R0 to R5 (profile). These are the ones that a call need not
/// keep (BPF ABI 1.0, Registers and calling convention).
pub const CLEARED_REGISTERS: usize = 6;

/// The registers at the start of a block run: R1, R2 and R3 are the addresses of context, block and
/// scratch, R10 is the end of the stack, and all others are 0 (profile).
#[inline(always)]
pub fn start_registers() -> [u64; REGISTERS]
    ensures { result ≡ registers_at_start }
{
    [
        0,
        Area::Context.address(),
        Area::Block.address(),
        Area::Scratch.address(),
        0,
        0,
        0,
        0,
        0,
        0,
        Area::Stack.address() + STACK_BYTES as u64,
    ]
}
