//! The machine.

mod effect;
mod emit;
mod guessed;
mod run;
mod step;

ghost use Rattle.std.specs.Prelude.{◌<◌, ◌≤◌, ◌^◌, length};

use program_interface::{CONTEXT_BYTES, REGISTERS, SCRATCH_BYTES, STACK_BYTES, start_registers};
pub use step::{Flow, Step};

/// A machine over one block: its registers, and what it borrows.
#[derive(Drop)]
pub struct Machine<'a> {
    block: &'a [u8],
    context: &'a [u8; CONTEXT_BYTES],
    scratch: &'a mut [u8; SCRATCH_BYTES],
    stack: &'a mut [u8; STACK_BYTES],
    registers: [u64; REGISTERS],
    slot: usize,
    steps: u64,
    group_length: usize,
    frames: u64,
    ghost block_fits: { length block.now < 2 ^ 32 },
    // so that the number of frames doesn't overflow
    ghost few_frames: { frames ≤ group_length },
}

impl<'a> Machine<'a> {
    ghost use Rattle.std.specs.Prelude.{◌≡◌, ◌<◌, ◌^◌, ℕ, List, length, replicate};
    ghost use Rattle.interp.specs.Machine.{IsNew, block_length, frames_of, group_length, memory_of, scratch_name, stack_name, machine_slot, state_at, machine_state, steps_of};
    ghost use Rattle.program_meaning.specs.State.{at_start};

    /// A machine at the start of a block run, at slot 0: R1, R2 and R3 are the addresses of
    /// context, block and scratch, R10 is the end of the stack, all other registers are 0; what it
    /// borrows is as it is handed, the stack as zeros (profile).
    #[inline(always)]
    pub fn new(
        block: &'a [u8],
        context: &'a [u8; CONTEXT_BYTES],
        scratch: &'a mut [u8; SCRATCH_BYTES],
        stack: &'a mut [u8; STACK_BYTES],
    ) -> Machine<'a>
        requires small { length block.now < 2 ^ 32 }
        requires zeros { stack.old ≡ replicate STACK_BYTES 0 }
        ensures state { (group : List ℕ) → machine_state result group ≡ at_start block.now context.now scratch.old }
        ensures new { IsNew result }
        ensures block { block_length result ≡ length block.now }
        ensures slot { machine_slot result ≡ 0 }
        ensures same_scratch { scratch_name result ≡ scratch.entry.ghost_name }
        ensures same_stack { stack_name result ≡ stack.entry.ghost_name }
    {
        Machine {
            block,
            context,
            scratch,
            stack,
            registers: start_registers(),
            slot: 0,
            steps: 0,
            group_length: 0,
            frames: 0,
        }
    }

    /// The block.
    #[inline(always)]
    pub fn block(&self) -> &'a [u8]
        ensures { result.now ≡ (memory_of self.now).block }
    {
        self.block
    }

    /// Has the machine stand at this slot, after so many steps.
    #[inline(always)]
    pub fn stand_at(&mut self, slot: usize, steps: u64)
        ensures state { (group : List ℕ) → machine_state self.new group ≡ state_at self.old slot group }
        ensures steps { steps_of self.new ≡ steps }
        ensures group_bytes { group_length self.new ≡ group_length self.old }
        ensures same_scratch { scratch_name self.new ≡ scratch_name self.old }
        ensures same_stack { stack_name self.new ≡ stack_name self.old }
    {
        self.slot = slot;
        self.steps = steps;
    }

    /// The slot of the instruction at which the machine stands.
    pub fn slot(&self) -> usize
        ensures { result ≡ machine_slot self.now }
    {
        self.slot
    }

    /// The number of steps taken.
    pub fn steps(&self) -> u64
        ensures { result ≡ steps_of self.now }
    {
        self.steps
    }

    /// The length of the group in bytes.
    pub fn group_length(&self) -> usize
        ensures { result ≡ group_length self.now }
    {
        self.group_length
    }

    /// The number of frames in the group.
    pub fn frames(&self) -> u64
        ensures { result ≡ frames_of self.now }
    {
        self.frames
    }
}
