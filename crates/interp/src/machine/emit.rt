//! Emit, the helper that adds a frame to the group.

ghost use Rattle.std.specs.Prelude.{◌≡◌, ◌++◌, replicate, drop};

use crate::accesses::write_frame;
use crate::machine::Machine;
use instruction_set::Register;
use program_interface::{Area, CLEARED_REGISTERS, FRAME_LENGTH_BYTES, REGISTERS};
use program_meaning::{AreaOffset, Cause};

/// Sets the registers that a call need not keep, R0 to R5 (BPF ABI 1.0, Registers and calling convention), to 0 (profile).
fn clear_registers(registers: &mut [u64; REGISTERS])
    ensures { registers.new ≡ replicate CLEARED_REGISTERS 0 ++ drop CLEARED_REGISTERS registers.old }
{
    registers[..CLEARED_REGISTERS].fill(0);
}

impl Machine<'_> {
    ghost use Rattle.std.specs.Prelude.{◌≡◌, ◌+◌, ◌<◌, ◌≤◌, ◌^◌, ℕ, Ok, Some, length, is_ok, slice_index};
    ghost use Rattle.program_meaning.specs.Effect.{emitted};
    ghost use Rattle.program_meaning.specs.Memory.{area_offset_of};
    ghost use Rattle.program_interface.specs.Area.{length_of};
    ghost use Rattle.interp.specs.Changes.{ChangesGroup, if_done};
    ghost use Rattle.interp.specs.Machine.{block_length, state_at, group_length, Extends};
    ghost use Rattle.interp.specs.StepEnds.{emit_cause};
    ghost use Rattle.interp.specs.steps.Accesses.{after_frame};
    ghost use Rattle.common_definitions.specs.Readings.{unless_fault};

    /// Adds the frame that R1 and R2 tell to the group and clears R0 to R5, unless a cause hinders it; then nothing changes.
    /// `limit` and `group` are as for `step`.
    ///
    /// # Errors
    ///
    /// [`Cause::EmitOutside`] and [`Cause::EmitLength`].
    #[inline(never)]
    pub fn emit(&mut self, limit: usize, group: &mut [u8]) -> Result<(), Cause>
        requires limit { limit < 2 ^ 16 }
        requires room { limit ≤ length group.old }
        requires used { group_length self.old ≤ length group.old }
        ensures value { (slot : ℕ) → result ≡ unless_fault (emit_cause limit (state_at self.old slot group.old)) (Ok tt) }
        ensures state { ChangesGroup (if_done (is_ok result) emitted) self.old self.new group.old group.new }
        ensures extends { Extends self.old self.new group.old group.new }
    {
        let size = self.register(Register::R2);
        if size == 0 {
            return Err(Cause::EmitLength);
        }
        let Some(AreaOffset { area, offset }) = self.area_offset(self.register(Register::R1), size)
        else {
            return Err(Cause::EmitOutside);
        };
        self.emit_from(area, offset, limit, group)
    }

    /// The same, where it is known in which area the bytes lie that R1 and R2 tell, and from which offset on.
    ///
    /// # Errors
    ///
    /// [`Cause::EmitLength`].
    #[inline(always)]
    pub fn emit_from(
        &mut self,
        area: Area,
        offset: usize,
        limit: usize,
        group: &mut [u8],
    ) -> Result<(), Cause>
        requires limit { limit < 2 ^ 16 }
        requires room { limit ≤ length group.old }
        requires used { group_length self.old ≤ length group.old }
        requires lies { area_offset_of (block_length self.old) (slice_index self.old.registers 1) (slice_index self.old.registers 2)
            ≡ Some (record { area = area; offset = offset }) }
        ensures value { (slot : ℕ) → result ≡ unless_fault (emit_cause limit (state_at self.old slot group.old)) (Ok tt) }
        ensures state { ChangesGroup (if_done (is_ok result) emitted) self.old self.new group.old group.new }
        ensures extends { Extends self.old self.new group.old group.new }
    {
        let size = self.register(Register::R2);
        if size == 0 || (self.group_length + FRAME_LENGTH_BYTES) as u64 + size > limit as u64 {
            return Err(Cause::EmitLength);
        }
        self.add_frame(area, offset, size as usize, group);
        Ok(())
    }

    #[inline(always)]
    fn add_frame(&mut self, area: Area, offset: usize, size: usize, group: &mut [u8])
        requires room { offset + size ≤ length_of (length self.old.block.now) area }
        requires size { size < 2 ^ 16 }
        requires fits { self.old.group_length + FRAME_LENGTH_BYTES + size ≤ length group.old }
        ensures state { ChangesGroup (after_frame (record { area = area; offset = offset }) size) self.old self.new group.old group.new }
        ensures extends { Extends self.old self.new group.old group.new }
    {
        let start = self.group_length;
        let bytes = self.bytes(area);
        write_frame(group, start, &bytes[offset..][..size]);
        self.group_length = start + FRAME_LENGTH_BYTES + size;
        self.frames += 1;
        clear_registers(&mut self.registers);
    }
}
