//! A block run.

use crate::machine::Machine;
use crate::machine::step::Flow;
use instruction_set::Program;
use program_meaning::End;

impl Machine<'_> {
    ghost use Rattle.std.specs.Prelude.{◌≡◌, ◌+◌, ◌<◌, ◌≤◌, ◌^◌, drop, length};
    ghost use Rattle.interp.specs.BlockRuns.{machine_run, run_left};
    ghost use Rattle.interp.specs.Machine.{group_length, scratch_name, stack_name, machine_slot, steps_of};
    ghost use Rattle.program_meaning.specs.Step.{IsAt};

    /// Takes steps from where the machine stands until the block run ends, and at most `fuel` of them; where they are
    /// used up it gives that no fuel is left, also before an instruction that can't be done. The end, the steps and the
    /// state are those of the block run of the same meaning. `limit` and `group` are as for `step`.
    pub fn run_checked(
        &mut self,
        program: &Program,
        limit: usize,
        fuel: u64,
        group: &mut [u8],
    ) -> End
        requires at { IsAt program.now (machine_slot self.old) }
        requires steps { steps_of self.old + fuel < 2 ^ 64 }
        requires limit { limit < 2 ^ 16 }
        requires room { limit ≤ length group.old }
        requires used { group_length self.old ≤ length group.old }
        ensures run { run_left result self.new group.new ≡ machine_run program.now limit fuel self.old group.old }
        ensures at { IsAt program.now (machine_slot self.new) }
        ensures grows { group_length self.old ≤ group_length self.new }
        ensures used { group_length self.new ≤ length group.new }
        ensures beyond { drop (group_length self.new) group.new ≡ drop (group_length self.new) group.old }
        ensures same_scratch { scratch_name self.new ≡ scratch_name self.old }
        ensures same_stack { stack_name self.new ≡ stack_name self.old }
    {
        let mut slot = self.slot;
        'steps: for step in 0..fuel {
            match self.advance(program, slot, limit, group) {
                Flow::Next { slot: next } => slot = next,
                Flow::Exit => {
                    self.slot = slot;
                    self.steps += step + 1;
                    return End::Exit {
                        r0: self.registers[0],
                    };
                }
                Flow::Trap { cause } => {
                    self.slot = slot;
                    self.steps += step;
                    return End::Trap { slot, cause };
                }
            }
        }
        self.slot = slot;
        self.steps += fuel;
        End::OutOfFuel
    }
}
