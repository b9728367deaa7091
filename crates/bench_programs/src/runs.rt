//! What is timed: block runs, and nothing that could fail or that has to be dropped.

ghost use Rattle.std.specs.Prelude.{◌≡◌, ◌≤◌, length};
ghost use Rattle.interp.specs.Machine.{group_length, machine_slot, steps_of};
ghost use Rattle.verifier.specs.Verified.{sizes_of};

use interp::Machine;
use interval_domain::Intervals;
use program_interface::{CONTEXT_BYTES, LARGEST_BLOCK, SCRATCH_BYTES, STACK_BYTES};
use program_meaning::End;
use verified_run::{Exit, Prepared, Stack, StepCount};
use verifier::Verified;

/// How an accepted program is run.
#[derive(Clone, Copy)]
pub enum Form {
    /// With every check.
    Checked,
    /// Over its superinstructions.
    Prepared,
}

/// One block run; none over a block of another size.
#[inline(always)]
pub fn run(
    program: &Prepared<Verified<Intervals>>,
    form: Form,
    block: &[u8],
    context: &[u8; CONTEXT_BYTES],
    scratch: &mut [u8; SCRATCH_BYTES],
    stack: &mut Stack,
    group: &mut [u8; LARGEST_BLOCK],
    count: &mut StepCount,
) -> Option<Exit> {
    let verified = program.verified();
    let sizes = verified.sizes();
    if block.len() != sizes.block().bytes() as usize || sizes.limit() as usize > group.len() {
        return None;
    }
    match form {
        Form::Checked => {
            let mut bytes = [0; STACK_BYTES];
            let mut machine = Machine::new(block, context, scratch, &mut bytes);
            run_checked(verified, &mut machine, group)
        }
        Form::Prepared => { Some(program.run_over(block, context, scratch, stack, group, count)) }
    }
}

/// One block run with every check, to its EXIT.
#[inline(always)]
fn run_checked(
    verified: &Verified<Intervals>,
    machine: &mut Machine,
    group: &mut [u8; LARGEST_BLOCK],
) -> Option<Exit>
    requires slot { machine_slot machine.old ≡ 0 }
    requires steps { steps_of machine.old ≡ 0 }
    requires group_bytes { group_length machine.old ≡ 0 }
    requires room { (sizes_of verified.now).limit ≤ length group.old }
{
    let (program, limit) = (verified.program(), verified.sizes().limit() as usize);
    let End::Exit { r0 } = machine.run_checked(program, limit, program.slots() as u64, group) else {
        return None;
    };
    Some(Exit {
        r0,
        steps: machine.steps(),
        group_length: machine.group_length(),
        frames: machine.frames(),
    })
}

/// Some block runs, each with another context: was each done?
#[inline(never)]
pub fn repeat(
    program: &Prepared<Verified<Intervals>>,
    form: Form,
    block: &[u8],
    repeats: u32,
    scratch: &mut [u8; SCRATCH_BYTES],
    group: &mut [u8; LARGEST_BLOCK],
    count: &mut StepCount,
) -> bool {
    let mut context = [0; CONTEXT_BYTES];
    let mut stack = Stack::new();
    let mut done = true;
    for repeat in 0..repeats {
        context[0] = (repeat % 0x100) as u8;
        let stack = &mut stack;
        done &= run(program, form, block, &context, scratch, stack, group, count).is_some();
    }
    done
}
