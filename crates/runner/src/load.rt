//! Loading programs.

ghost use Rattle.std.specs.Prelude.{◌≡◌, ◌<◌, IfOk, IfErr};
ghost use Rattle.std.specs.Result.{result_err};
ghost use Rattle.common_definitions.specs.Checks.{first_failed};
ghost use Rattle.device_meaning.specs.BlockRuns.{no_scratch};
ghost use Rattle.device_meaning.specs.Judging.{judge_by};
ghost use Rattle.device_meaning.specs.Happenings.{load_checks, sizes_for};
ghost use Rattle.runner.specs.steps.Answered.{HasLoaded};
ghost use Rattle.runner.specs.steps.Loading.{refused_program, IsAccepted, IsLoadable, IsNotAccepted};
ghost use Rattle.verifier.specs.Verified.{program_of, sizes_of};

use crate::device_state::DeviceState;
use crate::loaded_program::LoadedProgram;
use ebpf_decode::{DecodeFault, decode};
use nvme_entry::{LoadCommand, Status};
use program_interface::{MOST_SLOTS, RunSizes, SCRATCH_BYTES};
use std::alloc::Global;
use verifier::{VerifyFault, verify};
use word_domain::Domain;
use zns_commands::{Answer, check_transfer};

/// Puts a program into a slot, without a result. Where it is refused, the slot is as it was.
pub fn load<D: Domain>(
    alloc: Global,
    state: &mut DeviceState<D>,
    command: &LoadCommand,
    input: &[u8],
) -> Answer
    ensures loaded { HasLoaded (judge_by D.operations) command.now input.now state.old state.new result }
    ensures no_data { result.length ≡ 0 }
{
    match try_load(alloc, state, command, input) {
        Ok(loaded) => {
            state.slots[command.slot.index()] = Some(loaded);
            Answer::success(0, 0)
        }
        Err(refusal) => refusal,
    }
}

/// The program of a Load, without a result as yet, or the answer that refuses it.
fn try_load<D: Domain>(
    alloc: Global,
    state: &DeviceState<D>,
    command: &LoadCommand,
    input: &[u8],
) -> Result<LoadedProgram<D>, Answer>
    ensures ok { IfOk result (λ p. IsLoadable D.operations command.now input.now state.now (program_of p.prepared) (sizes_of p.prepared)) }
    ensures blank { IfOk result (λ p. p.result ≡ no_scratch) }
    ensures err { IfErr result (HasLoaded (judge_by D.operations) command.now input.now state.now state.now) }
    ensures no_data { IfErr result (λ answer. answer.length ≡ 0) }
{
    match check_load(state, command, input) {
        Ok(sizes) => read_program(alloc, input, sizes),
        Err(status) => Err(Answer::refused(status)),
    }
}

/// The sizes of the runs that a Load asks for, or the status that refuses it.
fn check_load<D: Domain>(
    state: &DeviceState<D>,
    command: &LoadCommand,
    input: &[u8],
) -> Result<RunSizes, Status>
    ensures why { result_err result ≡ first_failed (load_checks state.now command.now input.now) }
    ensures sizes { IfOk result (λ sizes. sizes ≡ sizes_for state.now command.now) }
{
    let bytes = u64::from(command.bytes);
    check_transfer(bytes, bytes, input)?;
    let Some(sizes) = RunSizes::new(state.namespace().geometry().block(), command.limit) else {
        return Err(Status::INVALID_FIELD_IN_COMMAND);
    };
    if state.is_in_use(command.slot) {
        return Err(Status::PROGRAM_IN_USE);
    }
    Ok(sizes)
}

/// The program that bytes spell, ready to run and without a result, where it is accepted for runs of these sizes, or
/// the answer that refuses it.
fn read_program<D: Domain>(
    alloc: Global,
    bytes: &[u8],
    sizes: RunSizes,
) -> Result<LoadedProgram<D>, Answer>
    ensures ok { IfOk result (λ p. IsAccepted D.operations bytes.now sizes (program_of p.prepared) (sizes_of p.prepared)) }
    ensures blank { IfOk result (λ p. p.result ≡ no_scratch) }
    ensures err { IfErr result (IsNotAccepted D.operations bytes.now sizes) }
{
    let program = match decode(alloc, bytes) {
        Ok(program) => program,
        Err(DecodeFault::Memory) => return Err(Answer::refused(Status::WANT_OF_MEMORY)),
        Err(DecodeFault::Fault(fault)) => return Err(refuse(fault.slot, fault.kind.number())),
    };
    let verified = match verify::<D>(alloc, program, sizes) {
        Ok(verified) => verified,
        Err(VerifyFault::Memory) => return Err(Answer::refused(Status::WANT_OF_MEMORY)),
        Err(VerifyFault::Refused(refusal)) => {
            return Err(refuse(refusal.slot, refusal.reason.number()));
        }
    };
    match LoadedProgram::new(alloc, verified, [0; SCRATCH_BYTES]) {
        Ok(loaded) => Ok(loaded),
        Err(_) => Err(Answer::refused(Status::WANT_OF_MEMORY)),
    }
}

/// The answer to a program that is refused: the slot of an instruction, and the reason's number.
fn refuse(slot: usize, reason: u8) -> Answer
    requires { slot < MOST_SLOTS }
    ensures { result ≡ refused_program slot reason }
{
    Answer {
        status: Status::PROGRAM_REFUSED,
        dw0: slot as u32,
        dw1: u32::from(reason),
        length: 0,
    }
}
