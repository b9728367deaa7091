//! Programs that are kept, and loaded again.

ghost use Rattle.std.specs.Prelude.{◌≡◌, Some, None, option_map, option_and_then, IfOk, IfSome, MatchOption, Ok, length};
ghost use Rattle.common_definitions.specs.Bytes.{AreBytes};
ghost use Rattle.program_interface.specs.declared.area.TheConstants.{SCRATCH_BYTES};
ghost use Rattle.verifier.specs.Verified.{program_of, sizes_of};
ghost use Rattle.device_meaning.specs.Judging.{judge_by};
ghost use Rattle.kept_device.specs.Kept.{program_told};
ghost use Rattle.runner.specs.DeviceState.{loaded_of};
ghost use Rattle.runner.specs.Keeping.{KeepsAgain, loaded_again, saved_of};
ghost use Rattle.runner.specs.steps.Loading.{IsAccepted};
ghost use Rattle.runner.specs.steps.LoadingAgain.{IsRefused};

use crate::kept_run::{pending_of, scratch_of};
use crate::loaded_program::LoadedProgram;
use ebpf_decode::laws::spelled_is_decoded;
use ebpf_decode::{DecodeFault, decode, encode};
use kept_device::KeptProgram;
use program_interface::{BlockSize, RunSizes};
use std::alloc::{AllocError, Global};
use verifier::{Verified, VerifyFault, verify};
use word_domain::Domain;

/// What is kept of a program. It would be loaded again.
///
/// # Errors
///
/// No memory.
pub fn kept_program<D: Domain>(
    alloc: Global,
    loaded: &LoadedProgram<D>,
) -> Result<KeptProgram, AllocError>
    ensures told { IfOk result (λ kept. program_told kept ≡ saved_of loaded.now) }
    ensures again { KeepsAgain loaded.now }
{
    spelled_is_decoded();
    let verified = loaded.prepared.verified();
    // Brings in what holds of each program.
    let _ = verified.program().slots();
    let limit = verified.sizes().limit();
    let bytes = encode(alloc, verified.program())?;
    Ok(KeptProgram {
        bytes,
        limit,
        result: loaded.result,
    })
}

/// A program that was kept, verified again for blocks of this size; `None` where it isn't accepted.
///
/// # Errors
///
/// No memory.
pub fn program_again<D: Domain>(
    alloc: Global,
    kept: &KeptProgram,
    block: BlockSize,
) -> Result<Option<LoadedProgram<D>>, AllocError>
    ensures again { IfOk result (λ found. option_map loaded_of found ≡ loaded_again (judge_by D.operations) block (program_told kept.now)) }
    ensures block { IfOk result (λ found. IfSome found (λ p. (sizes_of p.prepared).block ≡ block)) }
    ensures bytes { AreBytes kept.now.bytes.items }
    ensures long { length kept.now.result ≡ SCRATCH_BYTES }
    ensures result_bytes { AreBytes kept.now.result }
{
    let bytes = pending_of(kept.bytes.as_slice());
    let scratch = scratch_of(&kept.result);
    let Some(sizes) = RunSizes::new(block, kept.limit) else {
        return Ok(None);
    };
    match verified_again(alloc, bytes, sizes)? {
        Some(verified) => Ok(Some(LoadedProgram::new(alloc, verified, scratch)?)),
        None => Ok(None),
    }
}

/// The program that bytes spell, where it is accepted for runs of these sizes.
///
/// # Errors
///
/// No memory.
fn verified_again<D: Domain>(
    alloc: Global,
    bytes: &[u8],
    sizes: RunSizes,
) -> Result<Option<Verified<D>>, AllocError>
    ensures { IfOk result (λ found. MatchOption found
        (IsRefused (judge_by D.operations) bytes.now sizes) (λ v. IsAccepted D.operations bytes.now sizes (program_of v) (sizes_of v))) }
{
    let program = match decode(alloc, bytes) {
        Ok(program) => program,
        Err(DecodeFault::Memory) => return Err(AllocError),
        Err(DecodeFault::Fault(_)) => return Ok(None),
    };
    match verify::<D>(alloc, program, sizes) {
        Ok(verified) => Ok(Some(verified)),
        Err(VerifyFault::Memory) => Err(AllocError),
        Err(VerifyFault::Refused(_)) => Ok(None),
    }
}
