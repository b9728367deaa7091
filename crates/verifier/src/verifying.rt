//! The verifier.

ghost use Rattle.std.specs.Prelude.{◌≡◌, None, IfOk, IfErr};
ghost use Rattle.accepted_programs.specs.Accepted.{refusal};
ghost use Rattle.verifier.specs.VerifyFault.{IsFaultOf};
ghost use Rattle.verifier.specs.Verified.{program_of, sizes_of};

use crate::fault::VerifyFault;
use crate::judging::{Judgement, judge};
use crate::verified::Verified;
use instruction_set::Program;
use program_interface::RunSizes;
use std::alloc::Global;
use word_domain::Domain;

/// Accepts a program, for runs of these sizes, just where no slot with facts fails a check, by the domain's own
/// operations; else it tells the lowest such slot and the least reason that holds there. What is accepted never traps.
///
/// # Errors
///
/// [`VerifyFault::Refused`] with the lowest slot that is refused and its least reason; [`VerifyFault::Memory`] where there was
/// none for the facts or for where it accesses memory.
pub fn verify<D: Domain>(
    alloc: Global,
    program: Program,
    sizes: RunSizes,
) -> Result<Verified<D>, VerifyFault>
    ensures accepted { IfOk result (λ v. (program_of v ≡ program) × (sizes_of v ≡ sizes) × (refusal D.operations program sizes ≡ None)) }
    ensures refused { IfErr result (IsFaultOf (refusal D.operations program sizes)) }
{
    // its slots are a program
    let _slots = program.slots();
    // a group fits a block
    let (_block, _limit) = (sizes.block().bytes(), sizes.limit());
    match judge::<D>(alloc, &program, sizes) {
        Err(_) => Err(VerifyFault::Memory),
        Ok(Judgement::Refused(refused)) => Err(VerifyFault::Refused(refused.refusal)),
        Ok(Judgement::Accepted { places, .. }) => Ok(Verified::new(program, sizes, places)),
    }
}
