//! Programs in their slots.

ghost use Rattle.std.specs.Prelude.{◌≡◌, IfOk};

use program_interface::SCRATCH_BYTES;
use std::alloc::{AllocError, Global};
use verified_run::{Prepared, StepCount};
use verifier::Verified;
use word_domain::Domain;

/// The program of a slot, and its result.
#[derive(Drop)]
pub struct LoadedProgram<D: Domain> {
    /// The accepted program, ready to run.
    pub prepared: Prepared<Verified<D>>,
    /// The steps of its block runs.
    pub count: StepCount,
    /// The scratch bytes that its last successful run left, zeros before one did.
    pub result: [u8; SCRATCH_BYTES],
}

impl<D: Domain> LoadedProgram<D> {
    /// An accepted program, made ready to run, which has taken no step, with these scratch bytes as its result.
    ///
    /// # Errors
    ///
    /// No memory.
    pub fn new(
        alloc: Global,
        verified: Verified<D>,
        scratch: [u8; SCRATCH_BYTES],
    ) -> Result<LoadedProgram<D>, AllocError>
        ensures prepared { IfOk result (λ loaded. loaded.prepared ≡ verified) }
        ensures count { IfOk result (λ loaded. loaded.count.steps ≡ 0) }
        ensures result { IfOk result (λ loaded. loaded.result ≡ scratch) }
    {
        let (prepared, count) = Prepared::new(alloc, verified)?;
        Ok(LoadedProgram {
            prepared,
            count,
            result: scratch,
        })
    }
}
