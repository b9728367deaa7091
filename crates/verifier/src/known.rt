//! What is known at the slots of a program, up to the first that is refused.

ghost use Rattle.std.specs.Prelude.{◌≡◌, ◌<◌, ℕ, length, IfOk};
ghost use Rattle.accepted_programs.specs.Facts.{given_below};
ghost use Rattle.verifier.specs.Known.{AreFacts};
ghost use Rattle.verifier.specs.steps.Rows.{held, held_at};

use crate::judging::first_rows;
use crate::rows::{Row, visit};
use accepted_programs::Facts;
use instruction_set::Program;
use program_interface::RunSizes;
use std::alloc::{AllocError, Global};
use word_domain::Domain;

/// The facts that a slot was given, if it was given some.
fn facts_in<D: Domain>(row: &Row<D>) -> Option<Facts<D>>
    ensures { result ≡ held row.now }
{
    match row {
        Some(facts) => Some(**facts),
        None => None,
    }
}

/// What is known at the slots of a program, over the facts before any slot is visited.
fn known_over<D: Domain>(
    alloc: Global,
    rows: &mut [Row<D>],
    program: &Program,
    sizes: RunSizes,
) -> Result<Vec<Option<Facts<D>>>, AllocError>
    requires long { length rows.old ≡ length program.now }
    requires rows { (s : ℕ) → s < length rows.old → held_at rows.old s ≡ given_below D.operations sizes.block program.now 0 s }
    ensures { IfOk result (λ known. AreFacts D.operations program.now sizes known.items) }
{
    let mut spare = None;
    let mut known = Vec::new(alloc);
    for slot in 0..program.slots() {
        known.push(facts_in(&rows[slot]))?;
        if let Some(_refused) = visit(alloc, rows, &mut spare, program, sizes, slot)? {
            return Ok(known);
        }
    }
    Ok(known)
}

/// The facts at each slot of a program, in their order, up to the first slot that is refused and there too, or at all slots where
/// none is; `None` at a slot to which none leads, as a wide instruction's second. They are those by which [`judge`](crate::judge)
/// decides, and true of each block run that comes to the slot (the law `facts_are_met` of `accepted_programs`).
///
/// # Errors
///
/// Where there was no memory for the facts.
#[tactic(auto, using(crate::proofs::Sizes::facts_fit))]
pub fn known_facts<D: Domain>(
    alloc: Global,
    program: &Program,
    sizes: RunSizes,
) -> Result<Vec<Option<Facts<D>>>, AllocError>
    ensures { IfOk result (λ known. AreFacts D.operations program.now sizes known.items) }
{
    D::fact_fits();
    let mut rows = first_rows(alloc, program.slots())?;
    known_over(alloc, &mut rows, program, sizes)
}
