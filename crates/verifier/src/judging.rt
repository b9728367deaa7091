//! What a verifier says of a program, and what it knows of it.

ghost use Rattle.std.specs.Prelude.{◌≡◌, ◌<◌, ◌≤◌, ℕ, length, get_or, None, IfOk};
ghost use Rattle.accepted_programs.specs.Facts.{facts_at_start, given_below};
ghost use Rattle.verifier.specs.steps.Rows.{HoldStart, held, held_at};
ghost use Rattle.accepted_programs.specs.Emitted.{group_in};
ghost use Rattle.verifier.specs.Judged.{IsJudged};

use crate::facts::at_start;
use crate::places::place_in;
use crate::rows::{Refused, Row, visit};
use accepted_programs::Facts;
use instruction_set::Program;
use program_interface::RunSizes;
use program_meaning::Place;
use std::alloc::{AllocError, Global};
use word_domain::Domain;

/// What a verifier says of a program, and what it knows.
#[derive(Drop)]
pub enum Judgement<D> {
    /// It is accepted.
    Accepted {
        /// It emits at most so many bytes for a block, frame lengths counted.
        most_emitted: usize,
        /// Where it accesses memory at each slot, if that is known.
        places: Vec<Option<Place>>,
    },
    /// It is refused, and these are the facts at the slot of the refusal.
    Refused(Refused<D>),
}

/// The bound on the group, where there are facts.
fn group<D: Domain>(row: &Row<D>) -> usize
    ensures { result ≡ group_in (held row.now) }
{
    match row {
        Some(facts) => facts.emitted,
        None => 0,
    }
}

/// So many slots, of which nothing is known.
fn empty_rows<D: Domain>(alloc: Global, slots: usize) -> Result<Vec<Row<D>>, AllocError>
    ensures len { IfOk result (λ rows. length rows.items ≡ slots) }
    ensures rows { IfOk result (λ rows. (s : ℕ) → get_or rows.items s None ≡ None) }
{
    let mut rows = Vec::with_capacity(alloc, slots)?;
    for _ in 0..slots {
        rows.push(None)?;
    }
    Ok(rows)
}

/// What is known at the start of a block run, in a box.
fn boxed_start<D: Domain>(alloc: Global) -> Result<Box<Facts<D>>, AllocError>
    ensures { IfOk result (λ facts. facts.value ≡ facts_at_start D.operations) }
{
    Ok(Box::new(alloc, at_start())?)
}

/// The facts for so many slots, before any is visited: those of the start at the first.
pub(crate) fn first_rows<D: Domain>(alloc: Global, slots: usize) -> Result<Vec<Row<D>>, AllocError>
    requires { 1 ≤ slots }
    ensures len { IfOk result (λ rows. length rows.items ≡ slots) }
    ensures rows { IfOk result (λ rows. HoldStart D.operations slots rows.items) }
{
    let mut rows = empty_rows(alloc, slots)?;
    rows[0] = Some(boxed_start(alloc)?);
    Ok(rows)
}

/// Judges a program over the facts before any slot is visited.
fn judge_over<D: Domain>(
    alloc: Global,
    rows: &mut [Row<D>],
    program: &Program,
    sizes: RunSizes,
) -> Result<Judgement<D>, AllocError>
    requires long { length rows.old ≡ length program.now }
    requires rows { (s : ℕ) → s < length rows.old → held_at rows.old s ≡ given_below D.operations sizes.block program.now 0 s }
    ensures { IfOk result (IsJudged D.operations program.now sizes) }
{
    let mut spare = None;
    let mut most_emitted = 0;
    let mut places = Vec::with_capacity(alloc, program.slots())?;
    for slot in 0..program.slots() {
        most_emitted = group(&rows[slot]).max(most_emitted);
        places.push(place_in(program, sizes.block(), slot, &rows[slot]))?;
        if let Some(refused) = visit(alloc, rows, &mut spare, program, sizes, slot)? {
            return Ok(Judgement::Refused(refused));
        }
    }
    Ok(Judgement::Accepted {
        most_emitted,
        places,
    })
}

/// Visits the slots of a program, and gives the facts of the slot that is refused, or the most that is emitted for a
/// block and where each slot accesses memory. [`verify`](crate::verify) calls it and keeps the places alone. The facts are true
/// of each block run that comes to the slot by slots of which none is refused (the law `facts_are_met` of `accepted_programs`),
/// no block run emits more (the law `accepted_emits_no_more`), and each accesses memory there (the law `accepted_accesses_lie`).
///
/// # Errors
///
/// Where there was no memory for the facts.
#[tactic(auto, using(crate::proofs::Sizes::facts_fit))]
pub fn judge<D: Domain>(
    alloc: Global,
    program: &Program,
    sizes: RunSizes,
) -> Result<Judgement<D>, AllocError>
    ensures { IfOk result (IsJudged D.operations program.now sizes) }
{
    D::fact_fits();
    let mut rows = first_rows(alloc, program.slots())?;
    judge_over(alloc, &mut rows, program, sizes)
}
