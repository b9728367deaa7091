//! The facts for all slots, one slot visited after the other.

ghost use Rattle.std.specs.Prelude.{◌≡◌, ◌<◌, length, Some, IsSome, IfSome, IfNone, IfOk, OnOk, false};
ghost use Rattle.instruction_set.specs.Instruction.{distance_of};
ghost use Rattle.accepted_programs.specs.Accepted.{turns_away};
ghost use Rattle.accepted_programs.specs.Facts.{gives, merge, with_compared};
ghost use Rattle.verifier.specs.steps.Instructions.{CanBeCounted, StaysInside};
ghost use Rattle.verifier.specs.steps.Rows.{EachBecomes, GivesAlong, GivesByJump, GivesOn, IsFoundAt, IsJoined, held, held_at, with_gift};

use crate::edges::{refined, set_both, step};
use crate::facts::join;
use crate::reasons::{find_reason, slot_behind};
use accepted_programs::{Facts, Refusal};
use instruction_set::{Instruction, Program, Register, Source};
use program_interface::{BlockSize, MOST_SLOTS, RunSizes};
use std::alloc::{AllocError, Global};
use word_domain::Domain;

/// What a slot was given so far.
pub(crate) type Row<D> = Option<Box<Facts<D>>>;

/// A slot that is refused, and what is known there.
#[derive(Drop)]
pub struct Refused<D> {
    /// The refusal.
    pub refusal: Refusal,
    /// The facts at its slot.
    pub facts: Box<Facts<D>>,
}

/// The facts in a box of their own, the spare one if there is one.
fn copied<D: Domain>(
    alloc: Global,
    spare: &mut Row<D>,
    facts: &Facts<D>,
) -> Result<Box<Facts<D>>, AllocError>
    ensures { IfOk result (λ copy. copy.value ≡ facts.now) }
{
    match spare.take() {
        Some(mut copy) => {
            *copy = *facts;
            Ok(copy)
        }
        None => Ok(Box::new(alloc, *facts)?),
    }
}

/// Joins facts into what a slot was given so far; a box that this frees is spare.
fn add<D: Domain>(row: &mut Row<D>, spare: &mut Row<D>, facts: Box<Facts<D>>)
    ensures { held row.new ≡ merge D.operations (held row.old) (Some facts.value) }
{
    match row {
        Some(earlier) => {
            join(earlier, &facts);
            *spare = Some(facts);
        }
        empty => *empty = Some(facts),
    }
}

/// Joins facts into what a slot was given so far.
fn give<D: Domain>(rows: &mut [Row<D>], spare: &mut Row<D>, to: usize, facts: Box<Facts<D>>)
    requires { to < length rows.old }
    ensures len { length rows.new ≡ length rows.old }
    ensures given { EachBecomes (with_gift D.operations to (Some facts.value)) rows.old rows.new }
{
    add(&mut rows[to], spare, facts);
}

/// Joins facts into those that a slot was given, if it was given some.
fn join_into<D: Domain>(row: &mut Row<D>, facts: &Facts<D>)
    ensures { IsJoined D.operations facts.now row.old row.new }
{
    if let Some(earlier) = row {
        join(earlier, facts);
    }
}

/// Joins facts along the taken edge of a compare into those that its target was given, if it was given some, and changes them to
/// those along the other edge.
fn split<D: Domain>(
    row: &mut Row<D>,
    facts: &mut Facts<D>,
    dst: Register,
    source: &Source,
    not_taken: (D, D),
    taken: (D, D),
)
    ensures row { IsJoined D.operations (with_compared D.operations dst source.now facts.old taken) row.old row.new }
    ensures facts { facts.new ≡ with_compared D.operations dst source.now facts.old not_taken }
{
    let fit = facts.fit;
    set_both(facts, dst, source, taken);
    join_into(row, facts);
    facts.fit = fit;
    set_both(facts, dst, source, not_taken);
}

/// Where the two edges of a compare lead, and what they are known to change.
#[derive(Clone, Copy)]
struct Fork<D> {
    behind: usize,
    target: usize,
    dst: Register,
    source: Source,
    /// The destination and the source along the edge that isn't taken, if there is such an edge.
    not_taken: Option<(D, D)>,
    /// The same along the edge that is taken.
    taken: Option<(D, D)>,
}

/// Gives facts along both edges of a compare. Where the target isn't the slot behind and was given some already, these are
/// joined into those in place, before the slot behind takes their box; else the target takes a box of its own.
fn give_both<D: Domain>(
    alloc: Global,
    rows: &mut [Row<D>],
    spare: &mut Row<D>,
    fork: &Fork<D>,
    not_taken: (D, D),
    taken: (D, D),
    mut facts: Box<Facts<D>>,
) -> Result<(), AllocError>
    requires behind { fork.now.behind < length rows.old }
    requires target { fork.now.target < length rows.old }
    ensures len { length rows.new ≡ length rows.old }
    ensures given { OnOk result (GivesAlong D.operations fork.now facts.value (Some not_taken) (Some taken) rows.old rows.new) }
{
    // one slot at the end of both edges joins what comes along the taken one last
    if fork.target != fork.behind && rows[fork.target].is_some() {
        let row = &mut rows[fork.target];
        split(row, &mut facts, fork.dst, &fork.source, not_taken, taken);
        give(rows, spare, fork.behind, facts);
    } else {
        let mut copy = copied(alloc, spare, &facts)?;
        set_both(&mut facts, fork.dst, &fork.source, not_taken);
        give(rows, spare, fork.behind, facts);
        set_both(&mut copy, fork.dst, &fork.source, taken);
        give(rows, spare, fork.target, copy);
    }
    Ok(())
}

/// Gives facts along the edges of a compare that there are.
fn give_edges<D: Domain>(
    alloc: Global,
    rows: &mut [Row<D>],
    spare: &mut Row<D>,
    fork: &Fork<D>,
    mut facts: Box<Facts<D>>,
) -> Result<(), AllocError>
    requires behind { fork.now.behind < length rows.old }
    requires target { fork.now.target < length rows.old }
    ensures len { length rows.new ≡ length rows.old }
    ensures given { OnOk result (GivesAlong D.operations fork.now facts.value fork.now.not_taken fork.now.taken rows.old rows.new) }
{
    match (fork.not_taken, fork.taken) {
        (Some(not_taken), Some(taken)) => {
            give_both(alloc, rows, spare, fork, not_taken, taken, facts)?;
        }
        (Some(not_taken), None) => {
            set_both(&mut facts, fork.dst, &fork.source, not_taken);
            give(rows, spare, fork.behind, facts);
        }
        (None, Some(taken)) => {
            set_both(&mut facts, fork.dst, &fork.source, taken);
            give(rows, spare, fork.target, facts);
        }
        (None, None) => *spare = Some(facts),
    }
    Ok(())
}

/// Gives what a jump leaves known to the slots that it leads to.
fn jump<D: Domain>(
    alloc: Global,
    rows: &mut [Row<D>],
    spare: &mut Row<D>,
    behind: usize,
    target: usize,
    instruction: &Instruction,
    facts: Box<Facts<D>>,
) -> Result<(), AllocError>
    requires jumps { IsSome (distance_of instruction.now) }
    requires behind { turns_away instruction.now ≡ false → behind < length rows.old }
    requires target { target < length rows.old }
    ensures len { length rows.new ≡ length rows.old }
    ensures given { OnOk result (GivesByJump D.operations instruction.now facts.value behind target rows.old rows.new) }
{
    let Instruction::Branch {
        width,
        relation,
        dst,
        source,
        ..
    } = *instruction
    else {
        give(rows, spare, target, facts);
        return Ok(());
    };
    let fork = Fork {
        behind,
        target,
        dst,
        source,
        not_taken: refined(false, width, relation, dst, &source, &facts),
        taken: refined(true, width, relation, dst, &source, &facts),
    };
    give_edges(alloc, rows, spare, &fork, facts)
}

/// Gives what an instruction leaves known to the slots that it leads to.
fn push<D: Domain>(
    alloc: Global,
    rows: &mut [Row<D>],
    spare: &mut Row<D>,
    slot: usize,
    instruction: &Instruction,
    block: BlockSize,
    mut facts: Box<Facts<D>>,
) -> Result<(), AllocError>
    requires slot { slot < MOST_SLOTS }
    requires inside { StaysInside (length rows.old) slot instruction.now }
    requires counted { CanBeCounted D.operations instruction.now facts.value }
    ensures len { length rows.new ≡ length rows.old }
    ensures given { OnOk result (EachBecomes (gives D.operations block (Some instruction.now) slot (Some facts.value)) rows.old rows.new) }
{
    let behind = slot_behind(slot, instruction);
    if let Some(distance) = instruction.distance() {
        let target = Instruction::target(slot, distance).unsigned_abs() as usize;
        jump(alloc, rows, spare, behind, target, instruction, facts)?;
        return Ok(());
    }
    if step(instruction, block, &mut facts) {
        give(rows, spare, behind, facts);
    } else {
        *spare = Some(facts);
    }
    Ok(())
}

/// Looks at one slot, and gives what its instruction leaves known to the slots that it leads to. The slot's own facts
/// are moved along, or handed out with the refusal.
#[tactic(auto, using(crate::proofs::Sizes::facts_fit, crate::proofs::Checks::stays_inside, crate::proofs::Checks::can_be_counted))]
pub(crate) fn visit<D: Domain>(
    alloc: Global,
    rows: &mut [Row<D>],
    spare: &mut Row<D>,
    program: &Program,
    sizes: RunSizes,
    slot: usize,
) -> Result<Option<Refused<D>>, AllocError>
    requires long { length rows.old ≡ length program.now }
    requires within { slot < length program.now }
    ensures len { length rows.new ≡ length rows.old }
    ensures found { IfOk result (IsFoundAt D.operations program.now sizes slot rows.old) }
    ensures facts { IfOk result (λ found. IfSome found (λ refused. Some refused.facts.value ≡ held_at rows.old slot)) }
    ensures given { IfOk result (λ found. IfNone found (GivesOn D.operations sizes.block program.now slot rows.old rows.new)) }
{
    D::fact_fits();
    // what an instruction emits within the limit can be counted
    let _limit = sizes.limit();
    let Some(instruction) = program.at(slot) else {
        return Ok(None);
    };
    let Some(facts) = rows[slot].take() else {
        return Ok(None);
    };
    if let Some(reason) = find_reason(program, sizes, slot, instruction, &facts) {
        let refusal = Refusal { slot, reason };
        return Ok(Some(Refused { refusal, facts }));
    }
    push(alloc, rows, spare, slot, instruction, sizes.block(), facts)?;
    Ok(None)
}
