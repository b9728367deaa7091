//! What an instruction leaves known along its edges.

ghost use Rattle.std.specs.Prelude.{◌≡◌, ◌+◌, ◌<◌, ◌^◌, ◌++◌, replicate, drop, None};
ghost use Rattle.std.specs.Bool.{then_some};
ghost use Rattle.instruction_set.specs.Instruction.{distance_of};
ghost use Rattle.accepted_programs.specs.Facts.{source_fact, compared_fact, after_emit, after_store, after_word, computed_word, enters_stack as area_is_stack, facts_behind, greatest_length, kept_fact, loaded_fact, loaded_word, with_compared, with_fact, with_source};
ghost use Rattle.verifier.specs.steps.Instructions.{CanBeCounted, told_along};

use crate::cells::{cell_of, is_stack, known, store_into};
use crate::sums::{alter_sums, compared_fit, is_register};
use accepted_programs::Facts;
use instruction_set::{Instruction, Register, Relation, Size, Source, Width};
use program_interface::{Area, BlockSize, CLEARED_REGISTERS, FRAME_LENGTH_BYTES, REGISTERS};
use program_meaning::Arithmetic;
use word_domain::Domain;

/// The source of an arithmetic instruction.
#[inline]
fn source_of<D: Domain>(facts: &Facts<D>, source: Source) -> D
    ensures { result ≡ source_fact D.operations facts.now source }
{
    match source {
        Source::Register(register) => facts.get(register),
        Source::Immediate(value) => D::constant(Instruction::immediate_word(value)),
    }
}

/// The source of a compare.
#[inline]
fn compared<D: Domain>(width: Width, facts: &Facts<D>, source: &Source) -> D
    ensures { result ≡ compared_fact D.operations width facts.now source.now }
{
    match *source {
        Source::Register(register) => facts.get(register),
        Source::Immediate(value) => match width {
            Width::Bits32 => D::constant(Instruction::immediate_word(value) % 0x1_0000_0000),
            Width::Bits64 => D::constant(Instruction::immediate_word(value)),
        },
    }
}

/// What a compare tells along the edge that is taken, or along the other.
pub(crate) fn refined<D: Domain>(
    taken: bool,
    width: Width,
    relation: Relation,
    dst: Register,
    source: &Source,
    facts: &Facts<D>,
) -> Option<(D, D)>
    ensures { result ≡ told_along D.operations taken width relation dst source.now facts.now }
{
    let (first, second) = (facts.get(dst), compared(width, facts, source));
    let same = is_register(dst, source);
    D::refine(width, relation, taken, first, second, same)
}

/// Replaces the facts about the destination and the source, unless that is an immediate.
#[inline]
fn set_words<D: Domain>(facts: &mut Facts<D>, dst: Register, source: &Source, both: (D, D))
    ensures { facts.new ≡ with_source D.operations (with_fact D.operations facts.old dst both.0) source.now both.1 }
{
    facts.set(dst, both.0);
    if let Source::Register(register) = *source {
        facts.set(register, both.1);
    }
}

/// The same, and takes what these tell of a sum.
#[inline]
pub(crate) fn set_both<D: Domain>(
    facts: &mut Facts<D>,
    dst: Register,
    source: &Source,
    both: (D, D),
)
    ensures { facts.new ≡ with_compared D.operations dst source.now facts.old both }
{
    set_words(facts, dst, source, both);
    let fit = compared_fit(dst, source, facts);
    facts.fit = fit;
}

/// Replaces the facts about the registers that a call clears.
#[tactic(auto, using(crate::proofs::Fills::filled_more))]
fn clear<D: Domain>(registers: &mut [D; REGISTERS])
    ensures { registers.new ≡ replicate CLEARED_REGISTERS (D.operations.constant 0) ++ drop CLEARED_REGISTERS registers.old }
{
    let zero = D::constant(0);
    for i in 0..CLEARED_REGISTERS {
        registers[i] = zero;
    }
}

/// Changes the facts to those after emit.
fn emit<D: Domain>(facts: &mut Facts<D>)
    requires { facts.old.emitted + FRAME_LENGTH_BYTES + greatest_length D.operations facts.old < 2 ^ 64 }
    ensures { facts.new ≡ after_emit D.operations facts.old }
{
    let most = facts.get(Register::R2).bounds().high;
    clear(&mut facts.registers);
    facts.emitted = facts.emitted + FRAME_LENGTH_BYTES + most as usize;
}

/// What a cell keeps of a store: whole words, of R1 to R9.
fn kept<D: Domain>(facts: &Facts<D>, size: Size, src: Register) -> Option<D>
    ensures { result ≡ kept_fact D.operations facts.now size src }
{
    match size {
        Size::DoubleWord if 1 <= src.index() && src.index() <= 9 => Some(facts.get(src)),
        _ => None,
    }
}

/// Does an access go into the stack?
#[inline]
fn enters_stack(area: Option<Area>) -> bool
    ensures { result ≡ area_is_stack area }
{
    match area {
        Some(area) => is_stack(area),
        None => false,
    }
}

/// Changes the facts to those after a store, of which a fact may be kept.
fn store<D: Domain>(
    block: BlockSize,
    facts: &mut Facts<D>,
    size: Size,
    dst: Register,
    offset: i16,
    word: Option<D>,
)
    ensures { facts.new ≡ after_store D.operations block facts.old size dst offset word }
{
    let address = facts.get(dst);
    let size = size.bytes();
    if enters_stack(address.access(block, offset, size)) {
        store_into(&mut facts.cells, address.offsets(), offset, size, word);
    }
}

/// What a load gives.
fn load<D: Domain>(facts: &Facts<D>, size: Size, src: Register, offset: i16) -> D
    ensures { result ≡ loaded_fact D.operations facts.now size src offset }
{
    match size {
        Size::DoubleWord => {
            let cell = cell_of(facts.get(src).offsets(), offset);
            known(&facts.cells, cell).unwrap_or(D::loaded(size))
        }
        _ => D::loaded(size),
    }
}

/// The destination of a load or of the wide instruction, and what is known of the word there.
fn loaded<D: Domain>(instruction: &Instruction, facts: &Facts<D>) -> Option<(Register, D)>
    ensures { result ≡ loaded_word D.operations instruction.now facts.now }
{
    match *instruction {
        Instruction::LoadImmediate { dst, value } => Some((dst, D::constant(value))),
        Instruction::Load {
            size,
            dst,
            src,
            offset,
        } => Some((dst, load(facts, size, src, offset))),
        Instruction::LoadSigned { size, dst, .. } => Some((dst, D::loaded_signed(size))),
        _ => None,
    }
}

/// The destination of an instruction that computes, and what is known of the word there.
fn computed<D: Domain>(instruction: &Instruction, facts: &Facts<D>) -> Option<(Register, D)>
    ensures { result ≡ computed_word D.operations instruction.now facts.now }
{
    let (dst, arithmetic, first, second) = match *instruction {
        Instruction::Arithmetic {
            width,
            operation,
            dst,
            source,
        } => {
            let arithmetic = Arithmetic::Binary { width, operation };
            (dst, arithmetic, facts.get(dst), source_of(facts, source))
        }
        Instruction::Negate { width, dst } => {
            let arithmetic = Arithmetic::Negate { width };
            (dst, arithmetic, facts.get(dst), D::constant(0))
        }
        Instruction::MoveSigned {
            extension,
            dst,
            src,
        } => {
            let arithmetic = Arithmetic::MoveSigned { extension };
            (dst, arithmetic, D::constant(0), facts.get(src))
        }
        Instruction::SwapBytes { swap, size, dst } => {
            let arithmetic = Arithmetic::SwapBytes { swap, size };
            (dst, arithmetic, facts.get(dst), D::constant(0))
        }
        _ => return None,
    };
    Some((dst, D::alu(arithmetic, first, second)))
}

/// Changes the facts to those after an instruction that leaves a word in its register; false for one that doesn't.
fn leave<D: Domain>(instruction: &Instruction, facts: &mut Facts<D>) -> bool
    ensures { then_some result facts.new ≡ after_word D.operations instruction.now facts.old }
{
    let Some((dst, fact)) = loaded(instruction, facts).or(computed(instruction, facts)) else {
        return false;
    };
    alter_sums(instruction, facts);
    facts.set(dst, fact);
    true
}

/// Changes the facts to those at the slot behind an instruction that doesn't jump; false for EXIT, which leads to no slot.
pub(crate) fn step<D: Domain>(
    instruction: &Instruction,
    block: BlockSize,
    facts: &mut Facts<D>,
) -> bool
    requires straight { distance_of instruction.now ≡ None }
    requires counted { CanBeCounted D.operations instruction.now facts.old }
    ensures { then_some result facts.new ≡ facts_behind D.operations block instruction.now facts.old }
{
    match *instruction {
        Instruction::StoreImmediate {
            size,
            dst,
            offset,
            ..
        } => store(block, facts, size, dst, offset, None),
        Instruction::StoreRegister {
            size,
            dst,
            src,
            offset,
        } => {
            let word = kept(facts, size, src);
            store(block, facts, size, dst, offset, word);
        }
        Instruction::Call { .. } => {
            alter_sums(instruction, facts);
            emit(facts);
        }
        _ => return leave(instruction, facts),
    }
    true
}
