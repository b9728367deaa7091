//! From a question to its program.

ghost use Rattle.std.specs.Prelude.{◌≡◌, ◌≤◌, ◌<◌, ◌+◌, ◌^◌, IfOk, IfErr};
ghost use Rattle.instruction_set.specs.Program.{slots_of};
ghost use Rattle.question_compiler.specs.Compiled.{IsCompiled};
ghost use Rattle.question_compiler.specs.Fault.{HasNoFault, IsFaultOf, emitted_end, frame_bytes, most_emitted};
ghost use Rattle.program_interface.specs.RunSizes.{Sizes};
ghost use Rattle.program_interface.specs.declared.area.TheConstants.{STACK_BYTES};
ghost use Rattle.program_interface.specs.declared.block_size.TheConstants.{LARGEST_BLOCK};
ghost use Rattle.record_questions.specs.Asked.{IsQuestion, stacked_bytes};
ghost use Rattle.record_questions.specs.Code.{question_program};
ghost use Rattle.verifier.specs.Verified.{program_of, sizes_of};

use crate::fault::QuestionFault;
use crate::fits::all_fit;
use instruction_set::{Instruction, Program};
use interval_domain::Intervals;
use program_interface::{FRAME_LENGTH_BYTES, RunSizes, SCRATCH_BYTES, STACK_BYTES};
use record_questions::{
    ByteRange, CodeFault, Question, emitted_bytes, instructions, is_question, stacked_bytes,
    words_of,
};
use std::alloc::Global;
use verifier::{Verified, VerifyFault, verify};

/// The slots that these instructions take, each with the instruction that begins there.
fn slots(alloc: Global, code: &[Instruction]) -> Result<Vec<Option<Instruction>>, QuestionFault>
    ensures made { IfOk result (λ slots. slots.items ≡ slots_of code.now) }
    ensures failed { IfErr result (λ fault. fault ≡ QuestionFault.Memory) }
{
    let mut slots = Vec::with_capacity(alloc, code.len())?;
    for instruction in code {
        // As a slice: `push` of an enum within an enum isn't covered by the borrow checker's proof.
        slots.extend_from_slice(&[Some(*instruction)])?;
        if instruction.slots() == 2 {
            slots.extend_from_slice(&[None])?;
        }
    }
    Ok(slots)
}

/// Whether a question can be asked of blocks of these sizes, within the limit.
#[tactic(auto, using(crate::proofs::Slots::asked_of_largest))]
fn fitted(question: &Question, sizes: RunSizes) -> Result<(), QuestionFault>
    ensures asked { IfOk result (λ done. IsQuestion sizes.block question.now) }
    ensures largest { IfOk result (λ done. IsQuestion LARGEST_BLOCK question.now) }
    ensures within { IfOk result (λ done. most_emitted question.now ≤ sizes.limit) }
    ensures failed { IfErr result (IsFaultOf question.now sizes) }
{
    let block = sizes.block().bytes();
    let end = question.first as u32 + question.count as u32 * question.size as u32;
    if end > block {
        return Err(QuestionFault::RecordsPassBlock { end, block });
    }
    let end = emitted_end(&question.emitted);
    let size = question.size;
    if end > size as u32 {
        return Err(QuestionFault::EmittedPassRecord { end, size });
    }
    let count = stacked_bytes(&question.emitted);
    if count > STACK_BYTES as u64 {
        return Err(QuestionFault::EmittedPassStack(count));
    }
    let count = words_of(question);
    if count > SCRATCH_BYTES / 8 {
        return Err(QuestionFault::TooManyTallies(count));
    }
    if !is_question(block, question) {
        return Err(QuestionFault::NoQuestion);
    }
    let needed = most_emitted(question);
    let limit = sizes.limit();
    if needed > limit {
        return Err(QuestionFault::OverLimit { needed, limit });
    }
    Ok(())
}

/// The byte of a record at which what is emitted of it ends.
fn emitted_end(ranges: &[ByteRange]) -> u32
    ensures value { result ≡ emitted_end ranges.now }
    ensures few { result < 2 ^ 17 }
{
    match ranges {
        [] => 0,
        [first, rest @ ..] => {
            let end = first.offset as u32 + first.size as u32;
            end.max(emitted_end(rest))
        }
    }
}

/// The bytes of the frame of a match.
fn frame_bytes(ranges: &[ByteRange]) -> u32
    requires { stacked_bytes ranges.now ≤ STACK_BYTES }
    ensures value { result ≡ frame_bytes ranges.now }
    ensures few { result ≤ 2 ^ 16 + 1 }
{
    match ranges {
        [] => 0,
        [range] => FRAME_LENGTH_BYTES as u32 + range.size as u32,
        _ => FRAME_LENGTH_BYTES as u32 + emitted_bytes(ranges) as u32,
    }
}

/// The bytes that are emitted for a block whose records all match.
fn most_emitted(question: &Question) -> u32
    requires { stacked_bytes question.now.emitted.items ≤ STACK_BYTES }
    ensures { result ≡ most_emitted question.now }
{
    question.count as u32 * frame_bytes(&question.emitted)
}

/// The program of a question.
#[tactic(auto, using(crate::proofs::Slots::some_slots))]
fn program(alloc: Global, question: &Question) -> Result<Program, QuestionFault>
    requires { IsQuestion LARGEST_BLOCK question.now }
    ensures program { IfOk result (λ program. program ≡ question_program question.now) }
    ensures failed { IfErr result (λ fault. (sizes : Sizes) → IsFaultOf question.now sizes fault) }
{
    let code = match instructions(alloc, question) {
        Ok(code) => code,
        Err(CodeFault::TooLong(count)) => return Err(QuestionFault::TooLong(count)),
        Err(CodeFault::Memory) => return Err(QuestionFault::Memory),
    };
    let slots = slots(alloc, code.as_slice())?;
    all_fit(code.as_slice());
    Ok(Program::from_slots(slots))
}

/// The program of a question, for runs of these sizes: one that the verifier accepts.
///
/// # Errors
///
/// What doesn't fit: the records or the emitted bytes, several ranges of them on the stack, the tallies, a field or a number, what may be emitted for a block, the slots of
/// the program; the refusal of the verifier; or want of memory. Where none of them holds it gives the program.
#[tactic(auto, using(crate::proofs::Faultless::no_fault))]
pub fn compile(
    alloc: Global,
    question: &Question,
    sizes: RunSizes,
) -> Result<Verified<Intervals>, QuestionFault>
    ensures compiled { IfOk result (λ v. IsCompiled question.now sizes (program_of v)) }
    ensures sizes { IfOk result (λ v. sizes_of v ≡ sizes) }
    ensures faultless { IfOk result (λ v. HasNoFault question.now sizes) }
    ensures failed { IfErr result (IsFaultOf question.now sizes) }
{
    fitted(question, sizes)?;
    let program = match program(alloc, question) {
        Ok(program) => program,
        Err(fault) => return Err(fault),
    };
    match verify::<Intervals>(alloc, program, sizes) {
        Ok(verified) => Ok(verified),
        Err(VerifyFault::Memory) => Err(QuestionFault::Memory),
        Err(VerifyFault::Refused(why)) => Err(QuestionFault::Refused(why)),
    }
}
