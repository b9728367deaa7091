//! The instructions of a question.

ghost use Rattle.std.specs.Prelude.{◌≡◌, ◌<◌, ◌≤◌, ◌++◌, ◌^◌, pos, true, ◌+◌, length, IfErr, IfOk, OnOk};
ghost use Rattle.program_interface.specs.declared.TheConstants.{MOST_SLOTS};
ghost use Rattle.program_interface.specs.declared.block_size.TheConstants.{LARGEST_BLOCK};
ghost use Rattle.record_questions.specs.Asked.{IsQuestion};
ghost use Rattle.record_questions.specs.Code.{counted, emitted_code, emitted_slots, match_code, match_slots, question_code, question_program, record_code, records_code, start_code, test_slots};
ghost use Rattle.record_questions.specs.Fault.{IsCodeFaultOf};

use crate::emitting::{arithmetic, from_register, load, push};
use crate::fault::CodeFault;
use crate::frames::{emitted_slots, push_emitted};
use crate::question::Question;
use crate::tallying::{grouped_slots, push_grouped};
use crate::testing::{push_test, test_slots};
use instruction_set::{Instruction, Operation, Size};
use program_interface::MOST_SLOTS;
use std::alloc::{AllocError, Global};

/// How many slots are taken by what is done of a record that matches.
fn match_slots(question: &Question) -> u64
    ensures { result ≡ counted (match_slots question.now) }
{
    grouped_slots(question.by, &question.tallies).saturating_add(emitted_slots(&question.emitted))
}

/// How many slots are jumped over where a record doesn't match.
fn match_skip(question: &Question) -> u64
    requires { match_slots question.now < 2 ^ 15 }
    ensures { result ≡ match_slots question.now }
{
    match_slots(question)
}

/// The code of the record at a byte of the block.
#[tactic(auto, using(crate::proofs::Reach::predicate_near, crate::proofs::Reach::ranges_near, crate::proofs::Reach::tallies_near, crate::proofs::Reach::grouping_near, crate::proofs::Reach::tallies_few))]
fn push_record(
    code: &mut Vec<Instruction>,
    question: &Question,
    byte: u32,
) -> Result<(), AllocError>
    requires asked { IsQuestion LARGEST_BLOCK question.now }
    requires inside { byte + question.now.size ≤ LARGEST_BLOCK }
    requires room { test_slots true question.now.wanted + match_slots question.now < 2 ^ 15 }
    ensures { OnOk result (code.new.items ≡ code.old.items ++ record_code question.now byte) }
{
    push_test(code, byte, true, &question.wanted, match_skip(question))?;
    push_grouped(code, byte, question.by, &question.tallies)?;
    push_emitted(code, byte, &question.emitted)
}

/// The code of all records.
#[tactic(auto, using(crate::proofs::Loops::next_record, crate::proofs::Reach::record_inside))]
fn push_records(code: &mut Vec<Instruction>, question: &Question) -> Result<(), AllocError>
    requires asked { IsQuestion LARGEST_BLOCK question.now }
    requires room { test_slots true question.now.wanted + match_slots question.now < 2 ^ 15 }
    ensures { OnOk result (code.new.items ≡ code.old.items ++ records_code question.now question.now.count question.now.first) }
{
    for index in 0..question.count {
        let byte = u32::from(question.first) + u32::from(index) * u32::from(question.size);
        push_record(code, question, byte)?;
    }
    Ok(())
}

/// Keeps the addresses of block and scratch, and loads the argument.
fn push_start(code: &mut Vec<Instruction>) -> Result<(), AllocError>
    ensures { OnOk result (code.new.items ≡ code.old.items ++ start_code) }
{
    push(code, load(Size::Word, 8, 1, 20))?;
    push(code, arithmetic(Operation::Move, 6, from_register(2)))?;
    push(code, arithmetic(Operation::Move, 7, from_register(3)))
}

/// How many slots the program of a question takes.
#[tactic(auto, using(crate::proofs::Counts::all_counted))]
fn program_slots(question: &Question) -> u64
    ensures { result ≡ counted (length (question_program question.now)) }
{
    let record = test_slots(true, &question.wanted).saturating_add(match_slots(question));
    u64::from(question.count)
        .saturating_mul(record)
        .saturating_add(4)
}

/// The instructions of a question.
///
/// # Errors
///
/// They take more slots than a program can have, or there is no memory.
#[tactic(auto, using(crate::proofs::Counts::room_left))]
pub fn instructions(alloc: Global, question: &Question) -> Result<Vec<Instruction>, CodeFault>
    requires { IsQuestion LARGEST_BLOCK question.now }
    ensures made { IfOk result (λ code. code.items ≡ question_code question.now) }
    ensures short { IfOk result (λ code. length (question_program question.now) ≤ MOST_SLOTS) }
    ensures failed { IfErr result (IsCodeFaultOf question.now) }
{
    let slots = program_slots(question);
    if slots > MOST_SLOTS as u64 {
        return Err(CodeFault::TooLong(slots));
    }
    let mut code = Vec::new(alloc);
    push_start(&mut code)?;
    push_records(&mut code, question)?;
    push(&mut code, Instruction::Exit)?;
    Ok(code)
}
