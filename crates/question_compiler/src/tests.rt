ghost use Rattle.std.specs.Prelude.{◌<◌};

use crate::compile;
use instruction_set::{Instruction, Operation, Register, Relation, Size, Source, Width};
use program_interface::{BlockSize, EMIT, RunSizes};
use record_questions::{
    ByteOrder, ByteRange, Comparison, Field, Grouping, Operand, Predicate, Question, Sign, Tally,
};
use std::alloc::Global;
use std::process::Abort;
use std::test::Fail;

/// A word from byte 4 of a record on, unsigned, the lowest byte first.
const WORD: Field = Field {
    size: Size::Word,
    offset: 4,
    sign: Sign::Unsigned,
    order: ByteOrder::Little,
};

/// A number of 64 bits from byte 8 of a record on, signed, the highest byte first.
const WIDE: Field = Field {
    size: Size::DoubleWord,
    offset: 8,
    sign: Sign::Signed,
    order: ByteOrder::Big,
};

fn compare(field: Field, comparison: Comparison, operand: Operand) -> Predicate {
    Predicate::Compare {
        field,
        comparison,
        operand,
    }
}

fn bytes(alloc: Global, offset: u16, text: &str) -> Result<Predicate, Fail> {
    let mut bytes = Vec::new(alloc);
    bytes.extend_from_slice(text.as_bytes())?;
    Ok(Predicate::Bytes { offset, bytes })
}

/// Asked of blocks of 512 bytes full of records of 16: it emits each match whole but two bytes, so that a block of matches takes 512.
fn of_full_blocks(alloc: Global, wanted: Predicate) -> Result<Question, Fail> {
    Ok(Question {
        first: 0,
        size: 16,
        count: 32,
        wanted,
        emitted: ranges(
            alloc,
            &[ByteRange {
                offset: 2,
                size: 14,
            }],
        )?,
        tallies: Vec::new(alloc),
        by: None,
    })
}

fn ranges(alloc: Global, these: &[ByteRange]) -> Result<Vec<ByteRange>, Fail> {
    let mut ranges = Vec::new(alloc);
    ranges.extend_from_slice(these)?;
    Ok(ranges)
}

/// The slots of a question's program, which is accepted for blocks of 512 bytes.
fn slots_of(alloc: Global, question: &Question) -> Result<Vec<Option<Instruction>>, Fail> {
    let block = BlockSize::new(512).ok_or("no size of a block")?;
    let sizes = RunSizes::new(block, 512).ok_or("no sizes")?;
    let compiled = compile(alloc, question, sizes)?;
    let mut slots = Vec::new(alloc);
    slots.extend_from_slice(compiled.program().as_slice())?;
    Ok(slots)
}

fn is_asked(rt: &impl Abort, alloc: Global, wanted: Predicate, count: usize) -> Result<(), Fail> {
    let slots = slots_of(alloc, &of_full_blocks(alloc, wanted)?)?;
    assert_eq!(rt; slots.len(), count);
    Ok(())
}

/// Three slots before the records, one after them, and of each record the four that emit it beside those that test it.
fn comparisons_are_asked(rt: &impl Abort, alloc: Global) -> Result<(), Fail> {
    let signed = Field {
        size: Size::HalfWord,
        ..WIDE
    };
    let other = Field { offset: 0, ..WIDE };
    let least = Operand::Number(-0x8000_0000_0000_0000);
    is_asked(
        rt,
        alloc,
        compare(WORD, Comparison::Less, Operand::Number(5)),
        4 + 32 * (4 + 2),
    )?;
    is_asked(
        rt,
        alloc,
        compare(signed, Comparison::Less, Operand::Number(-5)),
        4 + 32 * (4 + 4),
    )?;
    is_asked(
        rt,
        alloc,
        compare(WIDE, Comparison::Greater, least),
        4 + 32 * (4 + 5),
    )?;
    is_asked(
        rt,
        alloc,
        compare(WORD, Comparison::Equal, Operand::Argument),
        4 + 32 * (4 + 2),
    )?;
    is_asked(
        rt,
        alloc,
        compare(WIDE, Comparison::NotEqual, Operand::Field(other)),
        4 + 32 * (4 + 5),
    )
}

/// The chunks of 8, 2 and 1 take 4, 2 and 2 slots, and the jump over the rest of the condition one.
fn predicates_are_asked(rt: &impl Abort, alloc: Global) -> Result<(), Fail> {
    let first = bytes(alloc, 1, "of eleven !")?;
    let second = compare(WORD, Comparison::LessOrEqual, Operand::Argument);
    let either = Predicate::Or(Box::new(alloc, first)?, Box::new(alloc, second)?);
    let third = compare(WIDE, Comparison::GreaterOrEqual, Operand::Number(0));
    let other = Predicate::Not(Box::new(alloc, third)?);
    let both = Predicate::And(Box::new(alloc, either)?, Box::new(alloc, other)?);
    is_asked(rt, alloc, both, 4 + 32 * (4 + (4 + 2 + 2 + 1) + 2 + 3))
}

fn tallies_are_asked(rt: &impl Abort, alloc: Global) -> Result<(), Fail> {
    let wanted = compare(WORD, Comparison::NotEqual, Operand::Number(0));
    let mut question = of_full_blocks(alloc, wanted)?;
    question.emitted = Vec::new(alloc);
    question.tallies.extend_from_slice(&[
        Tally::Count,
        Tally::Sum(WORD),
        Tally::Least(WORD),
        Tally::Greatest(WORD),
    ])?;
    let slots = slots_of(alloc, &question)?;
    assert_eq!(rt; slots.len(), 4 + 32 * (2 + 3 + 4 + 7 + 5));
    Ok(())
}

/// The load of a signed number of eight bytes, the highest first, takes two slots, and its rank three more.
fn signed_tallies_are_asked(rt: &impl Abort, alloc: Global) -> Result<(), Fail> {
    let wanted = compare(WORD, Comparison::NotEqual, Operand::Number(0));
    let mut question = of_full_blocks(alloc, wanted)?;
    question.emitted.clear();
    question.tallies.extend_from_slice(&[
        Tally::Sum(WIDE),
        Tally::Least(WIDE),
        Tally::Greatest(WIDE),
    ])?;
    let slots = slots_of(alloc, &question)?;
    assert_eq!(rt; slots.len(), 4 + 32 * (2 + 5 + 11 + 9));
    Ok(())
}

/// Of 42 groups by a byte, each with three words, and of 2 groups by a word with the highest byte first, from 300 on.
fn groups_are_asked(rt: &impl Abort, alloc: Global) -> Result<(), Fail> {
    let wanted = compare(WORD, Comparison::NotEqual, Operand::Number(0));
    let byte = Field {
        size: Size::Byte,
        ..WORD
    };
    let word = Field {
        order: ByteOrder::Big,
        ..WORD
    };
    let mut question = of_full_blocks(alloc, wanted)?;
    question
        .tallies
        .extend_from_slice(&[Tally::Count, Tally::Sum(WIDE), Tally::Least(WORD)])?;
    question.by = Some(Grouping {
        field: byte,
        first: 0,
        values: 42,
    });
    let slots = slots_of(alloc, &question)?;
    assert_eq!(rt; slots.len(), 4 + 32 * (2 + 6 + 3 + 5 + 7 + 4));
    question.by = Some(Grouping {
        field: word,
        first: 300,
        values: 2,
    });
    let slots = slots_of(alloc, &question)?;
    assert_eq!(rt; slots.len(), 4 + 32 * (2 + 7 + 3 + 5 + 7 + 4));
    Ok(())
}

/// A range of 11 bytes is copied in chunks of 8, 2 and 1, and one of 3 in chunks of 2 and 1: two slots each.
fn several_ranges_are_asked(rt: &impl Abort, alloc: Global) -> Result<(), Fail> {
    let wanted = compare(WORD, Comparison::NotEqual, Operand::Number(0));
    let mut question = of_full_blocks(alloc, wanted)?;
    question.emitted = ranges(
        alloc,
        &[
            ByteRange {
                offset: 5,
                size: 11,
            },
            ByteRange { offset: 0, size: 3 },
        ],
    )?;
    let slots = slots_of(alloc, &question)?;
    assert_eq!(rt; slots.len(), 4 + 32 * (2 + 2 * 5 + 4));
    Ok(())
}

#[test]
fn questions_of_each_kind_are_accepted(rt: HostRuntime) -> Result<(), Fail> {
    let alloc = rt.alloc();
    comparisons_are_asked(&rt, alloc)?;
    predicates_are_asked(&rt, alloc)?;
    several_ranges_are_asked(&rt, alloc)?;
    tallies_are_asked(&rt, alloc)?;
    signed_tallies_are_asked(&rt, alloc)?;
    groups_are_asked(&rt, alloc)
}

fn push(code: &mut Vec<Option<Instruction>>, instruction: Instruction) -> Result<(), Fail> {
    Ok(code.extend_from_slice(&[Some(instruction)])?)
}

fn arithmetic(operation: Operation, dst: u8, source: Source) -> Instruction
    requires { dst < 11 }
{
    Instruction::Arithmetic {
        width: Width::Bits64,
        operation,
        dst: Register::from_number(dst),
        source,
    }
}

fn load(size: Size, dst: u8, src: u8, offset: i16) -> Instruction
    requires dst { dst < 11 }
    requires src { src < 11 }
{
    Instruction::Load {
        size,
        dst: Register::from_number(dst),
        src: Register::from_number(src),
        offset,
    }
}

/// Adds one to the first word of scratch.
fn push_count(code: &mut Vec<Option<Instruction>>) -> Result<(), Fail> {
    push(code, load(Size::DoubleWord, 4, 7, 0))?;
    push(code, arithmetic(Operation::Add, 4, Source::Immediate(1)))?;
    push(
        code,
        Instruction::StoreRegister {
            size: Size::DoubleWord,
            dst: Register::from_number(7),
            src: Register::from_number(4),
            offset: 0,
        },
    )
}

/// Emits two bytes of a block.
fn push_emit(code: &mut Vec<Option<Instruction>>, byte: u8) -> Result<(), Fail> {
    let block = Source::Register(Register::from_number(6));
    push(code, arithmetic(Operation::Move, 1, block))?;
    push(
        code,
        arithmetic(Operation::Add, 1, Source::Immediate(i32::from(byte))),
    )?;
    push(code, arithmetic(Operation::Move, 2, Source::Immediate(2)))?;
    push(code, Instruction::Call { helper: EMIT })
}

/// Counts and emits two bytes of a record whose word is greater than 7.
fn push_record(code: &mut Vec<Option<Instruction>>, byte: u8) -> Result<(), Fail> {
    push(code, load(Size::Word, 4, 6, i16::from(byte) + 4))?;
    push(
        code,
        Instruction::Branch {
            width: Width::Bits64,
            relation: Relation::LessOrEqual,
            dst: Register::from_number(4),
            source: Source::Immediate(7),
            distance: 7,
        },
    )?;
    push_count(code)?;
    push_emit(code, byte)
}

#[test]
fn a_program_is_as_worked_out_by_hand(rt: HostRuntime) -> Result<(), Fail> {
    let alloc = rt.alloc();
    let mut question = of_full_blocks(
        alloc,
        compare(WORD, Comparison::Greater, Operand::Number(7)),
    )?;
    question.first = 4;
    question.size = 8;
    question.count = 2;
    question.emitted = ranges(alloc, &[ByteRange { offset: 0, size: 2 }])?;
    question.tallies.extend_from_slice(&[Tally::Count])?;
    let mut wanted = Vec::new(alloc);
    push(&mut wanted, load(Size::Word, 8, 1, 20))?;
    let block = Source::Register(Register::from_number(2));
    let scratch = Source::Register(Register::from_number(3));
    push(&mut wanted, arithmetic(Operation::Move, 6, block))?;
    push(&mut wanted, arithmetic(Operation::Move, 7, scratch))?;
    push_record(&mut wanted, 4)?;
    push_record(&mut wanted, 12)?;
    push(&mut wanted, Instruction::Exit)?;
    let slots = slots_of(alloc, &question)?;
    assert!(rt; slots == wanted);
    Ok(())
}
