//! The code that tallies a record that matches.

ghost use Rattle.std.specs.Prelude.{◌≡◌, ◌≤◌, ◌<◌, ◌-◌, ◌*◌, ◌^◌, ◌∷◌, ◌++◌, [], length, pos, ◌+◌, OnOk};
ghost use Rattle.program_interface.specs.declared.area.TheConstants.{SCRATCH_BYTES};
ghost use Rattle.record_questions.specs.Asked.{AreTallies, IsField, IsGrouping, IsTally};
ghost use Rattle.record_questions.specs.Code.{base_code, counted, change_code, change_slots, group_slots, grouped_code, grouped_slots, rank_code, rank_slots, ranked_code, ranked_slots, tallies_code, tallies_slots, tally_code, taken_code, taken_slots};

use crate::emitting::{arithmetic, from_register, load, long, push, short};
use crate::loads::{field_slots, push_field};
use crate::question::{Field, Grouping, Sign, Tally};
use instruction_set::{Instruction, Operation, Register, Relation, Size, Source, Width};
use std::alloc::AllocError;

/// How many slots it takes to have the rank of a field's value.
fn ranked_slots(field: Field) -> u64
    ensures value { result ≡ ranked_slots field }
    ensures few { result ≤ 6 }
{
    match field.sign {
        Sign::Unsigned => field_slots(field),
        Sign::Signed => field_slots(field) + 3,
    }
}

/// How many slots it takes to have the number that a tally takes of a record.
fn taken_slots(tally: Tally) -> u64
    ensures value { result ≡ taken_slots tally }
    ensures few { result ≤ 8 }
{
    match tally {
        Tally::Count => 0,
        Tally::Sum(field) => field_slots(field),
        Tally::Least(field) => ranked_slots(field) + 2,
        Tally::Greatest(field) => ranked_slots(field),
    }
}

/// How many slots it takes to change a tally's word.
fn change_slots(tally: Tally) -> u64
    ensures value { result ≡ change_slots tally }
    ensures few { result ≤ 2 }
{
    match tally {
        Tally::Count | Tally::Sum(_) => 1,
        Tally::Least(_) | Tally::Greatest(_) => 2,
    }
}

/// How many slots the tallies of a record take.
fn tallies_slots(tallies: &[Tally]) -> u64
    ensures { result ≡ counted (tallies_slots tallies.now) }
{
    let mut slots: u64 = 0;
    for tally in tallies {
        slots = slots.saturating_add(taken_slots(*tally) + (change_slots(*tally) + 2));
    }
    slots
}

/// How many slots it takes to have the address of the words of a record's group.
fn group_slots(by: Grouping) -> u64
    ensures value { result ≡ group_slots by }
    ensures few { result ≤ 8 }
{
    field_slots(by.field) + 5
}

/// How many slots the tallies of a record take, where records have groups.
pub(crate) fn grouped_slots(by: Option<Grouping>, tallies: &[Tally]) -> u64
    ensures { result ≡ counted (grouped_slots by tallies.now) }
{
    let slots = tallies_slots(tallies);
    match by {
        None => slots,
        Some(by) => slots.saturating_add(group_slots(by)),
    }
}

/// Adds 2^63 to a signed value in R5.
fn push_rank(code: &mut Vec<Instruction>, sign: Sign) -> Result<(), AllocError>
    ensures { OnOk result (code.new.items ≡ code.old.items ++ rank_code sign) }
{
    match sign {
        Sign::Unsigned => Ok(()),
        Sign::Signed => {
            push(
                code,
                Instruction::LoadImmediate {
                    dst: Register::from_number(4),
                    value: 0x8000_0000_0000_0000,
                },
            )?;
            push(code, arithmetic(Operation::Add, 5, from_register(4)))
        }
    }
}

/// The rank of a field's value, of the record at a byte of the block, in R5.
fn push_ranked(code: &mut Vec<Instruction>, byte: u32, field: Field) -> Result<(), AllocError>
    requires { IsField (2 ^ 15 - byte) field }
    ensures { OnOk result (code.new.items ≡ code.old.items ++ ranked_code byte field) }
{
    push_field(code, 5, byte, field)?;
    push_rank(code, field.sign)
}

/// The number that a tally takes of the record at a byte of the block, in R5.
fn push_taken(code: &mut Vec<Instruction>, byte: u32, tally: Tally) -> Result<(), AllocError>
    requires { IsTally (2 ^ 15 - byte) tally }
    ensures { OnOk result (code.new.items ≡ code.old.items ++ taken_code byte tally) }
{
    match tally {
        Tally::Count => Ok(()),
        Tally::Sum(field) => push_field(code, 5, byte, field),
        Tally::Greatest(field) => push_ranked(code, byte, field),
        Tally::Least(field) => {
            push_ranked(code, byte, field)?;
            push(
                code,
                Instruction::Negate {
                    width: Width::Bits64,
                    dst: Register::from_number(5),
                },
            )?;
            push(code, arithmetic(Operation::Add, 5, Source::Immediate(-1)))?;
            Ok(())
        }
    }
}

/// Changes the word in R4.
fn push_change(code: &mut Vec<Instruction>, tally: Tally) -> Result<(), AllocError>
    ensures { OnOk result (code.new.items ≡ code.old.items ++ change_code tally) }
{
    match tally {
        Tally::Count => push(code, arithmetic(Operation::Add, 4, Source::Immediate(1))),
        Tally::Sum(_) => push(code, arithmetic(Operation::Add, 4, from_register(5))),
        Tally::Least(_) | Tally::Greatest(_) => {
            push(
                code,
                Instruction::Branch {
                    width: Width::Bits64,
                    relation: Relation::GreaterOrEqual,
                    dst: Register::from_number(4),
                    source: from_register(5),
                    distance: 1,
                },
            )?;
            push(code, arithmetic(Operation::Move, 4, from_register(5)))
        }
    }
}

/// Tallies the record at a byte of the block in the word at an offset from the address in a register.
fn push_tally(
    code: &mut Vec<Instruction>,
    base: u8,
    byte: u32,
    at: u64,
    tally: Tally,
) -> Result<(), AllocError>
    requires base { base < 11 }
    requires near { IsTally (2 ^ 15 - byte) tally }
    requires at { at < 2 ^ 15 }
    ensures { OnOk result (code.new.items ≡ code.old.items ++ tally_code base byte at tally) }
{
    push_taken(code, byte, tally)?;
    let offset = short(at);
    push(code, load(Size::DoubleWord, 4, base, offset))?;
    push_change(code, tally)?;
    push(
        code,
        Instruction::StoreRegister {
            size: Size::DoubleWord,
            dst: Register::from_number(base),
            src: Register::from_number(4),
            offset,
        },
    )?;
    Ok(())
}

/// Tallies the record at a byte of the block, each tally in a word of its own, from the address in a register on.
fn push_tallies(
    code: &mut Vec<Instruction>,
    base: u8,
    byte: u32,
    tallies: &[Tally],
) -> Result<(), AllocError>
    requires base { base < 11 }
    requires near { AreTallies (2 ^ 15 - byte) tallies.now }
    requires few { 8 * length tallies.now ≤ SCRATCH_BYTES }
    ensures { OnOk result (code.new.items ≡ code.old.items ++ tallies_code base byte 0 tallies.now) }
{
    let mut at = 0;
    for tally in tallies {
        push_tally(code, base, byte, at, *tally)?;
        at += 8;
    }
    Ok(())
}

/// Where the value in R5 is that of a group, the address of the group's words, in R3: each group has so many. Else the program jumps over the
/// code of the tallies, which takes so many slots.
fn push_base(
    code: &mut Vec<Instruction>,
    by: Grouping,
    words: u64,
    slots: u64,
) -> Result<(), AllocError>
    requires words { 8 * words ≤ SCRATCH_BYTES }
    requires room { 3 + slots < 2 ^ 15 }
    ensures { OnOk result (code.new.items ≡ code.old.items ++ base_code by words slots) }
{
    let first = Source::Immediate(long(u64::from(by.first)));
    let values = Source::Immediate(long(u64::from(by.values)));
    let bytes = Source::Immediate(long(8 * words));
    let distance = short(3 + slots);
    push(code, arithmetic(Operation::Subtract, 5, first))?;
    push(
        code,
        Instruction::Branch {
            width: Width::Bits64,
            relation: Relation::GreaterOrEqual,
            dst: Register::from_number(5),
            source: values,
            distance,
        },
    )?;
    push(code, arithmetic(Operation::Multiply, 5, bytes))?;
    push(code, arithmetic(Operation::Move, 3, from_register(7)))?;
    push(code, arithmetic(Operation::Add, 3, from_register(5)))
}

/// How many slots the tallies of a record take, where a program has room for them.
fn tallies_skip(tallies: &[Tally]) -> u64
    requires { tallies_slots tallies.now < 2 ^ 15 }
    ensures { result ≡ tallies_slots tallies.now }
{
    tallies_slots(tallies)
}

/// Tallies the record at a byte of the block in the words of its group.
pub(crate) fn push_grouped(
    code: &mut Vec<Instruction>,
    byte: u32,
    by: Option<Grouping>,
    tallies: &[Tally],
) -> Result<(), AllocError>
    requires near { AreTallies (2 ^ 15 - byte) tallies.now }
    requires grouped { IsGrouping (2 ^ 15 - byte) by }
    requires few { 8 * length tallies.now ≤ SCRATCH_BYTES }
    requires room { grouped_slots by tallies.now < 2 ^ 15 }
    ensures { OnOk result (code.new.items ≡ code.old.items ++ grouped_code byte by tallies.now) }
{
    match by {
        None => push_tallies(code, 7, byte, tallies),
        Some(by) => {
            push_field(code, 5, byte, by.field)?;
            push_base(code, by, tallies.len() as u64, tallies_skip(tallies))?;
            push_tallies(code, 3, byte, tallies)
        }
    }
}
