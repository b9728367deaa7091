//! Numbers that the stack is known to have, as tables have that are put there, and numbers in place of registers that are known to
//! have one.

ghost use Rattle.std.specs.Prelude.{IfSome};
ghost use Rattle.accepted_programs.specs.Facts.{fact};
ghost use Rattle.ebpf_link.specs.Spelling.{IsSameByNumber, IsSpelled, stored_width};
ghost use Rattle.interval_domain.specs.Intervals.{intervals};

use crate::folding::small;
use crate::known::Known;
use crate::pieces::compute;
use instruction_set::{Instruction, Operation, Register, Size, Source, Width};
use program_interface::{Area, STACK_BYTES};
use word_domain::{Domain, Offsets};

/// How many words of 4 bytes the stack has.
pub(crate) const WORDS: usize = STACK_BYTES / 4;

/// The numbers of the stack's words of 4 bytes, as far as they are known.
pub(crate) type Words = [Option<u32>; WORDS];

/// Keeps what both ways know.
pub(crate) fn join_words(words: &mut Words, others: &Words) {
    for j in 0..WORDS {
        if words[j] != others[j] {
            words[j] = None;
        }
    }
}

/// The byte of the stack at an offset from an address that is known alone.
fn byte_at(told: Option<Offsets>, offset: i16) -> Option<usize> {
    let told = told?;
    let at = told.low.wrapping_add(i64::from(offset));
    if told.area == Area::Stack && told.low == told.high && at >= 0 && at < STACK_BYTES as i64 {
        Some(at as usize)
    } else {
        None
    }
}

/// The first byte that a store may reach, and the last.
fn reached(told: Option<Offsets>, offset: i16, size: Size) -> Option<(i64, i64)> {
    match told {
        Some(told) if told.area != Area::Stack => None,
        Some(told) => Some((
            told.low.wrapping_add(i64::from(offset)),
            told.high
                .wrapping_add(i64::from(offset))
                .wrapping_add(size.bytes() as i64 - 1),
        )),
        None => Some((0, STACK_BYTES as i64)),
    }
}

/// What a store leaves known, of which the number may be known.
pub(crate) fn store_words(
    known: &mut Known,
    size: Size,
    dst: Register,
    offset: i16,
    number: Option<u64>,
) {
    let told = known.get(dst).offsets();
    let Some((first, last)) = reached(told, offset, size) else {
        return;
    };
    for j in 0..WORDS {
        let begin = 4 * j as i64;
        if first <= begin + 3 && begin <= last {
            known.words[j] = None;
        }
    }
    if let (Some(byte), Some(number)) = (byte_at(told, offset), number) {
        let word = byte / 4;
        if byte % 4 == 0 && word < WORDS {
            if size == Size::Word || size == Size::DoubleWord {
                known.words[word] = Some((number % 0x1_0000_0000) as u32);
            }
            if size == Size::DoubleWord && word + 1 < WORDS {
                known.words[word + 1] = Some((number >> 32) as u32);
            }
        }
    }
}

/// The word of the stack with this number.
fn word_of(known: &Known, word: usize) -> Option<u64> {
    match known.words.get(word) {
        Some(Some(number)) => Some(u64::from(*number)),
        _ => None,
    }
}

/// The number that a load gives.
fn number_loaded(known: &Known, size: Size, byte: usize) -> Option<u64> {
    let word = byte / 4;
    let low = word_of(known, word)?;
    match (size, byte % 4) {
        (Size::Byte, cut) => Some((low >> (8 * cut)) % 0x100),
        (Size::HalfWord, cut) if cut <= 2 => Some((low >> (8 * cut)) % 0x1_0000),
        (Size::Word, 0) => Some(low),
        (Size::DoubleWord, 0) => Some(low | word_of(known, word.saturating_add(1))? << 32),
        _ => None,
    }
}

/// Does a store of a number change nothing, since the stack has it already?
pub(crate) fn is_idle_store(known: &Known, instruction: &Instruction) -> bool {
    let Instruction::StoreImmediate {
        size,
        dst,
        offset,
        value,
    } = *instruction
    else {
        return false;
    };
    let Some(byte) = byte_at(known.get(dst).offsets(), offset) else {
        return false;
    };
    let stored = Instruction::immediate_word(value);
    match (size, number_loaded(known, size, byte)) {
        (Size::Byte, Some(number)) => stored % 0x100 == number,
        (Size::HalfWord, Some(number)) => stored % 0x1_0000 == number,
        (Size::Word, Some(number)) => stored % 0x1_0000_0000 == number,
        (Size::DoubleWord, Some(number)) => stored == number,
        _ => false,
    }
}

/// A move of a number, in place of a load of it from the stack.
pub(crate) fn number_in_place(known: &Known, instruction: &Instruction) -> Option<Instruction> {
    let Instruction::Load {
        size,
        dst,
        src,
        offset,
    } = *instruction
    else {
        return None;
    };
    let byte = byte_at(known.get(src).offsets(), offset)?;
    let number = number_loaded(known, size, byte)?;
    if let Some(number) = small(number.cast_signed()) {
        return Some(compute(Operation::Move, dst, Source::Immediate(number)));
    }
    if number < 0x1_0000_0000 {
        return Some(Instruction::Arithmetic {
            width: Width::Bits32,
            operation: Operation::Move,
            dst,
            source: Source::Immediate((number as u32).cast_signed()),
        });
    }
    None
}

/// The number of a register, as an immediate of an instruction of a width.
fn immediate(known: &Known, width: Width, register: Register) -> Option<i32>
    ensures { IfSome result (λ number. IsSpelled width number (fact intervals known.now.facts register)) }
{
    let bounds = known.get(register).bounds();
    if bounds.low != bounds.high {
        return None;
    }
    match width {
        Width::Bits64 => small(bounds.low.cast_signed()),
        Width::Bits32 => Some(((bounds.low % 0x1_0000_0000) as u32).cast_signed()),
    }
}

/// May an operation have this number in place of a register?
fn takes(operation: Operation, number: i32) -> bool {
    match operation {
        Operation::LeftShift | Operation::RightShift | Operation::ArithmeticShift => {
            number >= 0 && number < 32
        }
        Operation::Divide | Operation::Modulo | Operation::SignedDivide | Operation::SignedModulo =>
            number != 0,
        _ => true,
    }
}

/// The number that is stored, where that isn't to be known of the stack.
fn number_stored(known: &Known, size: Size, dst: Register, src: Register) -> Option<i32>
    ensures { IfSome result (λ value. IsSpelled (stored_width size) value (fact intervals known.now.facts src)) }
{
    let area = known.get(dst).offsets()?.area;
    if area == Area::Stack {
        return None;
    }
    match size {
        Size::DoubleWord => immediate(known, Width::Bits64, src),
        _ => immediate(known, Width::Bits32, src),
    }
}

/// The same instruction, with a number in place of a register that is known to have it.
pub(crate) fn with_number(known: &Known, instruction: &Instruction) -> Instruction
    ensures { IsSameByNumber known.now.facts instruction.now result }
{
    match *instruction {
        Instruction::Arithmetic {
            width,
            operation,
            dst,
            source: Source::Register(register),
        } => match immediate(known, width, register) {
            Some(number) if takes(operation, number) => Instruction::Arithmetic {
                width,
                operation,
                dst,
                source: Source::Immediate(number),
            },
            _ => *instruction,
        },
        Instruction::StoreRegister {
            size,
            dst,
            src,
            offset,
        } => match number_stored(known, size, dst, src) {
            Some(value) => Instruction::StoreImmediate {
                size,
                dst,
                offset,
                value,
            },
            None => *instruction,
        },
        Instruction::Branch {
            width,
            relation,
            dst,
            source: Source::Register(register),
            distance,
        } => match immediate(known, width, register) {
            Some(number) => Instruction::Branch {
                width,
                relation,
                dst,
                source: Source::Immediate(number),
                distance,
            },
            None => *instruction,
        },
        _ => *instruction,
    }
}
