//! Bytes of the block that registers have, so that those that are put together of single bytes can be loaded at once: clang loads each
//! byte alone where a structure is packed.

use crate::known::Known;
use crate::liveness::{bit, writes};
use instruction_set::{Instruction, Operation, Register, Size, Source, Width};
use program_interface::{Area, REGISTERS};
use word_domain::{Domain, Offsets};

/// Bytes of the block as a number, the least first, that stands `shift` bytes further up: of no other byte of the word is a bit set.
#[derive(Clone, Copy, PartialEq, Eq)]
pub(crate) struct Field {
    /// The distance of the first byte from that of the block.
    pub from: u16,
    /// How many bytes, 1 to 8.
    pub bytes: u8,
    /// How many zero bytes are below them.
    pub shift: u8,
}

/// The field that each register has, if one is known.
pub(crate) type Fields = [Option<Field>; REGISTERS];

/// None is known.
pub(crate) const NO_FIELDS: Fields = [None; REGISTERS];

/// Keeps what both ways know.
pub(crate) fn join_fields(fields: &mut Fields, others: &Fields) {
    for j in 0..REGISTERS {
        if fields[j] != others[j] {
            fields[j] = None;
        }
    }
}

/// The distance of bytes of the block that are loaded, where it is known.
fn distance(told: Option<Offsets>, offset: i16) -> Option<u16> {
    let told = told?;
    let at = told.low.wrapping_add(i64::from(offset));
    if told.area == Area::Block && told.low == told.high && at >= 0 && at <= 0xffff {
        Some(at as u16)
    } else {
        None
    }
}

/// How many bytes a load gives.
fn bytes_of(size: Size) -> u8 {
    match size {
        Size::Byte => 1,
        Size::HalfWord => 2,
        Size::Word => 4,
        Size::DoubleWord => 8,
    }
}

/// A field, shifted up by so many bits, within a word of so many bytes.
fn shifted(field: Field, bits: i32, word: u8) -> Option<Field> {
    if bits < 0 || bits > 56 || bits % 8 != 0 {
        return None;
    }
    let shift = field.shift.saturating_add((bits / 8) as u8);
    if shift.saturating_add(field.bytes) <= word {
        Some(Field { shift, ..field })
    } else {
        None
    }
}

/// The field that one and another right above it are.
fn beside(below: Field, above: Field) -> Option<Field> {
    let next = below.from.checked_add(u16::from(below.bytes))?;
    if next == above.from && below.shift.saturating_add(below.bytes) == above.shift {
        Some(Field {
            bytes: below.bytes.saturating_add(above.bytes),
            ..below
        })
    } else {
        None
    }
}

/// The field that two are together.
fn together(one: Field, other: Field) -> Option<Field> {
    match beside(one, other) {
        Some(field) => Some(field),
        None => beside(other, one),
    }
}

/// The bytes of a word of a width.
fn word_bytes(width: Width) -> u8 {
    match width {
        Width::Bits32 => 4,
        Width::Bits64 => 8,
    }
}

/// Does a field lie in the low bytes of a word?
fn is_within(field: Field, word: u8) -> bool {
    field.shift.saturating_add(field.bytes) <= word
}

/// The field of a register.
fn field_of(known: &Known, register: Register) -> Option<Field> {
    *known.fields.get(register.index())?
}

/// The field that arithmetic gives.
fn computed(
    known: &Known,
    width: Width,
    operation: Operation,
    dst: Register,
    source: Source,
) -> Option<Field> {
    let word = word_bytes(width);
    match (operation, source) {
        (Operation::Move, Source::Register(register)) => {
            let field = field_of(known, register)?;
            if is_within(field, word) {
                Some(field)
            } else {
                None
            }
        }
        (Operation::LeftShift, Source::Immediate(bits)) => {
            shifted(field_of(known, dst)?, bits, word)
        }
        (Operation::Or | Operation::Add | Operation::Xor, Source::Register(register)) => {
            let field = together(field_of(known, dst)?, field_of(known, register)?)?;
            if is_within(field, word) {
                Some(field)
            } else {
                None
            }
        }
        _ => None,
    }
}

/// The field that an instruction gives its destination.
fn given(known: &Known, instruction: &Instruction) -> Option<Field> {
    match *instruction {
        Instruction::Load {
            size,
            src,
            offset,
            ..
        } => Some(Field {
            from: distance(known.get(src).offsets(), offset)?,
            bytes: bytes_of(size),
            shift: 0,
        }),
        Instruction::Arithmetic {
            width,
            operation,
            dst,
            source,
        } => computed(known, width, operation, dst, source),
        _ => None,
    }
}

/// The fields behind an instruction that isn't a jump.
pub(crate) fn fields_behind(known: &Known, instruction: &Instruction) -> Fields {
    let written = writes(instruction);
    let field = given(known, instruction);
    let mut fields = known.fields;
    for j in 0..REGISTERS {
        if (written & bit(Register::from_number(j as u8))) != 0 {
            fields[j] = None;
        }
    }
    if let Some(dst) = instruction.destination() {
        fields[dst.index()] = field;
    }
    fields
}

/// The size of a load of a whole field.
fn load_size(field: Field) -> Option<Size> {
    match (field.bytes, field.shift) {
        (2, 0) => Some(Size::HalfWord),
        (4, 0) => Some(Size::Word),
        (8, 0) => Some(Size::DoubleWord),
        _ => None,
    }
}

/// A register that has the address of a byte of the block that is known, and its distance.
fn block_register(known: &Known) -> Option<(Register, i64)> {
    for back in 0..REGISTERS {
        let register = Register::from_number((REGISTERS - 1 - back) as u8);
        if let Some(told) = known.get(register).offsets() {
            if told.area == Area::Block && told.low == told.high {
                return Some((register, told.low));
            }
        }
    }
    None
}

/// A load of all bytes of a field, in place of an instruction that puts it together.
pub(crate) fn loaded_at_once(known: &Known, instruction: &Instruction) -> Option<Instruction> {
    let Instruction::Arithmetic {
        operation: Operation::Or | Operation::Add | Operation::Xor,
        dst,
        source: Source::Register(_),
        ..
    } = *instruction
    else {
        return None;
    };
    let field = given(known, instruction)?;
    let size = load_size(field)?;
    let (src, distance) = block_register(known)?;
    let offset = i64::from(field.from).wrapping_sub(distance);
    if offset >= -0x8000 && offset <= 0x7fff {
        Some(Instruction::Load {
            size,
            dst,
            src,
            offset: offset as i16,
        })
    } else {
        None
    }
}
