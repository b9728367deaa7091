//! The code that loads fields and operands.

ghost use Rattle.std.specs.Prelude.{◌≡◌, ◌<◌, ◌≤◌, ◌-◌, ◌^◌, ◌∷◌, ◌++◌, [], pos, OnOk};
ghost use Rattle.std.specs.Int.{w64, cast_unsigned};
ghost use Rattle.record_questions.specs.Asked.{IsField, IsNumber, IsOperand};
ghost use Rattle.record_questions.specs.Code.{extension_of, field_code, field_slots, is_immediate, operand_code, operand_slots, source_of, swap_of};

use crate::emitting::{from_register, load, push, short};
use crate::question::{ByteOrder, Field, Operand, Sign};
use instruction_set::{Instruction, Register, SignExtension, Size, Source, Swap, SwapSize};
use std::alloc::AllocError;

/// Which bytes of a loaded number are to be put in the other order.
fn swap_of(order: ByteOrder, size: Size) -> Option<SwapSize>
    ensures { result ≡ swap_of order size }
{
    match (order, size) {
        (ByteOrder::Little, _) => None,
        (ByteOrder::Big, Size::Byte) => None,
        (ByteOrder::Big, Size::HalfWord) => Some(SwapSize::Bits16),
        (ByteOrder::Big, Size::Word) => Some(SwapSize::Bits32),
        (ByteOrder::Big, Size::DoubleWord) => Some(SwapSize::Bits64),
    }
}

/// How a loaded number is to be extended to 64 bits.
fn extension_of(sign: Sign, size: Size) -> Option<SignExtension>
    ensures { result ≡ extension_of sign size }
{
    match (sign, size) {
        (Sign::Unsigned, _) => None,
        (Sign::Signed, Size::Byte) => Some(SignExtension::Bits8To64),
        (Sign::Signed, Size::HalfWord) => Some(SignExtension::Bits16To64),
        (Sign::Signed, Size::Word) => Some(SignExtension::Bits32To64),
        (Sign::Signed, Size::DoubleWord) => None,
    }
}

/// How many slots a field's load takes.
pub(crate) fn field_slots(field: Field) -> u64
    ensures value { result ≡ field_slots field }
    ensures few { result ≤ 3 }
{
    let mut slots = 1;
    if swap_of(field.order, field.size).is_some() {
        slots += 1;
    }
    if extension_of(field.sign, field.size).is_some() {
        slots += 1;
    }
    slots
}

/// Loads a field of the record at a byte of the block into a register.
#[tactic(auto, using(crate::proofs::Reach::field_near))]
pub(crate) fn push_field(
    code: &mut Vec<Instruction>,
    register: u8,
    byte: u32,
    field: Field,
) -> Result<(), AllocError>
    requires register { register < 11 }
    requires near { IsField (2 ^ 15 - byte) field }
    ensures { OnOk result (code.new.items ≡ code.old.items ++ field_code register byte field) }
{
    let offset = short(u64::from(byte) + u64::from(field.offset));
    push(code, load(field.size, register, 6, offset))?;
    let register = Register::from_number(register);
    if let Some(size) = swap_of(field.order, field.size) {
        push(
            code,
            Instruction::SwapBytes {
                swap: Swap::ToBig,
                size,
                dst: register,
            },
        )?;
    }
    if let Some(extension) = extension_of(field.sign, field.size) {
        push(
            code,
            Instruction::MoveSigned {
                extension,
                dst: register,
                src: register,
            },
        )?;
    }
    Ok(())
}

/// Does an immediate hold a number?
fn is_immediate(number: i128) -> bool
    ensures { result ≡ is_immediate number }
{
    -0x8000_0000 <= number && number < 0x8000_0000
}

/// A number as a word of 64 bits.
fn word(sign: Sign, number: i128) -> u64
    requires { IsNumber sign number }
    ensures { result ≡ cast_unsigned w64 number }
{
    match sign {
        Sign::Unsigned => number as u64,
        Sign::Signed => (number as i64).cast_unsigned(),
    }
}

/// How many slots an operand's load takes.
pub(crate) fn operand_slots(operand: Operand) -> u64
    ensures value { result ≡ operand_slots operand }
    ensures few { result ≤ 3 }
{
    match operand {
        Operand::Number(number) => { if is_immediate(number) { 0 } else { 2 } }
        Operand::Argument => 0,
        Operand::Field(field) => field_slots(field),
    }
}

/// What a field is compared with: an immediate, R8 for the argument, or else R5.
pub(crate) fn source_of(operand: Operand) -> Source
    ensures { result ≡ source_of operand }
{
    match operand {
        Operand::Number(number) => {
            if is_immediate(number) {
                Source::Immediate(number as i32)
            } else {
                from_register(5)
            }
        }
        Operand::Argument => from_register(8),
        Operand::Field(_) => from_register(5),
    }
}

/// Loads an operand of a field of this sign, of the record at a byte of the block, into R5 where it has to be there.
pub(crate) fn push_operand(
    code: &mut Vec<Instruction>,
    byte: u32,
    sign: Sign,
    operand: Operand,
) -> Result<(), AllocError>
    requires { IsOperand (2 ^ 15 - byte) sign operand }
    ensures { OnOk result (code.new.items ≡ code.old.items ++ operand_code byte operand) }
{
    match operand {
        Operand::Number(number) => {
            if is_immediate(number) {
                Ok(())
            } else {
                let value = word(sign, number);
                push(
                    code,
                    Instruction::LoadImmediate {
                        dst: Register::from_number(5),
                        value,
                    },
                )?;
                Ok(())
            }
        }
        Operand::Argument => Ok(()),
        Operand::Field(field) => push_field(code, 5, byte, field),
    }
}
