//! The bytes of instructions and programs.

ghost use Rattle.std.specs.Prelude.{◌≡◌, ◌<◌, ◌≤◌, ◌%◌, ◌/◌, ◌^◌, ◌++◌, length, IfSome, IfOk, OnErr, OnOk};
ghost use Rattle.std.specs.Int.{w32, cast_signed};
ghost use Rattle.instruction_set.specs.Spelling.{access_opcode, first_slot, operation_opcode, program_bytes, second_slot, source_bit, source_immediate, source_register, spelling};

use crate::fields::to_bytes;
use instruction_set::codes::{CALL, EXIT, IMM, JA, LD, LDX, MEM, MEMSX, NEG, ST, STX};
use instruction_set::{Fields, Instruction, Operation, Program, Size, Source, Width};
use program_interface::{MOST_SLOTS, REGISTERS};
use std::alloc::{AllocError, Global};

/// An opcode of the load and store classes (RFC 9669, 5).
fn access_opcode(mode: u8, size: u8, class: u8) -> u8
    requires mode { mode < 8 }
    requires size { size < 4 }
    requires class { class < 8 }
    ensures { result ≡ access_opcode mode size class }
{
    32 * mode + 8 * size + class
}

/// An opcode of the arithmetic and jump classes (RFC 9669, 4).
fn operation_opcode(code: u8, source: u8, class: u8) -> u8
    requires code { code < 16 }
    requires source { source < 2 }
    requires class { class < 8 }
    ensures { result ≡ operation_opcode code source class }
{
    16 * code + 8 * source + class
}

fn source_bit(source: Source) -> u8
    ensures value { result ≡ source_bit source }
    ensures bound { result < 2 }
{
    match source {
        Source::Immediate(_) => 0,
        Source::Register(_) => 1,
    }
}

fn source_register(source: Source) -> u8
    ensures value { result ≡ source_register source }
    ensures bound { result < REGISTERS }
{
    match source {
        Source::Immediate(_) => 0,
        Source::Register(register) => register.number(),
    }
}

fn source_immediate(source: Source) -> i32
    ensures { result ≡ source_immediate source }
{
    match source {
        Source::Immediate(value) => value,
        Source::Register(_) => 0,
    }
}

fn opcode(instruction: &Instruction) -> u8
    ensures { result ≡ (first_slot instruction.now).opcode }
{
    match *instruction {
        Instruction::LoadImmediate { .. } => access_opcode(IMM, Size::DoubleWord.code(), LD),
        Instruction::Load { size, .. } => access_opcode(MEM, size.code(), LDX),
        Instruction::LoadSigned { size, .. } => access_opcode(MEMSX, size.code(), LDX),
        Instruction::StoreImmediate { size, .. } => access_opcode(MEM, size.code(), ST),
        Instruction::StoreRegister { size, .. } => access_opcode(MEM, size.code(), STX),
        Instruction::Arithmetic {
            width,
            operation,
            source,
            ..
        } => {
            operation_opcode(
                operation.code(),
                source_bit(source),
                width.arithmetic_class(),
            )
        }
        Instruction::Negate { width, .. } => operation_opcode(NEG, 0, width.arithmetic_class()),
        Instruction::MoveSigned { extension, .. } => {
            operation_opcode(
                Operation::Move.code(),
                1,
                extension.width().arithmetic_class(),
            )
        }
        Instruction::SwapBytes { swap, .. } => swap.opcode(),
        Instruction::Jump { .. } => operation_opcode(JA, 0, Width::Bits64.jump_class()),
        Instruction::JumpLong { .. } => operation_opcode(JA, 0, Width::Bits32.jump_class()),
        Instruction::Branch {
            width,
            relation,
            source,
            ..
        } => { operation_opcode(relation.code(), source_bit(source), width.jump_class()) }
        Instruction::Call { .. } => operation_opcode(CALL, 0, Width::Bits64.jump_class()),
        Instruction::Exit => operation_opcode(EXIT, 0, Width::Bits64.jump_class()),
    }
}

fn dst(instruction: &Instruction) -> u8
    ensures value { result ≡ (first_slot instruction.now).dst }
    ensures bound { result < REGISTERS }
{
    match *instruction {
        Instruction::LoadImmediate { dst, .. }
        | Instruction::Load { dst, .. }
        | Instruction::LoadSigned { dst, .. }
        | Instruction::StoreImmediate { dst, .. }
        | Instruction::StoreRegister { dst, .. }
        | Instruction::Arithmetic { dst, .. }
        | Instruction::Negate { dst, .. }
        | Instruction::MoveSigned { dst, .. }
        | Instruction::SwapBytes { dst, .. }
        | Instruction::Branch { dst, .. } => dst.number(),
        Instruction::Jump { .. }
        | Instruction::JumpLong { .. }
        | Instruction::Call { .. }
        | Instruction::Exit => 0,
    }
}

fn src(instruction: &Instruction) -> u8
    ensures value { result ≡ (first_slot instruction.now).src }
    ensures bound { result < REGISTERS }
{
    match *instruction {
        Instruction::Load { src, .. }
        | Instruction::LoadSigned { src, .. }
        | Instruction::StoreRegister { src, .. }
        | Instruction::MoveSigned { src, .. } => src.number(),
        Instruction::Arithmetic { source, .. } | Instruction::Branch { source, .. } =>
            source_register(source),
        _ => 0,
    }
}

fn offset(instruction: &Instruction) -> i16
    ensures { result ≡ (first_slot instruction.now).offset }
{
    match *instruction {
        Instruction::Load { offset, .. }
        | Instruction::LoadSigned { offset, .. }
        | Instruction::StoreImmediate { offset, .. }
        | Instruction::StoreRegister { offset, .. } => offset,
        Instruction::Arithmetic { operation, .. } => operation.offset(),
        Instruction::MoveSigned { extension, .. } => extension.offset(),
        Instruction::Jump { distance } | Instruction::Branch { distance, .. } => distance,
        _ => 0,
    }
}

fn immediate(instruction: &Instruction) -> i32
    ensures { result ≡ (first_slot instruction.now).immediate }
{
    match *instruction {
        Instruction::LoadImmediate { value, .. } => low_half(value),
        Instruction::StoreImmediate { value, .. } => value,
        Instruction::Arithmetic { source, .. } | Instruction::Branch { source, .. } =>
            source_immediate(source),
        Instruction::SwapBytes { size, .. } => size.bits(),
        Instruction::JumpLong { distance } => distance,
        Instruction::Call { helper } => helper,
        _ => 0,
    }
}

fn low_half(value: u64) -> i32
    ensures { result ≡ cast_signed w32 (value % 2 ^ 32) }
{
    ((value % 0x1_0000_0000) as u32).cast_signed()
}

fn high_half(value: u64) -> i32
    ensures { result ≡ cast_signed w32 (value / 2 ^ 32 % 2 ^ 32) }
{
    ((value / 0x1_0000_0000) as u32).cast_signed()
}

fn first_slot(instruction: &Instruction) -> Fields
    ensures value { result ≡ first_slot instruction.now }
    ensures dst { result.dst < 16 }
    ensures src { result.src < 16 }
{
    Fields {
        opcode: opcode(instruction),
        dst: dst(instruction),
        src: src(instruction),
        offset: offset(instruction),
        immediate: immediate(instruction),
    }
}

fn second_slot(instruction: &Instruction) -> Option<Fields>
    ensures value { result ≡ second_slot instruction.now }
    ensures dst { IfSome result (λ f. f.dst < 16) }
    ensures src { IfSome result (λ f. f.src < 16) }
{
    match *instruction {
        Instruction::LoadImmediate { value, .. } => Some(Fields {
            opcode: 0,
            dst: 0,
            src: 0,
            offset: 0,
            immediate: high_half(value),
        }),
        _ => None,
    }
}

/// Adds the bytes of an instruction at the end: 8, or 16 for the wide one (RFC 9669, 3).
///
/// # Errors
///
/// Want of memory. What was there stays then, and nothing stands behind it.
pub fn push_instruction(bytes: &mut Vec<u8>, instruction: &Instruction) -> Result<(), AllocError>
    ensures added { OnOk result (bytes.new.items ≡ bytes.old.items ++ spelling instruction.now) }
    ensures kept { OnErr result (bytes.new.items ≡ bytes.old.items) }
{
    let first = to_bytes(first_slot(instruction));
    let Some(second) = second_slot(instruction) else {
        return bytes.extend_from_slice(&first);
    };
    let second = to_bytes(second);
    // so that the first half isn't added where the second can't be
    bytes.reserve(first.len() + second.len())?;
    bytes.extend_from_slice(&first)?;
    bytes.extend_from_slice(&second)
}

fn encode_slots(alloc: Global, slots: &[Option<Instruction>]) -> Result<Vec<u8>, AllocError>
    requires { length slots.now ≤ MOST_SLOTS }
    ensures { IfOk result (λ bytes. bytes.items ≡ program_bytes slots.now) }
{
    let mut bytes = Vec::with_capacity(alloc, 8 * slots.len())?;
    for slot in slots {
        if let Some(instruction) = slot {
            push_instruction(&mut bytes, instruction)?;
        }
    }
    Ok(bytes)
}

/// The bytes of a program (RFC 9669, 3): each has one spelling, which decodes to it.
///
/// # Errors
///
/// Want of memory.
pub fn encode(alloc: Global, program: &Program) -> Result<Vec<u8>, AllocError>
    ensures { IfOk result (λ bytes. bytes.items ≡ program_bytes program.now) }
{
    encode_slots(alloc, program.as_slice())
}
