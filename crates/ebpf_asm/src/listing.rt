//! Listings: a program as text.

ghost use Rattle.std.specs.Prelude.{◌≡◌, ◌++◌, IfOk, OnOk, drop, slice_get, option_map, option_to_list};
ghost use Rattle.std.specs.String.{string_bytes};
ghost use Rattle.ebpf_asm.specs.Listing.{register_text, signed_text, memory_text, wide_text, source_text, mnemonic_of, operand_texts, operands_text, text_of_instruction, line_text, slot_text, listing, listing_with_slots};
ghost use Rattle.ebpf_asm.specs.steps.ListedOperands.{operand_text, text_behind};
ghost use Rattle.ebpf_asm.specs.steps.Listed.{listed, listed_line};

use crate::mnemonic::Mnemonic;
use instruction_set::{Instruction, Program, Register, Source};
use std::alloc::{AllocError, Global};

/// What stands in a listing behind a mnemonic.
#[derive(Clone, Copy)]
enum Operand {
    /// A register or a 32-bit immediate.
    Source(Source),
    /// A 64-bit immediate.
    Wide(u64),
    /// The address in a register, and an offset from it in bytes.
    Memory(Register, i16),
    /// How many slots a jump goes, from the slot behind it.
    Distance(i32),
}

/// Does the slot of each instruction stand before it in a listing?
#[derive(Clone, Copy)]
enum Slots {
    Without,
    With,
}

/// The listing of a program, which assembles to its bytes: each instruction on a line, its mnemonic, a space, and its
/// operands with `, ` between them. Immediates are signed decimal numbers, offsets and distances have their sign
/// always, a wide value is `0x` and 16 digits, and there are no labels.
///
/// # Errors
///
/// Want of memory.
pub fn disassemble(alloc: Global, program: &Program) -> Result<String, AllocError>
    ensures { IfOk result (λ text. string_bytes text ≡ listing program.now) }
{
    list(alloc, program, Slots::Without)
}

/// As [`disassemble`], with each instruction's slot before it: a decimal number in four columns, and two
/// spaces. A wide instruction takes two slots, so that the slot behind it is missing.
///
/// # Errors
///
/// Want of memory.
pub fn disassemble_with_slots(alloc: Global, program: &Program) -> Result<String, AllocError>
    ensures { IfOk result (λ text. string_bytes text ≡ listing_with_slots program.now) }
{
    list(alloc, program, Slots::With)
}

fn list(alloc: Global, program: &Program, slots: Slots) -> Result<String, AllocError>
    ensures { IfOk result (λ text. string_bytes text ≡ listed slots program.now) }
{
    let mut text = String::new(alloc);
    for slot in 0..program.slots() {
        let Some(instruction) = program.at(slot) else {
            continue;
        };
        push_listed(&mut text, slots, slot, instruction)?;
    }
    Ok(text)
}

/// The text of an instruction, as it stands in listings, without a line end.
///
/// # Errors
///
/// Want of memory.
pub fn instruction_text(alloc: Global, instruction: &Instruction) -> Result<String, AllocError>
    ensures { IfOk result (λ text. string_bytes text ≡ text_of_instruction instruction.now) }
{
    let mut text = String::new(alloc);
    push_instruction(&mut text, instruction)?;
    Ok(text)
}

fn push_line(out: &mut String, instruction: &Instruction) -> Result<(), AllocError>
    ensures { OnOk result (string_bytes out.new ≡ string_bytes out.old ++ line_text instruction.now) }
{
    push_instruction(out, instruction)?;
    out.push_str("\n")
}

fn push_listed(
    out: &mut String,
    slots: Slots,
    slot: usize,
    instruction: &Instruction,
) -> Result<(), AllocError>
    ensures { OnOk result (string_bytes out.new ≡ string_bytes out.old ++ listed_line slots slot instruction.now) }
{
    match slots {
        Slots::Without => push_line(out, instruction),
        Slots::With => {
            push_slot(out, slot)?;
            push_line(out, instruction)
        }
    }
}

/// A slot in four columns, and two spaces.
fn push_slot(out: &mut String, slot: usize) -> Result<(), AllocError>
    ensures { OnOk result (string_bytes out.new ≡ string_bytes out.old ++ slot_text slot) }
{
    write!(out, "{slot:4}  ")
}

fn push_instruction(out: &mut String, instruction: &Instruction) -> Result<(), AllocError>
    ensures { OnOk result (string_bytes out.new ≡ string_bytes out.old ++ text_of_instruction instruction.now) }
{
    let (front, back) = mnemonic(instruction).parts();
    out.push_str(front)?;
    out.push_str(back)?;
    push_operands(out, instruction)
}

fn mnemonic(instruction: &Instruction) -> Mnemonic
    ensures { result ≡ mnemonic_of instruction.now }
{
    match *instruction {
        Instruction::LoadImmediate { .. } => Mnemonic::LoadImmediate,
        Instruction::Load { size, .. } => Mnemonic::Load(size),
        Instruction::LoadSigned { size, .. } => Mnemonic::LoadSigned(size),
        Instruction::StoreImmediate { size, .. } => Mnemonic::StoreImmediate(size),
        Instruction::StoreRegister { size, .. } => Mnemonic::StoreRegister(size),
        Instruction::Arithmetic {
            width,
            operation,
            ..
        } => Mnemonic::Arithmetic(width, operation),
        Instruction::Negate { width, .. } => Mnemonic::Negate(width),
        Instruction::MoveSigned { extension, .. } => Mnemonic::MoveSigned(extension),
        Instruction::SwapBytes { swap, size, .. } => Mnemonic::SwapBytes(swap, size),
        Instruction::Jump { .. } => Mnemonic::Jump,
        Instruction::JumpLong { .. } => Mnemonic::JumpLong,
        Instruction::Branch {
            width,
            relation,
            ..
        } => Mnemonic::Branch(width, relation),
        Instruction::Call { .. } => Mnemonic::Call,
        Instruction::Exit => Mnemonic::Exit,
    }
}

/// The operands, a space before the first and `, ` before each other.
fn push_operands(out: &mut String, instruction: &Instruction) -> Result<(), AllocError>
    ensures { OnOk result (string_bytes out.new ≡ string_bytes out.old ++ operands_text (operand_texts instruction.now)) }
{
    push_operand(out, " ", first_operand(instruction))?;
    push_operand(out, ", ", second_operand(instruction))?;
    push_operand(out, ", ", third_operand(instruction))
}

fn first_operand(instruction: &Instruction) -> Option<Operand>
    ensures { option_map operand_text result ≡ slice_get (operand_texts instruction.now) 0 }
{
    match *instruction {
        Instruction::StoreImmediate { dst, offset, .. }
        | Instruction::StoreRegister { dst, offset, .. } => { Some(Operand::Memory(dst, offset)) }
        Instruction::LoadImmediate { dst, .. }
        | Instruction::Load { dst, .. }
        | Instruction::LoadSigned { dst, .. }
        | Instruction::Arithmetic { dst, .. }
        | Instruction::Negate { dst, .. }
        | Instruction::MoveSigned { dst, .. }
        | Instruction::SwapBytes { dst, .. }
        | Instruction::Branch { dst, .. } => Some(Operand::Source(Source::Register(dst))),
        Instruction::Jump { distance } => Some(Operand::Distance(i32::from(distance))),
        Instruction::JumpLong { distance } => Some(Operand::Distance(distance)),
        Instruction::Call { helper } => Some(Operand::Source(Source::Immediate(helper))),
        Instruction::Exit => None,
    }
}

fn second_operand(instruction: &Instruction) -> Option<Operand>
    ensures { option_map operand_text result ≡ slice_get (operand_texts instruction.now) 1 }
{
    match *instruction {
        Instruction::LoadImmediate { value, .. } => Some(Operand::Wide(value)),
        Instruction::Load { src, offset, .. } | Instruction::LoadSigned { src, offset, .. } => {
            Some(Operand::Memory(src, offset))
        }
        Instruction::StoreImmediate { value, .. } => Some(Operand::Source(Source::Immediate(
            value,
        ))),
        Instruction::StoreRegister { src, .. } | Instruction::MoveSigned { src, .. } => {
            Some(Operand::Source(Source::Register(src)))
        }
        Instruction::Arithmetic { source, .. } | Instruction::Branch { source, .. } => {
            Some(Operand::Source(source))
        }
        Instruction::Negate { .. }
        | Instruction::SwapBytes { .. }
        | Instruction::Jump { .. }
        | Instruction::JumpLong { .. }
        | Instruction::Call { .. }
        | Instruction::Exit => None,
    }
}

/// The third operand, behind which there is none.
fn third_operand(instruction: &Instruction) -> Option<Operand>
    ensures { option_to_list (option_map operand_text result) ≡ drop 2 (operand_texts instruction.now) }
{
    match *instruction {
        Instruction::Branch { distance, .. } => Some(Operand::Distance(i32::from(distance))),
        _ => None,
    }
}

/// An operand, where there is one, behind what stands before it.
fn push_operand(out: &mut String, before: &str, operand: Option<Operand>) -> Result<(), AllocError>
    ensures { OnOk result (string_bytes out.new ≡ string_bytes out.old ++ text_behind before.now (option_map operand_text operand)) }
{
    let Some(operand) = operand else {
        return Ok(());
    };
    out.push_str(before)?;
    match operand {
        Operand::Source(source) => push_source(out, source),
        Operand::Wide(value) => push_wide(out, value),
        Operand::Memory(base, offset) => push_memory(out, base, offset),
        Operand::Distance(distance) => push_signed(out, distance),
    }
}

fn push_register(out: &mut String, register: Register) -> Result<(), AllocError>
    ensures { OnOk result (string_bytes out.new ≡ string_bytes out.old ++ register_text register) }
{
    let number = register.number();
    write!(out, "r{number}")
}

fn push_source(out: &mut String, source: Source) -> Result<(), AllocError>
    ensures { OnOk result (string_bytes out.new ≡ string_bytes out.old ++ source_text source) }
{
    match source {
        Source::Immediate(value) => write!(out, "{value}"),
        Source::Register(register) => push_register(out, register),
    }
}

/// In brackets a register and an offset.
fn push_memory(out: &mut String, base: Register, offset: i16) -> Result<(), AllocError>
    ensures { OnOk result (string_bytes out.new ≡ string_bytes out.old ++ memory_text base offset) }
{
    out.push_str("[")?;
    push_register(out, base)?;
    push_signed(out, i32::from(offset))?;
    out.push_str("]")
}

/// A number with its sign.
fn push_signed(out: &mut String, value: i32) -> Result<(), AllocError>
    ensures { OnOk result (string_bytes out.new ≡ string_bytes out.old ++ signed_text value) }
{
    if value < 0 {
        write!(out, "{value}")
    } else {
        write!(out, "+{value}")
    }
}

/// `0x` and 16 digits.
fn push_wide(out: &mut String, value: u64) -> Result<(), AllocError>
    ensures { OnOk result (string_bytes out.new ≡ string_bytes out.old ++ wide_text value) }
{
    write!(out, "0x{value:016x}")
}
