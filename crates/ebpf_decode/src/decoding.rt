//! Programs out of bytes.

ghost use Rattle.std.specs.Prelude.{◌≡◌, ◌<◌, ◌≤◌, ◌+◌, ◌*◌, ◌/◌, ◌^◌, drop, length, false, None};
ghost use Rattle.std.specs.Int.{w32, cast_unsigned};
ghost use Rattle.common_definitions.specs.Gives.{Gives};
ghost use Rattle.ebpf_decode.specs.Reading.{begins_wide, decoded_program, begun, fault_in, fields_at, fields_in, first_fault, has_more, has_no_register, has_unused, immediate_of, instruction_with, is_left_out, jump, length_fault, load_or_store, read, read_slots, slots_at, source_of, signed_move};

use crate::fault::{DecodeFault, Fault, FaultKind};
use crate::fields::from_bytes;
use crate::opcode::{Opcode, Operand, Uses};
use instruction_set::{
    Fields, Instruction, Operation, Program, Register, SignExtension, Source, SwapSize, Width,
};
use program_interface::{MOST_SLOTS, REGISTERS};
use std::alloc::Global;

/// Is the instruction one that this profile leaves out?
fn is_left_out(opcode: Opcode, fields: &Fields) -> bool
    ensures { result ≡ is_left_out opcode fields.now }
{
    match opcode {
        Opcode::LeftOut(_) => true,
        Opcode::LoadImmediate | Opcode::Call => fields.src != 0,
        _ => false,
    }
}

/// Does a field that the instruction uses name a register that isn't there?
fn has_no_register(used: Uses, fields: &Fields) -> bool
    ensures { result ≡ has_no_register used fields.now }
{
    (used.dst && usize::from(fields.dst) >= REGISTERS)
        || (used.src && usize::from(fields.src) >= REGISTERS)
}

/// Is a field that the instruction doesn't use other than 0?
fn has_unused(used: Uses, fields: &Fields) -> bool
    ensures { result ≡ has_unused used fields.now }
{
    (!used.dst && fields.dst != 0)
        || (!used.src && fields.src != 0)
        || (!used.offset && fields.offset != 0)
        || (!used.immediate && fields.immediate != 0)
}

/// Is anything but the immediate of a wide instruction's second slot other than 0?
fn has_more(second: Option<Fields>) -> bool
    ensures { result ≡ has_more second }
{
    match second {
        None => false,
        Some(f) => f.opcode != 0 || f.dst != 0 || f.src != 0 || f.offset != 0,
    }
}

/// The first fault of an instruction whose opcode is known, but for values that its fields can't have.
fn first_fault(opcode: Opcode, fields: &Fields, next: Option<Fields>) -> Option<FaultKind>
    ensures { result ≡ first_fault opcode fields.now next }
{
    if is_left_out(opcode, fields) {
        return Some(FaultKind::NotInProfile);
    }
    let is_wide = opcode == Opcode::LoadImmediate;
    if is_wide && next.is_none() {
        return Some(FaultKind::CutWide);
    }
    let used = opcode.uses();
    if has_no_register(used, fields) {
        return Some(FaultKind::Register);
    }
    if has_unused(used, fields) || (is_wide && has_more(next)) {
        return Some(FaultKind::UnusedField);
    }
    None
}

/// The second operand.
fn source(operand: Operand, fields: &Fields) -> Source
    requires { fields.now.src < REGISTERS }
    ensures { result ≡ source_of operand fields.now }
{
    match operand {
        Operand::Immediate => Source::Immediate(fields.immediate),
        Operand::Register => Source::Register(Register::from_number(fields.src)),
    }
}

/// An operation with this offset, or a sign-extending move.
fn arithmetic(
    width: Width,
    operation: Operation,
    operand: Operand,
    fields: &Fields,
) -> Option<Instruction>
    requires dst { fields.now.dst < REGISTERS }
    requires src { fields.now.src < REGISTERS }
    ensures { result ≡ instruction_with (Opcode.Arithmetic width operation operand) fields.now None }
{
    match operation.variant(fields.offset) {
        Some(operation) => Some(Instruction::Arithmetic {
            width,
            operation,
            dst: Register::from_number(fields.dst),
            source: source(operand, fields),
        }),
        None => signed_move(width, operation, operand, fields),
    }
}

/// A sign-extending move from a register, if the offset tells one.
fn signed_move(
    width: Width,
    operation: Operation,
    operand: Operand,
    fields: &Fields,
) -> Option<Instruction>
    requires dst { fields.now.dst < REGISTERS }
    requires src { fields.now.src < REGISTERS }
    ensures { result ≡ signed_move width operation operand fields.now }
{
    if operand == Operand::Immediate {
        return None;
    }
    let extension = SignExtension::variant(width, operation, fields.offset)?;
    Some(Instruction::MoveSigned {
        extension,
        dst: Register::from_number(fields.dst),
        src: Register::from_number(fields.src),
    })
}

/// The 64-bit immediate: its lower half stands in the first slot, the upper one in the next (RFC 9669, 5.4).
fn wide_value(fields: &Fields, next: Option<Fields>) -> u64
    ensures { result ≡ cast_unsigned w32 fields.now.immediate + 2 ^ 32 * immediate_of next }
{
    let low = u64::from(fields.immediate.cast_unsigned());
    match next {
        None => low,
        Some(second) => low + 0x1_0000_0000 * u64::from(second.immediate.cast_unsigned()),
    }
}

/// A load or a store of memory (RFC 9669, 5.1 and 5.2), if the opcode names one.
fn load_or_store(opcode: Opcode, fields: &Fields) -> Option<Instruction>
    requires dst { fields.now.dst < REGISTERS }
    requires src { fields.now.src < REGISTERS }
    ensures { result ≡ load_or_store opcode fields.now }
{
    let dst = Register::from_number(fields.dst);
    let src = Register::from_number(fields.src);
    let offset = fields.offset;
    match opcode {
        Opcode::Load(size) => Some(Instruction::Load {
            size,
            dst,
            src,
            offset,
        }),
        Opcode::LoadSigned(size) => Some(Instruction::LoadSigned {
            size,
            dst,
            src,
            offset,
        }),
        Opcode::StoreImmediate(size) => {
            Some(Instruction::StoreImmediate {
                size,
                dst,
                offset,
                value: fields.immediate,
            })
        }
        Opcode::StoreRegister(size) => Some(Instruction::StoreRegister {
            size,
            dst,
            src,
            offset,
        }),
        _ => None,
    }
}

/// A jump, a call or EXIT (RFC 9669, 4.3), if the opcode names one.
fn jump(opcode: Opcode, fields: &Fields) -> Option<Instruction>
    requires dst { fields.now.dst < REGISTERS }
    requires src { fields.now.src < REGISTERS }
    ensures { result ≡ jump opcode fields.now }
{
    match opcode {
        Opcode::Jump => Some(Instruction::Jump {
            distance: fields.offset,
        }),
        Opcode::JumpLong => Some(Instruction::JumpLong {
            distance: fields.immediate,
        }),
        Opcode::Branch(width, relation, operand) => {
            Some(Instruction::Branch {
                width,
                relation,
                dst: Register::from_number(fields.dst),
                source: source(operand, fields),
                distance: fields.offset,
            })
        }
        Opcode::Call => Some(Instruction::Call {
            helper: fields.immediate,
        }),
        Opcode::Exit => Some(Instruction::Exit),
        _ => None,
    }
}

/// The instruction of a slot without the faults of [`first_fault`]; none where a field that it uses has a
/// value that no instruction has.
fn instruction(opcode: Opcode, fields: &Fields, next: Option<Fields>) -> Option<Instruction>
    requires dst { fields.now.dst < REGISTERS }
    requires src { fields.now.src < REGISTERS }
    ensures { result ≡ instruction_with opcode fields.now next }
{
    let dst = Register::from_number(fields.dst);
    match opcode {
        Opcode::LoadImmediate => {
            Some(Instruction::LoadImmediate {
                dst,
                value: wide_value(fields, next),
            })
        }
        Opcode::Arithmetic(width, operation, operand) => {
            arithmetic(width, operation, operand, fields)
        }
        Opcode::Negate(width) => Some(Instruction::Negate { width, dst }),
        Opcode::SwapBytes(swap) => {
            let size = SwapSize::from_bits(fields.immediate)?;
            Some(Instruction::SwapBytes { swap, size, dst })
        }
        Opcode::Load(_)
        | Opcode::LoadSigned(_)
        | Opcode::StoreImmediate(_)
        | Opcode::StoreRegister(_) => load_or_store(opcode, fields),
        Opcode::Jump | Opcode::JumpLong | Opcode::Branch(..) | Opcode::Call | Opcode::Exit => jump(
            opcode, fields,
        ),
        Opcode::LeftOut(_) => None,
    }
}

/// The instruction that begins at a slot with these fields, where the next slot is known (RFC 9669, 3).
///
/// # Errors
///
/// Its first fault.
pub fn read(fields: &Fields, next: Option<Fields>) -> Result<Instruction, FaultKind>
    ensures { result ≡ read fields.now next }
{
    let opcode = Opcode::named(fields.opcode).ok_or(FaultKind::Opcode)?;
    if let Some(kind) = first_fault(opcode, fields, next) {
        return Err(kind);
    }
    // by a `match`, since the borrow checker's proof doesn't cover `ok_or` of an enum that has another inside
    match instruction(opcode, fields, next) {
        Some(found) => Ok(found),
        None => Err(FaultKind::Value),
    }
}

/// The fields of a slot (RFC 9669, 3.1), where the bytes have it whole. Any fields are given, also those that no instruction has.
pub fn slot_at(bytes: &[u8], slot: usize) -> Option<Fields>
    ensures { result ≡ fields_in slot bytes.now }
{
    if slot < bytes.len() / 8 {
        Some(from_bytes(&bytes[8 * slot..]))
    } else {
        None
    }
}

/// What begins at a slot: nothing at a wide instruction's second.
fn begun_at(bytes: &[u8], slot: usize, second: bool) -> Result<Option<Instruction>, FaultKind>
    requires { slot < length bytes.now / 8 }
    ensures { result ≡ begun second (fields_at (drop (8 * slot) bytes.now)) (fields_in (slot + 1) bytes.now) }
{
    if second {
        return Ok(None);
    }
    let fields = from_bytes(&bytes[8 * slot..]);
    let instruction = read(&fields, slot_at(bytes, slot + 1))?;
    Ok(Some(instruction))
}

/// Is the slot behind this one a wide instruction's second?
fn begins_wide(begun: &Option<Instruction>) -> bool
    ensures { result ≡ begins_wide begun.now }
{
    matches!(begun, Some(Instruction::LoadImmediate { .. }))
}

/// What begins at each slot, or the lowest slot with a fault.
fn decode_slots(alloc: Global, bytes: &[u8]) -> Result<Vec<Option<Instruction>>, DecodeFault>
    requires { length bytes.now / 8 ≤ MOST_SLOTS }
    ensures { Gives fault_in (λ slots. slots.items) result (read_slots false 0 (slots_at (length bytes.now / 8) bytes.now)) }
{
    let count = bytes.len() / 8;
    let mut slots = Vec::with_capacity(alloc, count)?;
    let mut second = false;
    for slot in 0..count {
        match begun_at(bytes, slot, second) {
            Ok(begun) => {
                second = begins_wide(&begun);
                // As a slice: `push` of an enum within an enum isn't covered by the borrow checker's proof.
                slots.extend_from_slice(&[begun])?;
            }
            Err(kind) => return Err(DecodeFault::Fault(Fault { slot, kind })),
        }
    }
    Ok(slots)
}

/// What is wrong with the length, in bytes.
fn length_fault(len: usize) -> Option<FaultKind>
    ensures { result ≡ length_fault len }
{
    if len % 8 != 0 {
        Some(FaultKind::Length)
    } else if len == 0 {
        Some(FaultKind::Empty)
    } else if len / 8 > MOST_SLOTS {
        Some(FaultKind::TooLong)
    } else {
        None
    }
}

/// The program that the bytes spell (RFC 9669, 3). Of other bytes the first fault is told: that of the length, at slot
/// 0, or else that of the slot that has whole instructions alone before it and at which none begins.
///
/// # Errors
///
/// The fault of the length, at slot 0; or else that of the slot that has whole instructions alone before
/// it and at which none begins. Or want of memory.
pub fn decode(alloc: Global, bytes: &[u8]) -> Result<Program, DecodeFault>
    // Which program or fault it is.
    ensures exact { Gives fault_in (λ program. program) result (decoded_program bytes.now) }
{
    if let Some(kind) = length_fault(bytes.len()) {
        return Err(DecodeFault::Fault(Fault { slot: 0, kind }));
    }
    let slots = decode_slots(alloc, bytes)?;
    Ok(Program::from_slots(slots))
}
