//! Opcodes.

ghost use Rattle.std.specs.Prelude.{◌≡◌};
ghost use Rattle.ebpf_decode.specs.Opcodes.{arithmetic_opcode, branch_opcode, jump_long_opcode, jump_opcode, load_immediate_opcode, load_opcode, opcode_named, operand_of, store_immediate_opcode, store_register_opcode, uses};

use instruction_set::codes::{
    ALU, CALL, EXIT, IMM, JA, JMP, JMP32, LD, LDX, MEM, MEMSX, NEG, ST, STX,
};
use instruction_set::{Operation, Relation, SignedSize, Size, Swap, Width};

/// The opcode of the wide instruction, whose size has the code 3 (RFC 9669, 5.4).
const LOAD_IMMEDIATE_OPCODE: u8 = 32 * IMM + 8 * 3 + LD;

/// The opcode of a jump by a 16-bit distance that is always taken (RFC 9669, 4.3).
const JUMP_OPCODE: u8 = 16 * JA + JMP;

/// The opcode of a jump by a 32-bit distance (RFC 9669, 4.3).
const JUMP_LONG_OPCODE: u8 = 16 * JA + JMP32;

/// The opcode of a call (RFC 9669, 4.3.1).
const CALL_OPCODE: u8 = 16 * CALL + JMP;

/// The opcode of EXIT (RFC 9669, 4.3).
const EXIT_OPCODE: u8 = 16 * EXIT + JMP;

/// Where the second operand is: the source bit of an opcode (RFC 9669, 4).
#[derive(Clone, Copy, Debug, PartialEq, Eq)]
pub enum Operand {
    /// K: the immediate.
    Immediate,
    /// X: the source register.
    Register,
}

/// What an opcode names: an instruction without its fields (RFC 9669, 3.1). Variants are named as those of `Instruction`.
#[derive(Clone, Copy, Debug, PartialEq, Eq)]
pub enum Opcode {
    LoadImmediate,
    Load(Size),
    LoadSigned(SignedSize),
    StoreImmediate(Size),
    StoreRegister(Size),
    /// An arithmetic operation, or with an offset another of the same code.
    Arithmetic(Width, Operation, Operand),
    Negate(Width),
    SwapBytes(Swap),
    Jump,
    JumpLong,
    Branch(Width, Relation, Operand),
    Call,
    Exit,
    /// An instruction that this profile leaves out.
    LeftOut(LeftOut),
}

/// What an opcode names that this profile leaves out.
#[derive(Clone, Copy, Debug, PartialEq, Eq)]
pub enum LeftOut {
    /// An atomic operation (RFC 9669, 5.3).
    Atomic,
    /// A packet load (RFC 9669, 5.5).
    Packet,
}

/// Which fields an instruction uses; the others are 0.
#[derive(Clone, Copy, Debug, PartialEq, Eq)]
pub struct Uses {
    /// The destination register.
    pub dst: bool,
    /// The source register.
    pub src: bool,
    /// The offset.
    pub offset: bool,
    /// The immediate.
    pub immediate: bool,
}

impl Opcode {
    /// What the opcode names, by its class (RFC 9669, 3.3).
    pub(crate) fn named(opcode: u8) -> Option<Opcode>
        ensures { result ≡ opcode_named opcode }
    {
        match opcode % 8 {
            LD => load_immediate(opcode),
            LDX => load(opcode),
            ST => store_immediate(opcode),
            STX => store_register(opcode),
            ALU => arithmetic(Width::Bits32, opcode),
            JMP => jump(opcode),
            JMP32 => jump_long(opcode),
            _ => arithmetic(Width::Bits64, opcode),
        }
    }

    /// Which fields the instruction uses.
    pub(crate) fn uses(self) -> Uses
        ensures { result ≡ uses self }
    {
        let (dst, src, offset, immediate) = match self {
            Opcode::LoadImmediate | Opcode::SwapBytes(_) => (true, false, false, true),
            Opcode::Load(_) | Opcode::LoadSigned(_) | Opcode::StoreRegister(_) => {
                (true, true, true, false)
            }
            Opcode::StoreImmediate(_) => (true, false, true, true),
            Opcode::Arithmetic(_, operation, operand) => {
                let is_register = operand == Operand::Register;
                (true, is_register, operation.has_variants(), !is_register)
            }
            Opcode::Negate(_) => (true, false, false, false),
            Opcode::Jump => (false, false, true, false),
            Opcode::JumpLong | Opcode::Call => (false, false, false, true),
            Opcode::Branch(_, _, operand) => {
                let is_register = operand == Operand::Register;
                (true, is_register, true, !is_register)
            }
            Opcode::Exit | Opcode::LeftOut(_) => (false, false, false, false),
        };
        Uses {
            dst,
            src,
            offset,
            immediate,
        }
    }
}

fn operand_of(opcode: u8) -> Operand
    ensures { result ≡ operand_of opcode }
{
    if opcode / 8 % 2 == 0 {
        Operand::Immediate
    } else {
        Operand::Register
    }
}

fn load_immediate(opcode: u8) -> Option<Opcode>
    ensures { result ≡ load_immediate_opcode opcode }
{
    match opcode {
        LOAD_IMMEDIATE_OPCODE => Some(Opcode::LoadImmediate),
        0x20 | 0x28 | 0x30 | 0x40 | 0x48 | 0x50 => Some(Opcode::LeftOut(LeftOut::Packet)),
        _ => None,
    }
}

fn load(opcode: u8) -> Option<Opcode>
    ensures { result ≡ load_opcode opcode }
{
    match opcode / 32 {
        MEM => Some(Opcode::Load(Size::from_code(opcode / 8 % 4)?)),
        MEMSX => Some(Opcode::LoadSigned(SignedSize::from_code(opcode / 8 % 4)?)),
        _ => None,
    }
}

fn store_immediate(opcode: u8) -> Option<Opcode>
    ensures { result ≡ store_immediate_opcode opcode }
{
    match opcode / 32 {
        MEM => Some(Opcode::StoreImmediate(Size::from_code(opcode / 8 % 4)?)),
        _ => None,
    }
}

fn store_register(opcode: u8) -> Option<Opcode>
    ensures { result ≡ store_register_opcode opcode }
{
    if opcode / 32 == MEM {
        return Some(Opcode::StoreRegister(Size::from_code(opcode / 8 % 4)?));
    }
    match opcode {
        0xc3 | 0xdb => Some(Opcode::LeftOut(LeftOut::Atomic)),
        _ => None,
    }
}

fn arithmetic(width: Width, opcode: u8) -> Option<Opcode>
    ensures { result ≡ arithmetic_opcode width opcode }
{
    if opcode == 16 * NEG + width.arithmetic_class() {
        return Some(Opcode::Negate(width));
    }
    if let Some(swap) = Swap::from_opcode(opcode) {
        return Some(Opcode::SwapBytes(swap));
    }
    Some(Opcode::Arithmetic(
        width,
        Operation::from_code(opcode / 16)?,
        operand_of(opcode),
    ))
}

fn jump(opcode: u8) -> Option<Opcode>
    ensures { result ≡ jump_opcode opcode }
{
    match opcode {
        JUMP_OPCODE => Some(Opcode::Jump),
        CALL_OPCODE => Some(Opcode::Call),
        EXIT_OPCODE => Some(Opcode::Exit),
        _ => branch(Width::Bits64, opcode),
    }
}

fn jump_long(opcode: u8) -> Option<Opcode>
    ensures { result ≡ jump_long_opcode opcode }
{
    match opcode {
        JUMP_LONG_OPCODE => Some(Opcode::JumpLong),
        _ => branch(Width::Bits32, opcode),
    }
}

fn branch(width: Width, opcode: u8) -> Option<Opcode>
    ensures { result ≡ branch_opcode width opcode }
{
    Some(Opcode::Branch(width, Relation::from_code(opcode / 16)?, operand_of(opcode)))
}
