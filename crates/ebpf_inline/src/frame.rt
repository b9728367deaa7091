//! Where a function's frame lies, and what its instructions are there.

ghost use Rattle.std.specs.Prelude.{int_lt, ◌≡◌, ◌≤◌, ◌-◌, ◌==◌, ◌&&◌, false, pos, neg_ℤ};
ghost use Rattle.ebpf_inline.specs.Checks.{is_below};
ghost use Rattle.ebpf_inline.specs.Frames.{frame_address, in_frame, is_frame_source, lowered, moved_frame_pointer, reads_frame_pointer};
ghost use Rattle.instruction_set.specs.Instruction.{access_of};
ghost use Rattle.program_interface.specs.declared.area.TheConstants.{STACK_BYTES};

use instruction_set::{Instruction, Operation, Register, Source, Width};
use program_interface::STACK_BYTES;

/// How many frames the stack may have at a time: those of a function, of one that it calls, and so on.
pub const MOST_FRAMES: usize = 8;

/// A function that is put into a program at one of the places where it is called.
#[derive(Clone, Copy, Debug, PartialEq, Eq)]
pub struct Frame {
    /// The function's number.
    pub function: usize,
    /// How many frames there may be from its own on.
    pub depth: usize,
    /// By how many bytes the frame's end is lower than the program's R10.
    pub below: usize,
}

/// Is a second operand R10?
fn is_frame_source(source: Source) -> bool
    ensures { result ≡ is_frame_source source }
{
    source == Source::Register(Register::FRAME_POINTER)
}

/// The register to which an instruction moves R10.
pub fn moved_frame_pointer(instruction: &Instruction) -> Option<Register>
    ensures { result ≡ moved_frame_pointer instruction.now }
{
    match *instruction {
        Instruction::Arithmetic {
            width: Width::Bits64,
            operation: Operation::Move,
            dst,
            source,
        } if is_frame_source(source) => Some(dst),
        _ => None,
    }
}

/// Does an instruction compute with R10, or store it?
pub fn reads_frame_pointer(instruction: &Instruction) -> bool
    ensures { result ≡ reads_frame_pointer instruction.now }
{
    match *instruction {
        Instruction::StoreRegister { src, .. } | Instruction::MoveSigned { src, .. } => {
            src == Register::FRAME_POINTER
        }
        Instruction::Arithmetic { source, .. } => is_frame_source(source),
        Instruction::Branch { dst, source, .. } => {
            dst == Register::FRAME_POINTER || is_frame_source(source)
        }
        _ => false,
    }
}

/// The offset from the program's R10, where one from the frame's end is given.
fn lowered(base: Register, offset: i16, below: usize) -> i16
    requires small { below ≤ STACK_BYTES }
    requires fits { (base == 10 && int_lt offset (neg_ℤ (pos (STACK_BYTES - below)))) ≡ false }
    ensures { result ≡ lowered base offset below }
{
    if base == Register::FRAME_POINTER {
        (i32::from(offset) - below as i32) as i16
    } else {
        offset
    }
}

/// The same access in a frame whose end is so many bytes lower than R10.
pub fn in_frame(instruction: Instruction, below: usize) -> Instruction
    requires small { below ≤ STACK_BYTES }
    requires fits { is_below (STACK_BYTES - below) (access_of instruction) ≡ false }
    ensures { result ≡ in_frame below instruction }
{
    match instruction {
        Instruction::Load {
            size,
            dst,
            src,
            offset,
        } => Instruction::Load {
            size,
            dst,
            src,
            offset: lowered(src, offset, below),
        },
        Instruction::LoadSigned {
            size,
            dst,
            src,
            offset,
        } => Instruction::LoadSigned {
            size,
            dst,
            src,
            offset: lowered(src, offset, below),
        },
        Instruction::StoreImmediate {
            size,
            dst,
            offset,
            value,
        } => Instruction::StoreImmediate {
            size,
            dst,
            offset: lowered(dst, offset, below),
            value,
        },
        Instruction::StoreRegister {
            size,
            dst,
            src,
            offset,
        } => Instruction::StoreRegister {
            size,
            dst,
            src,
            offset: lowered(dst, offset, below),
        },
        other => other,
    }
}

/// Two instructions: R10 is moved to a register, and so many bytes are taken from it.
pub fn frame_address(dst: Register, bytes: usize) -> [Option<Instruction>; 2]
    requires { bytes ≤ STACK_BYTES }
    ensures { result ≡ frame_address dst bytes }
{
    let moved = Instruction::Arithmetic {
        width: Width::Bits64,
        operation: Operation::Move,
        dst,
        source: Source::Register(Register::FRAME_POINTER),
    };
    let lowered = Instruction::Arithmetic {
        width: Width::Bits64,
        operation: Operation::Add,
        dst,
        source: Source::Immediate(-(bytes as i32)),
    };
    [Some(moved), Some(lowered)]
}
