//! Which registers an instruction reads, and what is known of them.

use super::told::Told;
use accepted_programs::Facts;
use instruction_set::{Instruction, Operation, Register, Source};
use program_interface::EMIT;
use std::fmt;
use word_domain::Domain;

/// A register that an instruction reads, and what is known of it: `r1 is block + 16`.
#[derive(Clone, Copy)]
pub struct ReadRegister {
    pub register: Register,
    pub told: Told,
}

impl fmt::Display for ReadRegister {
    fn fmt<W: fmt::Write>(&self, f: &mut fmt::Formatter<W>) -> fmt::Result {
        let (number, told) = (self.register.number(), self.told);
        write!(f, "r{number} is {told}")
    }
}

/// The registers that an instruction reads, as [`registers_read`] has them, with what facts tell of them.
pub fn read_registers<D: Domain>(
    instruction: &Instruction,
    facts: &Facts<D>,
) -> [Option<ReadRegister>; 2] {
    let [first, second] = registers_read(instruction);
    [read(first, facts), read(second, facts)]
}

fn read<D: Domain>(register: Option<Register>, facts: &Facts<D>) -> Option<ReadRegister> {
    let register = register?;
    let told = Told::of(facts.get(register));
    Some(ReadRegister { register, told })
}

/// The registers that an instruction reads, each once: those of an emit are R1 and R2.
pub(crate) fn registers_read(instruction: &Instruction) -> [Option<Register>; 2] {
    match *instruction {
        Instruction::Load { src, .. }
        | Instruction::LoadSigned { src, .. }
        | Instruction::MoveSigned { src, .. } => [Some(src), None],
        Instruction::StoreImmediate { dst, .. }
        | Instruction::Negate { dst, .. }
        | Instruction::SwapBytes { dst, .. } => [Some(dst), None],
        Instruction::StoreRegister { dst, src, .. } => both(dst, Source::Register(src)),
        Instruction::Arithmetic {
            operation: Operation::Move,
            source,
            ..
        } => [register_in(source), None],
        Instruction::Arithmetic { dst, source, .. } | Instruction::Branch { dst, source, .. } => {
            both(dst, source)
        }
        Instruction::Call { helper: EMIT } => [Some(Register::R1), Some(Register::R2)],
        Instruction::LoadImmediate { .. }
        | Instruction::Jump { .. }
        | Instruction::JumpLong { .. }
        | Instruction::Call { .. }
        | Instruction::Exit => [None, None],
    }
}

fn both(register: Register, source: Source) -> [Option<Register>; 2] {
    let other = register_in(source).filter(|other| *other != register);
    [Some(register), other]
}

fn register_in(source: Source) -> Option<Register> {
    match source {
        Source::Register(register) => Some(register),
        Source::Immediate(_) => None,
    }
}
