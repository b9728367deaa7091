//! What an instruction changed, on a line.

use command_files::Counted;
use ebpf_asm::instruction_text;
use instruction_set::{Instruction, Register};
use interp::Machine;
use std::alloc::{AllocError, Global};
use word_domain::Offsets;

/// What emit takes of a machine: it leaves 0 in these registers, so that they are read before the step.
#[derive(Clone, Copy)]
pub(crate) struct Emitting {
    /// In R1, the address of the first byte.
    address: u64,
    /// In R2, the number of bytes.
    length: u64,
}

impl Emitting {
    /// What emit would take of a machine now.
    pub(crate) fn by(machine: &Machine<'_>) -> Emitting {
        Emitting {
            address: machine.register(Register::R1),
            length: machine.register(Register::R2),
        }
    }

    /// Where its bytes begin, which all lie in one area where it was done.
    fn offsets(self, machine: &Machine<'_>) -> Option<Offsets> {
        let begin = machine.area_offset(self.address, self.length)?;
        let offset = i64::try_from(begin.offset).ok()?;
        Some(Offsets {
            area: begin.area,
            low: offset,
            high: offset,
        })
    }
}

/// The line of a step that was taken: the slot of its instruction, that, and what it changed.
pub(crate) fn step_line(
    alloc: Global,
    slot: usize,
    instruction: &Instruction,
    machine: &Machine<'_>,
    emitting: Emitting,
) -> Result<String, AllocError> {
    let text = instruction_text(alloc, instruction)?;
    let mut line = format!(in alloc; "{slot:4}  {text}")?;
    if let Instruction::Call { .. } = *instruction {
        push_emit(emitting, machine, &mut line)?;
    }
    if let Some(register) = changed(instruction) {
        let (number, word) = (register.number(), machine.register(register));
        write!(line, "  r{number} = {word:#x}")?;
    }
    line.push_str("\n")?;
    Ok(line)
}

/// Adds what was emitted.
fn push_emit(
    emitting: Emitting,
    machine: &Machine<'_>,
    line: &mut String,
) -> Result<(), AllocError> {
    let length = Counted(emitting.length, "byte");
    write!(line, "  emit {length}")?;
    match emitting.offsets(machine) {
        Some(offsets) => write!(line, " at {offsets}"),
        None => Ok(()),
    }
}

/// The register that an instruction changes: its destination, and for a call R0, which has the result (of R1 to R5
/// nothing is left).
fn changed(instruction: &Instruction) -> Option<Register> {
    match *instruction {
        Instruction::Call { .. } => Some(Register::R0),
        _ => instruction.destination(),
    }
}
