//! Stores of R0 into the stack, by a copy: a verifier keeps nothing of what R0 has there.

use crate::fault::LinkFault;
use crate::guards::{loaded, stored};
use crate::known::Known;
use crate::layout::Layout;
use crate::pieces::compute;
use crate::stack::cell_of;
use instruction_set::{Instruction, Operation, Register, Size, Source};
use interval_domain::Intervals;
use word_domain::Domain;

/// Is a word of R0 stored into the stack of which something is known?
fn spills(known: &Known, instruction: &Instruction) -> bool {
    match *instruction {
        Instruction::StoreRegister {
            size: Size::DoubleWord,
            dst,
            src,
            offset,
        } if src == Register::R0 => {
            cell_of(known.get(dst).offsets(), offset).is_some()
                && known.get(Register::R0) != Intervals::any()
        }
        _ => false,
    }
}

/// The same store, of another register.
fn store_of(instruction: &Instruction, register: Register) -> Instruction {
    match *instruction {
        Instruction::StoreRegister {
            size,
            dst,
            offset,
            ..
        } => Instruction::StoreRegister {
            size,
            dst,
            src: register,
            offset,
        },
        other => other,
    }
}

impl Layout<'_> {
    /// Stores R0 by a copy, where that keeps more known. False where the instruction is no such store.
    pub(crate) fn put_spill(
        &mut self,
        known: &mut Known,
        slot: usize,
        instruction: &Instruction,
    ) -> Result<bool, LinkFault> {
        if !spills(known, instruction) {
            return Ok(false);
        }
        let (copy, is_free) = self.temporary(slot, instruction, Register::R0);
        let spare = self.cell(2);
        if !is_free {
            self.put(known, stored(copy, spare))?;
        }
        let source = Source::Register(Register::R0);
        self.put(known, compute(Operation::Move, copy, source))?;
        self.put(known, store_of(instruction, copy))?;
        if !is_free {
            self.put(known, loaded(copy, spare))?;
        }
        Ok(true)
    }
}
