//! Where ways meet on which a register isn't an address in the same area.

use super::forgotten::left_in;
use super::told::Told;
use super::wanted::target;
use accepted_programs::Facts;
use instruction_set::{Instruction, Program, Register, Relation, Source, Width};
use word_domain::{Domain, Offsets};

/// An address that a register has on one way to a slot alone.
#[derive(Clone, Copy)]
pub(crate) struct Meeting {
    /// What is known of it on that way.
    pub(crate) address: Offsets,
    /// The slot that leads there.
    pub(crate) from: usize,
    /// What the register is on another way.
    pub(crate) other: Told,
    /// The slot that leads there on that.
    pub(crate) other_from: usize,
}

/// A program, and what is known at its slots.
#[derive(Clone, Copy)]
pub(crate) struct Known<'p, D> {
    pub(crate) program: &'p Program,
    pub(crate) facts: &'p [Option<Facts<D>>],
}

/// A compare, without its distance.
#[derive(Clone, Copy)]
struct Compare {
    width: Width,
    relation: Relation,
    dst: Register,
    source: Source,
}

impl<D: Domain> Known<'_, D> {
    /// What is known at a slot, if a slot leads there.
    pub(crate) fn at(&self, slot: usize) -> Option<&Facts<D>> {
        match self.facts.get(slot) {
            Some(Some(facts)) => Some(facts),
            _ => None,
        }
    }

    /// Does a jump lead to a slot?
    pub(crate) fn is_target(&self, slot: usize) -> bool {
        for from in 0..slot {
            if self.jumps(from, slot) {
                return true;
            }
        }
        false
    }

    /// Does a jump lead from one slot to another?
    fn jumps(&self, from: usize, to: usize) -> bool {
        match self.program.at(from) {
            Some(instruction) => target(from, instruction) == Some(to),
            None => false,
        }
    }

    /// The address that a register has on one way to a slot, if on another it is none in the same area.
    pub(crate) fn meeting(&self, slot: usize, register: Register) -> Option<Meeting> {
        let (from, address) = self.way_with_address(slot, register)?;
        let (other_from, other) = self.way_without(slot, register, address)?;
        Some(Meeting {
            address,
            from,
            other,
            other_from,
        })
    }

    /// The first slot that leads to another with an address in a register, and that address.
    fn way_with_address(&self, slot: usize, register: Register) -> Option<(usize, Offsets)> {
        for from in 0..slot {
            if let Some(Told::Address(address)) = self.brought(from, slot, register) {
                return Some((from, address));
            }
        }
        None
    }

    /// The first slot that leads to another with no address in the area of this one in a register, and what is there.
    fn way_without(
        &self,
        slot: usize,
        register: Register,
        address: Offsets,
    ) -> Option<(usize, Told)> {
        for from in 0..slot {
            match self.brought(from, slot, register) {
                Some(told) if !is_in(told, address) => return Some((from, told)),
                _ => {}
            }
        }
        None
    }

    /// What a register is known to be on the way from one slot to another, if there is one.
    #[tactic(auto, using(crate::proofs::FactSizes::facts_fit))]
    fn brought(&self, from: usize, to: usize, register: Register) -> Option<Told> {
        D::fact_fits();
        let facts = self.at(from)?;
        let instruction = self.program.at(from)?;
        let is_behind = from + instruction.slots() == to;
        let is_target = target(from, instruction) == Some(to);
        let word = left_along(instruction, is_behind, is_target, register, facts)?;
        Some(Told::of(word))
    }
}

/// What an instruction leaves in a register along its edge to its target or to the slot behind it, if it has that edge.
fn left_along<D: Domain>(
    instruction: &Instruction,
    is_behind: bool,
    is_target: bool,
    register: Register,
    facts: &Facts<D>,
) -> Option<D> {
    match *instruction {
        Instruction::Branch {
            width,
            relation,
            dst,
            source,
            ..
        } if is_behind || is_target => {
            let compare = Compare {
                width,
                relation,
                dst,
                source,
            };
            compare.left_in(register, is_target, facts)
        }
        Instruction::Jump { .. } | Instruction::JumpLong { .. } if is_target => {
            Some(facts.get(register))
        }
        Instruction::Branch { .. }
        | Instruction::Jump { .. }
        | Instruction::JumpLong { .. }
        | Instruction::Exit => None,
        _ if is_behind => Some(left_in(register, instruction, facts)),
        _ => None,
    }
}

impl Compare {
    /// What a register is known to be along one of its edges, if there is such an edge.
    fn left_in<D: Domain>(self, register: Register, taken: bool, facts: &Facts<D>) -> Option<D> {
        let first = facts.get(self.dst);
        let second = compared(self.width, self.source, facts);
        let same = self.source == Source::Register(self.dst);
        let both = D::refine(self.width, self.relation, taken, first, second, same)?;
        if self.source == Source::Register(register) {
            Some(both.1)
        } else if self.dst == register {
            Some(both.0)
        } else {
            Some(facts.get(register))
        }
    }
}

/// What is known of the second word of a compare.
fn compared<D: Domain>(width: Width, source: Source, facts: &Facts<D>) -> D {
    match source {
        Source::Register(register) => facts.get(register),
        Source::Immediate(value) => match width {
            Width::Bits32 => { D::constant(Instruction::immediate_word(value) % 0x1_0000_0000) }
            Width::Bits64 => D::constant(Instruction::immediate_word(value)),
        },
    }
}

/// Is this an address in the area of another?
fn is_in(told: Told, address: Offsets) -> bool {
    match told {
        Told::Address(told) => told.area == address.area,
        Told::Words(_) => false,
    }
}
