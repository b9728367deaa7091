//! What is laid out of a slot.

ghost use Rattle.std.specs.Prelude.{IfSome, true, ◌≡◌, ◌≤◌};
ghost use Rattle.ebpf_link.specs.Deciding.{IsOpposite};
ghost use Rattle.ebpf_link.specs.Masks.{AddsNoBits, IsIdle, IsMaskOver};

use crate::constants::{is_idle_store, number_in_place, with_number};
use crate::deciding::decided;
use crate::fault::LinkFault;
use crate::fields::loaded_at_once;
use crate::folding::rebased;
use crate::guards::{Guard, Need};
use crate::known::{Known, narrow, source_fact};
use crate::layout::{Layout, boxed};
use crate::lists::set_answer;
use crate::liveness::{Registers, at};
use crate::pieces::{compute, target};
use crate::sums::sum_in_place;
use crate::widening::widened;
use instruction_set::{Instruction, Operation, Register, Relation, Size, Source, Width};
use program_interface::Area;
use std::alloc::Global;
use word_domain::Domain;

/// The byte of the context at which the size of a block stands.
const BLOCK_SIZE_BYTE: i64 = 16;

/// The greatest number that a mask is put behind.
pub(crate) const ONES: u32 = 0xf_ffff;

/// The greatest word that isn't negative, as a signed one of a width.
fn greatest(width: Width) -> u64 {
    match width {
        Width::Bits32 => 0x7fff_ffff,
        Width::Bits64 => 0x7fff_ffff_ffff_ffff,
    }
}

/// The relation of unsigned numbers that is the same for those that aren't negative.
fn unsigned(relation: Relation) -> Relation {
    match relation {
        Relation::SignedGreater => Relation::Greater,
        Relation::SignedGreaterOrEqual => Relation::GreaterOrEqual,
        Relation::SignedLess => Relation::Less,
        Relation::SignedLessOrEqual => Relation::LessOrEqual,
        other => other,
    }
}

/// The relation that holds where one doesn't, if there is one.
fn opposite(relation: Relation) -> Option<Relation>
    ensures { IfSome result (λ other. IsOpposite relation other) }
{
    match relation {
        Relation::Equal => Some(Relation::NotEqual),
        Relation::NotEqual => Some(Relation::Equal),
        Relation::Greater => Some(Relation::LessOrEqual),
        Relation::LessOrEqual => Some(Relation::Greater),
        Relation::GreaterOrEqual => Some(Relation::Less),
        Relation::Less => Some(Relation::GreaterOrEqual),
        Relation::SignedGreater => Some(Relation::SignedLessOrEqual),
        Relation::SignedLessOrEqual => Some(Relation::SignedGreater),
        Relation::SignedGreaterOrEqual => Some(Relation::SignedLess),
        Relation::SignedLess => Some(Relation::SignedGreaterOrEqual),
        Relation::AnyBitSet => None,
    }
}

/// A compare by another relation.
fn by_relation(branch: Instruction, by: Relation) -> Instruction {
    match branch {
        Instruction::Branch {
            width,
            dst,
            source,
            distance,
            ..
        } => Instruction::Branch {
            width,
            relation: by,
            dst,
            source,
            distance,
        },
        other => other,
    }
}

/// A compare of numbers that aren't negative as one of unsigned numbers.
fn as_unsigned(known: &Known, branch: &Instruction) -> Instruction {
    let Instruction::Branch {
        width,
        relation,
        dst,
        source,
        ..
    } = *branch
    else {
        return *branch;
    };
    let most = greatest(width);
    let first = known.get(dst).bounds().high;
    let second = match source {
        Source::Immediate(number) if number >= 0 => 0,
        _ => source_fact(known, source).bounds().high,
    };
    if first <= most && second <= most {
        return by_relation(*branch, unsigned(relation));
    }
    *branch
}

/// Is it an OR or XOR? These set no bit above the highest ones of their operands.
fn adds_no_bits(operation: Operation) -> bool
    ensures { result ≡ true → AddsNoBits operation }
{
    match operation {
        Operation::Or => true,
        Operation::Xor => true,
        _ => false,
    }
}

/// The mask that an OR or XOR leaves as it is, where both operands are small.
fn idle_mask(known: &Known, instruction: &Instruction) -> Option<(Width, Register, i32)>
    ensures { IfSome result (λ mask. IsIdle known.now.facts instruction.now mask.0 mask.1 mask.2) }
{
    let Instruction::Arithmetic {
        width,
        operation,
        dst,
        source,
    } = *instruction
    else {
        return None;
    };
    if !adds_no_bits(operation) {
        return None;
    }
    let first = known.get(dst).bounds();
    let second = source_fact(known, source).bounds();
    let both_known = first.low == first.high && second.low == second.high;
    let most = first.high | second.high;
    if both_known || most > u64::from(ONES) {
        return None;
    }
    Some((width, dst, mask_over(most) as i32))
}

/// The least number of ones alone that isn't less than a small one.
pub(crate) fn mask_over(most: u64) -> u32
    requires { most ≤ 0xfffff }
    ensures { IsMaskOver most result }
{
    let mut mask = ONES;
    for cut in 0..20u32 {
        if u64::from(ONES >> cut) >= most {
            mask = ONES >> cut;
        }
    }
    mask
}

/// An instruction in place of another one that does the same, by which more is known or that reads less.
fn better(known: &Known, instruction: &Instruction, others: Registers) -> Instruction {
    if let Some(load) = loaded_at_once(known, instruction) {
        return load;
    }
    if let Some(sum) = sum_in_place(known, instruction) {
        return sum;
    }
    match number_in_place(known, instruction) {
        Some(number) => number,
        None => with_number(known, &rebased(known, instruction, others)),
    }
}

impl Layout<'_> {
    /// Is it a load of the block's size from the context?
    fn loads_block_size(&self, known: &Known, instruction: &Instruction) -> Option<Register> {
        let Instruction::Load {
            size: Size::Word,
            dst,
            src,
            offset,
        } = *instruction
        else {
            return None;
        };
        let told = known.get(src).offsets()?;
        let at = told.low.wrapping_add(i64::from(offset));
        if told.area == Area::Context && told.low == told.high && at == BLOCK_SIZE_BYTE {
            Some(dst)
        } else {
            None
        }
    }

    /// Puts the guards in front of an instruction. False where it is never come to.
    fn guard(
        &mut self,
        known: &mut Known,
        slot: usize,
        instruction: &Instruction,
    ) -> Result<bool, LinkFault> {
        if instruction.is_emit() {
            return self.guard_emit(known, slot, instruction);
        }
        match instruction.access() {
            Some(access) => self.guard_access(known, slot, instruction, access),
            None => Ok(true),
        }
    }

    /// Puts an instruction that is no jump, and what makes more known behind it. False where what is behind is never come to.
    pub(crate) fn put_straight(
        &mut self,
        known: &mut Known,
        slot: usize,
        instruction: Instruction,
    ) -> Result<bool, LinkFault> {
        if is_idle_store(known, &instruction) || self.put_spill(known, slot, &instruction)? {
            return Ok(true);
        }
        let mask = idle_mask(known, &instruction);
        let size = self.loads_block_size(known, &instruction);
        let bytes = self.target.block.bytes() as i32;
        if let (Some(dst), true) = (size, known.is_sized) {
            self.put(
                known,
                compute(Operation::Move, dst, Source::Immediate(bytes)),
            )?;
            return Ok(true);
        }
        let others = at(self.live, slot.saturating_add(instruction.slots()));
        let mut placed = better(known, &instruction, others);
        if self.target.widens {
            placed = widened(known, &placed);
        }
        self.put(known, placed)?;
        if let Some((width, dst, mask)) = mask {
            self.put(
                known,
                Instruction::Arithmetic {
                    width,
                    operation: Operation::And,
                    dst,
                    source: Source::Immediate(mask),
                },
            )?;
        }
        if let Some(dst) = size {
            known.is_sized = true;
            let need = Need::BlockSize(bytes.max(0) as usize);
            return self.put_guard(known, need, Guard::Block, Relation::NotEqual, dst, bytes);
        }
        Ok(true)
    }

    /// The compare that leads to the slot behind it where a compare leads on, if the next slot is the one to which that jumps.
    fn inverted(&self, slot: usize, branch: &Instruction, target: i64) -> Option<Instruction> {
        let Instruction::Branch { relation, .. } = *branch else {
            return None;
        };
        if self.next(slot) != Some(target.max(0) as usize) {
            return None;
        }
        Some(by_relation(*branch, opposite(relation)?))
    }

    /// Puts a jump to a slot; to none, where it is before the first.
    pub(crate) fn jump(&mut self, jump: Instruction, to: i64) -> Result<(), LinkFault> {
        if to < 0 {
            return Err(LinkFault::Leaves(0));
        }
        self.push_jump(jump, to as usize)
    }

    /// Goes on at a slot alone, where this is known.
    fn go_on(&mut self, slot: usize, to: i64, mut known: Box<Known>) -> Result<(), LinkFault> {
        let to = self.through(slot, to, &mut known);
        self.give(slot, to, known)?;
        self.lead(slot, to)
    }

    /// Lays a compare out whose both edges can be taken.
    fn fork(
        &mut self,
        slot: usize,
        branch: Instruction,
        behind: i64,
        target: i64,
    ) -> Result<(), LinkFault> {
        if target == behind {
            return self.lead(slot, behind);
        }
        match self.inverted(slot, &branch, target) {
            Some(inverted) => self.jump(inverted, behind),
            None => {
                self.jump(branch, target)?;
                self.lead(slot, behind)
            }
        }
    }

    /// Lays a compare out.
    fn visit_branch(
        &mut self,
        alloc: Global,
        slot: usize,
        branch: Instruction,
        mut known: Box<Known>,
        to: i64,
    ) -> Result<(), LinkFault> {
        let behind = target(slot, 0);
        self.put_copies(&mut known, slot, &branch)?;
        let branch = with_number(&known, &branch);
        if let Some(is_taken) = decided(&known, &branch) {
            return self.go_on(slot, if is_taken { to } else { behind }, known);
        }
        let mut branch = as_unsigned(&known, &branch);
        if self.target.widens {
            branch = widened(&known, &branch);
        }
        let mut taken = boxed(alloc, *known)?;
        let is_taken = narrow(&mut taken, &branch, true);
        let is_passed = narrow(&mut known, &branch, false);
        match (is_taken, is_passed) {
            (true, true) => {
                let to = self.through(slot, to, &mut taken);
                let behind = self.through(slot, behind, &mut known);
                self.give(slot, to, taken)?;
                self.give(slot, behind, known)?;
                self.fork(slot, branch, behind, to)
            }
            (true, false) => self.go_on(slot, to, taken),
            (false, true) => self.go_on(slot, behind, known),
            (false, false) => Ok(()),
        }
    }

    /// Lays an instruction out that is no jump.
    fn visit_straight(
        &mut self,
        alloc: Global,
        slot: usize,
        instruction: Instruction,
        mut known: Box<Known>,
    ) -> Result<(), LinkFault> {
        self.put_copies(&mut known, slot, &instruction)?;
        let areas = self.open_areas(&known, slot, &instruction);
        if areas.count() > 1 {
            return self.visit_several(alloc, slot, instruction, known, areas);
        }
        self.visit_guarded(slot, instruction, known)
    }

    /// Lays an instruction out that is no jump, behind its guards.
    pub(crate) fn visit_guarded(
        &mut self,
        slot: usize,
        instruction: Instruction,
        mut known: Box<Known>,
    ) -> Result<(), LinkFault> {
        if !self.guard(&mut known, slot, &instruction)? {
            return Ok(());
        }
        set_answer(&mut self.passed, slot, true);
        if !self.put_straight(&mut known, slot, instruction)? {
            return Ok(());
        }
        self.go_on(slot, target(slot, instruction.slots() as i32 - 1), known)
    }

    /// Lays out what stands at a slot, where this is known.
    pub(crate) fn visit(
        &mut self,
        alloc: Global,
        slot: usize,
        known: Box<Known>,
    ) -> Result<(), LinkFault> {
        self.push_begin(slot)?;
        self.here = slot;
        let instruction = match self.slots.get(slot) {
            Some(Some(instruction)) => *instruction,
            _ => return Err(LinkFault::Leaves(slot)),
        };
        let Some(distance) = instruction.distance() else {
            if matches!(instruction, Instruction::Exit) {
                self.scratch = self.scratch.with(known.scratch);
                return self.push_plain(instruction);
            }
            return self.visit_straight(alloc, slot, instruction, known);
        };
        let to = target(slot, distance);
        if let Instruction::Branch { .. } = instruction {
            return self.visit_branch(alloc, slot, instruction, known, to);
        }
        self.go_on(slot, to, known)
    }
}
