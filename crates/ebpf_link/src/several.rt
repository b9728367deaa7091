//! Accesses and emits whose address may be in several areas: they are laid out once for each.

use crate::area_sets::{ANY_AREA, AreaSet, IN_ORDER, NO_AREA};
use crate::fault::LinkFault;
use crate::guards::{Anchor, address_again};
use crate::known::{Known, narrow};
use crate::labels::other_way;
use crate::layout::{Layout, boxed};
use crate::lists::{number_at, set_answer};
use crate::origins::{accessed_areas, is_address};
use crate::pieces::{compare, target};
use crate::within::{Within, narrowed, whole};
use instruction_set::{AccessKind, Instruction, Register, Relation};
use program_interface::Area;
use std::alloc::Global;
use word_domain::Domain;

/// A register whose address is looked for in an area, where it must lie there, and by which register its distance is told.
#[derive(Drop)]
struct Attempt {
    base: Register,
    within: Within,
    anchor: Anchor,
}

/// The register that has the address of what an instruction accesses or emits.
fn base_of(instruction: &Instruction) -> Option<Register> {
    if instruction.is_emit() {
        return Some(Register::R1);
    }
    Some(instruction.access()?.base)
}

/// Does an instruction store?
fn stores(instruction: &Instruction) -> bool {
    match instruction.access() {
        Some(access) => access.kind == AccessKind::Store,
        None => false,
    }
}

/// Those of the areas that can be written, if there are any.
fn written_of(areas: AreaSet) -> AreaSet {
    let written = areas.writable();
    if written.count() == 0 { areas } else { written }
}

impl Layout<'_> {
    /// The areas in which a guard looks for what an instruction accesses or emits; none, where it has no address.
    pub(crate) fn open_areas(
        &self,
        known: &Known,
        slot: usize,
        instruction: &Instruction,
    ) -> AreaSet {
        let Some(base) = base_of(instruction) else {
            return NO_AREA;
        };
        if let Some(told) = known.get(base).offsets() {
            return AreaSet::of(told.area);
        }
        let is_written = stores(instruction) || self.is_stored_from(slot, base);
        if !is_address(known, base) {
            return AreaSet::of(if is_written {
                Area::Scratch
            } else {
                Area::Block
            });
        }
        let mut areas = accessed_areas(known, base);
        if areas == ANY_AREA {
            areas = areas.without(Area::Context);
        }
        if is_written { written_of(areas) } else { areas }
    }

    /// Puts a compare that leads to the other way. False where it always does.
    fn put_other_way(
        &mut self,
        known: &mut Known,
        relation: Relation,
        dst: Register,
        number: i32,
    ) -> Result<bool, LinkFault> {
        let branch = compare(relation, dst, number);
        self.push_jump(branch, other_way(self.slots))?;
        Ok(narrow(known, &branch, false))
    }

    /// Puts what makes an address known to be where it must be, or leads to the other way. False where it always does.
    fn put_try(&mut self, known: &mut Known, attempt: &Attempt) -> Result<bool, LinkFault> {
        let base = attempt.base;
        self.put_distance(known, base, attempt.anchor)?;
        let (low, high) = attempt.within.compared();
        if !self.put_other_way(known, Relation::Greater, base, high)? {
            return Ok(false);
        }
        if low > 0 && !self.put_other_way(known, Relation::Less, base, low)? {
            return Ok(false);
        }
        self.put_address(known, base, attempt.anchor)?;
        self.put_back(known, attempt.anchor)?;
        Ok(true)
    }

    /// Where an address must lie in an area for what an instruction does.
    fn within_for(&self, known: &Known, instruction: &Instruction, area: Area) -> Option<Within> {
        let length = area.length(self.target.block.bytes() as usize);
        match instruction.access() {
            Some(access) => Some(narrowed(whole(area, length, 0), access, length)),
            None => self.emitted_within(known, area),
        }
    }

    /// Goes on at a slot, behind what is laid out for one of several areas.
    fn leave(&mut self, slot: usize, to: i64, mut known: Box<Known>) -> Result<(), LinkFault> {
        let to = self.through(slot, to, &mut known);
        self.give(slot, to, known)?;
        self.jump(Instruction::Jump { distance: 0 }, to)
    }

    /// Lays an instruction out behind compares that lead to the other way, where its address isn't where it must be.
    fn visit_tried(
        &mut self,
        slot: usize,
        instruction: Instruction,
        mut known: Box<Known>,
        attempt: &Attempt,
    ) -> Result<(), LinkFault> {
        if !self.put_try(&mut known, attempt)? {
            return Ok(());
        }
        if !self.put_straight(&mut known, slot, instruction)? {
            return Ok(());
        }
        set_answer(&mut self.passed, slot, true);
        let to = target(slot, instruction.slots() as i32 - 1);
        self.leave(slot, to, known)
    }

    /// Puts an address again in the place of its distance, where it isn't known to be one.
    fn push_again(&mut self, attempt: &Attempt) -> Result<(), LinkFault> {
        for again in address_again(attempt.base, attempt.anchor) {
            if let Some(again) = again {
                self.push_plain(again)?;
            }
        }
        Ok(())
    }

    /// Lays an instruction out for the case that its address is in an area. Behind it the address is known to be in none but the others.
    fn visit_in(
        &mut self,
        alloc: Global,
        slot: usize,
        instruction: Instruction,
        known: &mut Known,
        attempt: &Attempt,
    ) -> Result<(), LinkFault> {
        let here = boxed(alloc, *known)?;
        self.visit_tried(slot, instruction, here, attempt)?;
        self.push_begin(other_way(self.slots))?;
        self.push_again(attempt)?;
        self.put_back(known, attempt.anchor)
    }

    /// Lays an instruction out whose address may be in several areas: for one after the other, and last with a guard.
    pub(crate) fn visit_several(
        &mut self,
        alloc: Global,
        slot: usize,
        instruction: Instruction,
        mut known: Box<Known>,
        areas: AreaSet,
    ) -> Result<(), LinkFault> {
        let Some(base) = base_of(&instruction) else {
            return Ok(());
        };
        if instruction.is_emit() && !self.guard_record(&mut known, areas)? {
            return Ok(());
        }
        let mut left = areas;
        for area in IN_ORDER {
            if left.count() < 2 || !left.has(area) {
                continue;
            }
            let Some(within) = self.within_for(&known, &instruction, area) else {
                continue;
            };
            let anchor = self.put_anchor(&mut known, slot, &instruction, base, area)?;
            let Some(anchor) = anchor else {
                return Err(LinkFault::Address(number_at(self.origins, slot)));
            };
            let attempt = Attempt {
                base,
                within,
                anchor,
            };
            self.visit_in(alloc, slot, instruction, &mut known, &attempt)?;
            left = left.without(area);
            known.areas[base.index()] = left;
        }
        self.visit_guarded(slot, instruction, known)
    }
}
