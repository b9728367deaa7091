//! Guards of emits.

use crate::area_sets::{AreaSet, IN_ORDER};
use crate::fault::LinkFault;
use crate::guards::{Guard, Need};
use crate::known::Known;
use crate::layout::Layout;
use crate::within::{Within, small, whole};
use instruction_set::{Instruction, Register, Relation};
use program_interface::{Area, FRAME_LENGTH_BYTES};
use word_domain::{Bounds, Domain, Offsets};

/// The most bytes of a record from an address, in an area of so many.
fn most_from(told: Option<Offsets>, length: i64) -> i64 {
    match told {
        Some(told) if told.low == told.high && told.low >= 0 => length.saturating_sub(told.low),
        _ => length,
    }
}

impl Layout<'_> {
    /// The bounds of the length of a record.
    fn lengths(&self, known: &Known) -> Bounds {
        known.get(Register::R2).bounds()
    }

    /// Ends the block run.
    fn put_emit_end(&mut self, need: Need) -> Result<bool, LinkFault> {
        self.note_end(need);
        self.push_guard(Instruction::Jump { distance: 0 }, Guard::Emit, need)?;
        Ok(false)
    }

    /// Puts what makes the length of an emit known to be at most so many bytes. False where it can't.
    fn guard_most(&mut self, known: &mut Known, need: Need, most: i64) -> Result<bool, LinkFault> {
        let lengths = self.lengths(known);
        if most < 1 || lengths.low > most as u64 {
            return self.put_emit_end(need);
        }
        if lengths.high > most as u64 {
            let most = most.min(0x1_0000) as i32;
            let length = Register::R2;
            return self.put_guard(known, need, Guard::Emit, Relation::Greater, length, most);
        }
        Ok(true)
    }

    /// Puts what makes a record known to have no more bytes than there are left of the limit. False where it can't.
    fn guard_limit(&mut self, known: &mut Known) -> Result<bool, LinkFault> {
        let lengths = self.lengths(known);
        if lengths.low <= self.plan.longest && lengths.high > self.plan.longest {
            let most = self.plan.longest.min(0x1_0000) as i64;
            if !self.guard_most(known, Need::Left(most as usize), most)? {
                return Ok(false);
            }
        }
        if self.plan.is_counted {
            return Ok(true);
        }
        let emitted = known.facts.emitted.min(1 << 32) as i64;
        let limit = self.target.limit.min(0x1_0000) as i64;
        let left = limit - emitted - FRAME_LENGTH_BYTES as i64;
        self.guard_most(known, Need::Left(left.max(0) as usize), left)
    }

    /// Puts what makes the length of an emit known to be at least 1, and at most so many bytes. False where it can't.
    fn guard_length(&mut self, known: &mut Known, most: i64) -> Result<bool, LinkFault> {
        let (some, length) = (Need::SomeByte, Register::R2);
        if self.lengths(known).low == 0
            && !self.put_guard(known, some, Guard::Emit, Relation::Equal, length, 0)?
        {
            return Ok(false);
        }
        if !self.guard_most(known, Need::Most(most.max(0) as usize), most)?
            || !self.guard_limit(known)?
        {
            return Ok(false);
        }
        let longest = self.lengths(known).high.min(0x1_0000) as usize;
        let emitted = known
            .facts
            .emitted
            .saturating_add(FRAME_LENGTH_BYTES)
            .saturating_add(longest);
        self.emitted = self.emitted.max(emitted);
        Ok(true)
    }

    /// Puts what makes the length of an emit from one of these areas known to be within bounds. False where it can't.
    pub(crate) fn guard_record(
        &mut self,
        known: &mut Known,
        areas: AreaSet,
    ) -> Result<bool, LinkFault> {
        let mut most = i64::from(u16::MAX);
        for area in IN_ORDER {
            if areas.has(area) {
                let length = small(area.length(self.target.block.bytes() as usize));
                most = most.min(most_from(known.get(Register::R1).offsets(), length));
            }
        }
        self.guard_length(known, most)
    }

    /// Where the address of an emit must lie in an area; nothing, where that is known or can't be helped.
    pub(crate) fn emitted_within(&self, known: &Known, area: Area) -> Option<Within> {
        let length = area.length(self.target.block.bytes() as usize);
        let high = self.lengths(known).high;
        let fact = known.get(Register::R1);
        if high > 0x4000 || fact.access(self.target.block, 0, high).is_some() {
            return None;
        }
        Some(Within {
            high: small(length).saturating_sub(high as i64),
            ..whole(area, length, high as usize)
        })
    }

    /// Puts what makes an emit known to be of bytes of an area. False where it can't.
    pub(crate) fn guard_emit(
        &mut self,
        known: &mut Known,
        slot: usize,
        instruction: &Instruction,
    ) -> Result<bool, LinkFault> {
        let areas = self.open_areas(known, slot, instruction);
        let Some(area) = areas.first() else {
            return Ok(true);
        };
        if !self.guard_record(known, AreaSet::of(area))? {
            return Ok(false);
        }
        match self.emitted_within(known, area) {
            Some(within) => self.put_within(
                known,
                Guard::Emit,
                slot,
                instruction,
                Register::R1,
                within,
            ),
            None => Ok(true),
        }
    }
}
