//! The reasons to refuse an instruction, in the order of their numbers.

ghost use Rattle.std.specs.Prelude.{◌≡◌, ◌<◌, ◌&&◌, int_le, nat_le, pos, Some};
ghost use Rattle.instruction_set.specs.Instruction.{access_of};
ghost use Rattle.program_meaning.specs.Cause.{calls_unknown as instruction_calls_unknown};
ghost use Rattle.program_meaning.specs.steps.Causes.{is_unwritable as area_is_unwritable};
ghost use Rattle.accepted_programs.specs.Accepted.{area_accessed as area_of_access, begins_at, emits_amiss as facts_emit_amiss, emits_from_nowhere as facts_emit_from_nowhere, ends_inside as sum_ends_inside, falls_off as instruction_falls_off, fits_by_sum as record_fits_by_sum, goes_back as distance_goes_back, is_record as fit_is_record, leads_nowhere as distance_leads_nowhere, loads_outside as access_loads_outside, passes_limit as facts_pass_limit, reason_of, record_fits as facts_record_fits, stores_outside as access_stores_outside, turns_away as instruction_turns_away};
ghost use Rattle.accepted_programs.specs.Facts.{area_of, least_length, slot_behind as instruction_slot_behind};

use accepted_programs::{Facts, Fit, Reason};
use instruction_set::{Access, AccessKind, Instruction, Program, Register};
use program_interface::{Area, BlockSize, EMIT, FRAME_LENGTH_BYTES, MOST_SLOTS, RunSizes};
use word_domain::{Domain, Offsets};

/// The slot behind an instruction.
#[inline]
pub(crate) fn slot_behind(slot: usize, instruction: &Instruction) -> usize
    requires { slot < MOST_SLOTS }
    ensures { result ≡ instruction_slot_behind slot instruction.now }
{
    slot + instruction.slots()
}

/// Does an instruction begin at this slot of a program?
#[inline]
fn begins(program: &Program, slot: i64) -> bool
    ensures { result ≡ begins_at program.now slot }
{
    slot >= 0 && program.at(slot.unsigned_abs() as usize).is_some()
}

#[inline]
fn goes_back(distance: Option<i32>) -> bool
    ensures { result ≡ distance_goes_back distance }
{
    match distance {
        Some(distance) => distance < 0,
        None => false,
    }
}

#[inline]
fn leads_nowhere(program: &Program, slot: usize, distance: Option<i32>) -> bool
    requires { slot < MOST_SLOTS }
    ensures { result ≡ distance_leads_nowhere program.now slot distance }
{
    match distance {
        Some(distance) => !begins(program, Instruction::target(slot, distance)),
        None => false,
    }
}

/// Does an instruction always leave the slots in a row?
#[inline]
fn turns_away(instruction: &Instruction) -> bool
    ensures { result ≡ instruction_turns_away instruction.now }
{
    matches!(
        *instruction,
        Instruction::Jump { .. } | Instruction::JumpLong { .. } | Instruction::Exit
    )
}

#[inline]
fn falls_off(program: &Program, slot: usize, instruction: &Instruction) -> bool
    requires { slot < MOST_SLOTS }
    ensures { result ≡ instruction_falls_off program.now slot instruction.now }
{
    !turns_away(instruction) && program.at(slot_behind(slot, instruction)).is_none()
}

/// The area that holds the bytes of an access.
#[inline]
fn area<D: Domain>(
    block: BlockSize,
    facts: &Facts<D>,
    register: Register,
    offset: i16,
    size: u64,
) -> Option<Area>
    ensures { result ≡ area_of D.operations block facts.now register offset size }
{
    facts.get(register).access(block, offset, size)
}

/// The same of an instruction's own.
#[inline]
fn area_accessed<D: Domain>(block: BlockSize, facts: &Facts<D>, access: Access) -> Option<Area>
    ensures { result ≡ area_of_access D.operations block facts.now access }
{
    let size = u64::from(access.size);
    area(block, facts, access.base, access.offset, size)
}

#[inline]
fn loads_outside<D: Domain>(block: BlockSize, facts: &Facts<D>, instruction: &Instruction) -> bool
    ensures { result ≡ access_loads_outside D.operations block facts.now (access_of instruction.now) }
{
    match instruction.access() {
        Some(access) => match access.kind {
            AccessKind::Load => area_accessed(block, facts, access).is_none(),
            AccessKind::Store => false,
        },
        None => false,
    }
}

/// Is there no area, or one that no program can store to?
#[inline]
fn is_unwritable(area: Option<Area>) -> bool
    ensures { result ≡ area_is_unwritable area }
{
    match area {
        Some(area) => !area.is_writable(),
        None => true,
    }
}

#[inline]
fn stores_outside<D: Domain>(block: BlockSize, facts: &Facts<D>, instruction: &Instruction) -> bool
    ensures { result ≡ access_stores_outside D.operations block facts.now (access_of instruction.now) }
{
    match instruction.access() {
        Some(access) => match access.kind {
            AccessKind::Load => false,
            AccessKind::Store => is_unwritable(area_accessed(block, facts, access)),
        },
        None => false,
    }
}

#[inline]
fn calls_unknown(instruction: &Instruction) -> bool
    ensures { result ≡ instruction_calls_unknown instruction.now }
{
    match *instruction {
        Instruction::Call { helper } => helper != EMIT,
        _ => false,
    }
}

/// Are the two R1 and R2, by which emit is told a record's address and length?
#[inline]
fn is_record(fit: &Fit) -> bool
    ensures { result ≡ fit_is_record fit.now }
{
    (fit.first == Register::R1 && fit.second == Register::R2)
        || (fit.first == Register::R2 && fit.second == Register::R1)
}

/// Is the sum of address and length known not to wrap, and to be at most the end of the address's area?
fn ends_inside<D: Domain>(block: BlockSize, facts: &Facts<D>, fit: Fit, told: Offsets) -> bool
    ensures { result ≡ sum_ends_inside D.operations block facts.now fit told }
{
    let (address, length) = (
        facts.get(Register::R1).bounds().high,
        facts.get(Register::R2).bounds().high,
    );
    let end = u128::from(told.area.address()) + told.area.length(block.bytes() as usize) as u128;
    let most = end + u128::from(fit.more);
    let sum = u128::from(address) + u128::from(length) + u128::from(fit.more);
    sum < 0x1_0000_0000_0000_0000 && u128::from(fit.most) <= most
}

/// Is a record known to have at least one byte, and to begin no less far than its area does?
fn begins_inside<D: Domain>(facts: &Facts<D>, fit: &Fit, told: Offsets) -> bool
    ensures { result ≡ (fit_is_record fit.now && int_le (pos 0) told.low && nat_le 1 (least_length D.operations facts.now)) }
{
    if !is_record(fit) {
        return false;
    }
    let (begins, has_byte) = (told.low >= 0, facts.get(Register::R2).bounds().low >= 1);
    begins && has_byte
}

/// Are all its bytes known to lie in the area by the sum of its address and its length?
fn fits_by_sum<D: Domain>(block: BlockSize, facts: &Facts<D>, fit: &Fit, told: Offsets) -> bool
    ensures { result ≡ record_fits_by_sum D.operations block facts.now (Some fit.now) (Some told) }
{
    begins_inside(facts, fit, told) && ends_inside(block, facts, *fit, told)
}

/// The same, where there is such a sum and the address is known as one.
fn record_fits<D: Domain>(block: BlockSize, facts: &Facts<D>) -> bool
    ensures { result ≡ facts_record_fits D.operations block facts.now }
{
    let Some(fit) = facts.fit else {
        return false;
    };
    match facts.get(Register::R1).offsets() {
        Some(told) => fits_by_sum(block, facts, &fit, told),
        None => false,
    }
}

/// May it be that the address to emit from lies in no area, nor at the end of one?
#[inline]
fn emits_from_nowhere<D: Domain>(block: BlockSize, facts: &Facts<D>) -> bool
    ensures { result ≡ facts_emit_from_nowhere D.operations block facts.now }
{
    area(block, facts, Register::R1, 0, 0).is_none() && !record_fits(block, facts)
}

/// May there be no bytes to emit, or more than the area has?
#[inline]
fn emits_amiss<D: Domain>(block: BlockSize, facts: &Facts<D>) -> bool
    ensures { result ≡ facts_emit_amiss D.operations block facts.now }
{
    let bounds = facts.get(Register::R2).bounds();
    bounds.low == 0
        || area(block, facts, Register::R1, 0, bounds.high).is_none() && !record_fits(block, facts)
}

/// May a frame take the group over its limit?
#[inline]
fn passes_limit<D: Domain>(limit: u32, facts: &Facts<D>) -> bool
    ensures { result ≡ facts_pass_limit D.operations limit facts.now }
{
    let most = u128::from(facts.get(Register::R2).bounds().high);
    facts.emitted as u128 + FRAME_LENGTH_BYTES as u128 + most > u128::from(limit)
}

/// The least reason to refuse an instruction at a slot with these facts.
pub(crate) fn find_reason<D: Domain>(
    program: &Program,
    sizes: RunSizes,
    slot: usize,
    instruction: &Instruction,
    facts: &Facts<D>,
) -> Option<Reason>
    requires { slot < MOST_SLOTS }
    ensures { result ≡ reason_of D.operations program.now sizes slot facts.now instruction.now }
{
    let block = sizes.block();
    let distance = instruction.distance();
    let reason = if goes_back(distance) {
        Reason::JumpBack
    } else if leads_nowhere(program, slot, distance) {
        Reason::JumpOutside
    } else if falls_off(program, slot, instruction) {
        Reason::FallsOff
    } else if instruction.writes(Register::FRAME_POINTER) {
        Reason::WriteToFramePointer
    } else if loads_outside(block, facts, instruction) {
        Reason::LoadOutside
    } else if stores_outside(block, facts, instruction) {
        Reason::StoreOutside
    } else if calls_unknown(instruction) {
        Reason::UnknownHelper
    } else if !instruction.is_emit() {
        return None;
    } else if emits_from_nowhere(block, facts) {
        Reason::EmitAddress
    } else if emits_amiss(block, facts) {
        Reason::EmitLength
    } else if passes_limit(sizes.limit(), facts) {
        Reason::EmitLimit
    } else {
        return None;
    };
    Some(reason)
}
