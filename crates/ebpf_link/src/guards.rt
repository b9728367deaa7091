//! Guards: compares in front of what a program does, that end the block run where it would trap. Each is idle in every block run that
//! doesn't trap without it, but for that of an emit whose address and length are both ranges: it wants room for the longest.

ghost use Rattle.std.specs.Prelude.{◌≡◌, IfOk, false, if◌then◌else◌};
ghost use Rattle.ebpf_link.specs.Bounds.{AreBoundsAt, AreInsideAt, access_by};
ghost use Rattle.ebpf_link.specs.Deciding.{edge};
ghost use Rattle.ebpf_link.specs.Guards.{IsGuardedBy, compare_with, guard_index, guard_word};
ghost use Rattle.instruction_set.specs.declared.instruction.Instruction.TheVariants.{Load, StoreRegister};
ghost use Rattle.instruction_set.specs.declared.operation.Size.TheVariants.{DoubleWord};

use crate::fault::LinkFault;
use crate::folding::folded;
use crate::idle::leaves_as_is;
use crate::known::{Known, narrow, step};
use crate::layout::Layout;
use crate::liveness::{ALL, at, bit, reads, writes};
use crate::pieces::{compare, compute};
use crate::scratch_words::words_stored;
use crate::within::{Within, access_by, narrowed, whole};
use instruction_set::{
    Access, AccessKind, Instruction, Operation, Register, Relation, Size, Source,
};
use program_interface::{Area, REGISTERS};
use word_domain::{Domain, Offsets};

/// What R0 has where a guard of an access ends the block run.
pub const MEMORY_GUARD: i32 = 0x7001;

/// What R0 has where a guard of an emit ends the block run.
pub const EMIT_GUARD: i32 = 0x7002;

/// What R0 has where blocks have another size than the program was made for.
pub const BLOCK_GUARD: i32 = 0x7003;

/// What R0 has where a loop would go round once more than it was laid out.
pub const ROUNDS_GUARD: i32 = 0x7004;

/// The kinds of guards.
#[derive(Clone, Copy, PartialEq, Eq)]
pub enum Guard {
    /// An access lies within its area.
    Memory,
    /// An emit lies within its area, is of at least one byte, and within the limit.
    Emit,
    /// A block has the size that the program is made for.
    Block,
    /// A loop is over behind the rounds that are laid out.
    Rounds,
}

impl Guard {
    /// How many kinds there are.
    pub const COUNT: usize = 4;

    /// Its number among them.
    pub fn index(self) -> usize
        ensures { result ≡ guard_index self }
    {
        match self {
            Guard::Memory => 0,
            Guard::Emit => 1,
            Guard::Block => 2,
            Guard::Rounds => 3,
        }
    }

    /// What R0 has where a guard of this kind ends the block run.
    pub fn word(self) -> i32
        ensures { result ≡ guard_word self }
    {
        match self {
            Guard::Memory => MEMORY_GUARD,
            Guard::Emit => EMIT_GUARD,
            Guard::Block => BLOCK_GUARD,
            Guard::Rounds => ROUNDS_GUARD,
        }
    }
}

/// What must hold where a guard lets a block run go on.
#[derive(Clone, Copy, Debug, PartialEq, Eq)]
pub enum Need {
    /// So many bytes, which are accessed or emitted, lie in an area of so many.
    Inside {
        /// The area.
        area: Area,
        /// How many bytes.
        bytes: usize,
        /// How many the area has.
        length: usize,
    },
    /// A record has a byte.
    SomeByte,
    /// A record has at most so many bytes, of those that there may be from its address on.
    Most(usize),
    /// A record has at most so many bytes, which are left of the limit.
    Left(usize),
    /// A block has so many bytes.
    BlockSize(usize),
    /// A loop is over after so many rounds.
    Rounds(usize),
}

/// A guard in front of what stands at a slot, and what must hold.
#[derive(Clone, Copy, Debug)]
pub struct GuardPlace {
    /// The slot, of those that were given.
    pub slot: usize,
    /// What must hold.
    pub need: Need,
}

/// A register that has an address, at which distance from its area's first byte, and the cell that has what it had before.
#[derive(Clone, Copy)]
pub(crate) struct Anchor {
    pub register: Register,
    pub distance: i32,
    pub spare: Option<i16>,
}

/// What makes an address again of its distance.
pub(crate) fn address_again(base: Register, anchor: Anchor) -> [Option<Instruction>; 2] {
    let added = compute(Operation::Add, base, Source::Register(anchor.register));
    if anchor.distance == 0 {
        return [Some(added), None];
    }
    let back = Source::Immediate(anchor.distance.clamp(-100_000, 100_000).wrapping_neg());
    [Some(added), Some(compute(Operation::Add, base, back))]
}

/// The distance from an area's first byte, where it is known to be one.
fn exact(told: Option<Offsets>, area: Area) -> Option<i64> {
    let told = told?;
    if told.area == area && told.low == told.high {
        Some(told.low)
    } else {
        None
    }
}

/// May something else follow an instruction than the next one, or may it change a register?
pub(crate) fn ends_row(instruction: &Instruction, base: Register) -> bool {
    (writes(instruction) & bit(base)) != 0
        || instruction.distance().is_some()
        || matches!(instruction, Instruction::Exit | Instruction::Call { .. })
}

impl Layout<'_> {
    /// Puts an instruction that is no jump, but for one that changes nothing.
    pub(crate) fn put(
        &mut self,
        known: &mut Known,
        instruction: Instruction,
    ) -> Result<(), LinkFault> {
        if leaves_as_is(known, &instruction) {
            return Ok(());
        }
        self.stored |= words_stored(known, &instruction);
        step(known, &instruction);
        self.push_plain(folded(known, &instruction))
    }

    /// Puts a compare that leads to a guard's end. False where it always does.
    pub(crate) fn put_guard(
        &mut self,
        known: &mut Known,
        need: Need,
        guard: Guard,
        relation: Relation,
        dst: Register,
        number: i32,
    ) -> Result<bool, LinkFault>
        ensures guarded { IfOk result (λ _. IsGuardedBy self.old self.new (compare_with relation dst number) guard need) }
        ensures known { IfOk result (λ goes_on. edge known.old.facts (compare_with relation dst number) false
            ≡ (if goes_on then Some known.new.facts else None)) }
    {
        let branch = compare(relation, dst, number);
        let goes_on = narrow(known, &branch, false);
        self.note_unless(goes_on, need);
        let _place = self.push_guard(branch, guard, need)?;
        Ok(goes_on)
    }

    /// A register, other than this one, that has an address whose distance from an area's first byte is known, and this distance.
    fn anchor(&self, known: &Known, area: Area, but: Register) -> Option<(Register, i64)> {
        for number in 0..REGISTERS {
            let register = Register::from_number(number as u8);
            if register != but {
                if let Some(distance) = exact(known.get(register).offsets(), area) {
                    return Some((register, distance));
                }
            }
        }
        None
    }

    /// A register that an instruction at a slot doesn't use, and whether nothing reads what it has.
    pub(crate) fn temporary(
        &self,
        slot: usize,
        instruction: &Instruction,
        but: Register,
    ) -> (Register, bool) {
        let used = reads(instruction) | bit(but);
        let live = at(&self.live, slot) | used;
        for number in 0..10u8 {
            let register = Register::from_number(number);
            if bit(register) & live == 0 {
                return (register, true);
            }
        }
        let used = used | writes(instruction);
        for number in 1..10u8 {
            let register = Register::from_number(number);
            if bit(register) & used == 0 {
                return (register, false);
            }
        }
        (Register::R0, false)
    }

    /// Narrows an address to where it must be, over a register that has one whose distance is known.
    fn put_over(
        &mut self,
        known: &mut Known,
        guard: Guard,
        base: Register,
        within: Within,
        anchor: Anchor,
    ) -> Result<bool, LinkFault> {
        self.put_distance(known, base, anchor)?;
        let need = within.need;
        let (low, high) = within.compared();
        if !self.put_guard(known, need, guard, Relation::Greater, base, high)? {
            return Ok(false);
        }
        if low > 0 && !self.put_guard(known, need, guard, Relation::Less, base, low)? {
            return Ok(false);
        }
        self.put_address(known, base, anchor)?;
        Ok(true)
    }

    /// Puts the distance of an address from its area's first byte in its place.
    pub(crate) fn put_distance(
        &mut self,
        known: &mut Known,
        base: Register,
        anchor: Anchor,
    ) -> Result<(), LinkFault> {
        let source = Source::Register(anchor.register);
        self.put(known, compute(Operation::Subtract, base, source))?;
        if anchor.distance != 0 {
            let source = Source::Immediate(anchor.distance);
            self.put(known, compute(Operation::Add, base, source))?;
        }
        Ok(())
    }

    /// Puts an address back in the place of its distance.
    pub(crate) fn put_address(
        &mut self,
        known: &mut Known,
        base: Register,
        anchor: Anchor,
    ) -> Result<(), LinkFault> {
        for instruction in address_again(base, anchor) {
            if let Some(instruction) = instruction {
                self.put(known, instruction)?;
            }
        }
        Ok(())
    }

    /// A register that has an address whose distance from an area's first byte is known; where none has one, one that gets it.
    pub(crate) fn put_anchor(
        &mut self,
        known: &mut Known,
        slot: usize,
        instruction: &Instruction,
        base: Register,
        area: Area,
    ) -> Result<Option<Anchor>, LinkFault> {
        if let Some((register, distance)) = self.anchor(known, area, base) {
            return Ok(Some(Anchor {
                register,
                distance: distance.clamp(-100_000, 100_000) as i32,
                spare: None,
            }));
        }
        let Some(cell) = self.kept_address(area) else {
            return Ok(None);
        };
        let (register, is_free) = self.temporary(slot, instruction, base);
        let spare = if is_free { None } else { Some(self.cell(2)) };
        if let Some(spare) = spare {
            self.put(known, stored(register, spare))?;
        }
        self.put(known, loaded(register, cell))?;
        Ok(Some(Anchor {
            register,
            distance: 0,
            spare,
        }))
    }

    /// Gives a register back what it had before an address was put into it.
    pub(crate) fn put_back(&mut self, known: &mut Known, anchor: Anchor) -> Result<(), LinkFault> {
        match anchor.spare {
            Some(spare) => self.put(known, loaded(anchor.register, spare)),
            None => Ok(()),
        }
    }

    /// A cell of the stack that has the first address of an area.
    fn kept_address(&mut self, area: Area) -> Option<i16> {
        match area {
            Area::Block => {
                self.uses_block = true;
                Some(self.cell(0))
            }
            Area::Scratch => {
                self.uses_scratch = true;
                Some(self.cell(1))
            }
            _ => None,
        }
    }

    /// Narrows an address to where it must be. False where it can't be there.
    pub(crate) fn put_within(
        &mut self,
        known: &mut Known,
        guard: Guard,
        slot: usize,
        instruction: &Instruction,
        base: Register,
        within: Within,
    ) -> Result<bool, LinkFault> {
        let is_free = matches!(self.free.get(slot), Some(true));
        if is_free
            || base == Register::FRAME_POINTER
            || within.high < within.low
            || within.high < 0
        {
            return Ok(true);
        }
        let Some(anchor) = self.put_anchor(known, slot, instruction, base, within.area)? else {
            return Ok(true);
        };
        if !self.put_over(known, guard, base, within, anchor)? {
            return Ok(false);
        }
        self.put_back(known, anchor)?;
        Ok(true)
    }

    /// Is surely something stored by a register, from a slot on?
    pub(crate) fn is_stored_from(&self, slot: usize, base: Register) -> bool {
        for later in slot..self.slots.len() {
            let Some(Some(instruction)) = self.slots.get(later) else {
                continue;
            };
            if let Some(access) = instruction.access() {
                if access.base == base && access.kind == AccessKind::Store {
                    return true;
                }
            }
            if ends_row(instruction, base) {
                return false;
            }
        }
        false
    }

    /// The access by a register at a slot, if there is one.
    fn access_at(&self, slot: usize, base: Register) -> Option<Access>
        ensures { result ≡ access_by self.now.slots.now slot base }
    {
        match self.slots.get(slot) {
            Some(Some(instruction)) => access_by(instruction, base),
            _ => None,
        }
    }

    /// Where an address in a register must point for the access by it at a slot, if there is one, besides that it did.
    fn accessed_at(&self, slot: usize, base: Register, within: Within, length: usize) -> Within
        ensures { AreBoundsAt self.now.slots.now slot base length within result }
    {
        match self.access_at(slot, base) {
            Some(access) => narrowed(within, access, length),
            None => within,
        }
    }

    /// Does the row of accesses by a register end at a slot?
    fn ends_row_at(&self, slot: usize, base: Register) -> bool {
        match self.slots.get(slot) {
            Some(Some(instruction)) => ends_row(instruction, base),
            _ => false,
        }
    }

    /// Where the accesses by a register must point that surely come from a slot on, in an area of so many bytes.
    fn accessed_from(&self, slot: usize, base: Register, area: Area, length: usize) -> Within
        ensures area { result.area ≡ area }
        ensures inside { AreInsideAt self.now.slots.now slot base length result }
    {
        let first = self.accessed_at(slot, base, whole(area, length, 0), length);
        if self.ends_row_at(slot, base) {
            return first;
        }
        let mut within = first;
        for later in slot.saturating_add(1)..self.slots.len() {
            let next = self.accessed_at(later, base, within, length);
            if next.high < next.low {
                break;
            }
            within = next;
            if self.ends_row_at(later, base) {
                break;
            }
        }
        within
    }

    /// Puts what makes an access known to lie in its area. False where it can't.
    pub(crate) fn guard_access(
        &mut self,
        known: &mut Known,
        slot: usize,
        instruction: &Instruction,
        access: Access,
    ) -> Result<bool, LinkFault> {
        let fact = known.get(access.base);
        let found = fact.access(self.target.block, access.offset, u64::from(access.size));
        if let Some(area) = found {
            if access.kind == AccessKind::Load || area.is_writable() {
                return Ok(true);
            }
        }
        let Some(area) = self.open_areas(known, slot, instruction).first() else {
            return Ok(true);
        };
        let length = area.length(self.target.block.bytes() as usize);
        let within = self.accessed_from(slot, access.base, area, length);
        self.put_within(known, Guard::Memory, slot, instruction, access.base, within)
    }
}

/// A store of a register into a cell of the stack.
pub(crate) fn stored(src: Register, offset: i16) -> Instruction
    ensures { result ≡ StoreRegister DoubleWord 10 src offset }
{
    Instruction::StoreRegister {
        size: Size::DoubleWord,
        dst: Register::FRAME_POINTER,
        src,
        offset,
    }
}

/// A load of a cell of the stack.
pub(crate) fn loaded(dst: Register, offset: i16) -> Instruction
    ensures { result ≡ Load DoubleWord dst 10 offset }
{
    Instruction::Load {
        size: Size::DoubleWord,
        dst,
        src: Register::FRAME_POINTER,
        offset,
    }
}

/// All registers are there.
const _: () = prove!(ALL < 2048);
