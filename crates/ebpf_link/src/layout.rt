//! The slots of a program without loops.

ghost use Rattle.std.specs.Prelude.{◌≡◌, ◌+◌, ◌++◌, ◌∷◌, [], IfOk, IfSome, length, true};
ghost use Rattle.ebpf_link.specs.Guards.{IsCut, IsGuardAt, IsGuarded, IsOf, KeepsGuards};
ghost use Rattle.ebpf_link.specs.Ends.{cell_offset, EndsAll};
ghost use Rattle.ebpf_link.specs.declared.pieces.Piece.TheVariants.{Begins, Jump, Plain};

use crate::area_sets::AreaSet;
use crate::assembling::Cut;
use crate::fault::LinkFault;
use crate::flow::{found, set};
use crate::guards::{Guard, GuardPlace, Need, stored};
use crate::known::{Known, at_start, join};
use crate::labels::guard_label;
use crate::lists::{number_at, set_answer, set_number};
use crate::liveness::Registers;
use crate::loops::Loops;
use crate::marks::CELLS_BYTES;
use crate::pieces::{Piece, compute};
use crate::planning::Plan;
use crate::scratch_words::ScratchWords;
use crate::target::{MarkRule, Target};
use instruction_set::{Instruction, Operation, Register, Source};
use program_interface::{MOST_SLOTS, STACK_BYTES};
use std::alloc::{AllocError, Global};

/// The most pieces that are looked at, so many times those of a program.
const MOST_PIECES: usize = 4 * MOST_SLOTS;

/// What is known at a slot that is to be come to.
pub(crate) type Row = Option<Box<Known>>;

/// A guard of a program that is laid out.
#[derive(Clone, Copy)]
pub(crate) struct LaidGuard {
    pub guard: Guard,
    pub place: GuardPlace,
    /// The one before it in front of the same slot.
    pub before: Option<usize>,
}

/// A program that is being laid out.
#[derive(Drop)]
pub(crate) struct Layout<'a> {
    /// The slots that it is made of.
    pub slots: &'a [Option<Instruction>],
    /// What each of them was made of, of the slots that were given.
    pub origins: &'a [usize],
    /// What it is made for.
    pub target: Target,
    /// Needs an address at each slot no guard of its position?
    pub free: &'a [bool],
    /// Their loops.
    pub loops: &'a Loops,
    /// The registers that are read from each slot on.
    pub live: &'a [Registers],
    /// How far it is laid out.
    pub plan: Plan,
    /// What is known where each slot is to be come to next.
    pub rows: Vec<Row>,
    /// How many rounds of each loop were laid out since it was come to.
    pub rounds: Vec<usize>,
    /// How many rounds of each loop are laid out at most that can be left before.
    pub caps: &'a [usize],
    /// Was each loop laid out no further?
    pub is_cut: Vec<bool>,
    /// Can each loop be left before its last round?
    pub leaves: Vec<bool>,
    /// The slot that was laid out before.
    pub before: usize,
    /// The most bytes that are emitted, frame lengths counted.
    pub emitted: usize,
    /// What was laid out.
    pub pieces: Vec<Piece>,
    /// The bytes of the stack above those that guards use.
    pub own: usize,
    /// Is the block's address loaded from the stack?
    pub uses_block: bool,
    /// And that of scratch?
    pub uses_scratch: bool,
    /// And that of the context?
    pub uses_context: bool,
    /// The guards, in the order of their numbers.
    pub guards: Vec<LaidGuard>,
    /// The last guard in front of each slot.
    pub last_guards: Vec<Option<usize>>,
    /// The words of scratch into which something may be stored.
    pub stored: ScratchWords,
    /// Where guards write in scratch, if they do.
    pub mark: Option<usize>,
    /// The slot that is laid out.
    pub here: usize,
    /// What ends a block run at each slot, where it always does.
    pub ended: Vec<Option<Need>>,
    /// Is what stands at each slot come to anywhere?
    pub passed: Vec<bool>,
    /// The areas of addresses that a block run leaves in scratch.
    pub scratch: AreaSet,
}

/// Is a guard of this kind, in front of this slot, and must this hold there?
fn is_same(laid: &LaidGuard, guard: Guard, slot: usize, need: Need) -> bool
    ensures { result ≡ true → IsOf guard slot need laid.now }
{
    laid.guard == guard && laid.place.slot == slot && laid.place.need == need
}

/// Joins what is known into a row.
fn add(row: &mut Row, known: Box<Known>) {
    match row {
        Some(earlier) => join(earlier, &known),
        empty => *empty = Some(known),
    }
}

impl Layout<'_> {
    /// The offset from R10 of a cell that guards use.
    pub(crate) fn cell(&self, number: usize) -> i16
        ensures { result ≡ cell_offset self.now.own number }
    {
        let below = self.own.min(512) + 8 * (number.min(8) + 1);
        -(below as i16)
    }

    /// Puts a piece.
    pub(crate) fn push(&mut self, piece: Piece) -> Result<(), LinkFault>
        ensures pushed { IfOk result (λ _. self.new.pieces.items ≡ self.old.pieces.items ++ (piece ∷ [])) }
        ensures slots { self.new.slots ≡ self.old.slots }
        ensures guards { self.new.guards ≡ self.old.guards }
        ensures own { self.new.own ≡ self.old.own }
        ensures mark { self.new.mark ≡ self.old.mark }
    {
        self.pieces.extend_from_slice(&[piece])?;
        Ok(())
    }

    /// Puts an instruction that is no jump.
    pub(crate) fn push_plain(&mut self, instruction: Instruction) -> Result<(), LinkFault>
        ensures pushed { IfOk result (λ _. self.new.pieces.items ≡ self.old.pieces.items ++ (Plain instruction ∷ [])) }
        ensures slots { self.new.slots ≡ self.old.slots }
        ensures guards { self.new.guards ≡ self.old.guards }
        ensures own { self.new.own ≡ self.old.own }
        ensures mark { self.new.mark ≡ self.old.mark }
    {
        self.push(Piece::Plain(instruction))
    }

    /// Puts a compare, or a jump, that leads to a guard's end. Gives the guard's place among all.
    pub(crate) fn push_guard(
        &mut self,
        jump: Instruction,
        guard: Guard,
        need: Need,
    ) -> Result<usize, LinkFault>
        ensures { IfOk result (λ place. IsGuarded self.old self.new jump guard need place) }
    {
        let place = self.note_guard(guard, need)?;
        self.push(Piece::Jump(jump, guard_label(self.slots, place)))?;
        Ok(place)
    }

    /// Do guards write nothing?
    fn is_silent(&self) -> bool {
        matches!(self.target.marks, MarkRule::Silent)
    }

    /// The place of a guard of the slot that is laid out, if there is one already.
    fn found_guard(&self, guard: Guard, need: Need) -> Option<usize>
        ensures { IfSome result (λ place. IsGuardAt self.now.guards.items place guard self.now.here need) }
    {
        let mut next = found(&self.last_guards, self.here);
        for _ in 0..self.guards.len() {
            let place = next?;
            let laid = self.guards.get(place)?;
            if is_same(laid, guard, self.here, need) {
                return Some(place);
            }
            next = laid.before;
        }
        None
    }

    /// Notes what must hold where a guard of a slot lets a block run go on. Gives the guard's place among all.
    fn note_guard(&mut self, guard: Guard, need: Need) -> Result<usize, LinkFault>
        ensures noted { IfOk result (λ place. IsGuardAt self.new.guards.items place guard self.old.here need) }
        ensures kept { KeepsGuards self.old.guards.items self.new.guards.items }
        ensures pieces { self.new.pieces ≡ self.old.pieces }
        ensures slots { self.new.slots ≡ self.old.slots }
        ensures here { self.new.here ≡ self.old.here }
    {
        if let Some(place) = self.found_guard(guard, need) {
            return Ok(place);
        }
        let number = self.guards.len();
        let slot = self.here;
        let before = found(&self.last_guards, slot);
        let place = GuardPlace { slot, need };
        self.guards.extend_from_slice(&[LaidGuard {
            guard,
            place,
            before,
        }])?;
        set(&mut self.last_guards, slot, number);
        Ok(number)
    }

    /// Notes that a guard always ends the block run here, where nothing goes on behind it.
    pub(crate) fn note_unless(&mut self, goes_on: bool, need: Need)
        ensures pieces { self.new.pieces ≡ self.old.pieces }
        ensures slots { self.new.slots ≡ self.old.slots }
        ensures guards { self.new.guards ≡ self.old.guards }
        ensures here { self.new.here ≡ self.old.here }
    {
        if !goes_on {
            self.note_end(need);
        }
    }

    /// Notes that a guard always ends the block run here.
    pub(crate) fn note_end(&mut self, need: Need)
        ensures pieces { self.new.pieces ≡ self.old.pieces }
        ensures slots { self.new.slots ≡ self.old.slots }
        ensures guards { self.new.guards ≡ self.old.guards }
        ensures here { self.new.here ≡ self.old.here }
    {
        if let Some(found) = self.ended.get_mut(self.here) {
            *found = Some(need);
        }
    }

    /// The first slot that is never come to, though what is before it is, since a guard always ends the block run; of those that were given.
    pub(crate) fn first_ended(&self) -> Option<GuardPlace> {
        for slot in 0..self.slots.len() {
            if let (Some(Some(need)), Some(false)) = (self.ended.get(slot), self.passed.get(slot)) {
                return Some(GuardPlace {
                    slot: number_at(self.origins, slot),
                    need: *need,
                });
            }
        }
        None
    }

    /// Puts a jump to where a slot begins next.
    pub(crate) fn push_jump(&mut self, jump: Instruction, to: usize) -> Result<(), LinkFault>
        ensures pushed { IfOk result (λ _. self.new.pieces.items ≡ self.old.pieces.items ++ (Jump jump to ∷ [])) }
        ensures slots { self.new.slots ≡ self.old.slots }
        ensures guards { self.new.guards ≡ self.old.guards }
        ensures own { self.new.own ≡ self.old.own }
        ensures mark { self.new.mark ≡ self.old.mark }
    {
        self.push(Piece::Jump(jump, to))
    }

    /// What stands at a slot begins here.
    pub(crate) fn push_begin(&mut self, slot: usize) -> Result<(), LinkFault>
        ensures pushed { IfOk result (λ _. self.new.pieces.items ≡ self.old.pieces.items ++ (Begins slot ∷ [])) }
        ensures slots { self.new.slots ≡ self.old.slots }
        ensures guards { self.new.guards ≡ self.old.guards }
        ensures own { self.new.own ≡ self.old.own }
        ensures mark { self.new.mark ≡ self.old.mark }
    {
        self.push(Piece::Begins(slot))
    }

    /// Lets a slot be come to, where this is known.
    pub(crate) fn give(
        &mut self,
        from: usize,
        to: i64,
        known: Box<Known>,
    ) -> Result<(), LinkFault> {
        self.note_way(from, to);
        if to < 0 {
            return Err(LinkFault::Leaves(0));
        }
        match self.rows.get_mut(to as usize) {
            Some(row) => {
                add(row, known);
                Ok(())
            }
            None => Err(LinkFault::Leaves(to as usize)),
        }
    }

    /// What is known at a slot that is come to.
    pub(crate) fn take(&mut self, slot: usize) -> Row {
        match self.rows.get_mut(slot) {
            Some(row) => row.take(),
            None => None,
        }
    }

    fn is_waiting(&self, slot: usize) -> bool {
        match self.rows.get(slot) {
            Some(row) => row.is_some(),
            None => false,
        }
    }

    /// The first slot of these that is to be come to.
    fn first_waiting(&self, from: usize, end: usize) -> Option<usize> {
        for slot in from..end.min(self.rows.len()) {
            if self.is_waiting(slot) {
                return Some(slot);
            }
        }
        None
    }

    /// The slot that is laid out behind one: the next that is to be come to in the innermost loop, else that loop's first, else the next
    /// in the loop around it.
    pub(crate) fn next(&self, slot: usize) -> Option<usize> {
        let mut from = slot.saturating_add(1);
        let mut head = self.loops.innermost(slot);
        for _ in 0..self.rows.len() {
            let Some(first) = head else {
                break;
            };
            let end = self.loops.end(first).saturating_add(1);
            if let Some(found) = self.first_waiting(from, end) {
                return Some(found);
            }
            if self.is_waiting(first) {
                return Some(first);
            }
            from = end.max(from);
            head = self.loops.around(first);
        }
        self.first_waiting(from, self.rows.len())
    }

    /// Puts a jump to a slot, where it isn't the next that is laid out.
    pub(crate) fn lead(&mut self, slot: usize, to: i64) -> Result<(), LinkFault> {
        if to >= 0 && self.next(slot) != Some(to as usize) {
            return self.push_jump(Instruction::Jump { distance: 0 }, to as usize);
        }
        Ok(())
    }

    /// Keeps the addresses that guards use.
    fn keep_addresses(&mut self, known: &mut Known) -> Result<(), LinkFault> {
        let (block, scratch) = (self.cell(0), self.cell(1));
        self.put(known, stored(Register::R2, block))?;
        self.put(known, stored(Register::R3, scratch))?;
        if self.has_marks() {
            let context = self.cell(3);
            self.put(known, stored(Register::R1, context))?;
        }
        Ok(())
    }

    /// Is there room for what guards use that write?
    pub(crate) fn has_marks(&self) -> bool {
        self.own <= STACK_BYTES - CELLS_BYTES && !self.is_silent()
    }

    /// The slot that the jump back to where a loop begins was made of.
    pub(crate) fn back(&self, first: usize) -> usize {
        number_at(self.origins, self.loops.back(self.slots, first))
    }

    /// What is told of a program that has more pieces than are looked at.
    fn too_long(&self, slot: usize) -> LinkFault {
        let count = self.pieces.len();
        match self.loops.innermost(slot) {
            Some(first) => LinkFault::Loop {
                back: self.back(first),
                rounds: number_at(&self.rounds, first),
                count,
            },
            None => LinkFault::TooLong {
                count,
                widest: None,
            },
        }
    }

    /// Counts a round of the loop that begins at a slot: the first, where it is come to from outside.
    fn count_round(&mut self, slot: usize) {
        let is_inside = slot <= self.before && self.before <= self.loops.end(slot);
        let rounds = if is_inside {
            number_at(&self.rounds, slot).saturating_add(1)
        } else {
            1
        };
        set_number(&mut self.rounds, slot, rounds);
        if !is_inside {
            self.forget_ways(slot);
        }
        self.before = slot;
    }

    /// Is the loop that begins at a slot laid out as far as planned? One that can't be left before is laid out to its end.
    fn is_over(&self, slot: usize) -> bool {
        let leaves = matches!(self.leaves.get(slot), Some(true));
        leaves
            && self.loops.begins(slot)
            && number_at(&self.rounds, slot) > number_at(self.caps, slot)
    }

    /// Ends the block run where a loop would go round once more. Gives the guard's place among all.
    fn cut(&mut self, slot: usize) -> Result<usize, LinkFault>
        ensures { IfOk result (λ place. IsCut self.old self.new slot place) }
    {
        let need = Need::Rounds(number_at(self.caps, slot));
        set_answer(&mut self.is_cut, slot, true);
        self.push_begin(slot)?;
        self.here = slot;
        let place = self.push_guard(Instruction::Jump { distance: 0 }, Guard::Rounds, need)?;
        Ok(place)
    }

    /// Forgets whether the loop that begins at a slot was left.
    fn forget_ways(&mut self, slot: usize) {
        set_answer(&mut self.leaves, slot, false);
    }

    /// Notes which loops are left from a slot to another one.
    fn note_way(&mut self, slot: usize, to: i64) {
        let mut head = self.loops.innermost(slot);
        for _ in 0..self.rows.len() {
            let Some(first) = head else {
                break;
            };
            if self.loops.has(first, to) {
                break;
            }
            set_answer(&mut self.leaves, first, true);
            head = self.loops.around(first);
        }
    }

    /// The loops that aren't laid out to their ends.
    pub(crate) fn cuts(&self, alloc: Global) -> Result<Vec<Cut>, AllocError> {
        let mut cuts = Vec::new(alloc);
        for (slot, is_cut) in self.is_cut.iter().enumerate() {
            if *is_cut {
                let rounds = number_at(self.caps, slot);
                let back = self.back(slot);
                cuts.extend_from_slice(&[Cut { back, rounds }])?;
            }
        }
        Ok(cuts)
    }

    /// Makes room for what is known of each slot.
    fn make_lists(&mut self) -> Result<(), AllocError> {
        let count = self.slots.len();
        self.rounds.resize(count, 0)?;
        self.is_cut.resize(count, false)?;
        self.leaves.resize(count, false)?;
        self.last_guards.resize(count, None)?;
        self.ended.resize(count, None)?;
        self.passed.resize(count, false)
    }

    /// Lays all slots out.
    pub(crate) fn run(&mut self, alloc: Global) -> Result<(), LinkFault>
        ensures { IfOk result (λ _. EndsAll self.new) }
    {
        self.make_lists()?;
        let mut known = at_start(self.plan.scratch);
        if self.own <= 488 {
            self.keep_addresses(&mut known)?;
        }
        self.give(0, 0, boxed(alloc, known)?)?;
        let mut slot = 0;
        for _ in 0..MOST_PIECES {
            let Some(known) = self.take(slot) else {
                return Err(LinkFault::Leaves(slot));
            };
            self.count_round(slot);
            if self.is_over(slot) {
                self.cut(slot)?;
            } else {
                self.visit(alloc, slot, known)?;
            }
            match self.next(slot) {
                Some(next) => slot = next,
                None => return self.put_ends(),
            }
            if self.pieces.len() > MOST_PIECES {
                break;
            }
        }
        Err(self.too_long(slot))
    }
}

/// What is known, in a box.
pub(crate) fn boxed(alloc: Global, known: Known) -> Result<Box<Known>, AllocError> {
    match Box::new(alloc, known) {
        Ok(known) => Ok(known),
        Err(error) => Err(AllocError::from(error)),
    }
}

/// So many rows with nothing.
pub(crate) fn empty_rows(alloc: Global, count: usize) -> Result<Vec<Row>, AllocError> {
    let mut rows = Vec::new(alloc);
    for _ in 0..count {
        rows.push(None).map_err(AllocError::from)?;
    }
    Ok(rows)
}
