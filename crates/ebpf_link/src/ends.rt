//! The ends of block runs to which guards lead.

ghost use Rattle.std.specs.Prelude.{◌≡◌, ◌++◌, IfOk, length, map, min, pos, slice_get};
ghost use Rattle.ebpf_link.specs.Ends.{EndsAll, guard_end, is_of_kind, label_of, labels_of, mark_pieces, marked_ends, silent_end, silent_ends, told_end, told_ends};
ghost use Rattle.ebpf_link.specs.Marks.{IsPlaceOfMarks, mark_end};
ghost use Rattle.ebpf_link.specs.declared.pieces.Piece.TheVariants.{Plain};
ghost use Rattle.instruction_set.specs.declared.instruction.Instruction.TheVariants.{Load, StoreRegister};
ghost use Rattle.instruction_set.specs.declared.operation.Size.TheVariants.{Word};

use crate::fault::LinkFault;
use crate::guards::{Guard, loaded};
use crate::labels::{guard_label, mark_label};
use crate::layout::Layout;
use crate::marks::mark_place;
use crate::pieces::{Piece, compute};
use instruction_set::{Instruction, Operation, Register, Size, Source};

/// A store of a register into scratch, whose first address another register has.
fn marked(size: Size, dst: Register, offset: i16, src: Register) -> Instruction
    ensures { result ≡ StoreRegister size dst src offset }
{
    Instruction::StoreRegister {
        size,
        dst,
        src,
        offset,
    }
}

/// A load of the block's index in the run, where a register has the address of the context.
fn index_loaded(register: Register) -> Instruction
    ensures { result ≡ Load Word register register (pos 8) }
{
    Instruction::Load {
        size: Size::Word,
        dst: register,
        src: register,
        offset: 8,
    }
}

/// A byte of scratch as the offset of a store.
fn offset_of(at: usize) -> i16
    ensures { result ≡ pos (min at 1008) }
{
    at.min(1008) as i16
}

/// What writes a mark from a byte of scratch on, and ends the block run. R0 has the kind, the slot and the number of the guard; cells of
/// the stack have the addresses of the context and of scratch.
fn mark_end(context: i16, scratch: i16, at: usize) -> [Instruction; 14]
    ensures { result ≡ mark_end context scratch at }
{
    let (word, index, address) = (Register::R0, Register::R1, Register::R2);
    let from = offset_of(at);
    [
        loaded(index, context),
        index_loaded(index),
        loaded(address, scratch),
        marked(Size::DoubleWord, address, from + 8, index),
        compute(Operation::Move, index, Source::Register(word)),
        compute(Operation::And, index, Source::Immediate(0xffff)),
        marked(Size::Word, address, from, index),
        compute(Operation::RightShift, word, Source::Immediate(16)),
        compute(Operation::Move, index, Source::Register(word)),
        compute(Operation::And, index, Source::Immediate(0xfff)),
        marked(Size::Word, address, from + 4, index),
        compute(Operation::RightShift, word, Source::Immediate(12)),
        compute(Operation::Add, word, Source::Immediate(0x7000)),
        Instruction::Exit,
    ]
}

impl Layout<'_> {
    /// Ends a block run, for guards of a kind that write nothing.
    fn push_end(&mut self, guard: Guard) -> Result<(), LinkFault>
        ensures pushed { IfOk result (λ _. self.new.pieces.items ≡ self.old.pieces.items ++ guard_end guard) }
        ensures slots { self.new.slots ≡ self.old.slots }
        ensures guards { self.new.guards ≡ self.old.guards }
        ensures own { self.new.own ≡ self.old.own }
        ensures mark { self.new.mark ≡ self.old.mark }
    {
        let source = Source::Immediate(guard.word());
        self.push_plain(compute(Operation::Move, Register::R0, source))?;
        self.push_plain(Instruction::Exit)
    }

    /// Is the guard at a place among all of a kind?
    fn is_kind(&self, place: usize, guard: Guard) -> bool
        ensures { result ≡ is_of_kind guard (slice_get self.now.guards.items place) }
    {
        match self.guards.get(place) {
            Some(laid) => laid.guard.index() == guard.index(),
            None => false,
        }
    }

    /// The label of the guard at a place, if that is of a kind.
    fn push_label(&mut self, guard: Guard, place: usize) -> Result<(), LinkFault>
        ensures pushed { IfOk result (λ _. self.new.pieces.items
            ≡ self.old.pieces.items ++ label_of (length self.old.slots.now) self.old.guards.items guard place) }
        ensures slots { self.new.slots ≡ self.old.slots }
        ensures guards { self.new.guards ≡ self.old.guards }
        ensures own { self.new.own ≡ self.old.own }
        ensures mark { self.new.mark ≡ self.old.mark }
    {
        if self.is_kind(place, guard) {
            return self.push_begin(guard_label(self.slots, place));
        }
        Ok(())
    }

    /// The labels of the guards of a kind.
    fn push_labels(&mut self, guard: Guard) -> Result<(), LinkFault>
        ensures pushed { IfOk result (λ _. self.new.pieces.items ≡ self.old.pieces.items
            ++ labels_of (length self.old.slots.now) self.old.guards.items guard (length self.old.guards.items)) }
        ensures slots { self.new.slots ≡ self.old.slots }
        ensures guards { self.new.guards ≡ self.old.guards }
        ensures own { self.new.own ≡ self.old.own }
        ensures mark { self.new.mark ≡ self.old.mark }
    {
        for place in 0..self.guards.len() {
            self.push_label(guard, place)?;
        }
        Ok(())
    }

    /// The end to which guards of a kind lead that write nothing, if there are any.
    fn put_end(&mut self, guard: Guard) -> Result<(), LinkFault>
        ensures pushed { IfOk result (λ _. self.new.pieces.items
            ≡ self.old.pieces.items ++ silent_end (length self.old.slots.now) self.old.guards.items guard) }
        ensures slots { self.new.slots ≡ self.old.slots }
        ensures guards { self.new.guards ≡ self.old.guards }
        ensures own { self.new.own ≡ self.old.own }
        ensures mark { self.new.mark ≡ self.old.mark }
    {
        let before = self.pieces.len();
        self.push_labels(guard)?;
        if self.pieces.len() == before {
            return Ok(());
        }
        self.push_end(guard)
    }

    /// The ends to which guards lead that write nothing.
    fn put_silent_ends(&mut self) -> Result<(), LinkFault>
        ensures pushed { IfOk result (λ _. self.new.pieces.items
            ≡ self.old.pieces.items ++ silent_ends (length self.old.slots.now) self.old.guards.items) }
        ensures slots { self.new.slots ≡ self.old.slots }
        ensures guards { self.new.guards ≡ self.old.guards }
        ensures own { self.new.own ≡ self.old.own }
        ensures mark { self.new.mark ≡ self.old.mark }
    {
        self.put_end(Guard::Memory)?;
        self.put_end(Guard::Emit)?;
        self.put_end(Guard::Block)?;
        self.put_end(Guard::Rounds)
    }

    /// The end to which a guard leads: R0 gets its kind, its slot and its number.
    fn push_told(&mut self, place: usize) -> Result<(), LinkFault>
        ensures pushed { IfOk result (λ _. self.new.pieces.items
            ≡ self.old.pieces.items ++ told_end (length self.old.slots.now) (length self.old.guards.items) place) }
        ensures slots { self.new.slots ≡ self.old.slots }
        ensures guards { self.new.guards ≡ self.old.guards }
        ensures own { self.new.own ≡ self.old.own }
        ensures mark { self.new.mark ≡ self.old.mark }
    {
        self.push_begin(guard_label(self.slots, place))?;
        self.push(Piece::Told(place))?;
        if place.saturating_add(1) < self.guards.len() {
            return self.push_jump(Instruction::Jump { distance: 0 }, mark_label(self.slots));
        }
        Ok(())
    }

    /// The ends to which all guards lead: R0 gets what is told of each.
    fn push_all_told(&mut self) -> Result<(), LinkFault>
        ensures pushed { IfOk result (λ _. self.new.pieces.items ≡ self.old.pieces.items
            ++ told_ends (length self.old.slots.now) (length self.old.guards.items) (length self.old.guards.items)) }
        ensures slots { self.new.slots ≡ self.old.slots }
        ensures guards { self.new.guards ≡ self.old.guards }
        ensures own { self.new.own ≡ self.old.own }
        ensures mark { self.new.mark ≡ self.old.mark }
    {
        for place in 0..self.guards.len() {
            self.push_told(place)?;
        }
        Ok(())
    }

    /// Puts instructions that are no jumps.
    fn push_all(&mut self, instructions: &[Instruction]) -> Result<(), LinkFault>
        ensures pushed { IfOk result (λ _. self.new.pieces.items ≡ self.old.pieces.items ++ map Plain instructions.now) }
        ensures slots { self.new.slots ≡ self.old.slots }
        ensures guards { self.new.guards ≡ self.old.guards }
        ensures own { self.new.own ≡ self.old.own }
        ensures mark { self.new.mark ≡ self.old.mark }
    {
        for instruction in instructions {
            self.push_plain(*instruction)?;
        }
        Ok(())
    }

    /// What writes a mark from a byte of scratch on, and ends the block run.
    fn push_mark(&mut self, at: usize) -> Result<(), LinkFault>
        ensures pushed { IfOk result (λ _. self.new.pieces.items
            ≡ self.old.pieces.items ++ mark_pieces (length self.old.slots.now) self.old.own at) }
        ensures slots { self.new.slots ≡ self.old.slots }
        ensures guards { self.new.guards ≡ self.old.guards }
        ensures own { self.new.own ≡ self.old.own }
        ensures mark { self.new.mark ≡ self.old.mark }
    {
        let context = self.cell(3);
        let scratch = self.cell(1);
        let instructions = mark_end(context, scratch, at);
        self.push_begin(mark_label(self.slots))?;
        self.push_all(&instructions)?;
        Ok(())
    }

    /// The ends to which guards lead that write from a byte of scratch on.
    fn put_marks(&mut self, at: usize) -> Result<(), LinkFault>
        ensures pushed { IfOk result (λ _. self.new.pieces.items ≡ self.old.pieces.items
            ++ marked_ends (length self.old.slots.now) (length self.old.guards.items) self.old.own at) }
        ensures slots { self.new.slots ≡ self.old.slots }
        ensures guards { self.new.guards ≡ self.old.guards }
        ensures own { self.new.own ≡ self.old.own }
        ensures mark { self.new.mark ≡ self.old.mark }
    {
        if !self.has_marks() {
            return Err(LinkFault::NoStack(self.own));
        }
        self.uses_context = true;
        self.uses_scratch = true;
        self.push_all_told()?;
        self.push_mark(at)
    }

    /// Where guards write, if there are any that do.
    #[tactic(auto, using(crate::proofs::MarkPlaces::no_guards, crate::proofs::MarkPlaces::some_guards))]
    fn place_of_marks(&self) -> Result<Option<usize>, LinkFault>
        ensures { IfOk result (λ found. IsPlaceOfMarks self.now.guards.items self.now.target.marks self.now.stored found) }
    {
        if self.guards.len() == 0 {
            return Ok(None);
        }
        let found = mark_place(self.target.marks, self.stored)?;
        Ok(found)
    }

    /// The ends to which guards lead.
    pub(crate) fn put_ends(&mut self) -> Result<(), LinkFault>
        ensures ends { IfOk result (λ _. EndsAll self.new) }
        ensures place { IfOk result (λ _. IsPlaceOfMarks self.old.guards.items self.old.target.marks self.old.stored self.new.mark) }
    {
        let place = self.place_of_marks()?;
        self.mark = place;
        match place {
            Some(at) => {
                self.put_marks(at)?;
                Ok(())
            }
            None => {
                self.put_silent_ends()?;
                Ok(())
            }
        }
    }
}
