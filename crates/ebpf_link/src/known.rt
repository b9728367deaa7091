//! What is known where a slot is come to: the facts of a verifier, by the same domain. Nothing rests on these being true: the program
//! that is made is judged like any other.

ghost use Rattle.std.specs.Prelude.{◌≡◌, if◌then◌else◌};
ghost use Rattle.accepted_programs.specs.Facts.{compared_fact, fact, source_fact, with_fact};
ghost use Rattle.ebpf_link.specs.Deciding.{edge};
ghost use Rattle.interval_domain.specs.Intervals.{intervals};

use crate::area_sets::{AreaSet, NO_AREA};
use crate::constants::{WORDS, Words, join_words, store_words};
use crate::fields::{Fields, NO_FIELDS, fields_behind, join_fields};
use crate::origins::{Areas, CellAreas, Twins, join_origins, step_origins};
use crate::stack::{join_cells, load, store};
use accepted_programs::Facts;
use instruction_set::{Instruction, Register, Size, Source, Width};
use interval_domain::Intervals;
use program_interface::{Area, CLEARED_REGISTERS, FRAME_LENGTH_BYTES, REGISTERS, STACK_BYTES};
use program_meaning::Arithmetic;
use word_domain::Domain;

/// What is known.
#[derive(Clone, Copy)]
pub(crate) struct Known {
    /// What a verifier knows.
    pub facts: Facts<Intervals>,
    /// The fields of the block that registers have.
    pub fields: Fields,
    /// The numbers that the stack has.
    pub words: Words,
    /// The areas of addresses.
    pub areas: Areas,
    /// And of those in cells of the stack.
    pub cell_areas: CellAreas,
    /// And of those anywhere in scratch.
    pub scratch: AreaSet,
    /// Copies.
    pub twins: Twins,
    /// Was the block's size compared with the one that the program is made for?
    pub is_sized: bool,
}

impl Known {
    /// The fact about a register.
    pub fn get(&self, register: Register) -> Intervals
        ensures { result ≡ fact intervals self.now.facts register }
    {
        self.facts.get(register)
    }

    /// Replaces the fact about a register.
    pub fn set(&mut self, register: Register, fact: Intervals)
        ensures { self.new.facts ≡ with_fact intervals self.old.facts register fact }
    {
        self.facts.set(register, fact);
    }
}

/// What is known at the start of a block run, where scratch may have addresses in these areas.
pub(crate) fn at_start(scratch: AreaSet) -> Known {
    let zero = Intervals::constant(0);
    Known {
        facts: Facts {
            registers: [
                zero,
                Intervals::pointer(Area::Context, 0),
                Intervals::pointer(Area::Block, 0),
                Intervals::pointer(Area::Scratch, 0),
                zero,
                zero,
                zero,
                zero,
                zero,
                zero,
                Intervals::pointer(Area::Stack, STACK_BYTES as u32),
            ],
            cells: [None; accepted_programs::CELLS],
            emitted: 0,
            sum: None,
            fit: None,
        },
        fields: NO_FIELDS,
        words: [Some(0); WORDS],
        areas: [NO_AREA; REGISTERS],
        cell_areas: [NO_AREA; accepted_programs::CELLS],
        scratch,
        twins: [None; REGISTERS],
        is_sized: false,
    }
}

/// Joins what is known on another way.
pub(crate) fn join(known: &mut Known, other: &Known) {
    join_origins(known, other);
    for j in 0..REGISTERS {
        let joined = known.facts.registers[j].join(other.facts.registers[j]);
        known.facts.registers[j] = joined;
    }
    join_cells(&mut known.facts.cells, &other.facts.cells);
    known.facts.emitted = known.facts.emitted.max(other.facts.emitted);
    join_fields(&mut known.fields, &other.fields);
    join_words(&mut known.words, &other.words);
    known.is_sized = known.is_sized && other.is_sized;
}

/// The fact of a second operand.
pub(crate) fn source_fact(known: &Known, source: Source) -> Intervals
    ensures { result ≡ source_fact intervals known.now.facts source }
{
    match source {
        Source::Register(register) => known.get(register),
        Source::Immediate(value) => Intervals::constant(Instruction::immediate_word(value)),
    }
}

/// The fact of a second operand of a compare.
pub(crate) fn compared(width: Width, known: &Known, source: Source) -> Intervals
    ensures { result ≡ compared_fact intervals width known.now.facts source }
{
    match (source, width) {
        (Source::Immediate(value), Width::Bits32) => {
            Intervals::constant(Instruction::immediate_word(value) % 0x1_0000_0000)
        }
        _ => source_fact(known, source),
    }
}

/// Narrows what is known to what it is along an edge of a compare. False where there is no such edge.
pub(crate) fn narrow(known: &mut Known, branch: &Instruction, taken: bool) -> bool
    ensures { edge known.old.facts branch.now taken ≡ (if result then Some known.new.facts else None) }
{
    let Instruction::Branch {
        width,
        relation,
        dst,
        source,
        ..
    } = *branch
    else {
        return true;
    };
    // intervals track no sums
    known.facts.fit = None;
    let same = source == Source::Register(dst);
    let second = compared(width, known, source);
    match Intervals::refine(width, relation, taken, known.get(dst), second, same) {
        Some((first, second)) => {
            known.set(dst, first);
            if let Source::Register(register) = source {
                known.set(register, second);
            }
            true
        }
        None => false,
    }
}

/// What a call leaves known.
fn emit(known: &mut Known) {
    let most = known.get(Register::R2).bounds().high;
    let most = most.min(0x1_0000_0000) as usize;
    for j in 0..CLEARED_REGISTERS {
        known.facts.registers[j] = Intervals::constant(0);
    }
    known.facts.emitted = known
        .facts
        .emitted
        .saturating_add(FRAME_LENGTH_BYTES)
        .saturating_add(most);
}

/// What an instruction writes to its destination.
fn written(known: &Known, instruction: &Instruction) -> Option<(Register, Intervals)> {
    let (dst, arithmetic, first, second) = match *instruction {
        Instruction::LoadImmediate { dst, value } => {
            return Some((dst, Intervals::constant(value)));
        }
        Instruction::Load {
            size: Size::DoubleWord,
            dst,
            src,
            offset,
        } => return Some((dst, load(known, src, offset))),
        Instruction::Load { size, dst, .. } => return Some((dst, Intervals::loaded(size))),
        Instruction::LoadSigned { size, dst, .. } => {
            return Some((dst, Intervals::loaded_signed(size)));
        }
        Instruction::Arithmetic {
            width,
            operation,
            dst,
            source,
        } => {
            let arithmetic = Arithmetic::Binary { width, operation };
            (dst, arithmetic, known.get(dst), source_fact(known, source))
        }
        Instruction::Negate { width, dst } => {
            let arithmetic = Arithmetic::Negate { width };
            (dst, arithmetic, known.get(dst), Intervals::constant(0))
        }
        Instruction::MoveSigned {
            extension,
            dst,
            src,
        } => {
            let arithmetic = Arithmetic::MoveSigned { extension };
            (dst, arithmetic, Intervals::constant(0), known.get(src))
        }
        Instruction::SwapBytes { swap, size, dst } => {
            let arithmetic = Arithmetic::SwapBytes { swap, size };
            (dst, arithmetic, known.get(dst), Intervals::constant(0))
        }
        _ => return None,
    };
    Some((dst, Intervals::alu(arithmetic, first, second)))
}

/// The number that a register is known to have.
fn number_of(known: &Known, register: Register) -> Option<u64> {
    let bounds = known.get(register).bounds();
    if bounds.low == bounds.high {
        Some(bounds.low)
    } else {
        None
    }
}

/// Changes what is known to what is behind an instruction that isn't a jump.
pub(crate) fn step(known: &mut Known, instruction: &Instruction) {
    let fields = fields_behind(known, instruction);
    known.fields = fields;
    step_origins(known, instruction);
    match *instruction {
        Instruction::StoreImmediate {
            size,
            dst,
            offset,
            value,
        } => {
            store_words(
                known,
                size,
                dst,
                offset,
                Some(Instruction::immediate_word(value)),
            );
            store(known, size, dst, offset, None);
        }
        Instruction::StoreRegister {
            size,
            dst,
            src,
            offset,
        } => {
            let word = if 1 <= src.index() && src.index() <= 9 {
                Some(known.get(src))
            } else {
                None
            };
            store_words(known, size, dst, offset, number_of(known, src));
            store(known, size, dst, offset, word);
        }
        Instruction::Call { .. } => emit(known),
        _ => {
            if let Some((dst, fact)) = written(known, instruction) {
                known.set(dst, fact);
            }
        }
    }
}
