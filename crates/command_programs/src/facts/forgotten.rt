//! Where an instruction makes a word of an address that is known as an address no more.

use super::told::Told;
use accepted_programs::{CELL_BYTES, Facts};
use instruction_set::{Instruction, Operation, Register, Size, Source, Width};
use program_interface::{Area, CLEARED_REGISTERS};
use program_meaning::Arithmetic;
use std::fmt;
use word_domain::{Bounds, Domain, Offsets};

/// Why a word that is made of an address isn't known as one.
#[derive(Clone, Copy)]
pub(crate) enum Cause {
    /// Another operation than MOV, ADD and SUB at 64 bits.
    Operation,
    /// An address is added to it, or subtracted.
    Address,
    /// A number is added to it, or subtracted, that may or may not be negative: its bounds have no one sign.
    EitherSign,
    /// It may be farther from its area's first byte than is known of addresses.
    Far,
}

impl fmt::Display for Cause {
    fn fmt<W: fmt::Write>(&self, f: &mut fmt::Formatter<W>) -> fmt::Result {
        f.write_str(match *self {
            Cause::Operation => "only mov, add and sub of 64 bits keep an address",
            Cause::Address => "an address is added or subtracted",
            Cause::EitherSign => "nothing bounds the number below 2^63",
            Cause::Far => "it may be over 2^20 bytes away",
        })
    }
}

/// An address that is forgotten.
#[derive(Clone, Copy)]
pub(crate) struct Forgotten {
    /// What was known of it.
    pub(crate) address: Offsets,
    /// The register with the word that is made of it.
    pub(crate) register: Register,
    /// Why that isn't known as an address.
    pub(crate) cause: Cause,
}

/// An instruction that computes, with what is known of the words that it takes.
#[derive(Clone, Copy)]
struct Computed<D> {
    register: Register,
    arithmetic: Arithmetic,
    first: D,
    second: D,
}

impl<D: Domain> Computed<D> {
    /// What is known of the word that it makes.
    fn word(&self) -> D {
        D::alu(self.arithmetic, self.first, self.second)
    }

    /// The address that it takes, if what it makes of it isn't known as one. A difference of two addresses that is known is a
    /// number, and none is forgotten.
    fn forgotten(&self) -> Option<Forgotten> {
        let address = self.first.offsets().or(self.second.offsets())?;
        let cause = cause_of(self.arithmetic, Told::of(self.first), Told::of(self.second));
        match (Told::of(self.word()), cause) {
            (Told::Address(_), _) => None,
            (number, Cause::Address) if !number.is_any() => None,
            _ => Some(Forgotten {
                address,
                register: self.register,
                cause,
            }),
        }
    }
}

/// Why no address is known of what is computed of these, where one of them is one.
fn cause_of(arithmetic: Arithmetic, first: Told, second: Told) -> Cause {
    match arithmetic {
        Arithmetic::Binary {
            width: Width::Bits64,
            operation: Operation::Add,
        } => cause_of_sum(first, second),
        Arithmetic::Binary {
            width: Width::Bits64,
            operation: Operation::Subtract,
        } => cause_of_difference(second),
        _ => Cause::Operation,
    }
}

/// Why a sum with an address isn't known as one.
fn cause_of_sum(first: Told, second: Told) -> Cause {
    match (first, second) {
        (Told::Words(words), _) | (_, Told::Words(words)) => cause_of_number(words),
        _ => Cause::Address,
    }
}

/// Why a difference, from an address or of one, isn't known as one.
fn cause_of_difference(second: Told) -> Cause {
    match second {
        Told::Words(words) => cause_of_number(words),
        Told::Address(_) => Cause::Address,
    }
}

/// Why an address isn't known as one any more where a number between these bounds is added or subtracted.
fn cause_of_number(words: Bounds) -> Cause {
    if words.high < 1 << 63 || words.low >= 1 << 63 {
        Cause::Far
    } else {
        Cause::EitherSign
    }
}

/// An instruction that computes, and what is known of the words that it takes. Where it takes one alone, 0 stands for the other.
fn computed_by<D: Domain>(instruction: &Instruction, facts: &Facts<D>) -> Option<Computed<D>> {
    let zero = D::constant(0);
    let (register, arithmetic, first, second) = match *instruction {
        Instruction::Arithmetic {
            width,
            operation,
            dst,
            source,
        } => {
            let arithmetic = Arithmetic::Binary { width, operation };
            let first = match operation {
                Operation::Move => zero,
                _ => facts.get(dst),
            };
            (dst, arithmetic, first, source_of(source, facts))
        }
        Instruction::Negate { width, dst } => {
            (dst, Arithmetic::Negate { width }, facts.get(dst), zero)
        }
        Instruction::MoveSigned {
            extension,
            dst,
            src,
        } => (
            dst,
            Arithmetic::MoveSigned { extension },
            zero,
            facts.get(src),
        ),
        Instruction::SwapBytes { swap, size, dst } => {
            let arithmetic = Arithmetic::SwapBytes { swap, size };
            (dst, arithmetic, facts.get(dst), zero)
        }
        _ => return None,
    };
    Some(Computed {
        register,
        arithmetic,
        first,
        second,
    })
}

/// What is known of the source of an arithmetic instruction.
fn source_of<D: Domain>(source: Source, facts: &Facts<D>) -> D {
    match source {
        Source::Register(register) => facts.get(register),
        Source::Immediate(value) => D::constant(Instruction::immediate_word(value)),
    }
}

/// The address that an instruction takes, if it computes from one what isn't known as an address.
pub(crate) fn forgotten_by<D: Domain>(
    instruction: &Instruction,
    facts: &Facts<D>,
) -> Option<Forgotten> {
    computed_by(instruction, facts)?.forgotten()
}

/// What an instruction leaves in a register, on the way to the slot behind it, where it is no jump.
pub(crate) fn left_in<D: Domain>(
    register: Register,
    instruction: &Instruction,
    facts: &Facts<D>,
) -> D {
    match *instruction {
        Instruction::Call { .. } if register.index() < CLEARED_REGISTERS => D::constant(0),
        _ if !instruction.writes(register) => facts.get(register),
        Instruction::Load {
            size: Size::DoubleWord,
            src,
            offset,
            ..
        } => match word_at(src, offset, facts) {
            Some((_, Some(known))) => known,
            _ => D::any(),
        },
        _ => match computed_by(instruction, facts) {
            Some(computed) => computed.word(),
            None => D::any(),
        },
    }
}

/// The distance of the word of the stack that an instruction loads whole, if nothing is known of it.
pub(crate) fn unknown_word<D: Domain>(
    instruction: &Instruction,
    facts: &Facts<D>,
) -> Option<usize> {
    let Instruction::Load {
        size: Size::DoubleWord,
        src,
        offset,
        ..
    } = *instruction
    else {
        return None;
    };
    match word_at(src, offset, facts)? {
        (distance, None) => Some(distance),
        _ => None,
    }
}

/// The distance of the word of the stack at an offset from a register, and what is known of it, if it is one.
fn word_at<D: Domain>(
    register: Register,
    offset: i16,
    facts: &Facts<D>,
) -> Option<(usize, Option<D>)> {
    let told = facts.get(register).offsets()?;
    let distance = told.low.checked_add(i64::from(offset))?;
    let byte = usize::try_from(distance).ok()?;
    let known = facts.cells.get(byte / CELL_BYTES)?;
    if matches!(told.area, Area::Stack) && told.low == told.high && byte % CELL_BYTES == 0 {
        Some((byte, *known))
    } else {
        None
    }
}
