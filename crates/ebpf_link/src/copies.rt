//! Registers in place of others, of which more is known: copies, and such to which a number was added.

ghost use Rattle.std.specs.Prelude.{true, ◌≡◌, ◌≤◌, ◌^◌, pos};
ghost use Rattle.ebpf_link.specs.Copies.{IsMadeWithin, made_again};

use crate::fault::LinkFault;
use crate::guards::ends_row;
use crate::known::Known;
use crate::layout::Layout;
use crate::liveness::{bit, reads};
use crate::pieces::compute;
use instruction_set::{Instruction, Operation, Register, Source, Width};
use program_interface::REGISTERS;
use word_domain::{Bounds, Domain};

/// The most that a number is worth a copy for.
const WORTH: u64 = 1 << 20;

/// A register from which another one is made again, and what is added to it.
#[derive(Clone, Copy)]
struct Copied {
    from: Register,
    more: i32,
}

/// A small word as a signed number.
fn signed(word: u64) -> i64
    requires { word ≤ 2 ^ 20 }
    ensures { result ≡ pos word }
{
    word as i64
}

/// Is each word within bounds, with a number added to it, nothing below 0 and at most so much?
fn is_made_within(bounds: Bounds, more: i32, most: u64) -> bool
    ensures { result ≡ true → IsMadeWithin bounds more most }
{
    if bounds.high > WORTH || bounds.low > bounds.high {
        return false;
    }
    let more = i64::from(more);
    let (low, high) = (signed(bounds.low) + more, signed(bounds.high) + more);
    if low < 0 || high > signed(most.min(WORTH)) {
        return false;
    }
    true
}

/// What is made of a register by adding a number, if that is nothing below 0 and at most so much.
fn made_of(known: &Known, from: Register, more: i32, most: u64) -> Option<Copied> {
    if is_made_within(known.get(from).bounds(), more, most) {
        Some(Copied { from, more })
    } else {
        None
    }
}

/// What makes a register again.
fn made_again(register: Register, copied: Copied) -> [Instruction; 2]
    ensures { result ≡ made_again register copied.from copied.more }
{
    let Copied { from, more } = copied;
    [
        compute(Operation::Move, register, Source::Register(from)),
        compute(Operation::Add, register, Source::Immediate(more)),
    ]
}

/// A copy of a register, or one that it is a copy of, by which it is known to be at most so much.
fn by_other(known: &Known, register: Register, other: Register, most: u64) -> Option<Copied> {
    let is_part = known.get(other).bounds().high < 0x1_0000_0000;
    if let Some(twin) = known.twins[register.index()] {
        if twin.register == other && (twin.is_whole || is_part) {
            return made_of(known, other, twin.more, most);
        }
    }
    if let Some(twin) = known.twins[other.index()] {
        if twin.register == register && twin.is_whole {
            return made_of(known, other, twin.more.wrapping_neg(), most);
        }
    }
    None
}

/// A register by which another one is known to be at most so much, where that isn't known of itself.
fn better_copy(known: &Known, register: Register, most: u64) -> Option<Copied> {
    let fact = known.get(register);
    if fact.offsets().is_some() || fact.bounds().high <= most {
        return None;
    }
    for j in 0..REGISTERS {
        let other = Register::from_number(j as u8);
        if other != register {
            if let Some(found) = by_other(known, register, other, most) {
                return Some(found);
            }
        }
    }
    None
}

/// The two registers of a sum of words.
fn added_registers(instruction: &Instruction) -> Option<(Register, Register)> {
    match *instruction {
        Instruction::Arithmetic {
            width: Width::Bits64,
            operation: Operation::Add,
            dst,
            source: Source::Register(src),
        } => Some((dst, src)),
        _ => None,
    }
}

/// How far behind an address bytes are accessed or emitted.
#[derive(Clone, Copy)]
struct Reach {
    /// The register that has it.
    base: Register,
    /// What was added to the address.
    added: i64,
    /// How many bytes behind it, at least one.
    most: i64,
    /// How many bytes are emitted.
    length: i64,
}

/// Counts what an instruction accesses or emits by a register. False where it is the last that surely does.
fn count_reach(reach: &mut Reach, instruction: &Instruction) -> bool {
    let base = reach.base;
    if let Some(access) = instruction.access() {
        if access.base == base {
            let end = i64::from(access.offset).wrapping_add(i64::from(access.size));
            reach.most = end.wrapping_add(reach.added).max(reach.most);
        }
    }
    match *instruction {
        Instruction::Call { .. } if base == Register::R1 => {
            reach.most = reach.added.wrapping_add(reach.length).max(reach.most);
            false
        }
        Instruction::Arithmetic {
            width: Width::Bits64,
            operation: Operation::Move,
            dst,
            source: Source::Register(src),
        } if dst == Register::R1 && src == base => {
            reach.base = Register::R1;
            true
        }
        Instruction::Arithmetic {
            operation: Operation::Move,
            dst,
            source: Source::Immediate(number),
            ..
        } if dst == Register::R2 && base != Register::R2 => {
            reach.length = i64::from(number);
            true
        }
        Instruction::Arithmetic {
            width: Width::Bits64,
            operation: Operation::Add,
            dst,
            source: Source::Immediate(number),
        } if dst == base => {
            reach.added = reach.added.wrapping_add(i64::from(number));
            true
        }
        _ => !ends_row(instruction, base),
    }
}

impl Layout<'_> {
    /// How many bytes behind the address in a register are surely accessed or emitted from a slot on; at least one.
    fn reach(&self, slot: usize, base: Register) -> i64 {
        let mut reach = Reach {
            base,
            added: 0,
            most: 1,
            length: 0,
        };
        for later in slot..self.slots.len() {
            if let Some(Some(instruction)) = self.slots.get(later) {
                if !count_reach(&mut reach, instruction) {
                    break;
                }
            }
        }
        reach.most
    }

    /// How much may be added to an address in a register, so that what is accessed behind it lies in its area.
    fn room(&self, known: &Known, slot: usize, address: Register, base: Register) -> Option<u64> {
        let told = known.get(address).offsets()?;
        let length = told.area.length(self.target.block.bytes() as usize);
        let room = (length.min(0x1_0000) as i64)
            .wrapping_sub(told.high)
            .wrapping_sub(self.reach(slot, base));
        if room >= 0 && room < WORTH as i64 {
            Some(room as u64)
        } else {
            None
        }
    }

    /// The most that a register should be known to be for what an instruction at a slot does.
    fn wanted(&self, known: &Known, slot: usize, instruction: &Instruction, read: Register) -> u64 {
        let Some((dst, src)) = added_registers(instruction) else {
            return WORTH;
        };
        let address = if read == dst { src } else { dst };
        let behind = slot.saturating_add(1);
        self.room(known, behind, address, dst).unwrap_or(WORTH)
    }

    /// Puts copies in place of registers that an instruction reads, of which more is known.
    pub(crate) fn put_copies(
        &mut self,
        known: &mut Known,
        slot: usize,
        instruction: &Instruction,
    ) -> Result<(), LinkFault> {
        let read = reads(instruction);
        for number in 0..10u8 {
            let register = Register::from_number(number);
            if (read & bit(register)) == 0 {
                continue;
            }
            let most = self.wanted(known, slot, instruction, register);
            if let Some(copied) = better_copy(known, register, most) {
                for instruction in made_again(register, copied) {
                    self.put(known, instruction)?;
                }
            }
        }
        Ok(())
    }
}
