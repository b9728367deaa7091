//! Instructions that are refused: the numbers of the reason, and what is known of the registers.

ghost use Rattle.std.specs.Prelude.{◌<◌};
ghost use Rattle.program_interface.specs.declared.TheConstants.{MOST_SLOTS};

use crate::facts::{ReadRegister, Told, read_registers};
use accepted_programs::{Facts, Reason};
use instruction_set::{Access, Instruction, Register};
use program_interface::{Area, RunSizes};
use word_domain::{Bounds, Domain, Offsets};

/// An instruction that is refused, of a program of so many slots, the reason, and what is known at its slot.
#[derive(Drop)]
pub(crate) struct RefusedInstruction {
    pub(crate) slots: usize,
    pub(crate) slot: usize,
    pub(crate) instruction: Instruction,
    pub(crate) reason: Reason,
    pub(crate) sizes: RunSizes,
    pub(crate) known: Known,
    ghost within: { slot < MOST_SLOTS },
}

/// What is known where an instruction is.
#[derive(Clone, Copy)]
pub(crate) struct Known {
    /// Of the registers that it reads: where it accesses memory or emits, the first is the one with the address.
    pub(crate) registers: [Option<ReadRegister>; 2],
    /// How many bytes the group has at most.
    emitted: u64,
    /// The greatest word of R2.
    record: u64,
}

/// What is wrong with an instruction, in the numbers of its reason.
#[derive(Clone, Copy)]
pub(crate) enum Detail {
    /// The reason says all by itself.
    Plain,
    /// A jump leads to this slot.
    Target(i128),
    /// An access of so many bytes, and where its register has to point for that; `None` where the register isn't known to be
    /// an address. An emit's address is one of no bytes.
    Address {
        base: Register,
        bytes: u8,
        allowed: Option<Offsets>,
    },
    /// A store through a register that leads to what a program can only read.
    ReadOnly {
        base: Register,
        bytes: u8,
    },
    /// A call of this helper.
    Helper(i32),
    /// How many bytes are known to lie from R1 on, none where it is 0 or less; `None` where R1 isn't known to be an address.
    Room(Option<i64>),
    /// The bytes of the group, those of the record that is emitted, and how many the group may have.
    Limit {
        emitted: u64,
        record: u64,
        limit: u32,
    },
}

/// What facts tell of an instruction, if there is one.
#[tactic(auto, using(crate::proofs::FactSizes::facts_fit))]
pub(crate) fn known_of<D: Domain>(instruction: Option<&Instruction>, facts: &Facts<D>) -> Known {
    D::fact_fits();
    let registers = match instruction {
        Some(instruction) => read_registers(instruction, facts),
        None => [None, None],
    };
    Known {
        registers,
        emitted: facts.emitted as u64,
        record: facts.get(Register::R2).bounds().high,
    }
}

impl RefusedInstruction {
    /// The numbers of the reason.
    pub(crate) fn detail(&self) -> Detail {
        match self.reason {
            Reason::JumpBack | Reason::JumpOutside => self.target(),
            Reason::FallsOff | Reason::WriteToFramePointer => Detail::Plain,
            Reason::LoadOutside | Reason::StoreOutside => self.accessed(),
            Reason::UnknownHelper => helper_of(self.instruction),
            Reason::EmitAddress => self.address(Register::R1, 0, 0),
            Reason::EmitLength => self.room(),
            Reason::EmitLimit => Detail::Limit {
                emitted: self.known.emitted,
                record: self.known.record,
                limit: self.sizes.limit(),
            },
        }
    }

    /// Where a jump leads.
    fn target(&self) -> Detail {
        let distance = self.instruction.distance().unwrap_or(0);
        Detail::Target(i128::from(Instruction::target(self.slot, distance)))
    }

    /// Where the register of an access has to point, or that a store's area is one to read.
    fn accessed(&self) -> Detail {
        let Some(
            Access {
                base,
                offset,
                size,
                ..
            },
        ) = self.instruction.access()
        else {
            return Detail::Plain;
        };
        match (self.reason, self.base()) {
            (Reason::StoreOutside, Told::Address(address)) if !address.area.is_writable() => {
                Detail::ReadOnly { base, bytes: size }
            }
            _ => self.address(base, offset, size),
        }
    }

    /// Where a register has to point, so that so many bytes at an offset from there lie in its area.
    fn address(&self, base: Register, offset: i16, bytes: u8) -> Detail {
        let allowed = match self.base() {
            Told::Address(Offsets { area, .. }) => {
                Some(offsets_allowed(area, self.length(area), offset, bytes))
            }
            Told::Words(_) => None,
        };
        Detail::Address {
            base,
            bytes,
            allowed,
        }
    }

    /// How many bytes an emit can take, from its address to the end of the area.
    fn room(&self) -> Detail {
        match self.base() {
            Told::Address(Offsets { area, high, .. }) => {
                Detail::Room(Some(i64::from(self.length(area)).saturating_sub(high)))
            }
            Told::Words(_) => Detail::Room(None),
        }
    }

    /// What is told of the first register that it reads.
    fn base(&self) -> Told {
        match self.known.registers[0] {
            Some(read) => read.told,
            None => Told::Words(Bounds::FULL),
        }
    }

    /// The bytes of an area.
    fn length(&self, area: Area) -> u32 {
        let block = self.sizes.block().bytes();
        area.length(block as usize) as u32
    }
}

/// Where an address may lie, so that so many bytes at an offset from it lie in an area of this length.
fn offsets_allowed(area: Area, length: u32, offset: i16, size: u8) -> Offsets {
    let low = -i64::from(offset);
    let high = low + i64::from(length) - i64::from(size);
    Offsets { area, low, high }
}

/// The helper that an instruction calls, if it calls one.
fn helper_of(instruction: Instruction) -> Detail {
    match instruction {
        Instruction::Call { helper } => Detail::Helper(helper),
        _ => Detail::Plain,
    }
}
