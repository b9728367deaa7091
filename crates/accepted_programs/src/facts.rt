//! What is known where a slot is reached.

ghost use Rattle.std.specs.Prelude.{◌≡◌};
ghost use Rattle.accepted_programs.specs.Facts.{fact, with_fact};

use crate::sums::{Fit, Sum};
use instruction_set::Register;
use program_interface::{REGISTERS, STACK_BYTES};
use std::alloc::AllocError;
use word_domain::Domain;

/// The bytes of a cell.
pub const CELL_BYTES: usize = 8;

/// The cells of the stack: words of eight bytes, each of which can be known.
pub const CELLS: usize = STACK_BYTES / CELL_BYTES;

/// A fact about each register, R0 to R10, and about words of the stack, a bound on the bytes that were emitted, and what is known
/// of registers together.
pub struct Facts<D> {
    /// What is known of R0 to R10.
    pub registers: [D; REGISTERS],
    /// What is known of the words of the stack, from its first byte on.
    pub cells: [Option<D>; CELLS],
    /// The group has at most so many bytes, frame lengths counted.
    pub emitted: usize,
    /// A register that has a sum.
    pub sum: Option<Sum>,
    /// A sum that is at most a number.
    pub fit: Option<Fit>,
}

impl<D: Copy> Clone for Facts<D> {
    ghost is_clone = { λ facts copy. facts ≡ copy };

    fn clone(&self) -> Result<Facts<D>, AllocError> {
        Ok(*self)
    }
}

impl<D: Copy> Copy for Facts<D> {}

impl<D: Domain> Facts<D> {
    /// The fact about a register.
    #[inline]
    pub fn get(&self, register: Register) -> D
        ensures { result ≡ fact D.operations self.now register }
    {
        self.registers[register.index()]
    }

    /// Replaces the fact about a register.
    #[inline]
    pub fn set(&mut self, register: Register, fact: D)
        ensures { self.new ≡ with_fact D.operations self.old register fact }
    {
        self.registers[register.index()] = fact;
    }
}
