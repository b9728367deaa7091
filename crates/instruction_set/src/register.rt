//! The registers R0 to R10.

ghost use Rattle.std.specs.Prelude.{◌≡◌, ◌<◌};

use program_interface::REGISTERS;
use std::marker::Model;

/// One of the eleven registers R0 to R10 (BPF ABI 1.0, Registers and calling convention). A clause sees its
/// number.
#[derive(Clone, Copy, Debug, PartialEq, Eq)]
pub struct Register {
    number: u8,
}

impl Model for Register {
    ghost use Rattle.std.specs.Prelude.{◌<◌, ℕ};
    ghost use Rattle.program_interface.specs.declared.registers.TheConstants.{REGISTERS};

    ghost Value = { ℕ };

    ghost view = { λ r. r.number };

    ghost invariant = { λ r. r.number < REGISTERS };

    ghost inverse = { λ n. record { number = n } };
}

impl Register {
    /// R0, where a helper and the program leave what they return (BPF ABI 1.0, Registers and calling convention).
    pub const R0: Register = Register { number: 0 };

    /// R1, a helper's first argument (BPF ABI 1.0, Registers and calling convention): of emit the address of a record.
    pub const R1: Register = Register { number: 1 };

    /// R2, a helper's second argument (BPF ABI 1.0, Registers and calling convention): of emit a record's number of bytes.
    pub const R2: Register = Register { number: 2 };

    /// R3, which has the address of scratch at the start of a block run (profile).
    pub const R3: Register = Register { number: 3 };

    /// R10, the frame pointer, which programs only read (BPF ABI 1.0, Registers and calling convention).
    pub const FRAME_POINTER: Register = Register { number: 10 };

    /// The register with this number.
    pub fn from_number(number: u8) -> Register
        requires { number < REGISTERS }
        ensures { result ≡ number }
    {
        Register { number }
    }

    /// The register's number.
    pub fn number(self) -> u8
        ensures value { result ≡ self }
        ensures bound { result < REGISTERS }
    {
        self.number
    }

    /// The register's number, as an index into the eleven registers.
    pub fn index(self) -> usize
        ensures value { result ≡ self }
        ensures bound { result < REGISTERS }
    {
        usize::from(self.number)
    }
}
