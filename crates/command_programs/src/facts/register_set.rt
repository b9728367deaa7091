//! Sets of registers.

use instruction_set::Register;

/// Some of the registers R0 to R10: the bit of a register's number is set where it is among them.
#[derive(Clone, Copy)]
pub(crate) struct RegisterSet(u16);

impl RegisterSet {
    /// No register.
    pub(crate) const NONE: RegisterSet = RegisterSet(0);

    /// R0 to R5, which a call leaves 0.
    pub(crate) const CLEARED: RegisterSet = RegisterSet(0b11_1111);

    /// Is a register among them?
    pub(crate) fn has(self, register: Register) -> bool {
        self.0 & bit(register) != 0
    }

    /// These and another register, if there is one.
    pub(crate) fn with(self, register: Option<Register>) -> RegisterSet {
        match register {
            Some(register) => RegisterSet(self.0 | bit(register)),
            None => self,
        }
    }

    /// These without a register, if there is one.
    pub(crate) fn without(self, register: Option<Register>) -> RegisterSet {
        match register {
            Some(register) => RegisterSet(self.0 & !bit(register)),
            None => self,
        }
    }

    /// Those of either.
    pub(crate) fn or(self, others: RegisterSet) -> RegisterSet {
        RegisterSet(self.0 | others.0)
    }

    /// These without others.
    pub(crate) fn except(self, others: RegisterSet) -> RegisterSet {
        RegisterSet(self.0 & !others.0)
    }
}

/// The bit of a register.
fn bit(register: Register) -> u16 {
    1 << register.number()
}
