//! The slots for programs.

ghost use Rattle.std.specs.Prelude.{◌≡◌, ◌<◌};
ghost use Rattle.nvme_entry.specs.ProgramSlot.{program_slot_of};

use std::marker::Model;

/// How many programs the device holds, each in a slot of its own (profile).
pub const PROGRAM_SLOTS: usize = 8;

/// A slot for a program, one of [`PROGRAM_SLOTS`]. A clause sees its number, of which the lowest is 0.
#[derive(Clone, Copy, Debug, PartialEq, Eq)]
pub struct ProgramSlot {
    number: u32,
}

impl Model for ProgramSlot {
    ghost use Rattle.std.specs.Prelude.{◌<◌, ℕ};
    ghost use Rattle.nvme_entry.specs.declared.program_slot.TheConstants.{PROGRAM_SLOTS};

    ghost Value = { ℕ };

    ghost view = { λ s. s.number };

    ghost invariant = { λ s. s.number < PROGRAM_SLOTS };

    ghost inverse = { λ n. record { number = n } };
}

impl ProgramSlot {
    /// The slot of this number; `None` where there are not so many.
    pub fn new(number: u32) -> Option<ProgramSlot>
        ensures { result ≡ program_slot_of number }
    {
        if number as usize >= PROGRAM_SLOTS {
            return None;
        }
        Some(ProgramSlot { number })
    }

    /// The slot's number, as an index into all slots.
    pub fn index(self) -> usize
        ensures value { result ≡ self }
        ensures bound { result < PROGRAM_SLOTS }
    {
        self.number as usize
    }
}
