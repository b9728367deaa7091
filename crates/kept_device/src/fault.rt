//! Why a section isn't read.

ghost use Rattle.std.specs.Prelude.{◌≡◌};
ghost use Rattle.kept_device.specs.declared.fault.SectionFault.TheVariants.{Memory};

use std::alloc::AllocError;

/// Why a section isn't read.
#[derive(Clone, Copy, Debug, PartialEq, Eq)]
pub enum SectionFault {
    /// Its bytes spell nothing that is kept.
    Damaged,
    /// No memory.
    Memory,
}

impl From<AllocError> for SectionFault {
    ghost from_gives = { λ _ fault. fault ≡ Memory };

    fn from(_: AllocError) -> Self {
        SectionFault::Memory
    }
}
