//! Why no program is made.

ghost use Rattle.std.specs.Prelude.{◌≡◌};
ghost use Rattle.ebpf_inline.specs.declared.fault.InlineFault.TheVariants.{Memory, Hindered};

use crate::unit_fault::UnitFault;
use std::alloc::AllocError;
use thiserror::Error;

/// Why no program is made.
#[derive(Debug, Drop, Error)]
pub enum InlineFault {
    /// There is no memory for it.
    #[error("out of memory")]
    Memory(AllocError),
    /// The functions and the data can't be made one.
    #[error(transparent)]
    Hindered(UnitFault),
}

impl From<AllocError> for InlineFault {
    ghost from_gives = { λ error result. result ≡ Memory error };

    fn from(error: AllocError) -> InlineFault {
        InlineFault::Memory(error)
    }
}

impl From<UnitFault> for InlineFault {
    ghost from_gives = { λ fault result. result ≡ Hindered fault };

    fn from(fault: UnitFault) -> InlineFault {
        InlineFault::Hindered(fault)
    }
}
