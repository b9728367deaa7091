//! Why no program is made.

ghost use Rattle.std.specs.Prelude.{◌≡◌};
ghost use Rattle.ebpf_link.specs.declared.fault.LinkFault.TheVariants.{Memory};

use crate::guards::GuardPlace;
use std::alloc::AllocError;

/// Why no program is made.
#[derive(Debug, Drop)]
pub enum LinkFault {
    /// There is no memory for it.
    Memory(AllocError),
    /// An instruction leads to a slot at which none begins.
    Leaves(usize),
    /// A loop has no end that is known, or so many rounds that more is laid out than is looked at.
    Loop {
        /// The slot of the jump back, of those that were given.
        back: usize,
        /// How many rounds were laid out.
        rounds: usize,
        /// How many instructions were.
        count: usize,
    },
    /// There are more slots than a program can have.
    TooLong {
        /// How many.
        count: usize,
        /// The loop that most of them are of, if there is one.
        widest: Option<Widest>,
    },
    /// A guard always ends the block run.
    Ends(GuardPlace),
    /// A guard would end a block run, and there are no bytes of scratch in which it could write which one it was: none at all into which
    /// nothing is stored, or not these.
    NoMark(Option<usize>),
    /// Guards that write have no room on the stack beside so many bytes.
    NoStack(usize),
    /// An address may be one of the context or of another area, and no register has the context's.
    Address(usize),
}

/// The loop that most slots of a program are of.
#[derive(Clone, Copy, Debug)]
pub struct Widest {
    /// The slot of the jump back, of those that were given.
    pub back: usize,
    /// How many rounds it has, where it was come to last.
    pub rounds: usize,
    /// How many slots are of it.
    pub slots: usize,
}

impl From<AllocError> for LinkFault {
    ghost from_gives = { λ error result. result ≡ Memory error };

    fn from(error: AllocError) -> LinkFault {
        LinkFault::Memory(error)
    }
}
