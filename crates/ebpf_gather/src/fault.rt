//! Why an object is no program, and why its functions can't be gathered.

ghost use Rattle.std.specs.Prelude.{◌≡◌};
ghost use Rattle.ebpf_gather.specs.declared.fault.GatherFault.TheVariants.{Memory};

use ebpf_decode::FaultKind;
use ebpf_object::Function;
use std::alloc::AllocError;
use thiserror::Error;

/// Why a slot refers to nothing that a program can have.
#[derive(Clone, Copy, Debug, PartialEq, Eq, Error)]
pub enum ReferenceFault {
    /// The relocation of a slot changes no instruction that is there: a call of a function, or a wide instruction.
    #[error("a relocation that does not go with its instruction")]
    Relocation,
    /// The relocation's symbol is in no section of an object.
    #[error("a symbol that is in no section")]
    Symbol,
    /// A call leads to a byte at which no function begins.
    #[error("a call that leads to no function")]
    NoFunction,
    /// An address is that of a section that has no data, as names or symbols.
    #[error("an address in a section without data")]
    NoData,
    /// An address is that of data that the program could change. A program keeps nothing from one block to the next (profile).
    #[error("an address of data that can be changed")]
    Writable,
    /// An address lies behind its section's end.
    #[error("an address behind its section")]
    Outside,
}

/// Why the functions that a program calls are none that a program can have.
#[derive(Clone, Copy, Debug, PartialEq, Eq, Error)]
pub enum CallFault {
    /// A function is called by too many others, one within another, or by itself.
    #[error("calls that are too deep, or that lead in a circle")]
    TooDeep(Function),
    /// With each function as often as it is called there are more slots than a program can have.
    #[error("more slots than a program can have, with those of what is called")]
    TooLong,
    /// A slot refers to nothing that a program can have.
    #[error("slot {1}: {2}")]
    Reference(Function, usize, ReferenceFault),
}

/// Why it is not told which function a program starts with.
#[derive(Clone, Copy, Debug, PartialEq, Eq, Error)]
pub enum StartFault {
    /// No function can be seen from outside.
    #[error("no global function")]
    NoFunction,
    /// Two functions can, and perhaps more: the numbers of the first two symbols that stand for such.
    #[error("several global functions: symbols {0} and {1}")]
    Several(usize, usize),
}

/// Why a slot of a function can't be a part of a program.
#[derive(Clone, Copy, Debug, PartialEq, Eq, Error)]
pub enum SlotProblem {
    /// It refers to nothing that a program can have.
    #[error("{0}")]
    Reference(ReferenceFault),
    /// It calls, or takes the address of, what is not in the object: the number of the symbol.
    #[error("calls, or takes the address of, what is not in the object")]
    Missing(usize),
    /// It calls memcpy, memset or memcmp with a length that isn't a number known there, or is more than the stack has bytes.
    #[error("a length that is no small constant")]
    Length(usize),
    /// It refers to data that has the address of a function.
    #[error("constant data with the address of a function")]
    FunctionAddress,
    /// It refers to data that has another address than one of constant data, or a part of one.
    #[error("constant data with an address that isn't one of constant data")]
    OtherAddress,
    /// It calls what a register has the address of.
    #[error("a call by an address")]
    CallByAddress,
    /// No instruction of this profile stands there.
    #[error("{0}")]
    Instruction(FaultKind),
}

/// Why functions can't be gathered.
#[derive(Debug, Drop, Error)]
pub enum GatherFault {
    /// There is no memory for them.
    #[error("out of memory")]
    Memory(AllocError),
    /// No symbol stands for the function to start with.
    #[error("no function to start with")]
    NoStart,
    /// There are more functions than a program can have slots.
    #[error("more functions than a program can have")]
    TooMany,
    /// A slot of a function, which is told by the number of its symbol.
    #[error("slot {slot}: {problem}")]
    Slot {
        /// The number of the function's symbol.
        function: usize,
        /// The slot.
        slot: usize,
        /// What is wrong there.
        problem: SlotProblem,
    },
}

impl From<AllocError> for GatherFault {
    ghost from_gives = { λ error result. result ≡ Memory error };

    fn from(error: AllocError) -> GatherFault {
        GatherFault::Memory(error)
    }
}
