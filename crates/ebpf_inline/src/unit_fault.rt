//! Why functions can't be made one program.

use thiserror::Error;

/// Why a slot of a function can't be a part of a program.
#[derive(Clone, Copy, Debug, PartialEq, Eq, Error)]
pub enum SlotFault {
    /// A wide instruction has no second slot, or a second slot no wide instruction before it.
    #[error("half of a wide instruction")]
    Half,
    /// An instruction takes R10 otherwise than as an address to load from or to store to, or to move it to another register.
    #[error("R10 in an instruction that can't be moved to another frame")]
    FramePointer,
    /// An access names bytes below its function's frame.
    #[error("an access below the function's frame")]
    BelowFrame,
    /// A jump leads out of its function or to a second slot, or the function's end is no EXIT and no jump.
    #[error("leads out of the function, or into a wide instruction")]
    Leaves,
    /// A call of a function that isn't there.
    #[error("a call of no function")]
    NoFunction,
    /// An address of data that isn't there.
    #[error("an address of no data")]
    NoData,
}

/// Why functions and data can't be made one program.
#[derive(Clone, Copy, Debug, PartialEq, Eq, Error)]
pub enum UnitFault {
    /// The function to start with isn't there.
    #[error("no function to start with")]
    NoStart,
    /// A slot of a function can't be a part of a program.
    #[error("function {0}, slot {1}: {2}")]
    Slot(usize, usize, SlotFault),
    /// A function has no slots.
    #[error("function {0}: no slots")]
    Empty(usize),
    /// A function is called by too many others, one within another, or by itself.
    #[error("function {0}: calls that are too deep, or that lead in a circle")]
    TooDeep(usize),
    /// A function's frame doesn't fit into the stack, below those of all that call it and above the data, or isn't of whole words.
    #[error("function {0}: no room for its frame")]
    NoRoom(usize),
    /// The data doesn't fit into the stack.
    #[error("more data than the stack has bytes")]
    TooMuchData,
    /// There are more slots than a program can have.
    #[error("more slots than a program can have")]
    TooLong,
}
