//! What the device promises a program: the sizes of a block and of what may be emitted for one, the areas
//! of memory, the context, the registers at the start, the form of what is emitted, and the largest
//! program. `examples/pifnjarl.h` says to programs in C what they need of it.
#![tactic(auto)]

mod area;
mod block_size;
mod context;
mod frame;
pub mod laws;
mod registers;
mod run_sizes;

pub use area::{Area, CONTEXT_BYTES, SCRATCH_BYTES, STACK_BYTES};
pub use block_size::{BLOCK_SIZES, BlockSize, LARGEST_BLOCK};
pub use context::Context;
pub use frame::{EMIT, FRAME_LENGTH_BYTES};
pub use registers::{CLEARED_REGISTERS, REGISTERS, start_registers};
pub use run_sizes::RunSizes;

/// The most slots of 8 bytes that a program has (profile).
pub const MOST_SLOTS: usize = 4096;
