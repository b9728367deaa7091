//! What is kept of a program and of a run.

use nvme_entry::RunCommand;
use program_interface::SCRATCH_BYTES;

/// The program of a slot, as it is kept.
#[derive(Drop)]
pub struct KeptProgram {
    /// The bytes that spell it.
    pub bytes: Vec<u8>,
    /// The most bytes that it may emit for a block.
    pub limit: u32,
    /// The scratch bytes that its last successful run left, zeros before one did.
    pub result: [u8; SCRATCH_BYTES],
}

/// An active run, as it is kept.
#[derive(Drop)]
pub struct KeptRun {
    /// The queue that its completion goes to.
    pub queue: u16,
    /// The command identifier that its completion repeats.
    pub cid: u16,
    /// The command that started it.
    pub command: RunCommand,
    /// How many source blocks are done.
    pub index: u32,
    /// What the program keeps from block to block.
    pub scratch: [u8; SCRATCH_BYTES],
    /// The bytes of the block that isn't appended yet.
    pub pending: Vec<u8>,
    /// How many frames were emitted.
    pub frames: u32,
    /// How many blocks were appended.
    pub appended: u32,
}
