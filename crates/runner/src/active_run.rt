//! Active runs.

ghost use Rattle.std.specs.Prelude.{◌≡◌};
ghost use Rattle.runner.specs.steps.ActiveRuns.{new_active};

use emit_append::Packer;
use image_store::ZoneBlock;
use nvme_entry::RunCommand;
use program_interface::{BlockSize, SCRATCH_BYTES};

/// A run between two of its turns.
#[derive(Drop)]
pub struct ActiveRun {
    /// The queue that its completion goes to.
    pub queue: u16,
    /// The command identifier that its completion repeats.
    pub cid: u16,
    /// The command that started it.
    pub command: RunCommand,
    /// Where its first source block is.
    pub source: ZoneBlock,
    /// The number of the zone that it appends to.
    pub destination: u32,
    /// How many source blocks are done.
    pub index: u32,
    /// What the program keeps from block to block.
    pub scratch: [u8; SCRATCH_BYTES],
    /// The block of frames that is begun, and not yet appended.
    pub packer: Packer,
    /// How many frames were emitted.
    pub frames: u32,
    /// How many blocks were appended.
    pub appended: u32,
}

impl ActiveRun {
    /// A run before its first turn. Its 17 KiB, most of them the pending block's, are then moved to its place,
    /// which costs once for each run.
    pub fn new(
        queue: u16,
        cid: u16,
        command: RunCommand,
        source: ZoneBlock,
        destination: u32,
        block: BlockSize,
    ) -> ActiveRun
        ensures { result ≡ new_active queue cid command source destination block }
    {
        ActiveRun {
            queue,
            cid,
            command,
            source,
            destination,
            index: 0,
            scratch: [0; SCRATCH_BYTES],
            packer: Packer::new(block),
            frames: 0,
            appended: 0,
        }
    }
}
