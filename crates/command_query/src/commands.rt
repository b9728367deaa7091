//! Commands that are given to the device.

ghost use Rattle.std.specs.Prelude.{◌≤◌, ◌≡◌, length};
ghost use Rattle.nvme_entry.specs.Encoding.{program_length};
ghost use Rattle.nvme_entry.specs.declared.command.TheConstants.{MOST_TRANSFER};

use crate::refused::refused;
use command_files::Failure;
use device_events::Reply;
use image_store::Image;
use nvme_entry::{
    BlockCount, Command, Completion, Entry, LoadCommand, MOST_BLOCKS, MOST_TRANSFER, ProgramSlot,
    RunCommand, StandardCommand,
};
use runner::Device;
use std::alloc::Global;
use zone_state::{Action, Status, ZoneState};

/// A device in memory, with room for what it gives.
#[derive(Drop)]
pub(crate) struct AskedDevice {
    /// The device.
    device: Box<Device>,
    /// Room for the largest transfer.
    output: Vec<u8>,
    ghost room: { MOST_TRANSFER ≤ length output.items },
}

impl AskedDevice {
    /// A device, with room for what it gives.
    pub(crate) fn new<'a>(alloc: Global, device: Box<Device>) -> Result<AskedDevice, Failure<'a>> {
        let output = vec![in alloc; 0; MOST_TRANSFER]?;
        Ok(AskedDevice { device, output })
    }

    /// The image that the device has.
    pub(crate) fn image(&self) -> &Image {
        self.device.image()
    }

    /// The state of a zone, if there is one of this number.
    pub(crate) fn state_of(&self, zone: u32) -> Option<ZoneState> {
        match self.device.image().zones().get(zone as usize) {
            Some(zone) => Some(zone.state()),
            None => None,
        }
    }

    /// How many blocks of a zone are written.
    pub(crate) fn written(&self, zone: u32) -> u32 {
        match self.device.image().zones().get(zone as usize) {
            Some(zone) => zone.written(),
            None => 0,
        }
    }

    /// How many blocks of a zone can be written.
    pub(crate) fn capacity(&self) -> u32 {
        self.device.image().geometry().capacity()
    }

    /// Acts on the zone of an address.
    ///
    /// # Errors
    ///
    /// The device refuses it.
    pub(crate) fn send<'a>(
        &mut self,
        alloc: Global,
        lba: u64,
        action: Action,
    ) -> Result<(), Failure<'a>> {
        let command = Command::Standard(StandardCommand::Send {
            lba,
            action,
            select_all: false,
        });
        let reply = self.submit(command, &[]);
        succeeded(
            alloc,
            "no zone can be opened for the answer, so finish or reset one that is open or closed",
            reply,
        )?;
        Ok(())
    }

    /// Loads a program, with its limit.
    ///
    /// # Errors
    ///
    /// The device refuses it.
    pub(crate) fn load<'a>(
        &mut self,
        alloc: Global,
        slot: ProgramSlot,
        limit: u32,
        program: &[u8],
    ) -> Result<(), Failure<'a>> {
        let bytes = program.len().min(MOST_TRANSFER) as u32;
        let command = Command::Load(LoadCommand { slot, limit, bytes });
        let reply = self.submit(command, program);
        succeeded(alloc, "the program isn't loaded", reply)?;
        Ok(())
    }

    /// Runs a program over blocks from an address on, to its end: how many records it emitted, and how many blocks were appended.
    ///
    /// # Errors
    ///
    /// The device refuses the run.
    pub(crate) fn run<'a>(
        &mut self,
        alloc: Global,
        command: RunCommand,
    ) -> Result<Completion, Failure<'a>> {
        let reply = match self.submit(Command::Run(command), &[]) {
            Reply::Pending { run } => self.device.turns(run, MOST_BLOCKS as usize),
            other => other,
        };
        succeeded(alloc, "the run isn't done", reply)
    }

    /// Reads the scratch bytes that the last run of a slot's program left: how many bytes of [`AskedDevice::data`] they are.
    ///
    /// # Errors
    ///
    /// The device refuses it.
    pub(crate) fn result<'a>(
        &mut self,
        alloc: Global,
        slot: ProgramSlot,
    ) -> Result<usize, Failure<'a>> {
        let reply = self.submit(Command::Result(slot), &[]);
        succeeded(alloc, "the result isn't read", reply)?;
        Ok(reply.data_length())
    }

    /// Adds the bytes of blocks from an address on, which fit a transfer.
    ///
    /// # Errors
    ///
    /// The device refuses it.
    pub(crate) fn read<'a>(
        &mut self,
        alloc: Global,
        lba: u64,
        blocks: BlockCount,
        out: &mut Vec<u8>,
    ) -> Result<(), Failure<'a>> {
        let command = Command::Standard(StandardCommand::Read { lba, blocks });
        let reply = self.submit(command, &[]);
        succeeded(alloc, "the answer isn't read", reply)?;
        out.extend_from_slice(self.data(reply.data_length()))?;
        Ok(())
    }

    /// Submits a command, with data beside it.
    fn submit(&mut self, command: Command, input: &[u8]) -> Reply
        requires { program_length command ≤ MOST_TRANSFER }
    {
        let entry = Entry::encode(command, 1);
        self.device
            .submit(1, &entry, input, self.output.as_mut_slice())
    }

    /// The first bytes of the data that went with the last reply.
    pub(crate) fn data(&self, length: usize) -> &[u8] {
        let output = self.output.as_slice();
        output.get(..length).unwrap_or(output)
    }
}

/// The completion of a command that is to succeed.
fn succeeded<'a>(alloc: Global, what: &str, reply: Reply) -> Result<Completion, Failure<'a>> {
    let status = match reply {
        Reply::Complete { entry, .. } => {
            let completion = entry.completion();
            if completion.status == Status::SUCCESS {
                return Ok(completion);
            }
            if entry.is_want_of_memory() {
                return Err(Failure::NoMemory);
            }
            completion.status
        }
        Reply::Pending { .. } | Reply::Idle | Reply::FaultTaken | Reply::FaultRefused => {
            Status::NO_SUCH_PROGRAM
        }
    };
    Err(refused(format!(in alloc; "{what}: {status}")))
}
