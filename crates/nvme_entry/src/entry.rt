//! Submission queue entries.

ghost use Rattle.std.specs.Prelude.{◌≡◌};
ghost use Rattle.nvme_entry.specs.Entry.{decoded, asked, identifier_of, starting_lba, asked_blocks, fuse_of, namespace_identifier};

use crate::command::{
    BlockCount, Command, DwordCount, LoadCommand, MOST_TRANSFER, Opcode, RunCommand,
    StandardCommand,
};
use crate::dwords::{dword, two_dwords};
use crate::filter::ZoneFilter;
use crate::program_slot::ProgramSlot;
use byteorder::{ByteOrder, LittleEndian};
use zone_state::{Action, Status};

/// The one namespace's identifier (profile).
pub(crate) const NAMESPACE: u32 = 1;

/// The zone receive action Report Zones (ZNS 1.1, 3.4.2), the one that is supported (profile).
const REPORT_ZONES: u8 = 0x00;

/// What reads and makes submission queue entries (NVMe Base 2.0, 3.3.3.1): 64 bytes, little-endian.
pub struct Entry;

impl Entry {
    /// The command that an entry spells, or the status of the first check that it fails: of its opcode, of FUSE, of its
    /// namespace, and then of the fields of its command.
    ///
    /// # Errors
    ///
    /// The first that applies: Invalid Command Opcode for an opcode that isn't supported; Invalid
    /// Field in Command for a fused command; Invalid Namespace or Format for a namespace other than
    /// 1; Invalid Field in Command for a zone send action or a zone receive action that there
    /// isn't, a filter of zones or a program slot that there isn't, or a report or a program of more
    /// than [`MOST_TRANSFER`] bytes.
    ///
    /// [`MOST_TRANSFER`]: crate::MOST_TRANSFER
    pub fn decode(entry: &[u8; 64]) -> Result<Command, Status>
        ensures { result ≡ decoded entry.now }
    {
        let opcode = Opcode::from_code(entry[0]).ok_or(Status::INVALID_COMMAND_OPCODE)?;
        if Entry::fuse(entry) != 0 {
            return Err(Status::INVALID_FIELD_IN_COMMAND);
        }
        if Entry::namespace(entry) != NAMESPACE {
            return Err(Status::INVALID_NAMESPACE_OR_FORMAT);
        }
        Entry::command(opcode, entry)
    }

    /// The command that the fields of an entry name.
    fn command(opcode: Opcode, entry: &[u8; 64]) -> Result<Command, Status>
        ensures { result ≡ asked opcode entry.now }
    {
        let lba = Entry::lba(entry);
        let blocks = Entry::blocks(entry);
        match opcode {
            Opcode::Write => Ok(Command::Standard(StandardCommand::Write { lba, blocks })),
            Opcode::Read => Ok(Command::Standard(StandardCommand::Read { lba, blocks })),
            Opcode::ZoneAppend => Ok(Command::Standard(StandardCommand::Append { lba, blocks })),
            Opcode::ZoneManagementSend => Entry::send(entry),
            Opcode::ZoneManagementReceive => Entry::receive(entry),
            Opcode::Run => Entry::run(entry),
            Opcode::Load => Entry::load(entry),
            Opcode::Result => Entry::result(entry),
        }
    }

    /// The command identifier of an entry, which its completion repeats. It is read whatever else stands in the entry.
    pub fn cid(entry: &[u8; 64]) -> u16
        ensures { result ≡ identifier_of entry.now }
    {
        LittleEndian::read_u16(&entry[2..])
    }

    /// A Zone Management Send.
    fn send(entry: &[u8; 64]) -> Result<Command, Status>
        ensures { result ≡ asked Opcode.ZoneManagementSend entry.now }
    {
        let lba = Entry::lba(entry);
        // Command Dword 13: the action, and behind it Select All.
        let action = Action::from_code(entry[52]).ok_or(Status::INVALID_FIELD_IN_COMMAND)?;
        Ok(Command::Standard(StandardCommand::Send {
            lba,
            action,
            select_all: entry[53] % 2 == 1,
        }))
    }

    /// A Zone Management Receive.
    fn receive(entry: &[u8; 64]) -> Result<Command, Status>
        ensures { result ≡ asked Opcode.ZoneManagementReceive entry.now }
    {
        let lba = Entry::lba(entry);
        let dwords = DwordCount::from_zero_based(dword(entry, 12)).ok_or(
            Status::INVALID_FIELD_IN_COMMAND,
        )?;
        // Command Dword 13: the action, what to list, and Partial.
        if entry[52] != REPORT_ZONES {
            return Err(Status::INVALID_FIELD_IN_COMMAND);
        }
        let filter = ZoneFilter::from_code(entry[53]).ok_or(Status::INVALID_FIELD_IN_COMMAND)?;
        Ok(Command::Standard(StandardCommand::Receive {
            lba,
            dwords,
            filter,
            partial: entry[54] % 2 == 1,
        }))
    }

    /// A Run.
    fn run(entry: &[u8; 64]) -> Result<Command, Status>
        ensures { result ≡ asked Opcode.Run entry.now }
    {
        // Command Dword 12: behind the number of blocks the slot.
        let slot = ProgramSlot::new(u32::from(entry[50])).ok_or(Status::INVALID_FIELD_IN_COMMAND)?;
        Ok(Command::Run(RunCommand {
            lba: Entry::lba(entry),
            blocks: Entry::blocks(entry),
            slot,
            argument: dword(entry, 13),
            destination: two_dwords(entry, 14),
        }))
    }

    /// A Load.
    fn load(entry: &[u8; 64]) -> Result<Command, Status>
        ensures { result ≡ asked Opcode.Load entry.now }
    {
        let bytes = dword(entry, 12);
        if bytes as usize > MOST_TRANSFER {
            return Err(Status::INVALID_FIELD_IN_COMMAND);
        }
        let slot = ProgramSlot::new(dword(entry, 10)).ok_or(Status::INVALID_FIELD_IN_COMMAND)?;
        Ok(Command::Load(LoadCommand {
            slot,
            limit: dword(entry, 11),
            bytes,
        }))
    }

    /// A Result.
    fn result(entry: &[u8; 64]) -> Result<Command, Status>
        ensures { result ≡ asked Opcode.Result entry.now }
    {
        let slot = ProgramSlot::new(dword(entry, 10)).ok_or(Status::INVALID_FIELD_IN_COMMAND)?;
        Ok(Command::Result(slot))
    }

    fn fuse(entry: &[u8; 64]) -> u8
        ensures { result ≡ fuse_of entry.now }
    {
        entry[1] % 4
    }

    fn namespace(entry: &[u8; 64]) -> u32
        ensures { result ≡ namespace_identifier entry.now }
    {
        dword(entry, 1)
    }

    fn lba(entry: &[u8; 64]) -> u64
        ensures { result ≡ starting_lba entry.now }
    {
        two_dwords(entry, 10)
    }

    fn blocks(entry: &[u8; 64]) -> BlockCount
        ensures { result ≡ asked_blocks entry.now }
    {
        BlockCount::from_zero_based(LittleEndian::read_u16(&entry[48..]))
    }
}
