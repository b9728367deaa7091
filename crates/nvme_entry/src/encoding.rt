//! Submission queue entries, made of the commands that they are to ask for.

ghost use Rattle.std.specs.Prelude.{◌≡◌, ◌+◌, ◌*◌, ◌^◌, ◌≤◌, ◌<◌};
ghost use Rattle.nvme_entry.specs.Entry.{asked, asked_blocks, decoded, identifier_of, starting_lba};
ghost use Rattle.nvme_entry.specs.Encoding.{AreZero, program_length, unused};
ghost use Rattle.nvme_entry.specs.steps.EntryFields.{HasFields};

use crate::command::{
    BlockCount, Command, DwordCount, LoadCommand, MOST_TRANSFER, Opcode, RunCommand,
    StandardCommand,
};
use crate::entry::{Entry, NAMESPACE};
use crate::filter::ZoneFilter;
use crate::program_slot::{PROGRAM_SLOTS, ProgramSlot};
use byteorder::{ByteOrder, LittleEndian};
use zone_state::Action;

/// Command Dwords 10 to 15 (NVMe Base 2.0, 3.3.3.1).
#[derive(Clone, Copy)]
struct CommandDwords {
    cdw10: u32,
    cdw11: u32,
    cdw12: u32,
    cdw13: u32,
    cdw14: u32,
    cdw15: u32,
}

impl CommandDwords {
    /// Those of a command that has no use for them.
    const NONE: CommandDwords = CommandDwords {
        cdw10: 0,
        cdw11: 0,
        cdw12: 0,
        cdw13: 0,
        cdw14: 0,
        cdw15: 0,
    };
}

impl Entry {
    /// The entry that asks for a command, and is decoded to it; it has this command identifier. Bits that no field of
    /// the command has are 0. The program of a Load has at most [`MOST_TRANSFER`] bytes.
    ///
    /// [`MOST_TRANSFER`]: crate::MOST_TRANSFER
    pub fn encode(command: Command, cid: u16) -> [u8; 64]
        requires { program_length command ≤ MOST_TRANSFER }
        ensures command { decoded result ≡ Ok command }
        ensures identifier { identifier_of result ≡ cid }
        ensures rest { AreZero result (unused command) }
    {
        match command {
            Command::Standard(command) => encode_standard(command, cid),
            Command::Run(run) => encode_run(run, cid),
            Command::Load(load) => encode_load(load, cid),
            Command::Result(slot) => encode_result(slot, cid),
        }
    }
}

/// The entry of a command of the standards.
fn encode_standard(command: StandardCommand, cid: u16) -> [u8; 64]
    ensures command { decoded result ≡ Ok (Command.Standard command) }
    ensures identifier { identifier_of result ≡ cid }
    ensures rest { AreZero result (unused (Command.Standard command)) }
{
    match command {
        StandardCommand::Write { lba, blocks } => transfer(Opcode::Write, lba, blocks, cid),
        StandardCommand::Read { lba, blocks } => transfer(Opcode::Read, lba, blocks, cid),
        StandardCommand::Append { lba, blocks } => transfer(Opcode::ZoneAppend, lba, blocks, cid),
        StandardCommand::Send {
            lba,
            action,
            select_all,
        } => send(lba, action, select_all, cid),
        StandardCommand::Receive {
            lba,
            dwords,
            filter,
            partial,
        } => receive(lba, dwords, filter, partial, cid),
    }
}

/// The entry of a command that moves blocks.
fn transfer(opcode: Opcode, lba: u64, blocks: BlockCount, cid: u16) -> [u8; 64]
    ensures command { decoded result ≡ asked opcode result }
    ensures lba { starting_lba result ≡ lba }
    ensures blocks { asked_blocks result ≡ blocks }
    ensures identifier { identifier_of result ≡ cid }
    ensures rest { AreZero result (unused (Command.Standard (StandardCommand.Write lba blocks))) }
{
    let (low, high) = halves(lba);
    let fields = CommandDwords {
        cdw10: low,
        cdw11: high,
        cdw12: u32::from(blocks.zero_based()),
        ..CommandDwords::NONE
    };
    with_fields(opcode, cid, fields)
}

/// The entry of a Zone Management Send.
fn send(lba: u64, action: Action, select_all: bool, cid: u16) -> [u8; 64]
    ensures command { decoded result ≡ Ok (Command.Standard (StandardCommand.Send lba action select_all)) }
    ensures identifier { identifier_of result ≡ cid }
    ensures rest { AreZero result (unused (Command.Standard (StandardCommand.Send lba action select_all))) }
{
    let (low, high) = halves(lba);
    let fields = CommandDwords {
        cdw10: low,
        cdw11: high,
        cdw13: u32::from(action.code()) + (u32::from(select_all) << 8),
        ..CommandDwords::NONE
    };
    with_fields(Opcode::ZoneManagementSend, cid, fields)
}

/// The entry of a Zone Management Receive.
fn receive(lba: u64, dwords: DwordCount, filter: ZoneFilter, partial: bool, cid: u16) -> [u8; 64]
    ensures command { decoded result ≡ Ok (Command.Standard (StandardCommand.Receive lba dwords filter partial)) }
    ensures identifier { identifier_of result ≡ cid }
    ensures rest { AreZero result (unused (Command.Standard (StandardCommand.Receive lba dwords filter partial))) }
{
    let (low, high) = halves(lba);
    let fields = CommandDwords {
        cdw10: low,
        cdw11: high,
        cdw12: dwords.zero_based(),
        cdw13: (u32::from(filter.code()) << 8) + (u32::from(partial) << 16),
        ..CommandDwords::NONE
    };
    with_fields(Opcode::ZoneManagementReceive, cid, fields)
}

/// The entry of a Run.
fn encode_run(run: RunCommand, cid: u16) -> [u8; 64]
    ensures command { decoded result ≡ Ok (Command.Run run) }
    ensures identifier { identifier_of result ≡ cid }
    ensures rest { AreZero result (unused (Command.Run run)) }
{
    let (low, high) = halves(run.lba);
    let (low_destination, high_destination) = halves(run.destination);
    let fields = CommandDwords {
        cdw10: low,
        cdw11: high,
        cdw12: u32::from(run.blocks.zero_based()) + (slot_field(run.slot) << 16),
        cdw13: run.argument,
        cdw14: low_destination,
        cdw15: high_destination,
    };
    with_fields(Opcode::Run, cid, fields)
}

/// The entry of a Load.
fn encode_load(load: LoadCommand, cid: u16) -> [u8; 64]
    requires { load.bytes ≤ MOST_TRANSFER }
    ensures command { decoded result ≡ Ok (Command.Load load) }
    ensures identifier { identifier_of result ≡ cid }
    ensures rest { AreZero result (unused (Command.Load load)) }
{
    let fields = CommandDwords {
        cdw10: slot_field(load.slot),
        cdw11: load.limit,
        cdw12: load.bytes,
        ..CommandDwords::NONE
    };
    with_fields(Opcode::Load, cid, fields)
}

/// The entry of a Result.
fn encode_result(slot: ProgramSlot, cid: u16) -> [u8; 64]
    ensures command { decoded result ≡ Ok (Command.Result slot) }
    ensures identifier { identifier_of result ≡ cid }
    ensures rest { AreZero result (unused (Command.Result slot)) }
{
    let fields = CommandDwords {
        cdw10: slot_field(slot),
        ..CommandDwords::NONE
    };
    with_fields(Opcode::Result, cid, fields)
}

/// The entry that has these fields, the namespace 1, and 0 in all others.
fn with_fields(opcode: Opcode, cid: u16, fields: CommandDwords) -> [u8; 64]
    ensures { HasFields result opcode cid fields }
{
    let first = u32::from(opcode.code()) + (u32::from(cid) << 16);
    let mut entry = [0; 64];
    LittleEndian::write_u32_into(
        &[
            first,
            NAMESPACE,
            0,
            0,
            0,
            0,
            0,
            0,
            0,
            0,
            fields.cdw10,
            fields.cdw11,
            fields.cdw12,
            fields.cdw13,
            fields.cdw14,
            fields.cdw15,
        ],
        &mut entry,
    );
    entry
}

/// The number of a slot, as a field has it.
fn slot_field(slot: ProgramSlot) -> u32
    ensures value { result ≡ slot }
    ensures few { result < PROGRAM_SLOTS }
{
    slot.index() as u32
}

/// The two dwords of a number, the lower first.
fn halves(number: u64) -> (u32, u32)
    ensures { result.0 + result.1 * 2 ^ 32 ≡ number }
{
    ((number % (1 << 32)) as u32, (number >> 32) as u32)
}
