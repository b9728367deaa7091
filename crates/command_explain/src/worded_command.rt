//! Commands in words.

use command_files::Counted;
use nvme_entry::{BlockCount, Command, RunCommand, StandardCommand};
use std::alloc::AllocError;

/// Adds a command as the user reads it: what it does, to what.
///
/// # Errors
///
/// Want of memory.
pub fn push_command(command: &Command, out: &mut String) -> Result<(), AllocError> {
    match command {
        Command::Standard(command) => push_standard(command, out),
        Command::Run(command) => push_run(command, out),
        Command::Load(command) => {
            let slot = command.slot.index();
            let bytes = Counted(u64::from(command.bytes), "byte");
            write!(out, "load of {bytes} into slot {slot}")
        }
        Command::Result(slot) => {
            let slot = slot.index();
            write!(out, "result of slot {slot}")
        }
    }
}

fn push_standard(command: &StandardCommand, out: &mut String) -> Result<(), AllocError> {
    match command {
        StandardCommand::Write { lba, blocks } => {
            push_transfer("write", *blocks, "from LBA", *lba, " on", out)
        }
        StandardCommand::Read { lba, blocks } => {
            push_transfer("read", *blocks, "from LBA", *lba, " on", out)
        }
        StandardCommand::Append { lba, blocks } => {
            push_transfer("append", *blocks, "to the zone of LBA", *lba, "", out)
        }
        StandardCommand::Receive { lba, .. } => {
            write!(out, "report of zones from that of LBA {lba} on")
        }
        StandardCommand::Send {
            lba,
            action,
            select_all,
        } => push_send(*lba, action.word(), *select_all, out),
    }
}

/// Adds what is done to so many blocks, and where these are: the words in front of the address, and behind it.
fn push_transfer(
    verb: &str,
    blocks: BlockCount,
    place: &str,
    lba: u64,
    behind: &str,
    out: &mut String,
) -> Result<(), AllocError> {
    let blocks = Counted(u64::from(blocks.get()), "block");
    write!(out, "{verb} of {blocks} {place} {lba}{behind}")
}

/// Adds an action on the zone of this address, or on all.
fn push_send(lba: u64, action: &str, select_all: bool, out: &mut String) -> Result<(), AllocError> {
    if select_all {
        write!(out, "{action} of all zones that Select All takes")
    } else {
        write!(out, "{action} of the zone of LBA {lba}")
    }
}

fn push_run(command: &RunCommand, out: &mut String) -> Result<(), AllocError> {
    let slot = command.slot.index();
    let blocks = Counted(u64::from(command.blocks.get()), "block");
    let lba = command.lba;
    let destination = command.destination;
    write!(
        out,
        "run of slot {slot} over {blocks} from LBA {lba} on, to the zone of LBA {destination}"
    )
}
