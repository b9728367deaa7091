//! What happens in the demonstration.

ghost use Rattle.std.specs.Prelude.{◌≤◌};
ghost use Rattle.nvme_entry.specs.Encoding.{program_length};

use crate::orders::{EMIT, FILTER, REGION, blocks};
use device_events::Event;
use nvme_entry::{
    BlockCount, Command, Entry, LoadCommand, MOST_TRANSFER, ProgramSlot, RunCommand,
    StandardCommand,
};
use std::alloc::{AllocError, Global};
use zone_state::Action;

/// The first block of the orders' zone.
const SOURCE: u64 = 0;

/// The first block of the zone that the run appends to.
pub(crate) const DESTINATION: u64 = 64;

/// The number of the orders, each in a block.
const ORDERS: u32 = 4;

/// All that happens, in order.
///
/// # Errors
///
/// Want of memory.
pub(crate) fn events(alloc: Global) -> Result<Vec<Event>, AllocError> {
    let mut all = Vec::new(alloc);
    push_start(alloc, &mut all)?;
    push_turns(alloc, &mut all)?;
    Ok(all)
}

/// Adds what happens up to the start of the run.
fn push_start(alloc: Global, all: &mut Vec<Event>) -> Result<(), AllocError> {
    all.push(submitted(1, 1, appended(), blocks(alloc)?))?;
    all.push(submitted(1, 2, sent(DESTINATION, Action::Open), Vec::new(alloc)))?;
    all.push(submitted(1, 3, loaded(), FILTER.to_vec(alloc)?))?;
    all.push(submitted(1, 4, started(), Vec::new(alloc)))?;
    Ok(())
}

/// Adds the turns of the run, with a command between them, and what happens after it.
fn push_turns(alloc: Global, all: &mut Vec<Event>) -> Result<(), AllocError> {
    all.push(Event::Turn { run: 0 })?;
    all.push(Event::Turn { run: 0 })?;
    all.push(submitted(2, 1, sent(SOURCE, Action::Reset), Vec::new(alloc)))?;
    all.push(Event::Turn { run: 0 })?;
    all.push(Event::Turn { run: 0 })?;
    all.push(submitted(1, 5, read_back(), Vec::new(alloc)))?;
    Ok(())
}

/// The event of a command's entry.
fn submitted(queue: u16, cid: u16, command: Command, input: Vec<u8>) -> Event
    requires { program_length command ≤ MOST_TRANSFER }
{
    Event::Submit {
        queue,
        entry: Entry::encode(command, cid),
        input,
    }
}

/// The orders are appended.
fn appended() -> Command
    ensures { program_length result ≤ MOST_TRANSFER }
{
    Command::Standard(StandardCommand::Append {
        lba: SOURCE,
        blocks: BlockCount::new(ORDERS).unwrap(),
    })
}

/// An action on the zone of a block.
fn sent(lba: u64, action: Action) -> Command
    ensures { program_length result ≤ MOST_TRANSFER }
{
    Command::Standard(StandardCommand::Send {
        lba,
        action,
        select_all: false,
    })
}

/// The filter is loaded.
fn loaded() -> Command
    ensures { program_length result ≤ MOST_TRANSFER }
{
    Command::Load(LoadCommand {
        slot: ProgramSlot::new(0).unwrap(),
        limit: EMIT,
        bytes: FILTER.len() as u32,
    })
}

/// It runs over the orders.
fn started() -> Command
    ensures { program_length result ≤ MOST_TRANSFER }
{
    Command::Run(RunCommand {
        lba: SOURCE,
        blocks: BlockCount::new(ORDERS).unwrap(),
        slot: ProgramSlot::new(0).unwrap(),
        argument: REGION,
        destination: DESTINATION,
    })
}

/// What it appended is read.
fn read_back() -> Command
    ensures { program_length result ≤ MOST_TRANSFER }
{
    Command::Standard(StandardCommand::Read {
        lba: DESTINATION,
        blocks: BlockCount::new(1).unwrap(),
    })
}
