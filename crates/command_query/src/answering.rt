//! Asking a question of a device, and printing what it answers.

use crate::columns::Column;
use crate::commands::AskedDevice;
use crate::compiled::CompiledQuestion;
use crate::parts::Part;
use crate::records::push_rows;
use crate::refused::refused;
use crate::rows::{Form, Printed};
use crate::source::SourceBlocks;
use crate::tallied::answer_tallies;
use crate::wanted::Wanted;
use command_files::{Failure, printed};
use emit_append::blocks_needed;
use nvme_entry::{BlockCount, MOST_BLOCKS, MOST_TRANSFER, PROGRAM_SLOTS, ProgramSlot, RunCommand};
use program_interface::BlockSize;
use std::alloc::{AllocError, Global};
use std::io::Write;
use zone_state::{Action, ZoneState};

/// How a question is asked.
#[derive(Drop)]
pub(crate) struct Plan {
    /// The question, and its programs.
    pub(crate) compiled: CompiledQuestion,
    /// The blocks that are asked about.
    pub(crate) source: SourceBlocks,
    /// The argument of each run.
    pub(crate) argument: u32,
    /// The zone that is appended to.
    pub(crate) destination: u32,
    /// The address of its first block.
    pub(crate) destination_lba: u64,
    /// Is what is appended there kept?
    pub(crate) is_kept: bool,
    /// How many blocks each run goes over, at most.
    pub(crate) blocks_of_run: u32,
}

/// Some neighbouring blocks of those that are asked about.
#[derive(Clone, Copy)]
pub(crate) struct Stretch {
    /// How many of them come before.
    pub(crate) before: u32,
    /// How many these are.
    pub(crate) blocks: u32,
}

/// The most bytes of blocks that a run goes over: what it appended is in memory at once.
const MOST_OF_RUN: u32 = 16 * 1024 * 1024;

/// How many blocks a run goes over. Where rows come of several programs it is one, so that they come in the order of the blocks. Else it
/// is as many as the zone has room for, whatever matches.
pub(crate) fn blocks_of_run(block: BlockSize, parts: &[Part], is_rows: bool, capacity: u32) -> u32 {
    if is_rows && parts.len() > 1 {
        return 1;
    }
    let mut blocks = MOST_BLOCKS.min(MOST_OF_RUN / block.bytes());
    for part in parts {
        let limit = part.sizes.limit();
        if limit > 0 {
            let together = block.bytes() / limit;
            blocks = blocks.min(capacity.saturating_mul(together));
        }
    }
    blocks.max(1)
}

impl Plan {
    /// How often each program runs.
    pub(crate) fn times(&self) -> u32 {
        self.source.blocks.div_ceil(self.blocks_of_run.max(1))
    }

    /// The blocks of a time.
    pub(crate) fn stretch(&self, time: u32) -> Stretch {
        let before = time.saturating_mul(self.blocks_of_run);
        let left = self.source.blocks.saturating_sub(before);
        Stretch {
            before,
            blocks: left.min(self.blocks_of_run),
        }
    }

    /// How many runs there are.
    pub(crate) fn runs(&self) -> u64 {
        u64::from(self.times()).saturating_mul(self.compiled.programs())
    }

    /// How many blocks all runs append, if all records match.
    pub(crate) fn room(&self) -> u64 {
        let mut room: u64 = 0;
        for part in &self.compiled.parts {
            room = room.saturating_add(self.room_of(part));
        }
        room
    }

    /// How many blocks the runs of a program append, if all records match.
    fn room_of(&self, part: &Part) -> u64 {
        let mut room: u64 = 0;
        for time in 0..self.times() {
            let blocks = blocks_needed(self.stretch(time).blocks, part.sizes);
            room = room.saturating_add(u64::from(blocks));
        }
        room
    }
}

/// Asks the question, and prints the answer.
///
/// # Errors
///
/// The device refuses a command; standard output fails; or want of memory.
pub(crate) fn answer<'a, O: Write>(
    alloc: Global,
    asked: &mut AskedDevice,
    plan: &Plan,
    form: Form,
    out: &mut O,
) -> Result<(), Failure<'a>> {
    check_kept(alloc, asked, plan)?;
    open(alloc, asked, plan)?;
    let mut printing = Printed::new(alloc, form);
    match &plan.compiled.wanted {
        Wanted::Rows(columns) => {
            load_all(alloc, asked, plan)?;
            answer_rows(alloc, asked, plan, columns.as_slice(), &mut printing, out)?;
        }
        Wanted::Tallies(tallies) => {
            answer_tallies(alloc, asked, plan, tallies.as_slice(), &mut printing)?;
        }
    }
    printing.end()?;
    printed(printing.print(out))
}

/// Opens the zone that is appended to, unless it is open.
fn open<'a>(alloc: Global, asked: &mut AskedDevice, plan: &Plan) -> Result<(), Failure<'a>> {
    if asked.state_of(plan.destination) == Some(ZoneState::Empty) {
        return asked.send(alloc, plan.destination_lba, Action::Open);
    }
    Ok(())
}

/// Loads the programs, each into a slot.
fn load_all<'a>(alloc: Global, asked: &mut AskedDevice, plan: &Plan) -> Result<(), Failure<'a>> {
    for (index, part) in plan.compiled.parts.iter().enumerate() {
        load(alloc, asked, index, part)?;
    }
    Ok(())
}

/// Loads a program into the slot of this index.
pub(crate) fn load<'a>(
    alloc: Global,
    asked: &mut AskedDevice,
    index: usize,
    part: &Part,
) -> Result<(), Failure<'a>> {
    let limit = part.sizes.limit();
    asked.load(alloc, slot_of(index), limit, part.program.as_slice())
}

/// The slot of a program, of which there are no more than slots.
pub(crate) fn slot_of(index: usize) -> ProgramSlot {
    match ProgramSlot::new(index.min(PROGRAM_SLOTS - 1) as u32) {
        Some(slot) => slot,
        None => ProgramSlot::new(0).unwrap(),
    }
}

/// So many blocks, of which there are one at least and no more than a command has.
fn counted(blocks: u32) -> BlockCount {
    match BlockCount::new(blocks) {
        Some(count) => count,
        None => BlockCount::from_zero_based(0),
    }
}

/// Asks for rows.
fn answer_rows<'a, O: Write>(
    alloc: Global,
    asked: &mut AskedDevice,
    plan: &Plan,
    columns: &[Column],
    printing: &mut Printed,
    out: &mut O,
) -> Result<(), Failure<'a>> {
    push_names(columns, printing)?;
    let mut bytes = Vec::new(alloc);
    for time in 0..plan.times() {
        let stretch = plan.stretch(time);
        for index in 0..plan.compiled.parts.len() {
            read_answer(alloc, asked, plan, index, stretch, &mut bytes)?;
            push_rows(columns, plan, bytes.as_slice(), printing)?;
            printed(printing.print(out))?;
        }
    }
    Ok(())
}

/// Adds the names of columns.
fn push_names(columns: &[Column], printing: &mut Printed) -> Result<(), AllocError> {
    for (index, column) in columns.iter().enumerate() {
        printing.push_name(index, column.name.as_str())?;
    }
    printing.end_names()
}

/// Runs a program over blocks, to its end, and reads back the blocks that it appended.
fn read_answer<'a>(
    alloc: Global,
    asked: &mut AskedDevice,
    plan: &Plan,
    index: usize,
    stretch: Stretch,
    bytes: &mut Vec<u8>,
) -> Result<(), Failure<'a>> {
    bytes.clear();
    let needed = match plan.compiled.parts.get(index) {
        Some(part) => blocks_needed(stretch.blocks, part.sizes),
        None => 0,
    };
    make_room(alloc, asked, plan, needed)?;
    let written = asked.written(plan.destination);
    let begin = plan.destination_lba.saturating_add(u64::from(written));
    let appended = run(alloc, asked, plan, index, stretch)?;
    read_back(alloc, asked, plan.compiled.block, begin, appended, bytes)
}

/// Adds the bytes of so many blocks from an address on.
fn read_back<'a>(
    alloc: Global,
    asked: &mut AskedDevice,
    block: BlockSize,
    begin: u64,
    blocks: u32,
    bytes: &mut Vec<u8>,
) -> Result<(), Failure<'a>> {
    let most = (MOST_TRANSFER as u32 / block.bytes()).max(1);
    for time in 0..blocks.div_ceil(most) {
        let before = time.saturating_mul(most);
        let count = counted(most.min(blocks.saturating_sub(before)));
        asked.read(alloc, begin.saturating_add(u64::from(before)), count, bytes)?;
    }
    Ok(())
}

/// Runs a program over blocks, to its end: how many blocks it appended.
pub(crate) fn run<'a>(
    alloc: Global,
    asked: &mut AskedDevice,
    plan: &Plan,
    index: usize,
    stretch: Stretch,
) -> Result<u32, Failure<'a>> {
    let command = RunCommand {
        lba: plan.source.lba.saturating_add(u64::from(stretch.before)),
        blocks: counted(stretch.blocks),
        slot: slot_of(index),
        argument: plan.argument,
        destination: plan.destination_lba,
    };
    let completion = asked.run(alloc, command)?;
    Ok(completion.dw1)
}

/// Refuses a zone that is to keep the answer, and lacks room for it.
fn check_kept<'a>(alloc: Global, asked: &AskedDevice, plan: &Plan) -> Result<(), Failure<'a>> {
    let room = plan.room();
    let written = u64::from(asked.written(plan.destination));
    if !plan.is_kept || written.saturating_add(room) <= u64::from(asked.capacity()) {
        return Ok(());
    }
    let zone = plan.destination;
    let told = format!(in alloc;
        "--into {zone}: the zone lacks room for {room} blocks more, which the answer takes if all records match; name one that is Empty, or ask about fewer by --blocks"
    );
    Err(refused(told))
}

/// Makes room for so many blocks: where the zone that is appended to lacks it, it is reset, of which all is read. One that is kept has room
/// for all.
fn make_room<'a>(
    alloc: Global,
    asked: &mut AskedDevice,
    plan: &Plan,
    blocks: u32,
) -> Result<(), Failure<'a>> {
    let written = asked.written(plan.destination);
    if plan.is_kept || written.saturating_add(blocks) <= asked.capacity() {
        return Ok(());
    }
    asked.send(alloc, plan.destination_lba, Action::Reset)?;
    asked.send(alloc, plan.destination_lba, Action::Open)
}
