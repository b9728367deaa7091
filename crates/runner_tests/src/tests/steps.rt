//! What happens to a device, as data: steps, each with the reply that it has to get.

use byteorder::{ByteOrder, LittleEndian};
use device_events::CompletionEntry;
use ebpf_asm::assemble;
use nvme_entry::{Completion, Status};
use runner::{Event, Reply};
use std::alloc::Global;
use std::test::Fail;
use test_inputs::programs::Text;
use test_inputs::texts::repeated;
use zns_commands::FaultState;
use zone_state::Action;

/// Bytes in hexadecimal: words, where `a5*512` stands for 512 bytes a5h.
pub(super) type Bytes = &'static str;

/// A step, and the reply that is expected. Where bytes go with it, they are in the step.
pub(super) type Case = (Step, Expected);

/// The queue that entries come from.
const QUEUE: u16 = 3;

/// Something that happens. The first number of an entry is its command identifier, and numbers of blocks aren't zero-based.
#[derive(Clone, Copy)]
pub(super) enum Step {
    /// So many turns of a run, with the same reply each.
    Turns(u8, usize),
    /// A zone has a fault.
    Fault(u32, FaultState),
    /// A Write to an address, of blocks of these bytes.
    Write(u16, u64, Bytes),
    /// A Zone Append to the zone of an address, of blocks of these bytes.
    Append(u16, u64, Bytes),
    /// A Read of so many blocks from an address on, and what it gives.
    Read(u16, u64, u32, Bytes),
    /// A Zone Management Send to an address.
    Send(u16, u64, Action),
    /// A Load of a program into a slot, with the most bytes that may be emitted for a block.
    Load(u16, u8, u32, Text),
    /// A Run of slot 0 over so many blocks from an address on, to the zone of an address.
    Run(u16, u64, u32, u64),
    /// A Result of a slot, and what it gives.
    Result(u16, u8, Bytes),
    /// Any entry with bytes beside it: its opcode, Command Dwords 10 and 11, each of 12 and 13, and 14 and 15.
    Entry(u16, u8, u64, [u32; 2], u64, Bytes),
}

/// The reply that is expected of a device.
#[derive(Clone, Copy)]
pub(super) enum Expected {
    /// The command with this identifier is done.
    Done(u16),
    /// The same, with these Dwords 0 and 1.
    DoneWith(u16, u32, u32),
    /// It is refused.
    Refused(u16, Status),
    /// Its program is refused, for this slot and this reason.
    ProgramRefused(u16, u32, u32),
    /// This run was admitted, or has turns left.
    Pending(u8),
    /// The run isn't active.
    Idle,
    /// The fault is taken.
    FaultTaken,
    /// It is refused.
    FaultRefused,
}

impl Step {
    /// How often it happens.
    pub(super) fn times(self) -> usize {
        match self {
            Step::Turns(_, times) => times,
            _ => 1,
        }
    }

    /// What happens.
    pub(super) fn event(self, alloc: Global) -> Result<Event, Fail> {
        match self {
            Step::Turns(run, _) => Ok(Event::Turn { run }),
            Step::Fault(zone, state) => Ok(Event::Fault { zone, state }),
            _ => {
                let input = self.beside(alloc)?;
                let entry = self.entry(u32::try_from(input.len())?);
                Ok(Event::Submit {
                    queue: QUEUE,
                    entry,
                    input,
                })
            }
        }
    }

    /// Its entry, with so many bytes beside it.
    fn entry(self, bytes: u32) -> [u8; 64] {
        let last = (bytes / 512).wrapping_sub(1);
        match self {
            Step::Write(cid, lba, _) => entry_of(cid, 0x01, lba, [last, 0], 0),
            Step::Append(cid, lba, _) => entry_of(cid, 0x7d, lba, [last, 0], 0),
            Step::Read(cid, lba, blocks, _) => {
                entry_of(cid, 0x02, lba, [blocks.wrapping_sub(1), 0], 0)
            }
            Step::Send(cid, lba, action) => {
                entry_of(cid, 0x79, lba, [0, u32::from(action.code())], 0)
            }
            Step::Load(cid, slot, limit, _) => {
                let place = u64::from(slot) | (u64::from(limit) << 32);
                entry_of(cid, 0xc1, place, [bytes, 0], 0)
            }
            Step::Run(cid, lba, blocks, to) => {
                entry_of(cid, 0xc0, lba, [blocks.wrapping_sub(1), 0], to)
            }
            Step::Result(cid, slot, _) => entry_of(cid, 0xc2, u64::from(slot), [0, 0], 0),
            Step::Entry(cid, opcode, place, rest, to, _) => entry_of(cid, opcode, place, rest, to),
            _ => [0; 64],
        }
    }

    /// The bytes beside its entry.
    fn beside(self, alloc: Global) -> Result<Vec<u8>, Fail> {
        match self {
            Step::Load(_, _, _, program) => Ok(assemble(alloc, program.as_bytes())?),
            Step::Write(_, _, beside) => bytes_of(alloc, beside),
            Step::Append(_, _, beside) => bytes_of(alloc, beside),
            Step::Entry(_, _, _, _, _, beside) => bytes_of(alloc, beside),
            _ => Ok(Vec::new(alloc)),
        }
    }

    /// The bytes that it gives.
    pub(super) fn gives(self) -> Bytes {
        match self {
            Step::Read(_, _, _, gives) => gives,
            Step::Result(_, _, gives) => gives,
            _ => "",
        }
    }
}

/// The entry to namespace 1 with this opcode, and these Command Dwords 10 and 11, each of 12 and 13, and 14 and 15.
fn entry_of(cid: u16, opcode: u8, place: u64, rest: [u32; 2], to: u64) -> [u8; 64] {
    let [twelve, thirteen] = rest;
    let mut entry = [0; 64];
    entry[0] = opcode;
    LittleEndian::write_u16(&mut entry[2..], cid);
    entry[4] = 1;
    LittleEndian::write_u64(&mut entry[40..], place);
    LittleEndian::write_u32(&mut entry[48..], twelve);
    LittleEndian::write_u32(&mut entry[52..], thirteen);
    LittleEndian::write_u64(&mut entry[56..], to);
    entry
}

impl Expected {
    /// The reply, where so many bytes are given.
    pub(super) fn reply(self, length: usize) -> Reply {
        match self {
            Expected::Done(cid) => complete(cid, [0, 0], Status::SUCCESS, length),
            Expected::DoneWith(cid, first, second) => {
                complete(cid, [first, second], Status::SUCCESS, length)
            }
            Expected::Refused(cid, status) => complete(cid, [0, 0], status, length),
            Expected::ProgramRefused(cid, slot, reason) => {
                complete(cid, [slot, reason], Status::PROGRAM_REFUSED, length)
            }
            Expected::Pending(run) => Reply::Pending { run },
            Expected::Idle => Reply::Idle,
            Expected::FaultTaken => Reply::FaultTaken,
            Expected::FaultRefused => Reply::FaultRefused,
        }
    }
}

/// The completion of a command.
fn complete(cid: u16, dwords: [u32; 2], status: Status, length: usize) -> Reply {
    let completion = Completion {
        dw0: dwords[0],
        dw1: dwords[1],
        queue: QUEUE,
        cid,
        status,
    };
    Reply::Complete {
        queue: QUEUE,
        entry: CompletionEntry::new(completion),
        length,
    }
}

/// The bytes that hexadecimal words spell.
pub(super) fn bytes_of(alloc: Global, bytes: &str) -> Result<Vec<u8>, Fail> {
    let digits = repeated(alloc, bytes, ' ')?;
    Ok(hex::decode(alloc, digits.as_str())?)
}
