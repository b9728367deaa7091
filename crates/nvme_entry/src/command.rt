//! Commands and their opcodes.

ghost use Rattle.std.specs.Prelude.{◌≡◌, ◌+◌, ◌*◌, ◌≤◌, ◌↔◌, IsSome, IfSome};
ghost use Rattle.std.specs.Int.{IsInRange};
ghost use Rattle.nvme_entry.specs.Entry.{opcode_of, dwords_of};

use crate::filter::ZoneFilter;
use crate::program_slot::ProgramSlot;
use std::marker::Model;
use zone_state::Action;

/// The most bytes that one command moves (the Maximum Data Transfer Size of NVMe Base 2.0, 5.17; its
/// value is profile).
pub const MOST_TRANSFER: usize = 131_072;

/// The bytes of a dword.
const DWORD_BYTES: usize = 4;

/// The most blocks of a command: their number stands in 16 bits as one less.
pub const MOST_BLOCKS: u32 = 65_536;

/// The most dwords of a command.
pub const MOST_DWORDS: u32 = (MOST_TRANSFER / DWORD_BYTES) as u32;

/// The opcode of a command (NVM Command Set 1.0, 3.2; ZNS 1.1, 3.4; Run, Load and Result are profile).
#[derive(Clone, Copy, Debug, PartialEq, Eq)]
pub(crate) enum Opcode {
    /// 01h: writes blocks at a zone's write pointer.
    Write,
    /// 02h: reads blocks.
    Read,
    /// 79h: an action on a zone, or on those that Select All takes.
    ZoneManagementSend,
    /// 7Ah: a report of zones.
    ZoneManagementReceive,
    /// 7Dh: writes blocks to a zone, and tells where they went.
    ZoneAppend,
    /// C0h: starts a run of a slot's program.
    Run,
    /// C1h: loads a program into a slot.
    Load,
    /// C2h: reads the scratch bytes that the last successful run of a slot's program left.
    Result,
}

impl Opcode {
    /// The opcode with this code; `None` for one that isn't supported.
    pub(crate) fn from_code(code: u8) -> Option<Opcode>
        ensures { result ≡ opcode_of code }
    {
        match code {
            0x01 => Some(Opcode::Write),
            0x02 => Some(Opcode::Read),
            0x79 => Some(Opcode::ZoneManagementSend),
            0x7A => Some(Opcode::ZoneManagementReceive),
            0x7D => Some(Opcode::ZoneAppend),
            0xC0 => Some(Opcode::Run),
            0xC1 => Some(Opcode::Load),
            0xC2 => Some(Opcode::Result),
            _ => None,
        }
    }

    /// The opcode's code.
    pub(crate) fn code(self) -> u8
        ensures { opcode_of result ≡ Some self }
    {
        match self {
            Opcode::Write => 0x01,
            Opcode::Read => 0x02,
            Opcode::ZoneManagementSend => 0x79,
            Opcode::ZoneManagementReceive => 0x7A,
            Opcode::ZoneAppend => 0x7D,
            Opcode::Run => 0xC0,
            Opcode::Load => 0xC1,
            Opcode::Result => 0xC2,
        }
    }
}

/// A number of logical blocks, from 1 to [`MOST_BLOCKS`]. A clause sees the number.
#[derive(Clone, Copy, Debug, PartialEq, Eq)]
pub struct BlockCount {
    blocks: u32,
}

impl Model for BlockCount {
    ghost use Rattle.std.specs.Prelude.{ℕ};
    ghost use Rattle.std.specs.Int.{IsInRange};
    ghost use Rattle.nvme_entry.specs.declared.command.TheConstants.{MOST_BLOCKS};

    ghost Value = { ℕ };

    ghost view = { λ n. n.blocks };

    ghost invariant = { λ n. IsInRange 1 MOST_BLOCKS n.blocks };

    ghost inverse = { λ n. record { blocks = n } };
}

impl BlockCount {
    /// So many blocks. `None` where no command has as many.
    pub fn new(blocks: u32) -> Option<BlockCount>
        ensures found { IsSome result ↔ IsInRange 1 MOST_BLOCKS blocks }
        ensures value { IfSome result (λ n. n ≡ blocks) }
    {
        if blocks >= 1 && blocks <= MOST_BLOCKS {
            Some(BlockCount { blocks })
        } else {
            None
        }
    }

    /// The number that a zero-based field spells: one more than the field says.
    pub fn from_zero_based(field: u16) -> BlockCount
        ensures { result ≡ field + 1 }
    {
        BlockCount {
            blocks: u32::from(field) + 1,
        }
    }

    /// The number as a zero-based field spells it: one less.
    pub(crate) fn zero_based(self) -> u16
        ensures { result + 1 ≡ self }
    {
        (self.blocks - 1) as u16
    }

    /// The number of blocks.
    pub fn get(self) -> u32
        ensures value { result ≡ self }
        ensures some { 1 ≤ result }
        ensures most { result ≤ MOST_BLOCKS }
    {
        self.blocks
    }
}

/// A number of dwords, from 1 to [`MOST_DWORDS`]. A clause sees the number.
#[derive(Clone, Copy, Debug, PartialEq, Eq)]
pub struct DwordCount {
    dwords: u32,
}

impl Model for DwordCount {
    ghost use Rattle.std.specs.Prelude.{ℕ};
    ghost use Rattle.std.specs.Int.{IsInRange};
    ghost use Rattle.nvme_entry.specs.declared.command.TheConstants.{MOST_DWORDS};

    ghost Value = { ℕ };

    ghost view = { λ n. n.dwords };

    ghost invariant = { λ n. IsInRange 1 MOST_DWORDS n.dwords };

    ghost inverse = { λ n. record { dwords = n } };
}

impl DwordCount {
    /// So many dwords. `None` where no command has as many.
    pub fn new(dwords: u32) -> Option<DwordCount>
        ensures found { IsSome result ↔ IsInRange 1 MOST_DWORDS dwords }
        ensures value { IfSome result (λ n. n ≡ dwords) }
    {
        if dwords >= 1 && dwords <= MOST_DWORDS {
            Some(DwordCount { dwords })
        } else {
            None
        }
    }

    /// The number that a zero-based field spells: one more than the field says. `None` where that
    /// is more than one command moves.
    pub fn from_zero_based(field: u32) -> Option<DwordCount>
        ensures { result ≡ dwords_of field }
    {
        if field >= MOST_DWORDS {
            return None;
        }
        Some(DwordCount { dwords: field + 1 })
    }

    /// The number as a zero-based field spells it: one less.
    pub(crate) fn zero_based(self) -> u32
        ensures { dwords_of result ≡ Some self }
    {
        self.dwords - 1
    }

    /// The number of bytes.
    pub fn bytes(self) -> usize
        ensures value { result ≡ 4 * self }
        ensures some { 4 ≤ result }
        ensures most { result ≤ MOST_TRANSFER }
    {
        self.dwords as usize * DWORD_BYTES
    }
}

/// What an entry asks for.
#[derive(Clone, Copy, Debug, PartialEq, Eq)]
pub enum Command {
    /// A command of the standards (NVM Command Set 1.0, 3.2; ZNS 1.1, 3.4).
    Standard(StandardCommand),
    /// Starts a run of a program (profile).
    Run(RunCommand),
    /// Puts a program into a slot (profile).
    Load(LoadCommand),
    /// Gives the scratch bytes that the last successful run of a slot's program left (profile).
    Result(ProgramSlot),
}

/// A command of the standards, with its fields. `lba` is a logical block address.
#[derive(Clone, Copy, Debug, PartialEq, Eq)]
pub enum StandardCommand {
    /// Writes blocks from `lba` on, which is the write pointer of its zone
    /// (NVM Command Set 1.0, 3.2.6; ZNS 1.1, 3.3.6).
    Write {
        /// The first block that is written.
        lba: u64,
        /// How many are written.
        blocks: BlockCount,
    },
    /// Reads blocks from `lba` on (NVM Command Set 1.0, 3.2.4; ZNS 1.1, 3.3.2).
    Read {
        /// The first block that is read.
        lba: u64,
        /// How many are read.
        blocks: BlockCount,
    },
    /// Takes an action on the zone whose lowest LBA is `lba`, or on all zones that Select All
    /// takes (ZNS 1.1, 3.4.3).
    Send {
        /// The lowest block of the zone; ignored with Select All.
        lba: u64,
        /// The action.
        action: Action,
        /// Is it taken on the zones that Select All takes, in place of one?
        select_all: bool,
    },
    /// Reports the zones that `filter` lists from the one that contains `lba` on; with `partial`
    /// the number of zones told is that of the descriptors given (ZNS 1.1, 3.4.2).
    Receive {
        /// A block of the zone that the report begins with.
        lba: u64,
        /// The length of the report.
        dwords: DwordCount,
        /// The zones that are reported.
        filter: ZoneFilter,
        /// Does the number of zones told leave out those whose descriptors do not fit?
        partial: bool,
    },
    /// Writes blocks at the write pointer of the zone whose lowest LBA is `lba`
    /// (ZNS 1.1, 3.4.1).
    Append {
        /// The lowest block of the zone.
        lba: u64,
        /// How many are written.
        blocks: BlockCount,
    },
}

/// A run that is asked for (profile): the program of a slot over blocks of one zone, what it emits being
/// appended to another.
#[derive(Clone, Copy, Debug, PartialEq, Eq)]
pub struct RunCommand {
    /// The logical block address of the first block that the program runs on.
    pub lba: u64,
    /// The number of these blocks.
    pub blocks: BlockCount,
    /// The slot of the program.
    pub slot: ProgramSlot,
    /// A number that the program is told.
    pub argument: u32,
    /// The lowest logical block address of the zone that is appended to.
    pub destination: u64,
}

/// A program that is to be loaded (profile). Its bytes stand beside the entry.
#[derive(Clone, Copy, Debug, PartialEq, Eq)]
pub struct LoadCommand {
    /// The slot that is to hold it.
    pub slot: ProgramSlot,
    /// The most bytes that it may emit for a block, the lengths of its frames counted.
    pub limit: u32,
    /// The number of its bytes.
    pub bytes: u32,
}
