//! What the words of an entry say, as plain values.

use crate::identifiers::Identifiers;
use crate::kinds::{
    ALL, BLOCKS, CID, DWORDS, EVERY, FILE, FROM, Kind, LBA, PARTIAL, QUEUE, SLOT, STATE, TO,
};
use clap::parser::ValueSource;
use clap::{ArgMatches, Command};
use command_files::Failure;
use command_files::arguments::{
    ARGUMENT_OPTION, BLOCK_OPTION, EMIT_OPTION, block_size, no_command, not_in_range,
    number_or_hexadecimal_in_range, required,
};
use nvme_entry::{
    BlockCount, DwordCount, MOST_BLOCKS, MOST_DWORDS, PROGRAM_SLOTS, ProgramSlot, ZoneFilter,
};
use program_interface::BlockSize;
use zone_state::ZoneState;

/// The numbers that the words of an entry give.
#[derive(Clone, Copy)]
pub(crate) struct Numbers {
    pub(crate) identifiers: Identifiers,
    /// The logical block address: of the first block, or of a zone.
    pub(crate) lba: u64,
    pub(crate) blocks: Option<BlockCount>,
    /// The bytes of a block.
    block: u32,
    pub(crate) dwords: Option<DwordCount>,
    pub(crate) slot: Option<ProgramSlot>,
    /// The most bytes that a program may emit for a block.
    pub(crate) limit: u32,
    pub(crate) argument: u32,
    pub(crate) destination: u64,
}

/// A number, by where it goes.
#[derive(Clone, Copy)]
enum Number {
    Queue,
    Cid,
    Lba,
    Blocks,
    Block,
    Dwords,
    Slot,
    Limit,
    Argument,
    Destination,
}

/// An option with a number.
#[derive(Clone, Copy)]
struct NumberOption {
    option: &'static str,
    number: Number,
    least: u64,
    most: u64,
}

/// The options with a number, in the order in which they are read.
const NUMBERS: &[NumberOption] = &[
    NumberOption {
        option: QUEUE,
        number: Number::Queue,
        least: 0,
        most: u16::MAX as u64,
    },
    NumberOption {
        option: CID,
        number: Number::Cid,
        least: 0,
        most: u16::MAX as u64,
    },
    NumberOption {
        option: LBA,
        number: Number::Lba,
        least: 0,
        most: u64::MAX,
    },
    NumberOption {
        option: FROM,
        number: Number::Lba,
        least: 0,
        most: u64::MAX,
    },
    NumberOption {
        option: BLOCKS,
        number: Number::Blocks,
        least: 1,
        most: MOST_BLOCKS as u64,
    },
    NumberOption {
        option: BLOCK_OPTION,
        number: Number::Block,
        least: 0,
        most: u32::MAX as u64,
    },
    NumberOption {
        option: DWORDS,
        number: Number::Dwords,
        least: 1,
        most: MOST_DWORDS as u64,
    },
    NumberOption {
        option: SLOT,
        number: Number::Slot,
        least: 0,
        most: PROGRAM_SLOTS as u64 - 1,
    },
    NumberOption {
        option: EMIT_OPTION,
        number: Number::Limit,
        least: 0,
        most: u32::MAX as u64,
    },
    NumberOption {
        option: ARGUMENT_OPTION,
        number: Number::Argument,
        least: 0,
        most: u32::MAX as u64,
    },
    NumberOption {
        option: TO,
        number: Number::Destination,
        least: 0,
        most: u64::MAX,
    },
];

impl Numbers {
    /// Those of words that give none: queue 1, and blocks of 512 bytes.
    fn new() -> Numbers {
        Numbers {
            identifiers: Identifiers {
                queue: 1,
                cid: None,
            },
            lba: 0,
            blocks: None,
            block: 512,
            dwords: None,
            slot: None,
            limit: 0,
            argument: 0,
            destination: 0,
        }
    }

    /// Takes this number too; `None` where it can't be so large.
    fn take(&mut self, number: Number, value: u64) -> Option<()> {
        let small = u32::try_from(value).ok();
        match number {
            Number::Queue => self.identifiers.queue = u16::try_from(value).ok()?,
            Number::Cid => self.identifiers.cid = Some(u16::try_from(value).ok()?),
            Number::Lba => self.lba = value,
            Number::Blocks => self.blocks = Some(BlockCount::new(small?)?),
            Number::Block => self.block = small?,
            Number::Dwords => self.dwords = Some(DwordCount::new(small?)?),
            Number::Slot => self.slot = Some(ProgramSlot::new(small?)?),
            Number::Limit => self.limit = small?,
            Number::Argument => self.argument = small?,
            Number::Destination => self.destination = value,
        }
        Some(())
    }

    /// Those that the words give.
    fn of_words<'a>(matches: &ArgMatches<'a>) -> Result<Numbers, Failure<'a>> {
        let mut numbers = Numbers::new();
        for row in NUMBERS {
            if !matches.contains_id(row.option) {
                continue;
            }
            let value = number_or_hexadecimal_in_range(matches, row.option, row.least, row.most)?;
            if numbers.take(row.number, value).is_none() {
                return Err(not_in_range(matches, row.option, row.least, row.most));
            }
        }
        Ok(numbers)
    }
}

/// What the words of an entry say.
#[derive(Clone, Copy)]
pub(crate) struct EntryWords<'a> {
    pub(crate) kind: Kind,
    pub(crate) numbers: Numbers,
    /// The size of a block.
    pub(crate) block: BlockSize,
    /// The name of the file whose bytes stand beside the entry, where the kind has one.
    pub(crate) path: &'a str,
    pub(crate) select_all: bool,
    pub(crate) filter: ZoneFilter,
    pub(crate) partial: bool,
}

impl<'a> EntryWords<'a> {
    /// What the words of the kind of entry with this name say. A block has the size that they give, or else this one, if there is one.
    pub(crate) fn of(
        command_line: &mut Command<'a>,
        name: &str,
        matches: &ArgMatches<'a>,
        block: Option<BlockSize>,
    ) -> Result<EntryWords<'a>, Failure<'a>> {
        let Some(kind) = Kind::named(name) else {
            return Err(no_command(command_line));
        };
        let numbers = Numbers::of_words(matches)?;
        let block = match (block, matches.value_source(BLOCK_OPTION)) {
            (Some(block), None | Some(ValueSource::DefaultValue)) => block,
            _ => block_size(numbers.block)?,
        };
        Ok(EntryWords {
            kind,
            numbers,
            block,
            path: required(matches, FILE),
            select_all: matches.get_flag(ALL),
            // A word that names no filter is refused before this.
            filter: filter(required(matches, STATE)).unwrap_or(ZoneFilter::All),
            partial: matches.get_flag(PARTIAL),
        })
    }
}

/// The filter with this name, one of those of `--state`.
fn filter(name: &str) -> Option<ZoneFilter> {
    if name == EVERY {
        return Some(ZoneFilter::All);
    }
    let state = ZoneState::ALL.iter().find(|state| state.word() == name)?;
    Some(ZoneFilter::of(*state))
}
