//! The kinds of entries, as they stand on the command line.

use command_files::arguments::{ARGUMENT_OPTION, BLOCK_OPTION, EMIT_OPTION};
use command_words::{Argument, Takes, Words};
use zone_state::Action;

pub(crate) const QUEUE: &str = "queue";

pub(crate) const CID: &str = "cid";

/// The option that names the command file to which the line is added.
pub(crate) const INTO: &str = "into";

/// A logical block address: of the first block, or of a zone.
pub(crate) const LBA: &str = "lba";

/// The number of blocks.
pub(crate) const BLOCKS: &str = "blocks";

/// The file whose bytes stand beside the entry: `--data`, or `--program`.
pub(crate) const FILE: &str = "FILE";

/// Select All.
pub(crate) const ALL: &str = "all";

pub(crate) const STATE: &str = "state";

pub(crate) const PARTIAL: &str = "partial";

pub(crate) const DWORDS: &str = "dwords";

pub(crate) const SLOT: &str = "slot";

/// The first block of a run.
pub(crate) const FROM: &str = "from";

/// The zone that a run appends to.
pub(crate) const TO: &str = "to";

/// The word of `--state` for zones of all states.
pub(crate) const EVERY: &str = "all";

/// The words of `--state`: that one, and those of the states, as `zones` prints them. The parser of the command line
/// wants them as a constant.
const STATES: &[&str] = &[
    EVERY, "empty", "implicit", "explicit", "closed", "full", "readonly", "offline",
];

/// A kind of entry.
#[derive(Clone, Copy)]
pub(crate) enum Kind {
    Append,
    Write,
    Read,
    /// An action on a zone, or on those that Select All takes.
    Send(Action),
    Report,
    Load,
    Run,
    Result,
}

/// The kinds by their names, which [`KINDS`] has too.
const NAMED: &[(&str, Kind)] = &[
    ("append", Kind::Append),
    ("write", Kind::Write),
    ("read", Kind::Read),
    ("open", Kind::Send(Action::Open)),
    ("close", Kind::Send(Action::Close)),
    ("finish", Kind::Send(Action::Finish)),
    ("reset", Kind::Send(Action::Reset)),
    ("offline", Kind::Send(Action::Offline)),
    ("report", Kind::Report),
    ("load", Kind::Load),
    ("run", Kind::Run),
    ("result", Kind::Result),
];

impl Kind {
    /// The kind with this name, if there is one.
    pub(crate) fn named(name: &str) -> Option<Kind> {
        for (word, kind) in NAMED {
            if *word == name {
                return Some(*kind);
            }
        }
        None
    }

    /// Does the data of a file stand beside its entries?
    pub(crate) fn has_file(self) -> bool {
        matches!(self, Kind::Append | Kind::Write | Kind::Load)
    }

    /// Does it move blocks?
    pub(crate) fn moves_blocks(self) -> bool {
        matches!(self, Kind::Append | Kind::Write | Kind::Read)
    }
}

const QUEUE_ARGUMENT: Argument = Argument {
    id: QUEUE,
    long: QUEUE,
    short: None,
    takes: Takes::Default("Q", "1"),
    help: "The submission queue, from 0 to 65535",
};

const CID_ARGUMENT: Argument = Argument {
    id: CID,
    long: CID,
    short: None,
    takes: Takes::Optional("C"),
    help: "The command identifier, from 0 to 65535, which the completion repeats; by default 1, and with --into one \
           more than the highest of the queue in the file",
};

const INTO_ARGUMENT: Argument = Argument {
    id: INTO,
    long: INTO,
    short: None,
    takes: Takes::Optional("COMMANDS"),
    help: "The command file to whose end the line is added, in place of printing it",
};

const DATA_ARGUMENT: Argument = Argument {
    id: FILE,
    long: "data",
    short: None,
    takes: Takes::Required("FILE"),
    help: "The file: whole blocks, at most 131072 bytes",
};

/// The option that gives the bytes of a block, 512 where it isn't given.
pub(crate) const BLOCK_ARGUMENT: Argument = Argument {
    id: BLOCK_OPTION,
    long: BLOCK_OPTION,
    short: None,
    takes: Takes::Default("B", "512"),
    help: "Bytes of a block: a power of 2 from 512 to 16384",
};

const SLOT_ARGUMENT: Argument = Argument {
    id: SLOT,
    long: SLOT,
    short: None,
    takes: Takes::Required("S"),
    help: "The slot of the program, from 0 to 7",
};

/// What an action on zones takes.
const ACTION_ARGUMENTS: &[Argument] = &[
    Argument {
        id: LBA,
        long: LBA,
        short: None,
        takes: Takes::Optional("LBA"),
        help: "The lowest logical block address of the zone",
    },
    Argument {
        id: ALL,
        long: ALL,
        short: None,
        takes: Takes::Nothing,
        help: "All zones that Select All takes for the action",
    },
    QUEUE_ARGUMENT,
    CID_ARGUMENT,
    INTO_ARGUMENT,
];

/// The words of each kind.
pub static KINDS: [Words; 12] = [
    Words {
        name: "append",
        about: "Appends the blocks of a file to a zone",
        long_about: "",
        example: "Example:\n\n  zscli entry append --lba 8 --data block.bin",
        arguments: &[
            Argument {
                id: LBA,
                long: LBA,
                short: None,
                takes: Takes::Required("LBA"),
                help: "The lowest logical block address of the zone",
            },
            DATA_ARGUMENT,
            BLOCK_ARGUMENT,
            QUEUE_ARGUMENT,
            CID_ARGUMENT,
            INTO_ARGUMENT,
        ],
        one_of: &[],
    },
    Words {
        name: "write",
        about: "Writes the blocks of a file at a zone's write pointer",
        long_about: "",
        example: "Example:\n\n  zscli entry write --lba 10 --data block.bin",
        arguments: &[
            Argument {
                id: LBA,
                long: LBA,
                short: None,
                takes: Takes::Required("LBA"),
                help: "The logical block address of the first block",
            },
            DATA_ARGUMENT,
            BLOCK_ARGUMENT,
            QUEUE_ARGUMENT,
            CID_ARGUMENT,
            INTO_ARGUMENT,
        ],
        one_of: &[],
    },
    Words {
        name: "read",
        about: "Reads blocks of a zone",
        long_about: "",
        example: "Example:\n\n  zscli entry read --lba 0 --blocks 2",
        arguments: &[
            Argument {
                id: LBA,
                long: LBA,
                short: None,
                takes: Takes::Required("LBA"),
                help: "The logical block address of the first block",
            },
            Argument {
                id: BLOCKS,
                long: BLOCKS,
                short: None,
                takes: Takes::Required("N"),
                help: "The number of blocks, from 1 to 65536",
            },
            QUEUE_ARGUMENT,
            CID_ARGUMENT,
            INTO_ARGUMENT,
        ],
        one_of: &[],
    },
    Words {
        name: "open",
        about: "Opens a zone, or all Closed zones",
        long_about: "",
        example: "Example:\n\n  zscli entry open --lba 64",
        arguments: ACTION_ARGUMENTS,
        one_of: &[LBA, ALL],
    },
    Words {
        name: "close",
        about: "Closes a zone, or all open zones",
        long_about: "",
        example: "Example:\n\n  zscli entry close --lba 64",
        arguments: ACTION_ARGUMENTS,
        one_of: &[LBA, ALL],
    },
    Words {
        name: "finish",
        about: "Makes a zone Full, or all open and Closed zones",
        long_about: "",
        example: "Example:\n\n  zscli entry finish --lba 64",
        arguments: ACTION_ARGUMENTS,
        one_of: &[LBA, ALL],
    },
    Words {
        name: "reset",
        about: "Empties a zone, or all open, Closed and Full zones",
        long_about: "",
        example: "Example:\n\n  zscli entry reset --all",
        arguments: ACTION_ARGUMENTS,
        one_of: &[LBA, ALL],
    },
    Words {
        name: "offline",
        about: "Takes a Read Only zone offline, or all of them",
        long_about: "",
        example: "Example:\n\n  zscli entry offline --lba 64",
        arguments: ACTION_ARGUMENTS,
        one_of: &[LBA, ALL],
    },
    Words {
        name: "report",
        about: "Reports zones",
        long_about: "",
        example: "Example:\n\n  zscli entry report --lba 0 --state full --partial",
        arguments: &[
            Argument {
                id: LBA,
                long: LBA,
                short: None,
                takes: Takes::Required("LBA"),
                help: "A logical block address of the first zone",
            },
            Argument {
                id: STATE,
                long: STATE,
                short: None,
                takes: Takes::OneOf("STATE", EVERY, STATES),
                help: "The zones that are reported",
            },
            Argument {
                id: PARTIAL,
                long: PARTIAL,
                short: None,
                takes: Takes::Nothing,
                help: "Tell the number of the descriptors that are given, and not of all zones that match",
            },
            Argument {
                id: DWORDS,
                long: DWORDS,
                short: None,
                takes: Takes::Default("D", "1024"),
                help: "The dwords of the report, from 1 to 32768: 16 for its header, and 16 for each zone",
            },
            QUEUE_ARGUMENT,
            CID_ARGUMENT,
            INTO_ARGUMENT,
        ],
        one_of: &[],
    },
    Words {
        name: "load",
        about: "Loads a program into a slot",
        long_about: "",
        example: "Example:\n\n  zscli entry load --slot 0 --program filter.bin --emit 66",
        arguments: &[
            SLOT_ARGUMENT,
            Argument {
                id: FILE,
                long: "program",
                short: None,
                takes: Takes::Required("FILE"),
                help: "The program, as instruction bytes",
            },
            Argument {
                id: EMIT_OPTION,
                long: EMIT_OPTION,
                short: None,
                takes: Takes::Required("E"),
                help: "The most bytes that may be emitted for a block, two for each record counted: at most a block's",
            },
            QUEUE_ARGUMENT,
            CID_ARGUMENT,
            INTO_ARGUMENT,
        ],
        one_of: &[],
    },
    Words {
        name: "run",
        about: "Starts a run of a slot's program",
        long_about: "",
        example: "Example:\n\n  zscli entry run --slot 0 --from 0 --blocks 52 --to 64 --argument 7",
        arguments: &[
            SLOT_ARGUMENT,
            Argument {
                id: FROM,
                long: FROM,
                short: None,
                takes: Takes::Required("LBA"),
                help: "The logical block address of the first block that the program runs on",
            },
            Argument {
                id: BLOCKS,
                long: BLOCKS,
                short: None,
                takes: Takes::Required("N"),
                help: "The number of these blocks, from 1 to 65536",
            },
            Argument {
                id: TO,
                long: TO,
                short: None,
                takes: Takes::Required("LBA"),
                help: "The lowest logical block address of the zone that is appended to",
            },
            Argument {
                id: ARGUMENT_OPTION,
                long: ARGUMENT_OPTION,
                short: None,
                takes: Takes::Default("A", "0"),
                help: "The argument of the run, a number that the program is told",
            },
            QUEUE_ARGUMENT,
            CID_ARGUMENT,
            INTO_ARGUMENT,
        ],
        one_of: &[],
    },
    Words {
        name: "result",
        about: "Gives the scratch bytes that the last successful run of a slot's program left",
        long_about: "",
        example: "Example:\n\n  zscli entry result --slot 0",
        arguments: &[SLOT_ARGUMENT, QUEUE_ARGUMENT, CID_ARGUMENT, INTO_ARGUMENT],
        one_of: &[],
    },
];
