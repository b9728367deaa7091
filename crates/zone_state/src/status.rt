//! The status of a completed command.

ghost use Rattle.std.specs.Prelude.{◌≡◌, ◌<◌, ◌^◌};
ghost use Rattle.zone_state.specs.Status.{type_number, type_of};

/// Status code types (NVMe Base 2.0, 3.3.3.2).
#[derive(Clone, Copy, Debug, PartialEq, Eq)]
pub enum StatusType {
    /// Generic command status.
    Generic,
    /// Command specific status.
    CommandSpecific,
    /// Vendor specific status.
    VendorSpecific,
}

impl StatusType {
    /// The number that the status field has for the type, in three bits.
    pub fn number(self) -> u8
        ensures number { result ≡ type_number self }
        ensures three_bits { result < 2 ^ 3 }
    {
        match self {
            StatusType::Generic => 0x0,
            StatusType::CommandSpecific => 0x1,
            StatusType::VendorSpecific => 0x7,
        }
    }

    /// The type that has this number; `None` where it is that of no type here.
    pub fn from_number(number: u8) -> Option<StatusType>
        ensures { result ≡ type_of number }
    {
        match number {
            0x0 => Some(StatusType::Generic),
            0x1 => Some(StatusType::CommandSpecific),
            0x7 => Some(StatusType::VendorSpecific),
            _ => None,
        }
    }
}

/// Status code type and status code (NVMe Base 2.0, 3.3.3.2).
#[derive(Clone, Copy, Debug, PartialEq, Eq)]
pub struct Status {
    /// The status code type.
    pub kind: StatusType,
    /// The status code.
    pub code: u8,
}

/// Generic command status (NVMe Base 2.0, 3.3.3.2).
impl Status {
    /// The command is done.
    pub const SUCCESS: Status = Status {
        kind: StatusType::Generic,
        code: 0x00,
    };

    /// The opcode is none that is supported.
    pub const INVALID_COMMAND_OPCODE: Status = Status {
        kind: StatusType::Generic,
        code: 0x01,
    };

    /// A field has a value that it may not have, or the data is not as long as the fields say.
    pub const INVALID_FIELD_IN_COMMAND: Status = Status {
        kind: StatusType::Generic,
        code: 0x02,
    };

    /// The namespace is not 1.
    pub const INVALID_NAMESPACE_OR_FORMAT: Status = Status {
        kind: StatusType::Generic,
        code: 0x0B,
    };

    /// A block that the entry names is not in the namespace.
    pub const LBA_OUT_OF_RANGE: Status = Status {
        kind: StatusType::Generic,
        code: 0x80,
    };
}

/// Command specific status (NVMe Base 2.0, 3.3.3.2), of zones.
impl Status {
    /// A Read or the source of a Run passes its zone's end, or a write its zone's capacity.
    pub const ZONE_BOUNDARY_ERROR: Status = Status {
        kind: StatusType::CommandSpecific,
        code: 0xB8,
    };

    /// A write to a Full zone.
    pub const ZONE_IS_FULL: Status = Status {
        kind: StatusType::CommandSpecific,
        code: 0xB9,
    };

    /// A write to a Read Only zone.
    pub const ZONE_IS_READ_ONLY: Status = Status {
        kind: StatusType::CommandSpecific,
        code: 0xBA,
    };

    /// A Read of an Offline zone, a Run from one, or a write to one.
    pub const ZONE_IS_OFFLINE: Status = Status {
        kind: StatusType::CommandSpecific,
        code: 0xBB,
    };

    /// A Write that does not begin at the zone's write pointer.
    pub const ZONE_INVALID_WRITE: Status = Status {
        kind: StatusType::CommandSpecific,
        code: 0xBC,
    };

    /// An active resource is wanted, and none is free.
    pub const TOO_MANY_ACTIVE_ZONES: Status = Status {
        kind: StatusType::CommandSpecific,
        code: 0xBD,
    };

    /// More zones would be open than may be, and none gives way.
    pub const TOO_MANY_OPEN_ZONES: Status = Status {
        kind: StatusType::CommandSpecific,
        code: 0xBE,
    };

    /// The zone's state does not allow the action.
    pub const INVALID_ZONE_STATE_TRANSITION: Status = Status {
        kind: StatusType::CommandSpecific,
        code: 0xBF,
    };
}

/// Vendor specific status (profile), of what runs hold and of the commands for programs.
impl Status {
    /// An active run holds the zone against the command.
    pub const ZONE_HELD: Status = Status {
        kind: StatusType::VendorSpecific,
        code: 0xC0,
    };

    /// The slot has no program.
    pub const NO_SUCH_PROGRAM: Status = Status {
        kind: StatusType::VendorSpecific,
        code: 0xC1,
    };

    /// The bytes are no program, or it is not accepted; the completion tells the instruction's slot and the reason.
    pub const PROGRAM_REFUSED: Status = Status {
        kind: StatusType::VendorSpecific,
        code: 0xC2,
    };

    /// As many runs are active as can be.
    pub const NO_RUN_FREE: Status = Status {
        kind: StatusType::VendorSpecific,
        code: 0xC3,
    };

    /// Not all of the blocks that the run is to read are written.
    pub const SOURCE_NOT_WRITTEN: Status = Status {
        kind: StatusType::VendorSpecific,
        code: 0xC4,
    };

    /// The zone that the run is to append to is not open.
    pub const DESTINATION_NOT_OPEN: Status = Status {
        kind: StatusType::VendorSpecific,
        code: 0xC5,
    };

    /// The zone that the run is to append to has less room than the run may need.
    pub const DESTINATION_LACKS_ROOM: Status = Status {
        kind: StatusType::VendorSpecific,
        code: 0xC6,
    };

    /// There is no memory for the program; nothing has changed.
    pub const WANT_OF_MEMORY: Status = Status {
        kind: StatusType::VendorSpecific,
        code: 0xC7,
    };

    /// The run's program could not go on; the completion tells the instruction's slot and the cause.
    pub const PROGRAM_TRAPPED: Status = Status {
        kind: StatusType::VendorSpecific,
        code: 0xC8,
    };

    /// The run's source and its destination are one zone.
    pub const SOURCE_IS_DESTINATION: Status = Status {
        kind: StatusType::VendorSpecific,
        code: 0xC9,
    };

    /// An active run uses the slot's program.
    pub const PROGRAM_IN_USE: Status = Status {
        kind: StatusType::VendorSpecific,
        code: 0xCA,
    };
}
