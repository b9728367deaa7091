//! What states, faults, actions and statuses are called, for people to read.

ghost use Rattle.std.specs.Prelude.{◌≡◌};
ghost use Rattle.zone_state.specs.Words.{action_word, fault_word, state_word};

use crate::action::Action;
use crate::state::{FaultState, ZoneState};
use crate::status::{Status, StatusType};
use std::fmt;

/// A status with its name, the standard's or, of type 7h, the profile's, and what it says of the command.
#[derive(Clone, Copy, Debug)]
struct StatusWords {
    status: Status,
    name: &'static str,
    sentence: &'static str,
}

/// Every status of [`Status`], in the order of the numbers. Program Trapped is among them, which no device gives: an
/// accepted program never traps.
const STATUSES: &[StatusWords] = &[
    StatusWords {
        status: Status::SUCCESS,
        name: "Successful Completion",
        sentence: "the command is done",
    },
    StatusWords {
        status: Status::INVALID_COMMAND_OPCODE,
        name: "Invalid Command Opcode",
        sentence: "the opcode is none that is supported",
    },
    StatusWords {
        status: Status::INVALID_FIELD_IN_COMMAND,
        name: "Invalid Field in Command",
        sentence: "a field has a value that it may not have, or the data is not as long as the fields say",
    },
    StatusWords {
        status: Status::INVALID_NAMESPACE_OR_FORMAT,
        name: "Invalid Namespace or Format",
        sentence: "the namespace is not 1",
    },
    StatusWords {
        status: Status::LBA_OUT_OF_RANGE,
        name: "LBA Out of Range",
        sentence: "a block that the entry names is not in the namespace",
    },
    StatusWords {
        status: Status::ZONE_BOUNDARY_ERROR,
        name: "Zone Boundary Error",
        sentence: "a Read or the source of a Run passes its zone's end, or a write its zone's capacity",
    },
    StatusWords {
        status: Status::ZONE_IS_FULL,
        name: "Zone Is Full",
        sentence: "a write to a Full zone",
    },
    StatusWords {
        status: Status::ZONE_IS_READ_ONLY,
        name: "Zone Is Read Only",
        sentence: "a write to a Read Only zone",
    },
    StatusWords {
        status: Status::ZONE_IS_OFFLINE,
        name: "Zone Is Offline",
        sentence: "a Read of an Offline zone, a Run from one, or a write to one",
    },
    StatusWords {
        status: Status::ZONE_INVALID_WRITE,
        name: "Zone Invalid Write",
        sentence: "a Write that does not begin at the zone's write pointer",
    },
    StatusWords {
        status: Status::TOO_MANY_ACTIVE_ZONES,
        name: "Too Many Active Zones",
        sentence: "an active resource is wanted and none is free",
    },
    StatusWords {
        status: Status::TOO_MANY_OPEN_ZONES,
        name: "Too Many Open Zones",
        sentence: "more zones would be open than may be, and none gives way",
    },
    StatusWords {
        status: Status::INVALID_ZONE_STATE_TRANSITION,
        name: "Invalid Zone State Transition",
        sentence: "the zone's state does not allow the action",
    },
    StatusWords {
        status: Status::ZONE_HELD,
        name: "Zone Held",
        sentence: "an active run holds the zone against the command",
    },
    StatusWords {
        status: Status::NO_SUCH_PROGRAM,
        name: "No Such Program",
        sentence: "the slot has no program",
    },
    StatusWords {
        status: Status::PROGRAM_REFUSED,
        name: "Program Refused",
        sentence: "the bytes are no program, or it is not accepted",
    },
    StatusWords {
        status: Status::NO_RUN_FREE,
        name: "No Run Free",
        sentence: "as many runs are active as can be",
    },
    StatusWords {
        status: Status::SOURCE_NOT_WRITTEN,
        name: "Source Not Written",
        sentence: "not all of the blocks that the run is to read are written",
    },
    StatusWords {
        status: Status::DESTINATION_NOT_OPEN,
        name: "Destination Not Open",
        sentence: "the zone that the run is to append to is not open",
    },
    StatusWords {
        status: Status::DESTINATION_LACKS_ROOM,
        name: "Destination Lacks Room",
        sentence: "the zone that the run is to append to has less room than the run may need",
    },
    StatusWords {
        status: Status::WANT_OF_MEMORY,
        name: "Want of Memory",
        sentence: "there is no memory for the program; nothing has changed",
    },
    StatusWords {
        status: Status::PROGRAM_TRAPPED,
        name: "Program Trapped",
        sentence: "the run's program could not go on",
    },
    StatusWords {
        status: Status::SOURCE_IS_DESTINATION,
        name: "Source Is Destination",
        sentence: "the run's source and its destination are one zone",
    },
    StatusWords {
        status: Status::PROGRAM_IN_USE,
        name: "Program in Use",
        sentence: "an active run uses the slot's program",
    },
];

/// The name, the numbers and a sentence: `Zone Is Full (type 1h, code B9h): a write to a Full zone`. Of a status that isn't
/// among them, the numbers alone.
impl fmt::Display for Status {
    fn fmt<W: fmt::Write>(&self, f: &mut fmt::Formatter<W>) -> fmt::Result {
        let kind = self.kind.number();
        let code = self.code;
        let whose = match self.kind {
            StatusType::VendorSpecific => "; profile",
            StatusType::Generic | StatusType::CommandSpecific => "",
        };
        match STATUSES.iter().find(|words| words.status == *self) {
            Some(StatusWords { name, sentence, .. }) => {
                write!(
                    f,
                    "{name} (type {kind}h, code {code:02X}h{whose}): {sentence}"
                )
            }
            None => write!(f, "unknown status (type {kind}h, code {code:02X}h{whose})"),
        }
    }
}

/// The standard's name (ZNS 1.1, 2.1.1.3): `Implicitly Opened`.
impl fmt::Display for ZoneState {
    fn fmt<W: fmt::Write>(&self, f: &mut fmt::Formatter<W>) -> fmt::Result {
        f.write_str(match self {
            ZoneState::Empty => "Empty",
            ZoneState::ImplicitlyOpened => "Implicitly Opened",
            ZoneState::ExplicitlyOpened => "Explicitly Opened",
            ZoneState::Closed => "Closed",
            ZoneState::ReadOnly => "Read Only",
            ZoneState::Full => "Full",
            ZoneState::Offline => "Offline",
        })
    }
}

impl ZoneState {
    /// One word for the state, which a user reads and writes (profile): a zone that a write opened is `implicit`, one
    /// that the action Open opened `explicit`.
    pub fn word(self) -> &'static str
        ensures { result.now ≡ state_word self }
    {
        match self {
            ZoneState::Empty => "empty",
            ZoneState::ImplicitlyOpened => "implicit",
            ZoneState::ExplicitlyOpened => "explicit",
            ZoneState::Closed => "closed",
            ZoneState::ReadOnly => "readonly",
            ZoneState::Full => "full",
            ZoneState::Offline => "offline",
        }
    }
}

impl FaultState {
    /// One word for the fault, which a user reads and writes (profile): that of the state to which it takes a zone.
    pub fn word(self) -> &'static str
        ensures { result.now ≡ fault_word self }
    {
        self.state().word()
    }
}

impl Action {
    /// One word for the action, which a user reads and writes (profile).
    pub fn word(self) -> &'static str
        ensures { result.now ≡ action_word self }
    {
        match self {
            Action::Close => "close",
            Action::Finish => "finish",
            Action::Open => "open",
            Action::Reset => "reset",
            Action::Offline => "offline",
        }
    }
}
