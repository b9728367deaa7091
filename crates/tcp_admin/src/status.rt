//! Statuses that admin commands have beside those of zones (NVMe Base 2.0, 3.3.3.2).

use zone_state::{Status, StatusType};

/// Data SGL Length Invalid: the SGL descriptor's length isn't that of the data that the command gives.
pub const DATA_SGL_LENGTH_INVALID: Status = Status {
    kind: StatusType::Generic,
    code: 0x0F,
};

/// Asynchronous Event Request Limit Exceeded: as many are kept as can be.
pub const ASYNCHRONOUS_EVENT_REQUEST_LIMIT_EXCEEDED: Status = Status {
    kind: StatusType::CommandSpecific,
    code: 0x05,
};

/// Invalid Log Page: there is no page with the identifier.
pub const INVALID_LOG_PAGE: Status = Status {
    kind: StatusType::CommandSpecific,
    code: 0x09,
};
