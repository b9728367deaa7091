//! Fatal errors of a connection.

ghost use Rattle.std.specs.Prelude.{◌≡◌};
ghost use Rattle.tcp_pdus.specs.FatalErrors.{information_of, status_number};

/// Why a connection ends, as a C2HTermReq tells it: the Fatal Error Status with its information (NVMe over TCP Transport 1.0, 3.6).
#[derive(Clone, Copy, Debug, PartialEq, Eq)]
pub enum FatalError {
    /// 1, Invalid PDU Header Field.
    InvalidHeaderField {
        /// The byte of the header that the field begins at.
        offset: u32,
    },
    /// 2, PDU Sequence Error.
    PduSequence,
    /// 4, Data Transfer Out of Range.
    DataOutOfRange,
    /// 5, Data Transfer Limit Exceeded.
    DataLimitExceeded,
    /// 6, Unsupported Parameter.
    UnsupportedParameter {
        /// The byte of the header that the parameter begins at.
        offset: u32,
    },
}

impl FatalError {
    /// The Fatal Error Status (FES).
    pub fn status(self) -> u16
        ensures { result ≡ status_number self }
    {
        match self {
            FatalError::InvalidHeaderField { .. } => 1,
            FatalError::PduSequence => 2,
            FatalError::DataOutOfRange => 4,
            FatalError::DataLimitExceeded => 5,
            FatalError::UnsupportedParameter { .. } => 6,
        }
    }

    /// The Fatal Error Information (FEI): the byte of the header that the field in error begins at, where the status asks for one,
    /// else 0.
    pub fn information(self) -> u32
        ensures { result ≡ information_of self }
    {
        match self {
            FatalError::InvalidHeaderField { offset }
            | FatalError::UnsupportedParameter { offset } => offset,
            FatalError::PduSequence | FatalError::DataOutOfRange | FatalError::DataLimitExceeded =>
                0,
        }
    }
}
