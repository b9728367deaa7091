//! The request to initialize a connection.

ghost use Rattle.std.specs.Prelude.{◌≡◌, ◌≤◌, length};
ghost use Rattle.tcp_pdus.specs.Initialize.{data_begin, initialize_checked, initialize_request_in};

use crate::fatal_error::FatalError;
use crate::received::MOST_HEADER_BYTES;
use byteorder::{ByteOrder, LittleEndian};
use std::marker::Model;

/// The most that HPDA may be: 128 bytes.
const MOST_ALIGNMENT: u8 = 31;

/// What an ICReq asks for (NVMe over TCP Transport 1.0, 3.6). Its digests are never granted, and a command has one R2T,
/// whatever MAXR2T says.
#[derive(Clone, Copy, Debug, PartialEq, Eq)]
pub struct InitializeRequest {
    /// PFV, the format's version.
    pub version: u16,
    /// HPDA, how the host wants data aligned.
    pub alignment: u8,
}

impl InitializeRequest {
    /// What the header of an ICReq asks for.
    pub fn read(header: &[u8]) -> InitializeRequest
        requires { MOST_HEADER_BYTES ≤ length header.now }
        ensures { result ≡ initialize_request_in header.now }
    {
        InitializeRequest {
            version: LittleEndian::read_u16(&header[8..]),
            alignment: header[10],
        }
    }

    /// Checks it, and gives how data is to be aligned.
    ///
    /// # Errors
    ///
    /// Unsupported Parameter 8 for another version than 0, and then Invalid PDU Header Field 10 for an alignment above 31.
    pub fn check(self) -> Result<DataAlignment, FatalError>
        ensures { result ≡ initialize_checked self }
    {
        if self.version != 0 {
            return Err(FatalError::UnsupportedParameter { offset: 8 });
        }
        if self.alignment > MOST_ALIGNMENT {
            return Err(FatalError::InvalidHeaderField { offset: 10 });
        }
        Ok(DataAlignment {
            zero_based: self.alignment,
        })
    }
}

/// HPDA, Host PDU Data Alignment: how many dwords the data of a C2HData is aligned to, as one less. A clause sees that number.
#[derive(Clone, Copy, Debug, PartialEq, Eq)]
pub struct DataAlignment {
    zero_based: u8,
}

impl Model for DataAlignment {
    ghost use Rattle.std.specs.Prelude.{ℕ, ◌≤◌};
    ghost use Rattle.tcp_pdus.specs.declared.initialize.TheConstants.{MOST_ALIGNMENT};

    ghost Value = { ℕ };

    ghost view = { λ alignment. alignment.zero_based };

    ghost invariant = { λ alignment. alignment.zero_based ≤ MOST_ALIGNMENT };

    ghost inverse = { λ n. record { zero_based = n } };
}

impl DataAlignment {
    /// PDO of a C2HData: its data begins at the first multiple of so many dwords that isn't within the header.
    pub fn data_begin(self) -> u8
        ensures { result ≡ data_begin self }
    {
        let bytes = 4 * (u16::from(self.zero_based) + 1);
        ((bytes + 23) / bytes * bytes) as u8
    }
}
