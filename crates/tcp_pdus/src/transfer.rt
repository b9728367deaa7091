//! Data that a host sends for an R2T.

ghost use Rattle.std.specs.Prelude.{◌≡◌, ◌≤◌, length};
ghost use Rattle.common_definitions.specs.Checks.{first_failed, unless_failed};
ghost use Rattle.tcp_pdus.specs.Transfer.{data_checked, data_header_in, is_in_range, range_checks, tells_end};

use crate::common_header::CommonHeader;
use crate::fatal_error::FatalError;
use byteorder::{ByteOrder, LittleEndian};

/// MAXH2CDATA, the most bytes of data in one H2CData, which the ICResp tells the host.
pub const MAX_H2C_DATA: u32 = 131_072;

/// The bytes of the header of an H2CData.
const DATA_HEADER_BYTES: usize = 24;

/// An R2T, Ready to Transfer, for all of a command's data, that is outstanding: the host has still to send some of it.
#[derive(Clone, Copy, Debug, PartialEq, Eq)]
pub struct ReadyToTransfer {
    /// CCCID, the identifier of the command that the data is of.
    pub command: u16,
    /// TTAG, the controller's tag of the transfer.
    pub tag: u16,
    /// R2TL, how many bytes of data are wanted, from the first on.
    pub length: u32,
}

/// What the header of an H2CData tells, behind its common header (NVMe over TCP Transport 1.0, 3.6).
#[derive(Clone, Copy, Debug, PartialEq, Eq)]
pub struct DataHeader {
    /// CCCID, the identifier of the command that the data is of.
    pub command: u16,
    /// TTAG, the tag of the R2T that it answers.
    pub tag: u16,
    /// DATAO, where the data begins in the command's.
    pub offset: u32,
    /// DATAL, how many bytes of data there are.
    pub length: u32,
}

impl DataHeader {
    /// What the header of an H2CData tells.
    pub fn read(header: &[u8]) -> DataHeader
        requires { DATA_HEADER_BYTES ≤ length header.now }
        ensures { result ≡ data_header_in header.now }
    {
        DataHeader {
            command: LittleEndian::read_u16(&header[8..]),
            tag: LittleEndian::read_u16(&header[10..]),
            offset: LittleEndian::read_u32(&header[12..]),
            length: LittleEndian::read_u32(&header[16..]),
        }
    }

    /// Checks that the data answers the outstanding R2T, of whose data so many bytes came before: that it goes on where those
    /// ended, ends within what is wanted, and says LAST just where it ends there.
    ///
    /// # Errors
    ///
    /// That of the first check that fails, in this order: Invalid PDU Header Field 10 where no R2T is outstanding, or another
    /// one; 8 for another command; Data Transfer Out of Range for another place, or more data than is wanted; Invalid PDU Header
    /// Field 16 where DATAL isn't the length of what follows, and 1 where LAST is wrong.
    pub fn check(
        self,
        common: CommonHeader,
        outstanding: Option<ReadyToTransfer>,
        came: u32,
    ) -> Result<(), FatalError>
        ensures { result ≡ data_checked common outstanding came self }
    {
        let wanted = outstanding.ok_or(FatalError::InvalidHeaderField { offset: 10 })?;
        if self.tag != wanted.tag {
            return Err(FatalError::InvalidHeaderField { offset: 10 });
        }
        if self.command != wanted.command {
            return Err(FatalError::InvalidHeaderField { offset: 8 });
        }
        self.check_range(common, wanted, came)
    }

    /// The checks of where the data goes, and how much it is.
    fn check_range(
        self,
        common: CommonHeader,
        wanted: ReadyToTransfer,
        came: u32,
    ) -> Result<(), FatalError>
        ensures { result ≡ unless_failed (first_failed (range_checks common wanted came self)) tt }
    {
        if !self.is_in_range(wanted, came) {
            return Err(FatalError::DataOutOfRange);
        }
        if u64::from(self.length) + 24 != u64::from(common.pdu_length) {
            return Err(FatalError::InvalidHeaderField { offset: 16 });
        }
        if !self.tells_end(common, wanted) {
            return Err(FatalError::InvalidHeaderField { offset: 1 });
        }
        Ok(())
    }

    /// Does the data go on where what came ended, and end within what is wanted?
    fn is_in_range(self, wanted: ReadyToTransfer, came: u32) -> bool
        ensures { result ≡ is_in_range wanted came self }
    {
        self.offset == came
            && u64::from(self.offset) + u64::from(self.length) <= u64::from(wanted.length)
    }

    /// Is LAST set just where the data ends what is wanted?
    fn tells_end(self, common: CommonHeader, wanted: ReadyToTransfer) -> bool
        ensures { result ≡ tells_end common wanted self }
    {
        let ends = u64::from(self.offset) + u64::from(self.length) == u64::from(wanted.length);
        if common.is_last() { ends } else { !ends }
    }
}
