//! What hosts send, and what of it is checked at a PDU's common header.

ghost use Rattle.std.specs.Prelude.{◌≡◌, ◌++◌};
ghost use Rattle.common_definitions.specs.Checks.{first_failed, unless_failed};
ghost use Rattle.tcp_pdus.specs.Received.{checked, data_in_place, field_checks, header_bytes, host_pdu, in_capsule, least_bytes, length_checks, may_come, most_bytes, within_limit};

use crate::common_header::CommonHeader;
use crate::fatal_error::FatalError;
use crate::transfer::MAX_H2C_DATA;

/// The most bytes of a header: those of an ICReq.
pub const MOST_HEADER_BYTES: usize = 128;

/// A PDU of a host (NVMe over TCP Transport 1.0, 3.6).
#[derive(Clone, Copy, Debug, PartialEq, Eq)]
pub enum HostPdu {
    /// 00h, Initialize Connection Request.
    IcReq,
    /// 02h, Host to Controller Terminate Connection Request.
    H2cTermReq,
    /// 04h, Command Capsule.
    CapsuleCmd,
    /// 06h, Host to Controller Data Transfer.
    H2cData,
}

/// What a connection waits for.
#[derive(Clone, Copy, Debug, PartialEq, Eq)]
pub enum Awaits {
    /// The ICReq, which is the first PDU.
    Initialization,
    /// Command capsules, and data.
    Commands {
        /// The most bytes of data that a capsule has: of an I/O queue 16 times IOCCSZ less the entry's 64 (NVMe Base 2.0, 5.17).
        in_capsule: u16,
    },
}

impl HostPdu {
    /// The PDU of this PDU-Type; `None` for one that no host sends.
    fn from_type(kind: u8) -> Option<HostPdu>
        ensures { result ≡ host_pdu kind }
    {
        match kind {
            0x00 => Some(HostPdu::IcReq),
            0x02 => Some(HostPdu::H2cTermReq),
            0x04 => Some(HostPdu::CapsuleCmd),
            0x06 => Some(HostPdu::H2cData),
            _ => None,
        }
    }

    /// HLEN, the bytes of its header.
    pub fn header_bytes(self) -> u8
        ensures { result ≡ header_bytes self }
    {
        match self {
            HostPdu::IcReq => 128,
            HostPdu::H2cTermReq => 24,
            HostPdu::CapsuleCmd => 72,
            HostPdu::H2cData => 24,
        }
    }

    /// May it come now? The ICReq comes first and once, a request to terminate whenever it likes.
    fn may_come(self, awaits: Awaits) -> bool
        ensures { result ≡ may_come awaits self }
    {
        match self {
            HostPdu::IcReq => matches!(awaits, Awaits::Initialization),
            HostPdu::H2cTermReq => true,
            HostPdu::CapsuleCmd | HostPdu::H2cData => matches!(awaits, Awaits::Commands { .. }),
        }
    }

    /// The least bytes of the whole PDU.
    fn least_bytes(self) -> u32
        ensures { result ≡ least_bytes self }
    {
        match self {
            HostPdu::IcReq => 128,
            HostPdu::H2cTermReq => 24,
            HostPdu::CapsuleCmd => 72,
            HostPdu::H2cData => 25,
        }
    }

    /// The most bytes of the whole PDU.
    fn most_bytes(self, awaits: Awaits) -> u32
        ensures { result ≡ most_bytes awaits self }
    {
        match self {
            HostPdu::IcReq => 128,
            HostPdu::H2cTermReq => 152,
            HostPdu::CapsuleCmd => 72 + u32::from(awaits.in_capsule()),
            HostPdu::H2cData => 24 + MAX_H2C_DATA,
        }
    }
}

impl Awaits {
    /// The most bytes of data that a capsule has.
    fn in_capsule(self) -> u16
        ensures { result ≡ in_capsule self }
    {
        match self {
            Awaits::Initialization => 0,
            Awaits::Commands { in_capsule } => in_capsule,
        }
    }
}

impl CommonHeader {
    /// Checks what is known of a PDU at its common header, and gives which PDU it is. No PDU that passes is longer than its kind may
    /// be, so that of none more is waited for.
    ///
    /// # Errors
    ///
    /// That of the first check that fails, in this order: Invalid PDU Header Field 0 for a PDU-Type that no host sends; PDU Sequence
    /// Error for a PDU that may not come now; Invalid PDU Header Field 1 for a digest, and 2 for another HLEN than the PDU's; Data
    /// Transfer Limit Exceeded for more than [`MAX_H2C_DATA`] bytes in an H2CData; Invalid PDU Header Field 4 for a PLEN that is too
    /// short or too long, and 3 for data that doesn't begin right behind the header.
    pub fn check(self, awaits: Awaits) -> Result<HostPdu, FatalError>
        ensures { result ≡ checked awaits self }
    {
        let pdu = HostPdu::from_type(self.kind).ok_or(FatalError::InvalidHeaderField {
            offset: 0,
        })?;
        if !pdu.may_come(awaits) {
            return Err(FatalError::PduSequence);
        }
        self.check_fields(awaits, pdu)
    }

    /// The checks of FLAGS and HLEN, and those behind them.
    fn check_fields(self, awaits: Awaits, pdu: HostPdu) -> Result<HostPdu, FatalError>
        ensures { result ≡ unless_failed (first_failed (field_checks pdu self ++ length_checks awaits pdu self)) pdu }
    {
        if self.has_digests() {
            return Err(FatalError::InvalidHeaderField { offset: 1 });
        }
        if self.header_length != pdu.header_bytes() {
            return Err(FatalError::InvalidHeaderField { offset: 2 });
        }
        self.check_lengths(awaits, pdu)
    }

    /// The checks of PLEN and PDO.
    fn check_lengths(self, awaits: Awaits, pdu: HostPdu) -> Result<HostPdu, FatalError>
        ensures { result ≡ unless_failed (first_failed (length_checks awaits pdu self)) pdu }
    {
        if !self.is_within_limit(pdu) {
            return Err(FatalError::DataLimitExceeded);
        }
        if self.pdu_length < pdu.least_bytes() || self.pdu_length > pdu.most_bytes(awaits) {
            return Err(FatalError::InvalidHeaderField { offset: 4 });
        }
        if !self.has_data_in_place(pdu) {
            return Err(FatalError::InvalidHeaderField { offset: 3 });
        }
        Ok(pdu)
    }

    /// Is there no more data than one H2CData may have?
    fn is_within_limit(self, pdu: HostPdu) -> bool
        ensures { result ≡ within_limit pdu self }
    {
        pdu != HostPdu::H2cData || self.pdu_length <= 24 + MAX_H2C_DATA
    }

    /// Does the data, if there is any, begin right behind the header?
    fn has_data_in_place(self, pdu: HostPdu) -> bool
        ensures { result ≡ data_in_place pdu self }
    {
        match pdu {
            HostPdu::IcReq | HostPdu::H2cTermReq => true,
            HostPdu::CapsuleCmd | HostPdu::H2cData => {
                self.pdu_length <= u32::from(self.header_length)
                    || self.data_offset == self.header_length
            }
        }
    }
}
