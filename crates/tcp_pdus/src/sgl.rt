//! Where a command's data is.

ghost use Rattle.std.specs.Prelude.{◌≡◌, ◌≤◌, length};
ghost use Rattle.common_definitions.specs.Checks.{first_failed, unless_failed};
ghost use Rattle.tcp_pdus.specs.Sgl.{data_checks, descriptor_in, fits, in_capsule_checks, transport_checks, wanted};

use crate::direction::{Direction, ENTRY_BYTES};
use crate::transfer::MAX_H2C_DATA;
use byteorder::{ByteOrder, LittleEndian};
use std::marker::Model;
use zone_state::{Status, StatusType};

/// The descriptor's type can't be used for the command (NVMe Base 2.0, 3.3.3.2).
pub const SGL_DESCRIPTOR_TYPE_INVALID: Status = Status {
    kind: StatusType::Generic,
    code: 0x11,
};

/// The descriptor names other bytes than those in the capsule (NVMe Base 2.0, 3.3.3.2).
pub const SGL_OFFSET_INVALID: Status = Status {
    kind: StatusType::Generic,
    code: 0x16,
};

/// How many bytes of data a host is to send for an R2T. A clause sees that number.
#[derive(Clone, Copy, Debug, PartialEq, Eq)]
pub struct TransferLength {
    bytes: u32,
}

impl Model for TransferLength {
    ghost use Rattle.std.specs.Prelude.{ℕ, ◌≤◌};
    ghost use Rattle.tcp_pdus.specs.declared.transfer.TheConstants.{MAX_H2C_DATA};

    ghost Value = { ℕ };

    ghost view = { λ length. length.bytes };

    ghost invariant = { λ length. length.bytes ≤ MAX_H2C_DATA };

    ghost inverse = { λ n. record { bytes = n } };
}

impl TransferLength {
    /// The number.
    pub fn get(self) -> u32
        ensures value { result ≡ self }
        ensures most { result ≤ MAX_H2C_DATA }
    {
        self.bytes
    }
}

/// The SGL descriptor in an entry, which tells where its command's data is (NVMe Base 2.0, 4.1.2).
#[derive(Clone, Copy, Debug, PartialEq, Eq)]
pub struct SglDescriptor {
    /// The address; of data in the capsule, where it begins behind the entry.
    pub address: u64,
    /// How many bytes of data there are.
    pub length: u32,
    /// The descriptor's type and sub type.
    pub kind: u8,
}

impl SglDescriptor {
    /// The descriptor in an entry.
    pub fn read(entry: &[u8]) -> SglDescriptor
        requires { ENTRY_BYTES ≤ length entry.now }
        ensures { result ≡ descriptor_in entry.now }
    {
        SglDescriptor {
            address: LittleEndian::read_u64(&entry[24..]),
            length: LittleEndian::read_u32(&entry[32..]),
            kind: entry[39],
        }
    }

    /// Checks it, for a command whose capsule has so many bytes of data, and gives how many bytes the host is to send for an R2T.
    pub(crate) fn check(
        self,
        way: Direction,
        inside: usize,
    ) -> Result<Option<TransferLength>, Status>
        ensures { result ≡ unless_failed (first_failed (data_checks way self inside)) (wanted way self) }
    {
        match self.kind {
            0x01 => self.check_in_capsule(way, inside),
            0x5A => self.check_transport(way, inside),
            _ => Err(SGL_DESCRIPTOR_TYPE_INVALID),
        }
    }

    /// The checks of data in the capsule.
    fn check_in_capsule(
        self,
        way: Direction,
        inside: usize,
    ) -> Result<Option<TransferLength>, Status>
        requires { self.kind ≡ 0x01 }
        ensures { result ≡ unless_failed (first_failed (in_capsule_checks way self inside)) (wanted way self) }
    {
        if !way.is_from_host() {
            return Err(SGL_DESCRIPTOR_TYPE_INVALID);
        }
        if self.address != 0 || self.length as usize != inside {
            return Err(SGL_OFFSET_INVALID);
        }
        Ok(None)
    }

    /// The checks of data that the transport moves.
    fn check_transport(
        self,
        way: Direction,
        inside: usize,
    ) -> Result<Option<TransferLength>, Status>
        requires { self.kind ≡ 0x5A }
        ensures { result ≡ unless_failed (first_failed (transport_checks way self inside)) (wanted way self) }
    {
        if inside != 0 || !self.fits(way) {
            return Err(Status::INVALID_FIELD_IN_COMMAND);
        }
        if way.is_from_host() && self.length != 0 {
            Ok(Some(TransferLength { bytes: self.length }))
        } else {
            Ok(None)
        }
    }

    /// Is it no more than one R2T asks for, if the host sends it?
    fn fits(self, way: Direction) -> bool
        ensures { result ≡ fits way self }
    {
        !way.is_from_host() || self.length <= MAX_H2C_DATA
    }
}
