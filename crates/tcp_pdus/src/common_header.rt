//! The common header of PDUs.

ghost use Rattle.std.specs.Prelude.{◌≡◌, ◌≤◌, ◌%◌, ◌/◌, ◌==◌, length};
ghost use Rattle.tcp_pdus.specs.CommonHeader.{common_header_bytes, common_header_in, has_digests, is_last};

use byteorder::{ByteOrder, LittleEndian};

/// The bytes of a common header.
pub const COMMON_HEADER_BYTES: usize = 8;

/// What each PDU begins with (NVMe over TCP Transport 1.0, 3.6).
#[derive(Clone, Copy, Debug, PartialEq, Eq)]
pub struct CommonHeader {
    /// PDU-Type.
    pub kind: u8,
    /// FLAGS: in bits 0 and 1 whether there are digests, of the header and of the data; in bit 2, of data PDUs, LAST.
    pub flags: u8,
    /// HLEN: the bytes of the header, with these eight.
    pub header_length: u8,
    /// PDO: where data begins, from the PDU's first byte; 0 without data.
    pub data_offset: u8,
    /// PLEN: the bytes of the whole PDU.
    pub pdu_length: u32,
}

impl CommonHeader {
    /// The common header that the first eight bytes of a PDU spell.
    pub fn read(bytes: &[u8]) -> CommonHeader
        requires { COMMON_HEADER_BYTES ≤ length bytes.now }
        ensures { result ≡ common_header_in bytes.now }
    {
        CommonHeader {
            kind: bytes[0],
            flags: bytes[1],
            header_length: bytes[2],
            data_offset: bytes[3],
            pdu_length: LittleEndian::read_u32(&bytes[4..]),
        }
    }

    /// Its eight bytes.
    pub(crate) fn bytes(self) -> [u8; COMMON_HEADER_BYTES]
        ensures { result ≡ common_header_bytes self }
    {
        let mut bytes = [0; COMMON_HEADER_BYTES];
        bytes[0] = self.kind;
        bytes[1] = self.flags;
        bytes[2] = self.header_length;
        bytes[3] = self.data_offset;
        LittleEndian::write_u32(&mut bytes[4..], self.pdu_length);
        bytes
    }

    /// Does it have a digest, HDGSTF or DDGSTF?
    pub(crate) fn has_digests(self) -> bool
        ensures { result ≡ has_digests self }
    {
        self.flags % 4 != 0
    }

    /// LAST, of a data PDU: the data ends with it.
    pub(crate) fn is_last(self) -> bool
        ensures { result ≡ is_last self }
    {
        self.flags / 4 % 2 == 1
    }
}
