//! The PDUs that a controller sends, added to what it has to send, where they have room: so sending wants no memory.

ghost use Rattle.std.specs.Prelude.{◌≡◌, ◌≤◌, ◌+◌, ◌++◌, length, replicate, vec_capacity, vec_len};
ghost use Rattle.tcp_pdus.specs.Initialize.{data_begin};
ghost use Rattle.tcp_pdus.specs.Sent.{c2h_data, c2h_data_header, c2h_term_req, c2h_term_req_header, capsule_resp, ic_resp, r2t};

use crate::common_header::CommonHeader;
use crate::fatal_error::FatalError;
use crate::initialize::DataAlignment;
use crate::received::MOST_HEADER_BYTES;
use crate::transfer::{MAX_H2C_DATA, ReadyToTransfer};
use byteorder::{ByteOrder, LittleEndian};

/// The bytes of the header of each of these PDUs but the ICResp.
const HEADER_BYTES: usize = 24;

/// The most bytes of data that one command gives (the Maximum Data Transfer Size of NVMe Base 2.0, 5.17; its value is profile).
pub const MOST_DATA: usize = 131_072;

/// Adds bytes for which there is room.
fn append(out: &mut Vec<u8>, bytes: &[u8])
    requires { vec_len out.old + length bytes.now ≤ vec_capacity out.old }
    ensures added { out.new.items ≡ out.old.items ++ bytes.now }
    ensures room { vec_capacity out.old ≤ vec_capacity out.new }
{
    match out.extend_from_slice(bytes) {
        Ok(()) => {}
        Err(_) => unreachable!(),
    }
}

/// Adds so many zeros, for which there is room.
fn append_zeros(out: &mut Vec<u8>, count: usize)
    requires few { count ≤ 128 }
    requires room { vec_len out.old + count ≤ vec_capacity out.old }
    ensures added { out.new.items ≡ out.old.items ++ replicate count 0 }
    ensures room { vec_capacity out.old ≤ vec_capacity out.new }
{
    append(out, &[0; 128][..count]);
}

/// Adds an ICResp, Initialize Connection Response: version 0, no alignment of data, no digests, and [`MAX_H2C_DATA`].
///
/// [`MAX_H2C_DATA`]: crate::MAX_H2C_DATA
pub fn push_ic_resp(out: &mut Vec<u8>)
    requires { vec_len out.old + 128 ≤ vec_capacity out.old }
    ensures added { out.new.items ≡ out.old.items ++ ic_resp }
    ensures room { vec_capacity out.old ≤ vec_capacity out.new }
{
    append(out, &ic_resp());
}

/// The ICResp.
fn ic_resp() -> [u8; MOST_HEADER_BYTES]
    ensures { result ≡ ic_resp }
{
    let mut bytes = [0; MOST_HEADER_BYTES];
    bytes[0] = 0x01;
    bytes[2] = MOST_HEADER_BYTES as u8;
    bytes[4] = MOST_HEADER_BYTES as u8;
    LittleEndian::write_u32(&mut bytes[12..], MAX_H2C_DATA);
    bytes
}

/// Adds a CapsuleResp, Response Capsule, of a completion queue entry.
pub fn push_capsule_resp(out: &mut Vec<u8>, completion: &[u8; 16])
    requires { vec_len out.old + 24 ≤ vec_capacity out.old }
    ensures added { out.new.items ≡ out.old.items ++ capsule_resp completion.now }
    ensures room { vec_capacity out.old ≤ vec_capacity out.new }
{
    let common = CommonHeader {
        kind: 0x05,
        flags: 0,
        header_length: HEADER_BYTES as u8,
        data_offset: 0,
        pdu_length: HEADER_BYTES as u32,
    };
    append(out, &common.bytes());
    append(out, completion);
}

/// Adds an R2T, Ready to Transfer, for all of a command's data.
pub fn push_r2t(out: &mut Vec<u8>, wanted: ReadyToTransfer)
    requires { vec_len out.old + 24 ≤ vec_capacity out.old }
    ensures added { out.new.items ≡ out.old.items ++ r2t wanted }
    ensures room { vec_capacity out.old ≤ vec_capacity out.new }
{
    append(out, &r2t(wanted));
}

/// The R2T.
fn r2t(wanted: ReadyToTransfer) -> [u8; HEADER_BYTES]
    ensures { result ≡ r2t wanted }
{
    let mut bytes = [0; HEADER_BYTES];
    bytes[0] = 0x09;
    bytes[2] = HEADER_BYTES as u8;
    bytes[4] = HEADER_BYTES as u8;
    LittleEndian::write_u16(&mut bytes[8..], wanted.command);
    LittleEndian::write_u16(&mut bytes[10..], wanted.tag);
    LittleEndian::write_u32(&mut bytes[16..], wanted.length);
    bytes
}

/// Adds a C2HData, Controller to Host Data Transfer, of all of a command's data, which begins where the host wants it.
pub fn push_c2h_data(out: &mut Vec<u8>, alignment: DataAlignment, command: u16, bytes: &[u8])
    requires most { length bytes.now ≤ MOST_DATA }
    requires room { vec_len out.old + data_begin alignment + length bytes.now ≤ vec_capacity out.old }
    ensures added { out.new.items ≡ out.old.items ++ c2h_data alignment command bytes.now }
    ensures room { vec_capacity out.old ≤ vec_capacity out.new }
{
    append(
        out,
        &c2h_data_header(alignment, command, bytes.len() as u32),
    );
    append_zeros(out, alignment.data_begin() as usize - HEADER_BYTES);
    append(out, bytes);
}

/// The header of a C2HData of so many bytes.
fn c2h_data_header(alignment: DataAlignment, command: u16, size: u32) -> [u8; HEADER_BYTES]
    requires { size ≤ MOST_DATA }
    ensures { result ≡ c2h_data_header alignment command size }
{
    let begin = alignment.data_begin();
    let mut bytes = [0; HEADER_BYTES];
    bytes[0] = 0x07;
    bytes[1] = 4;
    bytes[2] = HEADER_BYTES as u8;
    bytes[3] = begin;
    LittleEndian::write_u32(&mut bytes[4..], u32::from(begin) + size);
    LittleEndian::write_u16(&mut bytes[8..], command);
    LittleEndian::write_u32(&mut bytes[16..], size);
    bytes
}

/// Adds a C2HTermReq, Controller to Host Terminate Connection Request, that gives back what was read of the header of the PDU in
/// error.
pub fn push_c2h_term_req(out: &mut Vec<u8>, error: FatalError, header: &[u8])
    requires most { length header.now ≤ MOST_HEADER_BYTES }
    requires room { vec_len out.old + 24 + length header.now ≤ vec_capacity out.old }
    ensures added { out.new.items ≡ out.old.items ++ c2h_term_req error header.now }
    ensures room { vec_capacity out.old ≤ vec_capacity out.new }
{
    append(out, &c2h_term_req_header(error, header.len() as u32));
    append(out, header);
}

/// The header of a C2HTermReq that gives back so many bytes.
fn c2h_term_req_header(error: FatalError, size: u32) -> [u8; HEADER_BYTES]
    requires { size ≤ MOST_HEADER_BYTES }
    ensures { result ≡ c2h_term_req_header error size }
{
    let mut bytes = [0; HEADER_BYTES];
    bytes[0] = 0x03;
    bytes[2] = HEADER_BYTES as u8;
    LittleEndian::write_u32(&mut bytes[4..], HEADER_BYTES as u32 + size);
    LittleEndian::write_u16(&mut bytes[8..], error.status());
    LittleEndian::write_u32(&mut bytes[10..], error.information());
    bytes
}
