//! What has come of a PDU, in its parts.

ghost use Rattle.std.specs.Prelude.{◌≡◌, ◌≤◌, ◌+◌, length, vec_capacity, vec_len};
ghost use Rattle.tcp_pdus.specs.Received.{header_bytes};
ghost use Rattle.tcp_connection.specs.Reading.{error_of, header_error};
ghost use Rattle.tcp_connection.specs.declared.expected.Progress.TheVariants.{Partial};
ghost use Rattle.tcp_connection.specs.steps.Parts.{Adds, AddsData, GrowsBehindCommon, GrowsBehindHeader, GrowsToReading, HasDataRoom};
ghost use Rattle.tcp_connection.specs.steps.Parts.{HasFew, IsReceiver, PassesCommon, PassesHeader, pending_of};

use crate::expected::{Expected, Progress};
use tcp_pdus::{
    COMMON_HEADER_BYTES, CommonHeader, DataHeader, FatalError, HostPdu, InitializeRequest,
};

/// The parts of a PDU, as far as they have come.
#[derive(Drop)]
pub(crate) struct Parts {
    /// The header.
    pub(crate) header: Vec<u8>,
    /// The data behind it, but for that of an H2CData.
    pub(crate) data: Vec<u8>,
    /// The data of an H2CData.
    pub(crate) transfer: Vec<u8>,
}

/// Adds the bytes of a piece, but no more than are missing, for which there is room, and gives how many they are.
fn add(bytes: &mut Vec<u8>, missing: usize, piece: &[u8]) -> usize
    requires { vec_len bytes.old + missing ≤ vec_capacity bytes.old }
    ensures { Adds bytes.old bytes.new piece.now missing result }
{
    let count = missing.min(piece.len());
    match bytes.extend_from_slice(&piece[..count]) {
        Ok(()) => count,
        Err(_) => unreachable!(),
    }
}

/// Adds the bytes of a piece that the PDU still wants, up to its end or to the check that fails first, and gives how many they are.
pub(crate) fn grow(parts: &mut Parts, expected: &Expected, piece: &[u8]) -> (usize, Progress)
    requires { IsReceiver expected.now parts.old Partial }
    ensures { GrowsToReading expected.now parts.old parts.new piece.now result }
{
    let missing = COMMON_HEADER_BYTES.saturating_sub(parts.header.len());
    let first = add(&mut parts.header, missing, piece);
    if parts.header.len() < COMMON_HEADER_BYTES {
        return (first, Progress::Partial);
    }
    let common = CommonHeader::read(&parts.header[..COMMON_HEADER_BYTES]);
    match common.check(expected.awaits) {
        Ok(pdu) => {
            let (more, progress) = grow_header(parts, expected, common, pdu, &piece[first..]);
            (first + more, progress)
        }
        Err(error) => (first, Progress::Failed(error)),
    }
}

/// Adds the bytes of a piece behind a common header that passes.
fn grow_header(
    parts: &mut Parts,
    expected: &Expected,
    common: CommonHeader,
    pdu: HostPdu,
    piece: &[u8],
) -> (usize, Progress)
    requires { PassesCommon expected.now parts.old common pdu }
    ensures { GrowsBehindCommon expected.now common pdu parts.old parts.new piece.now result }
{
    let wanted = pdu.header_bytes() as usize;
    let missing = wanted.saturating_sub(parts.header.len());
    let first = add(&mut parts.header, missing, piece);
    if parts.header.len() < wanted {
        return (first, Progress::Partial);
    }
    match check_header(expected, common, pdu, parts.header.as_slice()) {
        Ok(()) => {
            let (more, progress) = grow_data(parts, expected, common, pdu, &piece[first..]);
            (first + more, progress)
        }
        Err(error) => (first, Progress::Failed(error)),
    }
}

/// Checks the whole header of a PDU.
fn check_header(
    expected: &Expected,
    common: CommonHeader,
    pdu: HostPdu,
    header: &[u8],
) -> Result<(), FatalError>
    requires { length header.now ≡ header_bytes pdu }
    ensures { error_of result ≡ header_error expected.now common pdu header.now }
{
    match pdu {
        HostPdu::IcReq => match InitializeRequest::read(header).check() {
            Ok(_) => Ok(()),
            Err(error) => Err(error),
        },
        HostPdu::H2cTermReq | HostPdu::CapsuleCmd => Ok(()),
        HostPdu::H2cData => expected.transfers.check(common, DataHeader::read(header)),
    }
}

/// Adds the bytes of a piece behind a header that passes.
fn grow_data(
    parts: &mut Parts,
    expected: &Expected,
    common: CommonHeader,
    pdu: HostPdu,
    piece: &[u8],
) -> (usize, Progress)
    requires { PassesHeader expected.now parts.old common pdu }
    ensures { GrowsBehindHeader expected.now common pdu parts.old parts.new piece.now result }
{
    let missing = common.pdu_length as usize - come(parts);
    let count = add_data(parts, pdu, missing, piece);
    if count < missing {
        (count, Progress::Partial)
    } else {
        (count, Progress::Whole(pdu))
    }
}

/// How many bytes of the PDU have come.
fn come(parts: &Parts) -> usize
    requires { HasFew parts.now }
    ensures { result ≡ length (pending_of parts.now) }
{
    parts.header.len() + parts.data.len() + parts.transfer.len()
}

/// Adds the bytes of a piece to the data of a PDU, but no more than are missing.
fn add_data(parts: &mut Parts, pdu: HostPdu, missing: usize, piece: &[u8]) -> usize
    requires { HasDataRoom pdu parts.old missing }
    ensures { AddsData pdu parts.old parts.new piece.now missing result }
{
    match pdu {
        HostPdu::H2cData => add(&mut parts.transfer, missing, piece),
        HostPdu::IcReq | HostPdu::H2cTermReq | HostPdu::CapsuleCmd => {
            add(&mut parts.data, missing, piece)
        }
    }
}
