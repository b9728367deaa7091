//! The event that a frame tells.

ghost use Rattle.std.specs.Prelude.{◌≡◌, option_map};
ghost use Rattle.durable_device.specs.FrameEvents.{fault_in, frame_event, header_in, submission_in, told_by, turn_in};

use byteorder::{ByteOrder, LittleEndian};
use event_frames::HEADER_BYTES;
use nvme_entry::MOST_TRANSFER;
use zone_state::FaultState;

/// Bytes of an entry (NVMe Base 2.0, 3.3.3.1).
const ENTRY_BYTES: usize = 64;

/// An event, with its bytes where they lie in a frame.
#[derive(Clone, Copy)]
pub(crate) enum FrameEvent<'a> {
    /// An entry is submitted to a queue, with the data beside it.
    Submit {
        queue: u16,
        entry: &'a [u8; 64],
        input: &'a [u8],
    },
    /// A run is given a turn.
    Turn {
        run: u8,
    },
    /// A zone falls into a state.
    Fault {
        zone: u32,
        state: FaultState,
    },
}

/// The fields of a frame's header.
#[derive(Clone, Copy)]
pub(crate) struct Header {
    kind: u8,
    part: u8,
    queue: u16,
    number: u32,
    size: u32,
    zeros: u32,
}

/// The event of which the bytes are the frame; `None` where they are the frame of none.
#[tactic(auto, unfolding(crate::specs::FrameEvents::frame_event))]
pub(crate) fn event_in(frame: &[u8]) -> Option<FrameEvent<'_>>
    ensures { option_map told_by result ≡ frame_event frame.now }
{
    let Some((header, behind)) = frame.split_first_chunk::<HEADER_BYTES>() else {
        return None;
    };
    let header = header_in(header);
    if header.kind == 1 {
        submission_in(header, behind)
    } else if header.kind == 2 {
        turn_in(header, behind)
    } else if header.kind == 3 {
        fault_in(header, behind)
    } else {
        None
    }
}

/// The fields in the bytes of a header.
fn header_in(bytes: &[u8; HEADER_BYTES]) -> Header
    ensures { result ≡ header_in bytes.now }
{
    Header {
        kind: bytes[0],
        part: bytes[1],
        queue: LittleEndian::read_u16(&bytes[2..]),
        number: LittleEndian::read_u32(&bytes[4..]),
        size: LittleEndian::read_u32(&bytes[8..]),
        zeros: LittleEndian::read_u32(&bytes[12..]),
    }
}

/// The submission of a header and what stands behind it, if they are one's.
fn submission_in(header: Header, behind: &[u8]) -> Option<FrameEvent<'_>>
    ensures { option_map told_by result ≡ submission_in header behind.now }
{
    let Some((entry, input)) = behind.split_first_chunk::<ENTRY_BYTES>() else {
        return None;
    };
    let size = header.size as usize;
    if header.part == 0
        && header.number == 0
        && header.zeros == 0
        && size == input.len()
        && size <= MOST_TRANSFER
    {
        Some(FrameEvent::Submit {
            queue: header.queue,
            entry,
            input,
        })
    } else {
        None
    }
}

/// The turn of a header and what stands behind it, if they are one's.
fn turn_in(header: Header, behind: &[u8]) -> Option<FrameEvent<'_>>
    ensures { option_map told_by result ≡ turn_in header behind.now }
{
    if header.queue == 0
        && header.number == 0
        && header.size == 0
        && header.zeros == 0
        && behind.len() == 0
    {
        Some(FrameEvent::Turn { run: header.part })
    } else {
        None
    }
}

/// The fault of a header and what stands behind it, if they are one's.
fn fault_in(header: Header, behind: &[u8]) -> Option<FrameEvent<'_>>
    ensures { option_map told_by result ≡ fault_in header behind.now }
{
    if header.queue != 0 || header.size != 0 || header.zeros != 0 || behind.len() != 0 {
        return None;
    }
    let state = if header.part == 1 {
        FaultState::ReadOnly
    } else if header.part == 2 {
        FaultState::Offline
    } else {
        return None;
    };
    Some(FrameEvent::Fault {
        zone: header.number,
        state,
    })
}
