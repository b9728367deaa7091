//! The zone rows of an image: for each zone 8 bytes, with its state and how much of it is written.

ghost use Rattle.std.specs.Prelude.{◌≡◌, ◌≤◌, ◌*◌, ◌<◌, ◌^◌, length};
ghost use Rattle.image_text.specs.Loading.{LoadGives};
ghost use Rattle.image_text.specs.steps.LoadStages.{NoStreamFails};
ghost use Rattle.image_text.specs.Reading.{zone_in, zone_with, zones_in};
ghost use Rattle.image_text.specs.Text.{zone_row, written_blocks};
ghost use Rattle.image_text.specs.declared.zone_row.TheConstants.{ZONE_ROW_BYTES};

use crate::bytes::are_zeros;
use crate::fault::{LoadFault, ZoneRowFault};
use byteorder::{ByteOrder, LittleEndian};
use image_store::Zone;
use std::alloc::Global;
use zone_state::ZoneState;

/// Bytes of a zone row.
pub const ZONE_ROW_BYTES: usize = 8;

/// How many blocks of the zones are written.
pub fn written_blocks(zones: &[Zone]) -> u64
    requires { length zones.now < 2 ^ 32 }
    ensures { result ≡ written_blocks zones.now }
{
    zones.iter().map(|zone| u64::from(zone.written())).sum()
}

/// The row of a zone.
pub fn encode(zone: Zone) -> [u8; ZONE_ROW_BYTES]
    ensures { result ≡ zone_row zone }
{
    let mut bytes = [0; ZONE_ROW_BYTES];
    LittleEndian::write_u32(&mut bytes[4..], zone.written());
    bytes[0] = zone.state().code();
    bytes
}

/// The zones that rows tell, each of this capacity.
///
/// # Errors
///
/// [`LoadFault::ZoneRow`] for the lowest zone whose row tells none, or [`LoadFault::Memory`].
pub fn decode_all(
    alloc: Global,
    bytes: &[u8],
    count: u32,
    capacity: u32,
) -> Result<Vec<Zone>, LoadFault>
    requires size { length bytes.now ≡ count * ZONE_ROW_BYTES }
    requires some { 1 ≤ capacity }
    ensures zones { LoadGives (Unit {0}) (λ zones. zones.items) result (zones_in 0 capacity count bytes.now) }
    ensures no_stream { NoStreamFails result }
{
    let mut zones = Vec::with_capacity(alloc, count as usize)?;
    let mut rest = bytes;
    for zone in 0..count {
        let (row, after) = rest.split_at(ZONE_ROW_BYTES);
        zones.push(decode(zone, row, capacity)?)?;
        rest = after;
    }
    Ok(zones)
}

/// What the row of the zone with this number tells.
fn decode(zone: u32, bytes: &[u8], capacity: u32) -> Result<Zone, LoadFault>
    requires size { length bytes.now ≡ ZONE_ROW_BYTES }
    requires some { 1 ≤ capacity }
    ensures { result ≡ zone_in zone capacity bytes.now }
{
    if !are_zeros(&bytes[1..4]) {
        let fault = ZoneRowFault::Reserved;
        return Err(LoadFault::ZoneRow { zone, fault });
    }
    let fault = ZoneRowFault::State(bytes[0]);
    let state = ZoneState::from_code(bytes[0]).ok_or(LoadFault::ZoneRow { zone, fault })?;
    zone_of(zone, state, LittleEndian::read_u32(&bytes[4..]), capacity)
}

/// The zone in a state with so many blocks written, if the state allows them.
fn zone_of(zone: u32, state: ZoneState, written: u32, capacity: u32) -> Result<Zone, LoadFault>
    requires { 1 ≤ capacity }
    ensures { result ≡ zone_with zone state written capacity }
{
    let fault = ZoneRowFault::Blocks {
        state,
        written,
        capacity,
    };
    Zone::new(state, written, capacity).ok_or(LoadFault::ZoneRow { zone, fault })
}
