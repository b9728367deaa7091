//! Reports of zones, as `nvme zns report-zones` shows them.

use command_files::Counted;
use nvme_entry::{DESCRIPTOR_BYTES, REPORT_HEADER_BYTES, ZONE_TYPE, ZoneDescriptor, zones_told};
use std::alloc::AllocError;

/// Adds what a report tells: how many zones, of how many descriptors it has where these are fewer, and on a line each those
/// whose descriptors it has.
pub(crate) fn push_report(report: &[u8], out: &mut String) -> Result<(), AllocError> {
    match report.split_first_chunk::<REPORT_HEADER_BYTES>() {
        Some((header, descriptors)) => {
            let told = zones_told(header);
            let given = (descriptors.len() / DESCRIPTOR_BYTES) as u64;
            let zones = Counted(told, "zone");
            if given < told {
                write!(out, "{given} of ")?;
            }
            writeln!(out, "{zones}")?;
            push_zones(told, descriptors, out)
        }
        None => {
            let bytes = Counted(report.len() as u64, "byte");
            writeln!(out, "{bytes}, a beginning of its header")
        }
    }
}

/// Adds the zones of so many descriptors, or of as many as there are.
fn push_zones(told: u64, descriptors: &[u8], out: &mut String) -> Result<(), AllocError> {
    let mut rest = descriptors;
    for _zone in 0..told {
        let Some((bytes, behind)) = rest.split_first_chunk::<DESCRIPTOR_BYTES>() else {
            break;
        };
        push_zone(bytes, out)?;
        rest = behind;
    }
    Ok(())
}

/// Adds a zone. The type and the attributes are those of every descriptor that is read.
fn push_zone(bytes: &[u8; DESCRIPTOR_BYTES], out: &mut String) -> Result<(), AllocError> {
    let Some(zone) = ZoneDescriptor::decode(bytes) else {
        return writeln!(
            out,
            "  {DESCRIPTOR_BYTES} bytes that are no zone's descriptor"
        );
    };
    let lowest = zone.lowest;
    let pointer = zone.write_pointer;
    let capacity = zone.capacity;
    let state = zone.state;
    let code = u16::from(state.code()) << 4;
    writeln!(
        out,
        "  SLBA: {lowest:#x}  WP: {pointer:#x}  Cap: {capacity:#x}  State: {code:#x} ({state})  Type: {ZONE_TYPE:#x}  Attrs: 0x0"
    )
}
