//! The report of zones that Zone Management Receive gives.

ghost use Rattle.std.specs.Prelude.{◌≡◌, ◌≤◌, ◌<◌, ◌+◌, ◌*◌, ◌^◌, ◌++◌, length, take, drop, min, if◌then◌else◌};
ghost use Rattle.std.specs.List.{enumerate_from};
ghost use Rattle.nvme_entry.specs.Report.{report, listed, listed_zones, report_header, descriptor};
ghost use Rattle.nvme_entry.specs.ReportLaws.{number_in};
ghost use Rattle.nvme_entry.specs.declared.descriptor.TheConstants.{DESCRIPTOR_BYTES};
ghost use Rattle.nvme_entry.specs.declared.report.TheConstants.{REPORT_HEADER_BYTES};

use crate::descriptor::{DESCRIPTOR_BYTES, ZoneDescriptor};
use crate::filter::ZoneFilter;
use crate::output::put_front;
use byteorder::{ByteOrder, LittleEndian};
use zone_state::Zone;

/// The bytes of a report's header (ZNS 1.1, 3.4.2).
pub const REPORT_HEADER_BYTES: usize = 64;

/// A report of zones (ZNS 1.1, 3.4.2), to be written where it is wanted.
#[derive(Clone, Copy, Debug)]
pub struct Report<'a> {
    /// All zones of the namespace.
    pub zones: &'a [Zone],
    /// The number of the zone that the report begins with.
    pub first: u32,
    /// The blocks of each zone.
    pub size: u32,
    /// The zones that are reported.
    pub filter: ZoneFilter,
    /// Does the number of zones told leave out those whose descriptors do not fit?
    pub partial: bool,
}

impl Report<'_> {
    /// Fills all of `output`: the header, behind it the descriptors of the zones that match, in order, as many as fit
    /// whole, and zeros. An output of fewer than 64 bytes is a beginning of the header (profile).
    pub fn write(&self, output: &mut [u8])
        requires { length self.now.zones.now ≤ 2 ^ 32 }
        ensures { output.new ≡ report (length output.old) self.now.zones.now self.now.first self.now.size self.now.filter self.now.partial }
    {
        let start = output.len().min(REPORT_HEADER_BYTES);
        let room = (output.len() - start) / DESCRIPTOR_BYTES;
        let zones = zones_from(self.zones, self.first);
        let found = list(
            zones,
            self.first,
            self.size,
            self.filter,
            &mut output[start..],
        );
        write_header(output, number_told(self.partial, room, found));
    }
}

/// The number of zones that the header of a report tells: of those whose descriptors are given, or of all that match
/// (ZNS 1.1, 3.4.2).
pub fn zones_told(header: &[u8; REPORT_HEADER_BYTES]) -> u64
    ensures { result ≡ number_in header.now }
{
    LittleEndian::read_u64(header)
}

/// The zones from one on.
fn zones_from(zones: &[Zone], first: u32) -> &[Zone]
    requires { length zones.now ≤ 2 ^ 32 }
    ensures value { result.now ≡ drop first zones.now }
    ensures few { first + length result.now ≤ 2 ^ 32 }
{
    let first = zones.len().min(first as usize);
    zones.split_at(first).1
}

/// The number of zones that the header tells, where so many were found and there is room for the
/// descriptors of so many.
fn number_told(partial: bool, room: usize, found: usize) -> u64
    ensures { result ≡ (if partial then min room found else found) }
{
    if partial {
        room.min(found) as u64
    } else {
        found as u64
    }
}

/// The header's bytes.
fn header(number: u64) -> [u8; REPORT_HEADER_BYTES]
    ensures { result ≡ report_header number }
{
    let mut bytes = [0; REPORT_HEADER_BYTES];
    LittleEndian::write_u64(&mut bytes, number);
    bytes
}

/// Puts the header at the front, or as much of it as there is room for.
fn write_header(output: &mut [u8], number: u64)
    ensures { output.new ≡ take (length output.old) (report_header number) ++ drop REPORT_HEADER_BYTES output.old }
{
    let length = output.len().min(REPORT_HEADER_BYTES);
    put_front(output, &header(number)[..length]);
}

/// Fills the output with the descriptors of the zones that the filter lists, as many as fit whole,
/// and zeros, and tells how many it lists. The zones are those from number `first` on.
fn list(zones: &[Zone], first: u32, size: u32, filter: ZoneFilter, output: &mut [u8]) -> usize
    requires { first + length zones.now ≤ 2 ^ 32 }
    ensures number { result ≡ length (listed_zones filter (enumerate_from first zones.now)) }
    ensures bytes { output.new ≡ listed size (length output.old) (listed_zones filter (enumerate_from first zones.now)) }
{
    let mut found = 0;
    let mut at = 0;
    for (index, zone) in zones.iter().enumerate() {
        if !filter.lists(zone.state()) {
            continue;
        }
        found += 1;
        let lowest = lowest_lba(u64::from(first) + index as u64, size);
        at = put_descriptor(output, at, *zone, lowest);
    }
    output[at..].fill(0);
    found
}

/// The lowest LBA of the zone with this number.
fn lowest_lba(number: u64, size: u32) -> u64
    requires { number < 2 ^ 32 }
    ensures value { result ≡ number * size }
    ensures room { result + 2 ^ 32 ≤ 2 ^ 64 }
{
    number * u64::from(size)
}

/// Puts the descriptor of a zone at a place, where it fits there whole, and tells the place behind
/// what it put.
fn put_descriptor(output: &mut [u8], at: usize, zone: Zone, lowest: u64) -> usize
    requires inside { at ≤ length output.old }
    requires lowest { lowest + 2 ^ 32 ≤ 2 ^ 64 }
    ensures inside { result ≤ length output.new }
    ensures same_length { length output.new ≡ length output.old }
    ensures fits { at + DESCRIPTOR_BYTES ≤ length output.old → (result ≡ at + DESCRIPTOR_BYTES) × (take result output.new ≡ take at output.old ++ descriptor zone lowest) }
    ensures full { length output.old < at + DESCRIPTOR_BYTES → (result ≡ at) × (output.new ≡ output.old) }
{
    if output.len() - at < DESCRIPTOR_BYTES {
        return at;
    }
    write_descriptor(&mut output[at..], zone, lowest);
    at + DESCRIPTOR_BYTES
}

/// Puts the descriptor of a zone at the front.
fn write_descriptor(output: &mut [u8], zone: Zone, lowest: u64)
    requires inside { DESCRIPTOR_BYTES ≤ length output.old }
    requires lowest { lowest + 2 ^ 32 ≤ 2 ^ 64 }
    ensures { output.new ≡ descriptor zone lowest ++ drop DESCRIPTOR_BYTES output.old }
{
    put_front(output, &ZoneDescriptor::of(zone, lowest).encode());
}
