//! The first part of an image: its version, the shape of its namespace, and how much is written.

ghost use Rattle.std.specs.Prelude.{◌≡◌, ◌+◌, ◌≤◌, length};
ghost use Rattle.common_definitions.specs.Bytes.{field};
ghost use Rattle.image_text.specs.Reading.{header_of, header_told, numbers_in, shape_told, total_told, version_kept, zeros_kept};
ghost use Rattle.image_text.specs.Text.{header};
ghost use Rattle.image_text.specs.declared.header.TheConstants.{HEADER_BYTES};

use crate::bytes::are_zeros;
use crate::fault::{HeaderFault, LoadFault};
use crate::version::Version;
use byteorder::{ByteOrder, LittleEndian};
use image_store::{Geometry, Limits};

/// Bytes of a header.
pub const HEADER_BYTES: usize = 64;

/// What a header tells.
#[derive(Clone, Copy)]
pub struct Header {
    /// The shape of the namespace.
    pub geometry: Geometry,
    /// How many blocks of all zones are written, where the version tells it.
    pub total: Option<u64>,
}

/// The header of an image that is saved: of this geometry, with so many written blocks.
pub fn encode(geometry: Geometry, total: u64) -> [u8; HEADER_BYTES]
    ensures { result ≡ header Version.Two geometry total }
{
    let limits = geometry.limits();
    let numbers = [
        geometry.block().bytes(),
        geometry.zones(),
        geometry.size(),
        geometry.capacity(),
        limits.open_limit,
        limits.active_limit,
    ];
    let mut bytes = [0; HEADER_BYTES];
    bytes[..8].copy_from_slice(&Version::Two.magic());
    LittleEndian::write_u32_into(&numbers, &mut bytes[8..32]);
    LittleEndian::write_u64(&mut bytes[32..], total);
    bytes
}

/// What a header of either version tells.
///
/// # Errors
///
/// [`LoadFault::Magic`] for other first bytes, or [`LoadFault::Header`] with the first test that the rest fails.
pub fn decode(bytes: &[u8]) -> Result<Header, LoadFault>
    requires { length bytes.now ≡ HEADER_BYTES }
    ensures { result ≡ header_told bytes.now }
{
    let version = Version::of(bytes).ok_or(LoadFault::Magic)?;
    decode_as(version, bytes)
}

/// What a header of this version tells.
fn decode_as(version: Version, bytes: &[u8]) -> Result<Header, LoadFault>
    requires { length bytes.now ≡ HEADER_BYTES }
    ensures { result ≡ header_of bytes.now version }
{
    let geometry = geometry_told(bytes)?;
    check_version(version, geometry)?;
    check_zeros(version, bytes)?;
    Ok(Header {
        geometry,
        total: total(version, bytes),
    })
}

/// The geometry of a header's numbers.
fn geometry_told(bytes: &[u8]) -> Result<Geometry, LoadFault>
    requires { length bytes.now ≡ HEADER_BYTES }
    ensures { result ≡ numbers_in (shape_told bytes.now) }
{
    let block = number(bytes, 8);
    let zones = number(bytes, 12);
    let size = number(bytes, 16);
    let capacity = number(bytes, 20);
    let limits = Limits {
        open_limit: number(bytes, 24),
        active_limit: number(bytes, 28),
    };
    Geometry::new(block, zones, size, capacity, limits).map_err(|refusal| LoadFault::Header(
        HeaderFault::Numbers(refusal),
    ))
}

/// Refuses a geometry that no text of the version has.
fn check_version(version: Version, geometry: Geometry) -> Result<(), LoadFault>
    ensures { result ≡ version_kept version geometry }
{
    let bytes = geometry.block().bytes();
    if !version.has_block(bytes) {
        let fault = HeaderFault::VersionBlock { version, bytes };
        return Err(LoadFault::Header(fault));
    }
    let zones = geometry.zones();
    if zones > version.most_zones() {
        let fault = HeaderFault::VersionZones { version, zones };
        return Err(LoadFault::Header(fault));
    }
    Ok(())
}

/// Refuses bytes other than zeros behind what the version tells.
fn check_zeros(version: Version, bytes: &[u8]) -> Result<(), LoadFault>
    requires { length bytes.now ≡ HEADER_BYTES }
    ensures { result ≡ zeros_kept version bytes.now }
{
    if are_zeros(&bytes[version.zeros_from()..]) {
        Ok(())
    } else {
        Err(LoadFault::Header(HeaderFault::Reserved(version)))
    }
}

/// How many blocks are written, where the version tells it.
fn total(version: Version, bytes: &[u8]) -> Option<u64>
    requires { length bytes.now ≡ HEADER_BYTES }
    ensures { result ≡ total_told version bytes.now }
{
    match version {
        Version::One => None,
        Version::Two => Some(LittleEndian::read_u64(&bytes[32..])),
    }
}

/// The number that begins at a byte.
fn number(bytes: &[u8], at: usize) -> u32
    requires { at + 4 ≤ length bytes.now }
    ensures { result ≡ field bytes.now at 4 }
{
    LittleEndian::read_u32(&bytes[at..])
}
