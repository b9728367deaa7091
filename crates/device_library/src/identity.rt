//! What a target is, and what its namespace is like.

ghost use Rattle.std.specs.Prelude.{◌≡◌, ◌^◌, IfSome};
ghost use Rattle.tcp_admin.specs.Identity.{IsNamedBy};
ghost use Rattle.tcp_device.specs.Format.{IsFormatOf};

use image_store::Geometry;
use program_interface::BlockSize;
use std::alloc::{AllocError, Global};
use tcp_admin::{NamespaceFormat, QualifiedName, Subsystem};

/// The name of the target until it has another (NVMe Base 2.0, 4.5).
const NAME: &[u8] = b"nqn.2014-08.org.nvmexpress:uuid:0f2b6a34-8c1d-4e7a-9b35-7a6f6e6a6172";

/// NGUID of its namespace (NVMe Base 2.0, 5.17.2.1): the UUID of its name.
const NGUID: [u8; 16] = [
    0x0F, 0x2B, 0x6A, 0x34, 0x8C, 0x1D, 0x4E, 0x7A, 0x9B, 0x35, 0x7A, 0x6F, 0x6E, 0x6A, 0x61, 0x72,
];

/// The bytes of a UUID.
const UUID_BYTES: usize = 16;

/// The model, and the firmware's revision.
const MODEL: [u8; 40] = *b"Pifnjarl                                ";

const FIRMWARE: [u8; 8] = *b"1       ";

/// What the target is until it has the names of a UUID.
pub fn subsystem(alloc: Global) -> Result<Subsystem, AllocError> {
    Ok(Subsystem {
        nqn: QualifiedName::new(alloc, NAME)?,
        serial_number: *b"1                   ",
        model: MODEL,
        firmware: FIRMWARE,
        nguid: NGUID,
    })
}

/// What the target is by a UUID; `None` where these are no 16 bytes, or memory is wanting.
pub fn subsystem_with(alloc: Global, uuid: &[u8]) -> Option<Subsystem>
    ensures { IfSome result (IsNamedBy uuid.now) }
{
    if uuid.len() == UUID_BYTES {
        Subsystem::with_uuid(alloc, uuid, MODEL, FIRMWARE).ok()
    } else {
        None
    }
}

/// What the namespace of an image is like.
pub fn format_of(geometry: Geometry) -> NamespaceFormat
    ensures { IsFormatOf geometry result }
{
    NamespaceFormat {
        blocks: geometry.blocks(),
        block_size_log2: log2_of(geometry.block()),
        zone_blocks: u64::from(geometry.size()),
        active_limit: geometry.limits().active_limit,
        open_limit: geometry.limits().open_limit,
    }
}

/// The logarithm to base 2 of the bytes of a block.
fn log2_of(block: BlockSize) -> u8
    ensures { 2 ^ result ≡ block }
{
    match block.bytes() {
        512 => 9,
        1024 => 10,
        2048 => 11,
        4096 => 12,
        8192 => 13,
        _ => 14,
    }
}
