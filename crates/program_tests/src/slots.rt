//! Programs as slots, each written with its 8 bytes in order.

use std::alloc::{AllocError, Global};

/// EXIT.
pub const EXIT: u64 = 0x9500_0000_0000_0000;

/// Emits the first 8 bytes of a block whose first byte is 7.
pub const MATCHING: [u64; 7] = [
    0x7126_0000_0000_0000, // ldxb r6, [r2+0]
    0x5506_0300_0700_0000, // jne r6, 7, +3
    0xbf21_0000_0000_0000, // mov r1, r2
    0xb702_0000_0800_0000, // mov r2, 8
    0x8500_0000_0100_0000, // call 1
    0xb700_0000_0000_0000, // mov r0, 0
    EXIT,
];

/// The bytes of slots.
///
/// # Errors
///
/// Want of memory.
pub fn bytes_of(alloc: Global, slots: &[u64]) -> Result<Vec<u8>, AllocError> {
    let mut bytes = Vec::new(alloc);
    for slot in slots {
        bytes.extend_from_slice(&slot.to_be_bytes())?;
    }
    Ok(bytes)
}
