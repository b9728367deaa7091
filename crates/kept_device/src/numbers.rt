//! Numbers and scratch bytes in a section.

ghost use Rattle.std.specs.Prelude.{◌≡◌, ◌<◌, ◌^◌, ◌++◌, OnOk, length};
ghost use Rattle.byteorder.specs.Endian.{little_bytes};
ghost use Rattle.program_interface.specs.declared.area.TheConstants.{SCRATCH_BYTES};

use byteorder::{ByteOrder, LittleEndian};
use program_interface::SCRATCH_BYTES;
use std::alloc::AllocError;

/// Adds a number in 2 bytes, the lowest first.
pub(crate) fn add_short(section: &mut Vec<u8>, number: u16) -> Result<(), AllocError>
    ensures added { OnOk result (section.new.items ≡ section.old.items ++ little_bytes 2 number) }
    ensures range { number < 2 ^ 16 }
{
    let mut bytes = [0; 2];
    LittleEndian::write_u16(&mut bytes, number);
    section.extend_from_slice(&bytes)
}

/// Adds a number in 4 bytes, the lowest first.
pub(crate) fn add_number(section: &mut Vec<u8>, number: u32) -> Result<(), AllocError>
    ensures added { OnOk result (section.new.items ≡ section.old.items ++ little_bytes 4 number) }
    ensures range { number < 2 ^ 32 }
{
    let mut bytes = [0; 4];
    LittleEndian::write_u32(&mut bytes, number);
    section.extend_from_slice(&bytes)
}

/// Adds scratch bytes.
pub(crate) fn add_scratch(
    section: &mut Vec<u8>,
    scratch: &[u8; SCRATCH_BYTES],
) -> Result<(), AllocError>
    ensures added { OnOk result (section.new.items ≡ section.old.items ++ scratch.now) }
    ensures size { length scratch.now ≡ SCRATCH_BYTES }
{
    section.extend_from_slice(scratch)
}
