//! The fields of a slot.

ghost use Rattle.std.specs.Prelude.{◌≡◌, ◌<◌, ◌≤◌, length};
ghost use Rattle.ebpf_decode.specs.Reading.{fields_at};
ghost use Rattle.instruction_set.specs.Spelling.{slot_bytes};

use byteorder::{ByteOrder, LittleEndian};
use instruction_set::Fields;

/// The fields of the slot at the front.
pub(crate) fn from_bytes(bytes: &[u8]) -> Fields
    requires { 8 ≤ length bytes.now }
    ensures { result ≡ fields_at bytes.now }
{
    let offset = LittleEndian::read_i16(&bytes[2..]);
    let immediate = LittleEndian::read_i32(&bytes[4..]);
    Fields {
        opcode: bytes[0],
        dst: bytes[1] % 16,
        src: bytes[1] / 16,
        offset,
        immediate,
    }
}

/// The bytes of a slot.
pub(crate) fn to_bytes(fields: Fields) -> [u8; 8]
    requires dst { fields.dst < 16 }
    requires src { fields.src < 16 }
    ensures { result ≡ slot_bytes fields }
{
    let mut bytes = [0; 8];
    bytes[0] = fields.opcode;
    bytes[1] = fields.dst + 16 * fields.src;
    LittleEndian::write_i16(&mut bytes[2..], fields.offset);
    LittleEndian::write_i32(&mut bytes[4..], fields.immediate);
    bytes
}
