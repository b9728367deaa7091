//! Zone descriptors, as a report has them and a host reads them.

ghost use Rattle.std.specs.Prelude.{◌≡◌, ◌<◌, ◌≤◌, ◌+◌, ◌/◌, ◌%◌, ◌^◌, IfSome};
ghost use Rattle.nvme_entry.specs.Descriptor.{AreDescriptorFields, type_and_state, pointer_told, descriptor_bytes, described};
ghost use Rattle.nvme_entry.specs.steps.DescriptorFields.{eight_bytes, descriptor_in};

use byteorder::{ByteOrder, LittleEndian};
use zone_state::{Zone, ZoneState};

/// The bytes of a zone descriptor (ZNS 1.1, 3.4.2).
pub const DESCRIPTOR_BYTES: usize = 64;

/// The zone type Sequential Write Required, which each zone has (ZNS 1.1, 3.4.2).
pub const ZONE_TYPE: u8 = 0x02;

/// The zone descriptor of a report (ZNS 1.1, 3.4.2), of the zone type Sequential Write Required and without attributes.
#[derive(Clone, Copy, Debug, PartialEq, Eq)]
pub struct ZoneDescriptor {
    /// The zone's state.
    pub state: ZoneState,
    /// The number of its blocks that can be written.
    pub capacity: u64,
    /// Its lowest logical block address.
    pub lowest: u64,
    /// The logical block address of its write pointer; all bits are set where it has none (profile).
    pub write_pointer: u64,
}

impl ZoneDescriptor {
    /// What a report tells of a zone with this lowest logical block address.
    pub fn of(zone: Zone, lowest: u64) -> ZoneDescriptor
        requires { lowest + 2 ^ 32 ≤ 2 ^ 64 }
        ensures { result ≡ described zone lowest }
    {
        ZoneDescriptor {
            state: zone.state(),
            capacity: u64::from(zone.capacity()),
            lowest,
            write_pointer: write_pointer(zone, lowest),
        }
    }

    /// The descriptor that the bytes spell: what [`ZoneDescriptor::encode`] gives is read back as what it was, and no
    /// other bytes are read. `None` where no descriptor has them: they have another zone type, a code that no state
    /// has, or attributes, information on them or reserved bits that aren't 0. Whether a zone can have these numbers
    /// isn't asked.
    pub fn decode(bytes: &[u8; DESCRIPTOR_BYTES]) -> Option<ZoneDescriptor>
        ensures spelled { IfSome result (λ descriptor. bytes.now ≡ descriptor_bytes descriptor) }
        ensures read_back { (descriptor : ZoneDescriptor) → AreDescriptorFields descriptor → bytes.now ≡ descriptor_bytes descriptor → result ≡ Some descriptor }
    {
        let found = fields(bytes)?;
        if found.encode() == *bytes {
            Some(found)
        } else {
            None
        }
    }

    /// The bytes of the descriptor.
    pub fn encode(&self) -> [u8; DESCRIPTOR_BYTES]
        ensures { result ≡ descriptor_bytes self.now }
    {
        let mut bytes = [0; DESCRIPTOR_BYTES];
        LittleEndian::write_u64_into(
            &[
                type_and_state(self.state),
                self.capacity,
                self.lowest,
                self.write_pointer,
                0,
                0,
                0,
                0,
            ],
            &mut bytes,
        );
        bytes
    }
}

/// The write pointer of a zone with this lowest LBA, where it has one.
fn write_pointer(zone: Zone, lowest: u64) -> u64
    requires { lowest + 2 ^ 32 ≤ 2 ^ 64 }
    ensures { result ≡ pointer_told zone lowest }
{
    match zone.state() {
        ZoneState::ReadOnly | ZoneState::Full | ZoneState::Offline => u64::MAX,
        _ => lowest + u64::from(zone.written()),
    }
}

/// The first 8 bytes of the descriptor of a zone in this state.
fn type_and_state(state: ZoneState) -> u64
    ensures { result ≡ type_and_state state }
{
    u64::from(ZONE_TYPE) + 0x1000 * u64::from(state.code())
}

/// The fields of a descriptor, where its state is one.
fn fields(bytes: &[u8; DESCRIPTOR_BYTES]) -> Option<ZoneDescriptor>
    ensures { result ≡ descriptor_in bytes.now }
{
    let state = ZoneState::from_code(state_code(number(bytes, 0)))?;
    Some(ZoneDescriptor {
        state,
        capacity: number(bytes, 1),
        lowest: number(bytes, 2),
        write_pointer: number(bytes, 3),
    })
}

/// The state's code in the first 8 bytes of a descriptor.
fn state_code(first: u64) -> u8
    ensures { result ≡ first / 2 ^ 12 % 2 ^ 4 }
{
    ((first >> 12) % 0x10) as u8
}

/// The number in the 8 bytes with this index.
fn number(bytes: &[u8; DESCRIPTOR_BYTES], index: usize) -> u64
    requires { index < 8 }
    ensures { result ≡ eight_bytes bytes.now index }
{
    LittleEndian::read_u64(&bytes[8 * index..])
}
