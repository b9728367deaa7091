//! The shape of a namespace.

ghost use Rattle.std.specs.Prelude.{◌≡◌, ◌≤◌, ◌<◌, ◌*◌, ◌^◌, ◌+◌, IfSome, OnSome};
ghost use Rattle.std.specs.Int.{is_in_range};
ghost use Rattle.image_store.specs.Geometry.{shape_of, zone_block_of, geometry_refusal_number, are_limits, tested, IsShape};

use program_interface::{BlockSize, LARGEST_BLOCK};
use std::marker::Model;
use thiserror::Error;
use zone_resources::Limits;

/// The most zones that a namespace can have (profile).
pub const MOST_ZONES: u32 = 4096;

/// The most blocks that a zone can have (profile).
const MOST_ZONE_BLOCKS: u32 = 16_777_216;

/// The most bytes that the blocks of all zones may take (profile).
const MOST_BYTES: u64 = 268_435_456;

/// Why numbers are no geometry: those of them that have the fault. The variants stand in the order of the tests.
#[derive(Clone, Copy, Debug, PartialEq, Eq, Error)]
pub enum GeometryRefusal {
    /// No block has so many bytes.
    #[error("a block of {0} bytes: the block size is no power of 2 from 512 to {most}", most = LARGEST_BLOCK)]
    BlockSize(u32),
    /// There are no zones, or more than [`MOST_ZONES`].
    #[error("{0} zones: the number of zones is not from 1 to {most}", most = MOST_ZONES)]
    ZoneCount(u32),
    /// A zone has no blocks, or more than 16,777,216.
    #[error("zones of {0} blocks: the zone size is not from 1 to {most} blocks", most = MOST_ZONE_BLOCKS)]
    ZoneSize(u32),
    /// No block of a zone can be written, or more than it has; both numbers are in blocks.
    #[error("{capacity} writable of {size} blocks: the zone capacity is not from 1 to the zone size")]
    ZoneCapacity {
        capacity: u32,
        size: u32,
    },
    /// No zone may be open, or more than may be active, or more of these than there are zones (ZNS 1.1, 2.1.1).
    #[error("{open_limit} open and {active_limit} active of {zones} zones: the limits are not 1 open zone or more, as many active ones or more, and no more than zones")]
    ResourceLimits {
        open_limit: u32,
        active_limit: u32,
        zones: u32,
    },
    /// The blocks of all zones that can be written take more than 268,435,456 bytes: the number of zones, the blocks of each
    /// that can be written, and the bytes of a block.
    #[error("{zones} zones of {capacity} writable blocks of {block} bytes: the zones' capacity is more than {most} bytes in all", most = MOST_BYTES)]
    TooLarge {
        zones: u32,
        capacity: u32,
        block: u32,
    },
}

impl GeometryRefusal {
    /// The number that a user is told of the fault, from 1 to 6 (profile).
    pub fn number(self) -> u8
        ensures { result ≡ geometry_refusal_number self }
    {
        match self {
            GeometryRefusal::BlockSize(_) => 1,
            GeometryRefusal::ZoneCount(_) => 2,
            GeometryRefusal::ZoneSize(_) => 3,
            GeometryRefusal::ZoneCapacity { .. } => 4,
            GeometryRefusal::ResourceLimits { .. } => 5,
            GeometryRefusal::TooLarge { .. } => 6,
        }
    }
}

/// A logical block as a block of a zone.
#[derive(Clone, Copy, Debug, PartialEq, Eq)]
pub struct ZoneBlock {
    /// The number of the zone.
    pub zone: u32,
    /// How many blocks it lies behind the zone's lowest one.
    pub offset: u32,
}

/// The shape of a namespace: bytes of a block, number of zones, blocks of a zone with how many of
/// them can be written (ZNS 1.1, 2.1.1), and how many zones may hold resources.
#[derive(Clone, Copy, Debug, PartialEq, Eq)]
pub struct Geometry {
    block: BlockSize,
    zones: u32,
    size: u32,
    capacity: u32,
    limits: Limits,
}

impl Model for Geometry {
    ghost use Rattle.image_store.specs.Geometry.{Shape, IsShape};

    ghost Value = { Shape };

    ghost view = { λ g. record { block = g.block; zones = g.zones; size = g.size; capacity = g.capacity; limits = g.limits } };

    ghost invariant = { λ g. IsShape (record { block = g.block; zones = g.zones; size = g.size; capacity = g.capacity; limits = g.limits }) };

    ghost inverse = { λ s. record { block = s.block; zones = s.zones; size = s.size; capacity = s.capacity; limits = s.limits } };
}

impl Geometry {
    /// A geometry of these numbers, of which `size` and `capacity` are in blocks. They are tested in order, and the
    /// first fault is told, with the numbers that have it; just the shapes that a namespace can have pass.
    ///
    /// # Errors
    ///
    /// The first [`GeometryRefusal`] that applies, with the numbers that have it.
    pub fn new(
        block: u32,
        zones: u32,
        size: u32,
        capacity: u32,
        limits: Limits,
    ) -> Result<Geometry, GeometryRefusal>
        ensures { result ≡ tested (shape_of block zones size capacity limits) }
    {
        let Some(block) = BlockSize::new(block) else {
            return Err(GeometryRefusal::BlockSize(block));
        };
        if !is_from_one_to(MOST_ZONES, zones) {
            return Err(GeometryRefusal::ZoneCount(zones));
        }
        if !is_from_one_to(MOST_ZONE_BLOCKS, size) {
            return Err(GeometryRefusal::ZoneSize(size));
        }
        if !is_from_one_to(size, capacity) {
            return Err(GeometryRefusal::ZoneCapacity { capacity, size });
        }
        if !are_limits(limits, zones) {
            return Err(GeometryRefusal::ResourceLimits {
                open_limit: limits.open_limit,
                active_limit: limits.active_limit,
                zones,
            });
        }
        if u64::from(zones) * u64::from(capacity) * u64::from(block.bytes()) > MOST_BYTES {
            return Err(GeometryRefusal::TooLarge {
                zones,
                capacity,
                block: block.bytes(),
            });
        }
        Ok(Geometry {
            block,
            zones,
            size,
            capacity,
            limits,
        })
    }

    /// The size of a block.
    pub fn block(self) -> BlockSize
        ensures value { result ≡ self.block }
        ensures shape { IsShape self }
    {
        self.block
    }

    /// The number of zones.
    pub fn zones(self) -> u32
        ensures { result ≡ self.zones }
    {
        self.zones
    }

    /// Blocks of a zone, written or not.
    pub fn size(self) -> u32
        ensures { result ≡ self.size }
    {
        self.size
    }

    /// How many blocks of a zone can be written.
    pub fn capacity(self) -> u32
        ensures { result ≡ self.capacity }
    {
        self.capacity
    }

    /// How many zones may be open and active at one time.
    pub fn limits(self) -> Limits
        ensures { result ≡ self.limits }
    {
        self.limits
    }

    /// The number of logical blocks of the namespace.
    pub fn blocks(self) -> u64
        ensures value { result ≡ self.zones * self.size }
        ensures most { result ≤ 2 ^ 36 }
    {
        u64::from(self.zones) * u64::from(self.size)
    }

    /// A logical block as a block of its zone, or `None` for an LBA past the namespace's end.
    pub fn zone_block(self, lba: u64) -> Option<ZoneBlock>
        ensures value { result ≡ zone_block_of self lba }
        ensures inside { IfSome result (λ block. block.zone < self.zones) }
        ensures lowest { IfSome result (λ block. block.zone * self.size + block.offset ≡ lba) }
        ensures small { OnSome result (lba < 2 ^ 36) }
    {
        if lba >= self.blocks() {
            return None;
        }
        let size = u64::from(self.size);
        Some(ZoneBlock {
            zone: (lba / size) as u32,
            offset: (lba % size) as u32,
        })
    }

    /// Bytes that the blocks of one zone may take.
    #[tactic(auto, using(crate::proofs::Shapes::zone_room_is_bounded))]
    pub fn zone_room(self) -> usize
        ensures { result ≡ self.capacity * self.block }
    {
        self.capacity as usize * self.block.bytes() as usize
    }

    /// Bytes that the blocks of all zones may take.
    pub fn room(self) -> usize
        ensures { result ≡ self.zones * (self.capacity * self.block) }
    {
        self.zones as usize * self.zone_room()
    }
}

/// Is the number from 1 to `most`?
fn is_from_one_to(most: u32, n: u32) -> bool
    ensures { result ≡ is_in_range 1 most n }
{
    1 <= n && n <= most
}

/// Is the limit on open zones from 1 to that on active ones, and this at most the number of zones?
fn are_limits(limits: Limits, zones: u32) -> bool
    ensures { result ≡ are_limits limits zones }
{
    is_from_one_to(limits.active_limit, limits.open_limit) && limits.active_limit <= zones
}
