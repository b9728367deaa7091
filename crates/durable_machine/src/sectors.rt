//! Whole sectors.

ghost use Rattle.std.specs.Prelude.{◌≡◌, ◌<◌, ◌^◌, ℕ};
ghost use Rattle.durable_machine.specs.Files.{whole_sectors};

use stored_file::SECTOR;

/// The bytes of the sectors that so many bytes take.
pub fn in_sectors(length: usize) -> usize
    requires { length < 2 ^ 63 }
    ensures { result ≡ whole_sectors length }
{
    length.div_ceil(SECTOR) * SECTOR
}
