//! The versions of an image's text.

ghost use Rattle.std.specs.Prelude.{◌≡◌, ◌≤◌};
ghost use Rattle.image_text.specs.Reading.{version_in};
ghost use Rattle.image_text.specs.Version.{numbers_of_version, has_block, version_number};
ghost use Rattle.image_text.specs.declared.header.TheConstants.{HEADER_BYTES};

use image_store::MOST_ZONES;
use program_interface::BLOCK_SIZES;

/// A version of the text of an image (profile). Each is loaded, and the last is saved.
#[derive(Clone, Copy, Debug, PartialEq, Eq)]
pub enum Version {
    /// Smaller blocks and fewer zones.
    One = 1,
    /// All block sizes and numbers of zones that there are. The header tells how many blocks are written.
    Two = 2,
}

/// The block sizes that an image of version 1 can have, in bytes (profile).
const VERSION_1_BLOCK_SIZES: [u32; 4] = [512, 1024, 2048, 4096];

/// The most zones that an image of version 1 can have (profile).
const VERSION_1_MOST_ZONES: u32 = 1024;

impl Version {
    /// The version whose texts begin as these bytes do; `None` where those of no version do.
    pub(crate) fn of(bytes: &[u8]) -> Option<Version>
        ensures { result ≡ version_in bytes.now }
    {
        if bytes.starts_with(&Version::One.magic()) {
            Some(Version::One)
        } else if bytes.starts_with(&Version::Two.magic()) {
            Some(Version::Two)
        } else {
            None
        }
    }

    /// Its number, 1 or 2, by which a user is told of it.
    pub fn number(self) -> u8
        ensures { result ≡ version_number self }
    {
        self as u8
    }

    /// The first bytes of its texts.
    pub fn magic(self) -> [u8; 8]
        ensures { result ≡ (numbers_of_version self).magic }
    {
        match self {
            Version::One => *b"ZNSIMG01",
            Version::Two => *b"ZNSIMG02",
        }
    }

    /// Can a block have this many bytes?
    pub(crate) fn has_block(self, bytes: u32) -> bool
        ensures { result ≡ has_block self bytes }
    {
        match self {
            Version::One => VERSION_1_BLOCK_SIZES.contains(&bytes),
            Version::Two => BLOCK_SIZES.contains(&bytes),
        }
    }

    /// How many zones there can be.
    pub(crate) fn most_zones(self) -> u32
        ensures { result ≡ (numbers_of_version self).most_zones }
    {
        match self {
            Version::One => VERSION_1_MOST_ZONES,
            Version::Two => MOST_ZONES,
        }
    }

    /// The first byte of a header from which on all are zero.
    pub(crate) fn zeros_from(self) -> usize
        ensures value { result ≡ (numbers_of_version self).zeros_from }
        ensures inside { result ≤ HEADER_BYTES }
    {
        match self {
            Version::One => 32,
            Version::Two => 40,
        }
    }
}
