//! Yes and no as bytes, for each place.

ghost use Rattle.std.specs.Prelude.{◌≡◌, map};
ghost use Rattle.device_library.specs.Flags.{byte_of, is_set, padded};

use tcp_loop::PLACES;

/// 1 for yes, 0 for no.
pub(crate) fn byte_of(is: bool) -> u8
    ensures { result ≡ byte_of is }
{
    if is { 1 } else { 0 }
}

/// Is a byte not 0?
pub(crate) fn is_set(byte: u8) -> bool
    ensures { result ≡ is_set byte }
{
    byte != 0
}

/// A byte for each place.
pub(crate) fn bytes_of(flags: [bool; PLACES]) -> [u8; PLACES]
    ensures { result ≡ map byte_of flags }
{
    let mut bytes = [0; PLACES];
    for (place, is) in flags.iter().enumerate() {
        bytes[place] = byte_of(*is);
    }
    bytes
}

/// Yes or no for each place, by bytes; no where there is none.
pub(crate) fn flags_in(bytes: &[u8]) -> [bool; PLACES]
    ensures { result ≡ map is_set (padded bytes.now) }
{
    flags_of(padded(bytes))
}

/// A byte for each place, of which the first are these, and the others 0.
fn padded(bytes: &[u8]) -> [u8; PLACES]
    ensures { result ≡ padded bytes.now }
{
    let mut all = [0; PLACES];
    let count = bytes.len().min(PLACES);
    all[..count].copy_from_slice(&bytes[..count]);
    all
}

/// Yes or no for each place.
fn flags_of(bytes: [u8; PLACES]) -> [bool; PLACES]
    ensures { result ≡ map is_set bytes }
{
    let mut flags = [false; PLACES];
    for (place, byte) in bytes.iter().enumerate() {
        flags[place] = is_set(*byte);
    }
    flags
}
