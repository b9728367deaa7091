//! Bytes that go to C's memory.

ghost use Rattle.std.specs.Prelude.{◌≡◌, ◌≤◌, ◌<◌, ◌++◌, length, drop, IfSome};
ghost use Rattle.image_text.specs.Text.{text};
ghost use Rattle.device_library.specs.Bytes.{IsFront, IsPut, SavesText};

use image_store::Image;
use image_text::{Buffer, ImageText};
use std::alloc::Global;

/// Puts as many bytes in front of `out` as there is room for, and gives how many.
pub fn put(bytes: &[u8], out: &mut [u8]) -> usize
    ensures { IsFront bytes.now out.old out.new result }
{
    let count = bytes.len().min(out.len());
    out[..count].copy_from_slice(&bytes[..count]);
    count
}

/// What stands behind so many bytes.
pub fn behind(bytes: &[u8], count: usize) -> &[u8]
    ensures { result.now ≡ drop count bytes.now }
{
    &bytes[count.min(bytes.len())..]
}

/// Gives how many bytes the text of an image has, and puts it in front of `out` where there is room for all of them; 0 where memory is
/// wanting. Not inlined, so that a turn doesn't pay for its room on the stack.
#[inline(never)]
pub fn save(alloc: Global, image: &Image, out: &mut [u8]) -> usize
    ensures { SavesText (text image.now) out.old out.new result }
{
    match text_of(alloc, image) {
        Some(bytes) => put_whole(&bytes, out),
        None => 0,
    }
}

/// The text of an image; none where memory is wanting.
fn text_of(alloc: Global, image: &Image) -> Option<Vec<u8>>
    ensures { IfSome result (λ bytes. bytes.items ≡ text image.now) }
{
    let mut buffer = Buffer::new(alloc);
    match image.save(&mut buffer) {
        Ok(()) => Some(buffer.into_bytes()),
        Err(_) => None,
    }
}

/// Puts bytes in front of `out` where it has room for all of them, and gives how many they are.
fn put_whole(bytes: &[u8], out: &mut [u8]) -> usize
    ensures { IsPut bytes.now out.old out.new result }
{
    let count = bytes.len();
    if count <= out.len() {
        out[..count].copy_from_slice(bytes);
    }
    count
}
