//! Pages of data, and what is given out of them.

ghost use Rattle.std.specs.Prelude.{◌≡◌, ◌≤◌, ◌+◌, length, replicate, take, vec_capacity, vec_len};
ghost use Rattle.byteorder.specs.Endian.{little_bytes};
ghost use Rattle.common_definitions.specs.Bytes.{padded, spliced};
ghost use Rattle.tcp_admin.specs.Answers.{Adds};
ghost use Rattle.tcp_admin.specs.Pages.{part_of, zeros};

use crate::admin::MOST_ADMIN_DATA;

/// A page of zeros.
#[tactic(auto, unfolding(crate::specs::Pages::zeros))]
pub(crate) fn zero_page<const SIZE: usize>() -> [u8; SIZE]
    ensures { result ≡ zeros SIZE }
{
    [0; SIZE]
}

/// Puts a field in its place.
pub(crate) fn put(page: &mut [u8], at: usize, bytes: &[u8])
    requires { at + length bytes.now ≤ length page.old }
    ensures { page.new ≡ spliced at bytes.now page.old }
{
    page[at..at + bytes.len()].copy_from_slice(bytes);
}

/// Puts a number of two bytes in its place.
pub(crate) fn put_u16(page: &mut [u8], at: usize, number: u16)
    requires { at + 2 ≤ length page.old }
    ensures { page.new ≡ spliced at (little_bytes 2 number) page.old }
{
    put(page, at, &number.to_le_bytes());
}

/// Puts a number of four bytes in its place.
pub(crate) fn put_u32(page: &mut [u8], at: usize, number: u32)
    requires { at + 4 ≤ length page.old }
    ensures { page.new ≡ spliced at (little_bytes 4 number) page.old }
{
    put(page, at, &number.to_le_bytes());
}

/// Puts a number of eight bytes in its place.
pub(crate) fn put_u64(page: &mut [u8], at: usize, number: u64)
    requires { at + 8 ≤ length page.old }
    ensures { page.new ≡ spliced at (little_bytes 8 number) page.old }
{
    put(page, at, &number.to_le_bytes());
}

/// Adds bytes for which there is room.
pub(crate) fn append(out: &mut Vec<u8>, bytes: &[u8])
    requires { vec_len out.old + length bytes.now ≤ vec_capacity out.old }
    ensures added { Adds out.old out.new bytes.now }
    ensures len { vec_len out.new ≡ vec_len out.old + length bytes.now }
{
    match out.extend_from_slice(bytes) {
        Ok(()) => {}
        Err(_) => unreachable!(),
    }
}

/// Adds so many zeros, for which there is room.
fn append_zeros(out: &mut Vec<u8>, count: usize)
    requires few { count ≤ MOST_ADMIN_DATA }
    requires room { vec_len out.old + count ≤ vec_capacity out.old }
    ensures added { Adds out.old out.new (replicate count 0) }
    ensures len { vec_len out.new ≡ vec_len out.old + count }
{
    append(out, &[0; MOST_ADMIN_DATA][..count]);
}

/// Adds so many of these bytes, and zeros behind their end.
fn append_padded(out: &mut Vec<u8>, bytes: &[u8], size: usize)
    requires few { size ≤ MOST_ADMIN_DATA }
    requires room { vec_len out.old + size ≤ vec_capacity out.old }
    ensures added { Adds out.old out.new (padded size (take size bytes.now)) }
    ensures len { vec_len out.new ≡ vec_len out.old + size }
{
    let given = size.min(bytes.len());
    append(out, &bytes[..given]);
    append_zeros(out, size - given);
}

/// Adds a part of a page, and zeros behind its end.
pub(crate) fn append_part(out: &mut Vec<u8>, page: &[u8], offset: usize, size: usize)
    requires within { offset ≤ length page.now }
    requires few { size ≤ MOST_ADMIN_DATA }
    requires room { vec_len out.old + size ≤ vec_capacity out.old }
    ensures added { Adds out.old out.new (part_of offset size page.now) }
    ensures len { vec_len out.new ≡ vec_len out.old + size }
{
    append_padded(out, &page[offset..], size);
}
