//! Packing, and the copies of the same bytes that it is compared with.

ghost use Rattle.std.specs.Prelude.{◌≡◌, ◌≤◌, ◌<◌, ◌++◌, length, drop};

use emit_append::{BlockSize, Packer};

/// The bytes of a block.
pub(crate) const BLOCK: u32 = 4096;

/// Packs the whole groups of this length in the bytes, puts each block into the target behind the
/// one before, and gives how many bytes of the target the blocks fill.
pub(crate) fn pack_groups(bytes: &[u8], length: usize, target: &mut [u8]) -> usize
    requires some { 0 < length }
    requires fits { length ≤ BLOCK }
{
    let mut packer = Packer::new(BlockSize::new(BLOCK).unwrap());
    let mut filled = 0;
    let mut rest = bytes;
    while rest.len() >= length {
        let (group, after) = rest.split_at(length);
        filled = pack(&mut packer, group, target, filled);
        rest = after;
    }
    if !packer.is_empty() {
        filled = keep(packer.padded(), target, filled);
    }
    filled
}

/// Packs one group. Where it doesn't fit into the pending block, that one is put into the target first.
fn pack(packer: &mut Packer, group: &[u8], target: &mut [u8], filled: usize) -> usize
    requires fits { length group.now ≤ packer.old.block }
    requires inside { filled ≤ length target.old }
    ensures block { packer.new.block ≡ packer.old.block }
    ensures size { length target.new ≡ length target.old }
    ensures inside { result ≤ length target.new }
{
    let mut filled = filled;
    if !packer.has_room(group.len()) {
        filled = keep(packer.padded(), target, filled);
        packer.clear();
    }
    packer.add(group);
    filled
}

/// Puts a block behind what is filled of the target, where there is room for it.
fn keep(block: &[u8], target: &mut [u8], filled: usize) -> usize
    requires { filled ≤ length target.old }
    ensures size { length target.new ≡ length target.old }
    ensures inside { result ≤ length target.new }
{
    if block.len() > target.len() - filled {
        return filled;
    }
    target[filled..filled + block.len()].copy_from_slice(block);
    filled + block.len()
}

/// Copies the same groups, one after another, and gives how many bytes they are.
pub(crate) fn copy_groups(bytes: &[u8], length: usize, target: &mut [u8]) -> usize
    requires { 0 < length }
{
    let mut copied = 0;
    while length <= bytes.len() - copied && length <= target.len() - copied {
        target[copied..copied + length].copy_from_slice(&bytes[copied..copied + length]);
        copied += length;
    }
    copied
}

/// Copies all of the bytes at once, and gives how many they are.
pub(crate) fn copy_all(bytes: &[u8], target: &mut [u8]) -> usize
    requires { length bytes.now ≤ length target.old }
    ensures { target.new ≡ bytes.now ++ drop (length bytes.now) target.old }
{
    target[..bytes.len()].copy_from_slice(bytes);
    bytes.len()
}
