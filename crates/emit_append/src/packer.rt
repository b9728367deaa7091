//! The packer, which keeps one output block.

ghost use Rattle.std.specs.Prelude.{◌≡◌, ◌≤◌, ◌+◌, ◌==◌, [], ◌++◌, length, nat_le, take};
ghost use Rattle.emit_append.specs.Packer.{after_put, given_by_put, new_packer};
ghost use Rattle.common_definitions.specs.Bytes.{padded};

use program_interface::{BlockSize, LARGEST_BLOCK};
use std::marker::Model;

/// What a new packer's block begins as: made once, and copied.
static ZEROS: [u8; LARGEST_BLOCK] = [0; LARGEST_BLOCK];

/// Packs groups into output blocks. It keeps the block that was begun last, since the next group
/// may still go into it. Where there is no room for a group, the caller takes that block by
/// [`Packer::padded`], begins an empty one by [`Packer::clear`], and adds the group to it; in the end
/// it takes the block if anything is pending. A clause sees the size of the packer's blocks and the
/// bytes that are pending.
#[derive(Drop)]
pub struct Packer {
    /// How many bytes an output block has.
    block: usize,
    /// How many bytes at the front of the array are pending.
    pending: usize,
    /// What stands behind the pending bytes is of earlier groups, until zeros are written there.
    bytes: [u8; LARGEST_BLOCK],
}

impl Model for Packer {
    ghost use Rattle.std.specs.Prelude.{take};
    ghost use Rattle.emit_append.specs.Packer.{PackerState, IsPacker};

    ghost Value = { PackerState };

    ghost view = { λ p. record { block = p.block; pending = take p.pending p.bytes } };

    ghost invariant = { λ p. IsPacker p.block p.pending p.bytes };
}

impl Packer {
    ghost use Rattle.std.specs.Borrow.{sem};
    ghost use Rattle.std.specs.Io.BufRead.{Rests};
    ghost use Rattle.emit_append.specs.contracts.packer.Packer.{the_row};

    /// A packer for blocks of this size, with nothing pending.
    pub fn new(block: BlockSize) -> Packer
        ensures { result ≡ new_packer block }
    {
        Packer {
            block: block.bytes() as usize,
            pending: 0,
            bytes: ZEROS,
        }
    }

    /// A packer for blocks of this size, with these bytes pending.
    pub fn begun(block: BlockSize, pending: &[u8]) -> Packer
        requires { length pending.now ≤ block }
        ensures { result ≡ record { block = block; pending = pending.now } }
    {
        let mut packer = Packer::new(block);
        packer.add(pending);
        packer
    }

    /// The bytes that are pending.
    pub fn pending(&self) -> &[u8]
        ensures value { result.now ≡ self.now.pending }
        ensures fits { length result.now ≤ self.now.block }
    {
        &self.bytes[..self.pending]
    }

    /// Is there room for a group of so many bytes behind what is pending?
    #[inline]
    pub fn has_room(&self, bytes: usize) -> bool
        ensures room { result ≡ nat_le (length self.now.pending + bytes) self.now.block }
        ensures fits { length self.now.pending ≤ self.now.block }
    {
        bytes <= self.block - self.pending
    }

    /// Is nothing pending?
    #[inline]
    pub fn is_empty(&self) -> bool
        ensures { result ≡ (length self.now.pending == 0) }
    {
        self.pending == 0
    }

    /// The pending block, the rest of it zeros, lent where it stands. What is pending stays.
    pub fn padded(&mut self) -> &[u8]
        ensures value { result.now ≡ padded self.old.block self.old.pending }
        ensures whole { length result.now ≡ self.old.block }
        ensures* unchanged { sem 𝓛 (Rests the_row self.entry (λ after. after ≡ self.old)) }
    {
        pad(&mut self.bytes, self.pending, self.block);
        &self.bytes[..self.block]
    }

    /// Begins an empty block. What was pending is dropped.
    pub fn clear(&mut self)
        ensures { self.new ≡ new_packer self.old.block }
    {
        self.pending = 0;
    }

    /// Packs one more group into the pending block, which has room for it, whole and behind what is pending. A group of
    /// no bytes changes nothing, and costs no copy.
    #[inline]
    pub fn add(&mut self, group: &[u8])
        requires { length self.old.pending + length group.now ≤ self.old.block }
        ensures blocks { [] ≡ given_by_put self.old group.now }
        ensures state { self.new ≡ after_put self.old group.now }
        ensures fits { length self.new.pending ≤ self.new.block }
    {
        if group.is_empty() {
            return;
        }
        let pending = self.pending;
        append(&mut self.bytes, pending, group);
        self.pending = pending + group.len();
    }
}

/// Writes bytes behind so many of an array's first ones.
#[inline]
fn append(bytes: &mut [u8], first: usize, more: &[u8])
    requires { first + length more.now ≤ length bytes.old }
    ensures front { take (first + length more.now) bytes.new ≡ take first bytes.old ++ more.now }
    ensures size { length bytes.new ≡ length bytes.old }
{
    bytes[first..first + more.len()].copy_from_slice(more);
}

/// Writes zeros behind so many of an array's first bytes, up to a block's end.
fn pad(bytes: &mut [u8; LARGEST_BLOCK], pending: usize, block: usize)
    requires fits { pending ≤ block }
    requires small { block ≤ LARGEST_BLOCK }
    ensures block { take block bytes.new ≡ padded block (take pending bytes.old) }
    ensures whole { length (take block bytes.new) ≡ block }
    ensures front { take pending bytes.new ≡ take pending bytes.old }
    ensures size { length bytes.new ≡ LARGEST_BLOCK }
{
    bytes[pending..block].fill(0);
}
