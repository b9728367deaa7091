//! How many blocks groups can come to, packing them, and reading records back.

ghost use Rattle.std.specs.Prelude.{◌≤◌};

use emit_append::{BlockSize, Packer, RunSizes, UnpackFault, blocks_needed, unpack};
use std::alloc::{AllocError, Global};
use std::test::Fail;

/// A block of these bytes and zeros, and then one more byte.
fn block_with(alloc: Global, front: &[u8], size: usize, last: u8) -> Result<Vec<u8>, AllocError>
    requires { 1 ≤ size }
{
    let mut block = Vec::from_slice(alloc, front)?;
    block.resize(size - 1, 0)?;
    block.push(last)?;
    Ok(block)
}

#[test]
fn bounds_the_blocks(rt: HostRuntime) {
    for (groups, limit, block, blocks) in [
        (52, 10, 512, 2),
        (3, 512, 512, 3),
        (7, 200, 512, 4),
        (4, 257, 512, 4),
        (65536, 1, 512, 128),
        (9, 0, 512, 0),
        (65536, 16384, 16384, 65536),
    ] {
        let size = BlockSize::new(block).expect(&rt, "a block size");
        let sizes = RunSizes::new(size, limit).expect(&rt, "a group that fits");
        assert_eq!(rt; blocks_needed(groups, sizes), blocks);
    }
}

#[test]
fn packs_groups(rt: HostRuntime) -> Result<(), Fail> {
    let mut packer = Packer::new(BlockSize::new(512).unwrap());
    packer.add(&[6; 300]);
    packer.add(&[]);
    assert!(rt; packer.has_room(212));
    packer.add(&[7; 212]);
    assert!(rt; !packer.has_room(3));
    let mut expected = Vec::from_slice(rt.alloc(), &[6; 300])?;
    expected.extend_from_slice(&[7; 212])?;
    assert_eq!(rt; packer.padded(), expected.as_slice());
    packer.clear();
    packer.add(&[8; 3]);
    let expected = block_with(rt.alloc(), &[8; 3], 512, 0)?;
    assert_eq!(rt; packer.padded(), expected.as_slice());
    Ok(())
}

#[test]
fn reads_what_fills_the_block(rt: HostRuntime) -> Result<(), Fail> {
    let size = BlockSize::new(512).unwrap();
    for (front, last, records) in [
        ([0x03, 0x00, b'a', b'b', b'c'], 0, Ok(3)),
        ([0x03, 0x00, b'a', b'b', b'c'], 1, Err(UnpackFault::At(511))),
        ([0xff, 0x01, 0, 0, 0], 0, Err(UnpackFault::At(0))),
        ([0xfe, 0x01, 5, 5, 5], 5, Ok(510)),
        ([0xfd, 0x01, 5, 5, 5], 0, Ok(509)),
        ([0xfd, 0x01, 5, 5, 5], 5, Err(UnpackFault::At(511))),
    ] {
        let block = block_with(rt.alloc(), &front, 512, last)?;
        match unpack(rt.alloc(), &block, size) {
            Ok(read) => {
                assert_eq!(rt; read.len(), 1);
                assert_eq!(rt; Ok(read[0].len()), records);
            }
            Err(UnpackFault::Memory) => return Err(AllocError)?,
            Err(fault) => assert_eq!(rt; Err(fault), records),
        }
    }
    let block = block_with(rt.alloc(), &[0xfe, 0x3f], 16384, 9)?;
    let records = unpack(rt.alloc(), &block, BlockSize::new(16384).unwrap())?;
    assert_eq!(rt; records.len(), 1);
    assert_eq!(rt; records[0].len(), 16382);
    Ok(())
}
