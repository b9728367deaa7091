//! Images that were written down byte by byte, and what is told of bytes that are none.

use image_store::{Geometry, GeometryRefusal, Image, Limits};
use image_text::{
    Buffer, HeaderFault, ImageText, LoadFault, Source, StreamFault, Version, ZoneRowFault,
    ZoneTable,
};
use std::alloc::{AllocError, Global};
use std::process::Abort;
use std::test::Fail;
use zone_state::ZoneState;

/// The image of four zones, of which nothing is written: blocks of 512 bytes, eight of them in a
/// zone, of which six can be written; two zones may be open and three active.
const EMPTY: [u8; 96] =
    *b"ZNSIMG02\x00\x02\x00\x00\x04\x00\x00\x00\x08\x00\x00\x00\x06\x00\x00\x00\x02\x00\x00\x00\x03\x00\x00\x00\
\x00\x00\x00\x00\x00\x00\x00\x00\x00\x00\x00\x00\x00\x00\x00\x00\x00\x00\x00\x00\x00\x00\x00\x00\x00\x00\x00\x00\x00\x00\x00\x00\
\x01\x00\x00\x00\x00\x00\x00\x00\x01\x00\x00\x00\x00\x00\x00\x00\x01\x00\x00\x00\x00\x00\x00\x00\x01\x00\x00\x00\x00\x00\x00\x00";

/// Its limits.
const LIMITS: Limits = Limits {
    open_limit: 2,
    active_limit: 3,
};

/// The empty image with some bytes changed.
fn changed(changes: &[(usize, u8)]) -> [u8; 96] {
    let mut image = EMPTY;
    for (at, to) in changes {
        if let Some(byte) = image.get_mut(*at) {
            *byte = *to;
        }
    }
    image
}

/// The image whose zone 1 is implicitly opened and has one block, all of it 5a. A version has this digit and tells this number of
/// written blocks.
fn written(alloc: Global, digit: u8, total: u8) -> Result<Vec<u8>, AllocError> {
    let mut text = Vec::new(alloc);
    text.extend_from_slice(&changed(&[(7, digit), (32, total), (72, 2), (76, 1)]))?;
    text.extend_from_slice(&[0x5a; 512])?;
    Ok(text)
}

/// The text that is saved of the image that a text is loaded as.
fn saved(alloc: Global, text: &[u8]) -> Result<Vec<u8>, Fail> {
    let mut source = text;
    let image = Image::load(alloc, &mut source)?;
    let mut sink = Buffer::new(alloc);
    image.save(&mut sink)?;
    Ok(sink.into_bytes())
}

#[test]
fn images_are_saved(rt: HostRuntime) -> Result<(), Fail> {
    let alloc = rt.alloc();
    let image = Image::empty(alloc, Geometry::new(512, 4, 8, 6, LIMITS)?)?;
    let mut sink = Buffer::new(alloc);
    image.save(&mut sink)?;
    assert_eq!(rt; sink.bytes(), EMPTY.as_slice());
    let text = written(alloc, b'2', 1)?;
    assert_eq!(rt; saved(alloc, &text)?.as_slice(), text.as_slice());
    // The header of version 1 tells nothing of written blocks.
    let old = written(alloc, b'1', 0)?;
    assert_eq!(rt; saved(alloc, &old)?.as_slice(), text.as_slice());
    Ok(())
}

/// The fault that a text is refused with, if it is.
fn fault_of(alloc: Global, text: &[u8]) -> Option<LoadFault> {
    let mut source = text;
    Image::load(alloc, &mut source).err()
}

/// That with which it is refused where its blocks aren't read.
fn fault_of_table(alloc: Global, text: &[u8]) -> Option<LoadFault> {
    let mut source = text;
    ZoneTable::load(alloc, &mut source).err()
}

/// A text has this fault, or none, whether or not its blocks are read.
fn check_fault(rt: &impl Abort, alloc: Global, text: &[u8], fault: Option<LoadFault>) {
    assert_eq!(rt; fault_of(alloc, text), fault);
    assert_eq!(rt; fault_of_table(alloc, text), fault);
}

/// A text is cut short wherever it is cut, loads whole, and trails with one byte more.
fn check_one_length(rt: &impl Abort, alloc: Global, mut text: Vec<u8>) -> Result<(), Fail> {
    for length in 0..text.len() {
        let cut = text.get(..length).unwrap_or(&[]);
        check_fault(rt, alloc, cut, Some(LoadFault::Truncated));
    }
    check_fault(rt, alloc, text.as_slice(), None);
    text.push(0)?;
    check_fault(rt, alloc, text.as_slice(), Some(LoadFault::Trailing));
    Ok(())
}

#[test]
fn an_image_has_one_length(rt: HostRuntime) -> Result<(), Fail> {
    check_one_length(&rt, rt.alloc(), written(rt.alloc(), b'2', 1)?)?;
    check_one_length(&rt, rt.alloc(), written(rt.alloc(), b'1', 0)?)
}

/// What is told of three open zones, where two may be open and three active.
const TOO_MANY: LoadFault = LoadFault::Limits {
    opened: 3,
    active: 3,
    limits: LIMITS,
};

#[test]
fn the_first_fault_decides(rt: HostRuntime) -> Result<(), Fail> {
    let total = LoadFault::Total {
        told: 1,
        counted: 0,
    };
    let count = ZoneRowFault::Blocks {
        state: ZoneState::ImplicitlyOpened,
        written: 6,
        capacity: 6,
    };
    let block = HeaderFault::Numbers(GeometryRefusal::BlockSize(513));
    let zone_count = HeaderFault::VersionZones {
        version: Version::One,
        zones: 1025,
    };
    let cases = [
        (changed(&[(0, 0), (8, 1)]), LoadFault::Magic),
        (changed(&[(7, 0x33)]), LoadFault::Magic),
        (changed(&[(8, 1), (64, 5)]), LoadFault::Header(block)),
        (
            changed(&[(7, b'1'), (32, 1)]),
            LoadFault::Header(HeaderFault::Reserved(Version::One)),
        ),
        (
            changed(&[(7, b'1'), (12, 1), (13, 4)]),
            LoadFault::Header(zone_count),
        ),
        (
            changed(&[(72, 5)]),
            LoadFault::ZoneRow {
                zone: 1,
                fault: ZoneRowFault::State(5),
            },
        ),
        (
            changed(&[(64, 2), (68, 6)]),
            LoadFault::ZoneRow {
                zone: 0,
                fault: count,
            },
        ),
        (changed(&[(32, 1), (64, 3), (72, 3), (80, 3)]), total),
        (changed(&[(64, 3), (72, 3), (80, 3)]), TOO_MANY),
    ];
    for (text, fault) in cases {
        check_fault(&rt, rt.alloc(), &text, Some(fault));
    }
    Ok(())
}

#[test]
fn there_are_large_blocks_and_many_zones(rt: HostRuntime) {
    let limits = Limits {
        open_limit: 1,
        active_limit: 1,
    };
    assert!(rt; Geometry::new(8192, 4096, 8, 8, limits).is_ok());
    let too_large = GeometryRefusal::TooLarge {
        zones: 4096,
        capacity: 9,
        block: 8192,
    };
    for (block, zones, size, refusal) in [
        (8192, 4096, 9, too_large),
        (32768, 4096, 8, GeometryRefusal::BlockSize(32768)),
        (8192, 4097, 8, GeometryRefusal::ZoneCount(4097)),
    ] {
        let refused = Geometry::new(block, zones, size, size, limits).err();
        assert_eq!(rt; refused, Some(refusal));
    }
}

/// A source that gives a byte at a time, and fails after some calls.
#[derive(Drop)]
struct Slow<'a> {
    rest: &'a [u8],
    calls: u64,
    failures: u64,
}

impl Source for Slow<'_> {
    ghost tells = { ⊥ };

    ghost rest = { λ s. s.rest.now };

    ghost failures = { λ s. s.failures };

    fn read(&mut self, to: &mut [u8]) -> Result<usize, StreamFault> {
        if self.calls == 0 {
            self.failures += 1;
            return Err(StreamFault);
        }
        self.calls -= 1;
        let Some((first, rest)) = self.rest.split_first() else {
            return Ok(0);
        };
        let Some(byte) = to.first_mut() else {
            return Ok(0);
        };
        *byte = *first;
        self.rest = rest;
        Ok(1)
    }

    fn skip(&mut self, most: u64) -> Result<u64, StreamFault> {
        let mut byte = [0; 1];
        if most == 0 {
            return Ok(0);
        }
        Ok(self.read(&mut byte)? as u64)
    }

    fn failures(&self) -> u64 {
        self.failures
    }
}

#[test]
fn a_slow_source_is_read_to_its_end(rt: HostRuntime) -> Result<(), Fail> {
    let text = written(rt.alloc(), b'2', 1)?;
    for calls in 0..=609 {
        let mut source = Slow {
            rest: &text,
            calls,
            failures: 0,
        };
        match Image::load(rt.alloc(), &mut source) {
            Ok(_) => assert_eq!(rt; calls, 609),
            Err(fault) => assert_eq!(rt; fault, LoadFault::Stream),
        }
    }
    Ok(())
}

#[test]
fn zones_are_told_without_their_blocks(rt: HostRuntime) -> Result<(), Fail> {
    let text = written(rt.alloc(), b'2', 1)?;
    let mut source = text.as_slice();
    let table = ZoneTable::load(rt.alloc(), &mut source)?;
    let zone = table.zones.as_slice().get(1);
    assert_eq!(rt; table.geometry, Geometry::new(512, 4, 8, 6, LIMITS)?);
    assert_eq!(rt; table.zones.len(), 4);
    assert_eq!(rt; zone.map(|zone| zone.written()), Some(1));
    assert_eq!(rt; table.counts().opened, 1);
    Ok(())
}
