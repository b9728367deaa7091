//! What Linux's driver reads of a target before it has a disk. The bytes are worked out by hand from the tables of the standards.

use byteorder::{ByteOrder, LittleEndian};
use std::alloc::Global;
use std::process::Abort;
use std::test::*;
use tcp_admin::{Answer, Controller, NamespaceFormat, QualifiedName, Subsystem};
use tcp_connection::Outcome;
use zone_state::Status;

/// An entry of Dword 1, Dwords 10 to 15, and so many bytes of data, of a transport's SGL.
fn entry(opcode: u8, dword1: u32, dwords: [u32; 6], size: u32) -> [u8; 64] {
    let [ten, eleven, twelve, thirteen, fourteen, fifteen] = dwords;
    let mut entry = [0; 64];
    entry[0] = opcode;
    entry[1] = 0x40;
    LittleEndian::write_u32(&mut entry[4..], dword1);
    LittleEndian::write_u32(&mut entry[32..], size);
    entry[39] = 0x5A;
    LittleEndian::write_u32(&mut entry[40..], ten);
    LittleEndian::write_u32(&mut entry[44..], eleven);
    LittleEndian::write_u32(&mut entry[48..], twelve);
    LittleEndian::write_u32(&mut entry[52..], thirteen);
    LittleEndian::write_u32(&mut entry[56..], fourteen);
    LittleEndian::write_u32(&mut entry[60..], fifteen);
    entry
}

/// The target, with a namespace of 48 zones of 2048 blocks of 4096 bytes.
fn subsystem(alloc: Global) -> Result<Subsystem, Fail> {
    Ok(Subsystem {
        nqn: QualifiedName::new(alloc, b"nqn.2026-11.test:zoned")?,
        serial_number: *b"0123456789ABCDEF    ",
        model: *b"A zoned device with programs            ",
        firmware: *b"1.0     ",
        nguid: *b"an NGUID is here",
    })
}

const FORMAT: NamespaceFormat = NamespaceFormat {
    blocks: 98_304,
    block_size_log2: 12,
    zone_blocks: 2048,
    active_limit: 14,
    open_limit: 7,
};

/// What a command is answered, and the data that is added.
#[derive(Drop)]
struct Answered {
    answer: Answer,
    bytes: Vec<u8>,
}

fn answer_of(
    alloc: Global,
    controller: &mut Controller,
    entry: [u8; 64],
) -> Result<Answered, Fail> {
    let mut bytes = Vec::with_capacity(alloc, 4096)?;
    let answer = controller.admin(&entry, &subsystem(alloc)?, &FORMAT, &mut bytes);
    Ok(Answered { answer, bytes })
}

/// The byte at a place of a page that has zeros but for these bytes, each row with the place of its first.
fn byte_at(rows: &[(usize, &[u8])], place: usize) -> u8 {
    for (at, bytes) in rows {
        if let Some(index) = place.checked_sub(*at) {
            if let Some(byte) = bytes.get(index) {
                return *byte;
            }
        }
    }
    0
}

const CONTROLLER: &[(usize, &[u8])] = &[
    (4, b"0123456789ABCDEF    "),
    (24, b"A zoned device with programs            "),
    (64, b"1.0     "),
    (76, &[2, 5]),
    (78, &[3, 0]),
    (80, &[0, 4, 1, 0]),
    (111, &[1]),
    (258, &[3, 3, 3, 2]),
    (320, &[10]),
    (512, &[0x66, 0x44, 128, 0, 1]),
    (536, &[1, 0, 0x10]),
    (768, b"nqn.2026-11.test:zoned"),
    (1792, &[4, 2, 0, 0, 1]),
    (1803, &[1]),
];

/// 98304 blocks of 2 ^ 12 bytes.
const NAMESPACE: &[(usize, &[u8])] = &[
    (0, &[0, 0x80, 1]),
    (8, &[0, 0x80, 1]),
    (16, &[0, 0x80, 1]),
    (30, &[1]),
    (104, b"an NGUID is here"),
    (130, &[12]),
];

const DESCRIPTORS: &[(usize, &[u8])] = &[
    (0, &[2, 16]),
    (4, b"an NGUID is here"),
    (20, &[4, 1]),
    (24, &[2]),
];

/// 14 active and 7 open zones, of 2048 blocks.
const ZONED: &[(usize, &[u8])] = &[(4, &[13]), (8, &[6]), (2816, &[0, 8])];

/// Temperature 012Ch kelvins.
const HEALTH: &[(usize, &[u8])] = &[(1, &[0x2C, 0x01])];

const FIRMWARE: &[(usize, &[u8])] = &[(0, &[1]), (8, b"1.0     ")];

/// Opcodes 02h, 06h, 08h, 09h, 0Ah, 0Ch and 18h of admin commands, and 01h, 02h, 79h, 7Ah, 7Dh, C0h, C1h and C2h of I/O commands.
const EFFECTS: &[(usize, &[u8])] = &[
    (0x08, &[1]),
    (0x18, &[1]),
    (0x20, &[1, 0, 0, 0, 1, 0, 0, 0, 1]),
    (0x30, &[1]),
    (0x60, &[1]),
    (0x404, &[3, 0, 0, 0, 1]),
    (0x5E4, &[3, 0, 0, 0, 1]),
    (0x5F4, &[3]),
    (0x700, &[3, 0, 0, 0, 1, 0, 0, 0, 1]),
];

/// The opcode, NSID, Dwords 10 and 14, the size and the page of Identify (06h) and Get Log Page (02h). It is all zeros but for these.
const PAGES: &[(u8, u32, u32, u32, u32, &[(usize, &[u8])])] = &[
    (0x06, 0, 0x01, 0, 4096, CONTROLLER),
    (0x06, 1, 0x00, 0, 4096, NAMESPACE),
    (0x06, 1, 0x03, 0, 4096, DESCRIPTORS),
    (0x06, 0, 0x02, 0, 4096, &[(0, &[1])]),
    (0x06, 0, 0x06, 0, 4096, &[]),
    (0x02, 0, 0x000F_0001, 0, 64, &[]),
    (0x02, 0, 0x007F_0002, 0, 512, HEALTH),
    (0x02, 0, 0x007F_0003, 0, 512, FIRMWARE),
    (0x02, 0, 0x03FF_0005, 0x0200_0000, 4096, EFFECTS),
];

/// Success, with Dword 0.
fn success(dw0: u32) -> Answer {
    let outcome = Outcome {
        status: Status::SUCCESS,
        dw0,
        dw1: 0,
    };
    Answer::Completed { outcome }
}

/// Asserts that a command succeeds and gives so many bytes, which are zeros but for these.
fn assert_page(rt: &impl Abort, answered: &Answered, size: u32, rows: &[(usize, &[u8])]) {
    assert_eq!(rt; answered.answer, success(0));
    assert_eq!(rt; answered.bytes.len(), size as usize);
    for (place, byte) in answered.bytes.as_slice().iter().enumerate() {
        assert_eq!(rt; *byte, byte_at(rows, place), "at {place}");
    }
}

#[test]
fn pages_are_given(rt: HostRuntime) -> Result<(), Fail> {
    for (opcode, nsid, ten, fourteen, size, rows) in PAGES {
        let mut controller = Controller::new(3, 0);
        let entry = entry(*opcode, *nsid, [*ten, 0, 0, 0, *fourteen, 0], *size);
        assert_page(
            &rt,
            &answer_of(rt.alloc(), &mut controller, entry)?,
            *size,
            rows,
        );
    }
    // Identify for zoned namespaces, which Dword 11 asks for: of the namespace and of the controller.
    for (nsid, cns, rows) in [(1, 0x05, ZONED), (0, 0x06, &[(0, &[5])])] {
        let mut controller = Controller::new(3, 0);
        let entry = entry(0x06, nsid, [cns, 0x0200_0000, 0, 0, 0, 0], 4096);
        assert_page(
            &rt,
            &answer_of(rt.alloc(), &mut controller, entry)?,
            4096,
            rows,
        );
    }
    Ok(())
}

/// A Property Get of 4 bytes.
fn get(controller: &Controller, offset: u32) -> Result<u64, Status> {
    controller.property_get(&entry(0x7F, 0x04, [0, offset, 0, 0, 0, 0], 0))
}

/// A Property Set of CC.
fn set(controller: &mut Controller, cc: u32) -> Result<(), Status> {
    controller.property_set(&entry(0x7F, 0x00, [0, 0x14, cc, 0, 0, 0], 0))
}

#[test]
fn linux_enables_and_shuts_down(rt: HostRuntime) -> Result<(), Fail> {
    let mut controller = Controller::new(1, 5000);
    let capabilities = controller.property_get(&entry(0x7F, 0x04, [1, 0, 0, 0, 0, 0], 0));
    assert_eq!(rt; capabilities, Ok(0x0000_0820_1401_007F));
    assert_eq!(rt; set(&mut controller, 0x0046_0060), Ok(()));
    assert_eq!(rt; get(&controller, 0x14), Ok(0x0046_0060));
    assert_eq!(rt; get(&controller, 0x1C), Ok(0));
    assert!(rt; !controller.is_ready());
    assert_eq!(rt; set(&mut controller, 0x0046_0061), Ok(()));
    assert_eq!(rt; get(&controller, 0x1C), Ok(1));
    assert_eq!(rt; get(&controller, 0x08), Ok(0x0001_0400));
    assert!(rt; controller.is_ready());
    assert_eq!(rt; set(&mut controller, 0x0046_4061), Ok(()));
    assert_eq!(rt; get(&controller, 0x1C), Ok(9));
    assert!(rt; !controller.is_ready());
    Ok(())
}

#[test]
fn linux_asks_for_queues(rt: HostRuntime) -> Result<(), Fail> {
    let mut controller = Controller::new(1, 0);
    let queues = entry(0x09, 0, [0x07, 0x0001_0001, 0, 0, 0, 0], 0);
    let answered = answer_of(rt.alloc(), &mut controller, queues)?;
    assert_eq!(rt; answered.answer, success(0x0007_0007));
    Ok(())
}
