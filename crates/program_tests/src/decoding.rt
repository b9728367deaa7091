//! The faults of bytes, and the bytes of a program, both ways.

use crate::slots::{MATCHING, bytes_of};
use ebpf_decode::{DecodeFault, Fault, FaultKind, decode, encode};
use std::alloc::Global;
use std::test::Fail;

/// The bytes' fault; `None` where they decode.
fn fault_of(alloc: Global, bytes: &[u8]) -> Result<Option<Fault>, Fail> {
    match decode(alloc, bytes) {
        Ok(_) => Ok(None),
        Err(DecodeFault::Fault(fault)) => Ok(Some(fault)),
        Err(DecodeFault::Memory) => Err(Fail::from("no memory")),
    }
}

/// A fault of the first slot.
fn at_first(kind: FaultKind) -> Option<Fault> {
    Some(Fault { slot: 0, kind })
}

/// Slots, each with the kind of fault of a program that has it alone.
const FAULTS: &[(u64, FaultKind)] = &[
    (0x070b_0000_0000_0000, FaultKind::Register), // add r11, 0
    (0x0f21_0100_0000_0000, FaultKind::UnusedField), // add r1, r2, with an offset
    (0x3f21_0200_0000_0000, FaultKind::Value), // div r1, r2, with an offset of 2
    (0xdc01_0000_0800_0000, FaultKind::Value), // be8 r1
    (0xbc21_2000_0000_0000, FaultKind::Value), // movw r1, r2, with an offset of 32
    (0x9900_0000_0000_0000, FaultKind::Opcode), // ldxsdw r0, [r0+0]
    (0x8c00_0000_0000_0000, FaultKind::Opcode), // negw r0, with a register
    (0xdf00_0000_0000_0000, FaultKind::Opcode), // a swap of no bits, with a register
    (0xc300_0000_0000_0000, FaultKind::NotInProfile), // an atomic operation on 4 bytes
    (0x1811_0000_0000_0000, FaultKind::NotInProfile), // lddw r1, of a map
    (0x1801_0000_0000_0000, FaultKind::CutWide), // lddw r1, 0, without its second slot
];

#[test]
fn a_lone_slot_with_a_fault(rt: HostRuntime) -> Result<(), Fail> {
    for (slot, kind) in FAULTS {
        assert_eq!(rt; fault_of(rt.alloc(), &slot.to_be_bytes())?, at_first(*kind));
    }
    Ok(())
}

#[test]
fn lengths(rt: HostRuntime) -> Result<(), Fail> {
    let zeros = vec![in rt.alloc(); 0u8; 32776]?;
    assert_eq!(rt; zeros.len(), 32776);
    assert_eq!(rt; fault_of(rt.alloc(), &[])?, at_first(FaultKind::Empty));
    assert_eq!(rt;
        fault_of(rt.alloc(), &zeros[..9])?,
        at_first(FaultKind::Length)
    );
    assert_eq!(rt; fault_of(rt.alloc(), &zeros)?, at_first(FaultKind::TooLong));
    assert_eq!(rt;
        fault_of(rt.alloc(), &zeros[..32768])?,
        at_first(FaultKind::Opcode)
    );
    Ok(())
}

/// How many opcodes decode, aren't in the profile, and are none.
#[test]
fn each_opcode(rt: HostRuntime) -> Result<(), Fail> {
    let mut decoded = 0u16;
    let mut left_out = 0u16;
    let mut unknown = 0u16;
    for opcode in 0..=255u8 {
        let mut bytes = [0; 16];
        bytes[0] = opcode;
        if matches!(opcode, 0xd4 | 0xdc | 0xd7) {
            bytes[4] = 16;
        }
        let length = if opcode == 0x18 { 16 } else { 8 };
        match fault_of(rt.alloc(), &bytes[..length])? {
            None => decoded = decoded.wrapping_add(1),
            Some(fault) => match fault.kind {
                FaultKind::NotInProfile => left_out = left_out.wrapping_add(1),
                FaultKind::Opcode => unknown = unknown.wrapping_add(1),
                _ => return Err(Fail::from("another fault")),
            },
        }
    }
    assert_eq!(rt; (decoded, left_out, unknown), (117, 8, 131));
    Ok(())
}

#[test]
fn a_program_and_its_bytes(rt: HostRuntime) -> Result<(), Fail> {
    let bytes = bytes_of(rt.alloc(), &MATCHING)?;
    let program = decode(rt.alloc(), bytes.as_slice())?;
    assert_eq!(rt; program.instruction_count(), 7);
    assert_eq!(rt; encode(rt.alloc(), &program)?.as_slice(), bytes.as_slice());
    Ok(())
}
