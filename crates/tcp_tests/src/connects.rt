//! Connects of Linux, and what completes them.

use std::test::*;
use tcp_connection::Outcome;
use tcp_target::{Associations, ConnectRequest, Connected, Role};

/// The name of the target.
const NQN: &[u8] = b"nqn.2014-08.org.nvmexpress:uuid:1";

/// The entry of a Connect of Linux to the admin queue: SQSIZE 31, KATO 5000 ms.
const ENTRY: [u8; 64] = [
    0x7F, 0x40, 0, 0, 0x01, 0, 0, 0, 0, 0, 0, 0, 0, 0, 0, 0, 0, 0, 0, 0, 0, 0, 0, 0, 0, 0, 0, 0, 0,
    0, 0, 0, 0, 4, 0, 0, 0, 0, 0, 0x01, 0, 0, 0, 0, 31, 0, 0, 0, 0x88, 0x13, 0, 0, 0, 0, 0, 0, 0,
    0, 0, 0, 0, 0, 0, 0,
];

/// Its data: any controller, the target's name, and a host whose identifier begins with this byte.
fn data(host: u8) -> [u8; 1024] {
    let mut bytes = [0; 1024];
    bytes[0] = host;
    bytes[16] = 0xFF;
    bytes[17] = 0xFF;
    bytes[256..256 + 33].copy_from_slice(NQN);
    bytes[512..512 + 33].copy_from_slice(NQN);
    bytes
}

/// The data of a Connect to an I/O queue of a controller.
fn io_data(host: u8, controller: u8) -> [u8; 1024] {
    let mut bytes = data(host);
    bytes[16] = controller;
    bytes[17] = 0;
    bytes
}

/// The entry with a byte changed.
fn entry_with(place: usize, byte: u8) -> [u8; 64] {
    let mut entry = ENTRY;
    if let Some(changed) = entry.get_mut(place) {
        *changed = byte;
    }
    entry
}

/// The status, type and code, and Dword 0 of what completes the Connect.
fn told(answer: Result<Connected, Outcome>) -> (u8, u8, u32) {
    let outcome = match answer {
        Ok(connected) => connected.outcome(),
        Err(outcome) => outcome,
    };
    (
        outcome.status.kind.number(),
        outcome.status.code,
        outcome.dw0,
    )
}

/// Connects on a connection with this number.
fn connect(
    associations: &mut Associations,
    number: usize,
    entry: &[u8; 64],
    bytes: &[u8],
) -> (u8, u8, u32) {
    if number < 40 {
        told(associations.connect(number, ConnectRequest::read(entry), bytes, NQN))
    } else {
        (0, 0, 0)
    }
}

#[test]
fn queues_are_connected(rt: HostRuntime) {
    let mut associations = Associations::new();
    assert_eq!(rt; connect(&mut associations, 0, &ENTRY, &data(7)), (0, 0, 1));
    assert_eq!(rt; associations.role(0), Role::Admin { controller: 1 });
    let io = entry_with(42, 3);
    let mine = io_data(7, 1);
    assert_eq!(rt; connect(&mut associations, 1, &io, &mine), (1, 0x82, 42));
    associations.set_ready(1, true);
    assert_eq!(rt; connect(&mut associations, 1, &io, &mine), (0, 0, 1));
    assert!(rt; associations.is_live(1));
    associations.leave(0);
    assert!(rt; !associations.is_live(1));
    assert_eq!(rt; associations.role(1), Role::Ended);
}
