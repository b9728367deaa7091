//! A host that connects, as Linux does, and what it is answered.

ghost use Rattle.std.specs.Prelude.{◌≡◌, ◌<◌};

use std::alloc::Global;
use std::process::Abort;
use std::test::*;
use tcp_admin::{NamespaceFormat, QualifiedName, Subsystem};
use tcp_connection::Outcome;
use tcp_target::Target;
use zone_state::Status;

/// The name of the target.
const NQN: &[u8] = b"nqn.2014-08.org.nvmexpress:uuid:1";

/// A target.
fn target(alloc: Global) -> Result<Target, Fail> {
    let subsystem = Subsystem {
        nqn: QualifiedName::new(alloc, NQN)?,
        serial_number: [0x31; 20],
        model: [0x32; 40],
        firmware: [0x33; 8],
        nguid: [1; 16],
    };
    let format = NamespaceFormat {
        blocks: 64,
        block_size_log2: 12,
        zone_blocks: 16,
        active_limit: 2,
        open_limit: 2,
    };
    Ok(Target::new(alloc, subsystem, format)?)
}

/// An entry with an opcode and the type of its SGL, which a capsule has no data for.
fn entry(opcode: u8, kind: u8, length: u8) -> [u8; 64] {
    let mut entry = [0; 64];
    entry[0] = opcode;
    entry[1] = 0x40;
    entry[32] = length;
    entry[39] = kind;
    entry
}

/// The entry of a Property Set of CC.
fn set_cc(cc: u32) -> [u8; 64] {
    let mut entry = entry(0x7F, 0x5A, 0);
    entry[44] = 0x14;
    let [first, second, third, fourth] = cc.to_le_bytes();
    entry[48] = first;
    entry[49] = second;
    entry[50] = third;
    entry[51] = fourth;
    entry
}

/// The entry of a Connect to a queue, with KATO 5000 ms.
fn connect(queue: u8) -> [u8; 64] {
    let mut entry = entry(0x7F, 0x01, 0);
    entry[4] = 1;
    entry[33] = 4;
    entry[42] = queue;
    entry[44] = 31;
    entry[48] = 0x88;
    entry[49] = 0x13;
    entry
}

/// Its data, of the admin queue or of an I/O queue of controller 1.
fn connect_data(queue: u8) -> [u8; 1024] {
    let mut bytes = [0; 1024];
    if queue == 0 {
        bytes[16] = 0xFF;
        bytes[17] = 0xFF;
    } else {
        bytes[16] = 1;
    }
    bytes[256..289].copy_from_slice(NQN);
    bytes
}

/// Sends bytes on a connection; commands that aren't the device's are executed.
fn send(target: &mut Target, number: usize, bytes: &[u8])
    requires { number < 40 }
{
    let mut rest = bytes;
    for _ in 0..=bytes.len() {
        let count = target.receive(number, rest);
        rest = &rest[count..];
        target.serve(number);
    }
}

/// Sends a capsule.
fn command(target: &mut Target, number: usize, entry: &[u8; 64])
    requires { number < 40 }
{
    send(target, number, &[4, 0, 72, 0, 72, 0, 0, 0]);
    send(target, number, entry);
}

/// Forgets all that is to be sent.
fn forget(target: &mut Target, number: usize)
    requires { number < 40 }
{
    let count = target.connection(number).unsent().len();
    target.sent(number, count);
}

/// The status and Dword 0 of the completion that stands last in what is to be sent.
fn completion(target: &Target, number: usize) -> Option<(u16, u32)>
    requires { number < 40 }
{
    let unsent = target.connection(number).unsent();
    let (_, last) = unsent.split_last_chunk::<16>()?;
    let status = u16::from_le_bytes([last[14], last[15]]);
    let dw0 = u32::from_le_bytes([last[0], last[1], last[2], last[3]]);
    Some((status, dw0))
}

/// Initializes a connection, and connects it to a queue.
fn begin(target: &mut Target, queue: u8) -> Option<usize> {
    let number = target.open()?;
    let mut initialize = [0; 128];
    initialize[2] = 128;
    initialize[4] = 128;
    send(target, number, &initialize);
    forget(target, number);
    send(target, number, &[4, 0, 72, 72, 0x48, 4, 0, 0]);
    send(target, number, &connect(queue));
    send(target, number, &connect_data(queue));
    Some(number)
}

/// A target with an admin queue on connection 0 and, of a controller that is ready, an I/O queue on connection 1.
fn connected(rt: &impl Abort, alloc: Global) -> Result<Target, Fail> {
    let mut target = target(alloc)?;
    assert_eq!(rt; begin(&mut target, 0), Some(0));
    assert_eq!(rt; completion(&target, 0), Some((0, 1)));
    command(&mut target, 0, &set_cc(0x0046_0061));
    assert_eq!(rt; completion(&target, 0), Some((0, 0)));
    assert_eq!(rt; begin(&mut target, 1), Some(1));
    assert_eq!(rt; completion(&target, 1), Some((0, 1)));
    forget(&mut target, 1);
    Ok(target)
}

/// A Read of 8 bytes goes to the device, which gives as many as these.
fn read(target: &mut Target, bytes: &[u8]) -> bool {
    command(target, 1, &entry(0x02, 0x5A, 8));
    let Some(entry) = target.given_to_device(1) else {
        return false;
    };
    target.hand_over(1);
    let outcome = Outcome {
        status: Status::SUCCESS,
        dw0: 0,
        dw1: 0,
    };
    if bytes.len() > 8 || !target.connection(1).has_room(bytes.len()) {
        return false;
    }
    target.execute(1, &entry, outcome, bytes);
    true
}

#[test]
fn reads_go_to_the_device(rt: HostRuntime) -> Result<(), Fail> {
    let mut target = connected(&rt, rt.alloc())?;
    assert!(rt; read(&mut target, &[9; 8]));
    assert_eq!(rt; target.connection(1).unsent().len(), 24 + 8 + 24);
    assert_eq!(rt; completion(&target, 1), Some((0, 0)));
    forget(&mut target, 1);
    assert!(rt; read(&mut target, &[9; 7]));
    assert_eq!(rt; target.connection(1).unsent().len(), 24);
    assert_eq!(rt; completion(&target, 1), Some((0x801E, 0)));
    Ok(())
}
