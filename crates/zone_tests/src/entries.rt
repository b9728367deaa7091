//! Entries, completions and reports, whose bytes were worked out by hand from the tables of the standards and of the device.

ghost use Rattle.std.specs.Prelude.{◌≤◌};
ghost use Rattle.nvme_entry.specs.Encoding.{program_length};

use nvme_entry::{
    BlockCount, Command, Completion, DwordCount, Entry, LoadCommand, MOST_TRANSFER, ProgramSlot,
    Report, RunCommand, StandardCommand, Status, ZoneFilter,
};
use std::process::Abort;
use std::test::Fail;
use zone_state::{Action, Zone, ZoneState};

/// The 64 bytes of an entry with these dwords; the others are 0.
fn entry_of(dwords: &[(usize, u32)]) -> [u8; 64] {
    let mut bytes = [0; 64];
    for (dword, value) in dwords {
        let at = 4 * (*dword % 16);
        bytes[at..at + 4].copy_from_slice(&value.to_le_bytes());
    }
    bytes
}

/// Asks that the command is the one of the entry with these dwords, whose identifier is BEEFh.
fn check(rt: &impl Abort, dwords: &[(usize, u32)], command: &Command)
    requires { program_length command.now ≤ MOST_TRANSFER }
{
    assert_eq!(rt; Entry::decode(&entry_of(dwords)), Ok(*command));
    let made = Entry::encode(*command, 0xBEEF);
    assert_eq!(rt; made, entry_of(dwords));
}

#[test]
fn commands_of_the_standards(rt: HostRuntime) -> Result<(), Fail> {
    let write = StandardCommand::Write {
        lba: 0x0000_0002_0000_0008,
        blocks: BlockCount::from_zero_based(0x0102),
    };
    let dwords = [(0, 0xBEEF_0001), (1, 1), (10, 8), (11, 2), (12, 0x0102)];
    check(&rt, &dwords, &Command::Standard(write));
    let reset = StandardCommand::Send {
        lba: 9,
        action: Action::Reset,
        select_all: true,
    };
    let dwords = [(0, 0xBEEF_0079), (1, 1), (10, 9), (13, 0x0104)];
    check(&rt, &dwords, &Command::Standard(reset));
    let report = StandardCommand::Receive {
        lba: 9,
        dwords: DwordCount::from_zero_based(32767).ok_or("the most dwords")?,
        filter: ZoneFilter::Offline,
        partial: true,
    };
    let partial = 0x0001_0700;
    let dwords = [
        (0, 0xBEEF_007A),
        (1, 1),
        (10, 9),
        (12, 32767),
        (13, partial),
    ];
    check(&rt, &dwords, &Command::Standard(report));
    Ok(())
}

#[test]
fn commands_for_programs(rt: HostRuntime) -> Result<(), Fail> {
    let slot = ProgramSlot::new(7).ok_or("the last slot")?;
    let run = RunCommand {
        lba: 0x0000_0001_0000_0003,
        blocks: BlockCount::from_zero_based(0xFFFF),
        slot,
        argument: 0xFFFF_FFFE,
        destination: 0x0000_0002_0000_0010,
    };
    let dwords = [
        (0, 0xBEEF_00C0),
        (1, 1),
        (10, 3),
        (11, 1),
        (12, 0x0007_FFFF),
        (13, 0xFFFF_FFFE),
        (14, 16),
        (15, 2),
    ];
    check(&rt, &dwords, &Command::Run(run));
    let load = LoadCommand {
        slot,
        limit: 66,
        bytes: 131_072,
    };
    let dwords = [(0, 0xBEEF_00C1), (1, 1), (10, 7), (11, 66), (12, 131_072)];
    check(&rt, &dwords, &Command::Load(load));
    let dwords = [(0, 0xBEEF_00C2), (1, 1), (10, 7)];
    check(&rt, &dwords, &Command::Result(slot));
    Ok(())
}

#[test]
fn entries_are_refused_in_order(rt: HostRuntime) {
    let field = Status::INVALID_FIELD_IN_COMMAND;
    let cases = [
        // No such opcode; flags; another namespace, and none.
        (entry_of(&[(0, 0x0103)]), Status::INVALID_COMMAND_OPCODE),
        (entry_of(&[(0, 0x0102), (1, 2)]), field),
        (entry_of(&[(0, 0x02)]), Status::INVALID_NAMESPACE_OR_FORMAT),
        // An action that there isn't, and a report of 131076 bytes and of the most that its dword can say.
        (entry_of(&[(0, 0x79), (1, 1), (10, 99), (13, 6)]), field),
        (entry_of(&[(0, 0x7A), (1, 1), (12, 32768)]), field),
        (entry_of(&[(0, 0x7A), (1, 1), (12, 0xFFFF_FFFF)]), field),
        // A ninth slot.
        (entry_of(&[(0, 0xC2), (1, 1), (10, 8)]), field),
    ];
    for (entry, status) in cases {
        assert_eq!(rt; Entry::decode(&entry), Err(status));
    }
}

#[test]
fn completions_have_their_bytes(rt: HostRuntime) {
    let held = Completion {
        dw0: 0x0403_0201,
        dw1: 0x0807_0605,
        queue: 0x1211,
        cid: 0x1413,
        status: Status::ZONE_HELD,
    };
    let bytes = [
        1, 2, 3, 4, 5, 6, 7, 8, 0, 0, 0x11, 0x12, 0x13, 0x14, 0x80, 0x0F,
    ];
    assert_eq!(rt; held.encode(), bytes);
    assert_eq!(rt; Completion::decode(&bytes), Some(held));
}

/// Bytes that are 0 but for those at these places.
fn zeros_but<const N: usize>(set: &[(usize, u8)]) -> [u8; N] {
    let mut bytes = [0; N];
    for (at, byte) in set {
        if *at < N {
            bytes[*at] = *byte;
        }
    }
    bytes
}

/// What a report of zones, of which zone 1 is implicitly opened and the others are empty, writes into so many bytes.
fn given<const N: usize>(first: u32, filter: ZoneFilter, partial: bool) -> Result<[u8; N], Fail> {
    let empty = Zone::new(ZoneState::Empty, 0, 6).ok_or("an empty zone")?;
    let opened = Zone::new(ZoneState::ImplicitlyOpened, 1, 6).ok_or("an open zone")?;
    let zones = [empty, opened, empty, empty];
    let report = Report {
        zones: &zones,
        first,
        size: 8,
        filter,
        partial,
    };
    let mut output = [0xFF; N];
    report.write(&mut output);
    Ok(output)
}

#[test]
fn reports_have_their_bytes(rt: HostRuntime) -> Result<(), Fail> {
    let first = [(0, 1), (64, 0x02), (65, 0x10), (72, 6)];
    assert_eq!(rt; given::<160>(0, ZoneFilter::All, true)?, zeros_but(&first));
    let first = [(0, 4), (64, 0x02), (65, 0x10), (72, 6)];
    assert_eq!(rt; given::<160>(0, ZoneFilter::All, false)?, zeros_but(&first));
    // Too short for the header.
    assert_eq!(rt; given::<4>(0, ZoneFilter::All, true)?, [0, 0, 0, 0]);
    assert_eq!(rt; given::<4>(0, ZoneFilter::All, false)?, [4, 0, 0, 0]);
    // The empty zones from zone 1 on.
    let last_two = zeros_but(&[
        (0, 2),
        (64, 0x02),
        (65, 0x10),
        (72, 6),
        (80, 0x10),
        (88, 0x10),
        (128, 0x02),
        (129, 0x10),
        (136, 6),
        (144, 0x18),
        (152, 0x18),
    ]);
    assert_eq!(rt; given::<256>(1, ZoneFilter::Empty, false)?, last_two);
    Ok(())
}
