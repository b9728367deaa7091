//! Worked commands and faults.

mod resources;
mod script;
mod zone_states;

use script::*;
use std::test::Fail;
use zns_commands::{FaultState, StandardCommand, Status};
use zone_state::Action;
use zone_state::ZoneState::{Closed, Empty, ExplicitlyOpened, Full, ImplicitlyOpened, Offline};

#[test]
fn blocks_are_written_and_read(rt: HostRuntime) -> Result<(), Fail> {
    let steps = [
        // An append that fills a zone.
        append(16, 6, OK),
        Step::Leaves([Empty, Empty, Full, Empty]),
        append(16, 1, Status::ZONE_IS_FULL),
        read(20, 4, OK),
        Step::Gives(2, 2),
        read(23, 2, Status::ZONE_BOUNDARY_ERROR),
        // Writes into a full zone: past its capacity, and into the next zone.
        write(22, 1, Status::ZONE_IS_FULL),
        write(23, 2, Status::ZONE_BOUNDARY_ERROR),
        // An append past the capacity of a zone that isn't full, and a write that isn't at the write pointer.
        append(0, 5, OK),
        append(0, 2, Status::ZONE_BOUNDARY_ERROR),
        write(5, 1, OK),
        write(14, 1, Status::ZONE_INVALID_WRITE),
        Step::Leaves([Full, Empty, Full, Empty]),
    ];
    play(&rt, rt.alloc(), &steps)
}

#[test]
fn zones_make_room(rt: HostRuntime) -> Result<(), Fail> {
    let open_all = StandardCommand::Send {
        lba: 99,
        action: Action::Open,
        select_all: true,
    };
    let steps = [
        // The lowest implicitly opened zone gives way to one that is opened.
        append(16, 1, OK),
        send(16, Action::Close, OK),
        append(0, 1, OK),
        append(8, 1, OK),
        send(16, Action::Open, OK),
        Step::Leaves([Closed, ImplicitlyOpened, ExplicitlyOpened, Empty]),
        append(24, 1, Status::TOO_MANY_ACTIVE_ZONES),
        // An explicitly opened one does not.
        Step::Begin,
        append(16, 1, OK),
        send(16, Action::Close, OK),
        send(0, Action::Open, OK),
        send(8, Action::Open, OK),
        send(16, Action::Open, Status::TOO_MANY_OPEN_ZONES),
        Step::Leaves([ExplicitlyOpened, ExplicitlyOpened, Closed, Empty]),
        // None gives way to all closed ones.
        Step::Begin,
        append(8, 1, OK),
        append(16, 1, OK),
        send(8, Action::Close, OK),
        send(16, Action::Close, OK),
        append(0, 1, OK),
        Step::Execute(open_all, 0, Status::TOO_MANY_OPEN_ZONES),
        Step::Leaves([ImplicitlyOpened, Closed, Closed, Empty]),
    ];
    play(&rt, rt.alloc(), &steps)
}

#[test]
fn faults_take_zones(rt: HostRuntime) -> Result<(), Fail> {
    let steps = [
        // A zone that can be read alone, and then not even that.
        append(0, 2, OK),
        Step::Fault(0, FaultState::ReadOnly, true),
        read(0, 3, OK),
        Step::Gives(2, 1),
        append(0, 1, Status::ZONE_IS_READ_ONLY),
        send(0, Action::Reset, Status::INVALID_ZONE_STATE_TRANSITION),
        send(0, Action::Offline, OK),
        read(0, 1, Status::ZONE_IS_OFFLINE),
        Step::Fault(0, FaultState::ReadOnly, false),
        Step::Fault(4, FaultState::ReadOnly, false),
        Step::Leaves([Offline, Empty, Empty, Empty]),
    ];
    play(&rt, rt.alloc(), &steps)
}
