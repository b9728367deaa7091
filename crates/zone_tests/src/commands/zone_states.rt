//! Sentences of statuses, names of states, and a zone that is filled.

use std::test::Fail;
use zone_state::*;

/// What people read for a status of each type, and for two that no device gives.
const SENTENCES: &[(Status, &str)] = &[
    (
        Status::SUCCESS,
        "Successful Completion (type 0h, code 00h): the command is done",
    ),
    (
        Status::ZONE_IS_FULL,
        "Zone Is Full (type 1h, code B9h): a write to a Full zone",
    ),
    (
        Status::ZONE_HELD,
        "Zone Held (type 7h, code C0h; profile): an active run holds the zone against the command",
    ),
    (
        Status {
            kind: StatusType::Generic,
            code: 0x06,
        },
        "unknown status (type 0h, code 06h)",
    ),
    (
        Status {
            kind: StatusType::VendorSpecific,
            code: 0xCB,
        },
        "unknown status (type 7h, code CBh; profile)",
    ),
];

#[test]
fn statuses_have_sentences(rt: HostRuntime) -> Result<(), Fail> {
    for (status, sentence) in SENTENCES {
        let told = status.to_string(rt.alloc())?;
        assert_eq!(rt; told.as_str(), *sentence);
    }
    Ok(())
}

#[test]
fn states_have_the_standards_codes_and_names(rt: HostRuntime) -> Result<(), Fail> {
    let states = [
        (ZoneState::Empty, 0x1, "Empty"),
        (ZoneState::ImplicitlyOpened, 0x2, "Implicitly Opened"),
        (ZoneState::ExplicitlyOpened, 0x3, "Explicitly Opened"),
        (ZoneState::Closed, 0x4, "Closed"),
        (ZoneState::ReadOnly, 0xD, "Read Only"),
        (ZoneState::Full, 0xE, "Full"),
        (ZoneState::Offline, 0xF, "Offline"),
    ];
    for (listed, (state, code, name)) in ZoneState::ALL.iter().zip(states) {
        assert_eq!(rt; *listed, state);
        assert_eq!(rt; state.code(), code);
        assert_eq!(rt; ZoneState::from_code(code), Some(state));
        assert_eq!(rt; state.to_string(rt.alloc())?.as_str(), name);
    }
    assert_eq!(rt; ZoneState::from_code(0x5), None);
    Ok(())
}

#[test]
fn a_zone_is_filled(rt: HostRuntime) -> Result<(), Fail> {
    let mut zone = Zone::new(ZoneState::Closed, 5, 6).ok_or("a closed zone")?;
    assert_eq!(rt; zone.check_write(5, 2), Err(Status::ZONE_BOUNDARY_ERROR));
    assert_eq!(rt; zone.check_write(4, 1), Err(Status::ZONE_INVALID_WRITE));
    assert_eq!(rt; zone.check_write(5, 1), Ok(()));
    zone.note_written(1);
    assert_eq!(rt; zone.state(), ZoneState::Full);
    assert_eq!(rt; zone.written(), zone.capacity());
    assert_eq!(rt; zone.check_write(6, 1), Err(Status::ZONE_IS_FULL));
    Ok(())
}
