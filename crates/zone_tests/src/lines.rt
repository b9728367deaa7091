//! Which lines of a command file are events, and what is said of the others.

mod excerpt;

use event_text::{ParseFault, parse};
use std::alloc::Global;
use std::process::Abort;
use std::test::Fail;
use test_inputs::texts::repeated;

/// Command files, the events that they tell, and the lines of these.
const EVENTS: &[(&str, &str)] = &[
    (
        "turn 0\r\nturn 0 ; x",
        "[Turn { run: 0 }, Turn { run: 0 }] [1, 2]",
    ),
    ("\t turn\t255 \n", "[Turn { run: 255 }] [1]"),
    ("; x\nturn 3;turn 4\r\n \r\n", "[Turn { run: 3 }] [2]"),
    (
        "fault 0 readonly\n\n;\nfault 4294967295 offline",
        "[Fault { zone: 0, state: ReadOnly }, Fault { zone: 4294967295, state: Offline }] [1, 4]",
    ),
];

/// Command files, and what is said of the lowest line that is refused.
const REFUSED: &[(&str, &str)] = &[
    (
        "; x\n\nturn 0\nturn 256\nturn 257\n",
        "4: \"256\": no run; a number from 0 to 255 is expected",
    ),
    (
        "turn\r0\n",
        "1: \"turn\\r0\": no such event; submit, turn or fault is expected",
    ),
    (
        "turn 0 ; \u{e9}",
        "1: \"\\xc3\\xa9\": only ASCII text is expected",
    ),
    (
        "turn 1 2",
        "1: \"turn 1 2\": turn is expected with a run alone",
    ),
    (
        "fault 0",
        "1: \"fault 0\": fault is expected with a zone and a state",
    ),
    (
        "fault 4294967296 offline",
        "1: \"4294967296\": no zone; a number from 0 to 4294967295 is expected",
    ),
    (
        "fault 0 lost",
        "1: \"lost\": no state of a fault; readonly or offline is expected",
    ),
    (
        "submit 65535 |0*128|\nturn 256",
        "2: \"256\": no run; a number from 0 to 255 is expected",
    ),
    (
        "submit 1 |0*128| aa bb\nturn 256",
        "1: \"submit 1 0000000000000000000000000000000\"..: submit is expected with a queue, an entry and, where there is any, data",
    ),
    (
        "submit 65536 00",
        "1: \"65536\": no queue; a number from 0 to 65535 is expected",
    ),
    (
        "submit 1 |0*128|00\nturn 256",
        "1: an entry of 130 characters; 128 hexadecimal digits are expected",
    ),
    (
        "submit 1 |0*100|g|0*27",
        "1: character 101 of the entry: 'g'; a hexadecimal digit is expected",
    ),
    (
        "submit 1 |0*128| abc\nturn 256",
        "1: data of 3 characters; two hexadecimal digits for each byte are expected",
    ),
    (
        "submit 1 |0*128| 0g\nturn 256",
        "1: character 2 of the data: 'g'; a hexadecimal digit is expected",
    ),
];

/// The events of a command file as Rust shows them, and their lines, or the line that is refused and what is said of it.
fn told(alloc: Global, file: &str) -> Result<String, Fail> {
    let file = repeated(alloc, file, '|')?;
    let told = match parse(alloc, file.as_bytes()) {
        Ok(told) => format!(in alloc; "{:?} {:?}", told.events, told.lines)?,
        Err(ParseFault::Line { number, fault }) => format!(in alloc; "{number}: {fault}")?,
        Err(ParseFault::Memory) => return Err(Fail::from("no memory")),
    };
    Ok(told)
}

fn check(rt: &impl Abort, alloc: Global, rows: &[(&str, &str)]) -> Result<(), Fail> {
    for (file, expected) in rows {
        assert_eq!(rt; told(alloc, file)?.as_str(), *expected, "{file}");
    }
    Ok(())
}

#[test]
fn lines_of_command_files(rt: HostRuntime) -> Result<(), Fail> {
    check(&rt, rt.alloc(), EVENTS)?;
    check(&rt, rt.alloc(), REFUSED)
}
