//! The line of each slot of an object, as llvm-dwarfdump 14 prints it.

use crate::lines_objects::{LINES_4, LINES_5};
use ebpf_lines::Lines;
use ebpf_object::{Function, Object};
use std::alloc::Global;
use std::process::Abort;
use std::test::Fail;

/// The file and the line of each slot; the second slot of a wide instruction would be that of the first.
const TOLD: &[(&str, u64)] = &[
    ("lines.h", 8),
    ("lines.c", 8),
    ("lines.c", 9),
    ("lines.c", 9),
    ("lines.c", 9),
    ("lines.c", 9),
    ("lines.c", 10),
    ("lines.c", 10),
];

/// The only function of an object.
fn filter(object: &Object<'_>) -> Option<Function> {
    for number in 0..object.symbol_count() {
        if let Some(function) = object.function(number) {
            return Some(function);
        }
    }
    None
}

/// Are these the lines of the object with these digits?
fn compare(rt: &impl Abort, alloc: Global, digits: &str) -> Result<(), Fail> {
    let bytes = hex::decode(alloc, digits)?;
    let object = Object::read(&bytes)?;
    let lines = Lines::read(alloc, &object)?;
    let function = filter(&object).ok_or("no function")?;
    for (slot, (name, number)) in TOLD.iter().enumerate() {
        let row = lines.row(function.section, 8 * slot).ok_or("no line")?;
        let file = lines.file_name(&row).ok_or("no file")?;
        assert_eq!(rt; file, name.as_bytes());
        assert_eq!(rt; row.line, *number);
    }
    assert!(rt; lines.row(function.section, 8 * TOLD.len()).is_none());
    let next = function.section.saturating_add(1);
    assert!(rt; lines.row(next, 0).is_none());
    let row = lines.first_row(function.section, 0).ok_or("no first line")?;
    assert_eq!(rt; row.line, 5);
    Ok(())
}

#[test]
fn lines_of_versions_4_and_5(rt: HostRuntime) -> Result<(), Fail> {
    compare(&rt, rt.alloc(), LINES_4)?;
    compare(&rt, rt.alloc(), LINES_5)
}

/// The byte of the object at which its line table begins, which says how long that is.
const TABLE: usize = 0xaa;

/// A table that would be longer than its section tells of no line.
#[test]
fn a_damaged_table_is_left_out(rt: HostRuntime) -> Result<(), Fail> {
    let mut bytes = hex::decode(rt.alloc(), LINES_5)?;
    if bytes.len() <= TABLE {
        return Err(Fail::from("no table"));
    }
    bytes[TABLE] = bytes[TABLE].wrapping_add(1);
    let object = Object::read(&bytes)?;
    assert!(rt; Lines::read(rt.alloc(), &object)?.is_empty());
    Ok(())
}
