//! Programs that are accepted or refused, worked out by hand from the rules.

use crate::sizes::sizes;
use address_domain::Addresses;
use ebpf_asm::assemble;
use ebpf_decode::decode;
use instruction_set::Program;
use interval_domain::{Constants, Intervals};
use program_interface::RunSizes;
use std::alloc::Global;
use std::process::Abort;
use std::test::Fail;
use verifier::{VerifyFault, verify};
use word_domain::Domain;

mod addresses;
mod bounds;
mod index;
mod rules;
mod runs;

fn program(alloc: Global, text: &str) -> Result<Program, Fail> {
    let bytes = assemble(alloc, text.as_bytes())?;
    Ok(decode(alloc, bytes.as_slice())?)
}

/// What is said of a program, in the words of the command `verify`.
fn verdict_of<D: Domain>(alloc: Global, text: &str, sizes: RunSizes) -> Result<String, Fail> {
    let program = program(alloc, text)?;
    let count = program.instruction_count();
    match verify::<D>(alloc, program, sizes) {
        Ok(_) => Ok(format!(in alloc; "accepted {count}")?),
        Err(VerifyFault::Refused(refusal)) => {
            let (slot, reason) = (refusal.slot, refusal.reason.number());
            Ok(format!(in alloc; "refused {slot} {reason}")?)
        }
        Err(VerifyFault::Memory) => Err(Fail::from("no memory")),
    }
}

/// Of two domains, the one whose verdicts stand first or second in a table.
#[derive(Clone, Copy)]
enum Column {
    First,
    Second,
}

/// Compares what is said of each program of a table. A line has the most bytes that may be emitted, for a block of 512 bytes if it
/// names no other; a verdict of both domains, or one of each; and the program, with ` / ` between its lines.
fn check<D: Domain>(
    rt: &impl Abort,
    alloc: Global,
    table: &str,
    column: Column,
) -> Result<(), Fail> {
    for line in table.lines() {
        let (told, text) = line.split_once(": ").ok_or("no program")?;
        let (limit, verdicts) = told.split_once(", ").ok_or("no verdict")?;
        let (limit, block) = limit.split_once(" of ").unwrap_or((limit, "512"));
        let (first, second) = verdicts.split_once(", ").unwrap_or((verdicts, verdicts));
        let wanted = match column {
            Column::First => first,
            Column::Second => second,
        };
        let text = text.replace(alloc, " / ", "\n")?;
        let sizes = sizes(block.parse::<u32>()?, limit.parse::<u32>()?)?;
        let said = verdict_of::<D>(alloc, text.as_str(), sizes)?;
        assert_eq!(rt; said.as_str(), wanted, "{line}");
    }
    Ok(())
}

#[test]
fn over_constants_and_over_intervals(rt: HostRuntime) -> Result<(), Fail> {
    use rules::{EMITS, JUMPS, KEPT, LOADS, STORES, WRITES};
    for table in [JUMPS, WRITES, LOADS, STORES, EMITS, KEPT, bounds::BOUNDS] {
        check::<Constants>(&rt, rt.alloc(), table, Column::First)?;
        check::<Intervals>(&rt, rt.alloc(), table, Column::Second)?;
    }
    Ok(())
}

#[test]
fn over_intervals_and_over_addresses(rt: HostRuntime) -> Result<(), Fail> {
    use bounds::{INDICES, KEPT, SUMS, WAYS};
    for table in [INDICES, SUMS, WAYS, KEPT] {
        check::<Intervals>(&rt, rt.alloc(), table, Column::First)?;
    }
    for table in [addresses::WORDS, addresses::RECORDS] {
        check::<Intervals>(&rt, rt.alloc(), table, Column::First)?;
        check::<Addresses>(&rt, rt.alloc(), table, Column::Second)?;
    }
    Ok(())
}
