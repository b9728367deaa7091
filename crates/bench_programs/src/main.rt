//! Loads a program and runs it over a block. Prints R0, the number of steps, the length of the group and its frames, and,
//! after some rounds, the least time of a block run in picoseconds. Or only loads it, and prints the number of instructions and the
//! least time of a load in nanoseconds.
//!
//! bench_programs PROGRAM BLOCK ROUNDS REPEATS FORM, which is `checked`, `prepared` or `loads`
#![tactic(auto)]

mod asked;
mod loads;
mod runs;

use asked::{Asked, read_words};
use interval_domain::Intervals;
use loads::load;
use program_interface::{CONTEXT_BYTES, LARGEST_BLOCK, RunSizes, SCRATCH_BYTES};
use runs::{Form, repeat, run};
use std::rt::Clock;
use std::time::Instant;
use std::{env, io};
use verified_run::{Prepared, Stack, StepCount};
use verifier::Verified;

/// The nanoseconds of some block runs.
fn round(
    rt: &impl Clock,
    program: &Prepared<Verified<Intervals>>,
    form: Form,
    asked: &Asked,
    scratch: &mut [u8; SCRATCH_BYTES],
    group: &mut [u8; LARGEST_BLOCK],
    count: &mut StepCount,
) -> io::Result<u128> {
    let start = Instant::now(rt)?;
    let (block, repeats) = (&asked.block, asked.repeats);
    let done = repeat(program, form, block, repeats, scratch, group, count);
    let spent = start.elapsed(rt)?.as_nanos();
    if !done {
        return Err(io::Error::other("a block run was not done"));
    }
    Ok(spent)
}

/// Runs the program in a form, and prints what it leaves and what a block run takes.
fn time_runs(rt: &HostRuntime, asked: &Asked, form: Form) -> io::Result<()> {
    let Some(sizes) = RunSizes::new(asked.size, asked.size.bytes()) else {
        return Err(io::Error::other("the limit is more than a block"));
    };
    let verified = load(rt.alloc(), &asked.program, sizes)?;
    let (program, mut count) = Prepared::new(rt.alloc(), verified)?;
    let context = [0; CONTEXT_BYTES];
    let mut scratch = [0; SCRATCH_BYTES];
    let mut group = [0; LARGEST_BLOCK];
    let stack = &mut Stack::new();
    let Some(exit) = run(
        &program,
        form,
        &asked.block,
        &context,
        &mut scratch,
        stack,
        &mut group,
        &mut count,
    ) else {
        return Err(io::Error::other("a block run was not done"));
    };
    println!(rt;
        "{} {} {} {}",
        exit.r0, exit.steps, exit.group_length, exit.frames
    )?;
    let mut least = u128::MAX;
    for _ in 0..asked.rounds {
        let (scratch, group) = (&mut scratch, &mut group);
        least = least.min(round(rt, &program, form, asked, scratch, group, &mut count)?);
    }
    print_least(rt, asked, least.saturating_mul(1000), "ps")
}

/// Loads the program, and prints its instructions and what a load takes.
fn time_loads(rt: &HostRuntime, asked: &Asked) -> io::Result<()> {
    let Some(sizes) = RunSizes::new(asked.size, 0) else {
        return Err(io::Error::other("a limit of 0 bytes was refused"));
    };
    let verified = load(rt.alloc(), &asked.program, sizes)?;
    println!(rt; "accepted {}", verified.program().instruction_count())?;
    let mut least = u128::MAX;
    for _ in 0..asked.rounds {
        least = least.min(loads::round(rt, asked)?);
    }
    print_least(rt, asked, least, "ns")
}

/// Prints the least time of a round, for each of its repeats, where there were any.
fn print_least(rt: &HostRuntime, asked: &Asked, least: u128, unit: &str) -> io::Result<()> {
    if asked.rounds == 0 || asked.repeats == 0 {
        return Ok(());
    }
    println!(rt; "{} {unit}", least / u128::from(asked.repeats))
}

fn main(rt: HostRuntime) -> io::Result<()> {
    let mut args = env::args(&rt)?;
    args.next();
    let asked = read_words(&rt, &mut args)?;
    let form = args.next().ok_or(io::Error::other("no form"))?;
    match form.as_str() {
        "checked" => time_runs(&rt, &asked, Form::Checked),
        "prepared" => time_runs(&rt, &asked, Form::Prepared),
        "loads" => time_loads(&rt, &asked),
        _ => Err(io::Error::other("the form is checked, prepared or loads")),
    }
}
