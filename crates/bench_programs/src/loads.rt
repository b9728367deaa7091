//! Loads: a program is decoded and verified for the block's length, and its superinstructions are made.

use crate::asked::Asked;
use ebpf_decode::decode;
use interval_domain::Intervals;
use program_interface::{BlockSize, RunSizes};
use std::alloc::Global;
use std::fmt::Display;
use std::io::{self, ErrorKind};
use std::rt::Clock;
use std::time::Instant;
use verified_run::Prepared;
use verifier::{Verified, verify};

/// The error that says a fault in its own words.
fn told<D: Display + Drop>(alloc: Global, fault: D) -> io::Error {
    match format!(in alloc; "{fault}") {
        Ok(words) => io::Error::other(words.as_str()),
        Err(_) => io::Error::from(ErrorKind::OutOfMemory),
    }
}

/// Decodes and verifies a program for runs of these sizes.
///
/// # Errors
///
/// The bytes are no program, or it is refused, or memory is wanting.
pub fn load(alloc: Global, bytes: &[u8], sizes: RunSizes) -> io::Result<Verified<Intervals>> {
    let program = match decode(alloc, bytes) {
        Ok(program) => program,
        Err(fault) => return Err(told(alloc, fault)),
    };
    match verify::<Intervals>(alloc, program, sizes) {
        Ok(verified) => Ok(verified),
        Err(fault) => Err(told(alloc, fault)),
    }
}

/// One load, for groups up to a limit: was it done?
#[inline(never)]
fn is_loaded(alloc: Global, bytes: &[u8], block: BlockSize, limit: u32) -> bool {
    let Some(sizes) = RunSizes::new(block, limit) else {
        return false;
    };
    let Ok(verified) = load(alloc, bytes, sizes) else {
        return false;
    };
    Prepared::new(alloc, verified).is_ok()
}

/// Some loads, each for another limit: was each done?
#[inline(never)]
fn are_loaded(alloc: Global, asked: &Asked) -> bool {
    let mut done = true;
    for repeat in 0..asked.repeats {
        done &= is_loaded(alloc, &asked.program, asked.size, repeat % 0x100);
    }
    done
}

/// The nanoseconds of some loads.
///
/// # Errors
///
/// A load fails, or the clock does.
pub fn round<R: Clock + AllocGlobal>(rt: &R, asked: &Asked) -> io::Result<u128> {
    let start = Instant::now(rt)?;
    let done = are_loaded(rt.alloc(), asked);
    let spent = start.elapsed(rt)?.as_nanos();
    if !done {
        return Err(io::Error::other("a load has failed"));
    }
    Ok(spent)
}
