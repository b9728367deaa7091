//! How fast groups are packed, beside a plain copy of the same bytes.
#![tactic(auto)]

ghost use Rattle.std.specs.Prelude.{◌≡◌, ◌≤◌, ◌<◌, length, IfOk};

mod packing;

use packing::{BLOCK, copy_all, copy_groups, pack_groups};
use std::alloc::Global;
use std::time::Instant;
use std::{env, io};

/// The lengths of the groups.
const LENGTHS: [usize; 2] = [10, 510];

/// So many bytes stay in a processor's cache.
const IN_CACHE: usize = 1 << 16;

/// So many bytes, as those of a whole image, don't.
const IN_MEMORY: usize = 1 << 26;

/// With no word it prints what is packed, with a word the rate of packing as a part of the rate of
/// copying, each the best of many rounds.
fn main(rt: HostRuntime) -> io::Result<()> {
    if env::args(&rt)?.count() > 1 {
        compare(&rt, IN_CACHE, 2000)?;
        return compare(&rt, IN_MEMORY, 20);
    }
    let source = bytes(rt.alloc(), IN_CACHE)?;
    let mut target = bytes(rt.alloc(), IN_CACHE + IN_CACHE / 8)?;
    for length in LENGTHS {
        let blocks = pack_groups(&source, length, &mut target) / BLOCK as usize;
        println!(rt; "groups of {length} bytes fill {blocks} blocks")?;
    }
    Ok(())
}

fn bytes(alloc: Global, count: usize) -> io::Result<Vec<u8>>
    ensures { IfOk result (λ bytes. length bytes.items ≡ count) }
{
    let mut bytes = Vec::with_capacity(alloc, count)?;
    for i in 0..count {
        bytes.push((i % 251) as u8)?;
    }
    Ok(bytes)
}

/// Compares over so many bytes, for groups of each length.
fn compare(rt: &HostRuntime, count: usize, rounds: u32) -> io::Result<()>
    requires { count ≤ IN_MEMORY }
{
    let source = bytes(rt.alloc(), count)?;
    let mut target = bytes(rt.alloc(), count + count / 8)?;
    for length in LENGTHS {
        measure(rt, &source, length, &mut target, rounds)?;
    }
    Ok(())
}

/// Prints the rate of packing, as a part of the rate of copying group by group and at once.
fn measure(
    rt: &HostRuntime,
    source: &[u8],
    group: usize,
    target: &mut [u8],
    rounds: u32,
) -> io::Result<()>
    requires some { 0 < group }
    requires fits { group ≤ BLOCK }
    requires room { length source.now ≤ length target.old }
{
    let mut packing = u128::MAX;
    let mut copying = u128::MAX;
    let mut whole = u128::MAX;
    let mut filled = 0;
    for _ in 0..rounds {
        let start = Instant::now(rt)?;
        filled = pack_groups(source, group, target);
        packing = packing.min(nanos_since(rt, start)?);

        let start = Instant::now(rt)?;
        filled = filled.max(copy_groups(source, group, target));
        copying = copying.min(nanos_since(rt, start)?);

        let start = Instant::now(rt)?;
        filled = filled.max(copy_all(source, target));
        whole = whole.min(nanos_since(rt, start)?);
    }
    println!(rt;
        "{} KiB in groups of {group} bytes: packed at {} % of the rate of a copy group by group, {} % of one copy of all ({filled} bytes filled)",
        source.len() / 1024,
        percent(copying, packing),
        percent(whole, packing)
    )
}

fn nanos_since(rt: &HostRuntime, start: Instant) -> io::Result<u128> {
    Ok(start.elapsed(rt)?.as_nanos())
}

/// The rate of what took the second time, as a part of the rate of what took the first, in percent.
fn percent(first: u128, second: u128) -> u128 {
    first.saturating_mul(100) / second.max(1)
}
