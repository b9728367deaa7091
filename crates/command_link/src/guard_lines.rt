//! What is told of guards: where each is, what it ends a run for, and what to write so that none is needed.

use crate::refusal::sentence;
use crate::source::{Source, origin_of_slot};
use ebpf_gather::Origin;
use ebpf_link::{Cut, GuardPlace, Linked, Need};
use program_interface::Area;
use std::alloc::{AllocError, Global};

/// The name of an area.
fn area_name(area: Area) -> &'static str {
    match area {
        Area::Context => "the context",
        Area::Block => "the block",
        Area::Stack => "the stack",
        Area::Scratch => "scratch",
    }
}

/// Is a guard told in a line of its own? That of the block's size is the user's own doing, and of a loop that is cut a line tells more.
fn is_listed(need: Need) -> bool {
    !matches!(need, Need::BlockSize(_) | Need::Rounds(_))
}

/// What doesn't hold where a guard ends a run.
pub(crate) fn unmet(alloc: Global, need: Need) -> Result<String, AllocError> {
    match need {
        Need::Inside {
            area,
            bytes,
            length,
        } => {
            let area = area_name(area);
            let what = if bytes == 1 {
                "byte isn't"
            } else {
                "bytes aren't all"
            };
            format!(in alloc; "{bytes} {what} within the {length} of {area}")
        }
        Need::SomeByte => String::from_str(alloc, "a record has no byte"),
        Need::Most(most) => {
            format!(in alloc;
                "a record has more than the {most} bytes of its area from its address on"
            )
        }
        Need::Left(left) => {
            format!(in alloc;
                "a record has more than {left} bytes, which the limit has left beside 2 for each record"
            )
        }
        Need::BlockSize(bytes) => format!(in alloc; "a block has other than {bytes} bytes"),
        Need::Rounds(rounds) => format!(in alloc; "a loop has more than {rounds} rounds"),
    }
}

/// What to write so that a guard isn't needed.
fn proving(alloc: Global, need: Need) -> Result<String, AllocError> {
    match need {
        Need::Inside { bytes, length, .. } if bytes <= length => {
            let most = length - bytes;
            format!(in alloc; "see to it just before, as by `if (offset > {most}) return 0;`")
        }
        Need::SomeByte => String::from_str(
            alloc,
            "see to it just before, as by `if (length == 0) return 0;`",
        ),
        Need::Most(most) | Need::Left(most) => {
            format!(in alloc; "see to it just before, as by `if (length > {most}) return 0;`")
        }
        Need::BlockSize(bytes) => {
            format!(in alloc; "write {bytes} in place of the size that the context has")
        }
        _ => String::from_str(alloc, "write less"),
    }
}

/// What is told of a guard, where there may be none.
pub(crate) fn of_guard(
    alloc: Global,
    source: &Source<'_, '_>,
    origin: Option<Origin>,
    need: Need,
) -> Result<String, AllocError> {
    let unmet = unmet(alloc, need)?;
    let problem = format!(in alloc; "a guard ends the run where {unmet}")?;
    let proving = proving(alloc, need)?;
    sentence(
        alloc,
        source,
        source.place_of(origin),
        problem.as_str(),
        proving.as_str(),
    )
}

/// What is told of a guard that always ends the run.
pub(crate) fn of_end(
    alloc: Global,
    source: &Source<'_, '_>,
    origin: Option<Origin>,
    need: Need,
) -> Result<String, AllocError> {
    let unmet = unmet(alloc, need)?;
    let problem = format!(in alloc; "a guard always ends the run here, since {unmet}")?;
    let advice = match need {
        Need::Inside { .. } => "access or emit what is within an area",
        _ => "emit less",
    };
    sentence(
        alloc,
        source,
        source.place_of(origin),
        problem.as_str(),
        advice,
    )
}

/// What is told of a loop that is cut.
pub(crate) fn of_cut(
    alloc: Global,
    source: &Source<'_, '_>,
    origin: Option<Origin>,
    cut: Cut,
) -> Result<String, AllocError> {
    let rounds = cut.rounds;
    let problem = format!(in alloc;
        "there is room for {rounds} rounds of a loop: a block that needs more ends its run with R0 = 7004h"
    )?;
    match source.place_of(origin) {
        Some(place) => format!(in alloc; "{place}: {problem}"),
        None => Ok(problem),
    }
}

/// Adds a line to others, where it isn't the last of them.
fn push_line(lines: &mut String, line: &str) -> Result<(), AllocError> {
    if !lines.as_str().ends_with(line) {
        lines.push_str(line)?;
    }
    Ok(())
}

/// A line for each loop of a program that is cut, and for each guard that may end a run.
pub(crate) fn guard_lines(
    alloc: Global,
    source: &Source<'_, '_>,
    linked: &Linked,
    origins: &[Option<Origin>],
) -> Result<String, AllocError> {
    let mut lines = String::new(alloc);
    for cut in &linked.cuts {
        let told = of_cut(alloc, source, origin_of_slot(origins, cut.back), *cut)?;
        let line = format!(in alloc; "cut: {told}\n")?;
        push_line(&mut lines, line.as_str())?;
    }
    for guard in &linked.guards {
        let GuardPlace { slot, need } = guard.place;
        if is_listed(need) {
            let told = of_guard(alloc, source, origin_of_slot(origins, slot), need)?;
            let line = format!(in alloc; "guard: {told}\n")?;
            push_line(&mut lines, line.as_str())?;
        }
    }
    Ok(lines)
}
