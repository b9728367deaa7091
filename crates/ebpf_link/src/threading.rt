//! Ways over slots at which nothing is done: jumps, and compares that come out one way by what is known on the way.

use crate::deciding::decided;
use crate::known::{Known, compared, narrow};
use crate::layout::Layout;
use crate::pieces::target;
use instruction_set::{Instruction, Source};
use interval_domain::Intervals;
use word_domain::Domain;

/// Over so many slots a way leads at most.
const MOST_STEPS: usize = 16;

/// Can an edge of a compare be taken?
fn has_edge(known: &Known, branch: &Instruction, taken: bool) -> bool {
    let Instruction::Branch {
        width,
        relation,
        dst,
        source,
        ..
    } = *branch
    else {
        return true;
    };
    let same = source == Source::Register(dst);
    let second = compared(width, known, source);
    Intervals::refine(width, relation, taken, known.get(dst), second, same).is_some()
}

/// The edge of a compare that alone can be taken, if it is one.
fn only_edge(known: &Known, branch: &Instruction) -> Option<bool> {
    if let Some(is_taken) = decided(known, branch) {
        return Some(is_taken);
    }
    match (
        has_edge(known, branch, true),
        has_edge(known, branch, false),
    ) {
        (true, false) => Some(true),
        (false, true) => Some(false),
        _ => None,
    }
}

impl Layout<'_> {
    /// The slot behind one at which nothing is done, on a way where this is known.
    fn step_through(&self, slot: usize, known: &mut Known) -> Option<i64> {
        let instruction = match self.slots.get(slot) {
            Some(Some(instruction)) => *instruction,
            _ => return None,
        };
        let to = target(slot, instruction.distance()?);
        if !matches!(instruction, Instruction::Branch { .. }) {
            return Some(to);
        }
        let is_taken = only_edge(known, &instruction)?;
        if !narrow(known, &instruction, is_taken) {
            return None;
        }
        Some(if is_taken { to } else { target(slot, 0) })
    }

    /// The slot to which a way leads in the end. Where a loop begins it ends, and where it leads back.
    pub(crate) fn through(&self, from: usize, to: i64, known: &mut Known) -> i64 {
        let mut before = from.min(1 << 20) as i64;
        let mut to = to;
        for _ in 0..MOST_STEPS {
            if to < 0 || to <= before || self.loops.begins(to as usize) {
                break;
            }
            let Some(next) = self.step_through(to as usize, known) else {
                break;
            };
            before = to;
            to = next;
        }
        to
    }
}
