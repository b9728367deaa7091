//! Command identifiers that are counted up for each queue.

use std::alloc::{AllocError, Global};
use std::collections::{HashMap, HashSet};

/// The command identifiers that the entries of each queue have.
#[derive(Drop)]
pub(crate) struct Numbering {
    /// The highest of each queue.
    highest: HashMap<u16, u16>,
    /// Each, behind its queue.
    used: HashSet<(u16, u16)>,
}

impl Numbering {
    /// None.
    pub(crate) fn new(alloc: Global) -> Numbering {
        Numbering {
            highest: HashMap::new(alloc),
            used: HashSet::new(alloc),
        }
    }

    /// The identifier that counts on in a queue: one more than the highest, or behind 65535 the lowest that isn't used; 1 where
    /// none is. `None` where all are used.
    pub(crate) fn next(&self, queue: u16) -> Option<u16> {
        match self.highest.get(&queue).copied() {
            None => Some(1),
            Some(u16::MAX) => self.lowest_free(queue),
            Some(highest) => Some(highest + 1),
        }
    }

    /// The lowest identifier that isn't used in a queue.
    fn lowest_free(&self, queue: u16) -> Option<u16> {
        for number in 0..0x1_0000u32 {
            let cid = number as u16;
            if !self.used.contains(&(queue, cid)) {
                return Some(cid);
            }
        }
        None
    }

    /// Notes that an identifier is used in a queue.
    pub(crate) fn note(&mut self, queue: u16, cid: u16) -> Result<(), AllocError> {
        self.used.insert((queue, cid))?;
        let highest = match self.highest.get(&queue).copied() {
            Some(highest) => cid.max(highest),
            None => cid,
        };
        self.highest.insert(queue, highest)?;
        Ok(())
    }
}
