//! A machine of one number.

ghost use Rattle.std.specs.Prelude.{◌≡◌, ◌≤◌, ℕ, List, [], ◌∷◌, length, take, IfOk};
ghost use Rattle.durable_machine_tests.specs.Number.{IsBaseOf, number_after, one_number};

use durable_machine::{Applied, Machine};
use std::alloc::{AllocError, Global};

/// The number to which events of one byte lead: each takes it times 31, plus the byte.
#[derive(Clone, Copy, Debug, PartialEq, Eq)]
pub struct Number {
    pub value: u8,
}

impl Number {
    /// The number after an event.
    pub fn after(self, event: &[u8]) -> Self
        ensures { result ≡ number_after self event.now }
    {
        match event {
            [byte] => Number {
                value: self.value.wrapping_mul(31).wrapping_add(*byte),
            },
            _ => self,
        }
    }
}

impl Machine for Number {
    ghost loads = { IsBaseOf };

    ghost next = { λ number _ event. number_after number event };

    ghost one_base = { one_number };

    fn load(_alloc: Global, file: &[u8]) -> Result<Option<(Self, usize)>, AllocError> {
        match file.split_first() {
            Some((value, _)) => Ok(Some((Number { value: *value }, 1))),
            None => Ok(None),
        }
    }

    fn apply(&mut self, _alloc: Global, event: &[u8]) -> Result<Applied, AllocError> {
        let before = *self;
        *self = before.after(event);
        Ok(Applied {
            changes: event.len() == 1,
            starved: false,
        })
    }
}
