//! Streams over memory. They tell which bytes pass through them.

ghost use Rattle.std.specs.Prelude.{◌≡◌, []};

use crate::streams::{Sink, Source, StreamFault};
use std::alloc::Global;
use std::marker::Model;

/// A source that gives these bytes, as many as are asked for. It never fails.
impl Source for &[u8] {
    ghost tells = { Unit {0} };

    ghost rest = { λ s. s.now };

    ghost failures = { λ _. 0 };

    fn read(&mut self, to: &mut [u8]) -> Result<usize, StreamFault> {
        let count = self.len().min(to.len());
        let (front, rest) = self.split_at(count);
        to[..count].copy_from_slice(front);
        *self = rest;
        Ok(count)
    }

    fn skip(&mut self, most: u64) -> Result<u64, StreamFault> {
        let count = most.min(self.len() as u64);
        *self = &self[count as usize..];
        Ok(count)
    }

    fn failures(&self) -> u64 {
        0
    }
}

/// A sink that keeps all that it takes. It fails where memory for it is refused.
#[derive(Drop)]
pub struct Buffer {
    bytes: Vec<u8>,
    failures: u64,
}

impl Model for Buffer {
    ghost use Rattle.image_text.specs.Streams.{Taken};

    ghost Value = { Taken };

    ghost view = { λ b. record { bytes = b.bytes.items; failures = b.failures } };
}

impl Buffer {
    /// A sink that has taken nothing.
    pub fn new(alloc: Global) -> Buffer
        ensures bytes { result.bytes ≡ [] }
        ensures failures { result.failures ≡ 0 }
    {
        Buffer {
            bytes: Vec::new(alloc),
            failures: 0,
        }
    }

    /// The bytes taken so far.
    pub fn bytes(&self) -> &[u8]
        ensures { result.now ≡ self.now.bytes }
    {
        &self.bytes
    }

    /// The bytes taken so far, and the sink no more.
    pub fn into_bytes(self) -> Vec<u8>
        ensures { result.items ≡ self.bytes }
    {
        self.bytes
    }
}

impl Sink for Buffer {
    ghost tells = { Unit {0} };

    ghost taken = { λ s. s.bytes };

    ghost failures = { λ s. s.failures };

    fn write(&mut self, from: &[u8]) -> Result<usize, StreamFault> {
        if self.bytes.extend_from_slice(from).is_err() {
            self.failures += 1;
            return Err(StreamFault);
        }
        Ok(from.len())
    }

    fn failures(&self) -> u64 {
        self.failures
    }
}
