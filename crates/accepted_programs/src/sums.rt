//! What is known of registers together.

use instruction_set::Register;

/// A register has the word of another, or the sum of two others' words, and a number more, modulo 2^64.
#[derive(Clone, Copy, Debug)]
pub struct Sum {
    /// The register that has the sum.
    pub register: Register,
    /// The register that was moved into it.
    pub first: Register,
    /// The register that was added to it, if one was.
    pub second: Option<Register>,
    /// The number.
    pub more: u64,
}

/// The sum of two registers' words and a number, modulo 2^64, is at most another number.
#[derive(Clone, Copy, Debug)]
pub struct Fit {
    /// One of the two.
    pub first: Register,
    /// The other.
    pub second: Register,
    /// The number that is added.
    pub more: u64,
    /// What the sum is at most.
    pub most: u64,
}
