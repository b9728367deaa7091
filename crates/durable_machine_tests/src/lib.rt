//! The tests of `durable_machine` and of what it stands on: a machine of one number, over a file whose disk tears.
#![tactic(auto)]

#[cfg(test)]
mod keeping;
mod number;
#[cfg(test)]
mod tests;

pub use number::Number;
