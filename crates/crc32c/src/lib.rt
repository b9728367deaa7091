//! CRC-32C, the sum of Castagnoli's polynomial over 32 bits (RFC 3720, appendix B.4).
#![tactic(auto)]

pub mod laws;
mod rows;
mod sums;
#[cfg(test)]
mod tests;

pub use sums::Sums;
