//! What many crates say alike, in definitions, with their laws and lemmas: of numbers that are bytes, of the number that
//! the bytes of a field spell, of readings that follow one another, of checks in order, of what a reader gives, and of
//! counts of failing calls. It has no code but its laws.
#![tactic(auto)]

pub mod laws;
