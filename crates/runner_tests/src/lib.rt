//! The tests of `runner`, a crate of their own, so that `runner` is proved once.
#![tactic(auto)]

#[cfg(test)]
mod tests;
