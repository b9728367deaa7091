//! Questions asked of a device: from a Load of their program to the records that are read back.
#![tactic(auto)]

pub mod laws;
