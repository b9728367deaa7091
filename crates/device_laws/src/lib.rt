//! The laws of `device_meaning` and `pushdown` as a device's user asks for them: of a device that judges programs by intervals.
#![tactic(auto)]

pub mod laws;
