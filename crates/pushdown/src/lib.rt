//! The pushdown theorem, and what else holds of a device's runs, entries and reads, whatever events come. It stands over
//! the definitions of `device_meaning` alone; the device is proved to do what they say.
#![tactic(auto)]

pub mod laws;
