//! A machine that reads each source block of a run at its turn, and keeps nothing of what the run will do; and that it does the
//! same as the definitions of `device_meaning`, which fix a run's turns when it is admitted.
#![tactic(auto)]

pub mod laws;
