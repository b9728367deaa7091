//! What a device with runs means: when a run is admitted, what it comes to, and what each event does to a device that has runs;
//! and what holds of the states that events leave. The device is proved to do what these definitions say.
#![tactic(auto)]

pub mod laws;
