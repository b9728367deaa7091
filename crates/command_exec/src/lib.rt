//! The command that runs events on an image.
#![tactic(auto)]

pub mod exec;
pub mod fail;
mod running;
mod serving;
mod watched;
mod worded;
