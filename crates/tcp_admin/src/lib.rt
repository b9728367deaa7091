//! What an NVMe over TCP target answers on an admin queue: the properties of a controller, and its admin commands, whose data says
//! what the target and its namespace are.
#![tactic(auto)]

mod admin;
mod answer;
mod controller;
mod features;
mod fields;
mod identify;
mod identity;
mod laws;
mod logs;
mod pages;
mod properties;
mod status;
mod structures;
mod subsystem;

pub use admin::MOST_ADMIN_DATA;
pub use answer::Answer;
pub use controller::{Controller, ControllerStatus};
pub use laws::{data_fits_sgl, logs_are_whole, logs_tell, structures_are_whole, structures_tell};
pub use status::{
    ASYNCHRONOUS_EVENT_REQUEST_LIMIT_EXCEEDED, DATA_SGL_LENGTH_INVALID, INVALID_LOG_PAGE,
};
pub use subsystem::{MOST_NAME_BYTES, NamespaceFormat, QualifiedName, Subsystem};
