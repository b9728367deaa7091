//! One connection of NVMe over TCP: its PDUs are received from a stream that comes in any pieces, and what is sent for what comes, from
//! its initialization to its end.
#![tactic(auto)]

mod commands;
mod connection;
mod dealing;
mod executing;
mod expected;
mod laws;
mod parts;
mod queue;
mod receiver;
mod state;
mod taking;
mod transfers;
mod waiting;

pub use commands::MOST_ENTRIES;
pub use connection::Connection;
pub use dealing::MOST_SENT;
pub use executing::MOST_BESIDE_DATA;
pub use expected::Progress;
pub use laws::{
    commands_go_in_order, completed_once, identifiers_differ, pieces_join, steps_join,
    transfers_are_kept, transfers_stay_apart,
};
pub use queue::{Outcome, Phase, Queue, UNCONNECTED};
pub use receiver::{MOST_IN_CAPSULE, Receiver};
