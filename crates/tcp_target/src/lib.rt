//! An NVMe/TCP target in front of a device: its connections, the queue of a controller that each has, and commands. A place for each
//! connection has what is to be sent on it, and how many of its commands the device has. Connect of NVMe over Fabrics gives a connection
//! its queue.
#![tactic(auto)]

mod admin;
mod associations;
mod clocks;
mod connect_checks;
mod connect_data;
mod connect_request;
mod connected;
mod connecting;
mod ends;
mod events;
mod joining;
mod laws;
mod outcomes;
mod outgoing;
mod pieces;
mod place;
mod place_commands;
mod qualified_name;
mod queue_commands;
mod queues;
mod ready;
mod returned;
mod role;
mod table;
mod target;
mod time;

pub use associations::Associations;
pub use connect_checks::{
    CONNECT_CONTROLLER_BUSY, CONNECT_INCOMPATIBLE_FORMAT, CONNECT_INVALID_PARAMETERS,
    DATA_SGL_LENGTH_INVALID, MOST_IO_QUEUES, answer_connect,
};
pub use connect_data::{CONNECT_DATA_BYTES, ConnectData, Host, is_same_host};
pub use connect_request::{ANY_CONTROLLER, ConnectRequest};
pub use connected::{Connected, Controllers, NamedController};
pub use laws::{
    connections_stay, given_are_live, nothing_behind_the_end, others_stay, places_keep_order,
    places_stay, queues_stay_apart, statuses_are_the_standards, time_is_counted,
};
pub use pieces::{pieces_join, place_pieces_join, queue_pieces_join};
pub use place::{MOST_KEPT, MOST_UNSENT, Place};
pub use qualified_name::{NQN_BYTES, name};
pub use queues::Queues;
pub use role::{MOST_CONNECTIONS, Role};
pub use table::{Association, MOST_CONTROLLERS};
pub use target::Target;
