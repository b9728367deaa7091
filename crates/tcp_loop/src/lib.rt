//! The loop that serves a target: which operations are to be made, one after another, by what came of those before. It makes none
//! itself.
#![tactic(auto)]

mod accepting;
mod calling;
mod clock;
mod counters;
mod deeds;
mod hosts;
mod incoming;
mod news;
mod operation;
mod reading;
mod receiving;
mod running;
mod serving;
mod stage;
mod target;
mod telling;
mod turning;
mod waiting;
mod writing;

pub use counters::Counters;
pub use incoming::{INCOMING, Incoming};
pub use news::Level;
pub use operation::{Answer, Operation, PLACES, Ready, Watched, Which};
pub use receiving::{Advanced, advance};
pub use running::World;
pub use serving::{Loop, Options};
pub use stage::{Part, Stage};
pub use target::{Call, KeptTarget, RUNS};
