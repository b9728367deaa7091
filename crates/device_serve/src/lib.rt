//! A device that is served a stream as it comes, by one loop: lines or frames, kept in a file or in memory alone.
#![tactic(auto)]

mod any_event;
mod codec;
mod draining;
mod fault;
mod folding;
mod frames;
mod keep;
mod kept;
pub mod laws;
mod line_events;
pub mod line_laws;
mod line_spelling;
mod lines;
mod round;
mod stream;

pub use codec::{Codec, MOST_WAITING};
pub use fault::ServeFault;
pub use frames::{FrameCodec, FrameStreamRoom};
pub use keep::{Keep, KeepsNothing, NotKept};
pub use kept::KeptDevice;
pub use lines::LineCodec;
pub use stream::{serve, serve_whole};
