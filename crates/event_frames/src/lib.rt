//! What a stream asks of a device, and what answers it, as frames of bytes.
#![tactic(auto)]

mod fault;
mod frame_header;
mod laws;
mod parts;
mod replies;
mod request;
mod session;

pub use fault::{Field, StreamFault};
pub use frame_header::{HEADER_BYTES, header};
pub use laws::{frames_read_back, streams_split_in_one_way};
pub use replies::{FrameRoom, Frames, push_drained, push_reply, push_saved};
pub use request::{Request, push_request, state_number};
pub use session::{Session, Taken};
