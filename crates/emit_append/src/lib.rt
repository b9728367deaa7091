//! Groups of frames in output blocks: packing them, reading the frames back, and how many blocks
//! they can come to.
#![tactic(auto)]

mod fault;
pub mod laws;
mod need;
mod packer;
mod refusal;
mod unpacking;

pub use fault::UnpackFault;
pub use need::{blocks_needed, blocks_needed_behind};
pub use packer::Packer;
pub use program_interface::{BlockSize, RunSizes};
pub use refusal::FrameRefusal;
pub use unpacking::unpack;
