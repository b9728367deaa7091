//! The PDUs of NVMe over TCP (NVMe over TCP Transport 1.0, 3.6), as a controller without digests has them: the checks of those
//! that hosts send, with the fatal error of the first that fails, and the bytes of those that the controller sends. And what the entries
//! in command capsules say of their commands' data, what of them is refused at once, and the completions that answer them.
#![tactic(auto)]

mod answer;
mod common_header;
mod direction;
mod fatal_error;
mod initialize;
mod laws;
mod received;
mod sent;
mod sgl;
mod transfer;
mod wanted;

pub use answer::Answer;
pub use common_header::{COMMON_HEADER_BYTES, CommonHeader};
pub use direction::{Direction, ENTRY_BYTES, identifier};
pub use fatal_error::FatalError;
pub use initialize::{DataAlignment, InitializeRequest};
pub use laws::data_begins_aligned;
pub use received::{Awaits, HostPdu, MOST_HEADER_BYTES};
pub use sent::{
    MOST_DATA, push_c2h_data, push_c2h_term_req, push_capsule_resp, push_ic_resp, push_r2t,
};
pub use sgl::{SGL_DESCRIPTOR_TYPE_INVALID, SGL_OFFSET_INVALID, SglDescriptor, TransferLength};
pub use transfer::{DataHeader, MAX_H2C_DATA, ReadyToTransfer};
pub use wanted::wanted_data;
