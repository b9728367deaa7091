//! The device as a library for C: exports over a handle in memory that C brings. A handle has a device in memory, a device in a file, or a
//! target over NVMe/TCP before either. The library opens no file: it hands C the calls for it, and gives what answers requests once C has
//! told that all are done. `c/pifnjarl_handle.h` has the numbers, and what C owes.
#![tactic(auto)]

mod answer_asked;
mod answered;
mod asked;
mod calls;
mod event;
mod exports;
mod files;
mod flags;
mod handle;
mod identity;
mod kept;
mod kept_answers;
mod kind;
pub mod laws;
mod loop_calls;
mod looping;
mod memory;
mod numbers;
mod opening;
mod operation_head;
mod put;
mod serving;
mod target;
mod target_answers;

pub use answer_asked::AnswerAsked;
pub use event::ReplyHead;
pub use exports::{
    pifnjarl_handle_bytes, pifnjarl_handle_call, pifnjarl_handle_end, pifnjarl_handle_open,
};
pub use handle::{Handle, Session};
pub use kept::Kept;
pub use kind::{Door, KeptKind, LoopKind, MemoryKind, Question, TargetKind};
pub use looping::Serving;
pub use operation_head::OperationHead;
pub use target::Target;
