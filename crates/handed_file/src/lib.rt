//! A file as a [`StoredFile`](stored_file::StoredFile) for which a host makes the calls: a library for C may open no file, so it hands
//! each call out, and the host tells what became of it.
//!
//! A call that is handed out is answered as done before the host makes it. So what is known of the file holds once the host has
//! told that all are done; until then it holds of what they will come to. Whoever uses such a file gives nothing away before that.
#![tactic(auto)]

mod handed_file;
pub mod laws;

pub use handed_file::{FileCall, HandedFile};
