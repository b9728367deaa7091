//! What a connection expects, and how far it has come.

use crate::transfers::Transfers;
use tcp_pdus::{Awaits, FatalError, HostPdu};

/// What a connection expects of its next PDU.
#[derive(Drop)]
pub(crate) struct Expected {
    /// Which PDUs may come.
    pub(crate) awaits: Awaits,
    /// The R2Ts that are under way.
    pub(crate) transfers: Transfers,
}

/// What the bytes of a PDU that have come amount to.
#[derive(Clone, Copy, Debug, PartialEq, Eq)]
pub enum Progress {
    /// Less than a PDU, in which no check fails.
    Partial,
    /// A whole PDU.
    Whole(HostPdu),
    /// A PDU in which a check fails.
    Failed(FatalError),
}
