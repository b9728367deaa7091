//! The domain of addresses: that of intervals, in which an address is a word too.
#![tactic(auto)]

mod addresses;

pub use addresses::Addresses;
