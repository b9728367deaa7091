//! The tests of NVMe over TCP, from PDUs to the target: `tcp_pdus` to `tcp_target`. They are a crate of their own, so that those
//! are proved once.
#![tactic(auto)]

#[cfg(test)]
mod admin;
#[cfg(test)]
mod connection;
#[cfg(test)]
mod connects;
#[cfg(test)]
mod load;
#[cfg(test)]
mod receiver;
#[cfg(test)]
mod target;
