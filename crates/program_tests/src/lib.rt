//! The tests of programs as bytes and as text, of what they do and of which are accepted: `ebpf_decode`, `ebpf_asm`, `program_meaning`,
//! `interp`, `verifier`, and verified runs beside checked ones. They are a crate of their own, so that those are proved once.
#![tactic(auto)]

#[cfg(test)]
mod assembling;
#[cfg(test)]
mod decoding;
#[cfg(test)]
mod machine;
#[cfg(test)]
mod sizes;
#[cfg(test)]
mod slots;
#[cfg(test)]
mod verdicts;
