//! The tests of what makes programs of C: of objects, `ebpf_object`, `ebpf_lines` and `ebpf_gather`, and of what `ebpf_link` makes of
//! them, which runs beside the slots that it was made of. They are a crate of their own, so that each of those is proved once.
#![tactic(auto)]

#[cfg(test)]
mod calls_object;
#[cfg(test)]
mod filters;
#[cfg(test)]
mod lines;
#[cfg(test)]
mod lines_objects;
#[cfg(test)]
mod objects;
#[cfg(test)]
mod programs;
#[cfg(test)]
mod runs;
