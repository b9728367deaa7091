//! The tests of zones, entries, images and packing, and of events as frames and as lines: `zone_state`, `zone_resources`, `nvme_entry`,
//! `image_store`, `image_text`, `zns_commands`, `emit_append`, `event_frames`, `event_text` and `text_lines`. They are a crate of their
//! own, so that each of those is proved once.
#![tactic(auto)]

#[cfg(test)]
mod commands;
#[cfg(test)]
mod entries;
#[cfg(test)]
mod frames;
#[cfg(test)]
mod images;
#[cfg(test)]
mod lines;
#[cfg(test)]
mod packing;
