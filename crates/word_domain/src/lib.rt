//! What a domain of facts about words is, and the laws that a verifier needs of it.
#![tactic(auto)]

mod bounds;
mod domain;
mod offsets;

pub use bounds::Bounds;
pub use domain::Domain;
pub use offsets::Offsets;
