//! Programs of questions that the verifier accepts.
#![tactic(auto)]

mod compiling;
mod fault;
mod fits;
#[cfg(test)]
mod tests;

pub use compiling::compile;
pub use fault::QuestionFault;
